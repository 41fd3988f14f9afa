// What is asked of words before they are read, and of what was read from them: each with its answer as the statements have it.
ghost use Rattle.polynomials.specs.Heard.{words_in};
ghost use Rattle.speakall.specs.Code.{off_of, sound_in};
ghost use Rattle.speakall.specs.Frame.{p};
ghost use Rattle.speakall.specs.Plan.{below};
ghost use Rattle.std.specs.Prelude.{◌≡◌, ◌&&◌, nat_lt};

use crate::P;
use crate::words::{PartWord, word_at};

// Numbers of a message are below 2^30.
const LIMIT: u32 = 1_073_741_824;

// Whether a word is of a part that is there, and a number below P.
fn is_word(parts: u8, word: PartWord) -> bool
    ensures { result ≡ (nat_lt word.part parts && nat_lt word.value p) }
{
    word.part < parts && u64::from(word.value) < P
}

// Whether the words are of different parts that are there, and numbers below P: O(w) steps for w words.
pub fn is_sound(parts: u8, words: &[PartWord]) -> bool
    ensures { result ≡ sound_in parts (words_in words.now) }
{
    // From the last word on, as the definition goes; an array of flags, since reading takes no memory.
    let mut seen = [false; 256];
    for &word in words.iter().rev() {
        let part = usize::from(word.part);
        if !is_word(parts, word) || seen[part] {
            return false;
        }
        seen[part] = true;
    }
    true
}

// Whether all values are numbers of a message.
pub fn is_message(values: &[u32]) -> bool
    ensures { result ≡ below 1073741824 values.now }
{
    values.iter().all(|value| *value < LIMIT)
}

// How many of the words a message is off: O(s w) products.
pub fn off(message: &[u32], words: &[PartWord]) -> usize
    ensures { result ≡ off_of message.now (words_in words.now) }
{
    words
        .iter()
        .filter(|word| word_at(message, usize::from(word.part)) != word.value)
        .count()
}
