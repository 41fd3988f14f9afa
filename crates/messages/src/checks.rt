// Whether a message fits words, as the statements have it.
ghost use Rattle.polynomials.specs.Heard.{words_in};
ghost use Rattle.speakall.specs.Frame.{agrees};
ghost use Rattle.speakall.specs.Plan.{below};
ghost use Rattle.std.specs.Prelude.{◌≡◌, ◌&&◌};

use polynomials::{PartWord, is_message, word_at};

// Whether a message lies on all these words: O(s w) products.
fn is_on(message: &[u32], words: &[PartWord]) -> bool
    ensures { result ≡ agrees message.now (words_in words.now) }
{
    words.iter().all(|word| word_at(message, usize::from(word.part)) == word.value)
}

// Whether these are the numbers of a message, and it lies on all the words.
pub fn fits(message: &[u32], words: &[PartWord]) -> bool
    ensures { result ≡ (below 1073741824 message.now && agrees message.now (words_in words.now)) }
{
    is_message(message) && is_on(message, words)
}
