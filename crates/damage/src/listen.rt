// What a listener makes of the words heard of one sender, whatever they are: it works the message out from the first words, and the others test it;
// where too many are off it, it looks for a message that few enough are off.
ghost use Rattle.std.specs.Prelude.{◌<◌, length};
ghost use Rattle.channels.specs.Settings.{settings};
ghost use Rattle.damage.specs.Made.{Answer};
ghost use Rattle.polynomials.specs.Heard.{words_in};

use crate::seek::Search;
use channels::Channel;
use messages::Reading;
use polynomials::{PartWord, is_sound};

// The reading of words with parts below `parts`. Beside `messages::read`, which reads only what lies on all words, and searches nothing.
fn decide(parts: u8, words: &[PartWord], message: &mut [u32]) -> Reading
    requires { parts < 252 }
    ensures { Answer parts (length message.old) (words_in words.now) result message.new }
{
    if words.len() < message.len() {
        message.fill(0);
        return Reading::TooFew(words.len());
    }
    if !is_sound(parts, words) {
        message.fill(0);
        return Reading::Doubtful;
    }
    match Search::new(words, message.len()).find(message) {
        Some(off) => Reading::Message {
            words: words.len(),
            off,
        },
        None => {
            message.fill(0);
            Reading::Doubtful
        }
    }
}

// The reading of a sender's words on a channel; the message of s numbers goes to the lent memory, which has s places. Whatever is not read leaves zeros there.
// One polynomial through s words, in O(s²) products, where all words lie on it or few enough are off; else C(n, e) more at most, where e words may be off
// and the words make n blocks.
pub fn read(channel: Channel, words: &[PartWord], message: &mut [u32]) -> Reading
    ensures { Answer (settings channel).q (length message.old) (words_in words.now) result message.new }
{
    decide(channel.parts(), words, message)
}
