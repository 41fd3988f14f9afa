// What a listener makes of the words heard of one sender, whatever they are: it works the message out from the first words, and the others test it.
ghost use Rattle.channels.specs.Settings.{settings};
ghost use Rattle.messages.specs.Made.{Cleared, Made, fault_of, read_of};
ghost use Rattle.polynomials.specs.Heard.{words_in};
ghost use Rattle.std.specs.Prelude.{◌≡◌, length};

use crate::checks::fits;
use channels::{Channel, Fault};
use polynomials::{PartWord, interpolate, is_sound};

// What the words of one sender come to. Not a `Result`: all three are answers that a listener tells, and none of them ends a frame.
#[derive(Clone, Copy, PartialEq, Eq, Debug)]
pub enum Reading {
    // Fewer words than the message has numbers: so many.
    TooFew(usize),
    // A message, on so many words, of which so many are off it.
    Message { words: usize, off: usize },
    // Words that no message fits.
    Doubtful,
}

impl Reading {
    // The fault that a listener tells in the place of a message.
    pub fn fault(self) -> Option<Fault>
        ensures { result ≡ fault_of self }
    {
        match self {
            Reading::TooFew(_) => Some(Fault::TooFew),
            Reading::Message { .. } => None,
            Reading::Doubtful => Some(Fault::Doubtful),
        }
    }
}

// The reading of a sender's words on a channel; the message of s numbers goes to the lent memory, which has s places.
// Whatever is not read leaves zeros there. O(s²) products for the polynomial through the first s words, s for each of the others to test it.
pub fn read(channel: Channel, words: &[PartWord], message: &mut [u32]) -> Reading
    ensures made { Made (settings channel).q (length message.old) (words_in words.now) (read_of result message.new) }
    ensures cleared { Cleared result message.new }
{
    message.fill(0);
    let size = message.len();
    if words.len() < size {
        return Reading::TooFew(words.len());
    }
    if !is_sound(channel.parts(), words) {
        return Reading::Doubtful;
    }
    let (first, others) = words.split_at(size);
    if interpolate(first, message) && fits(message, others) {
        return Reading::Message {
            words: words.len(),
            off: 0,
        };
    }
    message.fill(0);
    Reading::Doubtful
}
