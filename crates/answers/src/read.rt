// A message that was read: the byte 4, the frame (4), the sender (3), how many of its words were heard (1), how many of these
// are off (1), how many numbers the message has (1), and the numbers (4 each).
ghost use Rattle.std.specs.Prelude.{◌≡◌, ℕ, ◌+◌, ◌*◌, ◌^◌, ◌<◌, ◌≤◌, List, ◌++◌, length, IfOk, MatchResult, Ok};
ghost use Rattle.channels.specs.declared.fault.Fault.TheVariants.{Sender as FaultSender};
ghost use Rattle.answers.specs.Readings.{bytes_of_read, read_in, read_size};

use channels::Fault;
use records::{Kind, Unread, after_kind};

// A sender's number has three bytes.
pub const SENDERS: u32 = 16777216;

// What stands before the numbers of a message that was read.
#[derive(Clone, Copy, PartialEq, Eq, Debug)]
pub struct Read {
    pub frame: u32,
    pub sender: u32,
    // All words heard of the sender, those off too.
    pub words: u8,
    pub off: u8,
    // How many numbers follow.
    pub count: u8,
}

impl Read {
    // How many bytes the record has, with its numbers.
    pub fn size(self) -> usize
        ensures { result ≡ read_size self }
    {
        11 + 4 * usize::from(self.count)
    }

    // The eleven bytes, in their order.
    fn laid_out(self) -> [u8; 11]
        ensures { result ≡ bytes_of_read self }
    {
        let kind = Kind::Read.byte();
        let [a, b, c, d] = self.frame.to_be_bytes();
        let [_, e, f, g] = self.sender.to_be_bytes();
        [kind, a, b, c, d, e, f, g, self.words, self.off, self.count]
    }

    // The eleven bytes that stand before the numbers, or `Fault::Sender` for a sender of 2^24 or above.
    // With as many numbers after them as they say, the record is read back, whatever follows.
    pub fn to_bytes(self) -> Result<[u8; 11], Fault>
        ensures bytes { MatchResult result (λ bs. (self.sender < 2 ^ 24) × (bs ≡ bytes_of_read self)) (λ e. (e ≡ FaultSender) × (2 ^ 24 ≤ self.sender)) }
        ensures back { IfOk result (λ bs. (more : List ℕ) → 4 * self.count ≤ length more → read_in (bs ++ more) ≡ Ok self) }
    {
        if self.sender >= SENDERS {
            return Err(Fault::Sender);
        }
        Ok(self.laid_out())
    }

    // What the record says that stands first in these bytes, with all its numbers: `Fault::Kind` for another kind.
    pub fn first(bytes: &[u8]) -> Result<Read, Unread>
        ensures { result ≡ read_in bytes.now }
    {
        let [a, b, c, d, e, f, g, words, off, count, rest @ ..] = after_kind(Kind::Read, bytes)?
        else {
            return Err(Unread::Short);
        };
        if rest.len() < 4 * usize::from(*count) {
            return Err(Unread::Short);
        }
        Ok(Read {
            frame: u32::from_be_bytes([*a, *b, *c, *d]),
            sender: u32::from_be_bytes([0, *e, *f, *g]),
            words: *words,
            off: *off,
            count: *count,
        })
    }
}
