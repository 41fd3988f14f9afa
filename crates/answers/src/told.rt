// What is told of a frame in place of a message: the byte 5, the frame (4), the sender (3), the fault's number (1), and how many
// words were heard of the sender (1). Where too many senders were heard, the sender and the count are 0.
ghost use Rattle.std.specs.Prelude.{◌≡◌, ℕ, ◌^◌, ◌<◌, ◌≤◌, List, ◌++◌, IfOk, MatchResult, Ok};
ghost use Rattle.channels.specs.declared.fault.Fault.TheVariants.{Sender as FaultSender};
ghost use Rattle.answers.specs.Telling.{Numbered, bytes_of_told, number_of, sender_of, telling_bytes, told_as, told_in};

use crate::read::SENDERS;
use channels::Fault;
use records::{Kind, Unread, after_kind};

// What is told of a frame.
#[derive(Clone, Copy, PartialEq, Eq, Debug)]
pub enum Telling {
    // Fewer words of a sender than its message has numbers.
    TooFew { sender: u32, count: u8 },
    // Words of a sender that fit no message.
    Doubtful { sender: u32, count: u8 },
    // More senders than are read of a frame.
    Crowded,
}

// Which of these is told, by the number of its `Fault`; apart, since of the ten faults only three are told.
#[derive(Clone, Copy, PartialEq, Eq, Debug)]
enum Cause {
    TooFew,
    Doubtful,
    Crowded,
}

impl Cause {
    fn number(self) -> u8
        ensures { result ≡ number_of self }
    {
        match self {
            Cause::TooFew => 6,
            Cause::Doubtful => 7,
            Cause::Crowded => 8,
        }
    }
}

impl TryFrom<u8> for Cause {
    type Error = Fault;

    ghost try_from_gives = { Numbered };

    fn try_from(number: u8) -> Result<Cause, Fault> {
        match number {
            6 => Ok(Cause::TooFew),
            7 => Ok(Cause::Doubtful),
            8 => Ok(Cause::Crowded),
            _ => Err(Fault::Kind),
        }
    }
}

#[derive(Clone, Copy, PartialEq, Eq, Debug)]
pub struct Told {
    pub frame: u32,
    pub telling: Telling,
}

// The ten bytes of what is told.
fn laid_out(frame: u32, sender: u32, cause: Cause, count: u8) -> [u8; 10]
    ensures { result ≡ telling_bytes frame sender (number_of cause) count }
{
    let kind = Kind::Told.byte();
    let [a, b, c, d] = frame.to_be_bytes();
    let [_, e, f, g] = sender.to_be_bytes();
    [kind, a, b, c, d, e, f, g, cause.number(), count]
}

impl Told {
    // The sender that is told of; 0 where too many were heard.
    fn sender(self) -> u32
        ensures { result ≡ sender_of self.telling }
    {
        match self.telling {
            Telling::TooFew { sender, .. } | Telling::Doubtful { sender, .. } => sender,
            Telling::Crowded => 0,
        }
    }

    // The ten bytes, in their order.
    fn bytes(self) -> [u8; 10]
        ensures { result ≡ bytes_of_told self }
    {
        let Told { frame, telling } = self;
        match telling {
            Telling::TooFew { sender, count } => laid_out(frame, sender, Cause::TooFew, count),
            Telling::Doubtful { sender, count } => laid_out(frame, sender, Cause::Doubtful, count),
            Telling::Crowded => laid_out(frame, 0, Cause::Crowded, 0),
        }
    }

    // The ten bytes of the record, or `Fault::Sender` for a sender of 2^24 or above. Whatever follows them, the record is read back.
    pub fn to_bytes(self) -> Result<[u8; 10], Fault>
        ensures bytes { MatchResult result (λ bs. (sender_of self.telling < 2 ^ 24) × (bs ≡ bytes_of_told self)) (λ e. (e ≡ FaultSender) × (2 ^ 24 ≤ sender_of self.telling)) }
        ensures back { IfOk result (λ bs. (more : List ℕ) → told_in (bs ++ more) ≡ Ok self) }
    {
        if self.sender() >= SENDERS {
            return Err(Fault::Sender);
        }
        Ok(self.bytes())
    }

    // What is told first in these bytes: `Fault::Kind` for another kind, for a number that is not 6, 7 or 8, and for 8 with a
    // sender or a count.
    pub fn first(bytes: &[u8]) -> Result<Told, Unread>
        ensures { result ≡ told_in bytes.now }
    {
        let [a, b, c, d, e, f, g, number, count, ..] = after_kind(Kind::Told, bytes)? else {
            return Err(Unread::Short);
        };
        let frame = u32::from_be_bytes([*a, *b, *c, *d]);
        let sender = u32::from_be_bytes([0, *e, *f, *g]);
        told_as(frame, sender, *number, *count)
    }
}

// What a number tells of a frame and a sender.
fn told_as(frame: u32, sender: u32, number: u8, count: u8) -> Result<Told, Unread>
    ensures { result ≡ told_as frame sender number count }
{
    let telling = match Cause::try_from(number)? {
        Cause::TooFew => Telling::TooFew { sender, count },
        Cause::Doubtful => Telling::Doubtful { sender, count },
        Cause::Crowded if sender == 0 && count == 0 => Telling::Crowded,
        Cause::Crowded => return Err(Unread::Wrong(Fault::Kind)),
    };
    Ok(Told { frame, telling })
}
