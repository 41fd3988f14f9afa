// The kinds of records, by the byte that each begins with.
ghost use Rattle.records.specs.Kinds.{after_kind, byte_of};
ghost use Rattle.std.specs.Prelude.{◌≡◌, Ok, Err, MatchResult};

use crate::unread::Unread;
use channels::Fault;

#[derive(Clone, Copy, PartialEq, Eq, Debug)]
pub enum Kind {
    // A channel.
    Channel,
    // A message to a sender.
    Message,
    // What was heard in a slot.
    Heard,
    // A message that was read.
    Read,
    // What is told in place of a message.
    Told,
}

impl Kind {
    // The byte of the kind, 1 to 5.
    pub fn byte(self) -> u8
        ensures { result ≡ byte_of self }
    {
        match self {
            Kind::Channel => 1,
            Kind::Message => 2,
            Kind::Heard => 3,
            Kind::Read => 4,
            Kind::Told => 5,
        }
    }
}

// What stands after the byte of the kind, which these bytes must begin with: `Fault::Kind` for another kind.
pub fn after_kind(kind: Kind, bytes: &[u8]) -> Result<&[u8], Unread>
    ensures { MatchResult result (λ rest. after_kind (byte_of kind) bytes.now ≡ Ok rest.now) (λ e. after_kind (byte_of kind) bytes.now ≡ Err e) }
{
    let (first, rest) = bytes.split_first().ok_or(Unread::Short)?;
    if *first != kind.byte() {
        return Err(Unread::Wrong(Fault::Kind));
    }
    Ok(rest)
}
