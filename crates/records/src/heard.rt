// What was heard in a slot that isn't silent: the byte 3, the frame (4), the part (1), the slot (1), what it was
// (1: 1 a word, 2 noise), and the twelve bytes of a word.
ghost use Rattle.std.specs.Prelude.{◌≡◌, ℕ, List, [], ◌∷◌, ◌++◌, length, Ok};
ghost use Rattle.records.specs.Hearing.{Decodes, bytes_in, bytes_of_heard, heard_in, heard_size, ordered, place_of, said_byte, whole_in};
ghost use Rattle.records.specs.Numbers.{four_bytes};

use crate::kind::{Kind, after_kind};
use crate::unread::Unread;
use channels::{Channel, Fault};

// Not an `Option`: noise is heard, and is not the want of a word.
#[derive(Clone, Copy, PartialEq, Eq, Debug)]
pub enum What {
    // One word, as its twelve bytes.
    Word([u8; 12]),
    // Two words or more, or none that counts.
    Noise,
}

#[derive(Clone, Copy, PartialEq, Eq, Debug)]
pub struct Heard {
    pub frame: u32,
    pub part: u8,
    pub slot: u8,
    pub what: What,
}

// The bytes of a record of what was heard.
#[derive(Clone, Copy)]
pub enum HeardBytes {
    Word([u8; 20]),
    Noise([u8; 8]),
}

impl HeardBytes {
    // The bytes, in their order.
    pub fn as_slice(&self) -> &[u8]
        ensures { result.now ≡ bytes_in self.now }
    {
        match self {
            HeardBytes::Word(bytes) => bytes,
            HeardBytes::Noise(bytes) => bytes,
        }
    }
}

// What a record says was heard, by its byte.
#[derive(Clone, Copy, PartialEq, Eq, Debug)]
enum Said {
    Word,
    Noise,
}

impl Said {
    fn byte(self) -> u8
        ensures { result ≡ said_byte self }
    {
        match self {
            Said::Word => 1,
            Said::Noise => 2,
        }
    }
}

impl TryFrom<u8> for Said {
    type Error = Fault;

    ghost try_from_gives = { Decodes };

    fn try_from(byte: u8) -> Result<Said, Fault> {
        match byte {
            1 => Ok(Said::Word),
            2 => Ok(Said::Noise),
            _ => Err(Fault::Kind),
        }
    }
}

// The record that stands first in these bytes, by its kind and length.
fn whole_in(bytes: &[u8]) -> Result<Heard, Unread>
    ensures { result ≡ whole_in bytes.now }
{
    let [a, b, c, d, part, slot, said, rest @ ..] = after_kind(Kind::Heard, bytes)? else {
        return Err(Unread::Short);
    };
    let what = match Said::try_from(*said)? {
        Said::Word => What::Word(*rest.first_chunk().ok_or(Unread::Short)?),
        Said::Noise => What::Noise,
    };
    Ok(Heard {
        frame: u32::from_be_bytes([*a, *b, *c, *d]),
        part: *part,
        slot: *slot,
        what,
    })
}

impl Heard {
    // The place of the record in the order of frame, part and slot.
    // A number, as the definition has it: the next record may stand one place further on, and 0 is before all.
    pub fn place(self) -> u64
        ensures { result ≡ place_of self }
    {
        u64::from(self.frame) * 65536 + u64::from(self.part) * 256 + u64::from(self.slot)
    }

    // How many bytes the record has.
    pub fn size(self) -> usize
        ensures { result ≡ heard_size self }
    {
        match self.what {
            What::Word(_) => 20,
            What::Noise => 8,
        }
    }

    // The record if its part and slot are there and its place is `low` or above; else `Fault::Order`.
    fn checked(self, channel: Channel, low: u64) -> Result<Heard, Unread>
        ensures { result ≡ ordered channel.q low self }
    {
        if self.part < channel.parts() && self.slot < channel.parts() && self.place() >= low {
            Ok(self)
        } else {
            Err(Unread::Wrong(Fault::Order))
        }
    }

    // The record that stands first in these bytes on a channel, where its place must be `low` or above: `Fault::Kind` for
    // another kind, and then `Fault::Order`.
    pub fn first(channel: Channel, low: u64, bytes: &[u8]) -> Result<Heard, Unread>
        ensures { result ≡ heard_in channel.q low bytes.now }
    {
        whole_in(bytes)?.checked(channel, low)
    }

    // The eight bytes that stand before a word, and that noise has alone.
    fn head(self, said: Said) -> [u8; 8]
        ensures { result ≡ 3 ∷ (four_bytes self.frame ++ (self.part ∷ self.slot ∷ said_byte said ∷ [])) }
    {
        let kind = Kind::Heard.byte();
        let [a, b, c, d] = self.frame.to_be_bytes();
        [kind, a, b, c, d, self.part, self.slot, said.byte()]
    }

    // The bytes of the record, in their order.
    fn laid_out(self) -> HeardBytes
        ensures bytes { bytes_in result ≡ bytes_of_heard self }
        ensures size { length (bytes_in result) ≡ heard_size self }
    {
        match self.what {
            What::Word(word) => HeardBytes::Word(joined(self.head(Said::Word), word)),
            What::Noise => HeardBytes::Noise(self.head(Said::Noise)),
        }
    }

    // The bytes of the record. Whatever follows them, the record is read back.
    pub fn to_bytes(self) -> HeardBytes
        ensures bytes { bytes_in result ≡ bytes_of_heard self }
        ensures size { length (bytes_in result) ≡ heard_size self }
        ensures back { (more : List ℕ) → whole_in (bytes_in result ++ more) ≡ Ok self }
    {
        self.laid_out()
    }
}

// Eight bytes and then twelve. Also in `words`, for 8 and 4 bytes: one function would have three lengths and a `requires` that the third is the sum, in a crate below both.
fn joined(head: [u8; 8], word: [u8; 12]) -> [u8; 20]
    ensures { result ≡ head ++ word }
{
    let mut bytes = [0; 20];
    bytes[..8].copy_from_slice(&head);
    bytes[8..].copy_from_slice(&word);
    bytes
}
