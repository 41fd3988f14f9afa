// One byte more.
ghost use Rattle.std.specs.Prelude.{◌≡◌, ℕ, ◌<◌, true, List, [], ◌∷◌, ◌++◌, length, Some};
ghost use Rattle.channels.specs.Settings.{settings};
ghost use Rattle.pieces.specs.Coming.{after, answered, coming};
ghost use Rattle.pieces.specs.Readers.{coming_of};
ghost use Rattle.pieces.specs.Waiting.{Waited, held_in, waits};
ghost use Rattle.readers.specs.Inputs.{read_input};
ghost use Rattle.reading.specs.Formats.{heard_format};
ghost use Rattle.reading.specs.Reading.{read_from};
ghost use Rattle.records.specs.Channels.{channel_in};
ghost use Rattle.records.specs.Hearing.{heard_in};
ghost use Rattle.std.specs.Option.{option_to_list};

use super::HeardReader;
use crate::held::Held;
use crate::phase::Phase;
use channels::Channel;
use reading::Stopped;
use records::{Heard, Unread, channel_first};

// A reader after a byte, and the record that the byte made whole.
#[derive(Clone, Copy)]
pub struct Step {
    pub reader: HeardReader,
    pub heard: Option<Heard>,
}

// A reader of a channel's record, of which these bytes are held, the last of which just came.
fn opened(held: Held) -> HeardReader
    requires { Waited channel_in (held_in held) }
    ensures { (more : List ℕ) → answered (read_input (λ c. heard_format c.q) (held_in held ++ more)) ≡ coming_of result more }
{
    match channel_first(held.bytes()) {
        Ok(channel) => HeardReader::at(Phase::Records(channel, 0), Held::none(), 4),
        Err(Unread::Wrong(fault)) => {
            let phase = Phase::Over(None, Stopped { fault, byte: 0 });
            HeardReader::at(phase, Held::none(), 0)
        }
        Err(Unread::Short) => HeardReader::at(Phase::Opening, held, 0),
    }
}

// A reader of a record of what was heard, of which these bytes are held, the last of which just came.
fn heard_in(channel: Channel, low: u64, byte: u64, held: Held) -> Step
    requires { Waited (heard_in channel.q low) (held_in held) }
    ensures { (more : List ℕ) → answered (record { channel = Some (settings channel); reading = read_from (heard_format channel.q) low byte 0 (held_in held ++ more) }) ≡ after (option_to_list result.heard) (coming_of result.reader more) }
{
    match Heard::first(channel, low, held.bytes()) {
        Ok(heard) => {
            let phase = Phase::Records(channel, heard.place() + 1);
            let next = byte.saturating_add(u64::from(held.count()));
            Step {
                reader: HeardReader::at(phase, Held::none(), next),
                heard: Some(heard),
            }
        }
        Err(Unread::Wrong(fault)) => {
            let phase = Phase::Over(Some(channel), Stopped { fault, byte });
            Step {
                reader: HeardReader::at(phase, Held::none(), byte),
                heard: None,
            }
        }
        Err(Unread::Short) => Step {
            reader: HeardReader::at(Phase::Records(channel, low), held, byte),
            heard: None,
        },
    }
}

impl HeardReader {
    // A reader that is about to read this, and holds these bytes, of which the first stands at this byte of the input.
    fn at(phase: Phase, held: Held, byte: u64) -> HeardReader
        requires few { length (held_in held) < 20 }
        requires waited { waits phase (held_in held) ≡ true }
        ensures { (more : List ℕ) → coming_of result more ≡ coming phase byte (held_in held) more }
    {
        HeardReader { phase, held, byte }
    }

    // A reader at the beginning of an input: it will give what reading the whole gives.
    pub fn new() -> HeardReader
        ensures { (bytes : List ℕ) → coming_of result bytes ≡ answered (read_input (λ c. heard_format c.q) bytes) }
    {
        HeardReader::at(Phase::Opening, Held::none(), 0)
    }

    // The reader after one byte more, and the record of what was heard that the byte made whole.
    pub fn step(self, b: u8) -> Step
        ensures { (more : List ℕ) → coming_of self (b ∷ more) ≡ after (option_to_list result.heard) (coming_of result.reader more) }
    {
        let held = self.held.push(b);
        match self.phase {
            Phase::Opening => Step {
                reader: opened(held),
                heard: None,
            },
            Phase::Records(channel, low) => heard_in(channel, low, self.byte, held),
            Phase::Over(..) => Step {
                reader: self,
                heard: None,
            },
        }
    }
}
