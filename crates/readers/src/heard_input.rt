// What was heard on a channel, read from bytes.
ghost use Rattle.channels.specs.declared.fault.Fault.TheVariants.{Memory as FaultMemory};
ghost use Rattle.readers.specs.Inputs.{HeardInputIs, HeardIs, read_input};
ghost use Rattle.reading.proofs.HeardLaws.{heard_lawful};
ghost use Rattle.reading.specs.Formats.{heard_format};
ghost use Rattle.reading.specs.Reading.{FaultStays, LastLost, read_from};
ghost use Rattle.records.specs.declared.heard.Heard.{Heard as HeardSeen};
ghost use Rattle.std.specs.Prelude.{◌≡◌, MatchResult};

use crate::input_read::{InputRead, read_input};
use crate::record::{First, Record};
use crate::records_read::{RecordsRead, read_records};
use channels::{Channel, Fault};
use records::{Heard, Unread};
use std::alloc::Global;

// The records of what was heard, up to the end of the bytes or the first fault.
pub type HeardRead = RecordsRead<Heard>;

// The channel of an input, if it has one, and the records of what was heard on it.
pub type HeardInput = InputRead<Heard>;

impl Record for Heard {
    ghost Seen = { HeardSeen };

    ghost seen = { λ h. h };

    ghost format = { λ c. heard_format c.q };

    ghost lawful = { λ c. heard_lawful c.q };

    fn first(
        _heap: Global,
        channel: Channel,
        low: u64,
        bytes: &[u8],
    ) -> Result<Result<First<Heard>, Unread>, Fault> {
        Ok(Heard::first(channel, low, bytes).map(|heard| First {
            record: heard,
            size: heard.size(),
            next: heard.place() + 1,
        }))
    }
}

// What was heard on a channel: the records in the bytes that follow the channel's record, which is the first four bytes of the
// input. `Fault::Memory` where no memory is left for them. Bytes after a faulty record change nothing, and where the input is
// cut, at most the last record that begins before the cut is lost.
pub fn read_heard(heap: Global, channel: Channel, bytes: &[u8]) -> Result<HeardRead, Fault>
    ensures read { MatchResult result (λ h. HeardIs h (read_from (heard_format channel.q) 0 4 0 bytes.now)) (λ e. e ≡ FaultMemory) }
    ensures stays { FaultStays (heard_format channel.q) }
    ensures lost { LastLost (heard_format channel.q) }
{
    read_records(heap, channel, bytes)
}

// The channel of an input and what was heard on it. An input that does not begin with a channel's record is stopped at byte 0.
// `Fault::Memory` where no memory is left for the records.
pub fn read_heard_input(heap: Global, bytes: &[u8]) -> Result<HeardInput, Fault>
    ensures { MatchResult result (λ i. HeardInputIs i (read_input (λ c. heard_format c.q) bytes.now)) (λ e. e ≡ FaultMemory) }
{
    read_input(heap, bytes)
}
