// Messages to a sender, read from bytes.
ghost use Rattle.channels.specs.Settings.{settings};
ghost use Rattle.channels.specs.declared.fault.Fault.TheVariants.{Memory as FaultMemory};
ghost use Rattle.readers.specs.Inputs.{MessageInputIs, MessagesAre, read_input};
ghost use Rattle.reading.proofs.MessageLaws.{message_lawful};
ghost use Rattle.reading.specs.Formats.{message_format};
ghost use Rattle.reading.specs.Reading.{FaultStays, LastLost, read_from};
ghost use Rattle.records.specs.Numbers.{numbers_of};
ghost use Rattle.speakall.specs.Plan.{size};
ghost use Rattle.std.specs.Prelude.{◌≡◌, ℕ, List, MatchResult, vec_items};

use crate::input_read::{InputRead, read_input};
use crate::record::{First, Record};
use crate::records_read::{RecordsRead, read_records};
use channels::{Channel, Fault};
use records::{Unread, message_first};
use std::alloc::Global;

// The messages, each as its numbers, up to the end of the bytes or the first fault.
pub type MessageRead = RecordsRead<Vec<u32>>;

// The channel of an input, if it has one, and the messages; each has as many numbers as the channel's messages.
pub type MessageInput = InputRead<Vec<u32>>;

// The numbers in these bytes; `Fault::Memory` where no memory is left for them.
fn numbers_in(heap: Global, bytes: &[u8]) -> Result<Vec<u32>, Fault>
    ensures { MatchResult result (λ v. v.items ≡ numbers_of bytes.now) (λ e. e ≡ FaultMemory) }
{
    let (fours, _) = bytes.as_chunks();
    let numbers = fours.iter().map(|four| u32::from_be_bytes(*four));
    Ok(numbers.collect(heap)?)
}

impl Record for Vec<u32> {
    ghost Seen = { List ℕ };

    ghost seen = { λ v. vec_items v };

    ghost format = { λ c. message_format (size c) };

    ghost lawful = { λ c. message_lawful (size c) };

    fn first(
        heap: Global,
        channel: Channel,
        _low: u64,
        bytes: &[u8],
    ) -> Result<Result<First<Vec<u32>>, Unread>, Fault> {
        let count = match message_first(channel, bytes) {
            Ok(count) => count,
            Err(unread) => return Ok(Err(unread)),
        };
        let size = 2 + 4 * usize::from(count);
        let record = numbers_in(heap, &bytes[2..size])?;
        Ok(Ok(First {
            record,
            size,
            next: 0,
        }))
    }
}

// The messages in the bytes that follow the channel's record, which is the first four bytes of the input. `Fault::Memory` where no
// memory is left for them. Bytes after a faulty record change nothing, and where the input is cut, at most the last record that
// begins before the cut is lost.
pub fn read_messages(heap: Global, channel: Channel, bytes: &[u8]) -> Result<MessageRead, Fault>
    ensures read { MatchResult result (λ m. MessagesAre m (read_from (message_format (size (settings channel))) 0 4 0 bytes.now)) (λ e. e ≡ FaultMemory) }
    ensures stays { FaultStays (message_format (size (settings channel))) }
    ensures lost { LastLost (message_format (size (settings channel))) }
{
    read_records(heap, channel, bytes)
}

// The channel of an input and the messages to a sender. An input that does not begin with a channel's record is stopped at byte 0.
// `Fault::Memory` where no memory is left for the messages.
pub fn read_message_input(heap: Global, bytes: &[u8]) -> Result<MessageInput, Fault>
    ensures { MatchResult result (λ i. MessageInputIs i (read_input (λ c. message_format (size c)) bytes.now)) (λ e. e ≡ FaultMemory) }
{
    read_input(heap, bytes)
}
