// Messages to a sender, written.
ghost use Rattle.std.specs.Prelude.{◌≡◌, ◌<◌, length};
ghost use Rattle.channels.specs.declared.fault.Fault.TheVariants.{Message as FaultMessage};
ghost use Rattle.records.specs.Messages.{bytes_of_message};
ghost use Rattle.writers.specs.Order.{MessagesBack};
ghost use Rattle.writers.specs.Written.{PutOr};

use crate::put::put_whole;
use channels::Fault;
use records::message_head;

// Writes a message behind the bytes that are there; `Fault::Message` for one of more than 255 numbers, `Fault::Memory` without
// memory for it, and then they stay as they were. Messages of as many numbers as a channel's, each below 2^30, are read back.
pub fn write_message(out: &mut Vec<u8>, numbers: &[u32]) -> Result<(), Fault>
    ensures bytes { PutOr (λ e. (e ≡ FaultMessage) × (255 < length numbers.now)) result out.old.items (bytes_of_message numbers.now) out.new.items }
    ensures back { MessagesBack }
{
    let count = u8::try_from(numbers.len()).map_err(|_| Fault::Message)?;
    put_whole(out, &message_head(count), numbers)
}
