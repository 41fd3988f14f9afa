// What a listener makes of a frame, written.
ghost use Rattle.std.specs.Prelude.{◌≡◌, ◌^◌, ◌≤◌, ◌⊎◌, ◌++◌, length, ◌≢◌};
ghost use Rattle.channels.specs.declared.fault.Fault.TheVariants.{Message as FaultMessage, Sender as FaultSender};
ghost use Rattle.records.specs.Numbers.{bytes_of_numbers};
ghost use Rattle.answers.specs.Readings.{bytes_of_read};
ghost use Rattle.answers.specs.Telling.{bytes_of_told, sender_of};
ghost use Rattle.writers.specs.Written.{PutOr};

use crate::put::{put, put_whole};
use answers::{Read, Told};
use channels::Fault;

// Writes what is told behind the bytes that are there; `Fault::Sender` for a sender of 2^24 or above, `Fault::Memory` without
// memory for it, and then they stay as they were.
pub fn write_told(out: &mut Vec<u8>, told: Told) -> Result<(), Fault>
    ensures { PutOr (λ e. (e ≡ FaultSender) × (2 ^ 24 ≤ sender_of told.telling)) result out.old.items (bytes_of_told told) out.new.items }
{
    put(out, &told.to_bytes()?)
}

// Writes a message that was read behind the bytes that are there; `Fault::Sender` for a sender of 2^24 or above, `Fault::Message`
// for other than as many numbers as it says, `Fault::Memory` without memory for it, and then they stay as they were.
pub fn write_read(out: &mut Vec<u8>, read: Read, numbers: &[u32]) -> Result<(), Fault>
    ensures { PutOr (λ e. ((e ≡ FaultSender) × (2 ^ 24 ≤ read.sender)) ⊎ ((e ≡ FaultMessage) × (length numbers.now ≢ read.count))) result out.old.items (bytes_of_read read ++ bytes_of_numbers numbers.now) out.new.items }
{
    let head = read.to_bytes()?;
    if numbers.len() != usize::from(read.count) {
        return Err(Fault::Message);
    }
    put_whole(out, &head, numbers)
}
