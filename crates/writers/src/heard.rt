// A channel and what was heard on it, written.
ghost use Rattle.channels.specs.Settings.{settings};
ghost use Rattle.channels.specs.declared.fault.Fault.TheVariants.{Memory as FaultMemory};
ghost use Rattle.readers.specs.Inputs.{read_input};
ghost use Rattle.reading.specs.Formats.{heard_format};
ghost use Rattle.reading.specs.Reading.{finished};
ghost use Rattle.records.specs.Channels.{bytes_of_channel};
ghost use Rattle.records.specs.Hearing.{bytes_of_heard};
ghost use Rattle.std.specs.List.{flat_map, AllByRecursion};
ghost use Rattle.std.specs.Prelude.{◌≡◌, ◌++◌, IfOk, Some, MatchResult, OnOk};
ghost use Rattle.writers.specs.Order.{InOrder, ReadBack};
ghost use Rattle.writers.specs.Written.{Begun, Put};

use crate::put::put;
use channels::{Channel, Fault};
use records::{Heard, HeardBytes, channel_bytes};
use std::alloc::Global;

// Writes a channel behind the bytes that are there; `Fault::Memory` without memory for it, and then they stay as they were.
pub fn write_channel(out: &mut Vec<u8>, channel: Channel) -> Result<(), Fault>
    ensures { Put result out.old.items (bytes_of_channel channel.q channel.d channel.k) out.new.items }
{
    put(out, &channel_bytes(channel))
}

// Writes what was heard behind the bytes that are there; `Fault::Memory` without memory for it, and then they stay as they were.
pub fn write_heard(out: &mut Vec<u8>, heard: Heard) -> Result<(), Fault>
    ensures bytes { Put result out.old.items (bytes_of_heard heard) out.new.items }
    ensures back { ReadBack heard }
{
    // Each by its own length: bytes of a length that is not known are copied more slowly.
    match heard.to_bytes() {
        HeardBytes::Word(bytes) => put(out, &bytes),
        HeardBytes::Noise(bytes) => put(out, &bytes),
    }
}

// Writes all that was heard; where memory fails, some of it.
fn write_all(out: &mut Vec<u8>, records: &[Heard]) -> Result<(), Fault>
    ensures bytes { Begun result out.old.items (flat_map bytes_of_heard records.now) out.new.items }
    ensures back { OnOk result (AllByRecursion ReadBack records.now) }
{
    for heard in records {
        write_heard(out, *heard)?;
    }
    Ok(())
}

// The bytes of a whole input: a channel, and what was heard on it; `Fault::Memory` without memory for them.
// Records that stand in their order are read back as they are.
pub fn heard_input_bytes(
    heap: Global,
    channel: Channel,
    records: &[Heard],
) -> Result<Vec<u8>, Fault>
    ensures bytes { MatchResult result (λ v. v.items ≡ bytes_of_channel channel.q channel.d channel.k ++ flat_map bytes_of_heard records.now) (λ e. e ≡ FaultMemory) }
    ensures back { IfOk result (λ v. InOrder channel.q 0 records.now → read_input (λ c. heard_format c.q) v.items ≡ record { channel = Some (settings channel); reading = record { given = records.now; ending = finished } }) }
{
    let mut out = Vec::new(heap);
    write_channel(&mut out, channel)?;
    write_all(&mut out, records)?;
    Ok(out)
}
