// Records of one kind, which stand one after the other behind the record of a channel.
ghost use Rattle.channels.specs.Settings.{settings};
ghost use Rattle.channels.specs.declared.fault.Fault.TheVariants.{Memory as FaultMemory};
ghost use Rattle.readers.specs.Firsts.{FirstIs};
ghost use Rattle.reading.specs.Reading.{Format, Lawful};
ghost use Rattle.speakall.specs.Plan.{Channel as Settings};
ghost use Rattle.std.specs.Prelude.{◌≡◌, MatchResult};

use channels::{Channel, Fault};
use records::Unread;
use std::alloc::Global;

// A record that stands first in some bytes.
#[derive(Drop)]
pub struct First<R> {
    pub record: R,
    // How many bytes it has.
    pub size: usize,
    // The lowest place that the next record may have.
    pub next: u64,
}

pub trait Record: Drop {
    // What the definition of reading has for a record, and how such records are read on a channel.
    ghost Seen: { Type 0 };

    ghost seen: { Self → Self.Seen };

    ghost format: { Settings → Format Self.Seen };

    // The record that stands first in these bytes on a channel, where its place must be `low` or above; `Fault::Memory` where
    // no memory is left for it. Two results: one that cannot be read ends the reading with what stands before it, want of memory with nothing.
    fn first(
        heap: Global,
        channel: Channel,
        low: u64,
        bytes: &[u8],
    ) -> Result<Result<First<Self>, Unread>, Fault>
        ensures { MatchResult result (FirstIs Self.seen (Self.format (settings channel)) low bytes.now) (λ e. e ≡ FaultMemory) };

    // A record is found by its own bytes.
    ghost lawful: { (c : Settings) → Lawful (Self.format c) };
}
