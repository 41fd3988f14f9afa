// Whole inputs: the record of a channel, and the records behind it.
ghost use Rattle.channels.specs.declared.fault.Fault.TheVariants.{Memory as FaultMemory};
ghost use Rattle.readers.specs.Inputs.{InputIs, read_input};
ghost use Rattle.std.specs.Prelude.{◌≡◌, MatchResult};

use crate::no_channel::no_channel;
use crate::record::Record;
use crate::records_read::{RecordsRead, read_records};
use channels::{Channel, Fault};
use records::channel_first;
use std::alloc::Global;

// The channel of an input, if it has one, and the records behind it.
#[derive(Drop)]
pub struct InputRead<R> {
    pub channel: Option<Channel>,
    pub read: RecordsRead<R>,
}

// The channel of an input and its records. An input that does not begin with a channel's record is stopped at byte 0.
// `Fault::Memory` where no memory is left for the records.
pub fn read_input<R: Record>(heap: Global, bytes: &[u8]) -> Result<InputRead<R>, Fault>
    ensures { MatchResult result (λ i. InputIs R.seen i (read_input R.format bytes.now)) (λ e. e ≡ FaultMemory) }
{
    // Taken apart by `let .. else`, as a reader's answer; `no_channel` is asked for what could not be read.
    let found = channel_first(bytes);
    let Ok(channel) = found else {
        return Ok(InputRead {
            channel: None,
            read: RecordsRead {
                records: Vec::new(heap),
                stopped: Some(no_channel(found)),
            },
        });
    };
    let read = read_records(heap, channel, &bytes[4..])?;
    Ok(InputRead {
        channel: Some(channel),
        read,
    })
}
