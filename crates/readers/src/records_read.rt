// Records read from the bytes behind the record of a channel.
ghost use Rattle.channels.specs.Settings.{settings};
ghost use Rattle.channels.specs.declared.fault.Fault.TheVariants.{Memory as FaultMemory};
ghost use Rattle.readers.specs.Inputs.{RecordsAre};
ghost use Rattle.reading.specs.Reading.{FaultStays, LastLost, read_from};
ghost use Rattle.std.specs.Prelude.{◌≡◌, MatchResult};

use crate::record::{First, Record};
use channels::{Channel, Fault};
use reading::Stopped;
use std::alloc::Global;

// The records, up to the end of the bytes or the first fault.
#[derive(Drop)]
pub struct RecordsRead<R> {
    pub records: Vec<R>,
    pub stopped: Option<Stopped>,
}

// The records, one after the other.
fn read_to_end<R: Record>(
    heap: Global,
    channel: Channel,
    bytes: &[u8],
) -> Result<RecordsRead<R>, Fault>
    ensures { MatchResult result (λ r. RecordsAre R.seen r (read_from (R.format (settings channel)) 0 4 0 bytes.now)) (λ e. e ≡ FaultMemory) }
{
    let mut records = Vec::new(heap);
    let mut left = bytes;
    let mut low: u64 = 0;
    let mut byte: u64 = 4;
    // By the bytes left: a record says itself how long it is.
    while !left.is_empty() {
        let First { record, size, next } = match R::first(heap, channel, low, left)? {
            Ok(first) => first,
            Err(unread) => {
                let fault = unread.fault();
                return Ok(RecordsRead {
                    records,
                    stopped: Some(Stopped { fault, byte }),
                });
            }
        };
        records.push(record)?;
        left = &left[size..];
        low = next;
        byte += size as u64;
    }
    Ok(RecordsRead {
        records,
        stopped: None,
    })
}

// The records in the bytes that follow the channel's record, which is the first four bytes of the input. `Fault::Memory` where
// no memory is left for them. Bytes after a faulty record change nothing, and where the input is cut, at most the last record
// that begins before the cut is lost.
pub fn read_records<R: Record>(
    heap: Global,
    channel: Channel,
    bytes: &[u8],
) -> Result<RecordsRead<R>, Fault>
    ensures read { MatchResult result (λ r. RecordsAre R.seen r (read_from (R.format (settings channel)) 0 4 0 bytes.now)) (λ e. e ≡ FaultMemory) }
    ensures stays { FaultStays (R.format (settings channel)) }
    ensures lost { LastLost (R.format (settings channel)) }
{
    read_to_end(heap, channel, bytes)
}
