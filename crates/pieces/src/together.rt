// All pieces of an input, one after the other.
ghost use Rattle.channels.specs.declared.fault.Fault.TheVariants.{Memory as FaultMemory};
ghost use Rattle.pieces.specs.Coming.{answered};
ghost use Rattle.pieces.specs.Together.{Gives};
ghost use Rattle.readers.specs.Inputs.{read_input};
ghost use Rattle.reading.specs.Formats.{heard_format};
ghost use Rattle.std.specs.List.{flat_map};
ghost use Rattle.std.specs.Prelude.{◌≡◌, MatchResult};

use crate::heard_reader::HeardReader;
use channels::Fault;
use readers::{HeardInput, InputRead, RecordsRead};
use std::alloc::Global;

// What the pieces of an input give: exactly what reading them at once, joined, gives. `Fault::Memory` where no memory is left.
pub fn read_pieces(heap: Global, pieces: &[Vec<u8>]) -> Result<HeardInput, Fault>
    ensures { MatchResult result (λ i. Gives i (answered (read_input (λ c. heard_format c.q) (flat_map (λ v. v.items) pieces.now)))) (λ e. e ≡ FaultMemory) }
{
    let mut reader = HeardReader::new();
    let mut records = Vec::new(heap);
    for piece in pieces {
        reader = reader.feed(piece, &mut records)?;
    }
    Ok(InputRead {
        channel: reader.channel(),
        read: RecordsRead {
            records,
            stopped: reader.finish(),
        },
    })
}
