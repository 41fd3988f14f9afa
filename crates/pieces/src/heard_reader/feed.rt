// Pieces of an input, one after the other, and its end.
ghost use Rattle.channels.specs.declared.fault.Fault.TheVariants.{Memory as FaultMemory};
ghost use Rattle.pieces.specs.Readers.{Fed, coming_of};
ghost use Rattle.readers.specs.Inputs.{settings_if};
ghost use Rattle.std.specs.Prelude.{◌≡◌, [], ◌++◌, take, vec_len, MatchResult};
ghost use Rattle.std.specs.Option.{option_to_list};

use super::HeardReader;
use crate::phase::Phase;
use channels::{Channel, Fault};
use reading::Stopped;
use records::Heard;

impl HeardReader {
    // The reader after the bytes of a piece, whose records are put behind those that are there; where memory fails, some of them are.
    fn feed_bytes(self, piece: &[u8], records: &mut Vec<Heard>) -> Result<HeardReader, Fault>
        ensures { MatchResult result (λ reader. Fed self piece.now records.old.items reader records.new.items) (λ e. (e ≡ FaultMemory) × (take (vec_len records.old) records.new.items ≡ records.old.items)) }
    {
        let mut reader = self;
        for b in piece {
            let step = reader.step(*b);
            reader = step.reader;
            if let Some(heard) = step.heard {
                records.push(heard)?;
            }
        }
        Ok(reader)
    }

    // The reader after a piece, whose records that became whole are put behind those that are there. Without memory for them
    // `Fault::Memory`, and the records stay as they were; this reader can be fed the piece again.
    pub fn feed(self, piece: &[u8], records: &mut Vec<Heard>) -> Result<HeardReader, Fault>
        ensures { MatchResult result (λ reader. Fed self piece.now records.old.items reader records.new.items) (λ e. (e ≡ FaultMemory) × (records.new.items ≡ records.old.items)) }
    {
        let before = records.len();
        let fed = self.feed_bytes(piece, records);
        if fed.is_err() {
            records.truncate(before);
        }
        fed
    }

    // The channel of the input, once its record was read.
    pub fn channel(self) -> Option<Channel>
        ensures { settings_if result ≡ (coming_of self []).channel }
    {
        match self.phase {
            Phase::Opening => None,
            Phase::Records(channel, _) => Some(channel),
            Phase::Over(channel, _) => channel,
        }
    }

    // Where the reading stopped, if no more bytes come; none at the end of a record.
    pub fn finish(self) -> Option<Stopped>
        ensures stopped { result ≡ (coming_of self []).stopped }
        ensures nothing { (coming_of self []).given ≡ [] }
    {
        match self.phase {
            Phase::Opening => Some(Stopped {
                fault: Fault::Kind,
                byte: 0,
            }),
            Phase::Records(..) if self.held.count() == 0 => None,
            Phase::Records(..) => Some(Stopped {
                fault: Fault::Kind,
                byte: self.byte,
            }),
            Phase::Over(_, stopped) => Some(stopped),
        }
    }
}
