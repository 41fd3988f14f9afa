// A reader that is fed in pieces: what it is about to read, and the bytes of a record that is not whole yet.
ghost use Rattle.std.specs.Prelude.{◌≡◌, ◌<◌, true, length};
ghost use Rattle.pieces.specs.Waiting.{held_in, waits as is_waiting};

use crate::held::Held;
use crate::phase::Phase;
pub use step::Step;

mod feed;
mod step;

#[derive(Clone, Copy)]
pub struct HeardReader {
    phase: Phase,
    held: Held,
    // Where in the input the first byte that is held stands; at most 2^64 - 1.
    byte: u64,
    // Fewer than 20 bytes are held, and they are no whole record.
    ghost few: { length (held_in held) < 20 },
    ghost waits: { is_waiting phase (held_in held) ≡ true },
}
