// The bytes of a record that is not whole yet.
ghost use Rattle.std.specs.Prelude.{◌≤◌};

mod holding;

// At most 20 bytes, as many as a record has that holds a word.
// An array and its count: a reader is copied, and neither a `Vec` nor an `ArrayVec` is.
#[derive(Clone, Copy)]
pub struct Held {
    bytes: [u8; 20],
    // The first `count` are held.
    count: u8,
    ghost fits: { count ≤ 20 },
}
