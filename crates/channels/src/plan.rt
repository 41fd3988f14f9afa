// A sender's plan: in which slot of each part it speaks.
// Its methods stand in `make`, apart from the struct, whose facts they use.
ghost use Rattle.std.specs.Prelude.{◌≡◌, ◌<◌, ◌≤◌, T, length, take};
ghost use Rattle.speakall.specs.Plan.{below};

mod make;

// The coefficients of a polynomial modulo q, the constant first.
#[derive(Clone, Copy)]
pub struct Plan {
    // Parts of a frame, and slots of a part.
    q: u8,
    // The sender's number written to the base q, the lowest digit first.
    digits: [u8; 4],
    // How many of the digits count; the others are 0. Not a vector: a plan is copied, and neither a `Vec` nor an `ArrayVec` is.
    count: u8,
    ghost wide: { 2 < q },
    ghost narrow: { q < 252 },
    ghost few: { count ≤ 4 },
    ghost four: { length digits ≡ 4 },
    ghost digit: { T (below q (take count digits)) },
}
