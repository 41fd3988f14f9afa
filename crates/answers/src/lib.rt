// One record of what a listener makes of a frame, as bytes, high byte first: a message that was read, or what is told in its place.
// All of it works by value and on lent memory, and allocates nothing.
#![tactic(auto)]

pub mod read;
pub mod told;

pub use read::Read;
pub use told::{Telling, Told};
