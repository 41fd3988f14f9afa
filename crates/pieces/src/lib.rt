// An input of what was heard, read in pieces of any size: the record of a channel, and then records of what was heard.
// What it gives is what reading the whole at once gives; of the input it holds fewer than 20 bytes.
#![tactic(auto)]

pub mod heard_reader;
mod held;
pub mod phase;
pub mod together;

pub use heard_reader::{HeardReader, Step};
pub use together::read_pieces;
