// The lines with which the program `ice` shows one frame: its grid, its senders, where they meet and what is read.
#![tactic(auto)]

mod lines;

pub use ice_grid::{SIGNS, headers, mark, row};
pub use ice_meetings::{Meeting, meetings};
pub use lines::{heard, planned, read};

#[cfg(test)]
mod tests;
