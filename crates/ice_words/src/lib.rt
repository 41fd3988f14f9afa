// The words of the program `ice`: what its arguments ask for, or which of them is wrong.
#![tactic(auto)]

mod misuse;
mod request;

pub use ice_speakers::{channel_of, numbers_of, speakers_of};
pub use misuse::{USAGE, told};
pub use request::{Misuse, Request, read_words};
pub use sender_words::Spoken;

#[cfg(test)]
mod tests;
