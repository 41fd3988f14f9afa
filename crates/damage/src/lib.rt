// What a listener makes of the words heard of one sender: its message, though some of the words be wrong, or why there is none.
// A message is s numbers below 2^30, the coefficients of a polynomial, the constant first; words are its values modulo the prime P.
#![tactic(auto)]

pub mod listen;
mod seek;

pub use listen::read;
pub use messages::{PartWord, Reading, is_message, word_at, words_of};
