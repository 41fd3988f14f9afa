// Polynomials modulo the prime P: the words that a message says in the parts of a frame, and the polynomial through given words.
// A message is the list of its numbers, the coefficients of a polynomial, the constant first.
#![tactic(auto)]

pub mod checks;
mod inverses;
pub mod through;
pub mod words;

pub use checks::{is_message, is_sound, off};
pub use through::interpolate;
pub use words::{PartWord, word_at, words_of};

// Words are numbers modulo this prime, 2^31 - 1.
const P: u64 = 2_147_483_647;
