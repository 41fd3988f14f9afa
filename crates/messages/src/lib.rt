// Messages: what a listener makes of the words heard of one sender.
// A message is s numbers below 2^30, the coefficients of a polynomial, the constant first, and its words are the polynomial's values.
#![tactic(auto)]

mod checks;
pub mod listen;

pub use listen::{Reading, read};
pub use polynomials::{PartWord, is_message, word_at, words_of};

#[cfg(test)]
mod tests;
