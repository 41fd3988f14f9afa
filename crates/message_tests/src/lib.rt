// Examples of words and messages, and of readings with words off, as tests.
// They stand apart from the crates that they try, since tests are proved with their crate each time it is.
#![tactic(auto)]

#[cfg(test)]
mod read;
#[cfg(test)]
mod said;
