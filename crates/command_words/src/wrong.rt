// The words of a command line by their places, and what is told of words that ask for nothing:
// the word that is wrong, where one is, and what is wrong.
ghost use Rattle.command_words.specs.Wrong.{Told, WordAt, words_in};
ghost use Rattle.std.specs.Prelude.{IfOk, IfSome, string_bytes};

use std::alloc::{AllocError, Global};
use std::fmt;

// The word in a place, from 0.
pub fn word_at(texts: &[String], i: usize) -> Option<&str>
    ensures { WordAt (words_in texts.now) i result }
{
    Some(texts.get(i)?.as_str())
}

// The line for the user of a program, as `plan: 9k: no number`. The place is that of the wrong word, from 0.
pub fn told<C: fmt::Display + Drop>(
    heap: Global,
    program: &str,
    texts: &[String],
    place: Option<usize>,
    cause: C,
) -> Result<String, AllocError>
    ensures { IfOk result (λ s. IfSome (C.output cause) (λ text. Told program.now (words_in texts.now) place text (string_bytes s))) }
{
    match place.and_then(|i| word_at(texts, i)) {
        Some(word) => format!(in heap; "{program}: {word}: {cause}"),
        None => format!(in heap; "{program}: {cause}"),
    }
}
