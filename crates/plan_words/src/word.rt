// What one argument is: an option, a number, or neither.
// A word that begins with `-` is taken for an option, known or not.
ghost use Rattle.plan_words.specs.Words.{AllMeant, Means};
ghost use Rattle.std.specs.Prelude.{IfOk};

use command_words::number;
use std::alloc::{AllocError, Global};

#[derive(Clone, Copy, PartialEq, Eq, Debug)]
pub enum Word {
    // `--help`
    Help,
    // `--raw`
    Raw,
    // Another word that begins with `-`.
    Unknown,
    Number(u64),
    // Neither an option nor a number below 2^64.
    NoNumber,
}

impl From<&str> for Word {
    ghost from_gives = { λ text word. Means text.now word };

    fn from(text: &str) -> Word {
        if text == "--help" {
            return Word::Help;
        }
        if text == "--raw" {
            return Word::Raw;
        }
        if text.starts_with('-') {
            return Word::Unknown;
        }
        number(text).map_or(Word::NoNumber, Word::Number)
    }
}

// The words, in the order of the texts.
pub fn words_of(heap: Global, texts: &[String]) -> Result<Vec<Word>, AllocError>
    ensures { IfOk result (λ v. AllMeant texts.now v.items) }
{
    let mut words = Vec::new(heap);
    for text in texts {
        words.push(Word::from(text.as_str()))?;
    }
    Ok(words)
}
