// What the word of one sender gives: its number, and its message where one is written.
ghost use Rattle.sender_words.specs.Pieces.{lent};
ghost use Rattle.sender_words.specs.Spoken.{MessageIn, Speaks};
ghost use Rattle.sender_words.specs.declared.spoken.Wrong.TheVariants.{Memory};
ghost use Rattle.std.specs.Prelude.{◌≡◌};

use crate::pieces::{cut, listed};
use command_words::number;
use std::alloc::{AllocError, AllocFailed, Global};

// One sender's word: its number, and the message if one is given. As wide as they were written.
#[derive(Drop)]
pub struct Spoken {
    pub number: u64,
    pub message: Option<Vec<u64>>,
}

// Why a word gives no sender.
#[derive(Clone, Copy)]
pub enum Wrong {
    // No number stands first.
    NoSender,
    // What stands between two commas after `=` is no number.
    NoMessage,
    Memory,
}

impl From<AllocError> for Wrong {
    ghost from_gives = { λ _ r. r ≡ Memory };

    fn from(_e: AllocError) -> Wrong {
        Wrong::Memory
    }
}

impl<T: Drop> From<AllocFailed<T>> for Wrong {
    ghost from_gives = { λ _ r. r ≡ Memory };

    fn from(_e: AllocFailed<T>) -> Wrong {
        Wrong::Memory
    }
}

// The message in what stands after `=`, if anything does.
fn message_in(heap: Global, list: Option<&str>) -> Result<Option<Vec<u64>>, Wrong>
    ensures { MessageIn (lent list.entry) result }
{
    match list {
        Some(list) => Ok(Some(listed(heap, list)?)),
        None => Ok(None),
    }
}

// The sender that a word gives, with its message.
pub fn spoken_of(heap: Global, text: &str) -> Result<Spoken, Wrong>
    ensures { Speaks text.now result }
{
    let (name, list) = cut(text, '=');
    let number = number(name).ok_or(Wrong::NoSender)?;
    let message = message_in(heap, list)?;
    Ok(Spoken { number, message })
}
