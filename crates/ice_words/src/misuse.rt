// What is told of words that ask for nothing: which word is wrong, and what is wanted.
ghost use Rattle.ice_words.specs.Words.{Told, misuse_text, place_of};
ghost use Rattle.std.specs.Prelude.{◌≡◌, IfOk, Some, string_bytes};

use crate::request::Misuse;
use std::alloc::{AllocError, Global};
use std::fmt;

pub const USAGE: &str = "ice frame Q D K NUMBER[=A,B,..]..
    Who speaks in one frame of the channel with these q, d and k, what is heard in each slot of it,
    and what is read of each sender. A sender is given by its number, and by a message, of as many
    numbers as the channel's messages have; a number alone speaks a message of zeros.
ice --help
    This text.

Example: ice frame 5 2 2 7=10,1,0 17=3,1,4 12
";

impl Misuse {
    // The place of the word that is wrong, from 0.
    fn place(self) -> Option<usize>
        ensures { result ≡ place_of self }
    {
        match self {
            Misuse::Unknown(i)
            | Misuse::NoNumber(i)
            | Misuse::NoSender(i)
            | Misuse::NoMessage(i)
            | Misuse::Twice(i) => Some(i),
            Misuse::Nothing | Misuse::TooFew(_) | Misuse::Memory => None,
        }
    }
}

impl fmt::Display for Misuse {
    ghost output = { λ m. Some (misuse_text m) };

    fn fmt<W: fmt::Write>(&self, f: &mut fmt::Formatter<W>) -> fmt::Result {
        match *self {
            Misuse::Nothing => write!(f, "no words; --help tells which are wanted"),
            Misuse::Unknown(_) => write!(f, "no such command; there are frame and --help"),
            Misuse::NoNumber(_) => write!(f, "no number from 0 to 18446744073709551615"),
            Misuse::NoSender(_) => write!(f, "no sender, as 7 or 7=10,1,0"),
            Misuse::NoMessage(_) => write!(f, "no message of numbers, as 7=10,1,0"),
            Misuse::Twice(_) => write!(f, "a sender that is given twice"),
            Misuse::TooFew(n) => write!(
                f,
                "{n} words are too few; wanted are frame, Q, D, K and a sender or more"
            ),
            Misuse::Memory => write!(f, "out of memory"),
        }
    }
}

// The program's own name and cases; what is the same for both programs is `command_words::told`.
// The line for the user, with the word that is wrong where there is one.
pub fn told(heap: Global, misuse: Misuse, texts: &[String]) -> Result<String, AllocError>
    ensures { IfOk result (λ s. Told texts.now misuse (string_bytes s)) }
{
    command_words::told(heap, "ice", texts, misuse.place(), &misuse)
}
