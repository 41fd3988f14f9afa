// What is told of words that ask for nothing: which word is wrong, and what is wanted.
// And how the program is used.
ghost use Rattle.plan_words.specs.Lines.{Told, misuse_text};
ghost use Rattle.plan_words.specs.Words.{place_of};
ghost use Rattle.std.specs.Prelude.{◌≡◌, IfOk, Some, string_bytes};

use crate::request::Misuse;
use std::alloc::{AllocError, Global};
use std::fmt;

pub const USAGE: &str = "plan SENDERS K NUMBERS
    Of the channels with as many senders or more, in which K others may speak in the same frame, and whose
    messages have as many numbers or more: the one with the fewest slots in a frame, and then all of them.
    A line begins with the channel's q, d and k.
plan --raw SENDERS K NUMBERS
    The channel's 4 bytes on standard output: 1, q, d, k.
plan --help
    This text.

Example: plan 9000 9 10
29 3 9: 841 slots, 24389 senders, messages of 11 numbers
";

impl Misuse {
    // The place of the word that is wrong, from 0.
    fn place(self) -> Option<usize>
        ensures { result ≡ place_of self }
    {
        match self {
            Misuse::Unknown(i) | Misuse::NoNumber(i) | Misuse::TooMany(i) => Some(i),
            Misuse::TooFew(_) => None,
        }
    }
}

impl fmt::Display for Misuse {
    ghost output = { λ m. Some (misuse_text m) };

    fn fmt<W: fmt::Write>(&self, f: &mut fmt::Formatter<W>) -> fmt::Result {
        match *self {
            Misuse::Unknown(_) => write!(f, "no such option; there are --raw and --help"),
            Misuse::NoNumber(_) => write!(f, "no number from 0 to 18446744073709551615"),
            Misuse::TooMany(_) => write!(
                f,
                "one number too many; wanted are SENDERS, K and NUMBERS"
            ),
            Misuse::TooFew(n) => write!(f, "{n} of 3 numbers; wanted are SENDERS, K and NUMBERS"),
        }
    }
}

// The program's own name and cases; what is the same for both programs is `command_words::told`.
// The line for the user, with the word that is wrong where there is one.
pub fn told(heap: Global, misuse: Misuse, texts: &[String]) -> Result<String, AllocError>
    ensures { IfOk result (λ s. Told texts.now misuse (string_bytes s)) }
{
    command_words::told(heap, "plan", texts, misuse.place(), &misuse)
}
