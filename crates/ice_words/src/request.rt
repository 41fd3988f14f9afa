// What the arguments ask for: `frame`, the channel's three numbers, and then a word for each sender.
ghost use Rattle.ice_words.specs.Words.{Asked, Numbered, misuse_of};
ghost use Rattle.ice_words.specs.declared.request.Misuse.TheVariants.{Memory};
ghost use Rattle.std.specs.Prelude.{◌≡◌};

use command_words::{number, word_at};
use options::is_given;
use sender_words::{Spoken, Wrong, spoken_of};
use std::alloc::{AllocError, AllocFailed, Global};
use std::collections::BTreeSet;

#[derive(Drop)]
pub enum Request {
    Help,
    // Who speaks in a frame of the channel.
    Frame {
        q: u64,
        d: u64,
        k: u64,
        spoken: Vec<Spoken>,
    },
}

// Why the words ask for nothing; a word is told by its place, from 0.
#[derive(Clone, Copy, PartialEq, Eq, Debug)]
pub enum Misuse {
    // No word at all.
    Nothing,
    // No such command.
    Unknown(usize),
    NoNumber(usize),
    NoSender(usize),
    NoMessage(usize),
    // A sender that an earlier word gives.
    Twice(usize),
    // So many words, fewer than a command, three numbers and a sender.
    TooFew(usize),
    Memory,
}

impl From<AllocError> for Misuse {
    ghost from_gives = { λ _ r. r ≡ Memory };

    fn from(_e: AllocError) -> Misuse {
        Misuse::Memory
    }
}

impl<T: Drop> From<AllocFailed<T>> for Misuse {
    ghost from_gives = { λ _ r. r ≡ Memory };

    fn from(_e: AllocFailed<T>) -> Misuse {
        Misuse::Memory
    }
}

impl Misuse {
    // Why the word in this place gives no sender. Not a `From`: it needs the word's place too.
    fn of(i: usize, wrong: Wrong) -> Misuse
        ensures { result ≡ misuse_of i wrong }
    {
        match wrong {
            Wrong::NoSender => Misuse::NoSender(i),
            Wrong::NoMessage => Misuse::NoMessage(i),
            Wrong::Memory => Misuse::Memory,
        }
    }
}

// The number at a place of the words.
fn number_at(texts: &[String], i: usize) -> Result<u64, Misuse>
    ensures { Numbered texts.now i result }
{
    let text = word_at(texts, i).ok_or(Misuse::TooFew(texts.len()))?;
    number(text).ok_or(Misuse::NoNumber(i))
}

// The senders that the words from the fifth on give.
fn all_spoken(heap: Global, texts: &[String]) -> Result<Vec<Spoken>, Misuse> {
    let mut seen = BTreeSet::new(heap);
    let mut all = Vec::new(heap);
    for (i, text) in texts.iter().enumerate().skip(4) {
        let spoken = spoken_of(heap, text.as_str()).map_err(|wrong| Misuse::of(i, wrong))?;
        if !seen.insert(spoken.number)? {
            return Err(Misuse::Twice(i));
        }
        all.push(spoken)?;
    }
    Ok(all)
}

// What the words ask for, or why they ask for nothing. `--help` among them gives help, whatever the others are.
pub fn read_words(heap: Global, texts: &[String]) -> Result<Request, Misuse>
    ensures { Asked texts.now result }
{
    if is_given("--help", texts) {
        return Ok(Request::Help);
    }
    let command = word_at(texts, 0).ok_or(Misuse::Nothing)?;
    if command != "frame" {
        return Err(Misuse::Unknown(0));
    }
    let q = number_at(texts, 1)?;
    let d = number_at(texts, 2)?;
    let k = number_at(texts, 3)?;
    if texts.len() < 5 {
        return Err(Misuse::TooFew(texts.len()));
    }
    let spoken = all_spoken(heap, texts)?;
    Ok(Request::Frame { q, d, k, spoken })
}
