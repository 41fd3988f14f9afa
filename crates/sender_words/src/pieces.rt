// A text cut at a character, and the numbers between its commas.
ghost use Rattle.std.specs.Prelude.{◌≡◌, ◌<◌};
ghost use Rattle.sender_words.specs.Pieces.{Listed, after, lent, up_to};

use crate::spoken::Wrong;
use command_words::number;
use std::alloc::Global;

// What stands before the first such character, and what stands after it, if there is one.
pub fn cut(text: &str, at: char) -> (&str, Option<&str>)
    requires { at < 128 }
    ensures front { result.0.now ≡ up_to at text.now }
    ensures back { lent result.1 ≡ after at text.now }
{
    match text.split_once(at) {
        Some((front, back)) => (front, Some(back)),
        None => (text, None),
    }
}

// The numbers between the commas of a text; `Wrong::NoMessage` where one of them is no number.
pub fn listed(heap: Global, text: &str) -> Result<Vec<u64>, Wrong>
    ensures { Listed text.now result }
{
    let mut numbers = Vec::new(heap);
    for piece in text.split(',') {
        numbers.push(number(piece).ok_or(Wrong::NoMessage)?)?;
    }
    Ok(numbers)
}
