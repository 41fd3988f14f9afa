// The grid of a frame: a row for each slot's number, in it a sign for each part.
// A label of three places stands before each row, and a space before each sign.
ghost use Rattle.ice_grid.specs.Marks.{blanks_of, digit_of, digits_to, headers_of, lines_in, row_of, signs_of};
ghost use Rattle.std.specs.Prelude.{◌≡◌, ◌++◌, IfOk, string_bytes, codes, decimal, OnOk};
ghost use Rattle.std.proofs.Math.Utf8.{encode};

use crate::marks::mark;
use frames::Frame;
use std::alloc::{AllocError, Global};

// What the signs mean.
pub const SIGNS: &str =
    "    .  silence    #  two or more    a letter  that sender alone (? past the 52nd)";

// The digit of a part's number at a place, 100, 10 or 1; a blank for a zero before the first digit.
fn digit(part: u8, place: u8) -> char
    ensures { result ≡ digit_of part place }
{
    if place == 0 || place > 1 && part < place {
        return ' ';
    }
    char::from(b'0' + part / place % 10)
}

// A sign more, after a space.
fn put(text: &mut String, sign: char) -> Result<(), AllocError>
    ensures { OnOk result (string_bytes text.new ≡ string_bytes text.old ++ (encode 32 ++ encode sign)) }
{
    text.push(' ')?;
    text.push(sign)?;
    Ok(())
}

// The digits of the parts' numbers at a place, 100, 10 or 1, over the signs of the q parts.
fn header(heap: Global, q: u8, place: u8) -> Result<String, AllocError>
    ensures { IfOk result (λ s. string_bytes s ≡ codes "   " ++ digits_to place q) }
{
    let mut text = String::from_str(heap, "   ")?;
    for part in 0..q {
        put(&mut text, digit(part, place))?;
    }
    Ok(text)
}

// The numbers of the q parts, over their signs: a line for each place of the highest.
pub fn headers(heap: Global, q: u8) -> Result<Vec<String>, AllocError>
    ensures { IfOk result (λ v. lines_in v.items ≡ headers_of q) }
{
    let mut lines = Vec::new(heap);
    for place in [100, 10, 1] {
        if place < q {
            lines.push(header(heap, q, place)?)?;
        }
    }
    Ok(lines)
}

// The number of a row, in three places.
fn label(heap: Global, y: u8) -> Result<String, AllocError>
    ensures { IfOk result (λ s. string_bytes s ≡ blanks_of y ++ decimal y) }
{
    format!(in heap; "{y:3}")
}

// The signs of slot y in all parts; none where the frame has no such slot. Not one function of a closure with `header`: here a slot may be missing, and each has a text of its own.
fn put_signs(text: &mut String, frame: &Frame, numbers: &[u32], y: u8) -> Result<(), AllocError>
    ensures { OnOk result (string_bytes text.new ≡ string_bytes text.old ++ signs_of frame.now.channel.q frame.now.slots.items numbers.now y) }
{
    for part in 0..frame.channel().parts() {
        if let Some(slot) = frame.slot(part, y) {
            put(text, mark(slot, numbers))?;
        }
    }
    Ok(())
}

// The row of slot y: its number, and the sign of that slot in each part.
pub fn row(heap: Global, frame: &Frame, numbers: &[u32], y: u8) -> Result<String, AllocError>
    ensures { IfOk result (λ s. string_bytes s ≡ row_of frame.now.channel.q frame.now.slots.items numbers.now y) }
{
    let mut text = label(heap, y)?;
    put_signs(&mut text, frame, numbers, y)?;
    Ok(text)
}
