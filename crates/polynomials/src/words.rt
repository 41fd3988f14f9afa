// What a sender says of its message in each part of a frame: the word of the part, the polynomial's value there modulo P.
ghost use Rattle.std.specs.Prelude.{◌≡◌, ℕ, ◌%◌, ◌<◌, length, slice_index};
ghost use Rattle.speakall.specs.Frame.{p, word_at};

use crate::P;

// A word heard of a sender, with the part of the frame in which it was heard.
#[derive(Clone, Copy, PartialEq, Eq, Debug)]
pub struct PartWord {
    pub part: u8,
    pub value: u32,
}

// The value at x of the polynomial with these coefficients, modulo P: from the highest coefficient down. It is the same at all points that are x modulo P.
// A plan has such a loop modulo q: here the modulus is a constant, by which the machine divides faster, and numbers have 32 bits, there 8.
fn value(message: &[u32], x: u64) -> u64
    requires { x < p }
    ensures below { result < p }
    ensures is { (y : ℕ) → x ≡ y % p → result ≡ word_at message.now y }
{
    let mut value = 0;
    for number in message.iter().rev() {
        value = (u64::from(*number) + x * value) % P;
    }
    value
}

// The word of a message in a part, in O(s) products.
pub fn word_at(message: &[u32], part: usize) -> u32
    ensures { result ≡ word_at message.now part }
{
    // By `as`: between usize and u64 the library has no conversion that always succeeds.
    value(message, part as u64 % P) as u32
}

// The words of the parts 0, 1, .., one for each place of the lent slice.
pub fn words_of(message: &[u32], words: &mut [u32])
    ensures { (x : ℕ) → x < length words.new → slice_index words.new x ≡ word_at message.now x }
{
    for (part, word) in words.iter_mut().enumerate() {
        *word = word_at(message, part);
    }
}
