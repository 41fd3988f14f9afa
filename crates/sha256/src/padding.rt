// A message padded to whole blocks.
// Its bytes and words are given by their index, so that no buffer is filled.
ghost use Rattle.std.specs.Prelude.{◌≡◌, ◌+◌, ◌*◌, ◌<◌, slice_index};
ghost use Rattle.sha256.specs.Message.{bytes, block_count};
ghost use Rattle.sha256.specs.Padding.{length_field, padded, padding as padding_of, word_at, words_from, zeros as zeros_after};

use crate::message::Message;
use std::array;

// How many blocks the message has when it is padded.
pub fn block_count(message: &Message) -> usize
    ensures { result ≡ block_count message.now }
{
    (message.len() + 8) / 64 + 1
}

// The length in bits of a message of this many bytes, modulo 2^64.
fn length_field(size: usize) -> [u8; 8]
    ensures { result ≡ length_field (8 * size) }
{
    (size as u64).wrapping_mul(8).to_be_bytes()
}

// The byte number i of what follows a message of this many bytes.
fn padding_at(size: usize, i: usize) -> u8
    requires inside { i < zeros_after size + 9 }
    ensures { result ≡ slice_index (padding_of size) i }
{
    let zeros = (119 - size % 64) % 64;
    if i == 0 {
        128
    } else if i <= zeros {
        0
    } else {
        let field = length_field(size);
        field[i - zeros - 1]
    }
}

// The byte number i of the padded message.
fn padded_at(message: &Message, i: usize) -> u8
    requires { i < 64 * block_count message.now }
    ensures { result ≡ slice_index (padded (bytes message.now)) i }
{
    let size = message.len();
    if i < size {
        message.byte(i)
    } else {
        padding_at(size, i - size)
    }
}

// The word number n of the padded message.
fn word_at(message: &Message, n: usize) -> u32
    requires { n < 16 * block_count message.now }
    ensures { result ≡ word_at (padded (bytes message.now)) n }
{
    u32::from_be_bytes(array::from_fn(|k| padded_at(message, 4 * n + k)))
}

// The words of block n.
pub fn block_words(message: &Message, n: usize) -> [u32; 16]
    requires { n < block_count message.now }
    ensures { result ≡ words_from (padded (bytes message.now)) (16 * n) 16 }
{
    array::from_fn(|j| word_at(message, 16 * n + j))
}

// The words of the only block of nine bytes.
pub fn nine_words(bytes: [u8; 9]) -> [u32; 16]
    ensures { result ≡ words_from (padded bytes) 0 16 }
{
    let [a, b, c, d, e, f, g, h, i] = bytes;
    let first = u32::from_be_bytes([a, b, c, d]);
    let second = u32::from_be_bytes([e, f, g, h]);
    let third = u32::from_be_bytes([i, 128, 0, 0]);
    [first, second, third, 0, 0, 0, 0, 0, 0, 0, 0, 0, 0, 0, 0, 72]
}
