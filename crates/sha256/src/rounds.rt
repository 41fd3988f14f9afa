// What is done with one block of 64 bytes: its schedule of 64 words, and 64 rounds on the hash value.
// Sums are modulo 2^32, and in the standard's order.
ghost use Rattle.std.specs.Prelude.{◌≡◌, ◌+◌, ◌<◌, length, bit_xor};
ghost use Rattle.std.specs.Int.{rotate_right, w32};
ghost use Rattle.sha256.specs.Functions.{Ch, Maj, big_sigma0, big_sigma1, shr, sigma0, sigma1};
ghost use Rattle.sha256.specs.Hash.{compressed, next_word, round_on, rounds, schedule, sums};

use crate::constants;
use std::array;

fn choose(x: u32, y: u32, z: u32) -> u32
    ensures { result ≡ Ch x y z }
{
    (x & y) ^ (!x & z)
}

fn majority(x: u32, y: u32, z: u32) -> u32
    ensures { result ≡ Maj x y z }
{
    (x & y) ^ (x & z) ^ (y & z)
}

// The word turned right by A, by B and by C places, one added to the other without carry.
fn turned<const A: u32, const B: u32, const C: u32>(x: u32) -> u32
    ensures { result ≡ bit_xor (bit_xor (rotate_right w32 x A) (rotate_right w32 x B)) (rotate_right w32 x C) }
{
    x.rotate_right(A) ^ x.rotate_right(B) ^ x.rotate_right(C)
}

// The word turned right by A and by B places and moved right by C, one added to the other without carry.
fn turned_and_moved<const A: u32, const B: u32, const C: u32>(x: u32) -> u32
    requires { C < 32 }
    ensures { result ≡ bit_xor (bit_xor (rotate_right w32 x A) (rotate_right w32 x B)) (shr C x) }
{
    x.rotate_right(A) ^ x.rotate_right(B) ^ (x >> C)
}

fn big_sigma0(x: u32) -> u32
    ensures { result ≡ big_sigma0 x }
{
    turned::<2, 13, 22>(x)
}

fn big_sigma1(x: u32) -> u32
    ensures { result ≡ big_sigma1 x }
{
    turned::<6, 11, 25>(x)
}

fn sigma0(x: u32) -> u32
    ensures { result ≡ sigma0 x }
{
    turned_and_moved::<7, 18, 3>(x)
}

fn sigma1(x: u32) -> u32
    ensures { result ≡ sigma1 x }
{
    turned_and_moved::<17, 19, 10>(x)
}

// One round on the working variables, with the round's constant and its word.
fn round(state: [u32; 8], pair: (&u32, &u32)) -> [u32; 8]
    ensures { result ≡ round_on state pair.entry.0.now pair.entry.1.now }
{
    let (constant, word) = pair;
    let [a, b, c, d, e, f, g, h] = state;
    let t1 = h
        .wrapping_add(big_sigma1(e))
        .wrapping_add(choose(e, f, g))
        .wrapping_add(*constant)
        .wrapping_add(*word);
    let t2 = big_sigma0(a).wrapping_add(majority(a, b, c));
    [t1.wrapping_add(t2), a, b, c, d.wrapping_add(t1), e, f, g]
}

// The word that follows the first n + 16 words of a schedule.
fn next_word(w: &[u32], n: usize) -> u32
    requires { n + 16 < length w.now }
    ensures { result ≡ next_word w.now n }
{
    sigma1(w[n + 14])
        .wrapping_add(w[n + 9])
        .wrapping_add(sigma0(w[n + 1]))
        .wrapping_add(w[n])
}

// The 64 words of the schedule of a block.
fn expand(block: [u32; 16]) -> [u32; 64]
    ensures { result ≡ schedule block 48 }
{
    let mut w = [0; 64];
    w[..16].copy_from_slice(&block);
    // By index: each word is made of four words before it, which an iterator that lends its place cannot lend too.
    for n in 0..48 {
        w[n + 16] = next_word(&w, n);
    }
    w
}

// The 64 rounds.
fn all_rounds(state: [u32; 8], w: &[u32]) -> [u32; 8]
    requires { length w.now ≡ 64 }
    ensures { result ≡ rounds w.now state 64 }
{
    constants::round_constants()
        .iter()
        .zip(w)
        .fold(state, round)
}

fn sum_of(s: [u32; 8], t: [u32; 8]) -> [u32; 8]
    ensures { result ≡ sums s t }
{
    array::from_fn(|i| s[i].wrapping_add(t[i]))
}

// The hash value after a block of 16 words.
pub fn compress(state: [u32; 8], block: [u32; 16]) -> [u32; 8]
    ensures { result ≡ compressed state block }
{
    sum_of(state, all_rounds(state, &expand(block)))
}
