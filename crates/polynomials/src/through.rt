// The polynomial through given words, of as many coefficients as there are words, worked out in the memory that is lent for it.
// f = y₀ + (X - x₀) · g, where g goes through the slopes (yᵢ - y₀) / (xᵢ - x₀) of the other words: a recursion over the words left.
// Words and values go side by side: each step lends a part of both to the next and then has the whole again, so a struct round them would be made and taken apart at each step.
ghost use Rattle.std.specs.Prelude.{◌≡◌, ℕ, ◌<◌, true, false, T, length, drop, ◌≢◌, slice_index};
ghost use Rattle.polynomials.specs.Heard.{Fitted, Product, Reduced, Slope, part_at, words_in};
ghost use Rattle.speakall.specs.Code.{sound_in};
ghost use Rattle.speakall.specs.Frame.{agrees, p, word_at};

use crate::P;
use crate::checks::is_sound;
use crate::inverses::inverse_of_difference;
use crate::words::PartWord;

// No frame has more parts than this.
const PARTS: u8 = 251;

// The slope (y - y₀) / (x - x₀) from one point to another.
fn slope(x: u8, y: u32, x0: u8, y0: u32) -> u32
    requires { (x < 251) × ((x0 < 251) × (((x ≢ x0)) × ((y < p) × (y0 < p)))) }
    ensures { (result < p) × Slope x y x0 y0 result }
{
    // By `as`: below P, so it fits.
    let rise = u64::from(y) + (P - u64::from(y0));
    (rise * inverse_of_difference(x, x0) % P) as u32
}

// Each value becomes the slope from the point (x₀, y₀) to the point of its word's part and itself.
fn slopes(x0: u8, y0: u32, words: &[PartWord], values: &mut [u32])
    requires long { length words.now ≡ length values.old }
    requires first { (x0 < 251) × (y0 < p) }
    requires apart { (k : ℕ) → k < length words.now → (part_at words.now k < 251) × (part_at words.now k ≢ x0) }
    requires reduced { Reduced values.old }
    ensures reduced { Reduced values.new }
    ensures slopes { (k : ℕ) → k < length words.now → Slope (part_at words.now k) (slice_index values.old k) x0 y0 (slice_index values.new k) }
{
    // The words by place: after a loop over `iter_mut()` in a `zip` the contracts say nothing of the memory.
    for (i, value) in values.iter_mut().enumerate() {
        *value = slope(words[i].part, *value, x0, y0);
    }
}

// The coefficients y₀, g₀, g₁, .. become those of y₀ + (X - x₀) · g.
fn times(x0: u8, values: &mut [u32])
    requires { Reduced values.old }
    ensures reduced { Reduced values.new }
    ensures product { Product x0 (slice_index values.old 0) (drop 1 values.old) values.new }
{
    let minus = P - u64::from(x0);
    // By place: a coefficient needs the one after it, which an iterator over the same values cannot lend.
    for i in 1..values.len() {
        values[i - 1] = ((u64::from(values[i - 1]) + minus * u64::from(values[i])) % P) as u32;
    }
}

// The values become the coefficients of the polynomial that has them at the parts of the words: O(s²) products for s words.
fn through(words: &[PartWord], values: &mut [u32])
    requires long { length words.now ≡ length values.old }
    requires sound { T (sound_in 251 (words_in words.now)) }
    requires reduced { Reduced values.old }
    ensures reduced { Reduced values.new }
    ensures through { (k : ℕ) → k < length words.now → word_at values.new (part_at words.now k) ≡ slice_index values.old k }
{
    let [first, left @ ..] = words else {
        return;
    };
    let start = values[0];
    let rest = &mut values[1..];
    slopes(first.part, start, left, rest);
    through(left, rest);
    times(first.part, values);
}

// The values become the coefficients of the polynomial on which the words lie.
fn fit(words: &[PartWord], values: &mut [u32])
    requires long { length words.now ≡ length values.old }
    requires sound { T (sound_in 251 (words_in words.now)) }
    ensures reduced { Reduced values.new }
    ensures agrees { T (agrees values.new (words_in words.now)) }
{
    // The words by place: after a loop over `iter_mut()` in a `zip` the contracts say nothing of the memory.
    for (i, value) in values.iter_mut().enumerate() {
        *value = words[i].value;
    }
    through(words, values);
}

// Whether the words are so many, and sound.
fn can_fit(words: &[PartWord], count: usize) -> bool
    ensures yes { result ≡ true → (length words.now ≡ count) × T (sound_in 251 (words_in words.now)) }
    ensures no { result ≡ false → length words.now ≡ count → T (sound_in 251 (words_in words.now)) → ⊥ }
{
    words.len() == count && is_sound(PARTS, words)
}

// Whether the words are as many as the values, and sound: then the values become the coefficients of the polynomial on which the words lie,
// in O(s²) products for s words, and otherwise they stay. The answer is a bool: the coefficients are in the lent memory, so an `Option` would hold nothing.
pub fn interpolate(words: &[PartWord], values: &mut [u32]) -> bool
    ensures { Fitted words.now values.old result values.new }
{
    if !can_fit(words, values.len()) {
        return false;
    }
    fit(words, values);
    true
}
