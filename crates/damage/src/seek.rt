// Looking for a message of which at most e of the w words are off, e being at most half of those above its size s, and at most 4.
// Words that lie on such a message are still s or more when any e are left out, and the polynomial through s of them is the message.
// So sets of words are left out. Not of single words, which are C(w, e) sets, but of blocks of (w - s) / e words: any e words lie in some e blocks,
// and without any e blocks s words or more are left. These are C(n, e) sets for n blocks: 70 instead of 23,751 for s = 11 and w = 29.
ghost use Rattle.std.specs.Prelude.{◌≡◌, ◌+◌, ◌*◌, ◌^◌, ◌<◌, ◌≤◌, T, length, take};
ghost use Rattle.damage.specs.Seeking.{NoneOn, Sought, Tried, near as near_of};
ghost use Rattle.polynomials.specs.Heard.{words_in};
ghost use Rattle.readings.specs.Blocks.{Fails, end_block, first_block, is_among, left as left_in};
ghost use Rattle.readings.specs.Reads.{spare as spare_of};
ghost use Rattle.speakall.specs.Code.{sound_in};

use polynomials::{PartWord, interpolate, is_message, off};

// No frame has more parts than this, and so no sender more words.
const PARTS: usize = 251;

// So many words may be off, if a message of `size` numbers is to be read from so many: half of those above the size, at most 4.
fn spare(words: usize, size: usize) -> usize
    ensures { result ≡ spare_of words size }
{
    (words.saturating_sub(size) / 2).min(4)
}

// Whether a block is one of those left out.
fn is_out(block: usize, out: &[usize]) -> bool
    ensures { result ≡ is_among block out.now }
{
    out.contains(&block)
}

// Copies the first words that are in none of the blocks left out, as many as there is room for.
fn keep(words: &[PartWord], block: usize, out: &[usize], room: &mut [PartWord])
    requires block { 0 < block }
    requires enough { length room.old ≤ length (left_in block out.now 0 words.now) }
    ensures { room.new ≡ take (length room.old) (left_in block out.now 0 words.now) }
{
    let left = words
        .iter()
        .enumerate()
        .filter(|(i, _)| !is_out(*i / block, out));
    // By place: after a loop over `iter_mut()` in a `zip` the contracts say nothing of the memory.
    for (place, (_, word)) in left.take(room.len()).enumerate() {
        room[place] = *word;
    }
}

// The first block of a loop over the blocks below `above`; where fewer than `level` blocks are left out, the loop goes through `above` only.
fn first(spare: usize, level: usize, above: usize) -> usize
    ensures { result ≡ first_block spare level above }
{
    if spare < level { above } else { 0 }
}

// The end of that loop.
fn end(spare: usize, level: usize, above: usize) -> usize
    requires { above < 2 ^ 63 }
    ensures { result ≡ end_block spare level above }
{
    if spare < level { above + 1 } else { above }
}

// Sound words, of which so many may be off the message that is looked for.
#[derive(Clone, Copy)]
pub struct Search<'a> {
    words: &'a [PartWord],
    spare: usize,
    ghost sound: { T (sound_in 251 (words_in words.now)) },
    ghost few: { spare ≤ 4 },
}

impl<'a> Search<'a> {
    // The search for a message of `size` numbers.
    pub fn new(words: &'a [PartWord], size: usize) -> Search<'a>
        requires { T (sound_in 251 (words_in words.now)) }
        ensures words { result.words.now ≡ words.now }
        ensures spare { result.spare ≡ spare_of (length words.now) size }
    {
        let spare = spare(words.len(), size);
        Search { words, spare }
    }

    // How many words are off these numbers, if they are a message's and at most `spare` are.
    fn near(&self, message: &[u32]) -> Option<usize>
        ensures { result ≡ near_of self.now.spare self.now.words.now message.now }
    {
        if !is_message(message) {
            return None;
        }
        let count = off(message, self.words);
        (count <= self.spare).then_some(count)
    }

    // Tries the polynomial through the words kept: how many of all words are off it, if it is a message and at most `spare` are.
    fn attempt(&self, kept: &[PartWord], message: &mut [u32]) -> Option<usize>
        ensures { Tried (length message.old) self.now.spare self.now.words.now (NoneOn (length message.old) self.now.spare self.now.words.now kept.now) result message.new }
    {
        if !interpolate(kept, message) {
            return None;
        }
        self.near(message)
    }

    // Tries the polynomial through the first words that are in none of the blocks left out.
    fn without(&self, block: usize, out: &[usize], message: &mut [u32]) -> Option<usize>
        requires block { 0 < block }
        requires few { length message.old ≤ 251 }
        requires enough { length message.old ≤ length (left_in block out.now 0 self.now.words.now) }
        ensures { Tried (length message.old) self.now.spare self.now.words.now (Fails (length message.old) self.now.spare (words_in self.now.words.now) block out.now) result message.new }
    {
        // By value, as large as the largest frame: reading takes no memory.
        let mut room = [PartWord { part: 0, value: 0 }; PARTS];
        let kept = &mut room[..message.len()];
        keep(self.words, block, out, kept);
        self.attempt(kept, message)
    }

    // Tries the words left without each set of `spare` blocks, until a message is found: C(n, spare) polynomials at most, each in O(s²) products.
    fn seek(&self, message: &mut [u32]) -> Option<usize>
        requires some { 0 < self.now.spare }
        requires enough { 2 * self.now.spare + length message.old ≤ length self.now.words.now }
        ensures { Sought (length message.old) self.now.spare self.now.words.now result message.new }
    {
        let Search { words, spare } = *self;
        let size = message.len();
        let block = (words.len() - size) / spare;
        let blocks = (words.len() - 1) / block + 1;
        // Four loops, left by a label: a set of up to four blocks, each below the one before.
        let mut found = None;
        'sets: for i in 0..blocks {
            for j in first(spare, 2, i)..end(spare, 2, i) {
                for k in first(spare, 3, j)..end(spare, 3, j) {
                    for l in first(spare, 4, k)..end(spare, 4, k) {
                        found = self.without(block, &[i, j, k, l][0..spare], message);
                        if found.is_some() {
                            break 'sets;
                        }
                    }
                }
            }
        }
        found
    }

    // The message of the words, s or more: from the first s words, and else, if any may be off, by leaving out blocks of words.
    pub fn find(&self, message: &mut [u32]) -> Option<usize>
        requires enough { length message.old ≤ length self.now.words.now }
        requires spare { self.now.spare ≡ spare_of (length self.now.words.now) (length message.old) }
        ensures { Sought (length message.old) self.now.spare self.now.words.now result message.new }
    {
        let first = &self.words[..message.len()];
        let found = self.attempt(first, message);
        if found.is_some() || self.spare == 0 {
            return found;
        }
        self.seek(message)
    }
}
