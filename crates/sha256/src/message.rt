// A message of two slices, one after the other.
ghost use Rattle.std.specs.Prelude.{◌≡◌, ◌+◌, ◌^◌, ◌<◌, ◌++◌, length, slice_index};

#[derive(Clone, Copy)]
pub struct Message<'a> {
    first: &'a [u8],
    second: &'a [u8],
    // No memory holds more, and the place of a padded byte is a `usize`.
    ghost short: { length first.now + length second.now < 2 ^ 63 },
}

impl<'a> Message<'a> {
    pub fn new(first: &'a [u8], second: &'a [u8]) -> Message<'a>
        requires { length first.now + length second.now < 2 ^ 63 }
        ensures { result.first.now ++ result.second.now ≡ first.now ++ second.now }
    {
        Message { first, second }
    }

    pub fn len(&self) -> usize
        ensures { result ≡ length self.now.first.now + length self.now.second.now }
    {
        self.first.len() + self.second.len()
    }

    // The byte number i.
    pub fn byte(&self, i: usize) -> u8
        requires { i < length self.now.first.now + length self.now.second.now }
        ensures { result ≡ slice_index (self.now.first.now ++ self.now.second.now) i }
    {
        if i < self.first.len() {
            self.first[i]
        } else {
            self.second[i - self.first.len()]
        }
    }
}
