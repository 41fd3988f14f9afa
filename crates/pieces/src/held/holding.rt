// Bytes held, one more, and all of them.
ghost use Rattle.pieces.specs.Waiting.{held_in};
ghost use Rattle.std.specs.Prelude.{◌≡◌, ◌<◌, [], ◌∷◌, ◌++◌, length};

use super::Held;

impl Held {
    // No bytes.
    pub fn none() -> Held
        ensures { held_in result ≡ [] }
    {
        Held {
            bytes: [0; 20],
            count: 0,
        }
    }

    // These bytes, and then one more.
    pub fn push(self, b: u8) -> Held
        requires { length (held_in self) < 20 }
        ensures { held_in result ≡ held_in self ++ (b ∷ []) }
    {
        let mut bytes = self.bytes;
        bytes[usize::from(self.count)] = b;
        Held {
            bytes,
            count: self.count + 1,
        }
    }

    // How many bytes these are.
    pub fn count(self) -> u8
        ensures { result ≡ length (held_in self) }
    {
        self.count
    }

    // The bytes, in their order.
    pub fn bytes(&self) -> &[u8]
        ensures { result.now ≡ held_in self.now }
    {
        &self.bytes[..usize::from(self.count)]
    }
}
