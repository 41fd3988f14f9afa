// SHA-256 of bytes, as FIPS 180-4 has it: of one slice, of two, and the first four bytes of the digest of nine bytes.
// All of them go through the same compression of a block, and none of them allocates.
#![tactic(auto)]

ghost use Rattle.std.specs.Prelude.{◌≡◌, ◌+◌, ◌^◌, ◌<◌, ◌++◌, length, take};
ghost use Rattle.sha256.specs.Hash.{blocks_done, bytes_of, digest as digest_of, word_bytes};
ghost use Rattle.sha256.specs.Known.{Known};
ghost use Rattle.sha256.specs.Message.{bytes, block_count};
ghost use Rattle.sha256.specs.Padding.{padded};

mod constants;
mod message;
mod padding;
mod rounds;

use message::Message;

// As many bytes as no message has.
const TOO_MANY: usize = 1 << 63;

// The hash value as bytes.
fn to_bytes(hash: [u32; 8]) -> [u8; 32]
    ensures { result ≡ bytes_of hash 8 }
{
    let mut bytes = [0; 32];
    bytes.copy_from_slice(hash.map(u32::to_be_bytes).as_flattened());
    bytes
}

// The hash value after all blocks of a message.
fn hash(message: &Message) -> [u32; 8]
    ensures { result ≡ blocks_done (padded (bytes message.now)) (block_count message.now) }
{
    let mut hash = constants::initial_hash();
    // A loop: the closure of a `fold` would not know that n is below the count of the blocks.
    for n in 0..padding::block_count(message) {
        let next = rounds::compress(hash, padding::block_words(message, n));
        hash = next;
    }
    hash
}

// The digest of a message.
fn digest(message: &Message) -> [u8; 32]
    ensures { result ≡ digest_of (bytes message.now) }
{
    to_bytes(hash(message))
}

// The digest of a message.
pub fn sha256(bytes: &[u8]) -> [u8; 32]
    ensures { result ≡ digest_of bytes.now }
{
    digest(&Message::new(bytes, &[]))
}

// The digest of one slice and then another. Of 2^63 bytes and more, which no memory holds, it is 32 zeros.
pub fn sha256_of_two(a: &[u8], b: &[u8]) -> [u8; 32]
    ensures { length a.now + length b.now < 2 ^ 63 → result ≡ digest_of (a.now ++ b.now) }
{
    if a.len() >= TOO_MANY - b.len() {
        return [0; 32];
    }
    digest(&Message::new(a, b))
}

// The first word of the hash value of nine bytes, which are one block, laid out at once: the general way looks up each byte by its place.
fn first_word(bytes: [u8; 9]) -> u32
    ensures { word_bytes result ≡ take 4 (digest_of bytes) }
{
    let words = padding::nine_words(bytes);
    let [first, ..] = rounds::compress(constants::initial_hash(), words);
    first
}

// The first four bytes of the digest of nine bytes.
pub fn sum(bytes: [u8; 9]) -> [u8; 4]
    ensures { result ≡ take 4 (digest_of bytes) }
{
    first_word(bytes).to_be_bytes()
}

// The digests of three messages, written out.
pub fn known_digests()
    ensures { Known }
{}

#[cfg(test)]
mod tests;
