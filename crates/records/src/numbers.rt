// Numbers of four bytes, one after the other.
ghost use Rattle.records.specs.Numbers.{are_small, numbers_of};
ghost use Rattle.std.specs.Prelude.{◌≡◌};

// The numbers of a message are below 2^30; the limit is also in `polynomials`, on which this crate does not stand.
const LIMIT: u32 = 1073741824;

// Whether the numbers in these bytes are all below 2^30.
pub fn are_small(bytes: &[u8]) -> bool
    ensures { result ≡ are_small (numbers_of bytes.now) }
{
    let (fours, _) = bytes.as_chunks();
    fours.iter().all(|four| u32::from_be_bytes(*four) < LIMIT)
}
