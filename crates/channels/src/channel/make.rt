// How a channel is made or refused, and its sizes.
ghost use Rattle.std.specs.Prelude.{◌≡◌, ◌*◌, ◌%◌, ◌^◌, ◌<◌, ◌≤◌, true, false, MatchOption, MatchResult};
ghost use Rattle.channels.specs.Rows.{Inverse, rows};
ghost use Rattle.channels.specs.Settings.{Made, settings};
ghost use Rattle.channels.specs.Valid.{Fit, Valid, is_valid};
ghost use Rattle.channels.specs.declared.fault.Fault.TheVariants.{Channel as FaultChannel};
ghost use Rattle.speakall.specs.Plan.{listed, sides as listed_sides, size};

use super::Channel;
use crate::fault::Fault;
use crate::{inverses, table};

// Whether q is one of the numbers that it may be.
fn is_side(q: u8) -> bool
    ensures { result ≡ listed q listed_sides }
{
    table::sides().contains(&q)
}

// The inverse of a modulo q, looked up in the rows of inverses of these sides.
fn entry(q: u8, a: u8, sides: &[u8], inverses: &[u8]) -> Option<u8>
    requires rule { rows sides.now inverses.now ≡ true }
    requires there { listed q sides.now ≡ true }
    requires some { 0 < a }
    requires below { a < q }
    ensures { MatchOption result ⊥ (λ v. Inverse q a v) }
{
    // The table is flat, a row for each side in their order: rows differ in length, so they are no array of arrays.
    let mut rows = inverses;
    for side in sides {
        let (row, more) = rows.split_at(usize::from(side.saturating_sub(1)));
        if q == *side {
            return Some(row[usize::from(a) - 1]);
        }
        rows = more;
    }
    None
}

// The inverse of a modulo q, by the table.
fn look_up(q: u8, a: u8) -> Option<u8>
    requires there { listed q listed_sides ≡ true }
    requires some { 0 < a }
    requires below { a < q }
    ensures { MatchOption result ⊥ (λ v. Inverse q a v) }
{
    entry(q, a, table::sides(), inverses::inverses())
}

// Whether these numbers pass the test of a channel's.
fn passes(q: u8, d: u8, k: u8) -> bool
    ensures { result ≡ is_valid q d k }
{
    is_side(q)
        && 0 < d
        && d <= 4
        && d <= q
        && u32::from(k) * (u32::from(d) - 1) < u32::from(q)
        && u32::from(q).pow(u32::from(d)) <= 65536
}

// Whether these are the numbers of a channel.
fn is_channel(q: u8, d: u8, k: u8) -> bool
    ensures yes { result ≡ true → Fit q d k }
    ensures no { result ≡ false → Valid q d k → ⊥ }
{
    passes(q, d, k)
}

impl Channel {
    // The channel with these numbers, or `Fault::Channel`.
    pub fn new(q: u8, d: u8, k: u8) -> Result<Channel, Fault>
        ensures { MatchResult result (λ c. Made c q d k) (λ e. (e ≡ FaultChannel) × (Valid q d k → ⊥)) }
    {
        if is_channel(q, d, k) {
            Ok(Channel { q, d, k })
        } else {
            Err(Fault::Channel)
        }
    }

    // The slots of a frame: q times q.
    pub fn slots(self) -> u32
        ensures { result ≡ (settings self).q * (settings self).q }
    {
        u32::from(self.q) * u32::from(self.q)
    }

    // How many senders there are: q to the power d.
    pub fn senders(self) -> u32
        ensures { result ≡ (settings self).q ^ (settings self).d }
    {
        u32::from(self.q).pow(u32::from(self.d))
    }

    // How many numbers a message has: s = q - k (d - 1).
    pub fn numbers(self) -> u8
        ensures { result ≡ size (settings self) }
    {
        self.q - self.k * (self.d - 1)
    }

    // The number below q with which a makes the product 1 modulo q; none for 0, and for q and above.
    pub fn inverse(self, a: u8) -> Option<u8>
        ensures { MatchOption result (0 < a → (settings self).q ≤ a) (λ v. (0 < a) × (a < (settings self).q) × Inverse (settings self).q a v) }
    {
        if a == 0 || a >= self.q {
            return None;
        }
        look_up(self.q, a)
    }
}
