// How a plan is made of a sender's number, and the slot that it gives in a part.
ghost use Rattle.std.specs.Prelude.{◌≡◌, ◌-◌, ◌^◌, ◌<◌, ◌≤◌, T, length, take, MatchOption, MatchResult, ◌≢◌};
ghost use Rattle.channels.specs.Plans.{Planned, plan_in};
ghost use Rattle.channels.specs.Settings.{settings};
ghost use Rattle.channels.specs.declared.fault.Fault.TheVariants.{Sender as FaultSender};
ghost use Rattle.speakall.specs.Plan.{Channel as StatementChannel, Good, IsPlan, below, digits as digits_of, slot_at};
ghost use Rattle.speakall.specs.Promise.{meet};

use super::Plan;
use crate::channel::Channel;
use crate::fault::Fault;

// Writes the number to the base q, the lowest digit first, with as many digits as there are places.
fn write_digits(number: u32, q: u8, digits: &mut [u8])
    requires { 2 < q }
    ensures { digits.new ≡ digits_of q number (length digits.old) }
{
    let mut rest = number;
    // By `as`: below q, so it fits.
    for digit in digits.iter_mut() {
        *digit = (rest % u32::from(q)) as u8;
        rest /= u32::from(q);
    }
}

// The number with `count` digits to the base q, the lowest first.
fn written(number: u32, q: u8, count: u8) -> [u8; 4]
    requires base { 2 < q }
    requires few { count ≤ 4 }
    ensures digits { take count result ≡ digits_of q number count }
    ensures below { T (below q (take count result)) }
    ensures four { length result ≡ 4 }
{
    let mut digits = [0; 4];
    write_digits(number, q, &mut digits[..usize::from(count)]);
    digits
}

impl Plan {
    // The plan of the sender with this number, or `Fault::Sender` where the channel has no such sender.
    pub fn of(channel: Channel, number: u32) -> Result<Plan, Fault>
        ensures { MatchResult result (λ p. Planned p (settings channel) number) (λ e. (e ≡ FaultSender) × ((settings channel).q ^ (settings channel).d ≤ number)) }
    {
        if number >= channel.senders() {
            return Err(Fault::Sender);
        }
        let q = channel.parts();
        let count = channel.digits();
        let digits = written(number, q, count);
        Ok(Plan { q, digits, count })
    }

    // The polynomial's value at x, modulo q: from the highest coefficient down, a product and a remainder for each.
    fn value(self, x: u8) -> u8
        ensures is { result ≡ slot_at self.q (plan_in self) x }
        ensures below { result < self.q }
    {
        // By `as`: below q, so it fits. A message has such a loop in `polynomials`, modulo a constant and on numbers of 32 bits.
        let q = u64::from(self.q);
        let mut value: u32 = 0;
        for digit in self.digits[..usize::from(self.count)].iter().rev() {
            value = ((u64::from(*digit) + u64::from(x) * u64::from(value)) % q) as u32;
        }
        value as u8
    }

    // The slot in which the sender speaks in this part: the polynomial's value there, modulo q. None for a part that isn't there.
    pub fn slot(self, part: u8) -> Option<u8>
        ensures { MatchOption result (self.q ≤ part) (λ s. (part < self.q) × (s < self.q) × (s ≡ slot_at self.q (plan_in self) part)) }
    {
        if part >= self.q {
            return None;
        }
        Some(self.value(part))
    }

    // In how many parts of a frame the two plans have one slot. Two plans of one channel that differ meet in at most d - 1.
    pub fn meets(self, other: Plan) -> u8
        ensures count { result ≡ meet self.q (slot_at self.q (plan_in self)) (slot_at other.q (plan_in other)) self.q }
        ensures seldom { (c : StatementChannel) → Good c → self.q ≡ c.q → other.q ≡ c.q → IsPlan c (plan_in self) → IsPlan c (plan_in other) → (plan_in self ≢ plan_in other) → result ≤ c.d - 1 }
    {
        // Not a chain: its `count` is a `usize`, which would have to be narrowed again.
        let mut count = 0;
        for part in 0..self.q {
            if self.value(part) == other.value(part) {
                count += 1;
            }
        }
        count
    }
}
