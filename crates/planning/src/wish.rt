// What is asked of a channel, and whether there is a channel with a given q and d that serves.
// Whatever searches for channels asks here, so the rule of serving stands once.
ghost use Rattle.channels.specs.Settings.{settings};
ghost use Rattle.planning.specs.Wishes.{Fits, Serves, asked};
ghost use Rattle.std.specs.Prelude.{◌≡◌, Decides, MatchOption};

use channels::Channel;

#[derive(Clone, Copy, PartialEq, Eq, Debug)]
pub struct Wish {
    // At least so many senders.
    pub senders: u64,
    // Exactly so many others that may speak in the same frame.
    pub others: u64,
    // At least so many numbers in a message.
    pub numbers: u64,
}

// Whether the channel has as many senders, and messages as long, as are asked for.
fn fits(wish: Wish, channel: Channel) -> bool
    ensures { Decides result (Fits wish (settings channel)) }
{
    wish.senders <= u64::from(channel.senders()) && wish.numbers <= u64::from(channel.numbers())
}

// The channel with this q and d, if it is one and serves.
pub fn serving(wish: Wish, q: u8, d: u8) -> Option<Channel>
    ensures { MatchOption result (Serves wish (asked wish q d) → ⊥) (λ c. (settings c ≡ asked wish q d) × Serves wish (settings c)) }
{
    let k = u8::try_from(wish.others).ok()?;
    let channel = Channel::new(q, d, k).ok()?;
    fits(wish, channel).then_some(channel)
}
