// Numbers as they were written, and as the calls of channels and frames take them.
ghost use Rattle.std.specs.Prelude.{◌≡◌, ◌<◌, MatchResult};
ghost use Rattle.channels.specs.Settings.{Made};
ghost use Rattle.channels.specs.Valid.{Valid};
ghost use Rattle.channels.specs.declared.fault.Fault.TheVariants.{Channel as FaultChannel};
ghost use Rattle.ice_speakers.specs.Wide.{narrow};

use channels::{Channel, Fault};

// The channel with these numbers, or `Fault::Channel` where there is none with a k below 256, which a channel's is.
pub fn channel_of(q: u64, d: u64, k: u64) -> Result<Channel, Fault>
    ensures { MatchResult result (λ c. Made c q d k) (λ e. (e ≡ FaultChannel) × (Valid q d k → k < 256 → ⊥)) }
{
    let q = u8::try_from(q).map_err(|_| Fault::Channel)?;
    let d = u8::try_from(d).map_err(|_| Fault::Channel)?;
    let k = u8::try_from(k).map_err(|_| Fault::Channel)?;
    Channel::new(q, d, k)
}

// The number, or the widest of 32 bits for a wider one, which is refused as that would be:
// no channel has so many senders, and the numbers of a message are below 2^30.
pub fn narrowed(n: u64) -> u32
    ensures { result ≡ narrow n }
{
    u32::try_from(n).unwrap_or(u32::MAX)
}
