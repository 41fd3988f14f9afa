// The record of a channel: the byte 1, then q, d and k.

ghost use Rattle.records.specs.Channels.{bytes_of_channel, channel_in, settled};
ghost use Rattle.channels.specs.Settings.{settings};
ghost use Rattle.std.specs.Prelude.{◌≡◌, ℕ, List, ◌++◌, Ok};

use crate::kind::{Kind, after_kind};
use crate::unread::Unread;
use channels::Channel;

// The four bytes, in their order.
fn laid_out(channel: Channel) -> [u8; 4]
    ensures { result ≡ bytes_of_channel channel.q channel.d channel.k }
{
    let kind = Kind::Channel.byte();
    [kind, channel.parts(), channel.digits(), channel.others()]
}

// The four bytes of a channel. Whatever follows them, the channel is read back.
pub fn channel_bytes(channel: Channel) -> [u8; 4]
    ensures bytes { result ≡ bytes_of_channel channel.q channel.d channel.k }
    ensures back { (more : List ℕ) → channel_in (result ++ more) ≡ Ok (settings channel) }
{
    laid_out(channel)
}

// The channel that stands first in these bytes: `Fault::Kind` for another kind, `Fault::Channel` for numbers that make no channel.
pub fn channel_first(bytes: &[u8]) -> Result<Channel, Unread>
    ensures { settled result ≡ channel_in bytes.now }
{
    let [q, d, k, ..] = after_kind(Kind::Channel, bytes)? else {
        return Err(Unread::Short);
    };
    Ok(Channel::new(*q, *d, *k)?)
}
