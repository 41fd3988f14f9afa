// A message to a sender: the byte 2, how many numbers it has (1), and the numbers (4 each).
ghost use Rattle.channels.specs.Settings.{settings};
ghost use Rattle.records.specs.Messages.{count_in, message_in, numbers_after};
ghost use Rattle.speakall.specs.Plan.{size};
ghost use Rattle.std.specs.Prelude.{◌≡◌, [], ◌∷◌, IfOk};

use crate::kind::{Kind, after_kind};
use crate::numbers::are_small;
use crate::unread::Unread;
use channels::{Channel, Fault};

// The two bytes that stand before the numbers of a message.
pub fn message_head(count: u8) -> [u8; 2]
    ensures { result ≡ 2 ∷ count ∷ [] }
{
    [Kind::Message.byte(), count]
}

// How many numbers the message has that stands first in these bytes, by its kind and length.
fn count_in(bytes: &[u8]) -> Result<u8, Unread>
    ensures { result ≡ count_in bytes.now }
{
    let [count, rest @ ..] = after_kind(Kind::Message, bytes)? else {
        return Err(Unread::Short);
    };
    if rest.len() < 4 * usize::from(*count) {
        return Err(Unread::Short);
    }
    Ok(*count)
}

// How many numbers the message has that stands first in these bytes: `Fault::Kind` for another kind, and then `Fault::Message`
// where it has not as many numbers as the channel's messages, or one of 2^30 or above.
pub fn message_first(channel: Channel, bytes: &[u8]) -> Result<u8, Unread>
    ensures numbers { numbers_after bytes.now result ≡ message_in (size (settings channel)) bytes.now }
    ensures count { IfOk result (λ n. n ≡ size (settings channel)) }
{
    let count = count_in(bytes)?;
    if count == channel.numbers() && are_small(&bytes[2..2 + 4 * usize::from(count)]) {
        Ok(count)
    } else {
        Err(Unread::Wrong(Fault::Message))
    }
}
