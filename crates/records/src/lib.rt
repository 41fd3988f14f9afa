// One record of what goes into a program, as bytes, high byte first: a channel, a message to a sender, what was heard in a slot.
// All of it works by value and on lent memory, and allocates nothing.
#![tactic(auto)]

pub mod channel_record;
pub mod heard;
pub mod kind;
pub mod message;
pub mod numbers;
pub mod unread;

pub use channel_record::{channel_bytes, channel_first};
pub use heard::{Heard, HeardBytes, What};
pub use kind::{Kind, after_kind};
pub use message::{message_first, message_head};
pub use numbers::are_small;
pub use unread::Unread;
