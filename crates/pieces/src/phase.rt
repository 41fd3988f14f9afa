// What a reader is about to read.
use channels::Channel;
use reading::Stopped;

#[derive(Clone, Copy)]
pub enum Phase {
    // The record of the channel.
    Opening,
    // A record of what was heard on the channel, in this place or above.
    Records(Channel, u64),
    // Nothing more, after a fault.
    Over(Option<Channel>, Stopped),
}
