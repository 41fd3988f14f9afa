// Channels, the plans of their senders, and the faults that everything above refuses with.
// A frame of a channel has q parts, numbered from 0, each with q slots, numbered from 0.
#![tactic(auto)]

pub mod channel;
pub mod fault;
pub mod inverses;
pub mod plan;
pub mod table;

pub use channel::Channel;
pub use fault::Fault;
pub use plan::Plan;

#[cfg(test)]
mod tests;
