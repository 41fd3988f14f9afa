// Records written behind bytes that are there. Where memory fails, or a record is refused, the bytes stay as they were.
// What is written is read back, whole, where records are in their order and messages are the channel's.
// All errors are `Fault`, so that a caller has one type for `?`; the contracts say when it is `Fault::Memory`.
#![tactic(auto)]

pub mod heard;
pub mod messages;
mod put;
pub mod told;

pub use heard::{heard_input_bytes, write_channel, write_heard};
pub use messages::write_message;
pub use told::{write_read, write_told};
