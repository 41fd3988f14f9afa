// Whole inputs: the record of a channel and then records of what was heard, or messages to a sender. Each is read to its end or
// to its first fault, with all that stands before it.
// For each kind of record there is also a function by name, whose contract speaks of that kind without the trait's members.
// All errors are `Fault`, so that a caller has one type for `?`; the contracts say that here it is `Fault::Memory`.
#![tactic(auto)]

pub mod heard_input;
pub mod input_read;
pub mod message_input;
mod no_channel;
pub mod record;
pub mod records_read;

pub use heard_input::{HeardInput, HeardRead, read_heard, read_heard_input};
pub use input_read::{InputRead, read_input};
pub use message_input::{MessageInput, MessageRead, read_message_input, read_messages};
pub use record::{First, Record};
pub use records_read::{RecordsRead, read_records};
