// From the numbers as they were written to a channel, and to the frame in which the senders speak.
// A number wider than the calls take never becomes another that would be let through.
#![tactic(auto)]

mod heard;
mod speakers;
mod wide;

pub use heard::{Heard, hear};
pub use speakers::{numbers_of, speakers_of};
pub use wide::channel_of;

// Numbers too wide, and speakers that cannot speak.
#[cfg(test)]
mod tests {
    use super::*;
    use channels::Fault;
    use sender_words::Spoken;
    use std::test::Fail;

    #[test]
    fn wide_numbers(rt: HostRuntime) {
        for (q, d, k) in [(261, 2, 2), (5, 258, 2), (5, 1, 256), (9, 2, 2)] {
            assert!(rt; matches!(channel_of(q, d, k), Err(Fault::Channel)));
        }
    }

    #[test]
    fn heard_of_one(rt: HostRuntime) -> Result<(), Fail> {
        let heap = rt.alloc();
        let channel = channel_of(5, 2, 2)?;
        let message = None;
        let spoken = vec![in heap; Spoken { number: 7, message }]?;
        let heard = hear(heap, channel, &spoken)?;
        assert!(rt; heard.numbers.as_slice() == [7].as_slice());
        let message = Some([1, 2, 4_294_967_299].to_vec(heap)?);
        let spoken = vec![in heap; Spoken { number: 7, message }]?;
        assert!(rt; matches!(hear(heap, channel, &spoken), Err(Fault::Message)));
        Ok(())
    }
}
