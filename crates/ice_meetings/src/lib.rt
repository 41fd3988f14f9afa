// In how many parts of a frame its senders meet, as the program `ice` tells it.
#![tactic(auto)]

mod meeting;
mod told;

pub use meeting::Meeting;
pub use told::meetings;

#[cfg(test)]
mod tests {
    use super::*;
    use channels::Channel;
    use std::test::Fail;

    #[test]
    fn of_two(rt: HostRuntime) -> Result<(), Fail> {
        let lines = meetings(rt.alloc(), Channel::new(5, 2, 2)?, &[7, 17])?;
        assert!(rt; lines.len() == 2);
        Ok(())
    }
}
