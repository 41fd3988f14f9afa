// The word of one sender on a command line, as `7` or `7=10,1,0`: its number, and the message that it says.
#![tactic(auto)]

mod pieces;
mod spoken;

pub use spoken::{Spoken, Wrong, spoken_of};

// A word with a message, and words that are wrong.
#[cfg(test)]
mod tests {
    use super::*;
    use std::test::Fail;

    #[test]
    fn words(rt: HostRuntime) -> Result<(), Fail> {
        let Ok(spoken) = spoken_of(rt.alloc(), "+7=10,1") else {
            return Err(Fail::new("it is a sender"));
        };
        let Spoken { number, message } = spoken;
        let Some(message) = message else {
            return Err(Fail::new("it has a message"));
        };
        assert!(rt; number == 7 && message.len() == 2);
        let name = spoken_of(rt.alloc(), "-1");
        let list = spoken_of(rt.alloc(), "7=1,,x");
        assert!(rt; matches!(name, Err(Wrong::NoSender)) && matches!(list, Err(Wrong::NoMessage)));
        Ok(())
    }
}
