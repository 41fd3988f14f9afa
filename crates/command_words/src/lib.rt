// What the programs can share: numbers among the words of a command line, the line that tells which word is wrong,
// and the line of a channel.
#![tactic(auto)]

mod digits;
mod line;
mod wrong;

pub use digits::number;
pub use line::Line;
pub use wrong::{told, word_at};

// One text of each kind.
#[cfg(test)]
mod tests {
    use super::*;
    use channels::Channel;
    use std::test::Fail;

    #[test]
    fn numbers(rt: HostRuntime) {
        let table: [(&str, Option<u64>); 6] = [
            ("0", Some(0)),
            ("+7", Some(7)),
            ("18446744073709551615", Some(u64::MAX)),
            ("18446744073709551616", None),
            ("", None),
            ("9k", None),
        ];
        for (text, n) in table {
            assert!(rt; number(text) == n);
        }
    }

    #[test]
    fn lines(rt: HostRuntime) -> Result<(), Fail> {
        let line = Line::of(Channel::new(29, 3, 9)?);
        let line = line.to_string(rt.alloc())?;
        assert!(rt; line.as_str() == "29 3 9: 841 slots, 24389 senders, messages of 11 numbers");
        let texts = vec![in rt.alloc(); String::from_str(rt.alloc(), "9k")?]?;
        let line = told(rt.alloc(), "plan", &texts, Some(0), "no number")?;
        assert!(rt; line.as_str() == "plan: 9k: no number");
        Ok(())
    }
}
