// The words of the program `plan`: what its arguments ask for, and the lines that it answers with.
// They stand apart from the program, so that contracts can say what they are.
#![tactic(auto)]

mod line;
mod misuse;
mod request;
mod word;

pub use command_words::Line;
pub use line::Refusal;
pub use misuse::{USAGE, told};
pub use records::channel_bytes as bytes;
pub use request::{Misuse, Request, read_words};
pub use word::{Word, words_of};

// Words that are read and words that are refused, and the lines.
#[cfg(test)]
mod tests {
    use super::*;
    use channels::Channel;
    use planning::Wish;
    use std::test::Fail;

    #[test]
    fn single_words(rt: HostRuntime) {
        let table: [(&str, Word); 11] = [
            ("--help", Word::Help),
            ("--raw", Word::Raw),
            ("--rawer", Word::Unknown),
            ("-5", Word::Unknown),
            ("0", Word::Number(0)),
            ("+7", Word::Number(7)),
            ("18446744073709551615", Word::Number(u64::MAX)),
            ("18446744073709551616", Word::NoNumber),
            ("", Word::NoNumber),
            ("9k", Word::NoNumber),
            ("é", Word::NoNumber),
        ];
        for (text, word) in table {
            assert_eq!(rt; Word::from(text), word);
        }
    }

    #[test]
    fn requests(rt: HostRuntime) {
        let wish = Wish {
            senders: 1,
            others: 2,
            numbers: 3,
        };
        let table: [(&[Word], Result<Request, Misuse>); 9] = [
            (
                &[Word::Number(1), Word::Number(2), Word::Number(3)],
                Ok(Request::Plan(wish)),
            ),
            (
                &[Word::Number(1), Word::Raw, Word::Number(2), Word::Number(3)],
                Ok(Request::Raw(wish)),
            ),
            (
                &[
                    Word::Raw,
                    Word::Number(1),
                    Word::Number(2),
                    Word::Number(3),
                    Word::Raw,
                ],
                Ok(Request::Raw(wish)),
            ),
            (
                &[Word::Number(1), Word::Help, Word::Unknown],
                Ok(Request::Help),
            ),
            (
                &[Word::Number(1), Word::Unknown, Word::Help],
                Err(Misuse::Unknown(1)),
            ),
            (&[Word::Raw, Word::NoNumber], Err(Misuse::NoNumber(1))),
            (
                &[
                    Word::Number(1),
                    Word::Number(2),
                    Word::Number(3),
                    Word::Number(4),
                ],
                Err(Misuse::TooMany(3)),
            ),
            (
                &[Word::Number(1), Word::Raw, Word::Number(2)],
                Err(Misuse::TooFew(2)),
            ),
            (&[], Err(Misuse::TooFew(0))),
        ];
        for (words, answer) in table {
            assert_eq!(rt; read_words(words), answer);
        }
    }

    #[test]
    fn lines(rt: HostRuntime) -> Result<(), Fail> {
        let channel = Channel::new(29, 3, 9)?;
        let line = Line::of(channel).to_string(rt.alloc())?;
        assert!(rt; line.as_str() == "29 3 9: 841 slots, 24389 senders, messages of 11 numbers");
        assert!(rt; bytes(channel) == [1, 29, 3, 9]);
        Ok(())
    }

    #[test]
    fn told_to_the_user(rt: HostRuntime) -> Result<(), Fail> {
        let texts = vec![in rt.alloc(); String::from_str(rt.alloc(), "--row")?]?;
        assert_eq!(rt; words_of(rt.alloc(), &texts)?.len(), 1);
        let line = told(rt.alloc(), Misuse::Unknown(0), &texts)?;
        assert!(rt; line.as_str() == "plan: --row: no such option; there are --raw and --help");
        Ok(())
    }
}
