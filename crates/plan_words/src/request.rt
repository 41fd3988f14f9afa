// What the arguments ask for, read word by word: the first that is wrong, or `--help`, decides.
// Options may stand anywhere among the three numbers.
ghost use Rattle.plan_words.specs.Words.{Answer, Joins, ended_with, stopped_by};
ghost use Rattle.std.specs.Prelude.{◌≡◌};

use crate::word::Word;
use arrayvec::ArrayVec;
use planning::Wish;

#[derive(Clone, Copy, PartialEq, Eq, Debug)]
pub enum Request {
    Help,
    // The best channel and all that would do, as lines.
    Plan(Wish),
    // The best channel, as bytes.
    Raw(Wish),
}

// Why the words ask for nothing; a word is told by its place, from 0.
#[derive(Clone, Copy, PartialEq, Eq, Debug)]
pub enum Misuse {
    // No such option.
    Unknown(usize),
    NoNumber(usize),
    // A fourth number.
    TooMany(usize),
    // So many numbers, fewer than three.
    TooFew(usize),
}

// What the words read so far ask for.
#[derive(Drop)]
struct Asked {
    raw: bool,
    // Senders, others, and the numbers of a message.
    numbers: ArrayVec<u64, 3>,
}

impl Asked {
    // With one word more, unless it ends the reading.
    fn with(self, word: Word) -> Option<Asked>
        ensures { Joins self word result }
    {
        let Asked { raw, mut numbers } = self;
        match word {
            Word::Raw => Some(Asked { raw: true, numbers }),
            Word::Number(n) => {
                numbers.try_push(n).ok()?;
                Some(Asked { raw, numbers })
            }
            _ => None,
        }
    }

    // The request, once all words are read.
    fn ended(self) -> Result<Request, Misuse>
        ensures { result ≡ ended_with self.raw self.numbers.items }
    {
        let [senders, others, numbers] = self.numbers.as_slice() else {
            return Err(Misuse::TooFew(self.numbers.len()));
        };
        let wish = Wish {
            senders: *senders,
            others: *others,
            numbers: *numbers,
        };
        Ok(if self.raw {
            Request::Raw(wish)
        } else {
            Request::Plan(wish)
        })
    }
}

// What is answered at a word, in this place, that ends the reading.
fn stopped(i: usize, word: Word) -> Result<Request, Misuse>
    ensures { result ≡ stopped_by i word }
{
    match word {
        Word::Help => Ok(Request::Help),
        Word::Unknown => Err(Misuse::Unknown(i)),
        Word::NoNumber => Err(Misuse::NoNumber(i)),
        Word::Raw | Word::Number(_) => Err(Misuse::TooMany(i)),
    }
}

// What the words ask for, or why they ask for nothing. Options may stand anywhere among the three numbers.
pub fn read_words(words: &[Word]) -> Result<Request, Misuse>
    ensures { Answer words.now result }
{
    let mut asked = Asked {
        raw: false,
        numbers: ArrayVec::new(),
    };
    for (i, word) in words.iter().enumerate() {
        let Some(more) = asked.with(*word) else {
            return stopped(i, *word);
        };
        asked = more;
    }
    asked.ended()
}
