// Readings at every border, of words written out and of words spoilt one after the other.
use channels::Channel;
use damage::{PartWord, Reading, read, word_at};
use std::test::Fail;

// How many words are heard, the words with their parts, and what is read of three numbers on the channel 5 2 2 and left in the lent memory.
const READINGS: [(usize, [(u8, u32); 5], Reading, [u32; 3]); 19] = [
    (
        0,
        [(0, 0), (0, 0), (0, 0), (0, 0), (0, 0)],
        Reading::TooFew(0),
        [0, 0, 0],
    ),
    (
        2,
        [(0, 10), (1, 11), (0, 0), (0, 0), (0, 0)],
        Reading::TooFew(2),
        [0, 0, 0],
    ),
    (
        2,
        [(7, 10), (7, 2_147_483_647), (0, 0), (0, 0), (0, 0)],
        Reading::TooFew(2),
        [0, 0, 0],
    ),
    (
        3,
        [(0, 10), (1, 11), (2, 12), (0, 0), (0, 0)],
        Reading::Message { words: 3, off: 0 },
        [10, 1, 0],
    ),
    (
        5,
        [(0, 10), (1, 11), (2, 12), (3, 13), (4, 14)],
        Reading::Message { words: 5, off: 0 },
        [10, 1, 0],
    ),
    (
        4,
        [(4, 14), (0, 10), (3, 13), (1, 11), (0, 0)],
        Reading::Message { words: 4, off: 0 },
        [10, 1, 0],
    ),
    (
        4,
        [(0, 10), (1, 11), (2, 12), (3, 14), (0, 0)],
        Reading::Doubtful,
        [0, 0, 0],
    ),
    (
        4,
        [(0, 11), (1, 11), (2, 12), (3, 13), (0, 0)],
        Reading::Doubtful,
        [0, 0, 0],
    ),
    (
        4,
        [(0, 10), (1, 11), (2, 12), (1, 11), (0, 0)],
        Reading::Doubtful,
        [0, 0, 0],
    ),
    (
        3,
        [(0, 10), (1, 11), (5, 15), (0, 0), (0, 0)],
        Reading::Doubtful,
        [0, 0, 0],
    ),
    (
        3,
        [(0, 2_147_483_647), (1, 0), (2, 0), (0, 0), (0, 0)],
        Reading::Doubtful,
        [0, 0, 0],
    ),
    (
        3,
        [
            (0, 0),
            (1, 2_147_483_646),
            (2, 2_147_483_643),
            (0, 0),
            (0, 0),
        ],
        Reading::Doubtful,
        [0, 0, 0],
    ),
    (
        3,
        [(0, 5), (1, 1_073_741_830), (2, 10), (0, 0), (0, 0)],
        Reading::Doubtful,
        [0, 0, 0],
    ),
    (
        3,
        [(0, 5), (1, 1_073_741_829), (2, 8), (0, 0), (0, 0)],
        Reading::Message { words: 3, off: 0 },
        [5, 1_073_741_823, 1],
    ),
    // One word off, among the first three and after them, and in another order.
    (
        5,
        [(0, 10), (1, 11), (2, 99), (3, 13), (4, 14)],
        Reading::Message { words: 5, off: 1 },
        [10, 1, 0],
    ),
    (
        5,
        [(4, 14), (2, 12), (0, 10), (1, 11), (3, 7)],
        Reading::Message { words: 5, off: 1 },
        [10, 1, 0],
    ),
    // Two words off where one may be, though three of five lie on a message.
    (
        5,
        [(0, 10), (1, 11), (2, 99), (3, 98), (4, 14)],
        Reading::Doubtful,
        [0, 0, 0],
    ),
    // All lie on a polynomial, with a coefficient of 2^30.
    (
        5,
        [
            (0, 5),
            (1, 1_073_741_830),
            (2, 10),
            (3, 1_073_741_839),
            (4, 23),
        ],
        Reading::Doubtful,
        [0, 0, 0],
    ),
    (
        3,
        [(0, 0), (1, 0), (2, 0), (0, 0), (0, 0)],
        Reading::Message { words: 3, off: 0 },
        [0, 0, 0],
    ),
];

#[test]
fn readings(rt: HostRuntime) -> Result<(), Fail> {
    let channel = Channel::new(5, 2, 2)?;
    for (count, heard, reading, left) in READINGS {
        let mut words = [PartWord { part: 0, value: 0 }; 5];
        for (word, (part, value)) in words.iter_mut().zip(heard) {
            *word = PartWord { part, value };
        }
        let mut message = [7, 7, 7];
        assert!(rt; count <= 5);
        assert_eq!(rt; read(channel, &words[0..count], &mut message), reading);
        assert_eq!(rt; message, left);
    }
    Ok(())
}

#[test]
fn one_number(rt: HostRuntime) -> Result<(), Fail> {
    let channel = Channel::new(3, 2, 2)?;
    let words = [PartWord { part: 2, value: 77 }];
    let mut message = [0];
    assert_eq!(rt;
        read(channel, &words, &mut message),
        Reading::Message { words: 1, off: 0 }
    );
    assert_eq!(rt; message, [77]);
    Ok(())
}

// The words of a message of three numbers in the parts 0 to 12, of which so many are wrong from a place on.
fn spoilt(from: usize, wrong: usize) -> [PartWord; 13] {
    let mut words = [PartWord { part: 0, value: 0 }; 13];
    for (word, part) in words.iter_mut().zip(0..13) {
        let x = usize::from(part);
        let said = word_at(&[10, 1_073_741_823, 7], x);
        let value = if from <= x && x - from < wrong {
            said / 3 + 5
        } else {
            said
        };
        *word = PartWord { part, value };
    }
    words
}

// Of four to thirteen words, none to five wrong, the first ones or the last ones: read where no more are wrong than half of those above three, and else doubtful.
#[test]
fn words_off(rt: HostRuntime) -> Result<(), Fail> {
    let channel = Channel::new(13, 2, 5)?;
    for count in 4..14 {
        for wrong in 0..6 {
            let spare = if count < 11 { (count - 3) / 2 } else { 4 };
            for from in [0, 3, 7] {
                let words = spoilt(from, wrong);
                let mut message = [0; 3];
                let reading = read(channel, &words[0..count], &mut message);
                if from + wrong > count {
                    continue;
                }
                if wrong <= spare {
                    assert_eq!(rt;
                        reading,
                        Reading::Message {
                            words: count,
                            off: wrong,
                        }
                    );
                    assert_eq!(rt; message, [10, 1_073_741_823, 7]);
                } else {
                    assert_eq!(rt; reading, Reading::Doubtful);
                    assert_eq!(rt; message, [0, 0, 0]);
                }
            }
        }
    }
    Ok(())
}

// A message of 251 numbers from the words of all 251 parts, the highest part first.
#[test]
fn most_numbers(rt: HostRuntime) -> Result<(), Fail> {
    let channel = Channel::new(251, 1, 0)?;
    let message = [1_073_741_823; 251];
    let mut words = [PartWord { part: 0, value: 0 }; 251];
    for (word, part) in words.iter_mut().zip((0..251).rev()) {
        *word = PartWord {
            part,
            value: word_at(&message, usize::from(part)),
        };
    }
    let mut left = [0; 251];
    assert_eq!(rt;
        read(channel, &words, &mut left),
        Reading::Message { words: 251, off: 0 }
    );
    assert!(rt; left == message);
    Ok(())
}
