// Worked words, and each cause for noise at its border.
// The bytes of the worked words were worked out by another program.
use crate::{AirWord, Counted};
use channels::{Channel, Fault};
use std::test::Fail;

// Sender 7 of the channel 5 2 2 speaks in slots 2, 3, 4, 0 and 1. In frame 300 it says 11 in part 1.
const HEARD: [u8; 12] = *b"\x00\x00\x07\x2c\x00\x00\x00\x0b\x5e\x98\x75\xe4";

#[test]
fn worked_words(rt: HostRuntime) -> Result<(), Fail> {
    let c = Channel::new(5, 2, 2)?;
    assert_eq!(rt; AirWord::new(c, 7, 300, 11)?.to_bytes(1), HEARD);
    assert_eq!(rt;
        AirWord::from_bytes(HEARD, c, 300, 1, 3),
        Some(Counted {
            sender: 7,
            word: 11,
        })
    );
    let c = Channel::new(251, 2, 8)?;
    let last = AirWord::new(c, 62999, 65535, 2147483646)?;
    assert_eq!(rt;
        last.to_bytes(250),
        *b"\x00\xf6\x17\xff\x7f\xff\xff\xfe\xad\x8e\x56\xd1"
    );
    assert_eq!(rt;
        last.heard(c, 65535, 250, 250),
        Some(Counted {
            sender: 62999,
            word: 2147483646,
        })
    );
    Ok(())
}

#[test]
fn wrong_bytes(rt: HostRuntime) -> Result<(), Fail> {
    let c = Channel::new(5, 2, 2)?;
    for i in 0..12 {
        let mut bytes = HEARD;
        bytes[i] ^= 1;
        assert_eq!(rt; AirWord::from_bytes(bytes, c, 300, 1, 3), None);
    }
    Ok(())
}

#[test]
fn other_slots_and_parts(rt: HostRuntime) -> Result<(), Fail> {
    let c = Channel::new(5, 2, 2)?;
    for slot in [0, 1, 2, 4, 5, 255] {
        assert_eq!(rt; AirWord::from_bytes(HEARD, c, 300, 1, slot), None);
    }
    let word = AirWord::new(c, 7, 300, 11)?;
    assert_eq!(rt;
        word.heard(c, 300, 4, 1),
        Some(Counted {
            sender: 7,
            word: 11,
        })
    );
    assert_eq!(rt; word.heard(c, 300, 5, 2), None);
    assert_eq!(rt; AirWord::from_bytes(HEARD, c, 300, 0, 2), None);
    Ok(())
}

#[test]
fn other_frames(rt: HostRuntime) -> Result<(), Fail> {
    let c = Channel::new(5, 2, 2)?;
    assert_eq!(rt; AirWord::from_bytes(HEARD, c, 299, 1, 3), None);
    assert_eq!(rt; AirWord::from_bytes(HEARD, c, 301, 1, 3), None);
    assert_eq!(rt;
        AirWord::from_bytes(HEARD, c, 556, 1, 3),
        Some(Counted {
            sender: 7,
            word: 11,
        })
    );
    Ok(())
}

// The last of 25 senders, and one more; the largest word, and one more.
#[test]
fn senders_and_words_at_their_ends(rt: HostRuntime) -> Result<(), Fail> {
    let c = Channel::new(5, 2, 2)?;
    let last = AirWord {
        sender: 24,
        frame: 0,
        word: 2147483646,
    };
    assert_eq!(rt;
        last.heard(c, 0, 0, 4),
        Some(Counted {
            sender: 24,
            word: 2147483646,
        })
    );
    let more = AirWord {
        sender: 25,
        frame: 0,
        word: 0,
    };
    assert_eq!(rt; more.heard(c, 0, 0, 0), None);
    let large = AirWord {
        sender: 24,
        frame: 0,
        word: 2147483647,
    };
    assert_eq!(rt; large.heard(c, 0, 0, 4), None);
    assert_eq!(rt; AirWord::new(c, 25, 0, 0).err(), Some(Fault::Sender));
    Ok(())
}
