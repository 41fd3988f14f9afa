// Frames of three speakers, which are k + 1, and of four, which are too many, and speakers that cannot speak.
use crate::{Frame, Slot, Speaker};
use channels::{Channel, Fault};
use messages::Reading;
use std::alloc::Global;
use std::test::Fail;

fn speakers(heap: Global, given: &[(u32, [u32; 3])]) -> Result<Vec<Speaker>, Fail> {
    let mut all = Vec::new(heap);
    for (number, message) in given {
        let number = *number;
        let message = message.to_vec(heap)?;
        all.push(Speaker { number, message })?;
    }
    Ok(all)
}

// Each of three is alone in four parts, and read.
#[test]
fn three_are_read(rt: HostRuntime) -> Result<(), Fail> {
    let heap = rt.alloc();
    let three = speakers(
        heap,
        &[
            (7, [10, 1, 0]),
            (17, [3, 1, 4]),
            (12, [1_073_741_823, 0, 5]),
        ],
    )?;
    let frame = Frame::hear(heap, Channel::new(5, 2, 2)?, &three)?;
    assert_eq!(rt; frame.slot(0, 2), Some(Slot::Noise));
    assert_eq!(rt;
        frame.slot(1, 3),
        Some(Slot::One {
            sender: 7,
            word: 11,
        })
    );
    assert_eq!(rt; frame.slot(1, 1), Some(Slot::Silence));
    assert_eq!(rt; (frame.slot(5, 0), frame.slot(0, 5)), (None, None));
    for speaker in &three {
        let mut message = [0; 3];
        assert_eq!(rt;
            frame.read(heap, speaker.number, &mut message)?,
            Reading::Message { words: 4, off: 0 }
        );
        assert!(rt; message.as_slice() == speaker.message.as_slice());
    }
    Ok(())
}

// Of four, one is alone in two parts only: too few for three numbers.
#[test]
fn of_four_one_is_not_read(rt: HostRuntime) -> Result<(), Fail> {
    let heap = rt.alloc();
    let four = speakers(
        heap,
        &[
            (0, [1, 2, 3]),
            (5, [4, 5, 6]),
            (8, [7, 8, 9]),
            (9, [10, 11, 12]),
        ],
    )?;
    let frame = Frame::hear(heap, Channel::new(5, 2, 2)?, &four)?;
    let mut message = [9; 3];
    assert_eq!(rt;
        frame.read(heap, 5, &mut message)?,
        Reading::Message { words: 4, off: 0 }
    );
    assert_eq!(rt; frame.read(heap, 0, &mut message)?, Reading::TooFew(2));
    assert_eq!(rt; message[2], 0);
    assert_eq!(rt; frame.words(heap, 1)?.len(), 0);
    Ok(())
}

// The first speaker that cannot speak gives its fault.
#[test]
fn some_cannot_speak(rt: HostRuntime) -> Result<(), Fail> {
    let heap = rt.alloc();
    let channel = Channel::new(5, 2, 2)?;
    for (number, last, fault) in [
        (25, 0, Fault::Sender),
        (24, 1_073_741_824, Fault::Message),
        (25, 1_073_741_824, Fault::Sender),
    ] {
        let some = speakers(
            heap,
            &[(1, [1, 2, 3]), (number, [0, 0, last]), (26, [0, 0, 0])],
        )?;
        assert_eq!(rt; Frame::hear(heap, channel, &some).err(), Some(fault));
    }
    let mut frame = Frame::silent(heap, channel)?;
    assert_eq!(rt; frame.speak(3, &[1, 2]), Err(Fault::Message));
    assert_eq!(rt; frame.slot(0, 3), Some(Slot::Silence));
    Ok(())
}
