// The lines of a sender, of a row of the grid, of what is heard and of what is read.
use super::*;
use channels::Channel;
use frames::Frame;
use messages::{PartWord, Reading};
use std::test::Fail;

#[test]
fn of_a_silent_frame(rt: HostRuntime) -> Result<(), Fail> {
    let frame = Frame::silent(rt.alloc(), Channel::new(5, 2, 2)?)?;
    assert!(rt; row(rt.alloc(), &frame, &[7], 2)?.as_str() == "  2 . . . . .");
    Ok(())
}

#[test]
fn of_senders(rt: HostRuntime) -> Result<(), Fail> {
    let channel = Channel::new(5, 2, 2)?;
    let line = planned(rt.alloc(), channel, &[7, 17], 17)?;
    assert!(rt; line.as_str() == "b  sender 17: slots 2 0 3 1 4");
    assert_eq!(rt; meetings(rt.alloc(), channel, &[7, 17])?.len(), 2);
    Ok(())
}

#[test]
fn of_words(rt: HostRuntime) -> Result<(), Fail> {
    let words = [
        PartWord { part: 1, value: 11 },
        PartWord { part: 2, value: 12 },
    ];
    let line = heard(rt.alloc(), 7, &words)?;
    assert!(rt; line.as_str() == "sender 7: 2 words, in parts 1 2: 11 12");
    let line = read(rt.alloc(), Reading::TooFew(2), &[0, 0, 0])?;
    assert!(rt; line.as_str() == "  too few (6): 2 words for 3 numbers");
    assert_eq!(rt; headers(rt.alloc(), 251)?.len(), 3);
    Ok(())
}
