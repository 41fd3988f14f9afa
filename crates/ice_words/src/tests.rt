// Words that are refused, numbers too wide, and speakers that cannot speak.
use super::*;
use channels::Fault;
use frames::Frame;
use std::alloc::Global;
use std::test::Fail;

fn texts(heap: Global, words: &[&str]) -> Result<Vec<String>, Fail> {
    let mut all = Vec::new(heap);
    for word in words {
        all.push(String::from_str(heap, word)?)?;
    }
    Ok(all)
}

#[test]
fn refused_words(rt: HostRuntime) -> Result<(), Fail> {
    let table: [(&[&str], Misuse); 8] = [
        (&[], Misuse::Nothing),
        (&["fram"], Misuse::Unknown(0)),
        (&["frame", "5", "2"], Misuse::TooFew(3)),
        (&["frame", "5", "2", "2"], Misuse::TooFew(4)),
        (&["frame", "5", "x", "2", "7"], Misuse::NoNumber(2)),
        (&["frame", "5", "2", "2", "7", "-1"], Misuse::NoSender(5)),
        (&["frame", "5", "2", "2", "7=1,x"], Misuse::NoMessage(4)),
        (
            &["frame", "5", "2", "2", "7", "17", "+7=1,2,3"],
            Misuse::Twice(6),
        ),
    ];
    for (words, misuse) in table {
        let answer = read_words(rt.alloc(), &texts(rt.alloc(), words)?);
        assert_eq!(rt; answer.err(), Some(misuse));
    }
    Ok(())
}

#[test]
fn told_to_the_user(rt: HostRuntime) -> Result<(), Fail> {
    let words = texts(rt.alloc(), &["frame", "5", "2", "2", "7=1,x"])?;
    let line = told(rt.alloc(), Misuse::NoMessage(4), &words)?;
    assert!(rt; line.as_str() == "ice: 7=1,x: no message of numbers, as 7=10,1,0");
    Ok(())
}

#[test]
fn asked_for(rt: HostRuntime) -> Result<(), Fail> {
    let words = texts(
        rt.alloc(),
        &["frame", "5", "2", "2", "7=1,2,4", "4294967296"],
    )?;
    let Request::Frame { q, d, k, spoken } = read_words(rt.alloc(), &words)? else {
        return Err(Fail::new("it asks for help"));
    };
    let speakers = speakers_of(rt.alloc(), channel_of(q, d, k)?, &spoken)?;
    let numbers = numbers_of(rt.alloc(), &speakers)?;
    assert!(rt; numbers.len() == 2);
    assert_eq!(rt; (numbers[0], numbers[1]), (7, 4294967295));
    Ok(())
}

#[test]
fn wide_numbers(rt: HostRuntime) {
    for (q, d, k) in [(261, 2, 2), (5, 258, 2), (5, 1, 256), (9, 2, 2)] {
        assert_eq!(rt; channel_of(q, d, k), Err(Fault::Channel));
    }
}

#[test]
fn refused_speakers(rt: HostRuntime) -> Result<(), Fail> {
    let heap = rt.alloc();
    let channel = channel_of(5, 2, 2)?;
    let table: [(u64, &[u64], Fault); 5] = [
        (25, &[0, 0, 0], Fault::Sender),
        (4_294_967_303, &[0, 0, 0], Fault::Sender),
        (7, &[1, 2], Fault::Message),
        (7, &[1, 2, 1_073_741_824], Fault::Message),
        (7, &[1, 2, 4_294_967_299], Fault::Message),
    ];
    for (number, message, fault) in table {
        let message = Some(message.to_vec(heap)?);
        let spoken = vec![in heap; Spoken { number, message }]?;
        let frame = Frame::hear(heap, channel, &speakers_of(heap, channel, &spoken)?);
        assert_eq!(rt; frame.err(), Some(fault));
    }
    Ok(())
}
