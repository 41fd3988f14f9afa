// Inputs, whole and in pieces: how many records are read, the fault's number (0 for none) and its byte.
use channels::Channel;
use pieces::read_pieces;
use readers::{
    InputRead, RecordsRead, read_heard_input, read_input, read_message_input, read_records,
};
use reading::Stopped;
use records::Heard;
use std::alloc::Global;
use std::test::Fail;

fn stop(stopped: Option<Stopped>) -> (u8, u64) {
    stopped.map_or((0, 0), |s| (s.fault.number().unwrap_or(0), s.byte))
}

// The channel 5 2 2 and then these bytes.
fn with_channel(heap: Global, bytes: &[u8]) -> Result<Vec<u8>, Fail> {
    let mut all = [1, 5, 2, 2].to_vec(heap)?;
    all.extend_from_slice(bytes)?;
    Ok(all)
}

fn heard_whole(heap: Global, bytes: &[u8]) -> Result<(usize, u8, u64), Fail> {
    let input = read_heard_input(heap, bytes)?;
    let (fault, byte) = stop(input.read.stopped);
    Ok((input.read.records.len(), fault, byte))
}

fn heard_in_pieces(heap: Global, bytes: &[u8], size: usize) -> Result<(usize, u8, u64), Fail> {
    let mut pieces = Vec::new(heap);
    for piece in bytes.chunks(size.max(1)) {
        pieces.push(piece.to_vec(heap)?)?;
    }
    let input = read_pieces(heap, &pieces)?;
    let (fault, byte) = stop(input.read.stopped);
    Ok((input.read.records.len(), fault, byte))
}

fn message_whole(heap: Global, bytes: &[u8]) -> Result<(usize, u8, u64), Fail> {
    let input = read_message_input(heap, bytes)?;
    let (fault, byte) = stop(input.read.stopped);
    let messages = input.read.records.iter();
    let numbers = messages.fold(0usize, |n, message| n.saturating_add(message.len()));
    Ok((numbers, fault, byte))
}

// No channel: an empty input, a cut one, another kind, one that isn't in the list; and a channel alone.
#[test]
fn channels(rt: HostRuntime) -> Result<(), Fail> {
    let heap = rt.alloc();
    let rows: [(&[u8], u8); 5] = [
        (b"", 1),
        (b"\x01\x05\x02", 1),
        (b"\x03\x05\x02\x02", 1),
        (b"\x01\x09\x02\x02", 2),
        (b"\x01\x05\x02\x02", 0),
    ];
    for (bytes, fault) in rows {
        assert_eq!(rt; heard_whole(heap, bytes)?, (0, fault, 0));
        assert_eq!(rt; heard_in_pieces(heap, bytes, 1)?, (0, fault, 0));
        assert_eq!(rt; message_whole(heap, bytes)?, (0, fault, 0));
    }
    Ok(())
}

// What was heard on the channel 5 2 2, whose parts and slots are 0 to 4.
#[test]
fn heard(rt: HostRuntime) -> Result<(), Fail> {
    let heap = rt.alloc();
    let rows: [(&[u8], (usize, u8, u64)); 14] = [
        (b"\x03\x00\x00\x00\x01\x04\x04\x02", (1, 0, 0)),
        (b"\x03\x00\x00\x00\x01\x00\x04\x01abcdefghijkl", (1, 0, 0)),
        (b"\x03\x00\x00\x00\x01\x00\x04\x01abcdefghijk", (0, 1, 4)),
        (b"\x03\x00\x00\x00\x01\x00\x04", (0, 1, 4)),
        (b"\x03\x00\x00\x00\x01\x00\x04\x03", (0, 1, 4)),
        (b"\x02\x00\x00\x00\x01\x00\x04\x02", (0, 1, 4)),
        (b"\x03\x00\x00\x00\x01\x05\x04\x02", (0, 5, 4)),
        (b"\x03\x00\x00\x00\x01\x04\x05\x02", (0, 5, 4)),
        (b"\x03\x00\x00\x00\x01\x05\x04\x01abc", (0, 1, 4)),
        (
            b"\x03\x00\x00\x00\x01\x00\x04\x02\x03\x00\x00\x00\x01\x00\x04\x02",
            (1, 5, 12),
        ),
        (
            b"\x03\x00\x00\x00\x01\x00\x04\x02\x03\x00\x00\x00\x01\x01\x00\x02",
            (2, 0, 0),
        ),
        (
            b"\x03\x00\x00\x01\x00\x00\x04\x02\x03\x00\x00\x00\xff\x04\x04\x02",
            (1, 5, 12),
        ),
        (
            b"\x03\x00\x00\x00\x01\x00\x04\x02\x09\x03\x00\x00\x00\x02\x00\x04\x02",
            (1, 1, 12),
        ),
        (
            b"\x03\xff\xff\xff\xff\x04\x03\x02\x03\xff\xff\xff\xff\x04\x04\x02\x03",
            (2, 1, 20),
        ),
    ];
    for (bytes, answer) in rows {
        let input = with_channel(heap, bytes)?;
        assert_eq!(rt; heard_whole(heap, &input)?, answer);
        for size in [1, 3, 8, 64] {
            assert_eq!(rt; heard_in_pieces(heap, &input, size)?, answer);
        }
    }
    Ok(())
}

// Messages of three numbers below 2^30.
#[test]
fn messages(rt: HostRuntime) -> Result<(), Fail> {
    let heap = rt.alloc();
    let rows: [(&[u8], (usize, u8, u64)); 7] = [
        (
            b"\x02\x03\x3f\xff\xff\xff\x00\x00\x00\x01\x00\x00\x00\x00",
            (3, 0, 0),
        ),
        (
            b"\x02\x03\x40\x00\x00\x00\x00\x00\x00\x01\x00\x00\x00\x00",
            (0, 4, 4),
        ),
        (b"\x02\x02\x00\x00\x00\x00\x00\x00\x00\x01", (0, 4, 4)),
        (
            b"\x02\x04\x00\x00\x00\x00\x00\x00\x00\x01\x00\x00\x00\x00\x00\x00\x00\x00",
            (0, 4, 4),
        ),
        (
            b"\x02\x03\x40\x00\x00\x00\x00\x00\x00\x01\x00\x00\x00",
            (0, 1, 4),
        ),
        (
            b"\x03\x03\x00\x00\x00\x00\x00\x00\x00\x01\x00\x00\x00\x00",
            (0, 1, 4),
        ),
        (
            b"\x02\x03\x00\x00\x00\x00\x00\x00\x00\x01\x00\x00\x00\x00\x02",
            (3, 1, 18),
        ),
    ];
    for (bytes, answer) in rows {
        let input = with_channel(heap, bytes)?;
        assert_eq!(rt; message_whole(heap, &input)?, answer);
    }
    Ok(())
}

// Records of any kind, behind the channel's record and with it.
#[test]
fn of_any_kind(rt: HostRuntime) -> Result<(), Fail> {
    let heap = rt.alloc();
    let channel = Channel::new(5, 2, 2)?;
    let heard = b"\x03\x00\x00\x00\x01\x04\x04\x02";
    let read: RecordsRead<Heard> = read_records(heap, channel, heard)?;
    assert!(rt; read.records.len() == 1 && read.stopped.is_none());
    let input = with_channel(
        heap,
        b"\x02\x03\x00\x00\x00\x07\x00\x00\x00\x00\x00\x00\x00\x00",
    )?;
    let input: InputRead<Vec<u32>> = read_input(heap, &input)?;
    assert_eq!(rt; input.channel, Some(channel));
    assert!(rt; input.read.records.len() == 1 && input.read.stopped.is_none());
    Ok(())
}
