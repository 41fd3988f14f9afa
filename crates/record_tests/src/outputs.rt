// Records of each kind, written to the bytes that they have, and refused at their borders.
use answers::{Read, Telling, Told};
use channels::{Channel, Fault};
use records::{Heard, What};
use std::test::Fail;
use writers::{heard_input_bytes, write_message, write_read, write_told};

#[test]
fn inputs(rt: HostRuntime) -> Result<(), Fail> {
    let heap = rt.alloc();
    let records = [
        Heard {
            frame: 258,
            part: 3,
            slot: 4,
            what: What::Noise,
        },
        Heard {
            frame: 259,
            part: 0,
            slot: 1,
            what: What::Word(*b"abcdefghijkl"),
        },
    ];
    let bytes = heard_input_bytes(heap, Channel::new(5, 2, 2)?, &records)?;
    assert!(rt;
        bytes.as_slice()
            == b"\x01\x05\x02\x02\x03\x00\x00\x01\x02\x03\x04\x02\x03\x00\x00\x01\x03\x00\x01\x01abcdefghijkl".as_slice()
    );
    let mut out = Vec::new(heap);
    write_message(&mut out, &[10, 258, 1073741823])?;
    assert!(rt;
        out.as_slice() == b"\x02\x03\x00\x00\x00\x0a\x00\x00\x01\x02\x3f\xff\xff\xff".as_slice()
    );
    let many = vec![in heap; 0u32; 256]?;
    assert_eq!(rt; write_message(&mut out, &many), Err(Fault::Message));
    assert_eq!(rt; out.len(), 14);
    Ok(())
}

#[test]
fn answers(rt: HostRuntime) -> Result<(), Fail> {
    let heap = rt.alloc();
    let mut out = Vec::new(heap);
    let read = Read {
        frame: 1,
        sender: 66051,
        words: 29,
        off: 2,
        count: 2,
    };
    write_read(&mut out, read, &[7, 8])?;
    assert!(rt;
        out.as_slice()
            == b"\x04\x00\x00\x00\x01\x01\x02\x03\x1d\x02\x02\x00\x00\x00\x07\x00\x00\x00\x08".as_slice()
    );
    assert_eq!(rt; write_read(&mut out, read, &[7]), Err(Fault::Message));
    let far = Telling::Doubtful {
        sender: 16777216,
        count: 9,
    };
    assert_eq!(rt;
        write_told(
            &mut out,
            Told {
                frame: 1,
                telling: far,
            },
        ),
        Err(Fault::Sender)
    );
    assert_eq!(rt; out.len(), 19);
    out.clear();
    write_told(
        &mut out,
        Told {
            frame: 2,
            telling: Telling::Crowded,
        },
    )?;
    assert!(rt; out.as_slice() == b"\x05\x00\x00\x00\x02\x00\x00\x00\x08\x00".as_slice());
    Ok(())
}
