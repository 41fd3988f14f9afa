// Settings at every border, the worked senders' slots, the first and last sender of each kind of channel, and the faults' texts.
use crate::{Channel, Fault, Plan};
use std::test::Fail;

// q, d, k, and the sizes of the channel that they make: senders, slots of a frame, numbers of a message.
const MADE: [(u8, u8, u8, u32, u32, u8); 18] = [
    (3, 1, 0, 3, 9, 3),
    (3, 1, 255, 3, 9, 3),
    (3, 2, 2, 9, 9, 1),
    (3, 3, 1, 27, 9, 1),
    (5, 2, 2, 25, 25, 3),
    (5, 3, 2, 125, 25, 1),
    (5, 4, 1, 625, 25, 2),
    (13, 4, 4, 28561, 169, 1),
    (29, 3, 9, 24389, 841, 11),
    (37, 3, 18, 50653, 1369, 1),
    (41, 2, 40, 1681, 1681, 1),
    (251, 1, 0, 251, 63001, 251),
    (251, 1, 255, 251, 63001, 251),
    (251, 2, 0, 63001, 63001, 251),
    (251, 2, 8, 63001, 63001, 243),
    (251, 2, 250, 63001, 63001, 1),
    (241, 2, 240, 58081, 58081, 1),
    (11, 4, 3, 14641, 121, 2),
];

// q, d and k that make none.
const REFUSED: [(u8, u8, u8); 22] = [
    (0, 1, 0),
    (1, 1, 0),
    (2, 1, 0),
    (4, 2, 1),
    (9, 2, 1),
    (15, 2, 1),
    (249, 2, 1),
    (250, 2, 1),
    (252, 2, 1),
    (255, 2, 1),
    (3, 0, 0),
    (5, 0, 2),
    (5, 5, 0),
    (251, 255, 0),
    (3, 4, 0),
    (17, 4, 1),
    (41, 3, 1),
    (3, 2, 3),
    (5, 3, 3),
    (13, 4, 5),
    (251, 2, 251),
    (29, 3, 15),
];

#[test]
fn channels_are_made(rt: HostRuntime) -> Result<(), Fail> {
    for (q, d, k, senders, slots, numbers) in MADE {
        let c = Channel::new(q, d, k)?;
        assert_eq!(rt; (c.parts(), c.digits(), c.others()), (q, d, k));
        assert_eq!(rt;
            (c.senders(), c.slots(), c.numbers()),
            (senders, slots, numbers)
        );
    }
    Ok(())
}

#[test]
fn channels_are_refused(rt: HostRuntime) {
    for (q, d, k) in REFUSED {
        assert_eq!(rt; Channel::new(q, d, k), Err(Fault::Channel));
    }
}

// On q = 5, d = 2: the sender and its slots.
#[test]
fn worked_slots(rt: HostRuntime) -> Result<(), Fail> {
    let c = Channel::new(5, 2, 2)?;
    for (number, slots) in [
        (7, [2, 3, 4, 0, 1]),
        (17, [2, 0, 3, 1, 4]),
        (12, [2, 4, 1, 3, 0]),
    ] {
        let plan = Plan::of(c, number)?;
        for (x, slot) in slots.iter().enumerate() {
            assert_eq!(rt; plan.slot(u8::try_from(x)?), Some(*slot));
        }
        assert_eq!(rt; plan.slot(5), None);
        assert_eq!(rt; plan.slot(255), None);
    }
    Ok(())
}

// The first sender is always in slot 0; the last, all of whose digits are q - 1, is in slot q - 1 of part 0 and in slot q - d of part 1.
#[test]
fn first_and_last(rt: HostRuntime) -> Result<(), Fail> {
    for (q, d, k, senders, _, _) in MADE {
        let c = Channel::new(q, d, k)?;
        let first = Plan::of(c, 0)?;
        assert_eq!(rt; (first.slot(0), first.slot(q - 1)), (Some(0), Some(0)));
        let last = Plan::of(c, senders.saturating_sub(1))?;
        assert_eq!(rt;
            (last.slot(0), last.slot(1)),
            (Some(q.saturating_sub(1)), Some(q.saturating_sub(d)))
        );
        assert_eq!(rt; Plan::of(c, senders).err(), Some(Fault::Sender));
    }
    Ok(())
}

#[test]
fn inverses(rt: HostRuntime) -> Result<(), Fail> {
    let c = Channel::new(251, 2, 8)?;
    assert_eq!(rt;
        (c.inverse(1), c.inverse(2), c.inverse(250)),
        (Some(1), Some(126), Some(250))
    );
    assert_eq!(rt;
        (c.inverse(0), c.inverse(251), c.inverse(255)),
        (None, None, None)
    );
    let c = Channel::new(3, 1, 0)?;
    assert_eq!(rt;
        (c.inverse(1), c.inverse(2), c.inverse(3)),
        (Some(1), Some(2), None)
    );
    Ok(())
}

#[test]
fn faults_are_told(rt: HostRuntime) -> Result<(), Fail> {
    let heap = rt.alloc();
    assert_eq!(rt;
        format!(in heap; "{}", Fault::Sender)?.as_str(),
        "fault 3: no such sender"
    );
    assert_eq!(rt;
        format!(in heap; "{}", Fault::NoChannel)?.as_str(),
        "fault 9: no channel"
    );
    assert_eq!(rt;
        format!(in heap; "{}", Fault::Memory)?.as_str(),
        "out of memory"
    );
    Ok(())
}
