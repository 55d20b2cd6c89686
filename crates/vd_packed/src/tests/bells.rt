//! Worked rows: for which chains the other side's event word asks for a bell.
use super::calls::{Call, Told, as_told};
use crate::Packed;
use std::test::*;
use vd_layout::{DriverAct, PlainRing};
use vd_model::Features;

const INDEXED: Features = Features {
    indirect: false,
    event_idx: true,
    in_order: false,
};

const FLAGGED: Features = Features {
    indirect: false,
    event_idx: false,
    in_order: false,
};

/// Chain number `k` of one piece goes to the device and back.
fn passes(ring: &mut PlainRing<Packed>, k: u32) -> bool {
    let back = DriverAct::Collected {
        number: k,
        len: 10,
        head: k % 3,
    };
    let rows = [
        (Call::Offer, Told::Driver(DriverAct::Offered(k))),
        (Call::Take, Told::Taken(k)),
        (Call::Give(k, 10), Told::Given(k)),
        (Call::Collect, Told::Driver(back)),
    ];
    as_told(ring, &rows) == 4
}

/// With EVENT_IDX a side that has been armed is rung for the descriptor that its event word names, in its lap. The word stays once it is
/// awake.
#[test]
fn an_event_word_names_one_descriptor(rt: HostRuntime) -> Result<(), Fail> {
    let mut ring = PlainRing::<Packed>::make(rt.alloc(), 0, 3, INDEXED)?;
    for k in 0..3u32 {
        assert!(rt; passes(&mut ring, k));
    }
    let rows = [
        // no side has named a descriptor yet
        (Call::Word(8), Told::Word(3)),
        (Call::Word(9), Told::Word(3)),
        (Call::ArmDevice, Told::Armed),
        (Call::ArmDriver, Told::Driver(DriverAct::Armed)),
        (Call::Word(6), Told::Word(0x2_0000)),
        (Call::Word(7), Told::Word(0x2_0000)),
        // the bells of the first lap were not heard yet
        (Call::HearDevice, Told::Awake),
        (Call::HearDriver, Told::Driver(DriverAct::Awake)),
        (Call::ArmDevice, Told::Armed),
        (Call::HearDevice, Told::Asleep),
        (Call::Take, Told::Not),
        (Call::Offer, Told::Driver(DriverAct::Offered(3))),
        (Call::Word(8), Told::Word(4)),
        (Call::HearDevice, Told::Awake),
        (Call::Offer, Told::Driver(DriverAct::Offered(4))),
        (Call::Word(8), Told::Word(4)),
        (Call::ArmDevice, Told::Awake),
        (Call::Take, Told::Taken(3)),
        (Call::Give(3, 10), Told::Given(3)),
        (Call::Take, Told::Taken(4)),
        (Call::Give(4, 10), Told::Given(4)),
        // the one at place 0 is rung for, that at place 1 isn't
        (Call::Word(9), Told::Word(4)),
    ];
    assert_eq!(rt; as_told(&mut ring, &rows), 22);
    Ok(())
}

/// Without EVENT_IDX a side is rung for each chain until it sets the flags DISABLE, which it does when it wakes, and when it rests.
#[test]
fn a_flag_asks_for_no_signal(rt: HostRuntime) -> Result<(), Fail> {
    let mut ring = PlainRing::<Packed>::make(rt.alloc(), 0, 3, FLAGGED)?;
    assert!(rt; passes(&mut ring, 0) && passes(&mut ring, 1));
    let rows = [
        (Call::Word(8), Told::Word(2)),
        (Call::Word(9), Told::Word(2)),
        (Call::ArmDriver, Told::Driver(DriverAct::Armed)),
        (Call::Word(6), Told::Word(0)),
        (Call::DisarmDriver, Told::Driver(DriverAct::Awake)),
        (Call::Word(6), Told::Word(0x1_0000)),
    ];
    assert_eq!(rt; as_told(&mut ring, &rows), 6);
    assert!(rt; passes(&mut ring, 2));
    let rows = [
        (Call::Word(8), Told::Word(3)),
        (Call::Word(9), Told::Word(2)),
        (Call::ArmDevice, Told::Armed),
        (Call::Word(7), Told::Word(0)),
        (Call::Rest, Told::Rested),
        (Call::Word(7), Told::Word(0x1_0000)),
        (Call::Offer, Told::Driver(DriverAct::Offered(3))),
        (Call::Word(8), Told::Word(3)),
    ];
    assert_eq!(rt; as_told(&mut ring, &rows), 8);
    assert!(rt; ring.armed() == (false, false));
    Ok(())
}
