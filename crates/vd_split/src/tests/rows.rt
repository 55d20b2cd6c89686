//! Worked rows: the words after an offer and after its return, and one chain's way through a ring.
use super::operations::Answer::{
    Armed, Asleep, Awake, Base as Kept, Collected, Given, Kept as Keeps, Nothing, Offered, Refused,
    Rested, Resumed, Taken,
};
use super::operations::Operation::{
    ArmDevice, ArmDriver, Base as BaseOf, Collect, DisarmDevice, DisarmDriver, Give, HearDevice,
    HearDriver, Offer, Rest, Resume, Take,
};
use super::operations::{answer_of, first_other, first_other_signal};
use crate::Split;
use std::test::*;
use vd_layout::{DeviceEnd, DriverEnd, Layout, PlainRing};
use vd_model::{Base, Chain, Features, Piece};

const PLAIN: Features = Features {
    indirect: false,
    event_idx: false,
    in_order: false,
};

pub(super) const IN: Piece = Piece {
    addr: 4096,
    len: 10,
    write: false,
};

pub(super) const OUT: Piece = Piece {
    addr: 8192,
    len: 64,
    write: true,
};

pub(super) fn words_are<L: Layout>(ring: &PlainRing<L>, expected: &[u64]) -> bool {
    for (i, w) in expected.iter().enumerate() {
        if i >= 64 {
            return false;
        }
        if ring.word(i as u32) != *w {
            return false;
        }
    }
    true
}

const INDEXED: Features = Features {
    indirect: false,
    event_idx: true,
    in_order: false,
};

/// A readable piece, and a writable one behind it.
fn chain(both: bool) -> Chain {
    let mut c = Chain::new(IN);
    if both {
        let _ = c.push(OUT);
    }
    c
}

/// The words after an offer and a take, and after a give.
#[test]
fn a_chain_stands_in_the_words(rt: HostRuntime) -> Result<(), Fail> {
    for (both, pieces, offered, given) in [
        (
            false,
            1,
            [
                0x1000, 0xa, 0, 0, 0, 0, 0, 0, 0x10000, 0, 0, 0, 0, 0, 0, 1, 0,
            ],
            [
                0x1000, 0xa, 0, 0, 0, 0, 0, 0, 0x10000, 0, 0x10000, 0xa, 0, 0, 0, 1, 1,
            ],
        ),
        (
            true,
            2,
            [
                0x1000,
                0x0001_0001_0000_000a,
                0x2000,
                0x0000_0002_0000_0040,
                0,
                0,
                0,
                0,
                0x10000,
                0,
                0,
                0,
                0,
                0,
                0,
                1,
                0,
            ],
            [
                0x1000,
                0x0001_0001_0000_000a,
                0x2000,
                0x0000_0002_0000_0040,
                0,
                0,
                0,
                0,
                0x10000,
                0,
                0x10000,
                0xa,
                0,
                0,
                0,
                1,
                1,
            ],
        ),
    ] {
        let c = chain(both);
        assert_eq!(rt; c.pieces().len(), pieces);
        let mut ring = PlainRing::<Split>::make(rt.alloc(), 0, 4, PLAIN)?;
        let first = first_other(&mut ring, &c, &[(Offer, Offered(0)), (Take, Taken(0))]);
        assert_eq!(rt; first, None);
        assert!(rt; words_are(&ring, offered.as_slice()));
        assert_eq!(rt; answer_of(&mut ring, &c, Give(0)), Given(0));
        assert!(rt; words_are(&ring, given.as_slice()));
    }
    Ok(())
}

/// A chain goes through a ring that rests then. A give is refused where the chain doesn't run.
#[test]
fn a_chain_goes_through_a_ring(rt: HostRuntime) -> Result<(), Fail> {
    let mut ring = PlainRing::<Split>::make(rt.alloc(), 0, 4, PLAIN)?;
    let rows = [
        (Take, Nothing),
        (Collect, Nothing),
        (Offer, Offered(0)),
        (Take, Taken(0)),
        (Give(1), Refused),
        (Give(0), Given(0)),
        (Give(0), Refused),
        (Collect, Collected(0, 10, 0)),
        (Rest, Rested),
        (BaseOf, Kept(1)),
        (Resume(0), Keeps(1)),
        (Resume(1), Resumed),
    ];
    assert_eq!(rt; first_other(&mut ring, &chain(true), rows.as_slice()), None);
    assert!(rt; ring.counts() == (1, 1, 1, 1));
    Ok(())
}

/// A ring rests where the chains given are all those below their count, and those taken and not given are offered still.
#[test]
fn a_rest_takes_chains_back(rt: HostRuntime) -> Result<(), Fail> {
    let mut ring = PlainRing::<Split>::make(rt.alloc(), 0, 4, PLAIN)?;
    let rows = [
        (Rest, Rested),
        (BaseOf, Kept(0)),
        (Resume(0), Resumed),
        (Offer, Offered(0)),
        (Offer, Offered(1)),
        (Offer, Offered(2)),
        (Take, Taken(0)),
        (Take, Taken(1)),
        (Take, Taken(2)),
        (Give(1), Given(1)),
        (Rest, Refused),
        (Give(0), Given(0)),
        (Rest, Rested),
        (Take, Refused),
        (BaseOf, Kept(2)),
        (Resume(3), Keeps(2)),
        (Resume(2), Resumed),
        (Give(2), Refused),
        (Take, Taken(2)),
    ];
    assert_eq!(rt;
        first_other(&mut ring, &chain(false), rows.as_slice()),
        None
    );
    assert!(rt; ring.counts() == (3, 0, 3, 2));
    Ok(())
}

/// Without EVENT_IDX a side is rung for each entry until it sets its flag, which it does when it wakes, and when it rests. A row ends with
/// both flags and both bells.
#[test]
fn a_flag_asks_for_no_signal(rt: HostRuntime) -> Result<(), Fail> {
    let mut ring = PlainRing::<Split>::make(rt.alloc(), 0, 4, PLAIN)?;
    let rows = [
        (Offer, Offered(0), (0, 0, 1, 0)),
        (Take, Taken(0), (0, 0, 1, 0)),
        (Give(0), Given(0), (0, 0, 1, 1)),
        (Collect, Collected(0, 10, 0), (0, 0, 1, 1)),
        (Offer, Offered(1), (0, 0, 2, 1)),
        (Take, Taken(1), (0, 0, 2, 1)),
        (Give(1), Given(1), (0, 0, 2, 2)),
        (Collect, Collected(1, 10, 1), (0, 0, 2, 2)),
        (ArmDriver, Armed, (0, 0, 2, 2)),
        (DisarmDriver, Awake, (1, 0, 2, 2)),
        (Offer, Offered(2), (1, 0, 3, 2)),
        (Take, Taken(2), (1, 0, 3, 2)),
        (Give(2), Given(2), (1, 0, 3, 2)),
        (Collect, Collected(2, 10, 2), (1, 0, 3, 2)),
        (ArmDevice, Armed, (1, 0, 3, 2)),
        (Rest, Rested, (1, 1, 3, 2)),
        (Offer, Offered(3), (1, 1, 3, 2)),
    ];
    let first = first_other_signal(&mut ring, &chain(false), false, rows.as_slice());
    assert_eq!(rt; first, None);
    assert!(rt; ring.armed() == (false, false));
    Ok(())
}

/// With EVENT_IDX a side is rung for the entry that its event word names, 0 at first, and the word stays when the side wakes. A row ends
/// with both event words and both bells.
#[test]
fn an_event_word_names_one_entry(rt: HostRuntime) -> Result<(), Fail> {
    let mut ring = PlainRing::<Split>::make(rt.alloc(), 0, 4, INDEXED)?;
    let rows = [
        (Offer, Offered(0), (0, 0, 1, 0)),
        (Take, Taken(0), (0, 0, 1, 0)),
        (Give(0), Given(0), (0, 0, 1, 1)),
        (Collect, Collected(0, 10, 0), (0, 0, 1, 1)),
        (Offer, Offered(1), (0, 0, 1, 1)),
        (Take, Taken(1), (0, 0, 1, 1)),
        (Give(1), Given(1), (0, 0, 1, 1)),
        (Collect, Collected(1, 10, 1), (0, 0, 1, 1)),
        (ArmDevice, Armed, (0, 2, 1, 1)),
        (ArmDriver, Armed, (2, 2, 1, 1)),
        // the bells of entry 0 were not heard yet
        (HearDevice, Awake, (2, 2, 1, 1)),
        (HearDriver, Awake, (2, 2, 1, 1)),
        (ArmDevice, Armed, (2, 2, 1, 1)),
        (HearDevice, Asleep, (2, 2, 1, 1)),
        (Take, Refused, (2, 2, 1, 1)),
        (Offer, Offered(2), (2, 2, 2, 1)),
        (HearDevice, Awake, (2, 2, 2, 1)),
        (Offer, Offered(3), (2, 2, 2, 1)),
        // an arming that finds a chain leaves its word
        (ArmDevice, Awake, (2, 2, 2, 1)),
        (Take, Taken(2), (2, 2, 2, 1)),
        (Give(2), Given(2), (2, 2, 2, 2)),
        (Take, Taken(3), (2, 2, 2, 2)),
        (Give(3), Given(3), (2, 2, 2, 2)),
    ];
    let first = first_other_signal(&mut ring, &chain(false), true, rows.as_slice());
    assert_eq!(rt; first, None);
    Ok(())
}

/// One chain is offered, taken, given and collected. Whether its offer and its give rang.
fn rings<L: Layout>(ring: &mut PlainRing<L>, c: &Chain) -> Option<(bool, bool)> {
    let before = (ring.word(15), ring.word(16));
    let _ = answer_of(ring, c, Offer);
    let _ = answer_of(ring, c, Take);
    let number = ring.counts().3;
    let Given(_) = answer_of(ring, c, Give(number)) else {
        return None;
    };
    let Collected(_, _, _) = answer_of(ring, c, Collect) else {
        return None;
    };
    Some((ring.word(15) != before.0, ring.word(16) != before.1))
}

/// Both sides arm where entry `event` is next, and are disarmed, which leaves their event words. The first entry, of so many, for which
/// one of them is rung though its event word doesn't name it, or isn't though the word does. Indices go round at 65,536.
fn first_other_bell<L: Layout>(
    ring: &mut PlainRing<L>,
    c: &Chain,
    event: u32,
    entries: u32,
) -> Option<u32> {
    let mut named = 0;
    for k in 0..entries {
        if k == event {
            named = event;
            let _ = answer_of(ring, c, ArmDevice);
            let _ = answer_of(ring, c, DisarmDevice);
            let _ = answer_of(ring, c, ArmDriver);
            let _ = answer_of(ring, c, DisarmDriver);
        }
        let is_named = k & 0xffff == named;
        if rings(ring, c) != Some((is_named, is_named)) {
            return Some(k);
        }
    }
    None
}

/// A side that publishes one entry is rung for where the other's event word names this entry: with event 4 for entry 4, but not with
/// event 3, which is just before it, nor with event 5, the next one; with event 65,535 for entry 65,535, after which the index is 0.
/// Ranges of more entries are never published here; the tests of the event rules have them.
#[test]
fn an_event_word_asks_at_its_entry_alone(rt: HostRuntime) -> Result<(), Fail> {
    for event in [0, 3, 4, 5, 65535] {
        let mut ring = PlainRing::<Split>::make(rt.alloc(), 0, 4, INDEXED)?;
        let first = first_other_bell(&mut ring, &chain(false), event, 65_546);
        assert_eq!(rt; first, None, "{event}");
    }
    Ok(())
}

#[test]
fn ends_of_a_fresh_ring(rt: HostRuntime) -> Result<(), Fail> {
    let (driver, device) = Split::make(rt.alloc(), 4, PLAIN, false)?;
    assert!(rt; (driver.idle(), device.idle()) == (true, true));
    assert!(rt; (driver.size(), device.size()) == (4, 4));
    assert!(rt; (driver.features(), device.features()) == (PLAIN, PLAIN));
    assert!(rt; (device.base(), device.outstanding()) == (Base(0), 0));
    Ok(())
}

#[test]
fn the_layout_answers(rt: HostRuntime) -> Result<(), Fail> {
    assert_eq!(rt; Split::words(4, PLAIN, false), 17);
    assert_eq!(rt; Split::words(4, PLAIN, true), 29);
    for head in 0..4u32 {
        assert_eq!(rt; Split::command_word(4, PLAIN, head), 15 + 2 * head);
        assert_eq!(rt; Split::ack_word(4, PLAIN, head), 23 + head);
    }
    for (size, lawful) in [
        (0, false),
        (1, false),
        (2, true),
        (3, false),
        (4, true),
        (1024, true),
        (2048, false),
    ] {
        assert_eq!(rt; Split::lawful_size(size), lawful);
    }
    assert!(rt; Split::fresh_base() == Base(0));
    for (base, lawful) in [(0, true), (65535, true), (65536, false)] {
        assert_eq!(rt; Split::lawful_base(4, Base(base)), lawful);
    }
    Ok(())
}
