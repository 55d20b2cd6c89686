//! Worked rows: the words after an offer and after its return, and the bases there.
use super::calls::{Call, IN, OUT, Told, as_told, words_are};
use crate::Packed;
use std::test::*;
use vd_layout::{DeviceAct, DeviceEnd, DriverAct, DriverEnd, Layout, PlainRing};
use vd_model::{Base, Features};

const PLAIN: Features = Features {
    indirect: false,
    event_idx: false,
    in_order: false,
};

#[test]
fn one_piece_stands_in_the_words(rt: HostRuntime) -> Result<(), Fail> {
    let mut ring = PlainRing::<Packed>::make(rt.alloc(), 0, 3, PLAIN)?;
    let rows = [(Call::Offer, Told::Driver(DriverAct::Offered(0)))];
    assert_eq!(rt; as_told(&mut ring, &rows), 1);
    let words = [0x1000, 0x0080_0000_0000_000a, 0, 0, 0, 0, 0, 0, 1, 0];
    assert!(rt; words_are(&ring, &words));
    let rows = [
        (Call::Take, Told::Taken(0)),
        (Call::Give(0, 0), Told::Given(0)),
    ];
    assert_eq!(rt; as_told(&mut ring, &rows), 2);
    let words = [0x1000, 0x8080_0000_0000_0000, 0, 0, 0, 0, 0, 0, 1, 1];
    assert!(rt; words_are(&ring, &words));
    Ok(())
}

/// On a fresh ring of three places one chain of two pieces is offered.
fn offers_two_pieces(ring: &mut PlainRing<Packed>) -> bool {
    let rows = [
        (Call::Rest, Told::Rested),
        (Call::Base, Told::Word(0x8000_8000)),
        (Call::Resume(0x8000_8000), Told::Yes),
        (Call::Take, Told::Nothing),
        (Call::Collect, Told::Driver(DriverAct::Nothing)),
        (Call::OfferTwo, Told::Driver(DriverAct::Offered(0))),
    ];
    as_told(ring, &rows) == 6
}

/// The chain comes back, and a second one is offered.
fn offers_a_second(ring: &mut PlainRing<Packed>) -> bool {
    let back = DriverAct::Collected {
        number: 0,
        len: 10,
        head: 0,
    };
    let rows = [
        // it waits for room
        (Call::OfferTwo, Told::Not),
        (Call::Take, Told::Taken(0)),
        (Call::Holds(0), Told::Yes),
        (Call::Holds(1), Told::No),
        (Call::Give(0, 10), Told::Given(0)),
        (Call::Holds(0), Told::No),
        (Call::Word(1), Told::Word(0x8082_0000_0000_000a)),
        (Call::Word(3), Told::Word(0x0082_0000_0000_0040)),
        (Call::Collect, Told::Driver(back)),
        (Call::Collect, Told::Driver(DriverAct::Nothing)),
        (Call::OfferTwo, Told::Driver(DriverAct::Offered(1))),
    ];
    as_told(ring, &rows) == 11
}

#[test]
fn two_pieces_stand_in_the_words(rt: HostRuntime) -> Result<(), Fail> {
    let mut ring = PlainRing::<Packed>::make(rt.alloc(), 0, 3, PLAIN)?;
    assert!(rt; offers_two_pieces(&mut ring));
    // the device, which has rested, wants no bell
    let words = [
        0x1000,
        0x0081_0000_0000_000a,
        0x2000,
        0x0082_0000_0000_0040,
        0,
        0,
        0,
        0x1_0000,
        0,
        0,
    ];
    assert!(rt; words_are(&ring, &words));
    match ring.take() {
        Some(DeviceAct::Taken(0, taken)) => assert!(rt; taken.pieces() == [IN, OUT].as_slice()),
        _ => assert!(rt; false),
    }
    Ok(())
}

#[test]
fn a_second_chain_goes_round_the_end(rt: HostRuntime) -> Result<(), Fail> {
    let mut ring = PlainRing::<Packed>::make(rt.alloc(), 0, 3, PLAIN)?;
    assert!(rt; offers_two_pieces(&mut ring) && offers_a_second(&mut ring));
    let words = [
        0x2000,
        0x8002_0001_0000_0040,
        0x2000,
        0x0082_0000_0000_0040,
        0x1000,
        0x0081_0001_0000_000a,
        0,
        0x1_0000,
        0,
        1,
    ];
    assert!(rt; words_are(&ring, &words));
    let rows = [
        (Call::Take, Told::Taken(1)),
        (Call::Take, Told::Nothing),
        (Call::Give(1, 10), Told::Given(1)),
        (Call::Word(5), Told::Word(0x8082_0001_0000_000a)),
        (Call::Whole, Told::Yes),
        (Call::Rest, Told::Rested),
        (Call::Base, Told::Word(0x0001_0001)),
        (Call::Resume(0x8000_8000), Told::Word(0x0001_0001)),
        (Call::Resume(0x0001_0001), Told::Yes),
    ];
    assert_eq!(rt; as_told(&mut ring, &rows), 9);
    assert!(rt; ring.counts() == (2, 1, 2, 2));
    assert!(rt; ring.size() == 3 && ring.features() == PLAIN);
    Ok(())
}

#[test]
fn a_rest_takes_chains_back(rt: HostRuntime) -> Result<(), Fail> {
    let mut ring = PlainRing::<Packed>::make(rt.alloc(), 0, 5, PLAIN)?;
    // the first used descriptor has the id of the chain given first
    let back = DriverAct::Collected {
        number: 1,
        len: 0,
        head: 1,
    };
    let rows = [
        (Call::Offer, Told::Driver(DriverAct::Offered(0))),
        (Call::Offer, Told::Driver(DriverAct::Offered(1))),
        (Call::Offer, Told::Driver(DriverAct::Offered(2))),
        (Call::Take, Told::Taken(0)),
        (Call::Take, Told::Taken(1)),
        (Call::Take, Told::Taken(2)),
        (Call::Give(1, 0), Told::Given(1)),
        (Call::Whole, Told::No),
        (Call::Rest, Told::Not),
        (Call::Give(0, 0), Told::Given(0)),
        (Call::Rest, Told::Rested),
        (Call::Holds(2), Told::No),
        (Call::Take, Told::Not),
        (Call::Base, Told::Word(0x8002_8002)),
        (Call::Resume(0x8002_8002), Told::Yes),
        (Call::Take, Told::Taken(2)),
        (Call::Collect, Told::Driver(back)),
    ];
    assert_eq!(rt; as_told(&mut ring, &rows), 17);
    assert!(rt; ring.counts() == (3, 1, 3, 2));
    Ok(())
}

#[test]
fn the_layout_answers(rt: HostRuntime) -> Result<(), Fail> {
    assert_eq!(rt; Packed::words(3, PLAIN, false), 10);
    assert_eq!(rt; Packed::words(3, PLAIN, true), 19);
    for head in 0..3u32 {
        assert_eq!(rt; Packed::command_word(3, PLAIN, head), 8 + 2 * head);
        assert_eq!(rt; Packed::ack_word(3, PLAIN, head), 14 + head);
    }
    for (size, lawful) in [
        (0, false),
        (1, false),
        (2, true),
        (3, true),
        (1000, true),
        (1024, true),
        (1025, false),
    ] {
        assert_eq!(rt; Packed::lawful_size(size), lawful);
    }
    assert!(rt; Packed::fresh_base() == Base(0x8000_8000));
    for (base, lawful) in [
        (0x8000_8000, true),
        (0x0002_8002, true),
        (0x0003_0000, false),
        (0x0000_0003, false),
    ] {
        assert_eq!(rt; Packed::lawful_base(3, Base(base)), lawful);
    }
    Ok(())
}

#[test]
fn ends_of_a_fresh_ring(rt: HostRuntime) -> Result<(), Fail> {
    let (driver, device) = Packed::make(rt.alloc(), 3, PLAIN, true)?;
    assert!(rt; driver.idle());
    assert_eq!(rt; driver.next_head(), 0);
    assert!(rt; device.base() == Base(0x8000_8000));
    Ok(())
}
