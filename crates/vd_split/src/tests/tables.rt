//! Both ends with tables: worked words.
use super::rows::{IN, OUT, words_are};
use crate::Split;
use std::test::*;
use vd_layout::{DeviceAct, DriverAct, PlainRing};
use vd_model::{Chain, Features, Piece};

/// Fifteen readable pieces of a byte, and a writable one.
fn longest_chain() -> Chain {
    let byte = Piece {
        addr: 4096,
        len: 1,
        write: false,
    };
    let mut c = Chain::new(byte);
    for _ in 1..15u32 {
        let _ = c.push(byte);
    }
    let _ = c.push(OUT);
    c
}

/// A ring of two places takes chains of sixteen pieces by tables.
#[test]
fn a_table_stands_in_the_words(rt: HostRuntime) -> Result<(), Fail> {
    let indirect = Features {
        indirect: true,
        event_idx: false,
        in_order: false,
    };
    let mut ring = PlainRing::<Split>::make(rt.alloc(), 0, 2, indirect)?;
    let long = longest_chain();
    assert_eq!(rt; long.pieces().len(), 16);
    assert!(rt; ring.offer(&long) == Some(DriverAct::Offered(0)));
    assert!(rt; ring.offer(&Chain::new(IN)) == Some(DriverAct::Offered(1)));
    assert!(rt; ring.offer(&Chain::new(IN)).is_none());
    // the table of place 0 begins with word 9; place 1 has a descriptor of its own
    assert!(rt; words_are(&ring, &[0x48, 0x4_0000_0100, 0x1000, 0xa]));
    for i in 0..15u64 {
        let place = 9 + 2 * i as u32;
        assert_eq!(rt; ring.word(place), 0x1000);
        assert_eq!(rt; ring.word(place + 1), i + 1 << 48 | 0x1_0000_0001);
    }
    assert_eq!(rt; ring.word(39), 0x2000);
    assert_eq!(rt; ring.word(40), 0x2_0000_0040);
    for place in 41..73u32 {
        assert_eq!(rt; ring.word(place), 0);
    }
    match ring.take() {
        Some(DeviceAct::Taken(0, c)) => assert!(rt; c.pieces() == long.pieces()),
        _ => assert!(rt; false),
    }
    assert!(rt; matches!(ring.take(), Some(DeviceAct::Taken(1, _))));
    assert!(rt; matches!(ring.give(0, 15), Some(DeviceAct::Given(0))));
    assert!(rt;
        ring.collect()
            == Some(DriverAct::Collected {
                number: 0,
                len: 15,
                head: 0
            })
    );
    // the next chain has place 0 and its table, and leaves the rest of the one before there
    let mut two = Chain::new(IN);
    assert!(rt; two.push(OUT).is_ok());
    assert!(rt; ring.offer(&two) == Some(DriverAct::Offered(2)));
    assert!(rt; words_are(&ring, &[0x48, 0x4_0000_0020, 0x1000, 0xa]));
    assert_eq!(rt; ring.word(9), 0x1000);
    assert_eq!(rt; ring.word(10), 0x1_0001_0000_000a);
    assert_eq!(rt; ring.word(11), 0x2000);
    assert_eq!(rt; ring.word(12), 0x2_0000_0040);
    assert_eq!(rt; ring.word(14), 0x3_0001_0000_0001);
    match ring.take() {
        Some(DeviceAct::Taken(2, c)) => assert!(rt; c.pieces() == two.pieces()),
        _ => assert!(rt; false),
    }
    Ok(())
}
