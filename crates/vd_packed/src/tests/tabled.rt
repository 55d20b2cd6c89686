//! Worked words of tables, and a reader of tables over them.
use super::calls::{Call, Told, as_told, words_are};
use crate::Packed;
use std::test::*;
use vd_indirect::{TableFault, TableKind, read_table};
use vd_layout::{DeviceAct, DriverAct, PlainRing};
use vd_model::{Chain, Features, Piece};

const INDIRECT: Features = Features {
    indirect: true,
    event_idx: false,
    in_order: false,
};

const BYTE: Piece = Piece {
    addr: 4096,
    len: 1,
    write: false,
};

const OUT: Piece = Piece {
    addr: 8192,
    len: 64,
    write: true,
};

/// Fifteen readable pieces of a byte, and a writable one.
fn longest_chain() -> Chain {
    let mut c = Chain::new(BYTE);
    for _ in 1..15u32 {
        let _ = c.push(BYTE);
    }
    let _ = c.push(OUT);
    c
}

/// The chain that a reader of tables finds in so many places of the table that begins at this word.
fn read(ring: &PlainRing<Packed>, start: u32, places: u32) -> Result<Chain, TableFault> {
    let mut words = [0u64; 32];
    for i in 0..32u32 {
        words[i as usize] = ring.word(start.wrapping_add(i));
    }
    let places = if places < 16 { places } else { 16 };
    read_table(
        TableKind::Packed,
        &words[..2 * places as usize],
        16 * places,
    )
}

fn short_chain() -> Chain {
    let mut c = Chain::new(BYTE);
    let _ = c.push(OUT);
    c
}

/// On a fresh ring of two places the longest chain and one of one piece are offered.
fn offers_both(ring: &mut PlainRing<Packed>) -> bool {
    ring.offer(&longest_chain()) == Some(DriverAct::Offered(0))
        && ring.offer(&Chain::new(OUT)) == Some(DriverAct::Offered(1))
}

/// Whether so many pieces of a byte stand from this word on.
fn bytes_stand(ring: &PlainRing<Packed>, start: u32, count: u32) -> bool {
    for i in 0..count {
        let place = start.wrapping_add(i.wrapping_mul(2));
        if ring.word(place) != 0x1000 || ring.word(place.wrapping_add(1)) != 1 {
            return false;
        }
    }
    true
}

/// A ring of two places takes chains of sixteen pieces by tables.
#[test]
fn a_table_stands_in_the_words(rt: HostRuntime) -> Result<(), Fail> {
    let mut ring = PlainRing::<Packed>::make(rt.alloc(), 0, 2, INDIRECT)?;
    assert_eq!(rt; longest_chain().pieces().len(), 16);
    assert!(rt; offers_both(&mut ring));
    assert!(rt; ring.offer(&Chain::new(OUT)).is_none());
    // the table of id 0 begins with word 6; the second chain has a descriptor of its own
    let words = [0x30, 0x0084_0000_0000_0100, 0x2000, 0x0082_0001_0000_0040];
    assert!(rt; words_are(&ring, &words));
    assert!(rt; bytes_stand(&ring, 6, 15));
    assert!(rt; (ring.word(36), ring.word(37)) == (0x2000, 0x0002_0000_0000_0040));
    for place in 38..70u32 {
        assert_eq!(rt; ring.word(place), 0);
    }
    match read(&ring, 6, 16) {
        Ok(c) => assert!(rt; c.pieces() == longest_chain().pieces()),
        Err(_) => assert!(rt; false),
    }
    Ok(())
}

/// Whether the next chain taken is this one.
fn takes(ring: &mut PlainRing<Packed>, k: u32, chain: &Chain) -> bool {
    match ring.take() {
        Some(DeviceAct::Taken(number, c)) => number == k && c.pieces() == chain.pieces(),
        _ => false,
    }
}

/// The next chain has the id that came back, and its table, and leaves the rest of the one before there.
#[test]
fn a_table_is_written_again(rt: HostRuntime) -> Result<(), Fail> {
    let mut ring = PlainRing::<Packed>::make(rt.alloc(), 0, 2, INDIRECT)?;
    assert!(rt; offers_both(&mut ring));
    assert!(rt; takes(&mut ring, 0, &longest_chain()) && takes(&mut ring, 1, &Chain::new(OUT)));
    let back = DriverAct::Collected {
        number: 0,
        len: 15,
        head: 0,
    };
    let rows = [
        (Call::Give(0, 15), Told::Given(0)),
        (Call::Word(1), Told::Word(0x8082_0000_0000_000f)),
        (Call::Collect, Told::Driver(back)),
    ];
    assert_eq!(rt; as_told(&mut ring, &rows), 3);
    assert!(rt; ring.offer(&short_chain()) == Some(DriverAct::Offered(2)));
    let rows = [
        (Call::Word(0), Told::Word(0x30)),
        (Call::Word(1), Told::Word(0x8004_0000_0000_0020)),
        (Call::Word(6), Told::Word(0x1000)),
        (Call::Word(7), Told::Word(1)),
        (Call::Word(8), Told::Word(0x2000)),
        (Call::Word(9), Told::Word(0x0002_0000_0000_0040)),
        (Call::Word(10), Told::Word(0x1000)),
        (Call::Word(11), Told::Word(1)),
    ];
    assert_eq!(rt; as_told(&mut ring, &rows), 8);
    // past its two places a readable piece follows a writable one
    assert!(rt; matches!(read(&ring, 6, 3), Err(TableFault::Order(2))));
    assert!(rt; takes(&mut ring, 2, &short_chain()));
    Ok(())
}
