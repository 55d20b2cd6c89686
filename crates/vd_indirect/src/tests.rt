ghost use Rattle.std.specs.Prelude.{◌≡◌, ◌/◌, if◌then◌else◌, nat_le};

use super::*;
use crate::TableFault::{Length, Link, Nested, Order, TooMany};
use crate::TableKind::{Packed, Split};
use std::test::*;
use vd_model::{Chain, Piece};

const READABLE: Piece = Piece {
    addr: 4096,
    len: 10,
    write: false,
};

const WRITABLE: Piece = Piece {
    addr: 8192,
    len: 64,
    write: true,
};

/// How many words a table of `len` bytes is read from.
fn word_count(len: u32) -> usize
    ensures { result ≡ (if nat_le len 256 then len / 8 else 0) }
{
    if len <= 256 { len as usize / 8 } else { 0 }
}

#[test]
fn tables_are_read_up_to_the_first_fault(rt: HostRuntime) -> Result<(), Fail> {
    let both: &[Piece] = &[READABLE, WRITABLE];
    let one: &[Piece] = &[READABLE];
    for (kind, words, len, want) in [
        (Split, [].as_slice(), 0, Err(Length(0))),
        (Split, &[0, 0, 0], 24, Err(Length(24))),
        (Split, &[], 264, Err(Length(264))),
        (Split, &[], 272, Err(TooMany(272))),
        (Packed, &[], 272, Err(TooMany(272))),
        // A chain of two, then the same with place 1 left out.
        (
            Split,
            &[0x1000, 0x0001_0001_0000_000a, 0x2000, 0x0000_0002_0000_0040],
            32,
            Ok(both),
        ),
        (
            Split,
            &[
                0x1000,
                0x0002_0001_0000_000a,
                0,
                0x0000_0004_0000_0000,
                0x2000,
                0x0000_0002_0000_0040,
            ],
            48,
            Ok(both),
        ),
        (
            Split,
            &[0x1000, 0x0000_0000_0000_000a, 0x2000, 0x0000_0002_0000_0040],
            32,
            Ok(one),
        ),
        // Two places that link to each other, a link to itself, and one past the table.
        (
            Split,
            &[0x1000, 0x0001_0001_0000_000a, 0x2000, 0x0000_0001_0000_000a],
            32,
            Err(Link(1)),
        ),
        (Split, &[0x1000, 0x0000_0001_0000_000a], 16, Err(Link(0))),
        (
            Split,
            &[0x1000, 0x0002_0001_0000_000a, 0x2000, 0x0000_0002_0000_0040],
            32,
            Err(Link(0)),
        ),
        // A table in a table, and a readable piece after a writable one; then two faults in one place.
        (Split, &[0x1000, 0x0000_0004_0000_000a], 16, Err(Nested(0))),
        (
            Split,
            &[0x1000, 0x0001_0001_0000_000a, 0x2000, 0x0000_0004_0000_0040],
            32,
            Err(Nested(1)),
        ),
        (
            Split,
            &[0x2000, 0x0001_0003_0000_0040, 0x1000, 0x0000_0000_0000_000a],
            32,
            Err(Order(1)),
        ),
        (
            Split,
            &[0x2000, 0x0001_0003_0000_0040, 0x1000, 0x0000_0004_0000_000a],
            32,
            Err(Nested(1)),
        ),
        (
            Split,
            &[0x2000, 0x0001_0003_0000_0040, 0x1000, 0x0009_0001_0000_000a],
            32,
            Err(Order(1)),
        ),
        // A packed table: NEXT and the id count for nothing.
        (
            Packed,
            &[0x1000, 0x0000_0000_0000_000a, 0x2000, 0x0002_0000_0000_0040],
            32,
            Ok(both),
        ),
        (
            Packed,
            &[0x1000, 0x0001_0007_0000_000a, 0x2000, 0x0003_0007_0000_0040],
            32,
            Ok(both),
        ),
        (
            Packed,
            &[0x1000, 0x0000_0000_0000_000a, 0x2000, 0x0006_0000_0000_0040],
            32,
            Err(Nested(1)),
        ),
        (
            Packed,
            &[0x2000, 0x0002_0000_0000_0040, 0x1000, 0x0000_0000_0000_000a],
            32,
            Err(Order(1)),
        ),
    ] {
        assert_eq!(rt; words.len(), word_count(len));
        match (read_table(kind, words, len), want) {
            (Ok(chain), Ok(pieces)) => assert!(rt; chain.pieces() == pieces),
            (Err(fault), Err(wanted)) => assert_eq!(rt; fault, wanted),
            (got, _) => assert!(rt; false, "{}", got.is_ok()),
        }
    }
    Ok(())
}

#[test]
fn a_chain_is_written_and_read(rt: HostRuntime) -> Result<(), Fail> {
    let mut chain = Chain::new(READABLE);
    assert!(rt; chain.push(WRITABLE).is_ok());
    let split = write_plan(TableKind::Split, &chain);
    assert!(rt;
        split.as_slice()
            == [0x1000, 0x0001_0001_0000_000a, 0x2000, 0x0000_0002_0000_0040].as_slice()
    );
    let packed = write_plan(TableKind::Packed, &chain);
    assert!(rt; packed.as_slice() == [0x1000, 0xa, 0x2000, 0x0002_0000_0000_0040].as_slice());
    Ok(())
}

#[test]
fn the_longest_table_has_sixteen_places(rt: HostRuntime) -> Result<(), Fail> {
    let mut chain = Chain::new(READABLE);
    for _ in 0..14 {
        assert!(rt; chain.push(READABLE).is_ok());
    }
    assert!(rt; chain.push(WRITABLE).is_ok());
    for kind in [TableKind::Split, TableKind::Packed] {
        let words = write_plan(kind, &chain);
        assert_eq!(rt; words.as_slice().len(), 32);
        let Ok(read) = read_table(kind, words.as_slice(), 256) else {
            return Err("refused".into());
        };
        assert!(rt; read.pieces() == chain.pieces());
    }
    Ok(())
}
