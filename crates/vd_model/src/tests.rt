use super::*;
use std::test::*;

fn piece(addr: u64, len: u32, write: bool) -> Piece {
    Piece { addr, len, write }
}

#[test]
fn appends_until_a_chain_is_full_or_out_of_order(rt: HostRuntime) -> Result<(), Fail> {
    let mut chain = Chain::new(piece(4096, 10, false));
    for _ in 0..14 {
        assert!(rt; chain.push(piece(4096, 1, false)).is_ok());
    }
    assert!(rt; chain.push(piece(8192, 64, true)).is_ok());
    assert_eq!(rt; chain.readable(), 24);
    assert_eq!(rt; chain.writable(), 64);
    assert!(rt; chain.push(piece(4096, 1, false)) == Err(ChainFault::Full));
    let mut short = Chain::new(piece(8192, 64, true));
    assert!(rt; short.push(piece(4096, 1, false)) == Err(ChainFault::Order));
    assert!(rt; short.pieces() == [piece(8192, 64, true)].as_slice());
    assert!(rt; short.copy().pieces() == short.pieces());
    chain.set_addr(15, 12288);
    assert!(rt; chain.pieces()[15] == piece(12288, 64, true));
    assert!(rt; chain.pieces()[0] == piece(4096, 10, false));
    Ok(())
}

#[test]
fn a_map_holds_its_mappings(rt: HostRuntime) -> Result<(), Fail> {
    let mapping = Mapping {
        iova: 4096,
        size: 8192,
        guest: 65536,
    };
    let mut map = Map::new();
    map.push(mapping);
    assert!(rt; !map.is_full());
    assert!(rt; map.copy().mappings() == [mapping].as_slice());
    Ok(())
}
