use super::*;
use std::alloc::Global;
use std::test::*;
use vd_model::Mapping;

const FIRST: Mapping = Mapping {
    iova: 0x1000,
    size: 8192,
    guest: 65536,
};

const SECOND: Mapping = Mapping {
    iova: 0x3000,
    size: 4096,
    guest: 262144,
};

fn two_regions(alloc: Global) -> Result<IovaTree, MapFault> {
    let mut tree = IovaTree::new(alloc, 4096, 281474976710655);
    tree.map(8192, 65536)?;
    tree.map(4096, 262144)?;
    Ok(tree)
}

fn shared<T: Send + Sync>(_: &T) {}

#[test]
fn translates_both_ways_up_to_each_end(rt: HostRuntime) -> Result<(), Fail> {
    let mut tree = two_regions(rt.alloc())?;
    shared(&tree);
    assert_eq!(rt; tree.map(4096, 73728)?, 0x4000);
    for (addr, len, iova) in [
        (65535, 1, None),
        (65535, 2, None),
        (65536, 1, Some(0x1000)),
        (65536, 8192, Some(0x1000)),
        (65536, 8193, None),
        (73727, 1, Some(0x2fff)),
        (73727, 2, None),
        (73728, 1, Some(0x4000)),
        (77823, 1, Some(0x4fff)),
        (77824, 1, None),
        (262143, 1, None),
        (262144, 4096, Some(0x3000)),
        (262144, 4097, None),
        (266239, 1, Some(0x3fff)),
        (266240, 1, None),
    ] {
        assert!(rt; 0 < len && addr < 1 << 62);
        assert!(rt; tree.translate(addr, len) == iova, "{addr} {len}");
    }
    for (iova, len, addr) in [
        (0xfff, 1, None),
        (0x1000, 8192, Some(65536)),
        (0x1000, 8193, None),
        (0x2fff, 1, Some(73727)),
        (0x2fff, 2, None),
        (0x3000, 1, Some(262144)),
        (0x3fff, 2, None),
        (0x4fff, 1, Some(77823)),
        (0x5000, 1, None),
    ] {
        assert!(rt; 0 < len && iova < 1 << 62);
        assert!(rt; tree.resolve(iova, len) == addr, "{iova} {len}");
    }
    Ok(())
}

#[test]
fn refuses_what_meets_a_kept_mapping(rt: HostRuntime) -> Result<(), Fail> {
    let mut tree = two_regions(rt.alloc())?;
    assert!(rt; tree.map(4096, 262144) == Err(MapFault::Overlap(SECOND)));
    assert!(rt; tree.map(1, 266239) == Err(MapFault::Overlap(SECOND)));
    assert!(rt; tree.map(1 << 20, 0) == Err(MapFault::Overlap(FIRST)));
    assert!(rt; tree.unmap(0x1001).is_none());
    assert!(rt; tree.unmap(0x1000) == Some(FIRST));
    assert!(rt; tree.unmap(0x1000).is_none());
    assert!(rt; tree.map(4096, 1048576) == Ok(0x1000));
    let placed = Mapping {
        iova: 0x2000,
        size: 4096,
        guest: 2097152,
    };
    assert!(rt; tree.map_at(placed) == Ok(()));
    assert!(rt; tree.map_at(placed) == Err(MapFault::Overlap(placed)));
    for (iova, size, guest, met) in [
        (0x3fff, 1, 2097152, placed),
        (0x3fff, 2, 0, SECOND),
        (0x2000, 8192, 262144, placed),
        (0x9000, 1, 2101247, placed),
    ] {
        let mapping = Mapping { iova, size, guest };
        assert!(rt; iova < 1 << 32 && size < 1 << 32 && guest < 1 << 32);
        assert!(rt;
            tree.map_at(mapping) == Err(MapFault::Overlap(met)),
            "{iova}"
        );
    }
    Ok(())
}

#[test]
fn finds_the_lowest_hole_within_the_range(rt: HostRuntime) -> Result<(), Fail> {
    let most = 1 << 63;
    for (first, last, size, answer) in [
        (0, 0, 1, Ok(0)),
        (0, 0, 2, Err(MapFault::NoHole(2))),
        (0, 0, 0, Err(MapFault::Empty)),
        (1, 8191, 4096, Ok(4096)),
        (1, 8191, 4097, Err(MapFault::NoHole(4097))),
        (1, 4095, 1, Err(MapFault::NoHole(1))),
        (0, most - 1, most, Ok(0)),
        (1, most - 1, most, Err(MapFault::NoHole(most))),
    ] {
        assert!(rt; first <= last && last < most && size <= most);
        let mut tree = IovaTree::new(rt.alloc(), first, last);
        assert!(rt; tree.map(size, 0) == answer, "{first} {last} {size}");
    }
    let mut tree = IovaTree::new(rt.alloc(), 4096, 8191);
    for (iova, size, answer) in [
        (4095, 1, Err(MapFault::NoHole(1))),
        (8191, 2, Err(MapFault::NoHole(2))),
        (8191, 0, Err(MapFault::Empty)),
        (8191, 1, Ok(())),
    ] {
        let mapping = Mapping {
            iova,
            size,
            guest: 0,
        };
        assert!(rt; iova < 1 << 32 && size < 1 << 32);
        assert!(rt; tree.map_at(mapping) == answer, "{iova} {size}");
    }
    assert!(rt; tree.map(4096, 4096) == Err(MapFault::NoHole(4096)));
    assert!(rt; tree.map(4095, 4096) == Ok(4096));
    Ok(())
}

#[test]
fn copies_at_most_64_mappings_in_order(rt: HostRuntime) -> Result<(), Fail> {
    let mut tree = two_regions(rt.alloc())?;
    tree.unmap(0x1000);
    tree.map(1, 0)?;
    let map = tree.copy_map().ok_or("two mappings")?;
    let low = Mapping {
        iova: 0x1000,
        size: 1,
        guest: 0,
    };
    assert!(rt; map.mappings() == [low, SECOND].as_slice());
    for number in 1..63 {
        tree.map(1, number)?;
    }
    let full = tree.copy_map().ok_or("64 mappings")?;
    assert!(rt; full.is_full());
    tree.map(1, 63)?;
    assert!(rt; tree.copy_map().is_none());
    Ok(())
}
