//! Messages on the map.
use super::steps::{Call, answer, new};
use crate::BusFault;
use std::test::*;

const UPDATE: u8 = 2;

const INVALIDATE: u8 = 3;

// Each message in turn on one bus, whose iovas are 0x1000 to 0xfffff.
#[test]
fn a_map_takes_what_fits(rt: HostRuntime) -> Result<(), Fail> {
    let end = 1 << 63;
    let cases = [
        (UPDATE, 0x1000, 0, 0, false),
        (UPDATE, 0xfff, 1, 0, false),
        (UPDATE, 0xff000, 0x1001, 0, false),
        (UPDATE, 0x1000, 1, end, false),
        (UPDATE, 0x1000, 0x2000, 0x1_0000, true),
        (UPDATE, 0x3000, 0x1000, 0x4_0000, true),
        (UPDATE, 0x3fff, 1, 0, false),
        (UPDATE, 0x4000, 1, end - 1, true),
        (UPDATE, 0xff000, 0x1000, 0, true),
        (INVALIDATE, 0x1000, 0x1000, 0, false),
        (INVALIDATE, 0x1000, 0x3000, 0, false),
        (INVALIDATE, 0x2000, 0x2000, 0, false),
        (INVALIDATE, 0x1000, 0x2000, 0, true),
        (INVALIDATE, 0x1000, 0x2000, 0, false),
        (UPDATE, 0x1000, 0x1000, 0x10_0000, true),
        (UPDATE, 0x2000, 0x1000, 0x20_0000, true),
        (UPDATE, 0x2000, 0x1000, 0x20_0000, false),
        (UPDATE, 0, u64::MAX, u64::MAX, false),
        (UPDATE, u64::MAX, u64::MAX, 0, false),
    ];
    let mut bus = new();
    for (kind, iova, size, uaddr, taken) in cases {
        let want = if taken {
            None
        } else {
            Some(BusFault::BadMap(iova))
        };
        assert!(rt; answer(&mut bus, Call::Message(kind, iova, size, uaddr)) == want);
    }
    Ok(())
}

#[test]
fn a_map_holds_sixty_four(rt: HostRuntime) -> Result<(), Fail> {
    let mut bus = new();
    for i in 0..65u64 {
        let full = answer(&mut bus, Call::Message(UPDATE, 4096 + i, 1, i)).is_some();
        assert!(rt; full == (i == 64));
    }
    assert!(rt; answer(&mut bus, Call::Message(INVALIDATE, 4097, 1, 0)).is_none());
    assert!(rt; answer(&mut bus, Call::Message(UPDATE, 4097, 1, 9)).is_none());
    Ok(())
}
