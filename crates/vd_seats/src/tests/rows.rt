//! Words of the first offered chain, loaded through the device's port.
use super::turns::offer_one;
use crate::RingTable;
use std::test::*;
use vd_layout::Layout;
use vd_model::{Features, Piece};
use vd_packed::Packed;
use vd_split::Split;
use vd_words::{Access, Op, Port};

const PLAIN: Features = Features {
    indirect: false,
    event_idx: false,
    in_order: false,
};

const PIECE: Piece = Piece {
    addr: 4096,
    len: 10,
    write: false,
};

#[test]
fn the_device_sees_the_index(rt: HostRuntime) -> Result<(), Fail> {
    let (mut driver, _device) = Split::make(rt.alloc(), 4, PLAIN, false)?;
    let (_table, mut first, mut second) = RingTable::<Split>::make(
        rt.alloc(),
        0,
        4,
        PLAIN,
        false,
        None,
    )?;
    assert!(rt; offer_one(&mut driver, &mut first, 1, PIECE));
    assert!(rt; second.access(Op::Take, Access::Load(8)) == 0x1_0000);
    Ok(())
}

#[test]
fn the_device_sees_the_descriptor(rt: HostRuntime) -> Result<(), Fail> {
    let (mut driver, _device) = Packed::make(rt.alloc(), 4, PLAIN, false)?;
    let (_table, mut first, mut second) = RingTable::<Packed>::make(
        rt.alloc(),
        0,
        4,
        PLAIN,
        false,
        None,
    )?;
    assert!(rt; offer_one(&mut driver, &mut first, 1, PIECE));
    assert!(rt; second.access(Op::Take, Access::Load(1)) == 0x0080_0000_0000_000a);
    Ok(())
}
