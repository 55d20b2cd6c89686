//! Bring-up, a running and a suspended bus.
use super::steps::{Call, FEATURES, addr, answer, new, running, suspended};
use crate::BusFault;
use std::test::*;
use vd_model::{Base, Mapping, Mode};

// Each call in turn on one bus.
#[test]
fn a_new_bus_goes_from_status_to_status(rt: HostRuntime) -> Result<(), Fail> {
    let wrong = |s: u8| Some(BusFault::WrongStatus(s));
    let cases = [
        (Call::Status(4), wrong(0)),
        (Call::Status(15), wrong(0)),
        (Call::Features(FEATURES), wrong(0)),
        (Call::Enable(9, 1), Some(BusFault::NoSuchQueue(9))),
        (Call::Enable(0, 2), wrong(0)),
        (Call::Order(0), wrong(0)),
        (Call::Order(2), Some(BusFault::NoSuchQueue(2))),
        (Call::Suspend, wrong(0)),
        (Call::Resume, Some(BusFault::NotSuspended(0))),
        (Call::Status(1), None),
        (Call::Status(11), wrong(1)),
        (Call::Status(3), None),
        (Call::Status(11), wrong(3)),
        (
            Call::Features(1 << 28),
            Some(BusFault::BadFeatures(1 << 28)),
        ),
        (
            Call::Features(1 << 32),
            Some(BusFault::BadFeatures(1 << 32)),
        ),
        (
            Call::Features(7 << 32),
            Some(BusFault::BadFeatures(7 << 32)),
        ),
        (Call::Features(FEATURES), None),
        (Call::Status(11), None),
        (Call::Status(11), None),
        (Call::Num(9, 4), Some(BusFault::NoSuchQueue(9))),
        (Call::Num(0, 3), Some(BusFault::BadNum(3))),
        (Call::Num(0, 16), Some(BusFault::BadNum(16))),
        (Call::Enable(0, 2), Some(BusFault::BadNum(2))),
        (Call::Num(0, 8), None),
        (Call::Num(1, 8), None),
        (Call::Num(15, 8), None),
        (Call::Addr(0, 0), None),
        (Call::Addr(15, 15), None),
        (Call::Status(15), wrong(11)),
        (Call::Addr(1, 1), None),
        (Call::Status(15), None),
        (Call::Status(143), None),
        (Call::Status(15), wrong(143)),
        (Call::Status(0), None),
        (Call::Status(128), None),
    ];
    let mut bus = new();
    assert_eq!(rt; bus.get_features(), FEATURES);
    assert_eq!(rt; bus.get_iova_range(), (4096, (1 << 20) - 1));
    for (call, want) in cases {
        assert!(rt; answer(&mut bus, call) == want);
    }
    assert_eq!(rt; bus.get_status(), 128);
    Ok(())
}

// Each call on a bus of its own, first while the device runs and then while it is suspended.
#[test]
fn a_running_bus_keeps_its_rings(rt: HostRuntime) -> Result<(), Fail> {
    let moving = Some(BusFault::NotSuspended(15));
    let wrong = Some(BusFault::WrongStatus(15));
    let no = |n: u32| Some(BusFault::NoSuchQueue(n));
    let cases = [
        (Call::Features(FEATURES), wrong, wrong),
        (Call::Status(11), wrong, wrong),
        (Call::Status(0), None, None),
        (Call::Num(9, 3), no(9), no(9)),
        (Call::Num(0, 3), wrong, wrong),
        (Call::Addr(9, 0), no(9), no(9)),
        (Call::Addr(1, 17), moving, None),
        (Call::Base(9, 65536), no(9), no(9)),
        (Call::Base(0, 65536), moving, Some(BusFault::BadBase(65536))),
        (Call::Base(0, 65535), moving, None),
        (Call::Enable(15, 1), None, None),
        (Call::ToldBase(9), no(9), no(9)),
        (Call::ToldBase(0), moving, None),
        (
            Call::Space(1),
            Some(BusFault::BadAsid(1)),
            Some(BusFault::BadAsid(1)),
        ),
        (
            Call::Space(0),
            Some(BusFault::BadMessage(4)),
            Some(BusFault::BadMessage(4)),
        ),
        (Call::Message(3, 4096, 8192, 0), moving, None),
        (Call::Message(5, 0, 0, 0), moving, None),
        (Call::Suspend, None, wrong),
        (Call::Resume, moving, None),
        (Call::Order(9), no(9), no(9)),
        (Call::Order(1), wrong, wrong),
        (Call::Order(0), None, wrong),
    ];
    for (call, runs, rests) in cases {
        assert!(rt; answer(&mut running(), call) == runs);
        assert!(rt; answer(&mut suspended(), call) == rests);
    }
    Ok(())
}

#[test]
fn an_order_says_what_is_kept(rt: HostRuntime) -> Result<(), Fail> {
    let mut bus = running();
    let order = bus.order(0, 5)?;
    assert_eq!(rt;
        (order.queue(), order.ring(), order.count(), order.size()),
        (0, 16, 5, 4)
    );
    assert_eq!(rt; order.base(), Base(7));
    assert!(rt; order.mode() == Mode::Shadow);
    assert!(rt; order.features().event_idx && !order.features().in_order);
    let mapping = Mapping {
        iova: 4096,
        size: 8192,
        guest: 65536,
    };
    assert!(rt; order.map().mappings() == [mapping].as_slice());
    let _ = bus.suspend();
    let _ = bus.set_vring_addr(&addr(0, 0xf_ffff_ffff));
    let _ = bus.resume();
    let order = bus.order(0, 0)?;
    assert_eq!(rt; order.ring(), 15);
    assert!(rt; order.mode() == Mode::Pass);
    Ok(())
}
