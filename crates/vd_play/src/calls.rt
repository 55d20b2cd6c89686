//! Calls of the bus that can't be refused.
ghost use Rattle.std.specs.Prelude.{◌≡◌, None, true, false, IfOk};
ghost use Rattle.vd_bus.specs.BusMap.{message_fault, after_message};
ghost use Rattle.vd_bus.specs.BusRings.{still_fault, num_fault, after_num, after_addr, base_fault, after_base, enable_fault, after_enable, order_fault, terms};
ghost use Rattle.vd_bus.specs.BusStatus.{features_fault, after_features, status_fault, after_status, suspend_fault, resume_fault, with_suspended};

use vd_bus::{Bus, Order};
use vd_uapi::{Msg, VringAddr, VringState};

pub(crate) fn set_features(bus: &mut Bus, bits: u64)
    requires { features_fault bus.old bits ≡ None }
    ensures { bus.new ≡ after_features bus.old bits }
{
    if bus.set_features(bits).is_err() {
        unreachable!()
    }
}

pub(crate) fn set_status(bus: &mut Bus, s: u8)
    requires { status_fault bus.old s ≡ None }
    ensures { bus.new ≡ after_status bus.old s }
{
    if bus.set_status(s).is_err() {
        unreachable!()
    }
}

pub(crate) fn set_num(bus: &mut Bus, v: &VringState)
    requires { num_fault bus.old v.now ≡ None }
    ensures { bus.new ≡ after_num bus.old v.now }
{
    if bus.set_vring_num(v).is_err() {
        unreachable!()
    }
}

pub(crate) fn set_addr(bus: &mut Bus, a: &VringAddr)
    requires { still_fault bus.old a.now.index ≡ None }
    ensures { bus.new ≡ after_addr bus.old a.now }
{
    if bus.set_vring_addr(a).is_err() {
        unreachable!()
    }
}

pub(crate) fn set_base(bus: &mut Bus, v: &VringState)
    requires { base_fault bus.old v.now ≡ None }
    ensures { bus.new ≡ after_base bus.old v.now }
{
    if bus.set_vring_base(v).is_err() {
        unreachable!()
    }
}

pub(crate) fn enable(bus: &mut Bus, v: &VringState)
    requires { enable_fault bus.old v.now ≡ None }
    ensures { bus.new ≡ after_enable bus.old v.now }
{
    if bus.set_vring_enable(v).is_err() {
        unreachable!()
    }
}

pub(crate) fn send(bus: &mut Bus, m: &Msg)
    requires { message_fault bus.old m.now ≡ None }
    ensures { bus.new ≡ after_message bus.old m.now }
{
    if bus.iotlb(m).is_err() {
        unreachable!()
    }
}

pub(crate) fn suspend(bus: &mut Bus)
    requires { suspend_fault bus.old ≡ None }
    ensures { bus.new ≡ with_suspended bus.old true }
{
    if bus.suspend().is_err() {
        unreachable!()
    }
}

pub(crate) fn resume(bus: &mut Bus)
    requires { resume_fault bus.old ≡ None }
    ensures { bus.new ≡ with_suspended bus.old false }
{
    if bus.resume().is_err() {
        unreachable!()
    }
}

pub(crate) fn order(bus: &Bus, queue: u32, count: u32) -> Order
    requires { order_fault bus.now queue ≡ None }
    ensures { result ≡ terms bus.now queue count }
{
    match bus.order(queue, count) {
        Ok(order) => order,
        Err(_) => unreachable!(),
    }
}
