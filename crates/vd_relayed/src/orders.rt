//! An order of a bus that was brought up with one queue.
ghost use Rattle.std.specs.Prelude.{◌≡◌, length, OnOk, IfOk};

use vd_bus::{Bus, BusFault, Order};
use vd_model::Features;
use vd_uapi::{VringAddr, VringState};

/// The order to serve a ring of queue 0 from a base on.
pub fn order_of(
    packed: bool,
    size: u32,
    f: Features,
    ring: u32,
    base: u32,
    count: u32,
) -> Result<Order, BusFault>
    ensures { IfOk result (λ o. (o.queue ≡ 0) × (o.base.0 ≡ base) × (o.count ≡ count)) }
{
    let mut bus = Bus::new(packed, 1024, f, 1, false, 0, (1 << 63) - 1);
    bring_up(&mut bus, size, ring)?;
    bus.set_vring_base(&VringState {
        index: 0,
        num: base,
    })?;
    bus.set_status(15)?;
    bus.set_vring_enable(&VringState { index: 0, num: 1 })?;
    bus.order(0, count)
}

/// The features, and the size and the address of the queue's ring.
fn bring_up(bus: &mut Bus, size: u32, ring: u32) -> Result<(), BusFault>
    ensures { OnOk result ((bus.new.queues ≡ bus.old.queues) × (length bus.new.vrings ≡ length bus.old.vrings)) }
{
    bus.set_status(1)?;
    bus.set_status(3)?;
    bus.set_features(bus.get_features())?;
    bus.set_status(11)?;
    bus.set_vring_num(&VringState {
        index: 0,
        num: size,
    })?;
    bus.set_vring_addr(&VringAddr {
        index: 0,
        flags: 0,
        desc: ring as u64 * (1 << 32),
        used: 0,
        avail: 0,
        log: 0,
    })
}
