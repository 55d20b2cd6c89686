//! The bus of a machine, from its bring-up on (VIRTIO 1.2, 3.1.1).
ghost use Rattle.std.specs.Prelude.{◌≡◌, ◌+◌, ◌<◌, IfSome, length};
ghost use Rattle.std.specs.Option.{option_map};
ghost use Rattle.vd_layout.specs.Device.{IsStill};
ghost use Rattle.vd_machine.specs.File.{view};
ghost use Rattle.vd_play.specs.Epochs.{mode_at};
ghost use Rattle.vd_play.specs.Places.{queue_total};
ghost use Rattle.vd_play.specs.Prepared.{IsOfLayout};
ghost use Rattle.vd_play.specs.Setup.{with_vrings, base_in, Stands, fresh_bus, IsBrought, IsUp, HasSizes, HasRings, KeepsRings, CanSetUp, AllServe, HasBases, HasControlBase, IsReady};
ghost use Rattle.vd_play.specs.Tree.{IsTreeOf};

use crate::calls::{resume, set_addr, set_base, set_features, set_status, suspend};
use crate::control_ring::{bring_control, bring_ring, set_control_addr, set_control_base};
use crate::floor::Lane;
use crate::messages::{map_regions, unmap_regions};
use crate::order::{is_renewed, mode_of};
use crate::ring_addr::{ring_addr, ring_in};
use vd_bus::Bus;
use vd_iova::IovaTree;
use vd_layout::{DeviceEnd, Layout};
use vd_machine::Machine;
use vd_model::{Base, Mode};
use vd_uapi::VringState;

/// The last iova: a region that lies outside the machine's own range of iovas is passed too.
const LAST: u64 = (1 << 63) - 1;

/// The machine's bus at status 0, which has a control queue where the machine has one.
pub(crate) fn new_bus(m: &Machine) -> Bus
    ensures { result ≡ fresh_bus (view m.now) }
{
    let queues = m.queues.len() as u32;
    Bus::new(
        m.packed,
        m.size,
        m.features,
        queues,
        m.control.is_some(),
        0,
        LAST,
    )
}

/// From status 0 to FEATURES_OK, with all features accepted.
fn accept_features(m: &Machine, bus: &mut Bus)
    requires fresh { bus.old ≡ fresh_bus (view m.now) }
    ensures brought { IsBrought (view m.now) bus.new }
    ensures many { length bus.new.vrings ≡ queue_total (view m.now) }
{
    set_status(bus, 1);
    set_status(bus, 3);
    let bits = bus.get_features();
    set_features(bus, bits);
    set_status(bus, 11);
}

/// The bus with all features accepted, and with the number and the address of each queue's ring in an epoch of this mode.
fn bring_up(m: &Machine, mode: Mode, epoch: usize, bus: &mut Bus)
    requires epoch { epoch < length m.now.switches + 2 }
    requires fresh { bus.old ≡ fresh_bus (view m.now) }
    ensures brought { IsBrought (view m.now) bus.new }
    ensures rings { HasRings (view m.now) mode epoch bus.new }
{
    accept_features(m, bus);
    for q in 0..m.queues.len() as u32 {
        let ring = ring_in(mode, epoch as u32, q);
        bring_ring(m, q, ring, bus);
    }
    bring_control(m, epoch, bus);
}

/// Sets up the bus for an epoch: the first one and a renewal bring it up, and before another one the device is suspended.
pub(crate) fn set_up<L: Layout>(
    m: &Machine,
    tree: &IovaTree,
    epoch: usize,
    bus: &mut Bus,
    lanes: &[Lane<L>],
)
    requires layout { IsOfLayout L.layout (view m.now) }
    requires tree { IsTreeOf (view m.now) tree.now.mappings }
    requires epoch { epoch < length m.now.switches + 2 }
    requires before { CanSetUp (view m.now) epoch bus.old }
    requires many { length lanes.now ≡ length m.now.queues }
    requires ends { AllServe L.Device.device (view m.now) lanes.now }
    ensures { IsReady L.Device.device L.layout.fresh_base (view m.now) (mode_at (view m.now) epoch) epoch lanes.now bus.new }
{
    let mode = mode_of(m, epoch);
    if epoch == 0 || is_renewed(m, epoch) {
        begin::<L>(m, tree, mode, epoch, bus, lanes);
    } else {
        let before = mode_of(m, epoch - 1);
        switch::<L>(m, tree, before, mode, epoch, bus, lanes);
    }
}

/// From status 0: bring-up, messages for the map, bases, DRIVER_OK.
fn begin<L: Layout>(
    m: &Machine,
    tree: &IovaTree,
    mode: Mode,
    epoch: usize,
    bus: &mut Bus,
    lanes: &[Lane<L>],
)
    requires layout { IsOfLayout L.layout (view m.now) }
    requires tree { IsTreeOf (view m.now) tree.now.mappings }
    requires epoch { epoch < length m.now.switches + 2 }
    requires fresh { bus.old ≡ fresh_bus (view m.now) }
    requires many { length lanes.now ≡ length m.now.queues }
    requires ends { AllServe L.Device.device (view m.now) lanes.now }
    ensures { IsReady L.Device.device L.layout.fresh_base (view m.now) mode epoch lanes.now bus.new }
{
    bring_up(m, mode, epoch, bus);
    map_regions(m, tree, mode, bus);
    set_bases::<L>(m, mode, bus, lanes);
    set_status(bus, 15);
}

/// While the device is suspended: addresses, messages for the map, bases.
fn switch<L: Layout>(
    m: &Machine,
    tree: &IovaTree,
    before: Mode,
    mode: Mode,
    epoch: usize,
    bus: &mut Bus,
    lanes: &[Lane<L>],
)
    requires layout { IsOfLayout L.layout (view m.now) }
    requires tree { IsTreeOf (view m.now) tree.now.mappings }
    requires epoch { epoch < length m.now.switches + 2 }
    requires up { IsUp (view m.now) before bus.old }
    requires sizes { HasSizes (view m.now) bus.old }
    requires many { length lanes.now ≡ length m.now.queues }
    requires ends { AllServe L.Device.device (view m.now) lanes.now }
    ensures { IsReady L.Device.device L.layout.fresh_base (view m.now) mode epoch lanes.now bus.new }
{
    suspend(bus);
    set_addrs(m, mode, epoch, bus);
    unmap_regions(m, tree, before, bus);
    map_regions(m, tree, mode, bus);
    set_bases::<L>(m, mode, bus, lanes);
    resume(bus);
}

/// Sets the address of each queue's ring to that of its ring in an epoch of this mode.
fn set_addrs(m: &Machine, mode: Mode, epoch: usize, bus: &mut Bus)
    requires epoch { epoch < length m.now.switches + 2 }
    requires stands { Stands (view m.now) bus.old }
    requires sizes { HasSizes (view m.now) bus.old }
    ensures same { bus.new ≡ with_vrings bus.old bus.new.vrings }
    ensures rings { HasRings (view m.now) mode epoch bus.new }
{
    for q in 0..m.queues.len() as u32 {
        let ring = ring_in(mode, epoch as u32, q);
        set_addr(bus, &ring_addr(m.packed, m.size, q, ring));
    }
    set_control_addr(m, epoch, bus);
}

/// From where a lane's ring is served in an epoch of this mode: where its end rests, or from the base of a fresh ring.
fn base_in<L: Layout>(mode: Mode, lane: &Lane<L>) -> Option<Base>
    requires end { IfSome lane.now.still (λ end. IsStill L.Device.device end) }
    ensures { base_in L.Device.device L.layout.fresh_base mode lane.now.still ≡ option_map (λ b. b.0) result }
{
    match mode {
        Mode::Pass => match &lane.still {
            Some(end) => Some(end.base()),
            None => None,
        },
        Mode::Shadow => Some(L::fresh_base()),
    }
}

/// Sets the base of each queue to that from which its ring is served; the control queue's is always a fresh one.
fn set_bases<L: Layout>(m: &Machine, mode: Mode, bus: &mut Bus, lanes: &[Lane<L>])
    requires layout { IsOfLayout L.layout (view m.now) }
    requires stands { Stands (view m.now) bus.old }
    requires sizes { HasSizes (view m.now) bus.old }
    requires many { length lanes.now ≡ length m.now.queues }
    requires ends { AllServe L.Device.device (view m.now) lanes.now }
    ensures same { bus.new ≡ with_vrings bus.old bus.new.vrings }
    ensures keeps { KeepsRings (view m.now) bus.old bus.new }
    ensures bases { HasBases L.Device.device L.layout.fresh_base (view m.now) mode lanes.now bus.new }
    ensures control { HasControlBase L.layout.fresh_base (view m.now) bus.new }
{
    for q in 0..m.queues.len() {
        if let Some(base) = base_in::<L>(mode, &lanes[q]) {
            let v = VringState {
                index: q as u32,
                num: base.0,
            };
            set_base(bus, &v);
        }
    }
    set_control_base::<L>(m, bus);
}
