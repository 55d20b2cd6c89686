//! A renewal: the bus and every device are reset.
ghost use Rattle.std.specs.Prelude.{◌≡◌, ◌<◌, ℕ, true, Some, length, slice_get};
ghost use Rattle.std.specs.List.{sum_by};
ghost use Rattle.vd_bus.specs.Device.{IsReset};
ghost use Rattle.vd_machine.specs.File.{view};
ghost use Rattle.vd_play.specs.Each.{HasLanes};
ghost use Rattle.vd_play.specs.Epochs.{renewed_at};
ghost use Rattle.vd_play.specs.Played.{KeepsBench, HasNoFault};
ghost use Rattle.vd_play.specs.Renewing.{CanReset, AreRenewed};
ghost use Rattle.vd_play.specs.Setup.{IsBefore, CanSetUp};

use crate::bench::Bench;
use crate::calls::set_status;
use crate::order::is_renewed;
use vd_bus::{Bus, Device};
use vd_layout::Layout;
use vd_machine::Machine;

/// Resets the devices of the first `queues` queues, in their order.
fn reset_all<L: Layout, G: Drop, V: Device<L>>(queues: usize, bench: &mut Bench<G, V>)
    requires parties { HasLanes queues bench.old }
    requires devices { CanReset V.party queues bench.old }
    ensures keeps { KeepsBench V.party queues bench.old bench.new }
    ensures guests { bench.new.guests ≡ bench.old.guests }
    ensures faults { HasNoFault V.party bench.old bench.new }
    ensures counted { sum_by V.party.accesses bench.new.devices.items ≡ sum_by V.party.accesses bench.old.devices.items }
    ensures reset { AreRenewed V.party true queues bench.old bench.new }
{
    for i in 0..queues {
        bench.devices[i].reset();
    }
}

/// Before an epoch that begins with a renewal: the bus is set to status 0, and each device is reset.
pub(crate) fn renew<L: Layout, G: Drop, V: Device<L>>(
    m: &Machine,
    epoch: usize,
    bus: &mut Bus,
    bench: &mut Bench<G, V>,
)
    requires parties { HasLanes (length m.now.queues) bench.old }
    requires before { IsBefore (view m.now) epoch bus.old }
    requires devices { renewed_at (view m.now) epoch ≡ true → CanReset V.party (length m.now.queues) bench.old }
    ensures bus { CanSetUp (view m.now) epoch bus.new }
    ensures keeps { KeepsBench V.party (length m.now.queues) bench.old bench.new }
    ensures guests { bench.new.guests ≡ bench.old.guests }
    ensures faults { HasNoFault V.party bench.old bench.new }
    ensures counted { sum_by V.party.accesses bench.new.devices.items ≡ sum_by V.party.accesses bench.old.devices.items }
    ensures renewed { AreRenewed V.party (renewed_at (view m.now) epoch) (length m.now.queues) bench.old bench.new }
{
    if !is_renewed(m, epoch) {
        return;
    }
    set_status(bus, 0);
    reset_all::<L, G, V>(m.queues.len(), bench);
}
