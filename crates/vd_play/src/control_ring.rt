//! The ring of one queue on the bus of a machine, that of the control queue among them: it is a shadow ring in every epoch.
ghost use Rattle.std.specs.Prelude.{◌≡◌, ◌+◌, ◌<◌, ◌^◌, true, length};
ghost use Rattle.vd_bus.specs.Bus.{is_queue};
ghost use Rattle.vd_machine.specs.File.{view};
ghost use Rattle.vd_play.specs.ControlRing.{with_ring, with_control_ring, with_control_addr, with_control_base};
ghost use Rattle.vd_play.specs.Places.{control_ring};
ghost use Rattle.vd_play.specs.Prepared.{IsOfLayout};
ghost use Rattle.vd_play.specs.Setup.{Stands, IsBrought, HasSizes};

use crate::calls::{set_addr, set_base, set_num};
use crate::ring_addr::{ring_addr, ring_in};
use vd_bus::Bus;
use vd_layout::Layout;
use vd_machine::Machine;
use vd_model::Mode;
use vd_uapi::VringState;

/// The number of the control queue.
const CONTROL: u32 = 15;

/// Sets the number of places and the address of a queue's ring.
pub(crate) fn bring_ring(m: &Machine, queue: u32, ring: u32, bus: &mut Bus)
    requires low { ring < 2 ^ 31 }
    requires brought { IsBrought (view m.now) bus.old }
    requires there { is_queue bus.old queue ≡ true }
    ensures { bus.new ≡ with_ring (view m.now) queue ring bus.old }
{
    let v = VringState {
        index: queue,
        num: m.size,
    };
    set_num(bus, &v);
    set_addr(bus, &ring_addr(m.packed, m.size, queue, ring));
}

/// The number of the control queue's ring in an epoch.
fn control_ring(m: &Machine, epoch: usize) -> u32
    requires epoch { epoch < length m.now.switches + 2 }
    ensures value { result ≡ control_ring epoch }
    ensures low { result < 2 ^ 31 }
{
    ring_in(Mode::Shadow, epoch as u32, CONTROL)
}

/// Sets the number of places and the address of the control queue's ring in an epoch, where there is such a queue.
pub(crate) fn bring_control(m: &Machine, epoch: usize, bus: &mut Bus)
    requires epoch { epoch < length m.now.switches + 2 }
    requires brought { IsBrought (view m.now) bus.old }
    ensures { bus.new ≡ with_control_ring (view m.now) epoch bus.old }
{
    if m.control.is_some() {
        bring_ring(m, CONTROL, control_ring(m, epoch), bus);
    }
}

/// Sets the address of the control queue's ring to that of its ring in an epoch, where there is such a queue.
pub(crate) fn set_control_addr(m: &Machine, epoch: usize, bus: &mut Bus)
    requires epoch { epoch < length m.now.switches + 2 }
    requires stands { Stands (view m.now) bus.old }
    ensures { bus.new ≡ with_control_addr (view m.now) epoch bus.old }
{
    if m.control.is_some() {
        set_addr(
            bus,
            &ring_addr(m.packed, m.size, CONTROL, control_ring(m, epoch)),
        );
    }
}

/// Sets the base of the control queue's ring to that of a fresh ring, where there is such a queue.
pub(crate) fn set_control_base<L: Layout>(m: &Machine, bus: &mut Bus)
    requires layout { IsOfLayout L.layout (view m.now) }
    requires stands { Stands (view m.now) bus.old }
    requires sizes { HasSizes (view m.now) bus.old }
    ensures { bus.new ≡ with_control_base (view m.now) L.layout.fresh_base bus.old }
{
    if m.control.is_some() {
        let v = VringState {
            index: CONTROL,
            num: L::fresh_base().0,
        };
        set_base(bus, &v);
    }
}
