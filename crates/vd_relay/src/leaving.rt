//! The rest of a guest's end from which a relay took nothing: its wind-up came before the replay was over.
ghost use Rattle.std.specs.Prelude.{◌≡◌, ◌≤◌, false};
ghost use Rattle.vd_words.specs.Own.{IsOwn};
ghost use Rattle.vd_ring.specs.declared.device.DeviceView.{DeviceView};
ghost use Rattle.vd_layout.specs.Begun.{DeviceOp};
ghost use Rattle.vd_relay.specs.Leaving.{IsLeft, IsLeave, leave_owes};

use vd_layout::{DeviceAct, DeviceEnd, Layout};
use vd_words::Port;

/// Begins the rest where none is begun.
fn begin<L: Layout>(guest: &mut L::Device)
    requires awake { L.Device.device.resting guest.old ≡ false }
    requires own { (w : DeviceView) × IsLeft L.Device.device guest.old w }
    ensures left { (w : DeviceView) → IsLeft L.Device.device guest.old w → IsLeft L.Device.device guest.new w }
    ensures awake { L.Device.device.resting guest.new ≡ false }
    ensures busy { ¬ (L.Device.device.begun guest.new ≡ DeviceOp.idle) }
    ensures owes { leave_owes L.Device.device guest.new ≤ leave_owes L.Device.device guest.old }
{
    if guest.idle() {
        guest.begin_rest();
    }
}

/// Makes one access of the rest. It answers whether the end rests now.
pub fn leave<L: Layout, P: Port>(guest: &mut L::Device, port: &mut P) -> bool
    requires awake { L.Device.device.resting guest.old ≡ false }
    requires own { (w : DeviceView) × IsLeft L.Device.device guest.old w × IsOwn P.port L.Device.device.side port.old w }
    ensures leave { (w : DeviceView) → IsLeft L.Device.device guest.old w → IsOwn P.port L.Device.device.side port.old w
        → IsLeave P.port L.Device.device port.old port.new guest.old guest.new w result }
{
    begin::<L>(guest);
    matches!(guest.step(port), DeviceAct::Rested)
}
