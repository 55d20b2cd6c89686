//! Single steps of a party over plain words.
ghost use Rattle.std.specs.Prelude.{ℕ, List};
ghost use Rattle.vd_ring.specs.declared.device.DeviceView.{DeviceView};
ghost use Rattle.vd_ring.specs.declared.driver.DriverView.{DriverView};
ghost use Rattle.vd_bus.specs.Device.{IsServed};
ghost use Rattle.vd_models.specs.Pairs.{HasStepped};

use vd_bus::{Device, Guest};
use vd_layout::{Layout, Move};
use vd_words::Port;

/// One access of the guest.
pub fn step_guest<L: Layout, G: Guest<L>, P: Port>(guest: &mut G, port: &mut P) -> Move
    requires live { ¬ (G.party.is_done guest.old) }
    requires on { (ws : List ℕ) × (v : DriverView) ×
        (w : DeviceView) × P.port.plain port.old ws × L.layout.ring ws v w × G.party.holds guest.old v }
    ensures { (ws : List ℕ) (v : DriverView) (w : DeviceView) → P.port.plain port.old ws → L.layout.ring ws v w
        → G.party.holds guest.old v → HasStepped P.port G.party.holds (λ us x. L.layout.ring us x w) port.old port.new guest.new }
{
    guest.step(port)
}

/// One access of the device.
pub fn step_device<L: Layout, V: Device<L>, P: Port>(device: &mut V, port: &mut P) -> Move
    requires live { ¬ (V.party.is_done device.old) }
    requires on { (ws : List ℕ) × (v : DriverView) ×
        (w : DeviceView) × P.port.plain port.old ws × L.layout.ring ws v w × V.party.holds device.old w }
    ensures { (ws : List ℕ) (v : DriverView) (w : DeviceView) → P.port.plain port.old ws → L.layout.ring ws v w
        → V.party.holds device.old w → HasStepped P.port V.party.holds
        (λ us x. L.layout.ring us v x) port.old port.new device.new × IsServed V.party device.old device.new }
{
    device.step(port)
}
