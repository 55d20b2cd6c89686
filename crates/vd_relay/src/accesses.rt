//! The accesses of command and ack words that a relay of a control queue makes: each is one load or one store.
ghost use Rattle.std.specs.Prelude.{◌≡◌, ◌+◌, ◌<◌, ◌^◌, ℕ};
ghost use Rattle.vd_words.specs.Own.{IsOwn};
ghost use Rattle.vd_ring.specs.declared.driver.DriverNow.TheVariants.{Idle};
ghost use Rattle.vd_ring.specs.declared.driver.DriverView.{DriverView};
ghost use Rattle.vd_ring.specs.declared.device.DeviceView.{DeviceView};
ghost use Rattle.vd_ring.specs.History.{next_head};
ghost use Rattle.vd_relay.specs.Accesses.{FindsCommand, FindsAck, LoadsWord, StoresAckWord, HasFree, FindsNext, StoresWord, HasCollected, LoadsAckWord};

use vd_layout::{DriverEnd, Layout};
use vd_words::{Access, Op, Port};

/// Loads a command word of a chain that was taken from the guest's ring and isn't given back.
pub fn load_command<L: Layout, P: Port>(guest: &L::Device, port: &mut P, place: u32) -> u64
    requires { (w : DeviceView) × (number : ℕ) × (half : ℕ) × FindsCommand L.Device.device guest.now w number half place
        × IsOwn P.port L.Device.device.side port.old w }
    ensures { (w : DeviceView) (number half : ℕ) → FindsCommand L.Device.device guest.now w number half place
        → LoadsWord P.port L.Device.device port.old port.new guest.now w number half place result }
{
    let _ = guest;
    port.access(Op::Control, Access::Load(place))
}

/// Stores the ack of a chain that was taken from the guest's ring and isn't given back.
pub fn store_ack<L: Layout, P: Port>(guest: &L::Device, port: &mut P, place: u32, ack: u64)
    requires { (w : DeviceView) × (number : ℕ) × FindsAck L.Device.device guest.now w number place
        × IsOwn P.port L.Device.device.side port.old w }
    ensures { (w : DeviceView) (number : ℕ) → FindsAck L.Device.device guest.now w number place
        → StoresAckWord P.port L.Device.device port.old port.new guest.now w number place ack }
{
    let _ = guest;
    let _ = port.access(Op::Control, Access::Store(place, ack));
}

/// The first command word of the shadow ring's next head.
pub fn next_word<L: Layout>(shadow: &L::Driver) -> u32
    requires { (v : DriverView) × HasFree L.layout L.Driver.driver shadow.now v × (v.doing ≡ Idle) }
    ensures value { (v : DriverView) → HasFree L.layout L.Driver.driver shadow.now v
        → result ≡ L.Driver.driver.words.command v.frame (next_head v.frame v.done) }
    ensures narrow { result + 1 < 2 ^ 32 }
{
    let size = shadow.size();
    let f = shadow.features();
    L::command_word(size, f, shadow.next_head())
}

/// Stores a command word of the shadow ring's next head.
pub fn store_command<L: Layout, Q: Port>(shadow: &L::Driver, port: &mut Q, place: u32, word: u64)
    requires { (v : DriverView) × (half : ℕ) × FindsNext L.layout L.Driver.driver shadow.now v half place
        × IsOwn Q.port L.Driver.driver.side port.old v }
    ensures { (v : DriverView) (half : ℕ) → FindsNext L.layout L.Driver.driver shadow.now v half place
        → StoresWord Q.port L.Driver.driver port.old port.new shadow.now v half place word }
{
    let _ = shadow;
    let _ = port.access(Op::Control, Access::Store(place, word));
}

/// Loads the ack of the chain that the shadow end collected last, whose head is given.
pub fn load_ack<L: Layout, Q: Port>(shadow: &L::Driver, port: &mut Q, head: u32) -> u64
    requires { (v : DriverView) × (k : ℕ) × HasCollected L.layout L.Driver.driver shadow.now v k head
        × IsOwn Q.port L.Driver.driver.side port.old v }
    ensures { (v : DriverView) (k : ℕ) → HasCollected L.layout L.Driver.driver shadow.now v k head
        → LoadsAckWord Q.port L.Driver.driver port.old port.new shadow.now v k head result }
{
    let place = L::ack_word(shadow.size(), shadow.features(), head);
    port.access(Op::Control, Access::Load(place))
}
