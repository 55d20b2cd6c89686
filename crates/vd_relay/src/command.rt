//! The accesses of command and ack words of the command that a relay of a control queue has in hand.
ghost use Rattle.std.specs.Prelude.{◌≡◌, ◌≤◌, List, Option};
ghost use Rattle.vd_words.specs.Own.{IsOwn};
ghost use Rattle.vd_ring.specs.declared.device.DeviceView.{DeviceView};
ghost use Rattle.vd_ring.specs.declared.driver.DriverView.{DriverView};
ghost use Rattle.vd_control.specs.declared.settings.Settings.{Settings};
ghost use Rattle.vd_control.specs.Settings.{HasPairs};
ghost use Rattle.vd_table.specs.declared.Command.{Command};
ghost use Rattle.vd_relay.specs.declared.carry.Carry.TheVariants.{First, Second, StoreFirst, StoreSecond, LoadAck, StoreAck};
ghost use Rattle.vd_relay.specs.Commanding.{Takeover};
ghost use Rattle.vd_relay.specs.Underway.{Commanding, due};
ghost use Rattle.vd_relay.specs.Controls.{CanAccess, OnGuestWord, OnShadowWord, OneWord};

use crate::accesses::{load_ack, load_command, next_word, store_ack, store_command};
use crate::carry::{Carry, Found};
use crate::settle::acknowledge;
use crate::state::State;
use vd_control::Settings;
use vd_layout::Layout;
use vd_table::{Command, Rows};
use vd_words::Port;

/// Loads the first word of the command that was taken.
pub(crate) fn load_first<L: Layout, P: Port>(
    state: &State<L::Device, L::Driver>,
    port: &mut P,
    found: Found,
) -> Carry
    requires { (t : List (Option Command)) × (s : Settings) × (w : DeviceView) × (v : DriverView)
        × CanAccess L.layout L.Device.device L.Driver.driver state.now (First found) t s w v × IsOwn P.port L.Device.device.side port.old w }
    ensures { (z : Takeover) (t : List (Option Command)) (s : Settings) (w : DeviceView) (v : DriverView)
        → Commanding L.layout L.Device.device L.Driver.driver z state.now (First found) t s w v
        → OnGuestWord P.port L.layout L.Device.device L.Driver.driver z port.old port.new state.now (First found) result t s w v }
{
    let first = load_command::<L, P>(&state.guest, port, found.place);
    Carry::Second { found, first }
}

/// Loads the second.
pub(crate) fn load_second<L: Layout, P: Port>(
    state: &State<L::Device, L::Driver>,
    port: &mut P,
    found: Found,
    first: u64,
) -> Carry
    requires { (t : List (Option Command)) × (s : Settings) × (w : DeviceView) × (v : DriverView)
        × CanAccess L.layout L.Device.device L.Driver.driver state.now (Second found first) t s w v
        × IsOwn P.port L.Device.device.side port.old w }
    ensures { (z : Takeover) (t : List (Option Command)) (s : Settings) (w : DeviceView) (v : DriverView)
        → Commanding L.layout L.Device.device L.Driver.driver z state.now (Second found first) t s w v
        → OnGuestWord P.port L.layout L.Device.device L.Driver.driver z port.old port.new state.now (Second found first) result t s w v }
{
    let second = load_command::<L, P>(&state.guest, port, found.place + 1);
    let command = Command {
        number: found.number,
        ack_place: found.ack_place,
        count: found.count,
        first,
        second,
        late: false,
    };
    Carry::StoreFirst { command }
}

/// Stores the first word in the shadow ring's next head.
pub(crate) fn store_first<L: Layout, Q: Port>(
    state: &State<L::Device, L::Driver>,
    port: &mut Q,
    command: Command,
) -> Carry
    requires { (t : List (Option Command)) × (s : Settings) × (w : DeviceView) × (v : DriverView)
        × CanAccess L.layout L.Device.device L.Driver.driver state.now (StoreFirst command) t s w v
        × IsOwn Q.port L.Driver.driver.side port.old v }
    ensures { (z : Takeover) (t : List (Option Command)) (s : Settings) (w : DeviceView) (v : DriverView)
        → Commanding L.layout L.Device.device L.Driver.driver z state.now (StoreFirst command) t s w v
        → OnShadowWord Q.port L.layout L.Device.device L.Driver.driver z port.old port.new state.now (StoreFirst command) result t t s s w v }
{
    let place = next_word::<L>(&state.shadow);
    store_command::<L, Q>(&state.shadow, port, place, command.first);
    Carry::StoreSecond { command }
}

/// Stores the second. Its offer comes then.
pub(crate) fn store_second<L: Layout, Q: Port>(
    state: &State<L::Device, L::Driver>,
    port: &mut Q,
    command: Command,
) -> Carry
    requires { (t : List (Option Command)) × (s : Settings) × (w : DeviceView) × (v : DriverView)
        × CanAccess L.layout L.Device.device L.Driver.driver state.now (StoreSecond command) t s w v
        × IsOwn Q.port L.Driver.driver.side port.old v }
    ensures { (z : Takeover) (t : List (Option Command)) (s : Settings) (w : DeviceView) (v : DriverView)
        → Commanding L.layout L.Device.device L.Driver.driver z state.now (StoreSecond command) t s w v
        → OnShadowWord Q.port L.layout L.Device.device L.Driver.driver z port.old port.new state.now (StoreSecond command) result t t s s w v }
{
    let place = next_word::<L>(&state.shadow);
    store_command::<L, Q>(&state.shadow, port, place + 1, command.second);
    Carry::Offer { command }
}

/// Loads the ack of the command that came back. Where it is OK the settings are changed, unless the command is late, and earlier
/// commands that set the same are late from then on.
pub(crate) fn load_answer<L: Layout, Q: Port>(
    state: &State<L::Device, L::Driver>,
    commands: &mut Rows<Command>,
    settings: &mut Settings,
    port: &mut Q,
    head: u32,
    command: Command,
) -> Carry
    requires { (w : DeviceView) × (v : DriverView)
        × CanAccess L.layout L.Device.device L.Driver.driver state.now (LoadAck head command) commands.old settings.old w v
        × IsOwn Q.port L.Driver.driver.side port.old v }
    ensures load { (z : Takeover) (w : DeviceView) (v : DriverView)
        → Commanding L.layout L.Device.device L.Driver.driver z state.now (LoadAck head command) commands.old settings.old w v
        → OnShadowWord Q.port L.layout L.Device.device L.Driver.driver z port.old port.new state.now (LoadAck head command) result
        commands.old commands.new settings.old settings.new w v }
    ensures lawful { HasPairs settings.old → HasPairs settings.new }
{
    let ack = load_ack::<L, Q>(&state.shadow, port, head);
    acknowledge(settings, commands, &command, ack);
    Carry::StoreAck {
        place: command.ack_place,
        ack,
    }
}

/// Stores the ack on the guest's ring. Its give comes then.
pub(crate) fn store_answer<L: Layout, P: Port>(
    state: &State<L::Device, L::Driver>,
    port: &mut P,
    place: u32,
    ack: u64,
) -> Carry
    requires { (t : List (Option Command)) × (s : Settings) × (w : DeviceView) × (v : DriverView)
        × CanAccess L.layout L.Device.device L.Driver.driver state.now (StoreAck place ack) t s w v
        × IsOwn P.port L.Device.device.side port.old w }
    ensures { (z : Takeover) (t : List (Option Command)) (s : Settings) (w : DeviceView) (v : DriverView)
        → Commanding L.layout L.Device.device L.Driver.driver z state.now (StoreAck place ack) t s w v
        → OnGuestWord P.port L.layout L.Device.device L.Driver.driver z port.old port.new state.now (StoreAck place ack) result t s w v }
{
    store_ack::<L, P>(&state.guest, port, place, ack);
    Carry::None
}

/// Makes the access that is due, on one of the two ports.
pub fn carry_on<L: Layout, P: Port, Q: Port>(
    state: &State<L::Device, L::Driver>,
    carry: &mut Carry,
    commands: &mut Rows<Command>,
    settings: &mut Settings,
    guest_port: &mut P,
    shadow_port: &mut Q,
)
    requires due { 1 ≤ due carry.old }
    requires own { (w : DeviceView) × (v : DriverView)
        × CanAccess L.layout L.Device.device L.Driver.driver state.now carry.old commands.old settings.old w v
        × IsOwn P.port L.Device.device.side guest_port.old w × IsOwn Q.port L.Driver.driver.side shadow_port.old v }
    ensures made { (z : Takeover) (w : DeviceView) (v : DriverView)
        → Commanding L.layout L.Device.device L.Driver.driver z state.now carry.old commands.old settings.old w v
        → OneWord P.port Q.port L.layout L.Device.device L.Driver.driver z guest_port.old guest_port.new shadow_port.old shadow_port.new
        state.now carry.old carry.new commands.old commands.new settings.old settings.new w v }
    ensures lawful { HasPairs settings.old → HasPairs settings.new }
{
    *carry = match *carry {
        Carry::First { found } => load_first::<L, P>(state, guest_port, found),
        Carry::Second { found, first } => load_second::<L, P>(state, guest_port, found, first),
        Carry::StoreFirst { command } => store_first::<L, Q>(state, shadow_port, command),
        Carry::StoreSecond { command } => store_second::<L, Q>(state, shadow_port, command),
        Carry::LoadAck { head, command } => {
            load_answer::<L, Q>(state, commands, settings, shadow_port, head, command)
        }
        Carry::StoreAck { place, ack } => store_answer::<L, P>(state, guest_port, place, ack),
        Carry::None | Carry::Offer { .. } => unreachable!(),
    };
}
