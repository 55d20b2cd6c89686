//! A relay between two rings.
ghost use Rattle.std.specs.Prelude.{◌≡◌, ◌<◌, ◌↔◌, ℕ, None, Some, IsSome, IsSomeAnd, IsTrue, true, false, List, length};
ghost use Rattle.vd_model.specs.declared.map.Mapping.{Mapping};
ghost use Rattle.vd_words.specs.Own.{IsOwn};
ghost use Rattle.vd_ring.specs.declared.device.DeviceView.{DeviceView};
ghost use Rattle.vd_ring.specs.declared.driver.DriverView.{DriverView};
ghost use Rattle.vd_layout.specs.Begun.{DeviceOp, DriverOp};
ghost use Rattle.vd_control.specs.Settings.{HasPairs, replay};
ghost use Rattle.vd_commands.specs.Loads.{ack_load};
ghost use Rattle.vd_relay.specs.declared.control.Control.{Control};
ghost use Rattle.vd_relay.specs.declared.control.Mode.TheVariants.{Carrying};
ghost use Rattle.vd_relay.specs.declared.stage.Stage.TheVariants.{Taking};
ghost use Rattle.vd_relay.specs.Stages.{is_rested};
ghost use Rattle.vd_relay.specs.Tie.{Start};
ghost use Rattle.vd_relay.specs.Moving.{Holds, CanStep, IsRelayStep, IsOpen, HandsBack, start};
ghost use Rattle.vd_relay.specs.Replays.{ReplayHolds};
ghost use Rattle.vd_relay.specs.Modes.{Opening, ControlHolds, has_replayed};
ghost use Rattle.vd_relay.specs.ModeSteps.{CanControl, IsControlStep};
ghost use Rattle.vd_relay.specs.ModeEnds.{IsControlOpen, HandsBackControl, opening};

use crate::carrier::Mover;
use crate::control::Control;
use crate::control_step::control_step;
use crate::counts::{Counts, move_of};
use crate::one_turn::make_turn;
use crate::stage::Stage;
use crate::state::State;
use crate::winding::{wind_up, wind_up_control};
use vd_control::Settings;
use vd_iova::IovaTree;
use vd_layout::{Layout, Move};
use vd_table::{Command, Origin, Rows, ShadowTable};
use vd_words::Port;

/// It is the device of the guest's ring and the driver of the shadow ring.
#[derive(Drop)]
pub struct Relay<L: Layout> {
    /// The two ends, and what comes next.
    pub state: State<L::Device, L::Driver>,
    /// The settings with each acknowledged guest command applied.
    pub settings: Settings,
    pub counts: Counts,
    /// Of a control queue: what it does, its replay, and what it carries.
    pub control: Option<Control>,
}

/// What comes first.
fn first_state<E, D>(guest: E, shadow: D, table: Rows<Origin>) -> State<E, D>
    ensures { result ≡ record { guest = guest; shadow = shadow; table = table; stage = Taking; winding = false; target = 0 } }
{
    State {
        guest,
        shadow,
        table,
        stage: Stage::Taking,
        winding: false,
        target: 0,
    }
}

/// What a relay of a control queue begins with: where the replay list is empty it carries at once.
fn first_control<L: Layout>(
    state: &State<L::Device, L::Driver>,
    commands: Rows<Command>,
    settings: Settings,
    replay: bool,
) -> Control
    requires pairs { HasPairs settings }
    requires fresh { (state.now.stage ≡ Taking) × (state.now.winding ≡ false) × (state.now.target ≡ 0) }
    requires idle { L.Device.device.begun state.now.guest ≡ DeviceOp.idle }
    requires awake { L.Device.device.resting state.now.guest ≡ false }
    requires unarmed { L.Device.device.armed state.now.guest ≡ false }
    ensures holds { (w : DeviceView) (v : DriverView)
        → IsControlOpen L.layout L.Device.device L.Driver.driver state.now.guest state.now.shadow state.now.table commands w v
        → ControlHolds L.layout L.Device.device L.Driver.driver (opening settings replay w) state.now result settings
        (record { accesses = 0; handled = 0; heard = 0 }) w v }
    ensures over { (w : DeviceView) (v : DriverView)
        → IsControlOpen L.layout L.Device.device L.Driver.driver state.now.guest state.now.shadow state.now.table commands w v
        → result.mode ≡ Carrying → result.replay.next ≡ length (Rattle.vd_control.specs.Settings.replay result.replay.settings) }
{
    let mut control = Control::new::<L>(&state.shadow, commands, settings, replay);
    control.go_on::<L>(state);
    control
}

/// Makes one access of a relay of a data queue.
fn data_step<L: Layout, P: Port, Q: Port>(
    state: &mut State<L::Device, L::Driver>,
    counts: &mut Counts,
    tree: &IovaTree,
    guest_port: &mut P,
    shadow_port: &mut Q,
) -> Move
    requires live { is_rested state.old.stage ≡ false }
    requires own { CanStep P.port Q.port L.Device.device L.Driver.driver tree.now.mappings guest_port.old shadow_port.old state.old counts.old }
    ensures { (z : Start) (w : DeviceView) (v : DriverView) → Holds L.Device.device L.Driver.driver z state.old counts.old w v
        → tree.now.mappings ≡ z.map → IsOwn P.port L.Device.device.side guest_port.old w
        → IsOwn Q.port L.Driver.driver.side shadow_port.old v
        → IsRelayStep P.port Q.port L.Device.device L.Driver.driver z guest_port.old guest_port.new shadow_port.old shadow_port.new w v
        state.old state.new counts.old counts.new result }
{
    let mut mover = Mover { tree };
    let turn = make_turn::<L, Mover, P, Q>(state, &mut mover, guest_port, shadow_port);
    counts.note(turn);
    move_of(turn, state.stage.is_rested())
}

impl<L: Layout> Relay<L> {
    /// A relay that has forwarded nothing. It takes no memory. For a control queue with a replay it begins with the replay of the
    /// settings.
    pub fn new(
        guest: L::Device,
        shadow: L::Driver,
        table: ShadowTable,
        control: bool,
        settings: Settings,
        replay: bool,
    ) -> Relay<L>
        requires once { replay ≡ true → control ≡ true }
        requires pairs { HasPairs settings }
        requires idle { L.Device.device.begun guest ≡ DeviceOp.idle }
        requires awake { L.Device.device.resting guest ≡ false }
        requires unarmed { L.Device.device.armed guest ≡ false }
        requires fresh { L.Driver.driver.begun shadow ≡ DriverOp.idle }
        requires apart { L.Driver.driver.armed shadow ≡ false }
        ensures holds { control ≡ false → (ms : List Mapping) (w : DeviceView) (v : DriverView)
            → IsOpen L.Device.device L.Driver.driver ms guest shadow table.origins w v
            → Holds L.Device.device L.Driver.driver (start ms w) result.state result.counts w v }
        ensures plain { control ≡ false → result.control ≡ None }
        ensures commands { control ≡ true → IsSomeAnd result.control (λ k. (w : DeviceView) (v : DriverView)
            → IsControlOpen L.layout L.Device.device L.Driver.driver guest shadow table.origins table.commands w v
            → ControlHolds L.layout L.Device.device L.Driver.driver (opening settings replay w) result.state k result.settings result.counts
            w v) }
        ensures over { control ≡ true → IsSomeAnd result.control (λ k. (w : DeviceView) (v : DriverView)
            → IsControlOpen L.layout L.Device.device L.Driver.driver guest shadow table.origins table.commands w v
            → k.mode ≡ Carrying → k.replay.next
            ≡ length (Rattle.vd_control.specs.Settings.replay k.replay.settings)) }
        ensures live { is_rested result.state.stage ≡ false }
        ensures winding { result.state.winding ≡ false }
        ensures counts { result.counts ≡ record { accesses = 0; handled = 0; heard = 0 } }
        ensures settings { result.settings ≡ settings }
    {
        let ShadowTable { origins, commands } = table;
        let state = first_state(guest, shadow, origins);
        if control {
            let first = first_control::<L>(&state, commands, settings, replay);
            return Relay {
                state,
                settings,
                counts: Counts::new(),
                control: Some(first),
            };
        }
        Relay {
            state,
            settings,
            counts: Counts::new(),
            control: None,
        }
    }

    /// Makes exactly one access, on one of the two ports.
    pub fn step<P: Port, Q: Port>(
        &mut self,
        tree: &IovaTree,
        guest_port: &mut P,
        shadow_port: &mut Q,
    ) -> Move
        requires live { is_rested self.old.state.stage ≡ false }
        requires own { self.old.control ≡ None → CanStep P.port Q.port L.Device.device L.Driver.driver tree.now.mappings guest_port.old
            shadow_port.old self.old.state self.old.counts }
        requires commands { (k : Control) → self.old.control ≡ Some k → CanControl P.port Q.port L.layout L.Device.device L.Driver.driver
            guest_port.old shadow_port.old self.old.state k self.old.settings self.old.counts }
        ensures step { self.old.control ≡ None → (z : Start) (w : DeviceView) (v : DriverView)
            → Holds L.Device.device L.Driver.driver z self.old.state self.old.counts w v
            → tree.now.mappings ≡ z.map → IsOwn P.port L.Device.device.side guest_port.old w
            → IsOwn Q.port L.Driver.driver.side shadow_port.old v
            → IsRelayStep P.port Q.port L.Device.device L.Driver.driver z guest_port.old guest_port.new shadow_port.old shadow_port.new w v
            self.old.state self.new.state self.old.counts self.new.counts result }
        ensures plain { self.old.control ≡ None → self.new.control ≡ None }
        ensures settings { self.old.control ≡ None → self.new.settings ≡ self.old.settings }
        ensures lawful { HasPairs self.old.settings → HasPairs self.new.settings }
        ensures control { (k : Control) → self.old.control ≡ Some k → IsSomeAnd self.new.control (λ k'. (z : Opening) (w : DeviceView)
            (v : DriverView)
            → ControlHolds L.layout L.Device.device L.Driver.driver z self.old.state k self.old.settings self.old.counts w v
            → IsOwn P.port L.Device.device.side guest_port.old w → IsOwn Q.port L.Driver.driver.side shadow_port.old v
            → IsControlStep P.port Q.port L.layout L.Device.device L.Driver.driver z guest_port.old guest_port.new shadow_port.old
            shadow_port.new w v self.old.state self.new.state k k' self.old.settings self.new.settings self.old.counts self.new.counts
            result) }
    {
        match &mut self.control {
            None => data_step::<L, P, Q>(
                &mut self.state,
                &mut self.counts,
                tree,
                guest_port,
                shadow_port,
            ),
            Some(control) => control_step::<L, P, Q>(
                &mut self.state,
                control,
                &mut self.settings,
                &mut self.counts,
                guest_port,
                shadow_port,
            ),
        }
    }

    /// Whether every command of the replay list was acknowledged: at once where nothing is replayed.
    pub fn replayed(&self) -> bool
        ensures is { result ≡ has_replayed self.now.control }
        ensures exact { (k : Control) → self.now.control ≡ Some k → (v : DriverView)
            → ReplayHolds L.layout L.Driver.driver k.replay self.now.state.shadow v
            → IsTrue result ↔ ((i : ℕ) → i < length (replay k.replay.settings) → IsSome (ack_load v.done i)) }
    {
        match &self.control {
            None => true,
            Some(control) => control.replay.replayed(),
        }
    }

    /// The settings with each acknowledged guest command applied.
    pub fn settings(&self) -> &Settings
        ensures { result.now ≡ self.now.settings }
    {
        &self.settings
    }

    /// From now on no chain's offer is begun. Armed ends are disarmed, what is used on the shadow ring is given back until so many
    /// chains are collected, and then the guest's end rests. Of a replay no further command is offered.
    pub fn begin_wind_up(&mut self, given: u32)
        requires live { is_rested self.old.state.stage ≡ false }
        requires once { self.old.state.winding ≡ false }
        requires commands { (k : Control) → self.old.control ≡ Some k → (z : Opening) × (w : DeviceView) × (v : DriverView)
            × ControlHolds L.layout L.Device.device L.Driver.driver z self.old.state k self.old.settings self.old.counts w v }
        ensures holds { self.old.control ≡ None → (z : Start) (w : DeviceView) (v : DriverView)
            → Holds L.Device.device L.Driver.driver z self.old.state self.old.counts w v
            → Holds L.Device.device L.Driver.driver z self.new.state self.new.counts w v }
        ensures plain { self.old.control ≡ None → self.new.control ≡ None }
        ensures control { (k : Control) → self.old.control ≡ Some k → IsSomeAnd self.new.control (λ k'. (z : Opening) (w : DeviceView)
            (v : DriverView)
            → ControlHolds L.layout L.Device.device L.Driver.driver z self.old.state k self.old.settings self.old.counts w v
            → ControlHolds L.layout L.Device.device L.Driver.driver z self.new.state k' self.new.settings self.new.counts w v) }
        ensures as_far { (k : Control) → self.old.control ≡ Some k → IsSomeAnd self.new.control (λ k'. (k'.mode ≡ k.mode)
            × (k'.replay.next ≡ k.replay.next)) }
        ensures live { is_rested self.new.state.stage ≡ false }
        ensures winding { self.new.state.winding ≡ true }
        ensures target { self.new.state.target ≡ given }
        ensures counts { self.new.counts ≡ self.old.counts }
        ensures settings { self.new.settings ≡ self.old.settings }
    {
        match &mut self.control {
            None => wind_up::<L>(&mut self.state, given),
            Some(control) => wind_up_control::<L>(&mut self.state, control, given),
        }
    }

    /// Whether the guest's end rests.
    pub fn rested(&self) -> bool
        ensures { result ≡ is_rested self.now.state.stage }
    {
        self.state.stage.is_rested()
    }

    /// The two ends, and the settings.
    pub fn hand_back(self) -> (L::Device, L::Driver, Settings)
        requires { is_rested self.state.stage ≡ true }
        ensures ends { (result.0 ≡ self.state.guest) × (result.1 ≡ self.state.shadow) × (result.2 ≡ self.settings) }
        ensures back { (z : Start) (w : DeviceView) (v : DriverView) → Holds L.Device.device L.Driver.driver z self.state self.counts w v
            → HandsBack L.Device.device L.Driver.driver z result.0 result.1 self.state.target w v }
        ensures commands { (k : Control) → self.control ≡ Some k → (z : Opening) (w : DeviceView) (v : DriverView)
            → ControlHolds L.layout L.Device.device L.Driver.driver z self.state k self.settings self.counts w v
            → HandsBackControl L.Device.device L.Driver.driver z k result.2 result.0 result.1 self.state.target w v }
    {
        let Relay {
            state,
            settings,
            ..
        } = self;
        let State { guest, shadow, .. } = state;
        (guest, shadow, settings)
    }

    /// How many steps did not answer Looked, a wind-up's repeated looks left out.
    pub fn accesses(&self) -> u64
        ensures { result ≡ self.now.counts.accesses }
    {
        self.counts.accesses
    }

    /// How many steps took, offered, collected or gave a chain.
    pub fn handled(&self) -> u64
        ensures { result ≡ self.now.counts.handled }
    {
        self.counts.handled
    }

    /// How many steps ended a hearing with Awake.
    pub fn heard(&self) -> u64
        ensures { result ≡ self.now.counts.heard }
    {
        self.counts.heard
    }
}
