//! What a relay of a control queue does, and what it has beside its two ends.
ghost use Rattle.std.specs.Prelude.{◌≡◌, ◌≤◌, true, false};
ghost use Rattle.vd_ring.specs.declared.device.DeviceView.{DeviceView};
ghost use Rattle.vd_ring.specs.declared.driver.DriverView.{DriverView};
ghost use Rattle.vd_layout.specs.Begun.{DriverOp};
ghost use Rattle.vd_control.specs.declared.settings.Settings.{Settings};
ghost use Rattle.vd_control.specs.Settings.{HasPairs};
ghost use Rattle.vd_relay.specs.declared.control.Mode.TheVariants.{Replaying, Carrying};
ghost use Rattle.vd_relay.specs.declared.carry.Carry.TheVariants as carry;
ghost use Rattle.vd_relay.specs.declared.counts.Counts.{Counts};
ghost use Rattle.vd_relay.specs.declared.replay.ReplayStage.TheVariants.{Second, Arming};
ghost use Rattle.vd_relay.specs.Replays.{IsFreshShadow, Replays, ReplayHolds, is_over, replay_owes};
ghost use Rattle.vd_relay.specs.Modes.{Opening, IsOver, IsReplaying, ControlHolds, replays_for, again};
ghost use Rattle.vd_relay.specs.ModeSteps.{Becomes, GoesOver};

use crate::carry::Carry;
use crate::commander::Commander;
use crate::replay::Replay;
use crate::state::State;
use vd_control::Settings;
use vd_layout::{DriverEnd, Layout};
use vd_table::{Command, Rows};

/// What a relay of a control queue does.
#[derive(Copy, Clone, Debug, PartialEq, Eq)]
pub enum Mode {
    /// It replays settings on the shadow ring.
    Replaying,
    /// It carries the guest's commands.
    Carrying,
    /// A command of the replay stays on the shadow ring: it leaves the guest's end, of which it took nothing.
    Leaving,
}

/// What a relay of a control queue does, its replay, and what it carries.
#[derive(Drop)]
pub struct Control {
    pub mode: Mode,
    pub replay: Replay,
    pub commander: Commander,
}

impl Control {
    /// It begins with the replay of these settings, or, without a replay, of the default ones, whose list is empty.
    pub(crate) fn new<L: Layout>(
        shadow: &L::Driver,
        commands: Rows<Command>,
        settings: Settings,
        replay: bool,
    ) -> Control
        requires { HasPairs settings }
        ensures mode { result.mode ≡ Replaying }
        ensures settings { result.replay.settings ≡ replays_for replay settings }
        ensures winding { result.replay.winding ≡ false }
        ensures target { result.replay.target ≡ 0 }
        ensures hand { result.commander.hand ≡ carry.None }
        ensures commands { result.commander.commands ≡ commands }
        ensures holds { (v : DriverView) → IsFreshShadow L.layout L.Driver.driver shadow.now v
            → ReplayHolds L.layout L.Driver.driver result.replay shadow.now v }
        ensures paid { (v : DriverView) → replay_owes L.Driver.driver result.replay.winding result.replay.stage shadow.now v ≤ 64 }
    {
        let again = if replay { settings } else { Settings::new() };
        Control {
            mode: Mode::Replaying,
            replay: Replay::new::<L>(again, shadow),
            commander: Commander {
                hand: Carry::None,
                commands,
            },
        }
    }

    /// Where the replay is over it carries, or leaves where a command of it stays on the shadow ring.
    pub(crate) fn go_on<L: Layout>(&mut self, state: &State<L::Device, L::Driver>)
        requires at { self.old.mode ≡ Replaying }
        ensures holds { (z : Opening) (s : Settings) (c : Counts) (w : DeviceView) (v : DriverView) → self.old.replay.settings ≡ again z
            → IsReplaying L.layout L.Device.device L.Driver.driver z state.now self.old s c w v
            → ControlHolds L.layout L.Device.device L.Driver.driver z state.now self.new s c w v }
        ensures on { is_over self.old.replay.stage ≡ false → self.new.mode ≡ Replaying }
        ensures over { (z : Opening) (v : DriverView) → self.old.replay.settings ≡ again z
            → Replays L.layout L.Driver.driver self.old.replay state.now.shadow v → self.new.mode ≡ Carrying
            → IsOver z self.old.replay v }
        ensures replay { self.new.replay ≡ self.old.replay }
        ensures commander { self.new.commander ≡ self.old.commander }
    {
        if !self.replay.over() {
            return;
        }
        if state.shadow.offered() == state.shadow.collected() {
            self.mode = Mode::Carrying;
            return;
        }
        self.mode = Mode::Leaving;
    }

    /// Between two operations of a wind-up it leaves the rest of the replay out.
    pub(crate) fn turn<L: Layout>(&mut self, state: &State<L::Device, L::Driver>)
        requires { (z : Opening) × (s : Settings) × (c : Counts) × (w : DeviceView) × (v : DriverView)
            × ControlHolds L.layout L.Device.device L.Driver.driver z state.now self.old s c w v }
        ensures holds { (z : Opening) (s : Settings) (c : Counts) (w : DeviceView) (v : DriverView)
            → ControlHolds L.layout L.Device.device L.Driver.driver z state.now self.old s c w v
            → ControlHolds L.layout L.Device.device L.Driver.driver z state.now self.new s c w v }
        ensures becomes { Becomes self.old.mode self.new.mode }
        ensures same { state.now.winding ≡ false → self.new.mode ≡ self.old.mode }
        ensures next { self.new.replay.next ≡ self.old.replay.next }
        ensures over { (z : Opening) (s : Settings) (c : Counts) (w : DeviceView) (v : DriverView)
            → ControlHolds L.layout L.Device.device L.Driver.driver z state.now self.old s c w v
            → GoesOver z state.now.winding self.old.mode self.new v }
        ensures commander { self.new.commander ≡ self.old.commander }
        ensures arms { self.new.mode ≡ Replaying → self.new.replay.winding ≡ true → self.new.replay.stage ≡ Arming
            → ¬ (L.Driver.driver.begun state.now.shadow ≡ DriverOp.idle) }
        ensures quiet { self.new.mode ≡ Replaying → self.new.replay.winding ≡ true → ¬ (self.new.replay.stage ≡ Second) }
    {
        match self.mode {
            Mode::Replaying => {
                self.replay.turn::<L>(&state.shadow);
                self.go_on::<L>(state);
            }
            Mode::Carrying => {}
            Mode::Leaving => {}
        }
    }
}
