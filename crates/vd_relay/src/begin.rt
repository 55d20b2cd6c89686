//! What comes next, and the begin of its operation.
ghost use Rattle.std.specs.Prelude.{◌≡◌, ◌⊎◌, ◌↔◌, IsTrue, true, false};
ghost use Rattle.vd_ring.specs.declared.device.DeviceView.{DeviceView};
ghost use Rattle.vd_ring.specs.declared.driver.DriverView.{DriverView};
ghost use Rattle.vd_layout.specs.Begun.{DeviceOp, DriverOp};
ghost use Rattle.vd_relay.specs.declared.stage.Stage.TheVariants.{Taking, ArmingGuest, ArmingShadow};
ghost use Rattle.vd_relay.specs.Stages.{is_rested, is_shadow, is_hearing, is_offering, roused};
ghost use Rattle.vd_relay.specs.Tie.{Course};
ghost use Rattle.vd_relay.specs.Relay.{Stands, Stays, IsFinished, IsRoused, IsQuiet, IsKept};

use crate::stage::Stage;
use crate::state::State;
use vd_layout::{DeviceEnd, DriverEnd, Layout};

/// Whether a wind-up has collected and given all.
fn is_finished<L: Layout>(state: &State<L::Device, L::Driver>) -> bool
    ensures { (w : DeviceView) (v : DriverView) → L.Device.device.stands state.now.guest w → L.Driver.driver.stands state.now.shadow v
        → IsTrue result ↔ IsFinished state.now w v }
{
    state.winding && state.shadow.collected() >= state.target && state.guest.whole()
}

/// Armed ends are disarmed first, then it goes on: in a wind-up until all is collected and given.
fn rouse(guest: bool, shadow: bool, winding: bool, finished: bool) -> Stage
    ensures is { result ≡ roused guest shadow winding finished }
    ensures live { is_rested result ≡ false }
{
    if guest {
        Stage::DisarmingGuest
    } else if shadow {
        Stage::DisarmingShadow
    } else if !winding {
        Stage::Taking
    } else if finished {
        Stage::Resting
    } else {
        Stage::Collecting { none: false }
    }
}

/// What comes next where it sleeps no more: an end that woke is armed no longer, and the other is disarmed.
pub(crate) fn after_sleep<L: Layout>(state: &State<L::Device, L::Driver>) -> Stage
    ensures live { is_rested result ≡ false }
    ensures roused { (w : DeviceView) (v : DriverView) → L.Device.device.stands state.now.guest w
        → L.Driver.driver.stands state.now.shadow v
        → IsRoused L.Device.device L.Driver.driver state.now w v result }
{
    rouse(
        state.guest.armed(),
        state.shadow.armed(),
        state.winding,
        is_finished::<L>(state),
    )
}

/// A wind-up takes no further chain, and sleeps no more: between two operations it collects, until it rests.
pub(crate) fn turn<L: Layout>(state: &mut State<L::Device, L::Driver>)
    requires live { is_rested state.old.stage ≡ false }
    requires own { (z : Course) × (w : DeviceView) × (v : DriverView) × Stands L.Device.device L.Driver.driver z state.old w v }
    ensures stays { (z : Course) (w : DeviceView) (v : DriverView) → Stands L.Device.device L.Driver.driver z state.old w v
        → Stays L.Device.device L.Driver.driver z state.old state.new w v }
    ensures live { is_rested state.new.stage ≡ false }
    ensures turned { state.new.winding ≡ true → state.new.stage ≡ Taking → ¬ (L.Device.device.begun state.new.guest ≡ DeviceOp.idle) }
    ensures guest_arms { state.new.winding ≡ true → state.new.stage ≡ ArmingGuest
        → ¬ (L.Device.device.begun state.new.guest ≡ DeviceOp.idle) }
    ensures shadow_arms { state.new.winding ≡ true → state.new.stage ≡ ArmingShadow
        → ¬ (L.Driver.driver.begun state.new.shadow ≡ DriverOp.idle) }
    ensures kept { IsKept state.old state.new }
    ensures quiet { IsQuiet L.Driver.driver state.old state.new }
    ensures hearing { is_hearing state.new.stage ≡ true → state.new.stage ≡ state.old.stage }
    ensures guest { state.new.guest ≡ state.old.guest }
    ensures shadow { state.new.shadow ≡ state.old.shadow }
    ensures offering { is_offering state.old.stage ≡ true → state.new.stage ≡ state.old.stage }
    ensures other { is_offering state.old.stage ≡ false → is_offering state.new.stage ≡ false }
{
    if state.winding && state.stage.is_open() && state.guest.idle() && state.shadow.idle() {
        state.stage = after_sleep::<L>(state);
    }
}

/// Begins the next operation where none is in progress.
pub(crate) fn begin<L: Layout>(state: &mut State<L::Device, L::Driver>)
    requires live { is_rested state.old.stage ≡ false }
    requires turned { state.old.winding ≡ true → state.old.stage ≡ Taking → ¬ (L.Device.device.begun state.old.guest ≡ DeviceOp.idle) }
    requires guest_arms { state.old.winding ≡ true → state.old.stage ≡ ArmingGuest
        → ¬ (L.Device.device.begun state.old.guest ≡ DeviceOp.idle) }
    requires shadow_arms { state.old.winding ≡ true → state.old.stage ≡ ArmingShadow
        → ¬ (L.Driver.driver.begun state.old.shadow ≡ DriverOp.idle) }
    requires own { (z : Course) × (w : DeviceView) × (v : DriverView) × Stands L.Device.device L.Driver.driver z state.old w v }
    ensures stays { (z : Course) (w : DeviceView) (v : DriverView) → Stands L.Device.device L.Driver.driver z state.old w v
        → Stays L.Device.device L.Driver.driver z state.old state.new w v }
    ensures stage { state.new.stage ≡ state.old.stage }
    ensures guest { is_shadow state.old.stage ≡ false → ¬ (L.Device.device.begun state.new.guest ≡ DeviceOp.idle) }
    ensures shadow { is_shadow state.old.stage ≡ true → ¬ (L.Driver.driver.begun state.new.shadow ≡ DriverOp.idle) }
    ensures kept { IsKept state.old state.new }
    ensures quiet { IsQuiet L.Driver.driver state.old state.new }
    ensures guest_same { is_shadow state.old.stage ≡ true → state.new.guest ≡ state.old.guest }
    ensures shadow_same { is_shadow state.old.stage ≡ false → state.new.shadow ≡ state.old.shadow }
    ensures guest_was { (L.Device.device.begun state.old.guest ≡ DeviceOp.idle) ⊎ (state.new.guest ≡ state.old.guest) }
    ensures shadow_was { (L.Driver.driver.begun state.old.shadow ≡ DriverOp.idle) ⊎ (state.new.shadow ≡ state.old.shadow) }
{
    if state.stage.is_shadow() {
        begin_shadow::<L>(state);
    } else {
        begin_guest::<L>(state);
    }
}

/// Of the guest's end.
fn begin_guest<L: Layout>(state: &mut State<L::Device, L::Driver>)
    requires live { is_rested state.old.stage ≡ false }
    requires turned { state.old.winding ≡ true → state.old.stage ≡ Taking → ¬ (L.Device.device.begun state.old.guest ≡ DeviceOp.idle) }
    requires guest_arms { state.old.winding ≡ true → state.old.stage ≡ ArmingGuest
        → ¬ (L.Device.device.begun state.old.guest ≡ DeviceOp.idle) }
    requires side { is_shadow state.old.stage ≡ false }
    requires own { (z : Course) × (w : DeviceView) × (v : DriverView) × Stands L.Device.device L.Driver.driver z state.old w v }
    ensures stays { (z : Course) (w : DeviceView) (v : DriverView) → Stands L.Device.device L.Driver.driver z state.old w v
        → Stays L.Device.device L.Driver.driver z state.old state.new w v }
    ensures stage { state.new.stage ≡ state.old.stage }
    ensures busy { ¬ (L.Device.device.begun state.new.guest ≡ DeviceOp.idle) }
    ensures kept { IsKept state.old state.new }
    ensures same { state.new.shadow ≡ state.old.shadow }
    ensures was { (L.Device.device.begun state.old.guest ≡ DeviceOp.idle) ⊎ (state.new.guest ≡ state.old.guest) }
{
    if state.guest.idle() {
        match state.stage {
            Stage::Taking => state.guest.begin_take(),
            Stage::ArmingGuest => state.guest.begin_arm(),
            Stage::HearingGuest => state.guest.begin_hear(),
            Stage::DisarmingGuest => state.guest.begin_disarm(),
            Stage::Resting => state.guest.begin_rest(),
            _ => unreachable!(),
        }
    }
}

/// Of the shadow end. An offer was begun when its chain was taken.
fn begin_shadow<L: Layout>(state: &mut State<L::Device, L::Driver>)
    requires shadow_arms { state.old.winding ≡ true → state.old.stage ≡ ArmingShadow
        → ¬ (L.Driver.driver.begun state.old.shadow ≡ DriverOp.idle) }
    requires side { is_shadow state.old.stage ≡ true }
    requires own { (z : Course) × (w : DeviceView) × (v : DriverView) × Stands L.Device.device L.Driver.driver z state.old w v }
    ensures stays { (z : Course) (w : DeviceView) (v : DriverView) → Stands L.Device.device L.Driver.driver z state.old w v
        → Stays L.Device.device L.Driver.driver z state.old state.new w v }
    ensures stage { state.new.stage ≡ state.old.stage }
    ensures busy { ¬ (L.Driver.driver.begun state.new.shadow ≡ DriverOp.idle) }
    ensures kept { IsKept state.old state.new }
    ensures quiet { IsQuiet L.Driver.driver state.old state.new }
    ensures same { state.new.guest ≡ state.old.guest }
    ensures was { (L.Driver.driver.begun state.old.shadow ≡ DriverOp.idle) ⊎ (state.new.shadow ≡ state.old.shadow) }
{
    if state.shadow.idle() {
        match state.stage {
            Stage::Collecting { .. } => state.shadow.begin_collect(),
            Stage::ArmingShadow => state.shadow.begin_arm(),
            Stage::HearingShadow => state.shadow.begin_hear(),
            Stage::DisarmingShadow => state.shadow.begin_disarm(),
            _ => unreachable!(),
        }
    }
}
