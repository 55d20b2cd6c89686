//! The accesses of command and ack words that a model guest makes on a control ring.
ghost use Rattle.std.specs.Prelude.{◌≡◌, slice_get};
ghost use Rattle.std.specs.Option.{option_copied};
ghost use Rattle.vd_ring.specs.declared.driver.DriverView.{DriverView};
ghost use Rattle.vd_layout.specs.Begun.{DriverOp};
ghost use Rattle.vd_models.specs.declared.driving.GuestStage.TheVariants.{Offering};
ghost use Rattle.vd_models.specs.declared.pending.Pending.TheVariants.{First, Free};
ghost use Rattle.vd_models.specs.Driving.{DriveOpens, IsKept, IsPlan, drive};
ghost use Rattle.vd_models.specs.Sending.{CanControl, FirstIs, StoresSecond, IsDue, MakesControlTurn};

use crate::counts::Turn;
use crate::driving::{GuestStage, Loaded, keep};
use crate::pending::Pending;
use crate::sent::{ack_place, command_store, control_chain};
use arrayvec::ArrayVec;
use vd_layout::{DriverEnd, Layout};
use vd_model::Return;
use vd_words::{Access, Op, Port};

/// The next command, where one is left.
#[inline]
pub(crate) fn next_command(loaded: &Loaded) -> Option<&ArrayVec<u8, 10>>
    ensures { option_copied result ≡ slice_get loaded.now.script.commands loaded.now.offered }
{
    let commands = loaded.script.commands.as_slice();
    let at = loaded.offered as usize;
    if at < commands.len() {
        Some(&commands[at])
    } else {
        None
    }
}

/// The store of the next command's first word, where one is left and has room.
fn room_store<L: Layout>(end: &L::Driver, loaded: &Loaded) -> Option<Access>
    requires idle { L.Driver.driver.begun end.now ≡ DriverOp.idle }
    requires offering { loaded.now.stage ≡ Offering }
    requires opens { (v : DriverView) × DriveOpens L.Driver.driver L.layout (drive end.now loaded.now) v }
    ensures { (v : DriverView) → DriveOpens L.Driver.driver L.layout (drive end.now loaded.now) v
        → FirstIs L.Driver.driver (drive end.now loaded.now) v result }
{
    match next_command(loaded) {
        Some(command) if end.room(&control_chain(0, 0, command.len())) => {
            Some(command_store::<L>(end, command.as_slice(), false))
        }
        _ => None,
    }
}

/// The store of the next command's first word, where an offer comes next and has room.
#[inline(always)]
fn first_store<L: Layout>(end: &L::Driver, loaded: &Loaded) -> Option<Access>
    requires { (v : DriverView) × DriveOpens L.Driver.driver L.layout (drive end.now loaded.now) v }
    ensures { (v : DriverView) → DriveOpens L.Driver.driver L.layout (drive end.now loaded.now) v
        → FirstIs L.Driver.driver (drive end.now loaded.now) v result }
{
    if !end.idle() {
        return None;
    }
    match loaded.stage {
        GuestStage::Offering => room_store::<L>(end, loaded),
        _ => None,
    }
}

/// The control access that comes next where nothing is in hand.
#[inline(always)]
pub(crate) fn free_access<L: Layout>(end: &L::Driver, loaded: &Loaded) -> Option<Access>
    requires free { loaded.now.hand ≡ Free }
    requires opens { (v : DriverView) × DriveOpens L.Driver.driver L.layout (drive end.now loaded.now) v }
    ensures { (v : DriverView) → DriveOpens L.Driver.driver L.layout (drive end.now loaded.now) v
        → IsDue L.Driver.driver (drive end.now loaded.now) v result }
{
    first_store::<L>(end, loaded)
}

/// The store of the next command's second word.
fn second_store<L: Layout>(end: &L::Driver, loaded: &Loaded) -> Access
    requires first { loaded.now.hand ≡ First }
    requires opens { (v : DriverView) × DriveOpens L.Driver.driver L.layout (drive end.now loaded.now) v }
    ensures { (v : DriverView) → DriveOpens L.Driver.driver L.layout (drive end.now loaded.now) v
        → StoresSecond L.Driver.driver (drive end.now loaded.now) v result }
{
    let Some(command) = next_command(loaded) else {
        unreachable!()
    };
    command_store::<L>(end, command.as_slice(), true)
}

/// The store of a word of the next command, or the load of an ack, that comes next, where one does.
#[inline(always)]
pub(crate) fn control_access<L: Layout>(end: &L::Driver, loaded: &Loaded) -> Option<Access>
    requires { (v : DriverView) × DriveOpens L.Driver.driver L.layout (drive end.now loaded.now) v }
    ensures { (v : DriverView) → DriveOpens L.Driver.driver L.layout (drive end.now loaded.now) v
        → IsDue L.Driver.driver (drive end.now loaded.now) v result }
{
    match loaded.hand {
        Pending::Free => first_store::<L>(end, loaded),
        Pending::First => Some(second_store::<L>(end, loaded)),
        Pending::Both => None,
        Pending::Ack { head, .. } => Some(Access::Load(ack_place::<L>(end, head))),
    }
}

/// Makes that access. An ack completes what came back.
pub(crate) fn control<L: Layout, P: Port>(
    end: &L::Driver,
    loaded: &mut Loaded,
    port: &mut P,
    access: Access,
) -> Turn
    requires plan { IsPlan loaded.old }
    requires own { CanControl P.port L.Driver.driver L.layout port.old (drive end.now loaded.old) access }
    ensures kept { IsKept loaded.old loaded.new }
    ensures turn { MakesControlTurn
        P.port
        L.Driver.driver
        L.layout
        port.old
        port.new
        (drive end.now loaded.old)
        (drive end.now loaded.new)
        access
        result }
{
    let word = port.access(Op::Control, access);
    match loaded.hand {
        Pending::Free => loaded.hand = Pending::First,
        Pending::First => loaded.hand = Pending::Both,
        Pending::Both => unreachable!(),
        Pending::Ack { number, len, .. } => {
            let ack = (word % 256) as u8;
            keep(&mut loaded.returned, Return { number, len, ack });
            loaded.hand = Pending::Free;
            if loaded.returned.len() == loaded.total as usize {
                loaded.stage = GuestStage::Done;
            }
        }
    }
    Turn::Worked
}
