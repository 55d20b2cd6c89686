//! What a model guest does with the end that it holds.
ghost use Rattle.std.specs.Prelude.{◌≡◌, ◌<◌, ◌≤◌, ◌++◌, ◌∷◌, [], vec_len, vec_capacity};
ghost use Rattle.std.specs.Option.{option_copied};
ghost use Rattle.vd_model.specs.declared.record.Return.{Return};
ghost use Rattle.vd_ring.specs.declared.driver.DriverView.{DriverView};
ghost use Rattle.vd_layout.specs.Begun.{DriverOp};
ghost use Rattle.vd_models.specs.declared.pending.Pending.TheVariants.{Both, Free};
ghost use Rattle.vd_models.specs.GuestStages.{is_done, offered_stage, woken_stage, none_stage, waking_turn};
ghost use Rattle.vd_models.specs.Pending.{IsTurnToOffer};
ghost use Rattle.vd_models.specs.Driving.{DriveOpens, CanDrive, MakesDriveTurn, IsKept, IsPlan, drive, is_done_of, loaded_of};
ghost use Rattle.vd_models.specs.Sending.{Begins, CanTurn, CanBegin, MakesTurn};

use crate::counts::Turn;
use crate::cursor::{Cursor, next_chain, settle};
use crate::pending::Pending;
use crate::sending::{control, control_access, free_access, next_command};
use crate::sent::command_chain;
use vd_layout::{DriverAct, DriverEnd, Layout};
use vd_model::{Return, Script};
use vd_words::Port;

/// What comes next: an offer while a chain is left and has room, else a collect. In its turn to collect a guest begins no offer.
/// Where it can't offer and no entry is there, it sleeps.
#[derive(Copy, Clone)]
pub enum GuestStage {
    Offering,
    Collecting,
    Arming,
    Hearing,
    Done,
}

impl GuestStage {
    /// Whether all came back.
    pub fn is_done(&self) -> bool
        ensures { result ≡ is_done self.now }
    {
        matches!(self, GuestStage::Done)
    }
}

/// A script that is loaded, and how far it is.
#[derive(Drop)]
pub struct Loaded {
    pub script: Script,
    /// How many chains or commands the script has.
    pub total: u32,
    pub at: Cursor,
    pub offered: u32,
    pub returned: Vec<Return>,
    pub stage: GuestStage,
    pub hand: Pending,
}

/// From its boot to its halt: the end that the guest holds, and its script.
#[derive(Drop)]
pub struct Booted<D> {
    pub end: D,
    pub loaded: Loaded,
}

/// What a guest holds: its script once it is loaded, and from its boot to its halt the end too. It is booted once.
#[derive(Drop)]
pub enum GuestPhase<D> {
    Unloaded,
    Loaded(Loaded),
    Booted(Booted<D>),
    Halted(Loaded),
}

impl<D> GuestPhase<D> {
    /// The script, from its load on.
    pub fn loaded(&self) -> Option<&Loaded>
        ensures { option_copied result ≡ loaded_of self.now }
    {
        match self {
            GuestPhase::Unloaded => None,
            GuestPhase::Loaded(loaded) | GuestPhase::Halted(loaded) => Some(loaded),
            GuestPhase::Booted(booted) => Some(&booted.loaded),
        }
    }

    /// Whether all came back, asked of any phase: each step asks it of a guest that is booted, and that in line.
    #[inline(never)]
    pub(crate) fn is_done(&self) -> bool
        ensures { result ≡ is_done_of (loaded_of self.now) }
    {
        match self.loaded() {
            Some(loaded) => loaded.stage.is_done(),
            None => false,
        }
    }
}

/// Appends what came back, into the room that is there.
pub(crate) fn keep(list: &mut Vec<Return>, item: Return)
    requires { vec_len list.old < vec_capacity list.old }
    ensures items { list.new.items ≡ list.old.items ++ item ∷ [] }
    ensures room { vec_capacity list.old ≤ vec_capacity list.new }
{
    if list.push(item).is_err() {
        unreachable!()
    }
}

/// Appends a chain that came back. Out of line: the steps that collect none then needn't clear an item.
#[inline(never)]
fn keep_chain(list: &mut Vec<Return>, number: u32, len: u32)
    requires { vec_len list.old < vec_capacity list.old }
    ensures items { list.new.items ≡ list.old.items ++ (record { number = number; len = len; ack = 0 }) ∷ [] }
    ensures room { vec_capacity list.old ≤ vec_capacity list.new }
{
    keep(
        list,
        Return {
            number,
            len,
            ack: 0,
        },
    );
}

/// What comes after an offer: with `turns` a turn to collect.
fn after_offer(turns: bool) -> GuestStage
    ensures { result ≡ offered_stage turns }
{
    if turns {
        GuestStage::Collecting
    } else {
        GuestStage::Offering
    }
}

/// What comes after a look that showed no entry: after its turn to collect a guest offers again, else it sleeps.
fn after_nothing(stage: GuestStage) -> GuestStage
    ensures { result ≡ none_stage stage }
{
    match stage {
        GuestStage::Collecting => GuestStage::Offering,
        _ => GuestStage::Arming,
    }
}

/// What comes after Awake: the end is armed no longer, and goes on.
fn after_waking(armed: bool) -> GuestStage
    ensures { result ≡ woken_stage armed }
{
    if armed {
        GuestStage::Hearing
    } else {
        GuestStage::Offering
    }
}

/// What Awake ended: a hearing, or an arming.
fn waking(stage: GuestStage) -> Turn
    ensures { result ≡ waking_turn stage }
{
    match stage {
        GuestStage::Hearing => Turn::Woke,
        _ => Turn::Worked,
    }
}

/// Begins the offer of the command whose words are stored.
#[inline(never)]
fn begin_command<L: Layout>(end: &mut L::Driver, loaded: &Loaded)
    requires can { CanBegin L.Driver.driver L.layout (drive end.old loaded.now) }
    requires idle { L.Driver.driver.begun end.old ≡ DriverOp.idle }
    requires both { loaded.now.hand ≡ Both }
    ensures busy { ¬ (L.Driver.driver.begun end.new ≡ DriverOp.idle) }
    ensures next { Begins L.Driver.driver L.layout (drive end.old loaded.now) (drive end.new loaded.now) }
{
    let Some(command) = next_command(loaded) else {
        unreachable!()
    };
    let chain = command_chain::<L>(end, command.len());
    end.begin_offer(&chain);
}

/// Begins the offer of the next chain or command where it has room, and else a collect. A command's words are stored before.
#[inline(always)]
fn begin_next<L: Layout>(end: &mut L::Driver, loaded: &Loaded)
    requires can { CanBegin L.Driver.driver L.layout (drive end.old loaded.now) }
    requires idle { L.Driver.driver.begun end.old ≡ DriverOp.idle }
    requires stage { IsTurnToOffer loaded.now.stage }
    ensures busy { ¬ (L.Driver.driver.begun end.new ≡ DriverOp.idle) }
    ensures next { Begins L.Driver.driver L.layout (drive end.old loaded.now) (drive end.new loaded.now) }
{
    match loaded.hand {
        Pending::Both => begin_command::<L>(end, loaded),
        _ => match next_chain(loaded.script.runs.as_slice(), loaded.at) {
            Some(chain) if end.room(chain) => end.begin_offer(chain),
            _ => end.begin_collect(),
        },
    }
}

/// Begins the next operation where none is in progress.
#[inline(always)]
fn begin_drive<L: Layout>(end: &mut L::Driver, loaded: &Loaded)
    requires { CanBegin L.Driver.driver L.layout (drive end.old loaded.now) }
    ensures busy { ¬ (L.Driver.driver.begun end.new ≡ DriverOp.idle) }
    ensures next { Begins L.Driver.driver L.layout (drive end.old loaded.now) (drive end.new loaded.now) }
{
    if end.idle() {
        match loaded.stage {
            GuestStage::Arming => end.begin_arm(),
            GuestStage::Hearing => end.begin_hear(),
            GuestStage::Collecting => end.begin_collect(),
            _ => begin_next::<L>(end, loaded),
        }
    }
}

/// Makes one access of an operation, which it begins where none is in progress. With `turns` an offer is followed by a turn to collect,
/// until nothing is shown.
#[inline(always)]
fn operate<L: Layout, P: Port>(
    end: &mut L::Driver,
    loaded: &mut Loaded,
    turns: &bool,
    port: &mut P,
) -> Turn
    requires plan { IsPlan loaded.old }
    requires own { CanTurn P.port L.Driver.driver L.layout port.old (drive end.old loaded.old) }
    ensures kept { IsKept loaded.old loaded.new }
    ensures turn { MakesTurn
        P.port
        L.Driver.driver
        L.layout
        port.old
        port.new
        (drive end.old loaded.old)
        (drive end.new loaded.new)
        result }
{
    begin_drive::<L>(end, loaded);
    match end.step(port) {
        DriverAct::Offered(_) => {
            loaded.offered += 1;
            loaded.stage = after_offer(*turns);
            match loaded.hand {
                Pending::Both => loaded.hand = Pending::Free,
                _ => {
                    let next = Cursor {
                        run: loaded.at.run,
                        used: loaded.at.used + 1,
                    };
                    loaded.at = settle(loaded.script.runs.as_slice(), next);
                }
            }
        }
        DriverAct::Collected { number, len, head } => {
            if loaded.script.commands.as_slice().is_empty() {
                keep_chain(&mut loaded.returned, number, len);
                if loaded.returned.len() == loaded.total as usize {
                    loaded.stage = GuestStage::Done;
                }
            } else {
                loaded.hand = Pending::Ack { number, len, head };
            }
        }
        DriverAct::Nothing => loaded.stage = after_nothing(loaded.stage),
        DriverAct::Armed => loaded.stage = GuestStage::Hearing,
        DriverAct::Awake => {
            let turn = waking(loaded.stage);
            loaded.stage = after_waking(end.armed());
            return turn;
        }
        DriverAct::Asleep => return Turn::Slept,
        DriverAct::Moved => {}
    }
    Turn::Worked
}

/// One access of a guest that has something of a command in hand.
#[inline(never)]
fn drive_held<L: Layout, P: Port>(
    booted: &mut Booted<L::Driver>,
    turns: &bool,
    port: &mut P,
) -> Turn
    requires plan { IsPlan booted.old.loaded }
    requires own { CanDrive P.port L.Driver.driver L.layout port.old (drive booted.old.end booted.old.loaded) }
    ensures kept { IsKept booted.old.loaded booted.new.loaded }
    ensures turn { MakesDriveTurn
        P.port
        L.Driver.driver
        L.layout
        port.old
        port.new
        (drive booted.old.end booted.old.loaded)
        (drive booted.new.end booted.new.loaded)
        result }
{
    let Booted { end, loaded } = booted;
    match control_access::<L>(end, loaded) {
        Some(access) => control::<L, P>(end, loaded, port, access),
        None => operate::<L, P>(end, loaded, turns, port),
    }
}

/// One access of a guest that has nothing in hand.
#[inline(always)]
fn drive_free<L: Layout, P: Port>(
    booted: &mut Booted<L::Driver>,
    turns: &bool,
    port: &mut P,
) -> Turn
    requires free { booted.old.loaded.hand ≡ Free }
    requires plan { IsPlan booted.old.loaded }
    requires own { CanDrive P.port L.Driver.driver L.layout port.old (drive booted.old.end booted.old.loaded) }
    ensures kept { IsKept booted.old.loaded booted.new.loaded }
    ensures turn { MakesDriveTurn
        P.port
        L.Driver.driver
        L.layout
        port.old
        port.new
        (drive booted.old.end booted.old.loaded)
        (drive booted.new.end booted.new.loaded)
        result }
{
    let Booted { end, loaded } = booted;
    match free_access::<L>(end, loaded) {
        Some(access) => control::<L, P>(end, loaded, port, access),
        None => operate::<L, P>(end, loaded, turns, port),
    }
}

/// Makes one access: of a command or ack word where one comes next, else of an operation.
#[inline(always)]
pub(crate) fn drive<L: Layout, P: Port>(
    booted: &mut Booted<L::Driver>,
    turns: &bool,
    port: &mut P,
) -> Turn
    requires plan { IsPlan booted.old.loaded }
    requires own { CanDrive P.port L.Driver.driver L.layout port.old (drive booted.old.end booted.old.loaded) }
    ensures kept { IsKept booted.old.loaded booted.new.loaded }
    ensures turn { MakesDriveTurn
        P.port
        L.Driver.driver
        L.layout
        port.old
        port.new
        (drive booted.old.end booted.old.loaded)
        (drive booted.new.end booted.new.loaded)
        result }
{
    match booted.loaded.hand {
        Pending::Free => drive_free::<L, P>(booted, turns, port),
        _ => drive_held::<L, P>(booted, turns, port),
    }
}
