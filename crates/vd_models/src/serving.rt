//! What a model device does with the end that it holds.
ghost use Rattle.std.specs.Prelude.{◌≡◌, Some, IsSome};
ghost use Rattle.vd_layout.specs.Begun.{DeviceOp};
ghost use Rattle.vd_models.specs.Stages.{taken_stage, given_stage, nothing_stage, woken_stage, waking_turn, is_done};
ghost use Rattle.vd_models.specs.Phases.{attached_of, is_done_of, phase_at, session_of};
ghost use Rattle.vd_models.specs.Serving.{CanBegin, Begins, CanServe, MakesTurn, state};

use crate::commanding::Commanding;
use crate::counts::Turn;
use crate::hand::Hand;
use crate::window::{Held, drop_next, next, note};
use circular_buffer::HeapCircularBuffer;
use vd_bus::{Attached, Entries};
use vd_control::Settings;
use vd_layout::{DeviceEnd, Layout, Told};
use vd_model::Begun;
use vd_words::Port;

/// What comes next. All chains that are held are given before the next is taken; a device that holds none sleeps.
#[derive(Copy, Clone)]
pub enum Stage {
    Taking,
    Giving,
    Arming,
    Hearing,
    Done,
}

impl Stage {
    /// Whether the end rests.
    pub fn is_done(&self) -> bool
        ensures { result ≡ is_done self.now }
    {
        matches!(self, Stage::Done)
    }
}

/// From its attach to its suspension: the end that the device holds, by what it is attached, what comes next, and the chains that
/// are begun and not given.
#[derive(Drop)]
pub struct Session<E> {
    pub end: E,
    pub by: Attached,
    pub stage: Stage,
    pub held: HeapCircularBuffer<Held>,
}

/// What a device holds: between sessions the room for one, which is taken once, and while it is attached its session, on the control
/// queue with the command in hand.
#[derive(Drop)]
pub enum Phase<E> {
    Unreserved,
    Free(HeapCircularBuffer<Held>),
    Serving(Session<E>),
    Commanding(Commanding<E>),
}

impl<E> Phase<E> {
    /// Whether an end is held, and rests.
    #[inline(never)]
    pub fn is_done(&self) -> bool
        ensures { result ≡ is_done_of self.now }
    {
        match self {
            Phase::Serving(session) => session.stage.is_done(),
            Phase::Commanding(commanding) => commanding.session.stage.is_done(),
            _ => false,
        }
    }
}

/// The control queue's number.
const CONTROL_QUEUE: u32 = 15;

/// What is held from an attach on.
pub(crate) fn phase_of<E>(session: Session<E>, settings: Settings) -> Phase<E>
    ensures { result ≡ phase_at session settings }
{
    if session.by.queue == CONTROL_QUEUE {
        Phase::Commanding(Commanding {
            session,
            hand: Hand::Free,
            at_attach: settings,
        })
    } else {
        Phase::Serving(session)
    }
}

/// The session of a device that is attached.
pub(crate) fn session_of<E: DeviceEnd>(phase: Phase<E>) -> Session<E>
    requires { IsSome (attached_of phase) }
    ensures { session_of phase ≡ Some result }
{
    match phase {
        Phase::Serving(session) => session,
        Phase::Commanding(commanding) => commanding.session,
        _ => unreachable!(),
    }
}

/// What comes after a take: once the window is full, or all chains are begun, they are given.
fn after_take(full: bool) -> Stage
    ensures { result ≡ taken_stage full }
{
    if full { Stage::Giving } else { Stage::Taking }
}

/// What comes after a give.
pub(crate) fn after_give(empty: bool) -> Stage
    ensures { result ≡ given_stage empty }
{
    if empty { Stage::Taking } else { Stage::Giving }
}

/// What comes after a look that showed no chain: those that are held are given, and where there is none it sleeps.
pub(crate) fn after_nothing(empty: bool) -> Stage
    ensures { result ≡ nothing_stage empty }
{
    if empty { Stage::Arming } else { Stage::Giving }
}

/// What comes after Awake: the end is armed no longer, and takes.
pub(crate) fn after_waking(armed: bool) -> Stage
    ensures { result ≡ woken_stage armed }
{
    if armed { Stage::Hearing } else { Stage::Taking }
}

/// What Awake ended: a hearing, or an arming.
pub(crate) fn waking(stage: Stage) -> Turn
    ensures { result ≡ waking_turn stage }
{
    match stage {
        Stage::Hearing => Turn::Woke,
        _ => Turn::Worked,
    }
}

/// Begins the next operation where none is in progress. `more` tells whether there are chains still to begin.
#[inline(always)]
pub(crate) fn begin_next<L: Layout>(session: &mut Session<L::Device>, more: bool)
    requires { CanBegin L.Device.device session.old more }
    ensures busy { ¬ (L.Device.device.begun session.new.end ≡ DeviceOp.idle) }
    ensures by { session.new.by ≡ session.old.by }
    ensures stage { session.new.stage ≡ session.old.stage }
    ensures held { session.new.held ≡ session.old.held }
    ensures next { Begins L.Device.device session.old session.new more }
{
    if session.end.idle() {
        match session.stage {
            Stage::Taking if more => session.end.begin_take(),
            Stage::Taking => session.end.begin_rest(),
            Stage::Arming => session.end.begin_arm(),
            Stage::Hearing => session.end.begin_hear(),
            _ => {
                let next = next(&session.held, session.end.features().in_order);
                session.end.begin_give(next.number, next.len);
            }
        }
    }
}

/// Makes one access.
#[inline(always)]
pub(crate) fn serve<L: Layout, P: Port>(
    session: &mut Session<L::Device>,
    begun: &mut Entries<Begun>,
    port: &mut P,
) -> Turn
    requires own { CanServe P.port L.Device.device port.old (state session.old begun.old) }
    ensures by { session.new.by ≡ session.old.by }
    ensures turn { MakesTurn
        P.port
        L.Device.device
        port.old
        port.new
        (state session.old begun.old)
        (state session.new begun.new)
        result }
{
    let all = session.by.at as usize + session.by.count as usize;
    let in_order = session.end.features().in_order;
    begin_next::<L>(session, begun.len() < all);
    match session.end.advance(port) {
        Told::Taken(number) => {
            note(number, session.end.chain(), &mut session.held, begun);
            session.stage = after_take(session.held.is_full() | (begun.len() == all));
        }
        Told::Given(_) => {
            drop_next(&mut session.held, in_order);
            session.stage = after_give(session.held.is_empty());
        }
        Told::Nothing => session.stage = after_nothing(session.held.is_empty()),
        Told::Armed => session.stage = Stage::Hearing,
        Told::Awake => {
            let turn = waking(session.stage);
            session.stage = after_waking(session.end.armed());
            return turn;
        }
        Told::Asleep => return Turn::Slept,
        Told::Rested => session.stage = Stage::Done,
        Told::Moved => {}
    }
    Turn::Worked
}
