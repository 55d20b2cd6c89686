//! What a model device of the control queue does with the end that it holds.
ghost use Rattle.std.specs.Prelude.{◌≡◌, length};
ghost use Rattle.vd_bus.specs.DeviceCommands.{set_since};
ghost use Rattle.vd_models.specs.declared.hand.Hand.TheVariants.{Free};
ghost use Rattle.vd_models.specs.Commanding.{CanCommand, MakesCommandTurn};

use crate::counts::Turn;
use crate::hand::{Hand, command_place, execute};
use crate::serving::{Session, Stage, after_give, after_nothing, after_waking, begin_next, waking};
use crate::window::{Held, drop_next, hold};
use std::mem::replace;
use vd_bus::Entries;
use vd_commands::Words;
use vd_control::Settings;
use vd_layout::{DeviceAct, DeviceEnd, Layout};
use vd_model::Begun;
use vd_words::{Access, Op, Port};

/// From its attach to its suspension: the session, in which a chain is held from its take on; what is left to do with it; and the
/// settings at the attach.
#[derive(Drop)]
pub struct Commanding<E> {
    pub session: Session<E>,
    pub hand: Hand,
    pub at_attach: Settings,
}

/// Makes one access. A chain that was taken is executed, answered and given before the next is taken.
pub(crate) fn command<L: Layout, P: Port>(
    session: &mut Session<L::Device>,
    hand: &mut Hand,
    begun: &mut Entries<Begun>,
    settings: &mut Settings,
    port: &mut P,
) -> Turn
    requires own { CanCommand P.port L.Device.device port.old session.old hand.old begun.old }
    ensures by { session.new.by ≡ session.old.by }
    ensures settings { settings.new ≡ set_since (length begun.old.items) begun.new.items settings.old }
    ensures turn { MakesCommandTurn
        P.port
        L.Device.device
        port.old
        port.new
        session.old
        session.new
        hand.old
        hand.new
        begun.old
        begun.new
        result }
{
    if hand.is_free() {
        return take_or_give::<L, P>(session, hand, begun, port);
    }
    match replace(hand, Hand::Free) {
        Hand::Free => unreachable!(),
        Hand::Taken(chain) => {
            let first = port.access(Op::Control, Access::Load(command_place(&chain)));
            *hand = Hand::Loaded(chain, first);
        }
        Hand::Loaded(chain, first) => {
            let second = port.access(Op::Control, Access::Load(command_place(&chain) + 1));
            *hand = execute(chain, Words { first, second }, begun, settings);
        }
        // The ack stands before the chain is given.
        Hand::Executed(place, ack) => {
            port.access(Op::Control, Access::Store(place, ack as u64));
        }
    }
    Turn::Worked
}

/// The same where no command is in hand.
fn take_or_give<L: Layout, P: Port>(
    session: &mut Session<L::Device>,
    hand: &mut Hand,
    begun: &Entries<Begun>,
    port: &mut P,
) -> Turn
    requires free { hand.old ≡ Free }
    requires own { CanCommand P.port L.Device.device port.old session.old Free begun.now }
    ensures by { session.new.by ≡ session.old.by }
    ensures turn { MakesCommandTurn
        P.port
        L.Device.device
        port.old
        port.new
        session.old
        session.new
        Free
        hand.new
        begun.now
        begun.now
        result }
{
    let all = session.by.at as usize + session.by.count as usize;
    let in_order = session.end.features().in_order;
    begin_next::<L>(session, begun.len() < all);
    match session.end.step(port) {
        DeviceAct::Taken(number, chain) => {
            hold(&mut session.held, Held { number, len: 1 });
            session.stage = Stage::Giving;
            *hand = Hand::Taken(chain);
        }
        DeviceAct::Given(_) => {
            drop_next(&mut session.held, in_order);
            session.stage = after_give(session.held.is_empty());
        }
        DeviceAct::Nothing => session.stage = after_nothing(session.held.is_empty()),
        DeviceAct::Armed => session.stage = Stage::Hearing,
        DeviceAct::Awake => {
            let turn = waking(session.stage);
            session.stage = after_waking(session.end.armed());
            return turn;
        }
        DeviceAct::Asleep => return Turn::Slept,
        DeviceAct::Rested => session.stage = Stage::Done,
        DeviceAct::Moved => {}
    }
    Turn::Worked
}
