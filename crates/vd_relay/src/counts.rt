//! How a relay's steps are counted.
ghost use Rattle.std.specs.Prelude.{◌≡◌};
ghost use Rattle.vd_relay.specs.declared.counts.Turn.TheVariants.{Slept};
ghost use Rattle.vd_relay.specs.Pace.{raised, counted, handled, woke, move_of};

use vd_layout::Move;

/// What an access came to.
#[derive(Copy, Clone)]
pub enum Turn {
    Worked,
    /// A chain was taken, offered, collected or given.
    Handled,
    /// It ended a hearing with Awake.
    Woke,
    /// It was a sleeper's look at its bell, which hasn't changed.
    Slept,
    /// A collect of the wind-up showed nothing, and is made again.
    Again,
}

/// How many steps did not answer Looked, a wind-up's repeated looks left out; how many took, offered, collected or gave a chain;
/// and how many ended a hearing with Awake. Each stays at the last u64.
#[derive(Copy, Clone, Debug, PartialEq, Eq)]
pub struct Counts {
    pub accesses: u64,
    pub handled: u64,
    pub heard: u64,
}

impl Counts {
    pub(crate) fn new() -> Counts
        ensures { result ≡ record { accesses = 0; handled = 0; heard = 0 } }
    {
        Counts {
            accesses: 0,
            handled: 0,
            heard: 0,
        }
    }

    /// Counts an access.
    pub(crate) fn note(&mut self, turn: Turn)
        ensures accesses { self.new.accesses ≡ raised (counted turn) self.old.accesses }
        ensures handled { self.new.handled ≡ raised (handled turn) self.old.handled }
        ensures heard { self.new.heard ≡ raised (woke turn) self.old.heard }
        ensures slept { turn ≡ Slept → self.new ≡ self.old }
    {
        let Counts {
            accesses,
            handled,
            heard,
        } = *self;
        match turn {
            Turn::Slept | Turn::Again => {}
            Turn::Worked => self.accesses = accesses.saturating_add(1),
            Turn::Handled => {
                self.accesses = accesses.saturating_add(1);
                self.handled = handled.saturating_add(1);
            }
            Turn::Woke => {
                self.accesses = accesses.saturating_add(1);
                self.heard = heard.saturating_add(1);
            }
        }
    }
}

/// What a step was, after which the relay rests or doesn't.
pub(crate) fn move_of(turn: Turn, rested: bool) -> Move
    ensures { result ≡ move_of turn rested }
{
    match turn {
        Turn::Slept => Move::Looked,
        _ if rested => Move::Finished,
        _ => Move::Worked,
    }
}
