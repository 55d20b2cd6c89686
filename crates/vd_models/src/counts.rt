//! How a party's steps are counted.
ghost use Rattle.std.specs.Prelude.{◌≡◌, Bool, true};
ghost use Rattle.vd_bus.specs.Pace.{raised};
ghost use Rattle.vd_models.specs.Counting.{counted, woke, move_of};

use vd_layout::Move;

/// What an access came to.
#[derive(Copy, Clone)]
pub enum Turn {
    Worked,
    /// It ended a hearing with Awake.
    Woke,
    /// It was a sleeper's look at its bell, which hasn't changed.
    Slept,
}

/// How many steps did not answer Looked, and how many hearings ended with Awake. Both stay at the last u64.
#[derive(Copy, Clone)]
pub struct Counts {
    pub accesses: u64,
    pub heard: u64,
}

impl Counts {
    pub(crate) fn new() -> Counts
        ensures { result ≡ record { accesses = 0; heard = 0 } }
    {
        Counts {
            accesses: 0,
            heard: 0,
        }
    }

    /// Counts an access.
    pub(crate) fn note(&mut self, turn: Turn)
        ensures accesses { self.new.accesses ≡ raised (counted turn) self.old.accesses }
        ensures heard { self.new.heard ≡ raised (woke turn) self.old.heard }
    {
        let Counts { accesses, heard } = *self;
        match turn {
            Turn::Worked => self.accesses = accesses.saturating_add(1),
            Turn::Woke => {
                self.accesses = accesses.saturating_add(1);
                self.heard = heard.saturating_add(1);
            }
            Turn::Slept => {}
        }
    }
}

/// What a step was, after which the party is done or isn't.
pub(crate) fn move_of(turn: Turn, done: bool) -> Move
    ensures { result ≡ move_of turn done }
{
    match turn {
        Turn::Slept => Move::Looked,
        _ if done => Move::Finished,
        _ => Move::Worked,
    }
}
