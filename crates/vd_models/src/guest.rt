//! A guest that offers its script while there is room, and else collects; where it can do neither it sleeps. On a control ring it stores
//! a command's words before its offer, and loads its ack after it was collected.
ghost use Rattle.std.specs.Prelude.{◌≡◌, Option, None, true, false};
ghost use Rattle.vd_models.specs.Unused.{IsUnloaded};
ghost use Rattle.vd_models.specs.GuestStages.{first_stage};
ghost use Rattle.vd_models.specs.Driving.{GuestHolds, IsLoaded, IsFresh, Paces, loaded_of, script_of, offered_of, returned_of, is_done_of};
ghost use Rattle.vd_models.specs.laws.GuestLaws.{unloaded_law, held_law, offered_law, offers_law, returned_law, done_law, finishes_law, armed_law, sent_law, acked_law, sent_all_law, sleeps_law, listed_law, pace_law};

use crate::counts::{Counts, move_of};
use crate::cursor::{Cursor, settle};
use crate::driving::{Booted, GuestPhase, GuestStage, Loaded, drive};
use crate::pending::Pending;
use crate::script::{copy_script, total};
use std::alloc::{AllocError, Global};
use std::mem::replace;
use vd_bus::Guest;
use vd_layout::{Layout, Move};
use vd_model::{Return, Script};
use vd_words::Port;

/// A guest that offers the next chain or command of its script where there is room, and else collects. Where it can't offer and no entry
/// is there it arms its end, and hears its bell until it wakes.
#[derive(Drop)]
pub struct ModelGuest<L: Layout> {
    phase: GuestPhase<L::Driver>,
    // whether an offer is followed by a turn to collect
    turns: bool,
    counts: Counts,
    ghost fresh: { IsFresh phase counts },
    ghost paced: { Paces (loaded_of phase) counts },
}

impl<L: Layout> ModelGuest<L> {
    /// An unloaded guest. It takes no memory.
    pub fn new(alloc: Global) -> ModelGuest<L>
        ensures unloaded { IsUnloaded ⟦<ModelGuest<L> as Guest<L>>⟧.party result }
        ensures turns { result.turns ≡ false }
    {
        let _ = alloc;
        ModelGuest::with_turns(false)
    }

    /// The same, which takes turns: after each offer it collects until nothing is shown, before it offers again.
    pub fn in_turns(alloc: Global) -> ModelGuest<L>
        ensures unloaded { IsUnloaded ⟦<ModelGuest<L> as Guest<L>>⟧.party result }
        ensures turns { result.turns ≡ true }
    {
        let _ = alloc;
        ModelGuest::with_turns(true)
    }

    fn with_turns(turns: bool) -> ModelGuest<L>
        ensures unloaded { IsUnloaded ⟦<ModelGuest<L> as Guest<L>>⟧.party result }
        ensures turns { result.turns ≡ turns }
    {
        ModelGuest {
            phase: GuestPhase::Unloaded,
            turns,
            counts: Counts::new(),
        }
    }
}

/// Whether all came back before the first access.
fn first_stage(total: u32) -> GuestStage
    ensures { result ≡ first_stage total }
{
    if total == 0 {
        GuestStage::Done
    } else {
        GuestStage::Offering
    }
}

impl<L: Layout> Guest<L> for ModelGuest<L> {
    ghost party = { record {
      script = λ m. script_of (loaded_of m.phase);
      is_loaded = λ m. IsLoaded m.phase;
      offered = λ m. offered_of (loaded_of m.phase);
      returned = λ m. returned_of (loaded_of m.phase);
      holds = λ m v. GuestHolds L.Driver.driver L.layout m.phase m.counts v;
      is_done = λ m. is_done_of (loaded_of m.phase) ≡ true;
      accesses = λ m. m.counts.accesses;
      heard = λ m. m.counts.heard;
    } };

    ghost lawful = { record {
      unloaded = λ x h. unloaded_law (loaded_of x.phase) h;
      held = λ x v h. held_law L.Driver.driver L.layout x.phase x.counts v h;
      offered = λ x v h. offered_law L.Driver.driver L.layout x.phase x.counts v h;
      offers = λ x v s h is d. offers_law L.Driver.driver L.layout x.phase x.counts v s h is d;
      returned = λ x v s h is d. returned_law L.Driver.driver L.layout x.phase x.counts v s h is d;
      done = λ x v s h is d e. done_law L.Driver.driver L.layout L.Driver.driver_lawful x.phase x.counts v s h is d e;
      finishes = λ x v s h is d e. finishes_law L.Driver.driver L.layout x.phase x.counts v s h is d e;
      armed = λ x v s t h is d a. armed_law L.Driver.driver L.layout x.phase x.counts v s t h is d a;
      sent = λ x v s h is d. sent_law L.Driver.driver L.layout x.phase x.counts v s h is d;
      acked = λ x v s h is d. acked_law L.Driver.driver L.layout x.phase x.counts v s h is d;
      sent_all = λ x v s h is d. sent_all_law L.Driver.driver L.layout L.Driver.driver_lawful x.phase x.counts v s h is d;
      sleeps = λ x v s t h is d a. sleeps_law L.Driver.driver L.layout x.phase x.counts v s t h is d a;
      listed = λ x v s t h is d a. listed_law L.Driver.driver L.layout x.phase x.counts v s t h is d a;
      pace = λ x. pace_law (loaded_of x.phase) x.counts x.paced;
    } };

    fn load(&mut self, alloc: Global, script: &Script) -> Result<(), AllocError> {
        let script = copy_script(alloc, script)?;
        let total = total(&script);
        let returned = Vec::with_capacity(alloc, total as usize)?;
        let at = settle(script.runs.as_slice(), Cursor { run: 0, used: 0 });
        self.phase = GuestPhase::Loaded(Loaded {
            script,
            total,
            at,
            offered: 0,
            returned,
            stage: first_stage(total),
            hand: Pending::Free,
        });
        Ok(())
    }

    fn boot(&mut self, end: L::Driver) {
        let GuestPhase::Loaded(loaded) = replace(&mut self.phase, GuestPhase::Unloaded) else {
            unreachable!()
        };
        let at = settle(loaded.script.runs.as_slice(), Cursor { run: 0, used: 0 });
        let stage = first_stage(loaded.total);
        let loaded = Loaded {
            at,
            stage,
            hand: Pending::Free,
            ..loaded
        };
        self.phase = GuestPhase::Booted(Booted { end, loaded });
    }

    #[inline(always)]
    fn step<P: Port>(&mut self, port: &mut P) -> Move {
        let GuestPhase::Booted(booted) = &mut self.phase else {
            unreachable!()
        };
        let turn = drive::<L, P>(booted, &self.turns, port);
        let done = booted.loaded.stage.is_done();
        self.counts.note(turn);
        move_of(turn, done)
    }

    #[inline(always)]
    fn done(&self) -> bool {
        match &self.phase {
            GuestPhase::Booted(booted) => booted.loaded.stage.is_done(),
            _ => self.phase.is_done(),
        }
    }

    fn halt(&mut self) -> L::Driver {
        let GuestPhase::Booted(booted) = replace(&mut self.phase, GuestPhase::Unloaded) else {
            unreachable!()
        };
        let Booted { end, loaded } = booted;
        self.phase = GuestPhase::Halted(loaded);
        end
    }

    fn offered(&self) -> u32 {
        match self.phase.loaded() {
            Some(loaded) => loaded.offered,
            None => 0,
        }
    }

    fn accesses(&self) -> u64 {
        self.counts.accesses
    }

    fn heard(&self) -> u64 {
        self.counts.heard
    }

    fn returned(&self) -> &[Return] {
        match self.phase.loaded() {
            Some(loaded) => loaded.returned.as_slice(),
            None => &[],
        }
    }
}
