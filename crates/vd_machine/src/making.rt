//! Making a machine from a seed: large work for a play.
ghost use Rattle.std.specs.Prelude.{◌≡◌, ◌<◌, ◌^◌, Some, IfOk, OnOk};
ghost use Rattle.vd_machine.specs.Canon.{canon};
ghost use Rattle.vd_machine.specs.File.{view, means};
ghost use Rattle.vd_machine.specs.Made.{readable_piece, writable_piece, readable_pieces, made_run, made_runs, made_regions, made_switches, made};

use crate::draws::Draws;
use crate::made_commands::made_control;
use crate::{Machine, Region, Switch, To};
use arrayvec::ArrayVec;
use sqlite_items::Items;
use std::alloc::{AllocError, Global};
use vd_model::{Chain, Features, Mode, Piece, Run, Script};
use vd_text::MOST_PIECES;

/// How many texts the queue has.
const TEXTS: usize = 1_000;

/// A piece that the device reads: its address is drawn, and then its length.
fn readable_piece(draws: &mut Draws) -> Piece
    ensures value { result ≡ (readable_piece draws.old.last).0 }
    ensures next { draws.new.last ≡ (readable_piece draws.old.last).1 }
{
    let addr = 1_048_576 + 8 * (draws.draw() % 65_536);
    let len = 16 + (draws.draw() % 1_024) as u32;
    Piece {
        addr,
        len,
        write: false,
    }
}

/// A piece of 16 bytes that the device writes: its address is drawn.
fn writable_piece(draws: &mut Draws) -> Piece
    ensures value { result ≡ (writable_piece draws.old.last).0 }
    ensures next { draws.new.last ≡ (writable_piece draws.old.last).1 }
{
    let addr = 4_194_304 + 8 * (draws.draw() % 65_536);
    Piece {
        addr,
        len: 16,
        write: true,
    }
}

/// The chain of one to three readable pieces and a writable one, 200 times.
#[tactic(auto, unfolding(crate::specs::Made::made_run))]
fn made_run(draws: &mut Draws) -> Run
    ensures value { result ≡ (made_run draws.old.last).0 }
    ensures next { draws.new.last ≡ (made_run draws.old.last).1 }
{
    let reads = 1 + draws.draw() % 3;
    let mut pieces: ArrayVec<Piece, MOST_PIECES> = ArrayVec::new();
    for _ in 0..reads {
        pieces.push(readable_piece(draws));
    }
    pieces.push(writable_piece(draws));
    Run {
        count: 200,
        chain: Chain::of(pieces),
    }
}

/// The runs of the queue's texts.
#[tactic(auto, unfolding(crate::specs::Made::made_runs))]
fn made_runs(alloc: Global, draws: &mut Draws) -> Result<Vec<Run>, AllocError>
    ensures { IfOk result (λ v. v.items ≡ (made_runs draws.old.last).0) }
{
    let mut found = Vec::with_capacity(alloc, TEXTS)?;
    for _ in 0..TEXTS {
        found.push(made_run(draws))?;
    }
    Ok(found)
}

fn made_regions(alloc: Global) -> Result<Items<Region>, AllocError>
    ensures { IfOk result (λ rs. rs ≡ made_regions) }
{
    let regions = [
        Region {
            addr: 1_048_576,
            size: 1_048_576,
        },
        Region {
            addr: 4_194_304,
            size: 2_097_152,
        },
    ];
    Ok(Items::from_vec(Vec::from_slice(alloc, &regions)?))
}

fn made_switches(alloc: Global) -> Result<Items<Switch>, AllocError>
    ensures { IfOk result (λ ss. ss ≡ made_switches) }
{
    let switches = [
        Switch {
            after: 50_000,
            to: To::Shadow,
        },
        Switch {
            after: 100_000,
            to: To::Renew,
        },
        Switch {
            after: 150_000,
            to: To::Pass,
        },
    ];
    Ok(Items::from_vec(Vec::from_slice(alloc, &switches)?))
}

/// The machine of a seed. Each seed has one, which breaks no rule: one queue of 200,000 chains in 1,000 texts, a control
/// queue of two commands, and switches to shadow, to a renewal and to pass.
#[tactic(auto, unfolding(crate::specs::Made::made))]
pub fn make(alloc: Global, seed: u64) -> Result<Machine, AllocError>
    ensures value { IfOk result (λ m. view m ≡ made seed) }
    ensures text { OnOk result (means (canon (made seed)) ≡ Some (made seed)) }
{
    let mut draws = Draws::new(seed);
    let packed = draws.draw() % 2 == 1;
    let window = 1 + (draws.draw() % 16) as u32;
    let runs = made_runs(alloc, &mut draws)?;
    let mut queues = Vec::with_capacity(alloc, 1)?;
    queues.push(Script {
        runs: Items::from_vec(runs),
        commands: Items::new(alloc),
    })?;
    Ok(Machine {
        packed,
        size: 256,
        features: Features {
            indirect: true,
            event_idx: true,
            in_order: true,
        },
        window,
        start: Mode::Pass,
        first: 4_096,
        last: 281_474_976_710_655,
        regions: made_regions(alloc)?,
        queues: Items::from_vec(queues),
        switches: made_switches(alloc)?,
        control: Some(made_control(alloc)?),
    })
}
