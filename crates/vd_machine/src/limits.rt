//! Where the pieces lie, and how many queues and chains there are.
ghost use Rattle.std.specs.Prelude.{◌≡◌, ◌≤◌, ◌<◌, ◌^◌, ◌*◌, nat_le, sum_by, length};
ghost use Rattle.std.specs.List.{list_all};
ghost use Rattle.vd_model.specs.declared.record.Run.{Run};
ghost use Rattle.vd_machine.specs.Queues.{most_pieces, holds, lies_in, run_lies_in, script_lies_in, all_lie, chains_of, is_short, few};

use crate::Region;
use vd_model::{Features, Piece, Run, Script};
use vd_text::MOST_PIECES;

/// How many data queues there may be.
const MOST_QUEUES: usize = 8;

/// How many chains a queue may have.
pub const MOST_CHAINS: u32 = 200_000;

/// How many chains all queues may have.
const MOST_CHAINS_OF_ALL: u32 = 400_000;

/// How many pieces a chain may have beside `MOST_PIECES`.
pub fn most_pieces(features: Features, size: u32) -> u32
    ensures { result ≡ most_pieces features size }
{
    if features.indirect {
        MOST_PIECES as u32
    } else {
        size
    }
}

fn holds(piece: &Piece, region: &Region) -> bool
    ensures { result ≡ holds piece.now region.now }
{
    region.addr <= piece.addr
        && piece.addr as u128 + piece.len as u128 <= region.addr as u128 + region.size as u128
}

fn lies_in(regions: &[Region], piece: &Piece) -> bool
    ensures { result ≡ lies_in regions.now piece.now }
{
    regions.iter().any(|region| holds(piece, region))
}

fn run_lies_in(regions: &[Region], run: &Run) -> bool
    ensures { result ≡ run_lies_in regions.now run.now }
{
    run.chain
        .pieces()
        .iter()
        .all(|piece| lies_in(regions, piece))
}

fn script_lies_in(regions: &[Region], script: &Script) -> bool
    ensures { result ≡ script_lies_in regions.now script.now }
{
    script
        .runs
        .as_slice()
        .iter()
        .all(|run| run_lies_in(regions, run))
}

/// Whether each piece lies in one region.
pub fn all_lie(regions: &[Region], queues: &[Script]) -> bool
    ensures { result ≡ all_lie regions.now queues.now }
{
    queues.iter().all(|script| script_lies_in(regions, script))
}

fn count_runs(runs: &[Run]) -> u128
    ensures value { result ≡ sum_by (λ (r : Run). r.count) runs.now }
    ensures small { result ≤ length runs.now * 0xffff_ffff }
{
    let mut total = 0u128;
    for run in runs {
        total += run.count as u128;
    }
    total
}

fn chains_of(script: &Script) -> u128
    ensures value { result ≡ chains_of script.now }
    ensures small { result < 2 ^ 96 }
{
    count_runs(script.runs.as_slice())
}

fn is_short(script: &Script) -> bool
    ensures { result ≡ is_short script.now }
{
    chains_of(script) <= MOST_CHAINS as u128
}

fn each_is_short(queues: &[Script]) -> bool
    ensures { result ≡ list_all is_short queues.now }
{
    queues.iter().all(|script| is_short(script))
}

fn total_within(queues: &[Script], most: u128) -> bool
    requires { most < 2 ^ 64 }
    ensures { result ≡ nat_le (sum_by chains_of queues.now) most }
{
    let mut total = 0u128;
    for script in queues {
        total += chains_of(script);
        if total > most {
            return false;
        }
    }
    true
}

/// Whether there are one to eight queues, and no more chains in each and in all than may be.
pub fn few(queues: &[Script]) -> bool
    ensures { result ≡ few queues.now }
{
    1 <= queues.len()
        && queues.len() <= MOST_QUEUES
        && each_is_short(queues)
        && total_within(queues, MOST_CHAINS_OF_ALL as u128)
}
