//! Where a guest stands in its script.
ghost use Rattle.std.specs.Prelude.{◌≡◌, ◌<◌, ◌≤◌, ◌+◌, Option, length};
ghost use Rattle.vd_bus.specs.Scripts.{run_count, most_scripted};
ghost use Rattle.std.specs.Option.{option_copied};
ghost use Rattle.vd_models.specs.Cursors.{left_at, next_at, IsSettled};

use vd_model::{Chain, Run};

/// The run that is offered next, and how many of its chains are offered.
#[derive(Copy, Clone)]
pub struct Cursor {
    pub run: usize,
    pub used: u32,
}

/// The place of the next chain, past the runs that are offered whole.
pub(crate) fn settle(runs: &[Run], from: Cursor) -> Cursor
    ensures left { left_at runs.now result ≡ left_at runs.now from }
    ensures settled { IsSettled runs.now result }
{
    let mut run = from.run;
    let mut used = from.used;
    while run < runs.len() && runs[run].count <= used {
        run += 1;
        used = 0;
    }
    Cursor { run, used }
}

/// The next chain, where one is left.
pub(crate) fn next_chain(runs: &[Run], at: Cursor) -> Option<&Chain>
    requires { IsSettled runs.now at }
    ensures { option_copied result ≡ next_at runs.now at }
{
    if at.run < runs.len() {
        Some(&runs[at.run].chain)
    } else {
        None
    }
}

/// How many chains the runs have.
pub(crate) fn count(runs: &[Run]) -> u32
    requires { run_count runs.now ≤ most_scripted }
    ensures { result ≡ run_count runs.now }
{
    runs.iter().map(|run| run.count).sum()
}
