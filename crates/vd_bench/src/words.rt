//! The command line of the benchmarks.
use std::env::Args;

/// What is to be run.
#[derive(Drop)]
pub enum Workload {
    /// `translate N TURNS`: so many translations over so many mappings.
    Translate { mappings: u32, turns: u64 },
}

/// The workload that the words after the program's name ask for.
pub fn read(mut words: Args) -> Option<Workload> {
    let _program = words.next()?;
    let name = words.next()?;
    let mappings = words.next()?.as_str().parse().ok()?;
    let turns = words.next()?.as_str().parse().ok()?;
    if name.as_str() != "translate" || words.next().is_some() {
        return None;
    }
    Some(Workload::Translate { mappings, turns })
}
