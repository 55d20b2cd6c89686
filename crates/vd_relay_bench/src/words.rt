//! The command line of the benchmark.
use std::env::Args;

/// The layout of both rings.
#[derive(Copy, Clone)]
pub enum Kind {
    Split,
    Packed,
}

fn kind_of(name: &str) -> Option<Kind> {
    match name {
        "split" => Some(Kind::Split),
        "packed" => Some(Kind::Packed),
        _ => None,
    }
}

/// The layout, and how many rounds.
pub fn read(mut words: Args) -> Option<(Kind, u32)> {
    let _program = words.next()?;
    let kind = kind_of(words.next()?.as_str())?;
    let rounds = words.next()?.as_str().parse().ok()?;
    if words.next().is_some() {
        return None;
    }
    Some((kind, rounds))
}
