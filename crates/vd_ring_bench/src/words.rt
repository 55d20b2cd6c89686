//! The command line of the benchmark.
use std::env::Args;

/// What is to be run: a ring's layout and size, rounds of 16 chains, the most pieces of a chain, and how its ends work.
#[derive(Copy, Clone, Drop)]
pub struct Workload {
    pub kind: Kind,
    pub size: Size,
    pub rounds: u32,
    pub most: u32,
    pub way: Way,
}

/// How the ends work.
#[derive(Copy, Clone)]
pub enum Way {
    /// Neither end sleeps.
    Awake,
    /// Each end sleeps once a round, by flags.
    Flags,
    /// The same by EVENT_IDX.
    Index,
    /// Neither sleeps, and chains of two pieces or more go by tables.
    Tables,
}

/// The layout of the ring.
#[derive(Copy, Clone)]
pub enum Kind {
    Split,
    Packed,
}

/// The size of the ring.
#[derive(Copy, Clone)]
pub enum Size {
    Four,
    Middle,
    Large,
}

fn kind_of(name: &str) -> Option<Kind> {
    match name {
        "split" => Some(Kind::Split),
        "packed" => Some(Kind::Packed),
        _ => None,
    }
}

fn size_of(places: u32) -> Option<Size> {
    match places {
        4 => Some(Size::Four),
        256 => Some(Size::Middle),
        1024 => Some(Size::Large),
        _ => None,
    }
}

fn way_of(name: &str) -> Option<Way> {
    match name {
        "flags" => Some(Way::Flags),
        "index" => Some(Way::Index),
        "tables" => Some(Way::Tables),
        _ => None,
    }
}

/// The workload that the words after the program's name ask for.
pub fn read(mut words: Args) -> Option<Workload> {
    let _program = words.next()?;
    let kind = kind_of(words.next()?.as_str())?;
    let size = size_of(words.next()?.as_str().parse().ok()?)?;
    let rounds = words.next()?.as_str().parse().ok()?;
    let most = words.next()?.as_str().parse().ok()?;
    let way = match words.next() {
        None => Way::Awake,
        Some(name) => way_of(name.as_str())?,
    };
    if words.next().is_some() {
        return None;
    }
    Some(Workload {
        kind,
        size,
        rounds,
        most,
        way,
    })
}
