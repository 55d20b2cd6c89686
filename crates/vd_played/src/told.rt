//! What the parties of a queue tell of a play, in plain data.

use itoa::Buffer;
use std::alloc::{AllocError, Global};
use vd_bus::{Device, Event, Guest, Journal};
use vd_layout::Layout;
use vd_model::{Base, Begun, Mode, Return};
use vd_runner::Bench;

/// A chain that a device began: the length that it gave, how many pieces the chain has, and the first and the last one's address.
#[derive(Drop)]
pub struct Taken {
    pub len: u32,
    pub pieces: usize,
    pub first: u64,
    pub last: u64,
}

/// What the parties of a queue tell: the device's events as a line, the chains that it began, how many the guest offered,
/// what came back to it, and whether each chain that was begun came back once and with the length that the device gave.
#[derive(Drop)]
pub struct Told {
    pub journal: String,
    pub taken: Vec<Taken>,
    pub offered: u32,
    pub returned: Vec<Return>,
    pub once: bool,
}

impl Told {
    /// Whether the chains of these numbers came back, in this order, and no other.
    pub fn came_back(&self, numbers: &[u32]) -> bool {
        self.returned.len() == numbers.len()
            && self
                .returned
                .iter()
                .zip(numbers.iter())
                .all(|(entry, number)| entry.number == *number)
    }

    /// Whether the device began as many chains, and gave these lengths for them.
    pub fn gave(&self, lens: &[u32]) -> bool {
        self.taken.len() == lens.len()
            && self
                .taken
                .iter()
                .zip(lens.iter())
                .all(|(taken, len)| taken.len == *len)
    }
}

/// Appends a number and a blank.
fn push_number(number: u32, line: &mut String) -> Result<(), AllocError> {
    let mut buffer = Buffer::new();
    line.push_str(buffer.format(number))?;
    line.push_str(" ")
}

/// Appends an attach as `A ring base mode`, a suspension as `S chains base` and a reset as `X`.
fn push_event(event: &Event, line: &mut String) -> Result<(), AllocError> {
    match event {
        Event::Attach {
            ring,
            base: Base(word),
            mode,
            ..
        } => {
            line.push_str("A ")?;
            push_number(*ring, line)?;
            push_number(*word, line)?;
            line.push_str(match mode {
                Mode::Pass => "pass ",
                Mode::Shadow => "shadow ",
            })
        }
        Event::Suspend {
            at,
            base: Base(word),
        } => {
            line.push_str("S ")?;
            push_number(*at, line)?;
            push_number(*word, line)
        }
        Event::Reset { .. } => line.push_str("X "),
    }
}

/// Whether each number below `count` stands among the entries once, each with the length that the journal has for it.
fn are_once(alloc: Global, returned: &[Return], journal: &Journal) -> Result<bool, AllocError> {
    let begun = journal.begun.as_slice();
    let mut seen = Vec::from_elem(alloc, false, begun.len())?;
    for entry in returned {
        let number = entry.number as usize;
        if number >= seen.len()
            || number >= begun.len()
            || seen[number]
            || begun[number].len != entry.len
        {
            return Ok(false);
        }
        seen[number] = true;
    }
    Ok(returned.len() == begun.len())
}

/// What a device gave for a chain, and where the chain lies.
fn take_of(begun: &Begun) -> Taken {
    let pieces = begun.chain.pieces();
    let (first, last) = match pieces {
        [first, .., last] => (first.addr, last.addr),
        [only] => (only.addr, only.addr),
        [] => (0, 0),
    };
    Taken {
        len: begun.len,
        pieces: pieces.len(),
        first,
        last,
    }
}

/// What a guest and a device tell of a play.
fn tell<L: Layout, G: Guest<L>, V: Device<L>>(
    alloc: Global,
    guest: &G,
    device: &V,
) -> Result<Told, AllocError> {
    let journal = device.journal();
    let mut line = String::new(alloc);
    for event in journal.events.as_slice() {
        push_event(event, &mut line)?;
    }
    let mut taken = Vec::new(alloc);
    for begun in journal.begun.as_slice() {
        taken.push(take_of(begun))?;
    }
    Ok(Told {
        journal: line,
        taken,
        offered: guest.offered(),
        returned: Vec::from_slice(alloc, guest.returned())?,
        once: are_once(alloc, guest.returned(), journal)?,
    })
}

/// What the parties of a queue tell.
pub fn tell_of<L: Layout, G: Guest<L>, V: Device<L>>(
    alloc: Global,
    bench: &Bench<G, V>,
    queue: usize,
) -> Result<Told, AllocError> {
    match (bench.guests.get(queue), bench.devices.get(queue)) {
        (Some(guest), Some(device)) => tell::<L, G, V>(alloc, guest, device),
        _ => Err(AllocError),
    }
}

/// What the parties tell of a bench of one guest and one device. Of another bench it tells nothing.
pub fn tell_only<L: Layout, G: Guest<L>, V: Device<L>>(
    alloc: Global,
    bench: &Bench<G, V>,
) -> Result<Told, AllocError> {
    match (bench.guests.as_slice(), bench.devices.as_slice()) {
        ([guest], [device]) => tell::<L, G, V>(alloc, guest, device),
        _ => Err(AllocError),
    }
}
