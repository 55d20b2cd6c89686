//! Whole operations of a ring as rows of a table: a call, and what is told.
use std::test::*;
use vd_layout::{DeviceAct, DriverAct, Layout, PlainRing};
use vd_model::{Base, Chain, Piece};

pub const IN: Piece = Piece {
    addr: 4096,
    len: 10,
    write: false,
};

pub const OUT: Piece = Piece {
    addr: 8192,
    len: 64,
    write: true,
};

/// A call of a ring.
#[derive(Copy, Clone)]
pub enum Call {
    /// A chain of IN.
    Offer,
    /// A chain of IN and OUT.
    OfferTwo,
    Collect,
    ArmDriver,
    HearDriver,
    DisarmDriver,
    Take,
    Give(u32, u32),
    ArmDevice,
    HearDevice,
    DisarmDevice,
    Rest,
    Base,
    Resume(u32),
    Word(u32),
    Holds(u32),
    Whole,
}

/// What a call tells.
#[derive(Copy, Clone, PartialEq, Eq)]
pub enum Told {
    /// It isn't possible.
    Not,
    Driver(DriverAct),
    Taken(u32),
    Given(u32),
    Nothing,
    Armed,
    Awake,
    Asleep,
    Rested,
    Moved,
    Word(u64),
    Yes,
    No,
}

fn driver_told(answer: Option<DriverAct>) -> Told {
    match answer {
        Some(act) => Told::Driver(act),
        None => Told::Not,
    }
}

fn device_told(answer: Option<DeviceAct>) -> Told {
    match answer {
        Some(DeviceAct::Taken(k, _)) => Told::Taken(k),
        Some(DeviceAct::Given(k)) => Told::Given(k),
        Some(DeviceAct::Nothing) => Told::Nothing,
        Some(DeviceAct::Armed) => Told::Armed,
        Some(DeviceAct::Awake) => Told::Awake,
        Some(DeviceAct::Asleep) => Told::Asleep,
        Some(DeviceAct::Rested) => Told::Rested,
        Some(DeviceAct::Moved) => Told::Moved,
        None => Told::Not,
    }
}

/// The chain of IN and OUT.
pub fn two() -> Chain {
    let mut chain = Chain::new(IN);
    let _ = chain.push(OUT);
    chain
}

fn truth(yes: bool) -> Told {
    if yes { Told::Yes } else { Told::No }
}

fn driver_called<L: Layout>(ring: &mut PlainRing<L>, call: Call) -> Told {
    driver_told(match call {
        Call::Offer => ring.offer(&Chain::new(IN)),
        Call::OfferTwo => ring.offer(&two()),
        Call::Collect => ring.collect(),
        Call::ArmDriver => ring.arm_driver(),
        Call::HearDriver => ring.hear_driver(),
        _ => ring.disarm_driver(),
    })
}

fn device_called<L: Layout>(ring: &mut PlainRing<L>, call: Call) -> Told {
    device_told(match call {
        Call::Take => ring.take(),
        Call::Give(k, len) => ring.give(k, len),
        Call::ArmDevice => ring.arm_device(),
        Call::HearDevice => ring.hear_device(),
        Call::DisarmDevice => ring.disarm_device(),
        _ => ring.rest(),
    })
}

fn asked<L: Layout>(ring: &mut PlainRing<L>, call: Call) -> Told {
    match call {
        Call::Base => match ring.base() {
            Some(base) => Told::Word(base.0 as u64),
            None => Told::Not,
        },
        Call::Resume(base) => match ring.resume(Base(base)) {
            Some(Ok(())) => Told::Yes,
            Some(Err(bad)) => Told::Word(bad.kept.0 as u64),
            None => Told::Not,
        },
        Call::Word(place) => Told::Word(ring.word(place)),
        Call::Holds(k) => truth(ring.holds(k)),
        _ => truth(ring.whole()),
    }
}

/// Makes the call.
fn called<L: Layout>(ring: &mut PlainRing<L>, call: Call) -> Told {
    match call {
        Call::Offer
        | Call::OfferTwo
        | Call::Collect
        | Call::ArmDriver
        | Call::HearDriver
        | Call::DisarmDriver => driver_called(ring, call),
        Call::Base | Call::Resume(_) | Call::Word(_) | Call::Holds(_) | Call::Whole => {
            asked(ring, call)
        }
        _ => device_called(ring, call),
    }
}

/// How many of the rows, from the first on, are as the ring tells them.
pub fn as_told<L: Layout>(ring: &mut PlainRing<L>, rows: &[(Call, Told)]) -> usize {
    let mut count = 0usize;
    for (call, told) in rows {
        if called(ring, *call) != *told {
            return count;
        }
        count = count.wrapping_add(1);
    }
    count
}

/// Whether the words from the first on are these.
pub fn words_are<L: Layout>(ring: &PlainRing<L>, expected: &[u64]) -> bool {
    let mut place = 0u32;
    for word in expected {
        if ring.word(place) != *word {
            return false;
        }
        place = place.wrapping_add(1);
    }
    true
}
