//! Whole operations by their names, with what they answer: a test is a table of them.
use vd_layout::{BadBase, DeviceAct, DriverAct, Layout, PlainRing};
use vd_model::{Base, Chain};

/// A whole operation of an end, or a question to it.
#[derive(Copy, Clone, Debug)]
pub enum Operation {
    Offer,
    Collect,
    ArmDriver,
    HearDriver,
    DisarmDriver,
    Take,
    Give(u32),
    ArmDevice,
    HearDevice,
    DisarmDevice,
    Rest,
    Base,
    Resume(u32),
}

/// What it answered: `Refused` where it wasn't possible. `Collected` has the number, the length and the head. `Kept` has the base that a
/// ring keeps where it is resumed by another one.
#[derive(Copy, Clone, Debug, PartialEq, Eq)]
pub enum Answer {
    Refused,
    Moved,
    Offered(u32),
    Collected(u32, u32, u32),
    Taken(u32),
    OtherChain,
    Given(u32),
    Nothing,
    Armed,
    Awake,
    Asleep,
    Rested,
    Base(u32),
    Kept(u32),
    OtherBase,
    Resumed,
}

/// What the driver's end answered.
fn of_driver(act: Option<DriverAct>) -> Answer {
    match act {
        None => Answer::Refused,
        Some(DriverAct::Moved) => Answer::Moved,
        Some(DriverAct::Offered(number)) => Answer::Offered(number),
        Some(DriverAct::Collected { number, len, head }) => Answer::Collected(number, len, head),
        Some(DriverAct::Nothing) => Answer::Nothing,
        Some(DriverAct::Armed) => Answer::Armed,
        Some(DriverAct::Awake) => Answer::Awake,
        Some(DriverAct::Asleep) => Answer::Asleep,
    }
}

/// What the device's end answered. A chain that it took is the one offered.
fn of_device(act: Option<DeviceAct>, offered: &Chain) -> Answer {
    match act {
        None => Answer::Refused,
        Some(DeviceAct::Moved) => Answer::Moved,
        Some(DeviceAct::Taken(number, c)) => {
            if c.pieces() == offered.pieces() {
                Answer::Taken(number)
            } else {
                Answer::OtherChain
            }
        }
        Some(DeviceAct::Given(number)) => Answer::Given(number),
        Some(DeviceAct::Nothing) => Answer::Nothing,
        Some(DeviceAct::Armed) => Answer::Armed,
        Some(DeviceAct::Awake) => Answer::Awake,
        Some(DeviceAct::Asleep) => Answer::Asleep,
        Some(DeviceAct::Rested) => Answer::Rested,
    }
}

/// What a resuming answered.
fn of_resume(answer: Option<Result<(), BadBase>>, given: Base) -> Answer {
    match answer {
        None => Answer::Refused,
        Some(Ok(())) => Answer::Resumed,
        Some(Err(bad)) if bad.given == given => Answer::Kept(bad.kept.0),
        Some(Err(_)) => Answer::OtherBase,
    }
}

/// Makes an operation. An offer is of this chain, and a give writes 10 bytes.
pub fn answer_of<L: Layout>(ring: &mut PlainRing<L>, c: &Chain, operation: Operation) -> Answer {
    match operation {
        Operation::Offer => of_driver(ring.offer(c)),
        Operation::Collect => of_driver(ring.collect()),
        Operation::ArmDriver => of_driver(ring.arm_driver()),
        Operation::HearDriver => of_driver(ring.hear_driver()),
        Operation::DisarmDriver => of_driver(ring.disarm_driver()),
        Operation::Take => of_device(ring.take(), c),
        Operation::Give(number) => of_device(ring.give(number, 10), c),
        Operation::ArmDevice => of_device(ring.arm_device(), c),
        Operation::HearDevice => of_device(ring.hear_device(), c),
        Operation::DisarmDevice => of_device(ring.disarm_device(), c),
        Operation::Rest => of_device(ring.rest(), c),
        Operation::Base => match ring.base() {
            None => Answer::Refused,
            Some(base) => Answer::Base(base.0),
        },
        Operation::Resume(base) => of_resume(ring.resume(Base(base)), Base(base)),
    }
}

/// The first row of a table whose operation answers otherwise.
pub fn first_other<L: Layout>(
    ring: &mut PlainRing<L>,
    c: &Chain,
    rows: &[(Operation, Answer)],
) -> Option<usize> {
    for (i, row) in rows.iter().enumerate() {
        if answer_of(ring, c, row.0) != row.1 {
            return Some(i);
        }
    }
    None
}

/// The words by which the driver and the device say when they want a signal, on a ring of 4 places with EVENT_IDX or without, and the
/// bells that they stored.
pub fn signals<L: Layout>(ring: &PlainRing<L>, event_idx: bool) -> (u64, u64, u64, u64) {
    let bells = (ring.word(15), ring.word(16));
    if event_idx {
        (ring.word(9) >> 32, ring.word(14) >> 32, bells.0, bells.1)
    } else {
        (
            ring.word(8) & 0xffff,
            ring.word(10) & 0xffff,
            bells.0,
            bells.1,
        )
    }
}

/// The first row of a table whose operation answers otherwise, or after which other words stand.
pub fn first_other_signal<L: Layout>(
    ring: &mut PlainRing<L>,
    c: &Chain,
    event_idx: bool,
    rows: &[(Operation, Answer, (u64, u64, u64, u64))],
) -> Option<usize> {
    for (i, row) in rows.iter().enumerate() {
        if answer_of(ring, c, row.0) != row.1 {
            return Some(i);
        }
        if signals(ring, event_idx) != row.2 {
            return Some(i);
        }
    }
    None
}
