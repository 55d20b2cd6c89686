//! Whole operations of a ring, each made of its format too: whether both answer alike.
use crate::expected::Expected;
use crate::format::{Format, Side};
use vd_layout::{BadBase, DeviceAct, DriverAct, Layout, PlainRing};
use vd_model::Base;

pub fn offer<L: Layout, F: Format>(ring: &mut PlainRing<L>, format: &mut Expected<F>) -> bool {
    let k = format.offered;
    let may = format.room() && !format.armed().0;
    match ring.offer(&format.drawn(k).chain()) {
        Some(answer) => {
            format.offer();
            may && answer == DriverAct::Offered(k)
        }
        None => !may,
    }
}

pub fn take<L: Layout, F: Format>(ring: &mut PlainRing<L>, format: &mut Expected<F>) -> bool {
    let k = format.taken;
    let shown = k != format.offered;
    match ring.take() {
        Some(DeviceAct::Taken(number, c)) => {
            format.take();
            shown && number == k && format.drawn(k).is(&c)
        }
        Some(DeviceAct::Nothing) => !shown,
        Some(_) => false,
        None => format.armed().1,
    }
}

/// The `j`th of the chains that run is given, or the first one where fewer run.
pub fn give<L: Layout, F: Format>(
    ring: &mut PlainRing<L>,
    format: &mut Expected<F>,
    j: u32,
    len: u32,
) -> bool {
    if format.runs() == 0 {
        return true;
    }
    let i = if j < format.runs() { j } else { 0 };
    let k = format.running(i);
    match ring.give(k, len) {
        Some(DeviceAct::Given(number)) => {
            format.give(i, len);
            number == k
        }
        Some(_) => false,
        None => format.armed().1,
    }
}

pub fn collect<L: Layout, F: Format>(ring: &mut PlainRing<L>, format: &mut Expected<F>) -> bool {
    let shown = format.collected != format.given;
    match ring.collect() {
        Some(DriverAct::Collected { number, len, head }) => {
            shown && format.collect() == (number, len, head)
        }
        Some(DriverAct::Nothing) => !shown,
        Some(_) => false,
        None => format.armed().0,
    }
}

/// A ring that rests keeps its base, refuses another one, and is resumed.
fn resume<L: Layout>(ring: &mut PlainRing<L>, kept: Base) -> bool {
    let other = Base(kept.0 ^ 1);
    ring.base() == Some(kept)
        && ring.resume(other) == Some(Err(BadBase { kept, given: other }))
        && ring.resume(kept) == Some(Ok(()))
}

/// It rests where the chains given are those with a number below their count.
pub fn rest<L: Layout, F: Format>(ring: &mut PlainRing<L>, format: &mut Expected<F>) -> bool {
    if !format.whole() {
        return ring.rest().is_none();
    }
    if !matches!(ring.rest(), Some(DeviceAct::Rested)) {
        return false;
    }
    format.rest();
    resume(ring, Base(format.format.base()))
}

/// The driver arms where it isn't armed; else it hears the bell, or is disarmed.
pub fn sleep_driver<L: Layout, F: Format>(
    ring: &mut PlainRing<L>,
    format: &mut Expected<F>,
    disarms: bool,
) -> bool {
    let (told, expected) = if !format.armed().0 {
        let armed = format.arm(Side::Driver);
        let expected = if armed {
            DriverAct::Armed
        } else {
            DriverAct::Awake
        };
        (ring.arm_driver(), expected)
    } else if disarms {
        format.disarm(Side::Driver);
        (ring.disarm_driver(), DriverAct::Awake)
    } else {
        let woken = format.hear(Side::Driver);
        let expected = if woken {
            DriverAct::Awake
        } else {
            DriverAct::Asleep
        };
        (ring.hear_driver(), expected)
    };
    told == Some(expected)
}

/// The device does.
pub fn sleep_device<L: Layout, F: Format>(
    ring: &mut PlainRing<L>,
    format: &mut Expected<F>,
    disarms: bool,
) -> bool {
    if !format.armed().1 {
        return if format.arm(Side::Device) {
            matches!(ring.arm_device(), Some(DeviceAct::Armed))
        } else {
            matches!(ring.arm_device(), Some(DeviceAct::Awake))
        };
    }
    if disarms {
        format.disarm(Side::Device);
        return matches!(ring.disarm_device(), Some(DeviceAct::Awake));
    }
    if format.hear(Side::Device) {
        matches!(ring.hear_device(), Some(DeviceAct::Awake))
    } else {
        matches!(ring.hear_device(), Some(DeviceAct::Asleep))
    }
}

/// Whether words, rests and sleepers of the ring are as the format has them.
pub fn agree<L: Layout, F: Format>(ring: &PlainRing<L>, format: &Expected<F>) -> bool {
    for i in 0..format.words() {
        if ring.word(i) != format.word(i) {
            return false;
        }
    }
    ring.whole() == format.whole() && ring.armed() == format.armed()
}
