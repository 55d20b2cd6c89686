//! Which ring a queue's device serves, and where it lies.
ghost use Rattle.std.specs.Prelude.{◌≡◌, ◌<◌, ◌^◌};
ghost use Rattle.vd_play.specs.Journal.{ring_in};
ghost use Rattle.vd_play.specs.Setup.{ring_addr};

use vd_model::Mode;
use vd_uapi::VringAddr;

/// The number of the ring that a queue's device serves in an epoch: the queue's, or that of the epoch's shadow ring.
pub(crate) fn ring_in(mode: Mode, epoch: u32, queue: u32) -> u32
    requires few { epoch < 2 ^ 16 }
    requires low { queue < 2 ^ 16 }
    ensures value { result ≡ ring_in mode epoch queue }
    ensures low { result < 2 ^ 31 }
{
    match mode {
        Mode::Pass => queue,
        Mode::Shadow => 16 * (epoch + 1) + queue,
    }
}

/// Where a ring lies that a queue has: ring r at r * 2^32, its areas in a row.
pub(crate) fn ring_addr(packed: bool, size: u32, queue: u32, ring: u32) -> VringAddr
    requires small { size < 2 ^ 16 }
    requires low { ring < 2 ^ 31 }
    ensures { result ≡ ring_addr packed size queue ring }
{
    let words = size as u64;
    let at = ring as u64 * (1 << 32);
    let device_area = if packed {
        2 * words + 1
    } else {
        2 * words + (words + 6) / 4
    };
    VringAddr {
        index: queue,
        flags: 0,
        desc: at,
        used: at + 8 * device_area,
        avail: at + 8 * (2 * words),
        log: 0,
    }
}
