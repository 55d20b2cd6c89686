//! The bus: by its calls a driver sets up a device and its rings (VIRTIO 1.2, 3.1; vhost.h of the kernel).
ghost use Rattle.std.specs.Prelude.{◌≡◌, ◌<◌, length, IfOk};
ghost use Rattle.std.specs.Result.{result_err};
ghost use Rattle.vd_bus.specs.Bus.{CanBe, new_bus, place_of};
ghost use Rattle.vd_bus.specs.BusRings.{queue_fault};

mod features;
mod message;
mod rings;
mod running;
mod status;
mod vring;

use crate::fault::BusFault;
use arrayvec::ArrayVec;
use std::marker::Model;
use vd_model::{Features, Map};
pub use vring::Vring;
use vring::fresh_base;

/// The number of the control queue.
const CONTROL: u32 = 15;

/// What a driver has set up: the features, the status, the queues' rings and the map. Contracts see it as one record, in which
/// the data queues stand by number and the control queue after them. No call takes memory, and a refused call changes nothing.
#[derive(Drop)]
pub struct Bus {
    packed: bool,
    size_max: u32,
    offered: Features,
    queues: u32,
    control: bool,
    first: u64,
    last: u64,
    status: u8,
    accepted: Option<u64>,
    suspended: bool,
    vrings: ArrayVec<Vring, 9>,
    map: Map,
}

impl Model for Bus {
    ghost use Rattle.std.specs.Prelude.{◌≡◌, length};
    ghost use Rattle.vd_bus.specs.Bus.{BusState, CanBe, queue_count};

    ghost Value = { BusState };

    ghost view = { λ b. record {
      packed = b.packed;
      size_max = b.size_max;
      offered = b.offered;
      queues = b.queues;
      control = b.control;
      first = b.first;
      last = b.last;
      status = b.status;
      accepted = b.accepted;
      suspended = b.suspended;
      vrings = b.vrings.items;
      map = b.map;
    } };

    ghost invariant = { λ b. CanBe b.packed b.size_max b.queues b.first b.last
        × (length b.vrings.items ≡ queue_count b.queues b.control) };
}

impl Bus {
    /// The bus of a device with so many data queues, whose rings have at most `size_max` places and these features, and which
    /// finds memory at the iovas from `first` to `last`.
    pub fn new(
        packed: bool,
        size_max: u32,
        f: Features,
        queues: u32,
        control: bool,
        first: u64,
        last: u64,
    ) -> Bus
        requires { CanBe packed size_max queues first last }
        ensures { result ≡ new_bus packed size_max f queues control first last }
    {
        let fresh = Vring {
            num: 0,
            addr: None,
            base: fresh_base(packed),
            enabled: false,
        };
        let count = if control { queues + 1 } else { queues };
        let mut vrings = ArrayVec::new();
        for _ in 0..count {
            vrings.push(fresh);
        }
        Bus {
            packed,
            size_max,
            offered: f,
            queues,
            control,
            first,
            last,
            status: 0,
            accepted: None,
            suspended: false,
            vrings,
            map: Map::new(),
        }
    }

    /// The first and the last iova (`VHOST_VDPA_GET_IOVA_RANGE`).
    pub fn get_iova_range(&self) -> (u64, u64)
        ensures { (result.0 ≡ self.now.first) × (result.1 ≡ self.now.last) }
    {
        (self.first, self.last)
    }

    /// Where a queue stands among the bus's; refused where there is none of this number.
    fn find(&self, n: u32) -> Result<usize, BusFault>
        ensures fault { result_err result ≡ queue_fault self.now n }
        ensures place { IfOk result (λ p. p ≡ place_of self.now n) }
        ensures inside { IfOk result (λ p. p < length self.now.vrings) }
    {
        if n < self.queues {
            Ok(n as usize)
        } else if n == CONTROL && self.control {
            Ok(self.queues as usize)
        } else {
            Err(BusFault::NoSuchQueue(n))
        }
    }
}
