//! The calls as values, and buses to make them on.
use crate::{Bus, BusFault};
use vd_model::Features;
use vd_uapi::{Msg, VringAddr, VringState};

/// A call that may be refused.
#[derive(Copy, Clone)]
pub enum Call {
    Features(u64),
    Status(u8),
    Num(u32, u32),
    Addr(u32, u64),
    Base(u32, u32),
    Enable(u32, u32),
    ToldBase(u32),
    Message(u8, u64, u64, u64),
    Space(u32),
    Suspend,
    Resume,
    Order(u32),
}

fn state(index: u32, num: u32) -> VringState {
    VringState { index, num }
}

pub fn message(kind: u8, iova: u64, size: u64, uaddr: u64) -> Msg {
    Msg {
        asid: 0,
        iova,
        size,
        uaddr,
        perm: 3,
        kind,
    }
}

pub fn addr(index: u32, desc: u64) -> VringAddr {
    VringAddr {
        index,
        flags: 0,
        desc,
        used: 0,
        avail: 0,
        log: 0,
    }
}

/// Why the call is refused, if it is.
pub fn answer(bus: &mut Bus, call: Call) -> Option<BusFault> {
    match call {
        Call::Features(bits) => bus.set_features(bits).err(),
        Call::Status(s) => bus.set_status(s).err(),
        Call::Num(n, num) => bus.set_vring_num(&state(n, num)).err(),
        Call::Addr(n, ring) => bus.set_vring_addr(&addr(n, (ring % 0x1000) << 32)).err(),
        Call::Base(n, num) => bus.set_vring_base(&state(n, num)).err(),
        Call::Enable(n, num) => bus.set_vring_enable(&state(n, num)).err(),
        Call::ToldBase(n) => bus.get_vring_base(n).err(),
        Call::Message(kind, iova, size, uaddr) => {
            bus.iotlb(&message(kind, iova, size, uaddr)).err()
        }
        Call::Space(asid) => {
            let m = Msg {
                asid,
                ..message(4, 0, 1, 0)
            };
            bus.iotlb(&m).err()
        }
        Call::Suspend => bus.suspend().err(),
        Call::Resume => bus.resume().err(),
        Call::Order(n) => match bus.order(n, 1) {
            Ok(_) => None,
            Err(fault) => Some(fault),
        },
    }
}

/// A bus of a split layout with two data queues, a control queue and rings of at most 8 places, which offers EVENT_IDX.
pub fn new() -> Bus {
    let f = Features {
        indirect: false,
        event_idx: true,
        in_order: false,
    };
    Bus::new(false, 8, f, 2, true, 4096, (1 << 20) - 1)
}

/// VERSION_1, ACCESS_PLATFORM and EVENT_IDX.
pub const FEATURES: u64 = (3 << 32) + (1 << 29);

/// The bus after the bring-up, with queue 0 enabled and one mapping.
pub fn running() -> Bus {
    let mut bus = new();
    let _ = answer(&mut bus, Call::Status(1));
    let _ = answer(&mut bus, Call::Status(3));
    let _ = answer(&mut bus, Call::Features(FEATURES));
    let _ = answer(&mut bus, Call::Status(11));
    for n in [0, 1, 15] {
        let _ = answer(&mut bus, Call::Num(n, 4));
        let _ = answer(&mut bus, Call::Addr(n, n as u64 + 16));
    }
    let _ = answer(&mut bus, Call::Message(2, 4096, 8192, 65536));
    let _ = answer(&mut bus, Call::Base(0, 7));
    let _ = answer(&mut bus, Call::Status(15));
    let _ = answer(&mut bus, Call::Enable(0, 1));
    bus
}

pub fn suspended() -> Bus {
    let mut bus = running();
    let _ = bus.suspend();
    bus
}
