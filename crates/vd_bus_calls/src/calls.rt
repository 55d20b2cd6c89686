//! A line of the input as a call, and its answer as a line.
use crate::buses::bus_of;
use std::alloc::{AllocError, Global};
use vd_bus::{Bus, BusFault, Order};
use vd_model::Mode;
use vd_uapi::{Msg, VringAddr, VringState};

/// A number of a line as one of 32 bits, or the greatest.
fn small(number: u64) -> u32 {
    u32::try_from(number).unwrap_or(u32::MAX)
}

/// A number of a line as one of 8 bits, or the greatest.
fn byte(number: u64) -> u8 {
    u8::try_from(number).unwrap_or(u8::MAX)
}

/// The numbers behind the name in a line; 0 where there is none.
fn numbers(line: &str) -> [u64; 5] {
    let mut numbers = [0; 5];
    for (i, word) in line.split_whitespace().enumerate() {
        if 0 < i && i < 6 {
            numbers[i - 1] = word.parse().unwrap_or(0);
        }
    }
    numbers
}

/// The answer to the call that a line names.
pub fn answer(alloc: Global, bus: &mut Bus, line: &str) -> Result<String, AllocError> {
    let name = line.split_whitespace().next().unwrap_or("");
    let [a, b, c, d, e] = numbers(line);
    let state = VringState {
        index: small(a),
        num: small(b),
    };
    let outcome = match name {
        "new" => {
            *bus = bus_of(a);
            Ok(())
        }
        "features" => bus.set_features(a),
        "status" => bus.set_status(byte(a)),
        "num" => bus.set_vring_num(&state),
        "addr" => bus.set_vring_addr(&addr(small(a), b)),
        "base" => bus.set_vring_base(&state),
        "enable" => bus.set_vring_enable(&state),
        "message" => bus.iotlb(&Msg {
            asid: small(a),
            iova: c,
            size: d,
            uaddr: e,
            perm: 3,
            kind: byte(b),
        }),
        "suspend" => bus.suspend(),
        "resume" => bus.resume(),
        "told" => return told(alloc, bus.get_vring_base(small(a))),
        "order" => return ordered(alloc, bus.order(small(a), small(b))),
        _ => return state_of(alloc, bus),
    };
    match outcome {
        Ok(()) => format!(in alloc; "ok"),
        Err(fault) => format!(in alloc; "{fault:?}"),
    }
}

fn addr(index: u32, desc: u64) -> VringAddr {
    VringAddr {
        index,
        flags: 0,
        desc,
        used: 0,
        avail: 0,
        log: 0,
    }
}

fn told(alloc: Global, outcome: Result<VringState, BusFault>) -> Result<String, AllocError> {
    match outcome {
        Ok(state) => format!(in alloc; "ok {} {}", state.index, state.num),
        Err(fault) => format!(in alloc; "{fault:?}"),
    }
}

fn ordered(alloc: Global, outcome: Result<Order, BusFault>) -> Result<String, AllocError> {
    match outcome {
        Ok(order) => spelled(alloc, &order),
        Err(fault) => format!(in alloc; "{fault:?}"),
    }
}

fn spelled(alloc: Global, order: &Order) -> Result<String, AllocError> {
    let mode = match order.mode() {
        Mode::Pass => "pass",
        Mode::Shadow => "shadow",
    };
    let f = order.features();
    let (queue, ring, base) = (order.queue(), order.ring(), order.base().0);
    let (count, size) = (order.count(), order.size());
    let mut text = format!(in alloc; "ok {queue} {ring} {base} {mode} {count} {size}")?;
    let bits = [f.indirect, f.event_idx, f.in_order];
    for bit in bits {
        text.push(if bit { '1' } else { '0' })?;
    }
    for m in order.map().mappings() {
        let part = format!(in alloc; " {}+{}={}", m.iova, m.size, m.guest)?;
        text.push_str(part.as_str())?;
    }
    Ok(text)
}

/// What can always be asked.
fn state_of(alloc: Global, bus: &Bus) -> Result<String, AllocError> {
    let (first, last) = bus.get_iova_range();
    let (status, features) = (bus.get_status(), bus.get_features());
    format!(in alloc; "{status} {features} {first} {last}")
}
