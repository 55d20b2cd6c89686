//! The buses on which calls are made.
use vd_bus::Bus;
use vd_model::Features;

fn features(indirect: bool, event_idx: bool, in_order: bool) -> Features {
    Features {
        indirect,
        event_idx,
        in_order,
    }
}

/// The bus of this number, of which there are four.
pub fn bus_of(number: u64) -> Bus {
    let most = (1 << 63) - 1;
    match number {
        0 => Bus::new(false, 8, features(false, false, false), 1, false, 0, most),
        1 => Bus::new(true, 7, features(true, true, true), 2, true, 4096, 65535),
        2 => Bus::new(false, 1024, features(true, false, true), 8, true, 1, 99),
        _ => Bus::new(true, 1024, features(false, true, false), 3, false, 0, most),
    }
}
