//! What a device records beside the chains that it began.
use vd_control::Settings;
use vd_model::{Base, Map, Mode};

/// What happened to a device. `at` is how many chains it had begun before.
#[derive(Drop)]
pub enum Event {
    /// It was attached to a ring.
    Attach {
        at: u32,
        ring: u32,
        base: Base,
        mode: Mode,
        /// Those of the control queue's device, or the default.
        settings: Settings,
        map: Map,
    },
    /// It was suspended, and the ring stood at this base.
    Suspend {
        at: u32,
        base: Base,
    },
    /// It was reset.
    Reset {
        at: u32,
    },
}
