//! What the two ends of a ring have done. Only proofs read it: it takes no memory, and its methods do nothing at run time.
ghost use Rattle.std.specs.Prelude.{◌≡◌};
ghost use Rattle.std.specs.Borrow.{ftrue};
ghost use Rattle.vd_layout.specs.RingLists.{RingLists, no_lists};

use std::marker::Model;
use vd_model::Chain;
use vd_ring::{DeviceAct, DriverAct};

/// The lists of what was done.
#[derive(Drop)]
pub struct History {
    pub ghost lists: { RingLists },
}

impl Model for History {
    ghost also_owns = { λ _. ftrue };
}

/// What was done next.
#[derive(Copy, Clone, Drop)]
pub enum Note<'a> {
    /// This chain was offered.
    Offered(&'a Chain),
    /// What another answer of the driver's end tells.
    Driver(&'a DriverAct),
    /// What an answer of the device's end tells, whose give had this length.
    Device(&'a DeviceAct, u32),
}

impl History {
    ghost use Rattle.vd_layout.specs.Noted.{noted};

    pub fn new() -> History
        ensures { result.lists ≡ no_lists }
    {
        History {}
    }

    #[inline(always)]
    pub fn then(&self, _note: &Note<'_>) -> History
        ensures { result.lists ≡ noted _note.now self.now.lists }
    {
        History {}
    }
}
