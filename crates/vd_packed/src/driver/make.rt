//! A driver's end of a fresh ring.
ghost use Rattle.std.specs.Prelude.{◌≡◌, ◌<◌, ◌≤◌, ◌+◌, length, IfOk, false};
ghost use Rattle.vd_ring.specs.Fresh.{fresh_driver};
ghost use Rattle.vd_ring.specs.declared.frame.Frame.{Frame};
ghost use Rattle.vd_packed_ring.specs.PackedWords.{width};
ghost use Rattle.vd_packed.specs.DriverEnd.{IsMadeFor, DriverStands};
ghost use Rattle.vd_packed.specs.RingPositions.{all_words};

use super::ids::all_ids;
use super::{DriverStep, PackedDriver, Slot};
use crate::layout::all_words;
use crate::ring_position::first_ring_position;
use arrayvec::ArrayVec;
use std::alloc::{AllocError, Global};
use vd_model::Features;

/// A slot for each id.
fn empty_slots(alloc: Global, size: u32) -> Result<Vec<Slot>, AllocError>
    ensures { IfOk result (λ s. length s.items ≡ size) }
{
    let empty = Slot {
        number: 0,
        count: 0,
    };
    Vec::from_elem(alloc, empty, size as usize)
}

/// The place of the driver's bell, the last word but one.
pub(crate) fn kick_place(size: u32, indirect: bool, control: bool) -> u32
    requires { size ≤ 32768 }
    ensures { result + 2 ≡ all_words size indirect control }
{
    all_words(size, indirect, control) - 2
}

impl PackedDriver {
    /// The driver's end of a fresh ring.
    pub(crate) fn make(
        alloc: Global,
        size: u32,
        features: Features,
        control: bool,
    ) -> Result<PackedDriver, AllocError>
        requires { (0 < size) × (size ≤ 32768) }
        ensures stands { IfOk result (λ e. (f : Frame) → IsMadeFor size features f → f.control ≡ control
            → DriverStands e (fresh_driver f (width f))) }
        ensures idle { IfOk result (λ e. (e.doing ≡ DriverStep.Idle) × (e.size ≡ size) × (e.features ≡ features) × (e.armed ≡ false)) }
    {
        let free = all_ids(alloc, size)?;
        let slots = empty_slots(alloc, size)?;
        Ok(PackedDriver {
            size,
            features,
            offered: 0,
            collected: 0,
            next: first_ring_position(),
            used: first_ring_position(),
            next_position: 0,
            used_position: 0,
            space: size,
            free,
            slots,
            kick: kick_place(size, features.indirect, control),
            armed: false,
            heard: 0,
            bells: 0,
            pieces: ArrayVec::new(),
            at: first_ring_position(),
            doing: DriverStep::Idle,
        })
    }
}
