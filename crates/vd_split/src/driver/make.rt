//! A driver's end of a fresh ring.
ghost use Rattle.std.specs.Prelude.{◌≡◌, ◌<◌, ◌≤◌, ◌+◌, length, IfOk, false};
ghost use Rattle.vd_ring.specs.Fresh.{fresh_driver};
ghost use Rattle.vd_ring.specs.History.{upto};
ghost use Rattle.vd_ring.specs.declared.frame.Frame.{Frame};
ghost use Rattle.vd_split_ring.specs.SplitWords.{IsLawful, width};
ghost use Rattle.vd_split.specs.DriverEnd.{IsMadeFor, DriverStands};
ghost use Rattle.vd_split.specs.Parts.{all_words};

use super::{Collected, DriverStep, Slot, SplitDriver};
use crate::descriptors::zero_words;
use crate::layout::all_words;
use crate::pieces::Pieces;
use crate::places::Places;
use circular_buffer::HeapCircularBuffer;
use std::alloc::{AllocError, Global};
use vd_model::Features;

/// The queue of a fresh ring: all places in order.
fn all_places(alloc: Global, size: u32) -> Result<HeapCircularBuffer<u32>, AllocError>
    ensures { IfOk result (λ b. (b.items ≡ upto size) × (b.capacity ≡ size)) }
{
    let mut free = HeapCircularBuffer::with_capacity(alloc, size as usize)?;
    for place in 0..size {
        free.push_back(place);
    }
    Ok(free)
}

/// A slot for each place.
fn empty_slots(alloc: Global, size: u32) -> Result<Vec<Slot>, AllocError>
    ensures { IfOk result (λ s. length s.items ≡ size) }
{
    let mut slots = Vec::with_capacity(alloc, size as usize)?;
    for _ in 0..size {
        slots.push(Slot {
            number: 0,
            places: Places::new(),
        })?;
    }
    Ok(slots)
}

/// The place of the driver's bell, the last word but one.
pub(crate) fn kick_place(size: u32, indirect: bool, control: bool) -> u32
    requires { size ≤ 32768 }
    ensures { result + 2 ≡ all_words size indirect control }
{
    all_words(size, indirect, control) - 2
}

impl SplitDriver {
    /// The driver's end of a fresh ring.
    pub(crate) fn make(
        alloc: Global,
        size: u32,
        features: Features,
        control: bool,
    ) -> Result<SplitDriver, AllocError>
        requires { (0 < size) × (size ≤ 32768) }
        ensures stands { IfOk result (λ e. (f : Frame) → IsMadeFor size features f → f.control ≡ control
            → DriverStands e (fresh_driver f (width f))) }
        ensures idle { IfOk result (λ e. (e.doing ≡ DriverStep.Idle) × (e.size ≡ size) × (e.features ≡ features) × (e.armed ≡ false)) }
    {
        let free = all_places(alloc, size)?;
        let slots = empty_slots(alloc, size)?;
        let area = zero_words(alloc, (size + 6) / 4)?;
        Ok(SplitDriver {
            size,
            features,
            offered: 0,
            collected: 0,
            entry: 0,
            used: 0,
            free,
            slots,
            area,
            shown: false,
            kick: kick_place(size, features.indirect, control),
            armed: false,
            heard: 0,
            bells: 0,
            pieces: Pieces::new(),
            got: Collected {
                number: 0,
                len: 0,
                head: 0,
            },
            doing: DriverStep::Idle,
        })
    }
}
