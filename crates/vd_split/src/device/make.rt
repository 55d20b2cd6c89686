//! A device's end of a fresh ring.
ghost use Rattle.std.specs.Prelude.{◌≡◌, ◌<◌, ◌≤◌, IfOk, None, false, replicate};
ghost use Rattle.vd_ring.specs.Fresh.{fresh_device};
ghost use Rattle.vd_ring.specs.declared.frame.Frame.{Frame};
ghost use Rattle.vd_split_ring.specs.SplitWords.{width};
ghost use Rattle.vd_split.specs.DriverEnd.{IsMadeFor};
ghost use Rattle.vd_split.specs.DeviceEnd.{DeviceStands};

use super::{DeviceStep, SplitDevice};
use crate::descriptors::zero_words;
use crate::driver::kick_place;
use crate::pieces::Pieces;
use std::alloc::{AllocError, Global};
use vd_model::Features;

/// A table in which no chain runs.
fn empty_table(alloc: Global, size: u32) -> Result<Vec<Option<u32>>, AllocError>
    ensures { IfOk result (λ t. t.items ≡ replicate size None) }
{
    Vec::from_elem(alloc, None, size as usize)
}

/// A guess for each number's low bits.
fn no_guesses(alloc: Global, size: u32) -> Result<Vec<u32>, AllocError>
    ensures { IfOk result (λ t. t.items ≡ replicate size 0) }
{
    Vec::from_elem(alloc, 0u32, size as usize)
}

impl SplitDevice {
    /// The device's end of a fresh ring.
    pub(crate) fn make(
        alloc: Global,
        size: u32,
        features: Features,
        control: bool,
    ) -> Result<SplitDevice, AllocError>
        requires { (0 < size) × (size ≤ 32768) }
        ensures stands { IfOk result (λ e. (f : Frame) → IsMadeFor size features f → f.control ≡ control
            → DeviceStands e (fresh_device f (width f))) }
        ensures idle { IfOk result (λ e. (e.doing ≡ DeviceStep.Idle) × (e.size ≡ size) × (e.features ≡ features) × (e.taken ≡ 0)
            × (e.given ≡ 0) × (e.armed ≡ false)) }
    {
        let running = empty_table(alloc, size)?;
        let guesses = no_guesses(alloc, size)?;
        let area = zero_words(alloc, size + 1)?;
        Ok(SplitDevice {
            size,
            features,
            taken: 0,
            given: 0,
            entry: 0,
            used: 0,
            running,
            guesses,
            area,
            shown: false,
            kick: kick_place(size, features.indirect, control),
            armed: false,
            heard: 0,
            bells: 0,
            pieces: Pieces::new(),
            addr: 0,
            doing: DeviceStep::Idle,
        })
    }
}
