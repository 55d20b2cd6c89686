//! A device's end of a fresh ring.
ghost use Rattle.std.specs.Prelude.{◌≡◌, ◌<◌, ◌≤◌, IfOk, None, false, replicate, length};
ghost use Rattle.vd_ring.specs.Fresh.{fresh_device};
ghost use Rattle.vd_ring.specs.declared.frame.Frame.{Frame};
ghost use Rattle.vd_packed_ring.specs.PackedWords.{width};
ghost use Rattle.vd_packed.specs.DriverEnd.{IsMadeFor};
ghost use Rattle.vd_packed.specs.DeviceEnd.{DeviceStands};

use super::{DeviceStep, PackedDevice};
use crate::driver::make::kick_place;
use crate::ring_position::first_ring_position;
use arrayvec::ArrayVec;
use std::alloc::{AllocError, Global};
use vd_model::Features;

/// A table in which no chain runs.
fn empty_table(alloc: Global, size: u32) -> Result<Vec<Option<u32>>, AllocError>
    ensures { IfOk result (λ t. t.items ≡ replicate size None) }
{
    Vec::from_elem(alloc, None, size as usize)
}

/// So many zeros.
fn zeros(alloc: Global, count: usize) -> Result<Vec<u32>, AllocError>
    ensures { IfOk result (λ t. t.items ≡ replicate count 0) }
{
    Vec::from_elem(alloc, 0u32, count)
}

impl PackedDevice {
    /// The device's end of a fresh ring.
    pub(crate) fn make(
        alloc: Global,
        size: u32,
        features: Features,
        control: bool,
    ) -> Result<PackedDevice, AllocError>
        requires { (0 < size) × (size ≤ 32768) }
        ensures stands { IfOk result (λ e. (f : Frame) → IsMadeFor size features f → f.control ≡ control
            → DeviceStands e (fresh_device f (width f))) }
        ensures idle { IfOk result (λ e. (e.doing ≡ DeviceStep.Idle) × (e.size ≡ size) × (e.features ≡ features) × (e.taken ≡ 0)
            × (e.given ≡ 0) × (e.armed ≡ false)) }
    {
        let running = empty_table(alloc, size)?;
        let counts = zeros(alloc, size as usize)?;
        // a power of two, so that each low bit of a number counts
        let guesses = zeros(alloc, (size as usize).next_power_of_two())?;
        Ok(PackedDevice {
            size,
            features,
            taken: 0,
            given: 0,
            next: first_ring_position(),
            used: first_ring_position(),
            next_position: 0,
            used_position: 0,
            running,
            counts,
            guesses,
            kick: kick_place(size, features.indirect, control),
            armed: false,
            heard: 0,
            bells: 0,
            pieces: ArrayVec::new(),
            second: 0,
            at: first_ring_position(),
            doing: DeviceStep::Idle,
        })
    }
}
