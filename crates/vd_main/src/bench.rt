//! The parties with which the program plays.
ghost use Rattle.std.specs.Prelude.{◌≡◌, IfOk, length};
ghost use Rattle.vd_play.specs.Prepared.{IsEmptyBench};

use std::alloc::{AllocError, Global};
use vd_bus::{Device, Guest};
use vd_layout::Layout;
use vd_models::{ModelDevice, ModelGuest};
use vd_runner::Bench;

/// As many guests and devices as a machine may have queues: eight data queues, and the control queue.
const MOST: u32 = 9;

/// Model guests and model devices, one of each for every queue that a machine may have.
pub fn model_bench<L: Layout>(
    alloc: Global,
) -> Result<Bench<ModelGuest<L>, ModelDevice<L>>, AllocError>
    ensures empty { IfOk result (λ b. IsEmptyBench ⟦<ModelGuest<L> as Guest<L>>⟧.party ⟦<ModelDevice<L> as Device<L>>⟧.party b) }
    ensures many { IfOk result (λ b. (length b.guests.items ≡ MOST) × (length b.devices.items ≡ MOST)) }
{
    let mut guests = Vec::new(alloc);
    let mut devices = Vec::new(alloc);
    for made in 0..MOST {
        guests.push(ModelGuest::new(alloc))?;
        devices.push(ModelDevice::new(alloc, 1))?;
    }
    Ok(Bench { guests, devices })
}
