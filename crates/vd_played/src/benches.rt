//! The benches of the tests.
ghost use Rattle.std.specs.Prelude.{IfOk};
ghost use Rattle.vd_models.specs.Unused.{IsWindow};
ghost use Rattle.vd_play.specs.Prepared.{IsEmptyBench, IsEmptyDevice, IsEmptyGuest};

use std::alloc::{AllocError, Global};
use vd_bus::{Device, Guest};
use vd_layout::Layout;
use vd_models::{FaultyDevice, ModelDevice, ModelGuest};
use vd_runner::Bench;

/// The parties of a bench.
#[derive(Copy, Clone)]
pub enum Parties {
    None,
    /// A guest and a device.
    Models,
    /// A guest that takes turns, and a device that holds one chain at a time.
    Others,
}

/// A bench for these parties, without any.
fn empty<L: Layout, G: Guest<L>, V: Device<L>>(alloc: Global) -> Bench<G, V>
    ensures { IsEmptyBench G.party V.party result }
{
    Bench {
        guests: Vec::new(alloc),
        devices: Vec::new(alloc),
    }
}

/// A bench without parties.
pub fn no_parties<L: Layout>(alloc: Global) -> Bench<ModelGuest<L>, ModelDevice<L>>
    ensures { IsEmptyBench ⟦<ModelGuest<L> as Guest<L>>⟧.party ⟦<ModelDevice<L> as Device<L>>⟧.party result }
{
    empty::<L, ModelGuest<L>, ModelDevice<L>>(alloc)
}

/// A bench with a guest and a device more.
pub fn with_more<L: Layout, G: Guest<L>, V: Device<L>>(
    bench: Bench<G, V>,
    guest: G,
    device: V,
) -> Result<Bench<G, V>, AllocError>
    requires bench { IsEmptyBench G.party V.party bench }
    requires unloaded { IsEmptyGuest G.party guest }
    requires empty { IsEmptyDevice V.party device }
    ensures { IfOk result (λ b. IsEmptyBench G.party V.party b) }
{
    let Bench {
        mut guests,
        mut devices,
    } = bench;
    guests.push(guest)?;
    devices.push(device)?;
    Ok(Bench { guests, devices })
}

/// A bench of these model parties.
pub fn models<L: Layout>(
    alloc: Global,
    parties: Parties,
) -> Result<Bench<ModelGuest<L>, ModelDevice<L>>, AllocError>
    ensures { IfOk result (λ b. IsEmptyBench ⟦<ModelGuest<L> as Guest<L>>⟧.party ⟦<ModelDevice<L> as Device<L>>⟧.party b) }
{
    let bench = no_parties::<L>(alloc);
    match parties {
        Parties::None => Ok(bench),
        Parties::Models => with_more::<L, _, _>(
            bench,
            ModelGuest::new(alloc),
            ModelDevice::new(alloc, 1),
        ),
        Parties::Others => with_more::<L, _, _>(
            bench,
            ModelGuest::in_turns(alloc),
            ModelDevice::single(alloc, 1),
        ),
    }
}

/// A bench with two model guests and two model devices more.
pub fn two_more<L: Layout>(
    alloc: Global,
    bench: Bench<ModelGuest<L>, ModelDevice<L>>,
) -> Result<Bench<ModelGuest<L>, ModelDevice<L>>, AllocError>
    requires { IsEmptyBench ⟦<ModelGuest<L> as Guest<L>>⟧.party ⟦<ModelDevice<L> as Device<L>>⟧.party bench }
    ensures { IfOk result (λ b. IsEmptyBench ⟦<ModelGuest<L> as Guest<L>>⟧.party ⟦<ModelDevice<L> as Device<L>>⟧.party b) }
{
    let more = with_more::<L, _, _>(bench, ModelGuest::new(alloc), ModelDevice::new(alloc, 1))?;
    with_more::<L, _, _>(more, ModelGuest::new(alloc), ModelDevice::new(alloc, 1))
}

/// A bench of a guest and a device that refuses its attach of this number, counted from 1, and of number 0 none.
pub fn faulty<L: Layout>(
    alloc: Global,
    window: u32,
    fails: u32,
) -> Result<Bench<ModelGuest<L>, FaultyDevice<L>>, AllocError>
    requires { IsWindow window }
    ensures { IfOk result (λ b. IsEmptyBench ⟦<ModelGuest<L> as Guest<L>>⟧.party ⟦<FaultyDevice<L> as Device<L>>⟧.party b) }
{
    let bench = empty::<L, ModelGuest<L>, FaultyDevice<L>>(alloc);
    let device = FaultyDevice::new(ModelDevice::new(alloc, window), fails);
    with_more::<L, _, _>(bench, ModelGuest::new(alloc), device)
}
