//! A ring in a program of one's own.
ghost use Rattle.std.specs.Prelude.{◌≡◌, IfSome, IfOk};
ghost use Rattle.vd_layout.specs.Layout.{CanMake};

use std::alloc::{AllocError, Global};
use vd_layout::{DeviceAct, DriverAct, Layout, PlainRing};
use vd_model::{Chain, Features};

/// Offers a chain on the ring, all of whose used entries were collected, takes the next chain that lies there, gives it with this length
/// in bytes, and collects it: the length that came back. None where a step isn't possible.
pub fn echo<L: Layout>(ring: &mut PlainRing<L>, chain: &Chain, len: u32) -> Option<u32>
    requires { ring.old.lists.collected ≡ ring.old.lists.given }
    ensures { IfSome result (λ back. back ≡ len) }
{
    ring.offer(chain)?;
    let Some(DeviceAct::Taken(number, _)) = ring.take() else {
        return None;
    };
    ring.give(number, len)?;
    let Some(DriverAct::Collected { len: back, .. }) = ring.collect() else {
        return None;
    };
    Some(back)
}

/// The same on a fresh ring, on which no other chain lies.
pub fn fresh_echo<L: Layout>(
    alloc: Global,
    size: u32,
    f: Features,
    chain: &Chain,
    len: u32,
) -> Result<Option<u32>, AllocError>
    requires { CanMake L.layout size f }
    ensures { IfOk result (λ back. IfSome back (λ n. n ≡ len)) }
{
    let mut ring = PlainRing::<L>::make(alloc, 0, size, f)?;
    Ok(echo::<L>(&mut ring, chain, len))
}
