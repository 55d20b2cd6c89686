//! When a party sleeps, counted by steps, in both layouts and under both rules. The counts are sums of the accesses that each
//! operation makes: a split offer of two pieces makes seven and its bell, a take six, a give four and its bell. The device hears
//! at once that the guest rang before it armed, and arms again.
ghost use Rattle.vd_layout.specs.Layout.{CanMake};

use super::pair::Pair;
use super::played::{Parties, chain_of, pair_of};
use std::alloc::{AllocError, Global};
use std::test::*;
use vd_bus::{Device, Guest};
use vd_layout::Layout;
use vd_model::Features;
use vd_packed::Packed;
use vd_split::Split;

const FLAGS: Features = Features {
    indirect: false,
    event_idx: false,
    in_order: false,
};

const INDEX: Features = Features {
    indirect: false,
    event_idx: true,
    in_order: false,
};

/// The guest's steps alone until it sleeps, how many chains it has offered then; the device's steps until it sleeps, how many it has
/// begun; and the guest's next steps until it sleeps again, with the bells that it heard.
fn turns<L: Layout, G: Guest<L>, V: Device<L>>(pair: &mut Pair<L, G, V>) -> [u64; 6] {
    let _ = pair.attach(0, 6);
    let guest_steps = pair.guest_turn() as u64;
    let offered = pair.offered() as u64;
    let device_steps = pair.device_turn() as u64;
    let begun = pair.journal().begun.len() as u64;
    let again = pair.guest_turn() as u64;
    let heard = pair.heard();
    [guest_steps, offered, device_steps, begun, again, heard]
}

/// Whether those are the counts on a ring of 8 places with six chains of two pieces and a window of 2.
fn sleep_after<L: Layout>(
    alloc: Global,
    features: Features,
    in_turns: bool,
    counts: &[u64; 6],
) -> Result<bool, AllocError>
    requires can { CanMake L.layout 8 features }
{
    let parties = Parties {
        features,
        window: 2,
        in_turns,
        single: false,
    };
    let mut pair = pair_of::<L>(alloc, parties, &chain_of(10, 64), 6)?;
    Ok(turns(&mut pair) == *counts)
}

#[test]
fn a_split_rings_parties_work_while_they_can(rt: HostRuntime) -> Result<(), Fail> {
    assert!(rt; sleep_after::<Split>(rt.alloc(), FLAGS, false, &[35, 4, 52, 4, 33, 1])?);
    assert!(rt; sleep_after::<Split>(rt.alloc(), INDEX, false, &[32, 4, 48, 4, 31, 1])?);
    assert!(rt; sleep_after::<Split>(rt.alloc(), FLAGS, true, &[39, 4, 52, 4, 35, 1])?);
    Ok(())
}

#[test]
fn a_packed_rings_parties_work_while_they_can(rt: HostRuntime) -> Result<(), Fail> {
    assert!(rt; sleep_after::<Packed>(rt.alloc(), FLAGS, false, &[27, 4, 36, 4, 21, 1])?);
    assert!(rt; sleep_after::<Packed>(rt.alloc(), INDEX, false, &[27, 4, 32, 4, 19, 1])?);
    Ok(())
}
