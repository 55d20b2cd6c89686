//! What comes of a pair's play, for any layout.
ghost use Rattle.std.specs.Prelude.{◌≡◌, ◌≤◌, None};
ghost use Rattle.vd_layout.specs.Layout.{CanMake};

use super::pair::Pair;
use crate::{ModelDevice, ModelGuest};
use std::alloc::{AllocError, Global};
use vd_bus::{Device, Guest, Journal};
use vd_layout::Layout;
use vd_model::{Base, Chain, Features, Piece, Return};

/// Which guest and which device meet.
#[derive(Copy, Clone)]
pub struct Parties {
    pub features: Features,
    pub window: u32,
    pub in_turns: bool,
    pub single: bool,
}

pub fn chain_of(read: u32, write: u32) -> Chain {
    let mut chain = Chain::new(Piece {
        addr: 4096,
        len: read,
        write: false,
    });
    let _ = chain.push(Piece {
        addr: 8192,
        len: write,
        write: true,
    });
    chain
}

fn guest_of<L: Layout>(alloc: Global, in_turns: bool) -> ModelGuest<L>
    ensures { ⟦<ModelGuest<L> as Guest<L>>⟧.party.script result ≡ None }
{
    if in_turns {
        ModelGuest::in_turns(alloc)
    } else {
        ModelGuest::new(alloc)
    }
}

fn device_of<L: Layout>(alloc: Global, window: u32, single: bool) -> ModelDevice<L>
    requires { (1 ≤ window) × (window ≤ 64) }
    ensures { ⟦<ModelDevice<L> as Device<L>>⟧.party.attached result ≡ None }
{
    if single {
        ModelDevice::single(alloc, window)
    } else {
        ModelDevice::new(alloc, window)
    }
}

/// Both parties on a fresh ring of 8 places. The guest offers the chain so many times.
pub fn pair_of<L: Layout>(
    alloc: Global,
    parties: Parties,
    chain: &Chain,
    count: u32,
) -> Result<Pair<L, ModelGuest<L>, ModelDevice<L>>, AllocError>
    requires can { CanMake L.layout 8 parties.features }
    requires window { (1 ≤ parties.window) × (parties.window ≤ 64) }
{
    let guest = guest_of::<L>(alloc, parties.in_turns);
    let device = device_of::<L>(alloc, parties.window, parties.single);
    Pair::new(
        alloc,
        8,
        parties.features,
        parties.window,
        chain,
        count,
        guest,
        device,
    )
}

/// Each steps until it sleeps or is done, in turn.
fn play<L: Layout, G: Guest<L>, V: Device<L>>(pair: &mut Pair<L, G, V>) {
    for _ in 0..6 {
        let _ = pair.guest_turn();
        let _ = pair.device_turn();
    }
    let _ = pair.guest_turn();
}

fn came_back(returned: &[Return], order: &[u32], len: u32) -> bool {
    if returned.len() != order.len() {
        return false;
    }
    for (i, number) in order.iter().enumerate() {
        if i >= returned.len() {
            return false;
        }
        if returned[i]
            != (Return {
                number: *number,
                len,
                ack: 0,
            })
        {
            return false;
        }
    }
    true
}

fn all_begun(journal: &Journal, count: usize, len: u32) -> bool {
    for begun in journal.begun.as_slice() {
        if begun.len != len || begun.bytes.len() != 0 {
            return false;
        }
    }
    journal.begun.len() == count
}

/// The base after a play to the end, where each chain came back with that length, in that order.
fn end_of<L: Layout, G: Guest<L>, V: Device<L>>(
    pair: &mut Pair<L, G, V>,
    order: &[u32],
    len: u32,
) -> Option<Base> {
    if order.len() > 1000 || pair.attach(0, order.len() as u32) != Some(true) {
        return None;
    }
    play(pair);
    if !pair.guest_done() || !pair.device_done() {
        return None;
    }
    if !came_back(pair.returned(), order, len) || !all_begun(pair.journal(), order.len(), len) {
        return None;
    }
    pair.suspend()
}

/// The same of a fresh pair.
pub fn come_back<L: Layout>(
    alloc: Global,
    parties: Parties,
    chain: &Chain,
    order: &[u32],
    len: u32,
) -> Result<Option<Base>, AllocError>
    requires can { CanMake L.layout 8 parties.features }
    requires window { (1 ≤ parties.window) × (parties.window ≤ 64) }
{
    if order.len() > 1000 {
        return Ok(None);
    }
    let mut pair = pair_of::<L>(alloc, parties, chain, order.len() as u32)?;
    Ok(end_of(&mut pair, order, len))
}

/// The most chains that were open at once: the device sleeps before each of the guest's steps.
fn open_at_once<L: Layout, G: Guest<L>, V: Device<L>>(pair: &mut Pair<L, G, V>) -> usize {
    let mut most = 0;
    for _ in 0..1000 {
        let _ = pair.guest_step();
        let _ = pair.device_turn();
        let open = (pair.offered() as usize).saturating_sub(pair.returned().len());
        if open > most {
            most = open;
        }
    }
    most
}

/// The same of a fresh pair, where all came back.
pub fn most_open<L: Layout>(
    alloc: Global,
    parties: Parties,
    chain: &Chain,
    count: u32,
) -> Result<Option<usize>, AllocError>
    requires can { CanMake L.layout 8 parties.features }
    requires window { (1 ≤ parties.window) × (parties.window ≤ 64) }
{
    let mut pair = pair_of::<L>(alloc, parties, chain, count)?;
    let _ = pair.attach(0, count);
    let most = open_at_once(&mut pair);
    Ok((pair.returned().len() == count as usize).then_some(most))
}
