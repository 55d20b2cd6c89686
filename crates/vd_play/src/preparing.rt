//! Makes what a play needs, so that the play takes no memory.
ghost use Rattle.std.specs.Prelude.{◌≡◌, ◌<◌, IfOk, length};
ghost use Rattle.std.specs.List.{All};
ghost use Rattle.vd_model.specs.Chains.{IsChain};
ghost use Rattle.vd_bus.specs.Device.{IsUnchanged};
ghost use Rattle.vd_machine.specs.File.{view};
ghost use Rattle.vd_play.specs.Each.{HasLanes};
ghost use Rattle.vd_play.specs.Played.{KeepsBench};
ghost use Rattle.vd_play.specs.Prepared.{IsOfLayout, IsEmptyGuest, IsEmptyDevice, IsEmptyBench, IsUnused, IsUntouched, IsPrepared};
ghost use Rattle.vd_play.specs.Journal.{tree_map};
ghost use Rattle.vd_play.specs.Kits.{IsShadowRing, HasKits};
ghost use Rattle.vd_play.specs.Progress.{Stopped};
ghost use Rattle.vd_play.specs.Setting.{setting_of};
ghost use Rattle.vd_play.specs.Tree.{IsLaid, IsTreeOf};

use crate::bench::Bench;
use crate::floor::{Floor, Lane, ShadowRing};
use crate::order::{chain_count, event_count, mode_of};
use crate::tree::lay;
use std::alloc::{AllocError, Global};
use vd_bus::{Device, Guest};
use vd_layout::Layout;
use vd_machine::Machine;
use vd_model::{Mode, Run};
use vd_switch::Kit;
use vd_words::PlainWords;

/// Tells what each run's chain is by its type.
fn tell_chains(runs: &[Run])
    ensures { All (λ r. IsChain r.chain) runs.now }
{
    for run in runs {
        let _ = run.chain.pieces();
    }
}

/// Makes the shadow rings of a queue, one for each epoch of the mode shadow, the first one last.
fn make_kits<L: Layout>(
    alloc: Global,
    m: &Machine,
    queue: u32,
) -> Result<Vec<ShadowRing<L>>, AllocError>
    requires layout { IsOfLayout L.layout (view m.now) }
    requires queue { queue < 8 }
    ensures { IfOk result (λ kits. HasKits L.Driver.driver L.Device.device L.layout (view m.now) queue 0 kits.items) }
{
    let mut kits = Vec::new(alloc);
    let epochs = m.switches.len() + 2;
    for i in 0..epochs {
        let epoch = epochs - 1 - i;
        if mode_of(m, epoch) == Mode::Shadow {
            kits.push(make_shadow_ring::<L>(alloc, m, queue, epoch as u32)?)?;
        }
    }
    Ok(kits)
}

/// Makes the shadow ring of a queue for an epoch.
fn make_shadow_ring<L: Layout>(
    alloc: Global,
    m: &Machine,
    queue: u32,
    epoch: u32,
) -> Result<ShadowRing<L>, AllocError>
    requires layout { IsOfLayout L.layout (view m.now) }
    requires queue { queue < 8 }
    requires epoch { epoch < 18 }
    ensures { IfOk result (λ ring. IsShadowRing L.Driver.driver L.Device.device L.layout (view m.now) queue epoch ring) }
{
    let words = L::words(m.size, m.features, false);
    let words = PlainWords::new(alloc, 16 * (epoch + 1) + queue, words)?;
    let kit = Kit::make(alloc, m.size, m.features, false)?;
    Ok(ShadowRing { words, kit })
}

/// Makes the ring of a queue, loads its guest, makes room in its device's journal, and boots the guest.
fn make_lane<L: Layout, G: Guest<L>, V: Device<L>>(
    alloc: Global,
    m: &Machine,
    queue: usize,
    guest: &mut G,
    device: &mut V,
) -> Result<Lane<L>, AllocError>
    requires layout { IsOfLayout L.layout (view m.now) }
    requires tree { IsTreeOf (view m.now) (tree_map (view m.now)) }
    requires queue { queue < length m.now.queues }
    requires guest { IsEmptyGuest G.party guest.old }
    requires device { IsEmptyDevice V.party device.old }
    ensures ok { IfOk result (λ lane. Stopped (setting_of L.Driver.driver L.Device.device L.layout G.party V.party) (view m.now)
        queue 0 lane guest.new device.new) }
    ensures none { IfOk result (λ lane. lane.relayed ≡ 0) }
    ensures guest { IsUnused G.party guest.new }
    ensures device { IsUnchanged V.party device.old device.new }
{
    let script = &m.queues.as_slice()[queue];
    tell_chains(script.runs.as_slice());
    let words = L::words(m.size, m.features, false);
    let words = PlainWords::new(alloc, queue as u32, words)?;
    let (driver, end) = L::make(alloc, m.size, m.features, false)?;
    let events = event_count(m.switches.as_slice());
    device.reserve(alloc, m.window, events, chain_count(script.runs.as_slice()))?;
    guest.load(alloc, script)?;
    let kits = make_kits::<L>(alloc, m, queue as u32)?;
    guest.boot(driver);
    Ok(Lane {
        words,
        still: Some(end),
        relaying: None,
        kits,
        relayed: 0,
    })
}

/// Makes the ring of every queue, loads and boots every guest, and makes room in every journal. Where no memory is left
/// some guests may be loaded, and no device is attached.
pub fn prepare<L: Layout, G: Guest<L>, V: Device<L>>(
    alloc: Global,
    m: &Machine,
    bench: &mut Bench<G, V>,
) -> Result<Floor<L>, AllocError>
    requires layout { IsOfLayout L.layout (view m.now) }
    requires parties { HasLanes (length m.now.queues) bench.old }
    requires empty { IsEmptyBench G.party V.party bench.old }
    ensures ok { IfOk result (λ floor. IsPrepared (setting_of L.Driver.driver L.Device.device L.layout G.party V.party) (view m.now)
        floor.lanes.items bench.new) }
    ensures tree { IfOk result (λ floor. IsLaid (view m.now) floor.tree.mappings) }
    ensures keeps { KeepsBench V.party (length m.now.queues) bench.old bench.new }
    ensures untouched { IsUntouched G.party V.party bench.old bench.new }
{
    let tree = lay(alloc, m)?;
    let mut lanes = Vec::with_capacity(alloc, m.queues.len())?;
    for i in 0..m.queues.len() {
        let lane = make_lane::<L, G, V>(alloc, m, i, &mut bench.guests[i], &mut bench.devices[i])?;
        lanes.push_reserved(lane);
    }
    Ok(Floor { lanes, tree })
}
