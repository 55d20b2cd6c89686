//! Messages on the machine's regions, by which the bus gets the map of an epoch and loses it.
ghost use Rattle.std.specs.Prelude.{◌≡◌, ◌<◌, [], Some, length, slice_get};
ghost use Rattle.vd_machine.specs.File.{view};
ghost use Rattle.vd_play.specs.Journal.{map_in};
ghost use Rattle.vd_play.specs.Setup.{map_message, with_map, Stands};
ghost use Rattle.vd_play.specs.Tree.{IsTreeOf};

use crate::calls::send;
use vd_bus::Bus;
use vd_iova::IovaTree;
use vd_machine::Machine;
use vd_model::{Mapping, Mode};
use vd_uapi::Msg;

/// VHOST_IOTLB_UPDATE and VHOST_IOTLB_INVALIDATE.
const UPDATE: u8 = 2;

const INVALIDATE: u8 = 3;

/// The mapping of a region in an epoch of this mode: at the region's own address, or where the tree has it.
fn mapping_of(m: &Machine, tree: &IovaTree, mode: Mode, i: usize) -> Mapping
    requires tree { IsTreeOf (view m.now) tree.now.mappings }
    requires inside { i < length m.now.regions }
    ensures { slice_get (map_in (view m.now) mode) i ≡ Some result }
{
    let region = m.regions.as_slice()[i];
    let iova = match mode {
        Mode::Pass => region.addr,
        Mode::Shadow => match tree.translate(region.addr, 1) {
            Some(iova) => iova,
            None => unreachable!(),
        },
    };
    Mapping {
        iova,
        size: region.size,
        guest: region.addr,
    }
}

/// The message on a mapping.
fn message(kind: u8, mapping: Mapping) -> Msg
    ensures { result ≡ map_message kind mapping }
{
    Msg {
        asid: 0,
        iova: mapping.iova,
        size: mapping.size,
        uaddr: mapping.guest,
        perm: 3,
        kind,
    }
}

/// Maps each region as an epoch of this mode has it.
pub(crate) fn map_regions(m: &Machine, tree: &IovaTree, mode: Mode, bus: &mut Bus)
    requires tree { IsTreeOf (view m.now) tree.now.mappings }
    requires stands { Stands (view m.now) bus.old }
    requires empty { bus.old.map ≡ [] }
    ensures { bus.new ≡ with_map bus.old (map_in (view m.now) mode) }
{
    for i in 0..m.regions.len() {
        send(bus, &message(UPDATE, mapping_of(m, tree, mode, i)));
    }
}

/// Takes out the mapping of each region.
pub(crate) fn unmap_regions(m: &Machine, tree: &IovaTree, mode: Mode, bus: &mut Bus)
    requires tree { IsTreeOf (view m.now) tree.now.mappings }
    requires stands { Stands (view m.now) bus.old }
    requires mapped { bus.old.map ≡ map_in (view m.now) mode }
    ensures { bus.new ≡ with_map bus.old [] }
{
    for i in 0..m.regions.len() {
        send(bus, &message(INVALIDATE, mapping_of(m, tree, mode, i)));
    }
}
