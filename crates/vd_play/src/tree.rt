//! The tree of a shadow epoch.
ghost use Rattle.std.specs.Prelude.{◌≡◌, IfOk};
ghost use Rattle.vd_iova.specs.Trees.{IsKept};
ghost use Rattle.vd_machine.specs.File.{view};
ghost use Rattle.vd_play.specs.Journal.{tree_map};
ghost use Rattle.vd_play.specs.Tree.{IsTreeOf};

use std::alloc::{AllocError, Global};
use vd_iova::{IovaTree, MapFault};
use vd_machine::Machine;

/// Maps each region in file order at the lowest iova that those before it leave. A machine's regions find their places,
/// so only memory can run out.
pub(crate) fn lay(alloc: Global, m: &Machine) -> Result<IovaTree, AllocError>
    ensures laid { IfOk result (λ t. IsTreeOf (view m.now) t.mappings) }
    ensures mapped { IfOk result (λ t. t.mappings ≡ tree_map (view m.now)) }
    ensures kept { IfOk result (λ t. IsKept t) }
    ensures first { IfOk result (λ t. t.first ≡ m.now.first) }
    ensures last { IfOk result (λ t. t.last ≡ m.now.last) }
{
    let mut tree = IovaTree::new(alloc, m.first, m.last);
    for region in m.regions.as_slice() {
        match tree.map(region.size, region.addr) {
            Ok(_) => {}
            Err(MapFault::Memory) => return Err(AllocError),
            Err(MapFault::NoHole(_)) => unreachable!(),
            Err(MapFault::Empty) => unreachable!(),
            Err(MapFault::Overlap(_)) => unreachable!(),
        }
    }
    Ok(tree)
}
