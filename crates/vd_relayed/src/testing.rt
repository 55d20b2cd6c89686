//! Whether a chain may stand on both rings.
ghost use Rattle.std.specs.Prelude.{◌≡◌, ◌≤◌, true, length};
ghost use Rattle.std.specs.List.{All};
ghost use Rattle.vd_model.specs.Chains.{IsChain, readable, writable};
ghost use Rattle.vd_model.specs.Maps.{lies_in};
ghost use Rattle.vd_iova.specs.Trees.{IsKept};

use vd_iova::IovaTree;
use vd_model::Chain;

/// Whether the chain has no more pieces than a ring of that size, and at most 1,000,000 bytes of either direction.
pub fn is_small(chain: &Chain, size: u32) -> bool
    ensures { result ≡ true → IsChain chain.now × (length chain.now ≤ size) × (readable chain.now ≤ 1000000)
        × (writable chain.now ≤ 1000000) }
{
    chain.pieces().len() <= size as usize
        && chain.readable() <= 1_000_000
        && chain.writable() <= 1_000_000
}

/// Whether the tree has an iova for each piece.
pub fn is_mapped(tree: &IovaTree, chain: &Chain) -> bool
    ensures kept { IsKept tree.now }
    ensures all { result ≡ true → All (λ p. lies_in tree.now.mappings p ≡ true) chain.now }
{
    let _ = tree.resolve(0, 1);
    let many = chain.pieces().len();
    for i in 0..many {
        let piece = chain.pieces()[i];
        if piece.len == 0 || piece.addr >= 1 << 63 {
            return false;
        }
        if tree.translate(piece.addr, piece.len).is_none() {
            return false;
        }
    }
    true
}
