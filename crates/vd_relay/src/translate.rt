//! Chains at the addresses of the shadow ring.
ghost use Rattle.std.specs.Prelude.{◌≡◌, ◌<◌, ◌^◌, true};
ghost use Rattle.std.specs.List.{All};
ghost use Rattle.vd_model.specs.Chains.{IsChain};
ghost use Rattle.vd_model.specs.Maps.{lies_in};
ghost use Rattle.vd_model.specs.Moved.{moved};

use vd_iova::IovaTree;
use vd_model::Chain;

/// Moves each address of the chain by the tree, in place.
pub(crate) fn translate(tree: &IovaTree, chain: &mut Chain)
    requires { All (λ p. (lies_in tree.now.mappings p ≡ true) × (p.addr < 2 ^ 63)) chain.old }
    ensures moved { chain.new ≡ moved tree.now.mappings chain.old }
    ensures lawful { IsChain chain.new }
{
    let many = chain.pieces().len();
    for i in 0..many {
        let piece = chain.pieces()[i];
        match tree.translate(piece.addr, piece.len) {
            Some(addr) => chain.set_addr(i, addr),
            None => unreachable!(),
        }
    }
}
