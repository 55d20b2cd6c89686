//! Scripts of one chain.
ghost use Rattle.std.specs.Prelude.{◌≡◌, ◌≤◌, ◌∷◌, [], length, IfOk, IsTrue, true};
ghost use Rattle.vd_model.specs.Chains.{IsChain, readable, writable};

use sqlite_items::Items;
use std::alloc::{AllocError, Global};
use vd_model::{Chain, Run, Script};

/// Whether the chain has no more pieces than a ring of that size, and at most 1,000,000 bytes of either direction.
pub fn fits(chain: &Chain, size: u32) -> bool
    ensures { result ≡ true → IsChain chain.now × (length chain.now ≤ size) × (readable chain.now ≤ 1000000) ×
        (writable chain.now ≤ 1000000) }
{
    chain.pieces().len() <= size as usize
        && chain.readable() <= 1_000_000
        && chain.writable() <= 1_000_000
}

/// The chain so many times.
pub fn script_of(alloc: Global, chain: &Chain, count: u32) -> Result<Script, AllocError>
    ensures { IfOk result (λ s. s ≡ record { runs = record { count = count; chain = chain.now } ∷ []; commands = [] }) }
{
    let mut runs = Vec::with_capacity(alloc, 1)?;
    runs.push(Run {
        count,
        chain: chain.copy(),
    })?;
    Ok(Script {
        runs: Items::from_vec(runs),
        commands: Items::new(alloc),
    })
}
