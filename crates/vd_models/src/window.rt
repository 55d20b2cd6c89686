//! The chains that a model device has begun and not given.
ghost use Rattle.std.specs.Prelude.{◌≡◌, ◌<◌, ◌≤◌, ◌+◌, ◌^◌, ◌++◌, ◌∷◌, [], Some, length, min};
ghost use Rattle.vd_model.specs.Chains.{readable, writable, total};
ghost use Rattle.circular_buffer.specs.Buffer.{buffer};
ghost use Rattle.vd_models.specs.Holding.{next_held, rest_held, held_of, begun_of};

use arrayvec::ArrayVec;
use circular_buffer::HeapCircularBuffer;
use vd_bus::Entries;
use vd_model::{Begun, Chain};

/// A chain that is begun and not given.
#[derive(Copy, Clone)]
pub struct Held {
    pub number: u32,
    /// The length that it is given with, in bytes.
    pub len: u32,
}

/// The smaller of what the device may read and what it may write, in bytes.
fn len_of(chain: &Chain) -> u32
    requires { total chain.now < 2 ^ 32 }
    ensures { result ≡ min (readable chain.now) (writable chain.now) }
{
    chain.readable().min(chain.writable()) as u32
}

/// The chain that is given next: the one begun last, under IN_ORDER the one begun first.
pub(crate) fn next(held: &HeapCircularBuffer<Held>, in_order: bool) -> Held
    requires { 0 < length held.now.items }
    ensures { next_held in_order held.now.items ≡ Some result }
{
    let next = if in_order { held.front() } else { held.back() };
    match next {
        Some(next) => *next,
        None => unreachable!(),
    }
}

/// Takes out the chain that was given.
#[inline(never)]
pub(crate) fn drop_next(held: &mut HeapCircularBuffer<Held>, in_order: bool)
    ensures { held.new ≡ buffer (rest_held in_order held.old.items) held.old.capacity }
{
    if in_order {
        held.pop_front();
    } else {
        held.pop_back();
    }
}

/// Holds a chain more.
pub(crate) fn hold(held: &mut HeapCircularBuffer<Held>, chain: Held)
    requires { length held.old.items < held.old.capacity }
    ensures { held.new ≡ buffer (held.old.items ++ chain ∷ []) held.old.capacity }
{
    if held.try_push_back(chain).is_err() {
        unreachable!()
    }
}

/// Records a chain that was taken, and holds it. Out of line: the steps that take none then needn't clear a chain.
#[inline(never)]
pub(crate) fn note(
    number: u32,
    chain: Chain,
    held: &mut HeapCircularBuffer<Held>,
    begun: &mut Entries<Begun>,
)
    requires len { total chain < 2 ^ 32 }
    requires window { length held.old.items < held.old.capacity }
    requires room { 0 < begun.old.room }
    ensures held { held.new ≡ buffer (held.old.items ++ held_of number chain ∷ []) held.old.capacity }
    ensures begun { begun.new.items ≡ begun.old.items ++ begun_of chain ∷ [] }
    ensures room { begun.old.room ≤ begun.new.room + 1 }
{
    let mut entry = Begun {
        chain,
        len: 0,
        bytes: ArrayVec::new(),
    };
    let len = len_of(&entry.chain);
    entry.len = len;
    begun.push(entry);
    hold(held, Held { number, len });
}
