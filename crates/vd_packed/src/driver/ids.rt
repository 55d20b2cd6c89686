//! The queue of free ids.
ghost use Rattle.std.specs.Prelude.{◌≡◌, ◌++◌, ◌∷◌, [], ◌<◌, length, drop, slice_index, IfOk};
ghost use Rattle.vd_ring.specs.History.{upto};

use circular_buffer::HeapCircularBuffer;
use std::alloc::{AllocError, Global};

/// The queue of a fresh ring: all ids in order.
pub fn all_ids(alloc: Global, size: u32) -> Result<HeapCircularBuffer<u32>, AllocError>
    ensures { IfOk result (λ b. (b.items ≡ upto size) × (b.capacity ≡ size)) }
{
    let mut free = HeapCircularBuffer::with_capacity(alloc, size as usize)?;
    for id in 0..size {
        free.push_back(id);
    }
    Ok(free)
}

/// The id that the next chain gets.
#[inline]
pub fn next_id(free: &HeapCircularBuffer<u32>) -> u32
    requires { 0 < length free.now.items }
    ensures { result ≡ slice_index free.now.items 0 }
{
    match free.get(0) {
        Some(id) => *id,
        None => unreachable!(),
    }
}

/// Takes that id out of the queue.
#[inline]
pub fn take_id(free: &mut HeapCircularBuffer<u32>)
    requires { 0 < length free.old.items }
    ensures left { free.new.items ≡ drop 1 free.old.items }
    ensures capacity { free.new.capacity ≡ free.old.capacity }
{
    free.pop_front();
}

/// Puts an id at the end of the queue.
#[inline]
pub fn give_back(free: &mut HeapCircularBuffer<u32>, id: u32)
    requires { length free.old.items < free.old.capacity }
    ensures items { free.new.items ≡ free.old.items ++ id ∷ [] }
    ensures capacity { free.new.capacity ≡ free.old.capacity }
{
    free.push_back(id);
}
