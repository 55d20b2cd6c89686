//! Words of descriptors, and the queue of free places.
ghost use Rattle.std.specs.Prelude.{◌≡◌, ◌*◌, ◌+◌, ◌++◌, ◌<◌, ◌≤◌, if◌then◌else◌, length, take, drop, slice_index, slice_index_or, IfOk, replicate};
ghost use Rattle.std.specs.List.{All};
ghost use Rattle.vd_split_ring.specs.SplitWords.{described, put, shows};
ghost use Rattle.vd_split.specs.Parts.{next_place, used_area};

use crate::driver::Slot;
use circular_buffer::HeapCircularBuffer;
use std::alloc::{AllocError, Global};
use vd_bits::lane16;
use vd_model::Piece;

/// The place after this one in a ring of `size` places.
#[inline]
pub fn next_place(place: u32, size: u32) -> u32
    requires { place < size }
    ensures { result ≡ next_place place size }
{
    if place + 1 == size { 0 } else { place + 1 }
}

/// The first word of the device area of a ring of `size` places.
#[inline]
pub fn used_area(size: u32) -> u32
    requires { size ≤ 32768 }
    ensures { result ≡ used_area size }
{
    2 * size + (size + 6) / 4
}

/// A place of the queue.
#[inline]
pub fn place_at(free: &HeapCircularBuffer<u32>, i: usize) -> u32
    requires { i < length free.now.items }
    ensures { result ≡ slice_index free.now.items i }
{
    match free.get(i) {
        Some(place) => *place,
        None => unreachable!(),
    }
}

/// Keeps an open chain in its slot: its places are the first of the queue.
pub fn fill_slot(slot: &mut Slot, free: &mut HeapCircularBuffer<u32>, number: u32, count: usize)
    requires { (count ≤ length free.old.items) × (count ≤ 16) }
    ensures number { slot.new.number ≡ number }
    ensures places { slot.new.places.items ≡ take count free.old.items }
    ensures left { free.new.items ≡ drop count free.old.items }
    ensures capacity { free.new.capacity ≡ free.old.capacity }
{
    slot.number = number;
    slot.places.clear();
    for _ in 0..count {
        match free.pop_front() {
            Some(place) => slot.places.push(place),
            None => unreachable!(),
        }
    }
}

/// Puts places at the end of the queue.
#[inline]
pub fn give_back(free: &mut HeapCircularBuffer<u32>, places: &[u32])
    requires { length free.old.items + length places.now ≤ free.old.capacity }
    ensures items { free.new.items ≡ free.old.items ++ places.now }
    ensures capacity { free.new.capacity ≡ free.old.capacity }
{
    free.fill_from_slice(places);
}

/// Whether a loaded word shows this count as its index.
#[inline]
pub fn shows_count(word: u64, count: u32) -> bool
    ensures { result ≡ shows word count }
{
    lane16(word, 1) as u32 == count % 0x1_0000
}

/// Where word number `at` of a chain's descriptors goes, and what it is (VIRTIO 1.2, 2.7.5).
pub fn descriptor_word(free: &HeapCircularBuffer<u32>, pieces: &[Piece], at: u32) -> (u32, u64)
    requires room { length pieces.now ≤ length free.now.items }
    requires small { All (λ p. p < 32768) free.now.items }
    requires within { at < 2 * length pieces.now }
    ensures place { result.0 ≡ (slice_index_or (described 0 (take (length pieces.now) free.now.items) pieces.now) at (put 0 0)).place }
    ensures word { result.1 ≡ (slice_index_or (described 0 (take (length pieces.now) free.now.items) pieces.now) at (put 0 0)).word }
{
    let i = (at / 2) as usize;
    let piece = pieces[i];
    let place = place_at(free, i);
    if at % 2 == 0 {
        return (2 * place, piece.addr);
    }
    if i + 1 < pieces.len() {
        let next = place_at(free, i + 1);
        return (2 * place + 1, second(&piece, 1, next));
    }
    (2 * place + 1, second(&piece, 0, 0))
}

/// A descriptor's second word: the length, NEXT where `more` is 1, WRITE, and the next place.
#[inline]
fn second(piece: &Piece, more: u64, next: u32) -> u64
    requires { (more ≤ 1) × (next < 32768) }
    ensures { result ≡ piece.now.len + (more + (if piece.now.write then 2 else 0)) * 4294967296 + next * 281474976710656 }
{
    let write = if piece.write { 2 } else { 0 };
    piece.len as u64 + (more + write) * 0x1_0000_0000 + next as u64 * 0x1_0000_0000_0000
}

/// So many words of 0.
pub fn zero_words(alloc: Global, n: u32) -> Result<Vec<u64>, AllocError>
    ensures { IfOk result (λ v. v.items ≡ replicate n 0) }
{
    Vec::from_elem(alloc, 0u64, n as usize)
}
