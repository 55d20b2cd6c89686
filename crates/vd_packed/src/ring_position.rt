//! Where a position stands, without a division: its place and its wrap counter run round the ring.
ghost use Rattle.std.specs.Prelude.{◌≡◌, ◌<◌, ◌≤◌, ◌%◌, ◌==◌, if◌then◌else◌, true};
ghost use Rattle.vd_packed.specs.RingPositions.{forward, base_word, bit};

/// A position's place in the ring, and its wrap counter, which is true in the first lap (VIRTIO 1.2, 2.8.1).
#[derive(Copy, Clone)]
pub struct RingPosition {
    pub place: u32,
    pub wrap: bool,
}

/// The first position of a fresh ring.
pub fn first_ring_position() -> RingPosition
    ensures { result ≡ record { place = 0; wrap = true } }
{
    RingPosition {
        place: 0,
        wrap: true,
    }
}

/// The ring_position of the position `count` later, in a ring of `size` places. At the end of the ring the wrap flips.
#[inline]
pub fn forward(ring_position: RingPosition, count: u32, size: u32) -> RingPosition
    requires { (ring_position.place < size) × (count ≤ size) × (size ≤ 32768) }
    ensures { result ≡ forward ring_position count size }
{
    let place = ring_position.place + count;
    let over = place >= size;
    RingPosition {
        place: if over { place - size } else { place },
        wrap: ring_position.wrap != over,
    }
}

/// The number 1 of a true bit, and 0 of a false one.
#[inline]
pub fn bit(b: bool) -> u64
    ensures { result ≡ bit b }
{
    if b { 1 } else { 0 }
}

/// The base of a ring at rest at this ring_position: place and wrap of the available side, and the same of the used side.
pub fn base_word(ring_position: RingPosition) -> u32
    ensures { result ≡ base_word ring_position }
{
    let wrap = if ring_position.wrap { 0x8000 } else { 0 };
    let half = ring_position.place % 0x8000 + wrap;
    0x1_0001 * half
}
