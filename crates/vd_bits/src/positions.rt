//! Positions in a ring: descriptors, or entries, counted since the ring was made.
ghost use Rattle.std.specs.Prelude.{◌≡◌, ◌<◌, ◌%◌, ◌/◌};
ghost use Rattle.vd_bits.specs.Lanes.{is_even};

/// The place of a position in a ring of `size` places.
#[inline]
pub fn place(position: u64, size: u32) -> u32
    requires { 0 < size }
    ensures { result ≡ position % size }
{
    (position % size as u64) as u32
}

/// The wrap counter of a position, true in the first lap (VIRTIO 1.2, 2.8.1).
#[inline]
pub fn wrap(position: u64, size: u32) -> bool
    requires { 0 < size }
    ensures { result ≡ is_even (position / size) }
{
    position / size as u64 % 2 == 0
}
