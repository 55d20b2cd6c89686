//! The test of the event index.
ghost use Rattle.std.specs.Prelude.{◌≡◌};
ghost use Rattle.vd_bits.specs.Event.{need_event};

/// Whether the published range `old` to `new - 1` holds the position `event`, all three modulo 65,536 (VIRTIO 1.2,
/// 2.7.10; `vring_need_event` in the kernel's virtio_ring.h).
#[inline]
pub fn need_event(event: u16, new: u16, old: u16) -> bool
    ensures { result ≡ need_event event new old }
{
    new.wrapping_sub(event).wrapping_sub(1) < new.wrapping_sub(old)
}
