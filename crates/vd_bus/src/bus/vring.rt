//! A queue as the bus knows it.
ghost use Rattle.std.specs.Prelude.{◌≡◌, ◌<◌, ◌^◌};
ghost use Rattle.vd_bus.specs.Bus.{is_lawful_size, is_lawful_base, fresh_base};

use vd_uapi::VringAddr;

/// A queue as the bus knows it.
#[derive(Copy, Clone, Debug, Default, PartialEq, Eq)]
pub struct Vring {
    /// How many places its ring has; 0 where it has no number.
    pub num: u32,
    /// Where its ring's areas lie.
    pub addr: Option<VringAddr>,
    /// The base from which its ring is served (`vhost_vring_state.num`).
    pub base: u32,
    /// Whether it is served.
    pub enabled: bool,
}

/// Whether a ring of the layout may have so many places.
pub(crate) fn is_lawful_size(packed: bool, size: u32) -> bool
    ensures { result ≡ is_lawful_size packed size }
{
    if packed {
        2 <= size && size <= 1024
    } else {
        matches!(size, 2 | 4 | 8 | 16 | 32 | 64 | 128 | 256 | 512 | 1024)
    }
}

/// The base of a fresh ring.
pub(crate) fn fresh_base(packed: bool) -> u32
    ensures { result ≡ fresh_base packed }
{
    if packed { 0x8000_8000 } else { 0 }
}

/// Whether a ring with so many places may have this base.
pub(crate) fn is_lawful_base(packed: bool, size: u32, base: u32) -> bool
    ensures { result ≡ is_lawful_base packed size base }
{
    if packed {
        base % 0x8000 < size && base / 0x1_0000 % 0x8000 < size
    } else {
        base <= 65535
    }
}
