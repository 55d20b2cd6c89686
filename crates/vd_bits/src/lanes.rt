//! Lanes of a 64-bit word. Lane 0 is the lowest.
ghost use Rattle.std.specs.Prelude.{◌≡◌, ◌<◌};
ghost use Rattle.vd_bits.specs.Lanes.{lane16, set_lane16, lane32, set_lane32};

/// The 16 bits of lane `i`: bits `16 * i` to `16 * i + 15`.
#[inline]
pub fn lane16(w: u64, i: u32) -> u16
    requires { i < 4 }
    ensures { result ≡ lane16 w i }
{
    match i {
        0 => (w % 0x1_0000) as u16,
        1 => (w / 0x1_0000 % 0x1_0000) as u16,
        2 => (w / 0x1_0000_0000 % 0x1_0000) as u16,
        _ => (w / 0x1_0000_0000_0000 % 0x1_0000) as u16,
    }
}

/// The word with `v` in lane `i`, and the other lanes as they were.
#[inline]
pub fn set_lane16(w: u64, i: u32, v: u16) -> u64
    requires { i < 4 }
    ensures { result ≡ set_lane16 w i v }
{
    let v = v as u64;
    match i {
        0 => w / 0x1_0000 * 0x1_0000 + v,
        1 => w / 0x1_0000_0000 * 0x1_0000_0000 + v * 0x1_0000 + w % 0x1_0000,
        2 => { w / 0x1_0000_0000_0000 * 0x1_0000_0000_0000 + v * 0x1_0000_0000 + w % 0x1_0000_0000 }
        _ => v * 0x1_0000_0000_0000 + w % 0x1_0000_0000_0000,
    }
}

/// The 32 bits of half `i`; half 0 is the low one.
#[inline]
pub fn lane32(w: u64, i: u32) -> u32
    requires { i < 2 }
    ensures { result ≡ lane32 w i }
{
    match i {
        0 => (w % 0x1_0000_0000) as u32,
        _ => (w / 0x1_0000_0000) as u32,
    }
}

/// The word with `v` in half `i`, and the other half as it was.
#[inline]
pub fn set_lane32(w: u64, i: u32, v: u32) -> u64
    requires { i < 2 }
    ensures { result ≡ set_lane32 w i v }
{
    let v = v as u64;
    match i {
        0 => w / 0x1_0000_0000 * 0x1_0000_0000 + v,
        _ => v * 0x1_0000_0000 + w % 0x1_0000_0000,
    }
}
