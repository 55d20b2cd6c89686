//! Lanes that are known only when the program runs: shifts, where `lane16` and `set_lane16` choose among four.
ghost use Rattle.std.specs.Prelude.{◌≡◌, ◌<◌};
ghost use Rattle.vd_bits.specs.Lanes.{lane16, set_lane16};

/// The 16 bits of a lane.
#[inline]
pub fn lane_at(word: u64, lane: u32) -> u16
    requires { lane < 4 }
    ensures { result ≡ lane16 word lane }
{
    ((word >> 16 * lane) % 0x1_0000) as u16
}

/// The word with a value in a lane, and the other lanes as they were.
#[inline]
pub fn set_lane_at(word: u64, lane: u32, value: u16) -> u64
    requires { lane < 4 }
    ensures { result ≡ set_lane16 word lane value }
{
    let before = u64::from(lane_at(word, lane)) << 16 * lane;
    word - before + (u64::from(value) << 16 * lane)
}
