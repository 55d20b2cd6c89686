//! The receive flags that are on.
ghost use Rattle.std.specs.Prelude.{◌≡◌, ◌<◌, ◌≤◌, length, slice_get, Some};
ghost use Rattle.vd_control.specs.Settings.{has_flag, passing};

/// How many flags are on.
pub fn count(flags: &[bool; 6]) -> u32
    ensures value { result ≡ length (passing (has_flag flags.now) 6) }
    ensures most { result ≤ 6 }
{
    let mut count = 0;
    for on in flags {
        count += u32::from(*on);
    }
    count
}

/// The flag before which `nth` others are on.
pub fn nth(flags: &[bool; 6], nth: u32) -> u8
    requires { nth < length (passing (has_flag flags.now) 6) }
    ensures value { slice_get (passing (has_flag flags.now) 6) nth ≡ Some result }
    ensures small { result < 6 }
{
    let mut left = nth;
    for (i, on) in flags.iter().enumerate() {
        if *on && left == 0 {
            return i as u8;
        }
        left -= u32::from(*on);
    }
    unreachable!()
}
