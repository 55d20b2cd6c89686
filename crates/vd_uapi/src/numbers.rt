//! Little-endian numbers at a place in a row of bytes.
ghost use Rattle.std.specs.Prelude.{◌≡◌, ◌+◌, ◌≤◌, ◌++◌, length, take, drop};
ghost use Rattle.vd_uapi.specs.Bytes.{bytes_of, number_at};

use byteorder::{ByteOrder, LittleEndian};

/// The number in the four bytes from `at` on.
pub fn u32_at(bytes: &[u8], at: usize) -> u32
    requires { at + 4 ≤ length bytes.now }
    ensures number { result ≡ number_at 4 at bytes.now }
    ensures spelled { drop at bytes.now ≡ bytes_of 4 result ++ drop (at + 4) bytes.now }
{
    LittleEndian::read_u32(&bytes[at..])
}

/// The number in the eight bytes from `at` on.
pub fn u64_at(bytes: &[u8], at: usize) -> u64
    requires { at + 8 ≤ length bytes.now }
    ensures number { result ≡ number_at 8 at bytes.now }
    ensures spelled { drop at bytes.now ≡ bytes_of 8 result ++ drop (at + 8) bytes.now }
{
    LittleEndian::read_u64(&bytes[at..])
}

/// Writes a number into the four bytes from `at` on.
pub fn put_u32(bytes: &mut [u8], at: usize, number: u32)
    requires { at + 4 ≤ length bytes.old }
    ensures { bytes.new ≡ take at bytes.old ++ bytes_of 4 number ++ drop (at + 4) bytes.old }
{
    LittleEndian::write_u32(&mut bytes[at..at + 4], number);
}

/// Writes a number into the eight bytes from `at` on.
pub fn put_u64(bytes: &mut [u8], at: usize, number: u64)
    requires { at + 8 ≤ length bytes.old }
    ensures { bytes.new ≡ take at bytes.old ++ bytes_of 8 number ++ drop (at + 8) bytes.old }
{
    LittleEndian::write_u64(&mut bytes[at..at + 8], number);
}
