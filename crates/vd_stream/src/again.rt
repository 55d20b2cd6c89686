//! Reads, writes and flushes that are made again where a signal interrupts them.
ghost use Rattle.std.specs.Prelude.{◌≡◌, ◌≢◌, ◌↔◌, IfErr, IsTrue};
ghost use Rattle.std.specs.Io.{ReadsAtMost, WritesAtMost};
ghost use Rattle.std.specs.Io.KnownBytes.{Keeps, ReadConsumes, WriteAppends};
ghost use Rattle.std.specs.IoError.{error_kind};

use std::io::{Error, ErrorKind, Read, Result, Write};

/// How often a call is made at most: more often than any process sees signals, and a bound that ends the loop.
const MOST_TRIES: u64 = u64::MAX;

fn is_interrupted(e: &Error) -> bool
    ensures { IsTrue result ↔ (error_kind e.now ≡ ErrorKind.Interrupted) }
{
    e.kind() == ErrorKind::Interrupted
}

/// One read, made again until no signal interrupts it.
pub fn read_again<R: Read>(reader: &mut R, into: &mut [u8]) -> Result<usize>
    ensures bound { ReadsAtMost result into.new }
    ensures bytes { ReadConsumes (R.remaining reader.old) (R.remaining reader.new) result into.new }
    ensures again { IfErr result (λ e. error_kind e ≢ ErrorKind.Interrupted) }
{
    for _ in 0..MOST_TRIES {
        match reader.read(into) {
            Ok(count) => return Ok(count),
            Err(e) => {
                if !is_interrupted(&e) {
                    return Err(e);
                }
            }
        }
    }
    Err(Error::from(ErrorKind::TimedOut))
}

/// One write, made again until no signal interrupts it.
pub fn write_again<W: Write>(writer: &mut W, bytes: &[u8]) -> Result<usize>
    ensures bound { WritesAtMost result bytes.now }
    ensures bytes { WriteAppends (W.contents writer.old) (W.contents writer.new) result bytes.now }
    ensures again { IfErr result (λ e. error_kind e ≢ ErrorKind.Interrupted) }
{
    for _ in 0..MOST_TRIES {
        match writer.write(bytes) {
            Ok(count) => return Ok(count),
            Err(e) => {
                if !is_interrupted(&e) {
                    return Err(e);
                }
            }
        }
    }
    Err(Error::from(ErrorKind::TimedOut))
}

/// One flush, made again until no signal interrupts it.
pub fn flush_again<W: Write>(writer: &mut W) -> Result<()>
    ensures bytes { Keeps (W.contents writer.old) (W.contents writer.new) }
    ensures again { IfErr result (λ e. error_kind e ≢ ErrorKind.Interrupted) }
{
    for _ in 0..MOST_TRIES {
        match writer.flush() {
            Ok(()) => return Ok(()),
            Err(e) => {
                if !is_interrupted(&e) {
                    return Err(e);
                }
            }
        }
    }
    Err(Error::from(ErrorKind::TimedOut))
}
