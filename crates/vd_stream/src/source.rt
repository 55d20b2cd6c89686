//! Where bytes come from.
ghost use Rattle.std.specs.Prelude.{◌<◌, ℕ, List, length, Option};
ghost use Rattle.std.specs.Io.{ReadsAtMost};
ghost use Rattle.std.specs.Io.KnownBytes.{ReadConsumes};
ghost use Rattle.vd_stream.specs.Causes.{HasCause};

use crate::Failed;

/// A source of bytes.
pub trait Source {
    /// The bytes that are left, where they are told.
    ghost left: { Self → Option (List ℕ) };

    /// How often a take failed.
    ghost faults: { Self → ℕ };

    /// Puts bytes at the front of `into`, and answers how many. 0 is the end.
    fn take(&mut self, into: &mut [u8]) -> Result<usize, Failed>
        requires { 0 < length into.old }
        ensures bound { ReadsAtMost result into.new }
        ensures bytes { ReadConsumes (left self.old) (left self.new) result into.new }
        ensures cause { HasCause (faults self.old) (faults self.new) result };
}
