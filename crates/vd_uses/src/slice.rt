//! A source of bytes of one's own.
ghost use Rattle.std.specs.Prelude.{◌≡◌, ◌<◌, IfOk, length};
ghost use Rattle.vd_stream.specs.declared.reading.TheConstants.{MOST_BYTES};

use std::alloc::Global;
use vd_stream::{Failed, ReadFault, Source, read_whole};

/// The bytes of a slice. No take fails.
#[derive(Drop)]
pub struct SliceSource<'a> {
    /// What is left.
    pub bytes: &'a [u8],
}

impl Source for SliceSource<'_> {
    ghost use Rattle.std.specs.Prelude.{Some};

    ghost left = { λ s. Some s.bytes.now };

    ghost faults = { λ s. 0 };

    fn take(&mut self, into: &mut [u8]) -> Result<usize, Failed> {
        let count = into.len().min(self.bytes.len());
        into[..count].copy_from_slice(&self.bytes[..count]);
        self.bytes = &self.bytes[count..];
        Ok(count)
    }
}

/// The bytes of a slice again, where they are few enough and memory holds them.
pub fn read_slice(alloc: Global, bytes: &[u8]) -> Result<Vec<u8>, ReadFault>
    ensures read { IfOk result (λ read. read.items ≡ bytes.now) }
    // No take fails, and there are too many bytes only where there are more than may be read.
    ensures failed { result ≡ Err ReadFault.Failed → ⊥ }
    ensures large { result ≡ Err ReadFault.TooLarge → MOST_BYTES < length bytes.now }
{
    let mut source = SliceSource { bytes };
    read_whole(alloc, &mut source)
}
