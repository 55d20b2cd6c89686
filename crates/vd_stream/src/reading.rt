//! Reading a source to its end.
ghost use Rattle.std.specs.Prelude.{◌≡◌, ◌≤◌, IfOk, IfErr, OnOk};
ghost use Rattle.vd_stream.specs.Causes.{ReadsWhole, ReadsFaulty};
ghost use Rattle.vd_stream.specs.declared.reading.ReadFault.TheVariants.{Memory};

use crate::{Failed, Source};
use std::alloc::{AllocError, Global};

/// Why a source could not be read to its end.
#[derive(Clone, Copy, Debug, PartialEq, Eq, Drop)]
pub enum ReadFault {
    /// A take failed.
    Failed,
    /// There are more than `MOST_BYTES`: one more was read.
    TooLarge,
    Memory,
}

/// How many bytes a source may have; one more shows that there are too many.
pub const MOST_BYTES: usize = 1_048_576;

/// Reads to the end, which comes after at most `MOST_BYTES`. Of a longer source one byte more is read.
pub fn read_whole<S: Source>(alloc: Global, source: &mut S) -> Result<Vec<u8>, ReadFault>
    ensures ok { IfOk result (λ bytes. ReadsWhole (S.left source.old) (S.left source.new) bytes.items) }
    ensures fault { IfErr result (ReadsFaulty (S.left source.old) (S.left source.new) (S.faults source.old) (S.faults source.new)) }
    ensures later { S.faults source.old ≤ S.faults source.new }
    ensures same { OnOk result (S.faults source.new ≡ S.faults source.old) }
{
    let mut bytes = Vec::new(alloc);
    let mut buffer = [0u8; 4096];
    while bytes.len() <= MOST_BYTES {
        let room = (MOST_BYTES + 1 - bytes.len()).min(buffer.len());
        match source.take(&mut buffer[..room]) {
            Err(Failed) => return Err(ReadFault::Failed),
            Ok(0) => return Ok(bytes),
            Ok(count) => {
                if bytes.extend_from_slice(&buffer[..count]).is_err() {
                    return Err(ReadFault::Memory);
                }
            }
        }
    }
    Err(ReadFault::TooLarge)
}
