//! Commands over benches, and what they leave.
ghost use Rattle.vd_play.specs.Prepared.{IsEmptyBench};

use crate::benches::{Parties, faulty, models};
use crate::told::{Told, tell_only};
use std::alloc::{AllocError, Global};
use vd_bus::{Device, Guest};
use vd_packed::Packed;
use vd_runner::{Bench, Status, vdpa};
use vd_split::Split;
use vd_stream::{MemorySink, MemorySource, Sink, Source};

/// The most bytes that a sink holds.
const ROOM: u32 = 2_000_000;

/// How a command ended, what its sink holds, and what the parties of its queue tell.
#[derive(Drop)]
pub struct Left {
    pub status: Status,
    pub held: Vec<u8>,
    pub told: Told,
}

/// How a command over these benches ends. The tests read what it leaves, and nothing of what `vdpa` promises.
pub fn ending<
    S: Source,
    K: Sink,
    GS: Guest<Split>,
    VS: Device<Split>,
    GP: Guest<Packed>,
    VP: Device<Packed>,
>(
    alloc: Global,
    words: &[&str],
    source: &mut S,
    sink: &mut K,
    split: &mut Bench<GS, VS>,
    packed: &mut Bench<GP, VP>,
) -> Status
    requires split { IsEmptyBench GS.party VS.party split.old }
    requires packed { IsEmptyBench GP.party VP.party packed.old }
{
    vdpa(alloc, words, source, sink, split, packed)
}

/// What a command over a file in memory leaves, with the listed takes and puts failing. Told is of the packed bench or of the
/// split one, which has one guest and one device.
fn left_by<GS: Guest<Split>, VS: Device<Split>, GP: Guest<Packed>, VP: Device<Packed>>(
    alloc: Global,
    words: &[&str],
    given: (&[u8], &[u32], &[u32]),
    is_packed: bool,
    mut split: Bench<GS, VS>,
    mut packed: Bench<GP, VP>,
) -> Result<Left, AllocError>
    requires split { IsEmptyBench GS.party VS.party split }
    requires packed { IsEmptyBench GP.party VP.party packed }
{
    let (file, takes, puts) = given;
    let mut source = MemorySource::new(alloc, file, takes)?;
    let mut sink = MemorySink::new(alloc, ROOM, puts)?;
    let status = ending(
        alloc,
        words,
        &mut source,
        &mut sink,
        &mut split,
        &mut packed,
    );
    let told = if is_packed {
        tell_only::<Packed, GP, VP>(alloc, &packed)?
    } else {
        tell_only::<Split, GS, VS>(alloc, &split)?
    };
    Ok(Left {
        status,
        held: Vec::from_slice(alloc, sink.held())?,
        told,
    })
}

/// What a command over model parties leaves. Told is of the packed bench where it has parties, else of the split one.
pub fn left_by_models(
    alloc: Global,
    words: &[&str],
    given: (&[u8], &[u32], &[u32]),
    split: Parties,
    packed: Parties,
) -> Result<Left, AllocError> {
    let is_packed = !matches!(packed, Parties::None);
    let split = models::<Split>(alloc, split)?;
    let packed = models::<Packed>(alloc, packed)?;
    left_by(alloc, words, given, is_packed, split, packed)
}

/// What a command over devices leaves that refuse their attach of this number, counted from 1, and of number 0 none.
pub fn left_by_faulty(
    alloc: Global,
    words: &[&str],
    file: &str,
    is_packed: bool,
    fails: u32,
) -> Result<Left, AllocError> {
    let split = faulty::<Split>(alloc, 1, fails)?;
    let packed = faulty::<Packed>(alloc, 2, fails)?;
    let given: (&[u8], &[u32], &[u32]) = (file.as_bytes(), &[], &[]);
    left_by(alloc, words, given, is_packed, split, packed)
}

/// These texts, one after the other.
pub fn joined(alloc: Global, parts: &[&str]) -> Result<String, AllocError> {
    let mut text = String::new(alloc);
    for part in parts {
        text.push_str(*part)?;
    }
    Ok(text)
}

/// A machine file of one region with these lines.
pub fn file(alloc: Global, layout: &str, size: &str, lines: &str) -> Result<String, AllocError> {
    joined(
        alloc,
        &[
            "regions = [{ addr = 4096, size = 8192 }]\nlayout = \"",
            layout,
            "\"\nsize = ",
            size,
            "\n",
            lines,
            "\n",
        ],
    )
}
