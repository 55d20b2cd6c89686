//! A small file, and files that differ from it in a few lines.
use crate::*;
use std::alloc::{AllocError, Global};

pub const VALID: &str =
    "layout = \"split\"\nsize = 4\nregions = [{ addr = 4096, size = 8192 }]\nqueues = [[\"r4096+10 w8192+64\"]]\n";

const LINES: [(&str, &str, &str); 4] = [
    ("layout", "\nlayout", "layout = \"split\"\n"),
    ("size", "\nsize", "size = 4\n"),
    (
        "regions",
        "\nregions",
        "regions = [{ addr = 4096, size = 8192 }]\n",
    ),
    ("queues", "\nqueues", "queues = [[\"r4096+10 w8192+64\"]]\n"),
];

/// The small file with these lines, each in the stead of the line with its key.
pub fn with(alloc: Global, change: &str) -> Result<String, AllocError> {
    let mut text = String::from_str(alloc, change)?;
    text.push_str("\n")?;
    for (first, later, line) in LINES {
        if !change.starts_with(first) && !change.contains(later) {
            text.push_str(line)?;
        }
    }
    Ok(text)
}

/// The rule that the bytes break.
pub fn fault_in(alloc: Global, bytes: &[u8]) -> Result<Option<MachineFault>, AllocError> {
    match Machine::read(alloc, bytes) {
        Ok(_) => Ok(None),
        Err(ReadRefusal::Fault(rule)) => Ok(Some(rule)),
        Err(ReadRefusal::Memory) => Err(AllocError),
    }
}

/// The rule that the small file breaks with these lines.
pub fn fault_of(alloc: Global, change: &str) -> Result<Option<MachineFault>, AllocError> {
    let text = with(alloc, change)?;
    fault_in(alloc, text.as_bytes())
}
