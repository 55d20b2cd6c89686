//! Sources and sinks of bytes that count their faults, and reading a source to its end.
#![tactic(auto)]

mod again;
mod memory_sink;
mod memory_source;
mod outside;
mod reading;
mod sink;
mod source;

pub use memory_sink::MemorySink;
pub use memory_source::MemorySource;
pub use outside::{ReadSource, WriteSink};
pub use reading::{MOST_BYTES, ReadFault, read_whole};
pub use sink::{Sink, put_all};
pub use source::Source;

/// A take or a put that failed.
#[derive(Clone, Copy, Debug, PartialEq, Eq)]
pub struct Failed;

#[cfg(test)]
mod tests;
