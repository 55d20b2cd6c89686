//! Where each chain that stands on a shadow ring came from, and what a relay keeps of each command there, by their heads.
#![tactic(auto)]

ghost use Rattle.std.specs.Prelude.{◌≡◌, ◌<◌, Some, None, IfOk, IsSome, length, replicate, slice_set};
ghost use Rattle.vd_table.specs.Rows.{row, stored};

mod rows;

pub use rows::Rows;
use std::alloc::{AllocError, Global};

/// Where a chain on a shadow ring came from.
#[derive(Copy, Clone, Debug, PartialEq, Eq)]
pub enum Origin {
    /// The chain of this number on the guest's ring, and the place of its ack word there.
    Guest { number: u32, ack_place: u32 },
    /// The command of this number of a replay.
    Replay(u32),
}

/// What a relay keeps of a command that stands on a shadow ring: its number and the place of its ack word on the guest's ring, how
/// many bytes it has, its two words, and whether a later command that sets the same was acknowledged already.
#[derive(Copy, Clone, Debug, PartialEq, Eq)]
pub struct Command {
    pub number: u32,
    pub ack_place: u32,
    pub count: u32,
    pub first: u64,
    pub second: u64,
    pub late: bool,
}

/// The origins and the commands of a shadow ring, by heads below its size.
#[derive(Drop)]
pub struct ShadowTable {
    pub origins: Rows<Origin>,
    pub commands: Rows<Command>,
}

impl ShadowTable {
    /// An empty table for heads below a size, with all the memory that it will need.
    pub fn new(alloc: Global, size: u32) -> Result<ShadowTable, AllocError>
        ensures { IfOk result (λ t. t ≡ record { origins = replicate size None; commands = replicate size None }) }
    {
        let origins = Rows::new(alloc, size)?;
        let commands = Rows::new(alloc, size)?;
        Ok(ShadowTable { origins, commands })
    }

    /// Stores the origin of the chain at a head, where none is stored. It takes no memory.
    pub fn put(&mut self, head: u32, origin: Origin)
        requires inside { head < length self.old.origins }
        requires free { row self.old.origins head ≡ None }
        ensures { self.new ≡ record self.old { origins = slice_set self.old.origins head (Some origin) } }
    {
        self.origins.put(head, origin);
    }

    /// Takes out the origin of the chain at a head, where one is stored.
    pub fn take(&mut self, head: u32) -> Origin
        requires inside { head < length self.old.origins }
        requires there { IsSome (row self.old.origins head) }
        ensures rows { self.new ≡ record self.old { origins = slice_set self.old.origins head None } }
        ensures origin { row self.old.origins head ≡ Some result }
    {
        self.origins.take(head)
    }

    /// At how many heads an origin is stored.
    pub fn len(&self) -> u32
        ensures { result ≡ stored self.now.origins }
    {
        self.origins.len()
    }
}
