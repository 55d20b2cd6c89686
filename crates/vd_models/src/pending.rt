//! What a model guest has in hand of a command between its operations.

/// How far the next command is, or the last that was collected. A guest of chains has nothing in hand.
#[derive(Copy, Clone)]
pub enum Pending {
    /// No word of the next command is stored, and each entry collected has its ack.
    Free,
    /// The next command's first word is stored.
    First,
    /// Both its words are stored: it is offered next, or its offer is in progress.
    Both,
    /// This chain was collected, and its ack isn't loaded.
    Ack { number: u32, len: u32, head: u32 },
}
