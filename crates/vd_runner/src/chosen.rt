//! What the words of a command line order.

/// What a command does.
#[derive(Copy, Clone, Debug, PartialEq, Eq)]
pub enum ModeWord {
    /// Plays the machine and writes its report.
    Play,
    /// Writes the canonical text of the machine.
    Check,
}

/// What the words of a command line order.
#[derive(Copy, Clone, Debug, PartialEq, Eq)]
pub struct Options {
    pub mode: ModeWord,
    /// The number by which a play draws how many steps a party makes in its turn.
    pub seed: Option<u64>,
    /// Whether the report has no line for each chain.
    pub brief: bool,
}
