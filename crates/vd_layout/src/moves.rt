//! What a party's step was.

/// What one step of a party was.
#[derive(Copy, Clone, Debug, PartialEq, Eq)]
pub enum Move {
    /// It made an access of its work.
    Worked,
    /// A sleeper looked at its bell, which had not changed.
    Looked,
    /// After it the party is done.
    Finished,
}
