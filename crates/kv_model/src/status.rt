//! The numbers of a version.

/// What a version tells of itself.
#[derive(Clone, Copy, Debug, PartialEq, Eq)]
pub struct Status {
    /// How many entries of each key are kept.
    pub history: u64,
    /// The last revision.
    pub last: u64,
    /// Whether writes have ended.
    pub sealed: bool,
    /// How many writes are stored.
    pub stored: u64,
    /// How many entries are retained, markers included.
    pub values: u64,
}
