//! What a stop answers.

/// What a stop of a watch answers.
#[derive(Clone, Copy, Debug, PartialEq, Eq)]
pub struct Stopped {
    /// How many items were handed out, the end marker counted.
    pub handed: u64,
}
