//! How much is measured.

// The most keys that one round of one thread asks for.
const MOST_ASKED: usize = 5000;

// The most keys of a bucket that is written to: a bucket stores at most a million writes, and these are to have room.
const MOST_WRITTEN: usize = 950_000;

/// How many keys there are, how many rounds, and whether the figures are told.
#[derive(Clone, Copy)]
pub struct Plan {
    pub keys: usize,
    pub rounds: usize,
    pub quiet: bool,
}

impl Plan {
    /// How many keys a round of one thread asks for.
    pub fn asked(self) -> usize {
        self.keys.min(MOST_ASKED)
    }

    /// The same for a bucket that is written to: with no more keys than leave room for the writes.
    pub fn with_room(self) -> Plan {
        Plan {
            keys: self.keys.min(MOST_WRITTEN),
            ..self
        }
    }
}
