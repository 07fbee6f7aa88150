//! What a watch is given, by revisions alone.

/// What a watch is given: an entry by its revision, or the end marker.
#[derive(Clone, Copy, Debug, PartialEq, Eq)]
pub enum Event {
    /// An entry, of this revision.
    Entry { revision: u64 },
    /// The end of the initial entries.
    Marker,
}
