//! Who knows what was published.

// Who of a reader and the reader of a feed has seen it.
#[derive(Clone, Copy, Debug, PartialEq, Eq)]
pub(super) enum Seen {
    ByNobody,
    ByReader,
    ByFeed,
    ByBoth,
}

// Whether a receipt tells it, or a reader was told it.
#[derive(Clone, Copy, Debug, PartialEq, Eq)]
pub(super) enum Told {
    No,
    Yes,
}

pub(super) fn seen_by(by_reader: bool, by_feed: bool) -> Seen {
    match (by_reader, by_feed) {
        (false, false) => Seen::ByNobody,
        (true, false) => Seen::ByReader,
        (false, true) => Seen::ByFeed,
        (true, true) => Seen::ByBoth,
    }
}

pub(super) fn told_if(is_told: bool) -> Told {
    if is_told { Told::Yes } else { Told::No }
}
