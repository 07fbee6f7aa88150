//! Which entries a watch is given, and in which order.

use super::driving::{Row, watch_gives};
use super::*;

// A bucket that keeps one entry of each key, with nothing in it.
const EMPTY: Row = Row {
    history: 1,
    before: &[],
    start: Start::Latest,
    ignore_deletes: false,
    initial: &[MARKER],
    after: &[],
    live: &[],
};

// Three puts of `k`, of which the last two are kept.
const TWO_KEPT: Row = Row {
    history: 2,
    before: &[
        Action::Put("k", "1"),
        Action::Put("k", "2"),
        Action::Put("k", "3"),
    ],
    initial: &[2, 3, MARKER],
    ..EMPTY
};

// A watch's filters, and its row.
const ROWS: &[(&str, Row)] = &[
    (">", EMPTY),
    // The initial entries come by revision.
    (
        ">",
        Row {
            before: &[
                Action::Put("b", "1"),
                Action::Put("a", "2"),
                Action::Put("b", "3"),
            ],
            initial: &[2, 3, MARKER],
            ..EMPTY
        },
    ),
    (
        ">",
        Row {
            before: &[Action::Put("b", "1")],
            initial: &[1, MARKER],
            after: &[Action::Put("a", "2"), Action::Put("b", "3")],
            live: &[2, 3],
            ..EMPTY
        },
    ),
    // They are those of its moment.
    (
        "k",
        Row {
            before: &[Action::Put("k", "1")],
            initial: &[1, MARKER],
            after: &[
                Action::Put("k", "2"),
                Action::Put("x", "0"),
                Action::Put("k", "3"),
            ],
            live: &[2, 4],
            ..EMPTY
        },
    ),
    // Where each start begins.
    (
        ">",
        Row {
            initial: &[3, MARKER],
            ..TWO_KEPT
        },
    ),
    (
        ">",
        Row {
            start: Start::History,
            ..TWO_KEPT
        },
    ),
    (
        ">",
        Row {
            start: Start::From(0),
            ..TWO_KEPT
        },
    ),
    (
        ">",
        Row {
            start: Start::From(2),
            ..TWO_KEPT
        },
    ),
    (
        ">",
        Row {
            start: Start::From(3),
            initial: &[3, MARKER],
            ..TWO_KEPT
        },
    ),
    (
        ">",
        Row {
            start: Start::From(4),
            initial: &[MARKER],
            ..TWO_KEPT
        },
    ),
    (
        ">",
        Row {
            start: Start::From(9),
            after: &[Action::Put("a", "")],
            live: &[1],
            ..EMPTY
        },
    ),
    (
        ">",
        Row {
            start: Start::Updates,
            before: &[Action::Put("b", "0")],
            initial: &[],
            after: &[Action::Put("a", "1")],
            live: &[2],
            ..EMPTY
        },
    ),
    // With and without markers.
    (
        ">",
        Row {
            history: 2,
            ignore_deletes: true,
            before: &[Action::Put("k", "1"), Action::Delete("k")],
            after: &[Action::Purge("k"), Action::Put("k", "2")],
            live: &[4],
            ..EMPTY
        },
    ),
    (
        "k",
        Row {
            history: 64,
            start: Start::History,
            before: &[
                Action::Put("k", "1"),
                Action::Purge("k"),
                Action::Put("k", "2"),
            ],
            initial: &[2, 3, MARKER],
            after: &[Action::Delete("k"), Action::Purge("k")],
            live: &[4, 5],
            ..EMPTY
        },
    ),
    // A list of filters.
    (
        "a.*,*.b",
        Row {
            history: 64,
            start: Start::From(2),
            before: &[
                Action::Put("a.b", "1"),
                Action::Put("c", "2"),
                Action::Put("a.b", "3"),
                Action::Put("x.b", "4"),
            ],
            initial: &[3, 4, MARKER],
            after: &[Action::Put("a.b", "5")],
            live: &[5],
            ..EMPTY
        },
    ),
];

#[test]
fn a_watch_is_given_its_entries_in_order(rt: HostRuntime) -> Result<(), Fail> {
    for (filters, row) in ROWS {
        watch_gives(&rt, rt.alloc(), filters, *row)?;
    }
    Ok(())
}
