//! Compactions, each with its answer.

use super::*;

// Three puts of `a`, a delete of `b` and a put of `c` are compacted. The floor never falls.
const COMPACTED: &[Row] = &[
    ("", Ask::Compact(0), Err(KvError::BadFloor)),
    ("a", Ask::Put("1"), Ok(1)),
    ("a", Ask::Put("2"), Ok(2)),
    ("a", Ask::Put("3"), Ok(3)),
    ("b", Ask::Delete(None), Ok(4)),
    ("c", Ask::Put("4"), Ok(5)),
    ("", Ask::Compact(6), Err(KvError::BadFloor)),
    ("", Ask::Compact(4), Ok(5)),
    ("", Ask::Compact(3), Err(KvError::BadFloor)),
];

const REST: &[Fact] = &[
    Fact::Numbers(
        Status {
            history: 2,
            last: 5,
            sealed: false,
            stored: 3,
            values: 3,
        },
        4,
    ),
    Fact::Value("a", Some(2), Some(b"2")),
    Fact::Kept("b", None),
    Fact::Write(1, None),
    Fact::BadFloor(0, true),
    Fact::BadFloor(3, true),
    Fact::BadFloor(4, false),
    Fact::BadFloor(6, true),
];

#[test]
fn a_compacted_version_tells_what_is_left(rt: HostRuntime) -> Result<(), Fail> {
    holds(&rt, rt.alloc(), keeping(2), COMPACTED, REST)?;
    Ok(())
}

// A marker is cleared by a compaction to its revision, and not by one below it.
const CLEARED: &[Row] = &[
    ("k", Ask::Put("1"), Ok(1)),
    ("k", Ask::Delete(None), Ok(2)),
    ("n", Ask::Put("2"), Ok(3)),
    ("", Ask::Compact(1), Ok(3)),
    (
        "k",
        Ask::Update("3", 0),
        Err(KvError::WrongLastRevision { last: 2 }),
    ),
    ("", Ask::Compact(2), Ok(3)),
    ("k", Ask::Update("3", 0), Ok(4)),
];

#[test]
fn a_cleared_key_is_as_one_never_written(rt: HostRuntime) -> Result<(), Fail> {
    holds(&rt, rt.alloc(), keeping(1), CLEARED, &[])?;
    Ok(())
}
