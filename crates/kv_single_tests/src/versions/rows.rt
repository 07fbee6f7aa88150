//! Writes, one after the other, each with its answer.

use super::*;

const LAST_IS_ONE: Result<u64, KvError> = Err(KvError::WrongLastRevision { last: 1 });

// The revision that a write names is the last one of its key.
const NAMED: &[Row] = &[
    ("k", Ask::Put("1"), Ok(1)),
    ("k", Ask::Update("", u64::MAX), LAST_IS_ONE),
    ("k", Ask::Purge(Some(u64::MAX)), LAST_IS_ONE),
    ("k", Ask::Delete(Some(0)), LAST_IS_ONE),
    ("n", Ask::Update("2", 0), Ok(2)),
    ("k", Ask::Delete(Some(1)), Ok(3)),
    ("n", Ask::Purge(Some(2)), Ok(4)),
    (
        "k",
        Ask::Update("3", 1),
        Err(KvError::WrongLastRevision { last: 3 }),
    ),
];

#[test]
fn a_write_names_the_last_revision(rt: HostRuntime) -> Result<(), Fail> {
    holds(&rt, rt.alloc(), keeping(1), NAMED, &[])?;
    Ok(())
}

const MARKERS: &[Row] = &[
    ("a", Ask::Delete(None), Ok(1)),
    ("b", Ask::Purge(None), Ok(2)),
    ("k", Ask::Delete(Some(0)), Ok(3)),
    ("n", Ask::Purge(Some(0)), Ok(4)),
];

const MARKED: &[Fact] = &[
    Fact::Entries("a", &[(Op::Delete, 1)]),
    Fact::Entries("b", &[(Op::Purge, 2)]),
    Fact::Entries("k", &[(Op::Delete, 3)]),
    Fact::Entries("n", &[(Op::Purge, 4)]),
    Fact::Numbers(
        Status {
            history: 1,
            last: 4,
            sealed: false,
            stored: 4,
            values: 4,
        },
        0,
    ),
];

#[test]
fn a_delete_of_a_key_that_never_was_is_a_marker(rt: HostRuntime) -> Result<(), Fail> {
    holds(&rt, rt.alloc(), keeping(1), MARKERS, MARKED)?;
    Ok(())
}

// Writes of keys that share a place and of others, and requests that are refused.
const PLACES: &[Row] = &[
    ("altarage", Ask::Create("one"), Ok(1)),
    ("altarage", Ask::Create("two"), Err(KvError::KeyExists)),
    ("zinke", Ask::Put("three"), Ok(2)),
    ("a", Ask::Put("four"), Ok(3)),
    ("a", Ask::Update("five", 3), Ok(4)),
    (
        "zinke",
        Ask::Update("six", 1),
        Err(KvError::WrongLastRevision { last: 2 }),
    ),
    ("b", Ask::Delete(None), Ok(5)),
    ("a", Ask::Put("seven"), Ok(6)),
    ("zinke", Ask::Purge(Some(2)), Ok(7)),
    ("zinke", Ask::Create("eight"), Ok(8)),
    ("c", Ask::Put(""), Ok(9)),
];

// The second revision is of the other key.
const TOLD_APART: &[Fact] = &[
    Fact::Value("altarage", None, Some(b"one")),
    Fact::Value("altarage", Some(2), None),
    Fact::Entries("altarage", &[(Op::Put, 1)]),
    Fact::Entries("zinke", &[(Op::Purge, 7), (Op::Put, 8)]),
    Fact::Selected("zinke", Start::Latest, &[8]),
    Fact::Selected("zinke,altarage", Start::Latest, &[1, 8]),
];

#[test]
fn keys_that_share_a_place_are_told_apart(rt: HostRuntime) -> Result<(), Fail> {
    holds(&rt, rt.alloc(), keeping(2), PLACES, TOLD_APART)?;
    Ok(())
}

// Keys and values of 24 bytes and of 25, and six revisions of a key: of each as many as lie in their entry, and one more.
const LENGTHS: &[Row] = &[
    (
        "services.billing.port.v1",
        Ask::Put("0123456789abcdefghijklmn"),
        Ok(1),
    ),
    (
        "services.billing.port.v12",
        Ask::Put("0123456789abcdefghijklmno"),
        Ok(2),
    ),
    ("services.billing.port.v1", Ask::Put("3"), Ok(3)),
    ("services.billing.port.v1", Ask::Put("4"), Ok(4)),
    ("services.billing.port.v1", Ask::Put("5"), Ok(5)),
    ("services.billing.port.v1", Ask::Put("6"), Ok(6)),
    ("services.billing.port.v1", Ask::Put("7"), Ok(7)),
];

const LONG: &[Fact] = &[
    Fact::Value(
        "services.billing.port.v1",
        Some(1),
        Some(b"0123456789abcdefghijklmn"),
    ),
    Fact::Value("services.billing.port.v1", None, Some(b"7")),
    Fact::Value(
        "services.billing.port.v12",
        None,
        Some(b"0123456789abcdefghijklmno"),
    ),
    Fact::Kept("services.billing.port.v1", Some(&[1, 3, 4, 5, 6, 7])),
    Fact::Kept("services.billing.port.v12", Some(&[2])),
    Fact::Keys(
        "services.>",
        "services.billing.port.v12 services.billing.port.v1 ",
    ),
];

#[test]
fn keys_and_values_of_24_and_25_bytes_are_read_back(rt: HostRuntime) -> Result<(), Fail> {
    holds(&rt, rt.alloc(), keeping(6), LENGTHS, LONG)?;
    Ok(())
}
