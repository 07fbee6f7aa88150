//! Values, writes and revisions at their limits, and which refusal comes first.

use super::*;

// Values of three bytes, and two writes.
const SMALL: Limits = Limits {
    value_limit: 3,
    write_limit: 2,
    ..DEFAULTS
};

// Where there is more than one reason against a request it is refused by the first.
const FULL: &[Row] = &[
    ("a", Ask::Put("abc"), Ok(1)),
    ("a", Ask::Update("abcd", 1), Err(KvError::ValueTooLarge)),
    ("b", Ask::Put(""), Ok(2)),
    ("k", Ask::Put(""), Err(KvError::JournalFull)),
    ("n", Ask::Delete(None), Err(KvError::JournalFull)),
    ("n", Ask::Purge(None), Err(KvError::JournalFull)),
    ("a", Ask::Create("abcd"), Err(KvError::ValueTooLarge)),
    ("a", Ask::Create(""), Err(KvError::JournalFull)),
    ("a", Ask::Update("", 7), Err(KvError::JournalFull)),
    ("a", Ask::Delete(Some(7)), Err(KvError::JournalFull)),
    ("", Ask::Seal, Ok(2)),
    ("a", Ask::Create("abcd"), Err(KvError::ValueTooLarge)),
    ("a", Ask::Create(""), Err(KvError::Sealed)),
    ("a", Ask::Update("", 7), Err(KvError::Sealed)),
    ("n", Ask::Purge(None), Err(KvError::Sealed)),
    ("", Ask::Seal, Ok(2)),
];

const SEALED: Status = Status {
    history: 1,
    last: 2,
    sealed: true,
    stored: 2,
    values: 2,
};

#[test]
fn a_write_is_refused_for_the_first_reason(rt: HostRuntime) -> Result<(), Fail> {
    let facts = [Fact::Numbers(SEALED, 0)];
    holds(&rt, rt.alloc(), SMALL, FULL, &facts)?;
    Ok(())
}

const LARGE: &[Row] = &[
    ("a", Ask::Zeros(1_048_577), Err(KvError::ValueTooLarge)),
    ("a", Ask::Zeros(1_048_576), Ok(1)),
];

#[test]
fn a_value_has_at_most_a_mebibyte(rt: HostRuntime) -> Result<(), Fail> {
    holds(&rt, rt.alloc(), keeping(1), LARGE, &[])?;
    Ok(())
}
