//! Versions of one history, each made of another, all of which are kept and asked at the end.

use super::*;
use facts::are_told;

// The version that is made of another by a put, a delete or a seal. A refusal leaves that one as it is.
fn made(rt: &impl Abort, alloc: Global, version: &Version, ask: Ask) -> Result<Version, KvError> {
    let before = version.status();
    once_more!(
        driving::made(alloc, version, "a", ask),
        equal(rt, version.status(), before)
    )
}

const NOTHING: Status = Status {
    history: 1,
    last: 0,
    sealed: false,
    stored: 0,
    values: 0,
};

const ONE: Status = Status {
    last: 1,
    stored: 1,
    values: 1,
    ..NOTHING
};

const TWO: Status = Status {
    last: 2,
    stored: 2,
    ..ONE
};

const TWO_SEALED: Status = Status {
    sealed: true,
    ..TWO
};

const EMPTY: &[Fact] = &[
    Fact::Numbers(NOTHING, 0),
    Fact::Value("a", None, None),
    Fact::Entries("a", &[]),
    Fact::Write(1, None),
];

const PUT: &[Fact] = &[
    Fact::Numbers(ONE, 0),
    Fact::Value("a", None, Some(b"1")),
    Fact::Entries("a", &[(Op::Put, 1)]),
    Fact::Write(2, None),
];

const DELETED: &[Fact] = &[
    Fact::Numbers(TWO, 0),
    Fact::Value("a", None, None),
    Fact::Entries("a", &[(Op::Delete, 2)]),
    Fact::Write(2, Some(("a", Op::Delete, b""))),
];

const SEALED: &[Fact] = &[
    Fact::Numbers(TWO_SEALED, 0),
    Fact::Value("a", None, None),
    Fact::Entries("a", &[(Op::Delete, 2)]),
    Fact::Write(2, Some(("a", Op::Delete, b""))),
];

// Each of the five is asked once all of them are there.
#[test]
fn each_version_tells_its_own_beside_later_ones(rt: HostRuntime) -> Result<(), Fail> {
    let alloc = rt.alloc();
    let empty = empty(alloc, keeping(1))?;
    let put = made(&rt, alloc, &empty, Ask::Put("1"))?;
    let held = put.snapshot()?;
    let deleted = made(&rt, alloc, &put, Ask::Delete(None))?;
    let sealed = made(&rt, alloc, &deleted, Ask::Seal)?;
    are_told(&rt, alloc, &empty, EMPTY)?;
    are_told(&rt, alloc, &put, PUT)?;
    are_told(&rt, alloc, &held, PUT)?;
    are_told(&rt, alloc, &deleted, DELETED)?;
    are_told(&rt, alloc, &sealed, SEALED)?;
    Ok(())
}
