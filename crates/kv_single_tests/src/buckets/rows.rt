//! Rows of asks, by the calls themselves and in one run.

use super::*;

// In a new bucket each row has its answer, both ways.
fn holds(rt: &impl Abort, alloc: Global, limits: Limits, rows: &[Row]) -> Result<(), KvError> {
    let mut bucket = open(alloc, limits)?;
    let mut twin = open(alloc, limits)?;
    asking::ask_each_beside(rt, alloc, &mut bucket, &mut twin, rows);
    running::run_all(rt, alloc, limits, rows)
}

const INITIAL: &[Row] = &[
    (Ask::Put("b", "1"), Answer::Revision(1)),
    (Ask::Put("a", "2"), Answer::Revision(2)),
    (Ask::Put("b", "3"), Answer::Revision(3)),
    (Ask::Watch(">"), Answer::Watch(1)),
    (Ask::WatchOne(">"), Answer::Watch(2)),
    (Ask::Take(1), Answer::Entry(2, b'2')),
    (Ask::Take(2), Answer::Entry(2, b'2')),
    (Ask::Take(1), Answer::Entry(3, b'3')),
    (Ask::Take(1), Answer::Marker),
    (Ask::Take(1), Answer::Empty),
    (Ask::Take(2), Answer::Entry(3, b'3')),
    (Ask::Take(2), Answer::Marker),
];

#[test]
fn a_run_answers_as_its_calls_do(rt: HostRuntime) -> Result<(), Fail> {
    holds(&rt, rt.alloc(), keeping(1), INITIAL)?;
    Ok(())
}

const BEHIND_ONE: Answer = Answer::Refused(KvError::WatchBehind { watch: 1 });

const BEHIND_TWO: Answer = Answer::Refused(KvError::WatchBehind { watch: 2 });

const BAD_FLOOR: Answer = Answer::Refused(KvError::BadFloor);

// An entry of the opening that was compacted since is still handed out, as it was. Of two watches that are behind the
// least is told, and a bad floor before either.
const LEAST: &[Row] = &[
    (Ask::Put("k", "1"), Answer::Revision(1)),
    (Ask::Watch(">"), Answer::Watch(1)),
    (Ask::Watch(">"), Answer::Watch(2)),
    (Ask::Put("k", "2"), Answer::Revision(2)),
    (Ask::Compact(1), Answer::Compacted(1)),
    (Ask::GetAt("k", 1), NOT_FOUND),
    (Ask::Compact(3), BAD_FLOOR),
    (Ask::Compact(2), BEHIND_ONE),
    (Ask::Take(1), Answer::Entry(1, b'1')),
    (Ask::Take(1), Answer::Marker),
    (Ask::Take(1), Answer::Entry(2, b'2')),
    (Ask::Compact(2), BEHIND_TWO),
    (Ask::Stop(2), Answer::Stopped(0)),
    (Ask::Compact(2), Answer::Compacted(2)),
    (Ask::Compact(0), BAD_FLOOR),
];

#[test]
fn the_least_watch_that_is_behind_is_told(rt: HostRuntime) -> Result<(), Fail> {
    holds(&rt, rt.alloc(), keeping(1), LEAST)?;
    Ok(())
}

const NOT_FOUND: Answer = Answer::Refused(KvError::KeyNotFound);

const MARKED: Status = Status {
    history: 2,
    last: 4,
    sealed: false,
    stored: 4,
    values: 1,
};

const OVER_MARKERS: &[Row] = &[
    (Ask::Put("k", "1"), Answer::Revision(1)),
    (Ask::Get("k"), Answer::Entry(1, b'1')),
    (Ask::Delete("k"), Answer::Revision(2)),
    (Ask::Get("k"), NOT_FOUND),
    (Ask::GetAt("k", 1), Answer::Entry(1, b'1')),
    (Ask::GetAt("k", 2), NOT_FOUND),
    (Ask::History("k"), Answer::Count(2)),
    (Ask::History("n"), NOT_FOUND),
    (Ask::Keys("*"), Answer::Count(0)),
    (Ask::Watch("k"), Answer::Watch(1)),
    (Ask::Take(1), Answer::Entry(2, 0)),
    (Ask::Take(1), Answer::Marker),
    (Ask::Create("k"), Answer::Revision(3)),
    (Ask::Create("k"), Answer::Refused(KvError::KeyExists)),
    (Ask::Keys("*"), Answer::Count(1)),
    (
        Ask::Purge("k", 2),
        Answer::Refused(KvError::WrongLastRevision { last: 3 }),
    ),
    (Ask::Purge("k", 3), Answer::Revision(4)),
    (Ask::Take(1), Answer::Entry(3, 0)),
    (Ask::Take(1), Answer::Entry(4, 0)),
    (Ask::Take(1), Answer::Empty),
    (Ask::Status, Answer::Status(MARKED, 1)),
    (Ask::Stop(1), Answer::Stopped(4)),
    (Ask::Seal, Answer::Sealed),
    (Ask::Seal, Answer::Sealed),
    (Ask::Create("n"), Answer::Refused(KvError::Sealed)),
];

#[test]
fn each_call_answers_over_markers(rt: HostRuntime) -> Result<(), Fail> {
    holds(&rt, rt.alloc(), keeping(2), OVER_MARKERS)?;
    Ok(())
}

// What is as long, or as many, as it may be. Memory suffices for it, so no call may give up on it.
const LONGEST: &[Row] = &[
    (
        Ask::Watch("a,b,c,d.*,e,f,g,h,*,j.>,k,l,m,n,o,p"),
        Answer::Watch(1),
    ),
    (Ask::PutLongest, Answer::Revision(1)),
    (Ask::Take(1), Answer::Marker),
    (Ask::Take(1), Answer::Entry(1, 7)),
    (Ask::Take(1), Answer::Empty),
];

#[test]
fn memory_suffices_for_the_longest(rt: HostRuntime) -> Result<(), Fail> {
    holds(&rt, rt.alloc(), keeping(64), LONGEST)?;
    Ok(())
}

// A put and a take, again and again.
fn rows(alloc: Global) -> Result<Vec<Row>, KvError> {
    let mut rows = Vec::new(alloc);
    rows.push((Ask::Watch("k"), Answer::Watch(1)))?;
    rows.push((Ask::Take(1), Answer::Marker))?;
    for revision in 1..1_001u64 {
        rows.push((Ask::Put("k", "1"), Answer::Revision(revision)))?;
        rows.push((Ask::Take(1), Answer::Entry(revision, b'1')))?;
    }
    Ok(rows)
}

#[test]
fn a_run_has_two_thousand_calls(rt: HostRuntime) -> Result<(), Fail> {
    let rows = once_more!(rows(rt.alloc()))?;
    running::run_all(&rt, rt.alloc(), keeping(1), &rows)?;
    Ok(())
}
