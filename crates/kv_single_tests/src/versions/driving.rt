//! What drives the rows of a history. Each row makes a version of its own, and is done to a second version in place;
//! so each of the two is an equal one, built apart, beside which the other is held.

use super::*;
use crate::same::tell_the_same;

pub(super) fn made(
    alloc: Global,
    version: &Version,
    text: &str,
    ask: Ask,
) -> Result<Version, KvError> {
    match ask {
        Ask::Seal => version.seal(alloc),
        Ask::Compact(floor) => version.compact(alloc, floor),
        _ => version.apply(alloc, &request(alloc, text, ask)?),
    }
}

// The version behind a row, which is this one where the row is refused. A refusal leaves it as its twin is.
fn next(
    rt: &impl Abort,
    alloc: Global,
    version: &Version,
    twin: &Version,
    row: Row,
) -> Result<Version, KvError> {
    let made = once_more!(
        made(alloc, version, row.0, row.1),
        tell_the_same(rt, version, twin)
    );
    match made {
        Ok(next) => {
            assert!(rt; row.2 == Ok(next.revision()));
            Ok(next)
        }
        Err(error) => {
            assert!(rt; row.2 == Err(error));
            version.snapshot()
        }
    }
}

fn done(alloc: Global, here: &mut Version, text: &str, ask: Ask) -> Result<(), KvError> {
    match ask {
        Ask::Seal => {
            *here = here.seal(alloc)?;
            Ok(())
        }
        Ask::Compact(floor) => here.compact_in_place(alloc, floor),
        _ => here.write(alloc, &request(alloc, text, ask)?),
    }
}

// Does the row to the version itself, which goes from the former version to the next one. A refusal leaves it as it was.
fn goes_on(
    rt: &impl Abort,
    alloc: Global,
    here: &mut Version,
    former: &Version,
    next: &Version,
    row: Row,
) {
    let done = once_more!(
        done(alloc, here, row.0, row.1),
        tell_the_same(rt, here, former)
    );
    match done {
        Ok(()) => assert!(rt; row.2 == Ok(here.revision())),
        Err(error) => assert!(rt; row.2 == Err(error)),
    }
    tell_the_same(rt, here, next);
}

// The same beside a snapshot, which stays as the former version is.
fn goes_on_beside(
    rt: &impl Abort,
    alloc: Global,
    here: &mut Version,
    former: &Version,
    next: &Version,
    row: Row,
) -> Result<(), KvError> {
    let held = here.snapshot()?;
    goes_on(rt, alloc, here, former, next, row);
    tell_the_same(rt, &held, former);
    Ok(())
}

fn step(
    rt: &impl Abort,
    alloc: Global,
    version: &mut Version,
    here: &mut Version,
    beside: bool,
    row: Row,
) -> Result<(), KvError> {
    let next = next(rt, alloc, version, here, row)?;
    if beside {
        goes_on_beside(rt, alloc, here, version, &next, row)?;
    } else {
        goes_on(rt, alloc, here, version, &next, row);
    }
    *version = next;
    Ok(())
}

fn holds_so(
    rt: &impl Abort,
    alloc: Global,
    limits: Limits,
    beside: bool,
    rows: &[Row],
    facts: &[Fact],
) -> Result<(), KvError> {
    let mut version = empty(alloc, limits)?;
    let mut here = empty(alloc, limits)?;
    for row in rows {
        step(rt, alloc, &mut version, &mut here, beside, *row)?;
    }
    facts::are_told(rt, alloc, &version, facts)
}

// In a new bucket each row has its answer, with and without a snapshot beside it, and then these are the facts.
pub(super) fn holds(
    rt: &impl Abort,
    alloc: Global,
    limits: Limits,
    rows: &[Row],
    facts: &[Fact],
) -> Result<(), KvError> {
    holds_so(rt, alloc, limits, false, rows, facts)?;
    holds_so(rt, alloc, limits, true, rows, facts)
}
