//! What drives a row: the plain list of what a watch is given, and cursors that go through it in several ways.

use super::*;
use kv_model::Write;
use kv_watch::given;

// A row: a bucket with writes before the watch and others after it, and what the watch is given by each.
#[derive(Clone, Copy)]
pub(super) struct Row {
    pub(super) history: u64,
    pub(super) before: &'static [Action],
    pub(super) start: Start,
    pub(super) ignore_deletes: bool,
    pub(super) initial: &'static [u64],
    pub(super) after: &'static [Action],
    pub(super) live: &'static [u64],
}

fn options_of(row: Row) -> Options {
    Options {
        start: row.start,
        ignore_deletes: row.ignore_deletes,
        ..LATEST
    }
}

fn stored(alloc: Global, version: &Version) -> Result<Vec<&Write>, KvError> {
    let mut writes = Vec::new(alloc);
    for place in 0..version.revision() {
        match version.write_at(place + 1) {
            Some(write) => writes.push(write)?,
            None => return Err(KvError::KeyNotFound),
        }
    }
    Ok(writes)
}

// The plain list of what the watch is given that began behind so many writes.
fn listed(
    alloc: Global,
    now: &Version,
    base: u64,
    filters: &Filters,
    row: Row,
) -> Result<Vec<Event>, KvError> {
    let writes = stored(alloc, now)?;
    let end = writes.len() as u64;
    if base > end {
        return Err(KvError::KeyNotFound);
    }
    given(
        alloc,
        &writes,
        base,
        end,
        row.history,
        filters,
        options_of(row),
    )
}

// The list is the initial items and then the live ones.
fn are_listed(rt: &impl Abort, events: &[Event], row: Row) {
    let mut items = row.initial.iter().chain(row.live).copied();
    for event in events {
        equal(rt, Some(number_of(*event)), items.next());
    }
    equal(rt, items.next(), None);
}

// The cursor hands out these items.
fn hands_out(rt: &impl Abort, cursor: &mut Cursor, base: &Version, now: &Version, items: &[u64]) {
    for item in items {
        equal(rt, step(rt, cursor, base, now), Some(*item));
    }
}

// The cursor hands out these items and then nothing, and settles.
fn hands_out_all(
    rt: &impl Abort,
    cursor: &mut Cursor,
    base: &Version,
    now: &Version,
    items: &[u64],
) {
    hands_out(rt, cursor, base, now, items);
    equal(rt, step(rt, cursor, base, now), None);
    cursor.settle(now);
    equal(rt, step(rt, cursor, base, now), None);
}

// A cursor on the version hands out the first part before the later writes are there, and the rest behind them. Another one
// hands out all once they are there: a settle before all was handed out changes no answer.
fn cursors_give(
    rt: &impl Abort,
    alloc: Global,
    base: &Version,
    now: &Version,
    filters: &Filters,
    row: Row,
) -> Result<(), KvError> {
    let options = options_of(row);
    let mut cursor = open(rt, alloc, base, filters, options)?;
    assert!(rt; cursor.options() == options);
    equal(rt, cursor.handed(), 0);
    hands_out_all(rt, &mut cursor, base, base, row.initial);
    hands_out_all(rt, &mut cursor, base, now, row.live);
    let mut cursor = open(rt, alloc, base, filters, options)?;
    cursor.settle(now);
    hands_out(rt, &mut cursor, base, now, row.initial);
    cursor.settle(now);
    hands_out_all(rt, &mut cursor, base, now, row.live);
    Ok(())
}

// The row holds of the plain list, and of cursors that go through it.
fn gives(rt: &impl Abort, alloc: Global, filters: &Filters, row: Row) -> Result<(), KvError> {
    let base = kept(alloc, row.history, row.before)?;
    let now = write_all(alloc, base.snapshot()?, row.after)?;
    let events = once_more!(listed(alloc, &now, base.revision(), filters, row))?;
    are_listed(rt, &events, row);
    cursors_give(rt, alloc, &base, &now, filters, row)
}

// The row holds of a watch of a list of filters, and of the list that is made of one filter, where the text is one.
pub(super) fn watch_gives(
    rt: &impl Abort,
    alloc: Global,
    text: &str,
    row: Row,
) -> Result<(), KvError> {
    let filters = filters(alloc, text)?;
    gives(rt, alloc, &filters, row)?;
    match one(alloc, text) {
        Ok(single) => gives(rt, alloc, &single, row),
        Err(KvError::BadFilter) => Ok(()),
        Err(error) => Err(error),
    }
}
