//! Tests of watches by worked rows: writes, a watch, and what it is given. Each also passes where any one request for
//! memory is refused: then nothing has changed, and the same call, made again, goes on.

use crate::equal::equal;
use crate::limits::{empty, keeping};
use kv_keys::{Filter, Filters, KvError};
use kv_model::{Event, Op, Options, Request, Start};
use kv_store::Version;
use kv_test_tools::{LATEST, delete, once_more, purge, put};
use kv_watch::{Cursor, Taken};
use std::alloc::Global;
use std::process::Abort;
use std::test::Fail;

mod compacted;
mod driving;
mod flags;
mod rows;
mod shows;

// A write of a row.
#[derive(Clone, Copy)]
enum Action {
    Put(&'static str, &'static str),
    Delete(&'static str),
    Purge(&'static str),
}

// An item of a watch as a number: an entry by its revision, and the marker as 0.
fn number_of(item: Event) -> u64 {
    match item {
        Event::Entry { revision } => revision,
        Event::Marker => MARKER,
    }
}

const MARKER: u64 = 0;

fn request(alloc: Global, action: Action) -> Result<Request, KvError> {
    match action {
        Action::Put(key, value) => put(alloc, key, value),
        Action::Delete(key) => delete(alloc, key, None),
        Action::Purge(key) => purge(alloc, key, None),
    }
}

fn write_once(alloc: Global, version: &Version, action: Action) -> Result<Version, KvError> {
    let request = request(alloc, action)?;
    version.apply(alloc, &request)
}

// The version with one more write.
fn write(alloc: Global, version: &Version, action: Action) -> Result<Version, KvError> {
    once_more!(write_once(alloc, version, action))
}

// A version with these writes behind those of another.
fn write_all(alloc: Global, version: Version, actions: &[Action]) -> Result<Version, KvError> {
    let mut version = version;
    for action in actions {
        version = write(alloc, &version, *action)?;
    }
    Ok(version)
}

// A bucket with these writes that keeps so many entries of each key.
fn kept(alloc: Global, history: u64, actions: &[Action]) -> Result<Version, KvError> {
    let version = empty(alloc, keeping(history))?;
    write_all(alloc, version, actions)
}

// A bucket with these writes that keeps one entry of each key.
fn written(alloc: Global, actions: &[Action]) -> Result<Version, KvError> {
    kept(alloc, 1, actions)
}

fn filters(alloc: Global, text: &str) -> Result<Filters, KvError> {
    once_more!(Filters::parse(alloc, text))
}

fn one_once(alloc: Global, text: &str) -> Result<Filters, KvError> {
    let filter = Filter::parse(alloc, text)?;
    Filters::one(alloc, &filter)
}

// The list of one filter.
fn one(alloc: Global, text: &str) -> Result<Filters, KvError> {
    once_more!(one_once(alloc, text))
}

// A cursor at the version. A refusal leaves the version as it was.
fn open(
    rt: &impl Abort,
    alloc: Global,
    version: &Version,
    filters: &Filters,
    options: Options,
) -> Result<Cursor, KvError> {
    let before = version.status();
    once_more!(
        Cursor::open(alloc, version, filters, options),
        equal(rt, version.status(), before)
    )
}

fn open_on(
    rt: &impl Abort,
    alloc: Global,
    version: &Version,
    text: &str,
    options: Options,
) -> Result<Cursor, KvError> {
    let filters = filters(alloc, text)?;
    open(rt, alloc, version, &filters, options)
}

// The next item, which `peek` says before, and by which `handed` grows.
fn step(rt: &impl Abort, cursor: &mut Cursor, base: &Version, now: &Version) -> Option<u64> {
    let handed = cursor.handed();
    let next = cursor.peek(Some(base), now).event();
    let taken = cursor.take(Some(base), now).event();
    equal(rt, next, taken);
    equal(rt, cursor.handed() == handed, taken.is_none());
    taken.map(number_of)
}
