//! The readers of a test, their feeds, and what both see.

use crate::equal::equal;
use kv_bucket::{Feed, Filters, Options, Start, Taken};
use kv_durable_live::{DurableError, LiveName, Reader};
use kv_keys::KvError;
use std::alloc::Global;
use std::process::Abort;

pub fn popped<N: LiveName>(readers: &mut Vec<Reader<N>>) -> Result<Reader<N>, KvError> {
    readers.pop().ok_or(KvError::NoReader)
}

// Each reader sees this revision as the last.
pub fn see<N: LiveName, R: Abort>(
    rt: &R,
    readers: &mut Vec<Reader<N>>,
    revision: u64,
) -> Result<(), DurableError> {
    for reader in readers.iter_mut() {
        equal(rt, reader.version()?.revision(), revision);
    }
    Ok(())
}

// All that comes from this start on.
fn all_from(start: Start) -> Options {
    Options {
        start,
        ignore_deletes: false,
        headers_only: false,
    }
}

pub fn followed<N: LiveName>(
    alloc: Global,
    reader: Reader<N>,
    start: Start,
) -> Result<Feed<N>, DurableError> {
    let filters = Filters::parse(alloc, ">")?;
    match reader.watch(&filters, all_from(start)) {
        Ok(feed) => Ok(feed),
        Err((_, refusal)) => Err(DurableError::Refused(refusal)),
    }
}

// A feed that begins with nothing.
pub fn followed_from_empty<N: LiveName>(
    alloc: Global,
    reader: Reader<N>,
) -> Result<Feed<N>, DurableError> {
    let filters = Filters::parse(alloc, ">")?;
    match reader.watch_from_empty(&filters, all_from(Start::Updates)) {
        Ok(feed) => Ok(feed),
        Err((_, refusal)) => Err(DurableError::Refused(refusal)),
    }
}

fn next_revision<N: LiveName>(feed: &mut Feed<N>) -> u64 {
    match feed.take() {
        Taken::Entry(shown) => shown.revision(),
        Taken::Marker | Taken::Empty => 0,
    }
}

// The feed gets the write of each revision from the first to the last.
pub fn gets<N: LiveName, R: Abort>(rt: &R, feed: &mut Feed<N>, first: u64, last: u64) {
    for revision in first..last.saturating_add(1) {
        equal(rt, next_revision(feed), revision);
    }
}
