//! What a version tells.

use super::*;
use kv_keys::{Filter, Filters};
use kv_store::Rev;

#[derive(Clone, Copy)]
pub(super) enum Fact {
    // The numbers, and the floor.
    Numbers(Status, u64),
    // The write of a revision.
    Write(u32, Option<(&'static str, Op, &'static [u8])>),
    // The value of a key, now or at a revision.
    Value(&'static str, Option<u64>, Option<&'static [u8]>),
    // The retained entries of a key.
    Entries(&'static str, &'static [(Op, u64)]),
    // The same by their revisions.
    Kept(&'static str, Option<&'static [u64]>),
    // The keys that match a filter, each with a space behind it.
    Keys(&'static str, &'static str),
    // The keys that one of a list of filters matches, likewise.
    KeysWhere(&'static str, &'static str),
    // The revisions that are selected by a list of filters.
    Selected(&'static str, Start, &'static [u64]),
    // Whether a floor is bad.
    BadFloor(u64, bool),
}

fn has_numbers(rt: &impl Abort, version: &Version, status: Status, floor: u64) {
    equal(rt, version.status(), status);
    equal(rt, version.revision(), status.last);
    equal(rt, version.sealed(), status.sealed);
    equal(rt, version.by_revision().len(), status.stored);
    equal(rt, version.floor(), floor);
    equal(rt, version.bucket(), "kv");
}

fn parts(found: Option<&Write>) -> Option<(&str, Op, &[u8])> {
    match found {
        Some(write) => Some((write.key().as_str(), write.op(), write.value())),
        None => None,
    }
}

fn has_write(rt: &impl Abort, version: &Version, revision: u32, wanted: Option<(&str, Op, &[u8])>) {
    assert!(rt; parts(version.write_at(revision as u64)) == wanted);
    assert!(rt; parts(version.by_revision().get(&Rev::new(revision))) == wanted);
}

fn value(found: Result<&Write, KvError>) -> Option<&[u8]> {
    match found {
        Ok(write) => Some(write.value()),
        Err(_) => None,
    }
}

fn has_value(
    rt: &impl Abort,
    alloc: Global,
    version: &Version,
    text: &str,
    at: Option<u64>,
    wanted: Option<&[u8]>,
) -> Result<(), KvError> {
    let key = Key::parse(alloc, text)?;
    let found = match at {
        None => version.get(&key),
        Some(revision) => version.get_at(&key, revision),
    };
    equal(rt, value(found), wanted);
    Ok(())
}

fn numbers_of(alloc: Global, writes: &[&Write]) -> Result<Vec<(Op, u64)>, KvError> {
    let mut numbers = Vec::new(alloc);
    for write in writes {
        numbers.push((write.op(), write.revision()))?;
    }
    Ok(numbers)
}

// Of a key that was never written there are none.
fn entries(alloc: Global, version: &Version, key: &Key) -> Result<Vec<(Op, u64)>, KvError> {
    match version.history(alloc, key) {
        Ok(writes) => numbers_of(alloc, &writes),
        Err(KvError::KeyNotFound) => Ok(Vec::new(alloc)),
        Err(error) => Err(error),
    }
}

fn has_entries(
    rt: &impl Abort,
    alloc: Global,
    version: &Version,
    text: &str,
    wanted: &[(Op, u64)],
) -> Result<(), KvError> {
    let key = Key::parse(alloc, text)?;
    equal(rt, entries(alloc, version, &key)?.as_slice(), wanted);
    Ok(())
}

fn last(kept: Option<&[u64]>) -> u64 {
    match kept {
        Some(revisions) => revisions.last().copied().unwrap_or(0),
        None => 0,
    }
}

fn in_trie<'a>(version: &'a Version, key: &Key) -> Option<&'a [u64]> {
    match version.by_key().get(key) {
        Some(kept) => Some(kept.revisions()),
        None => None,
    }
}

fn last_in_trie(version: &Version, key: &Key) -> u64 {
    match version.by_key().get(key) {
        Some(kept) => kept.last().revision(),
        None => 0,
    }
}

fn revision_of(write: Option<&Write>) -> u64 {
    match write {
        Some(write) => write.revision(),
        None => 0,
    }
}

fn has_kept(
    rt: &impl Abort,
    alloc: Global,
    version: &Version,
    text: &str,
    wanted: Option<&[u64]>,
) -> Result<(), KvError> {
    let key = Key::parse(alloc, text)?;
    equal(rt, version.kept_at(&key), wanted);
    equal(rt, in_trie(version, &key), wanted);
    equal(rt, version.last_revision(&key), last(wanted));
    equal(rt, last_in_trie(version, &key), last(wanted));
    equal(rt, revision_of(version.last_write(&key)), last(wanted));
    Ok(())
}

fn text_of(alloc: Global, keys: &[&Key]) -> Result<String, KvError> {
    let mut text = String::new(alloc);
    for key in keys {
        text.push_str(key.as_str())?;
        text.push(' ')?;
    }
    Ok(text)
}

fn has_keys(
    rt: &impl Abort,
    alloc: Global,
    version: &Version,
    filter: &str,
    wanted: &str,
) -> Result<(), KvError> {
    let filter = Filter::parse(alloc, filter)?;
    let keys = version.keys(alloc, &filter)?;
    equal(rt, text_of(alloc, &keys)?.as_str(), wanted);
    Ok(())
}

fn has_keys_where(
    rt: &impl Abort,
    alloc: Global,
    version: &Version,
    filters: &str,
    wanted: &str,
) -> Result<(), KvError> {
    let filters = Filters::parse(alloc, filters)?;
    let keys = version.keys_where(alloc, &filters)?;
    equal(rt, text_of(alloc, &keys)?.as_str(), wanted);
    Ok(())
}

fn selects(
    rt: &impl Abort,
    alloc: Global,
    version: &Version,
    filters: &str,
    start: Start,
    wanted: &[u64],
) -> Result<(), KvError> {
    let filters = Filters::parse(alloc, filters)?;
    let revisions = version.revisions_where(alloc, &filters, start)?;
    equal(rt, revisions.as_slice(), wanted);
    Ok(())
}

fn is_told(rt: &impl Abort, alloc: Global, version: &Version, fact: Fact) -> Result<(), KvError> {
    match fact {
        Fact::Numbers(status, floor) => {
            has_numbers(rt, version, status, floor);
            Ok(())
        }
        Fact::Write(revision, wanted) => {
            has_write(rt, version, revision, wanted);
            Ok(())
        }
        Fact::BadFloor(floor, wanted) => {
            equal(rt, version.is_bad_floor(floor), wanted);
            Ok(())
        }
        Fact::Value(text, at, wanted) => has_value(rt, alloc, version, text, at, wanted),
        Fact::Entries(text, wanted) => has_entries(rt, alloc, version, text, wanted),
        Fact::Kept(text, wanted) => has_kept(rt, alloc, version, text, wanted),
        Fact::Keys(filter, wanted) => has_keys(rt, alloc, version, filter, wanted),
        Fact::KeysWhere(filters, wanted) => has_keys_where(rt, alloc, version, filters, wanted),
        Fact::Selected(filters, start, wanted) => {
            selects(rt, alloc, version, filters, start, wanted)
        }
    }
}

pub(super) fn are_told(
    rt: &impl Abort,
    alloc: Global,
    version: &Version,
    facts: &[Fact],
) -> Result<(), KvError> {
    for fact in facts {
        once_more!(is_told(rt, alloc, version, *fact))?;
    }
    Ok(())
}
