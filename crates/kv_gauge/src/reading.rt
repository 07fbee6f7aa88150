//! Reads of a version: the times of one call, in tenths of a nanosecond.

use crate::clock::{each, since};
use crate::fault::{Answer, Fault, check};
use kv_single::{Filter, Key, Version};
use std::alloc::Global;
use std::rt::Clock;
use std::time::Instant;

fn get_all(version: &Version, keys: &[Key]) -> Result<usize, Fault> {
    let mut bytes = 0_usize;
    for key in keys {
        bytes = bytes.wrapping_add(version.get(key)?.value().len());
    }
    Ok(bytes)
}

/// Gets of values that have so many bytes each.
pub fn gets<R: Clock>(rt: &R, version: &Version, keys: &[Key], size: usize) -> Result<u64, Fault> {
    let start = Instant::now(rt)?;
    let bytes = get_all(version, keys)?;
    let took = since(rt, &start)?;
    check(bytes == keys.len().wrapping_mul(size), Answer::Values)?;
    Ok(each(took, keys.len()))
}

fn read_histories(alloc: Global, version: &Version, keys: &[Key]) -> Result<usize, Fault> {
    let mut entries = 0_usize;
    for key in keys {
        entries = entries.wrapping_add(version.history(alloc, key)?.len());
    }
    Ok(entries)
}

/// Histories of keys that were written at least twice.
pub fn histories<R: Clock>(
    rt: &R,
    alloc: Global,
    version: &Version,
    keys: &[Key],
) -> Result<u64, Fault> {
    let start = Instant::now(rt)?;
    let entries = read_histories(alloc, version, keys)?;
    let took = since(rt, &start)?;
    check(entries / 2 >= keys.len(), Answer::Histories)?;
    Ok(each(took, keys.len()))
}

fn take_snapshots(version: &Version, count: usize) -> Result<u64, Fault> {
    let mut last = 0;
    for _ in 0..count {
        last = version.snapshot()?.revision();
    }
    Ok(last)
}

/// Snapshots, each let go at once.
pub fn snapshots<R: Clock>(rt: &R, version: &Version, count: usize) -> Result<u64, Fault> {
    let start = Instant::now(rt)?;
    let last = take_snapshots(version, count)?;
    let took = since(rt, &start)?;
    check(last == version.revision(), Answer::Revision)?;
    Ok(each(took, count))
}

// How many keys these filters have, each listed by itself.
fn list_all(alloc: Global, version: &Version, filters: &[Filter]) -> Result<usize, Fault> {
    let mut found = 0_usize;
    for filter in filters {
        found = found.wrapping_add(version.keys(alloc, filter)?.len());
    }
    Ok(found)
}

/// Lists the keys of filters, one filter after the other; in all they have so many.
pub fn lists<R: Clock>(
    rt: &R,
    alloc: Global,
    version: &Version,
    filters: &[Filter],
    wanted: usize,
) -> Result<u64, Fault> {
    let start = Instant::now(rt)?;
    let found = list_all(alloc, version, filters)?;
    let took = since(rt, &start)?;
    check(found == wanted, Answer::Keys)?;
    Ok(each(took, filters.len()))
}
