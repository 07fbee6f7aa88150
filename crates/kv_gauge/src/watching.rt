//! Watches of a bucket on one thread: the times of one call, in tenths of a nanosecond.

use crate::clock::{each, since};
use crate::fault::{Answer, Fault, check};
use crate::subject::write_all;
use kv_single::{Bucket, Filter, Filters, Options, Request, Start, Taken};
use std::alloc::Global;
use std::rt::Clock;
use std::time::Instant;

/// A watch that begins with what there is.
pub const LATEST: Options = Options {
    start: Start::Latest,
    ignore_deletes: false,
    headers_only: false,
};

/// A watch that begins with nothing.
pub const UPDATES: Options = Options {
    start: Start::Updates,
    ignore_deletes: false,
    headers_only: false,
};

// Lists of one filter.
fn lists_of_one(alloc: Global, filters: &[Filter]) -> Result<Vec<Filters>, Fault> {
    let mut lists = Vec::new(alloc);
    for filter in filters {
        lists.push(Filters::one(alloc, filter)?)?;
    }
    Ok(lists)
}

fn open_all(bucket: &mut Bucket, lists: &[Filters]) -> Result<(), Fault> {
    for list in lists {
        let watch = bucket.watch(list, LATEST)?;
        bucket.stop(watch)?;
    }
    Ok(())
}

/// Opens a watch of each filter, and stops it.
pub fn opens<R: Clock>(
    rt: &R,
    alloc: Global,
    bucket: &mut Bucket,
    filters: &[Filter],
) -> Result<u64, Fault> {
    let lists = lists_of_one(alloc, filters)?;
    let start = Instant::now(rt)?;
    open_all(bucket, lists.as_slice())?;
    Ok(each(since(rt, &start)?, filters.len()))
}

// How many of so many takes gave an entry.
fn take_entries(bucket: &mut Bucket, watch: u64, count: usize) -> Result<usize, Fault> {
    let mut entries = 0_usize;
    for _ in 0..count {
        if let Taken::Entry(_) = bucket.take(watch)? {
            entries = entries.wrapping_add(1);
        }
    }
    Ok(entries)
}

fn time_takes<R: Clock>(
    rt: &R,
    bucket: &mut Bucket,
    watch: u64,
    count: usize,
    wanted: usize,
) -> Result<u64, Fault> {
    let start = Instant::now(rt)?;
    let entries = take_entries(bucket, watch, count)?;
    let took = since(rt, &start)?;
    bucket.stop(watch)?;
    check(entries == wanted, Answer::Items)?;
    Ok(each(took, count))
}

fn open(alloc: Global, bucket: &mut Bucket, filters: &str, options: Options) -> Result<u64, Fault> {
    let filters = Filters::parse(alloc, filters)?;
    let watch = bucket.watch(&filters, options)?;
    Ok(watch)
}

/// Takes initial items of a watch of all keys.
pub fn initial_items<R: Clock>(
    rt: &R,
    alloc: Global,
    bucket: &mut Bucket,
    count: usize,
) -> Result<u64, Fault> {
    let watch = open(alloc, bucket, ">", LATEST)?;
    time_takes(rt, bucket, watch, count, count)
}

/// Takes the items of these writes.
pub fn live_items<R: Clock>(
    rt: &R,
    alloc: Global,
    bucket: &mut Bucket,
    requests: &[Request],
) -> Result<u64, Fault> {
    let watch = open(alloc, bucket, ">", UPDATES)?;
    write_all(bucket, requests)?;
    time_takes(rt, bucket, watch, requests.len(), requests.len())
}

/// Takes where there is nothing to take.
pub fn idle_polls<R: Clock>(
    rt: &R,
    alloc: Global,
    bucket: &mut Bucket,
    count: usize,
) -> Result<u64, Fault> {
    let watch = open(alloc, bucket, ">", UPDATES)?;
    time_takes(rt, bucket, watch, count, 0)
}
