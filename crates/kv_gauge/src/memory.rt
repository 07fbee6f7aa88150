//! The memory of this process, as Linux tells it.

use crate::fault::{Answer, Fault, check};
use crate::plan::Plan;
use crate::series::{Name, Series};
use crate::subject::{empty, overwrite};
use kv_single::{Bucket, Version};
use std::alloc::Global;
use std::fs;
use std::rt::Files;

// How many keys are written over and over before a compaction.
const KEYS: usize = 1000;

// How many keys or writes are weighed at once, at least: what the process has anyway, and its last page, are little beside
// them. Where nothing is told a few will do.
const WEIGHED: usize = 100_000;

const QUIETLY_WEIGHED: usize = 200;

// The bytes that a line of /proc/self/status tells in kilobytes, if it is the one of the resident memory.
fn resident_of(line: &str) -> Option<u64> {
    let mut words = line.split_ascii_whitespace();
    if words.next()? != "VmRSS:" {
        return None;
    }
    let kilobytes = words.next()?.parse::<u64>().ok()?;
    Some(kilobytes.saturating_mul(1024))
}

fn resident_in(text: &str) -> Option<u64> {
    for line in text.lines() {
        if let Some(bytes) = resident_of(line) {
            return Some(bytes);
        }
    }
    None
}

/// The resident memory, in bytes.
pub fn resident<R: Files + AllocGlobal>(rt: &R) -> Result<u64, Fault> {
    let text = fs::read_to_string(rt, "/proc/self/status")?;
    resident_in(text.as_str()).ok_or(Fault::System)
}

/// Tenths of a byte that each of so many takes.
pub fn each(after: u64, before: u64, count: usize) -> u64 {
    if count == 0 {
        return 0;
    }
    after.saturating_sub(before).saturating_mul(10) / count as u64
}

/// What is weighed: each in a process of its own, since freed memory stays with the process.
#[derive(Clone, Copy)]
pub enum What {
    /// Keys, each written once.
    Keys,
    /// A second write to each key.
    Writes,
    /// The same while a snapshot of the first writes is held.
    Held,
    /// Writes to a thousand keys, once they were compacted.
    Compacted,
}

// As many empty buckets as have enough to be weighed.
fn buckets(alloc: Global, plan: Plan) -> Result<Vec<Bucket>, Fault> {
    let enough = if plan.quiet { QUIETLY_WEIGHED } else { WEIGHED };
    let mut buckets = Vec::new(alloc);
    for _ in 0..enough.div_ceil(plan.keys.max(1)) {
        buckets.push(empty(alloc)?)?;
    }
    Ok(buckets)
}

fn overwrite_all(
    alloc: Global,
    buckets: &mut Vec<Bucket>,
    keys: usize,
    writes: usize,
) -> Result<(), Fault> {
    for bucket in buckets.iter_mut() {
        overwrite(alloc, bucket, keys, writes)?;
    }
    Ok(())
}

fn compact_all(buckets: &mut Vec<Bucket>) -> Result<(), Fault> {
    for bucket in buckets.iter_mut() {
        bucket.compact(bucket.version().revision())?;
    }
    Ok(())
}

fn snapshots(alloc: Global, buckets: &Vec<Bucket>) -> Result<Vec<Version>, Fault> {
    let mut snapshots = Vec::new(alloc);
    for bucket in buckets {
        snapshots.push(bucket.version().snapshot()?)?;
    }
    Ok(snapshots)
}

// A write to each key of each bucket.
fn writes<R: Files + AllocGlobal>(
    rt: &R,
    alloc: Global,
    buckets: &mut Vec<Bucket>,
    keys: usize,
) -> Result<u64, Fault> {
    let before = resident(rt)?;
    overwrite_all(alloc, buckets, keys, keys)?;
    Ok(each(resident(rt)?, before, keys.saturating_mul(buckets.len())))
}

// The same while the versions before it are held.
fn held<R: Files + AllocGlobal>(
    rt: &R,
    alloc: Global,
    buckets: &mut Vec<Bucket>,
    keys: usize,
) -> Result<u64, Fault> {
    let snapshots = snapshots(alloc, buckets)?;
    let took = writes(rt, alloc, buckets, keys)?;
    for snapshot in &snapshots {
        check(snapshot.revision() == keys as u64, Answer::Revision)?;
    }
    Ok(took)
}

fn compacted<R: Files + AllocGlobal>(
    rt: &R,
    alloc: Global,
    buckets: &mut Vec<Bucket>,
    count: usize,
) -> Result<u64, Fault> {
    let before = resident(rt)?;
    overwrite_all(alloc, buckets, KEYS, count)?;
    compact_all(buckets)?;
    Ok(each(resident(rt)?, before, count.saturating_mul(buckets.len())))
}

fn weigh_in<R: Files + AllocGlobal>(
    rt: &R,
    alloc: Global,
    buckets: &mut Vec<Bucket>,
    count: usize,
    what: What,
) -> Result<u64, Fault> {
    match what {
        What::Keys => writes(rt, alloc, buckets, count),
        What::Writes => {
            overwrite_all(alloc, buckets, count, count)?;
            writes(rt, alloc, buckets, count)
        }
        What::Held => {
            overwrite_all(alloc, buckets, count, count)?;
            held(rt, alloc, buckets, count)
        }
        What::Compacted => compacted(rt, alloc, buckets, count),
    }
}

fn weigh<R: Files + AllocGlobal>(
    rt: &R,
    alloc: Global,
    plan: Plan,
    what: What,
) -> Result<u64, Fault> {
    let mut buckets = buckets(alloc, plan)?;
    weigh_in(rt, alloc, &mut buckets, plan.keys, what)
}

fn text(what: What) -> &'static str {
    match what {
        What::Keys => "a key, written once",
        What::Writes => "a second write to each key",
        What::Held => "a second write to each key, a snapshot held",
        What::Compacted => "a write to one of 1,000 keys, once compacted",
    }
}

/// Tells what each of something takes, in tenths of a byte.
pub fn tell<R: Print>(
    rt: &R,
    alloc: Global,
    plan: Plan,
    what: &'static str,
    tenths: u64,
) -> Result<(), Fault> {
    let name = Name {
        unit: "bytes",
        ..Name::time("memory", what, "")
    };
    let mut series = Series::new(alloc, name, plan);
    series.add(tenths)?;
    series.tell(rt)
}

/// Weighs once.
pub fn run<R: Files + AllocGlobal + Print>(
    rt: &R,
    alloc: Global,
    plan: Plan,
    what: What,
) -> Result<(), Fault> {
    let tenths = weigh(rt, alloc, plan, what)?;
    tell(rt, alloc, plan, text(what), tenths)
}
