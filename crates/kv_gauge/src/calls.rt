//! The calls of the library on one thread.

use crate::fault::Fault;
use crate::keys::{VALUE, deletes, filters_of, one_filter, puts, spread};
use crate::plan::Plan;
use crate::series::{Name, Series, measured};
use crate::subject::{empty, fill, grow, time_writes};
use crate::{long, reading, watching};
use kv_single::{Bucket, Filter, Key};
use std::alloc::Global;
use std::rt::Clock;

// What is measured on a bucket that has its keys.
#[derive(Clone, Copy)]
enum What {
    Get,
    Snapshot,
    KeysOfKey,
    KeysOfOne,
    KeysOfWildcard,
    KeysOfAll,
    WatchKey,
    WatchOne,
    WatchWildcard,
    WatchAll,
    InitialItem,
    IdlePoll,
    PutThere,
    History,
    LiveItem,
    Delete,
}

// Those that change nothing.
const READS: &'static [What] = &[
    What::Get,
    What::Snapshot,
    What::KeysOfKey,
    What::KeysOfOne,
    What::KeysOfWildcard,
    What::KeysOfAll,
    What::WatchKey,
    What::WatchOne,
    What::WatchWildcard,
    What::WatchAll,
    What::InitialItem,
    What::IdlePoll,
];

// Those that write, and histories, which have more than one entry once there were puts to keys that are there. Deletes
// are last, since they change what the others read.
const WRITES: &'static [What] = &[What::PutThere, What::History, What::LiveItem, What::Delete];

fn text(what: What) -> &'static str {
    match what {
        What::Get => "get",
        What::Snapshot => "snapshot",
        What::KeysOfKey => "keys of a literal filter",
        What::KeysOfOne => "keys of *.17",
        What::KeysOfWildcard => "keys of a.*",
        What::KeysOfAll => "keys of >",
        What::WatchKey => "open a watch of a literal filter",
        What::WatchOne => "open a watch of *.17",
        What::WatchWildcard => "open a watch of a.*",
        What::WatchAll => "open a watch of >",
        What::InitialItem => "take an initial item",
        What::IdlePoll => "take where there is nothing",
        What::PutThere => "put, key that is there",
        What::History => "history",
        What::LiveItem => "take a live item",
        What::Delete => "delete",
    }
}

fn write<R: Clock>(
    rt: &R,
    alloc: Global,
    bucket: &mut Bucket,
    asked: &[Key],
    what: What,
) -> Result<u64, Fault> {
    let requests = match what {
        What::Delete => deletes(alloc, asked)?,
        _ => puts(alloc, asked)?,
    };
    match what {
        What::LiveItem => watching::live_items(rt, alloc, bucket, requests.as_slice()),
        _ => time_writes(rt, bucket, requests.as_slice()),
    }
}

// The filters that are listed or watched, each alone, and how many keys they have in all.
fn filters(
    alloc: Global,
    plan: Plan,
    asked: &[Key],
    what: What,
) -> Result<(Vec<Filter>, usize), Fault> {
    match what {
        What::KeysOfOne | What::WatchOne => Ok((
            one_filter(alloc, "*.17")?,
            if plan.keys > 17 { 1 } else { 0 },
        )),
        What::KeysOfWildcard | What::WatchWildcard => Ok((
            one_filter(alloc, "a.*")?,
            plan.keys.div_ceil(100),
        )),
        What::KeysOfAll | What::WatchAll => Ok((one_filter(alloc, ">")?, plan.keys)),
        _ => Ok((filters_of(alloc, asked)?, asked.len())),
    }
}

fn find<R: Clock>(
    rt: &R,
    alloc: Global,
    bucket: &mut Bucket,
    plan: Plan,
    asked: &[Key],
    what: What,
) -> Result<u64, Fault> {
    let (filters, wanted) = filters(alloc, plan, asked, what)?;
    match what {
        What::KeysOfKey | What::KeysOfOne | What::KeysOfWildcard | What::KeysOfAll =>
            reading::lists(rt, alloc, bucket.version(), filters.as_slice(), wanted),
        _ => watching::opens(rt, alloc, bucket, filters.as_slice()),
    }
}

fn measure<R: Clock>(
    rt: &R,
    alloc: Global,
    bucket: &mut Bucket,
    plan: Plan,
    asked: &[Key],
    what: What,
) -> Result<u64, Fault> {
    let few = asked.len();
    match what {
        What::Get => reading::gets(rt, bucket.version(), asked, VALUE.len()),
        What::Snapshot => reading::snapshots(rt, bucket.version(), few),
        What::InitialItem => watching::initial_items(rt, alloc, bucket, few),
        What::IdlePoll => watching::idle_polls(rt, alloc, bucket, few),
        What::History => reading::histories(rt, alloc, bucket.version(), asked),
        What::PutThere | What::LiveItem | What::Delete => write(rt, alloc, bucket, asked, what),
        _ => find(rt, alloc, bucket, plan, asked, what),
    }
}

fn figure<R: Clock + Print>(
    rt: &R,
    alloc: Global,
    bucket: &mut Bucket,
    plan: Plan,
    asked: &[Key],
    what: What,
) -> Result<(), Fault> {
    let name = Name::time("calls", text(what), "");
    let tenths = measured(
        alloc,
        plan.rounds,
        || measure(rt, alloc, bucket, plan, asked, what),
    )?;
    Series::of(name, plan, tenths).tell(rt)
}

// The time of a put of a new key, in a bucket that is let go.
fn growth<R: Clock>(rt: &R, alloc: Global, keys: usize) -> Result<u64, Fault> {
    let mut bucket = empty(alloc)?;
    grow(rt, alloc, &mut bucket, keys)
}

// Each round grows a bucket of its own.
fn growths<R: Clock + Print>(rt: &R, alloc: Global, plan: Plan) -> Result<(), Fault> {
    let name = Name::time("calls", "put, new key", "");
    let tenths = measured(alloc, plan.rounds, || growth(rt, alloc, plan.keys))?;
    Series::of(name, plan, tenths).tell(rt)
}

// The figures of these calls, of a bucket that has its keys.
fn figures<R: Clock + Print>(
    rt: &R,
    alloc: Global,
    bucket: &mut Bucket,
    plan: Plan,
    calls: &[What],
) -> Result<(), Fault> {
    let asked = spread(alloc, plan.keys, plan.asked())?;
    for what in calls {
        figure(rt, alloc, bucket, plan, asked.as_slice(), *what)?;
    }
    Ok(())
}

fn fill_and_measure<R: Clock + Print>(
    rt: &R,
    alloc: Global,
    plan: Plan,
    calls: &[What],
) -> Result<(), Fault> {
    let mut bucket = empty(alloc)?;
    fill(alloc, &mut bucket, plan.keys)?;
    figures(rt, alloc, &mut bucket, plan, calls)
}

/// Which calls are measured. Each part is for a process of its own: a bucket behind one that was freed was seen to be slower.
#[derive(Clone, Copy)]
pub enum Part {
    /// Puts of new keys.
    Growth,
    /// What changes nothing.
    Reads,
    /// Writes to keys that are there, and what needs these.
    Writes,
    /// Gets and puts of values that take a block of their own.
    Long,
}

/// Measures each call of a part.
pub fn run<R: Clock + Print>(rt: &R, alloc: Global, plan: Plan, part: Part) -> Result<(), Fault> {
    match part {
        Part::Growth => growths(rt, alloc, plan),
        Part::Reads => fill_and_measure(rt, alloc, plan, READS),
        Part::Writes => fill_and_measure(rt, alloc, plan.with_room(), WRITES),
        Part::Long => long::run(rt, alloc, plan.with_room()),
    }
}
