//! Compactions.

use crate::clock::{each, since};
use crate::fault::{Answer, Fault, check};
use crate::keys::{VALUE, key};
use crate::plan::Plan;
use crate::series::{Name, Series, measured};
use crate::subject::{empty, overwrite};
use kv_single::Bucket;
use std::alloc::Global;
use std::rt::Clock;
use std::time::Instant;

// How few keys are written over and over.
const FEW: usize = 1000;

// Still there: the key's value.
fn is_there(alloc: Global, bucket: &Bucket) -> Result<(), Fault> {
    let key = key(alloc, 1)?;
    let found = bucket.version().get(&key)?.value() == VALUE;
    check(found, Answer::Values)
}

/// The time of a compaction to the last revision.
pub fn compaction<R: Clock>(rt: &R, bucket: &mut Bucket) -> Result<u64, Fault> {
    let floor = bucket.version().revision();
    let start = Instant::now(rt)?;
    bucket.compact(floor)?;
    let took = since(rt, &start)?;
    Ok(each(took, 1))
}

// The time of a compaction behind so many writes to these many keys.
fn behind<R: Clock>(
    rt: &R,
    alloc: Global,
    bucket: &mut Bucket,
    keys: usize,
    writes: usize,
) -> Result<u64, Fault> {
    overwrite(alloc, bucket, keys, writes)?;
    let took = compaction(rt, bucket)?;
    is_there(alloc, bucket)?;
    Ok(took)
}

fn measure<R: Clock>(rt: &R, alloc: Global, keys: usize, writes: usize) -> Result<u64, Fault> {
    let mut bucket = empty(alloc)?;
    behind(rt, alloc, &mut bucket, keys, writes)
}

fn compactions<R: Clock + Print>(
    rt: &R,
    alloc: Global,
    plan: Plan,
    what: &'static str,
    keys: usize,
) -> Result<(), Fault> {
    let name = Name::time("compact", what, "");
    let tenths = measured(alloc, plan.rounds, || measure(rt, alloc, keys, plan.keys))?;
    Series::of(name, plan, tenths).tell(rt)
}

/// Measures compactions of so many stored writes, to a thousand keys and to as many keys.
pub fn run<R: Clock + Print>(rt: &R, alloc: Global, plan: Plan) -> Result<(), Fault> {
    compactions(rt, alloc, plan, "compact 1,000 keys", FEW)?;
    compactions(rt, alloc, plan, "compact as many keys", plan.keys)
}
