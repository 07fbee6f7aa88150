//! The acts of the bucket of a test, one in each function: first those of the bucket that threads share, and then those of a bucket of
//! one thread. None of these has a contract, so what makes several acts is proved sooner by them than by calls of the bucket.

use crate::equal::equal;
use crate::opened::{Shared, number};
use kv_durable::Durable;
use kv_durable_live::{DurableError, LiveName, Shrunk};
use kv_file::MemoryFile;
use kv_test_tools::delete;
use std::alloc::Global;
use std::process::Abort;
use std::sync::Wait;

// The seed of the file that a checkpoint makes.
pub const NEXT_SEED: u64 = 0xFEDC_BA98_7654_3210;

pub fn write<N: LiveName, R: Wait>(
    rt: &R,
    alloc: Global,
    live: &Shared<N>,
    key: &str,
) -> Result<u64, DurableError> {
    live.write(rt, &number(alloc, key)?)
}

// The next write has this revision.
pub fn writes<N: LiveName, R: Wait + Abort>(
    rt: &R,
    alloc: Global,
    live: &Shared<N>,
    key: &str,
    revision: u64,
) -> Result<(), DurableError> {
    equal(rt, write(rt, alloc, live, key)?, revision);
    Ok(())
}

// Writes one key so often.
pub fn write_often<N: LiveName, R: Wait>(
    rt: &R,
    alloc: Global,
    live: &Shared<N>,
    key: &str,
    writes: u64,
) -> Result<(), DurableError> {
    for _ in 0..writes {
        write(rt, alloc, live, key)?;
    }
    Ok(())
}

pub fn shrink<N: LiveName, R: Wait>(
    rt: &R,
    live: &Shared<N>,
    floor: u64,
) -> Result<Shrunk, DurableError> {
    live.lock(rt)
        .compact_and_checkpoint(rt, floor, &(), NEXT_SEED)
}

pub fn write_alone(
    alloc: Global,
    bucket: &mut Durable<MemoryFile>,
    key: &str,
) -> Result<(), DurableError> {
    bucket.write(&number(alloc, key)?)?;
    Ok(())
}

pub fn delete_alone(
    alloc: Global,
    bucket: &mut Durable<MemoryFile>,
    key: &str,
) -> Result<(), DurableError> {
    bucket.write(&delete(alloc, key, None)?)?;
    Ok(())
}

pub fn compact_alone(bucket: &mut Durable<MemoryFile>, floor: u64) -> Result<(), DurableError> {
    bucket.compact(floor)
}

pub fn checkpoint_alone(bucket: &mut Durable<MemoryFile>) -> Result<(), DurableError> {
    bucket.checkpoint(&(), NEXT_SEED)
}

pub fn shrink_alone(bucket: &mut Durable<MemoryFile>, floor: u64) -> Result<Shrunk, DurableError> {
    bucket.compact_and_checkpoint(floor, &(), NEXT_SEED)
}
