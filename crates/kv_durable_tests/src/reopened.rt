//! Tests of openings of checkpoints that stand behind many acts, under several histories.

use crate::acts::{checkpoint, compact_back, delete_in, purge_in, put_in, put_often, seal};
use crate::equal::equal;
use crate::steps::{self, Bucket, STEPS, config, empty, first_steps, opened, step};
use kv_durable::{DurableError, Opened, Sync};
use kv_file::MemoryFile;
use kv_store::Version;
use kv_test_tools::{is_same_at, twice};
use std::alloc::Global;
use std::process::Abort;
use std::test::Fail;

const KEYS: &[&str] = &["app.port", "app.host", "app.name"];

// Opens the bucket of these bytes, which keeps so many writes of each key.
fn opened_with(
    alloc: Global,
    history: u64,
    bytes: &[u8],
) -> Result<Opened<MemoryFile>, DurableError> {
    let mut config = config(alloc)?;
    config.history = history;
    steps::opened_with(alloc, &config, bytes)
}

fn is_same(first: &Version, second: &Version) -> bool {
    if first.status() != second.status() || first.floor() != second.floor() {
        return false;
    }
    for revision in 0..first.revision() {
        if !is_same_at(first, second, revision + 1) {
            return false;
        }
    }
    true
}

// Opens the file of a bucket once more, and compares.
fn again(
    rt: &impl Abort,
    alloc: Global,
    history: u64,
    bucket: &Bucket,
) -> Result<Opened<MemoryFile>, DurableError> {
    let second = opened_with(alloc, history, bucket.journal().file().kept())?;
    equal(rt, second.dropped, 0);
    assert!(rt; is_same(bucket.bucket().version(), second.durable.bucket().version()));
    Ok(second)
}

// The same, of a file that begins with a checkpoint.
fn is_checkpointed(
    rt: &impl Abort,
    alloc: Global,
    history: u64,
    bucket: &Bucket,
) -> Result<(), DurableError> {
    let second = again(rt, alloc, history, bucket)?;
    assert!(rt; second.checkpointed);
    Ok(())
}

// The checkpoint of a bucket is opened as the same bucket.
fn is_opened(
    rt: &impl Abort,
    alloc: Global,
    history: u64,
    bucket: &mut Bucket,
) -> Result<(), DurableError> {
    checkpoint(bucket)?;
    is_checkpointed(rt, alloc, history, bucket)
}

// Puts, deletes and purges of three keys, and now and then a compaction to a few revisions back.
fn turn(alloc: Global, bucket: &mut Bucket, number: u64) -> Result<(), DurableError> {
    let key = KEYS[(number % 3) as usize];
    if number % 10 == 9 {
        return compact_back(bucket, 4);
    }
    match number % 7 {
        3 => delete_in(alloc, bucket, key, None),
        5 => purge_in(alloc, bucket, key),
        _ => put_in(alloc, bucket, key, "80"),
    }
}

// Each checkpoint of a course is opened, also where the file began with one, and where writes have ended.
fn a_course_is_opened(rt: &impl Abort, alloc: Global, history: u64) -> Result<(), DurableError> {
    let mut bucket = opened_with(alloc, history, &[])?.durable;
    for number in 0..64u64 {
        turn(alloc, &mut bucket, number)?;
        is_opened(rt, alloc, history, &mut bucket)?;
    }
    seal(&mut bucket)?;
    is_opened(rt, alloc, history, &mut bucket)
}

#[test]
fn each_checkpoint_of_a_course_is_opened(rt: HostRuntime) -> Result<(), Fail> {
    for history in [1u64, 2, 5] {
        twice!(a_course_is_opened(&rt, rt.alloc(), history))?;
    }
    Ok(())
}

// A bucket that stores little of many writes.
fn with_gap(alloc: Global, writes: u64) -> Result<Bucket, DurableError> {
    let mut bucket = opened_with(alloc, 1, &[])?.durable;
    put_in(alloc, &mut bucket, "app.host", "kv")?;
    purge_in(alloc, &mut bucket, "app.name")?;
    put_often(alloc, &mut bucket, writes)?;
    compact_back(&mut bucket, 0)?;
    Ok(bucket)
}

// It is opened, and so is the bucket behind one write more.
fn a_gap_is_opened(rt: &impl Abort, alloc: Global, writes: u64) -> Result<(), DurableError> {
    let mut bucket = with_gap(alloc, writes)?;
    is_opened(rt, alloc, 1, &mut bucket)?;
    put_in(alloc, &mut bucket, "app.name", "durable")?;
    is_opened(rt, alloc, 1, &mut bucket)
}

#[test]
fn a_checkpoint_of_what_is_left_of_many_writes_is_opened(rt: HostRuntime) -> Result<(), Fail> {
    for writes in [1u64, 64, 1000] {
        twice!(a_gap_is_opened(&rt, rt.alloc(), writes))?;
    }
    Ok(())
}

// Entries behind a checkpoint are read as they are without one.
fn entries_go_on(rt: &impl Abort, alloc: Global, steps: usize) -> Result<(), DurableError> {
    let mut bucket = opened(alloc, empty(alloc), Sync::Each)?.durable;
    first_steps(alloc, &mut bucket, steps)?;
    checkpoint(&mut bucket)?;
    for number in steps..STEPS {
        step(alloc, &mut bucket, number)?;
        is_checkpointed(rt, alloc, 2, &bucket)?;
    }
    Ok(())
}

#[test]
fn entries_go_on_behind_a_checkpoint(rt: HostRuntime) -> Result<(), Fail> {
    for steps in 0..STEPS + 1 {
        twice!(entries_go_on(&rt, rt.alloc(), steps))?;
    }
    Ok(())
}
