//! Tests of compactions that replace a large file.

use crate::acts::{NEXT_SEED, checkpoint, compact, put_in, put_often};
use crate::checkpointed::{are_same, same_again};
use crate::equal::equal;
use crate::steps::{Bucket, failing_after, opened};
use kv_durable::{DurableError, Shrunk, Sync};
use kv_test_tools::twice;
use std::alloc::Global;
use std::process::Abort;
use std::test::Fail;

// A bucket whose one key was written so often, on a file of which so many calls go well behind that: two make it, and each
// write is two.
fn overwritten(alloc: Global, writes: u64, calls: u64) -> Result<Bucket, DurableError> {
    let before = writes.saturating_mul(2).saturating_add(2);
    let file = failing_after(alloc, before.saturating_add(calls));
    let mut bucket = opened(alloc, file, Sync::Each)?.durable;
    put_often(alloc, &mut bucket, writes)?;
    Ok(bucket)
}

fn shrunk(bucket: &mut Bucket, floor: u64) -> Result<Shrunk, DurableError> {
    bucket.compact_and_checkpoint(floor, &(), NEXT_SEED)
}

// The same, where the compaction was made by itself.
fn compacted(alloc: Global, writes: u64) -> Result<Bucket, DurableError> {
    let mut bucket = overwritten(alloc, writes, u64::MAX)?;
    compact(&mut bucket, writes)?;
    Ok(bucket)
}

// What comes of the file behind so many writes, as the rule has it.
fn wanted(alloc: Global, writes: u64) -> Result<Shrunk, DurableError> {
    let mut bucket = compacted(alloc, writes)?;
    let large = bucket.journal().offset();
    checkpoint(&mut bucket)?;
    if large > bucket.journal().offset().saturating_mul(2) {
        return Ok(Shrunk::Replaced);
    }
    Ok(Shrunk::Left)
}

// What the file is opened as goes on as the bucket does, and so does what it is opened as behind that.
fn goes_on(
    rt: &impl Abort,
    alloc: Global,
    bucket: &mut Bucket,
    is_new: bool,
) -> Result<(), DurableError> {
    let mut second = same_again(rt, alloc, bucket, is_new)?;
    equal(rt, bucket.journal().seed() == NEXT_SEED, is_new);
    for value in ["443", ""] {
        put_in(alloc, bucket, "app.host", value)?;
        put_in(alloc, &mut second, "app.host", value)?;
        are_same(rt, bucket, &second);
    }
    same_again(rt, alloc, bucket, is_new)?;
    Ok(())
}

// Where no checkpoint failed, that came of the file which the rule has.
fn is_wanted(
    rt: &impl Abort,
    alloc: Global,
    writes: u64,
    told: Shrunk,
) -> Result<Shrunk, DurableError> {
    if let Shrunk::Failed(error) = told {
        return Err(error);
    }
    equal(rt, told, wanted(alloc, writes)?);
    Ok(told)
}

// The compaction is in the file, whatever came of that; and where no checkpoint failed the file is large or small as the rule
// has it.
fn is_replaced_where_large(
    rt: &impl Abort,
    alloc: Global,
    writes: u64,
) -> Result<Shrunk, DurableError> {
    let alone = compacted(alloc, writes)?;
    let mut bucket = overwritten(alloc, writes, u64::MAX)?;
    let told = shrunk(&mut bucket, writes)?;
    are_same(rt, &alone, &bucket);
    goes_on(rt, alloc, &mut bucket, told == Shrunk::Replaced)?;
    is_wanted(rt, alloc, writes, told)
}

fn large_ones_are_replaced(rt: &impl Abort, alloc: Global) -> Result<(), DurableError> {
    equal(rt, is_replaced_where_large(rt, alloc, 1)?, Shrunk::Left);
    equal(
        rt,
        is_replaced_where_large(rt, alloc, 20)?,
        Shrunk::Replaced,
    );
    for writes in 2..20u64 {
        is_replaced_where_large(rt, alloc, writes)?;
    }
    Ok(())
}

#[test]
fn a_compaction_replaces_the_file_where_it_is_large(rt: HostRuntime) -> Result<(), Fail> {
    Ok(twice!(large_ones_are_replaced(&rt, rt.alloc()))?)
}

// A compaction whose checkpoint failed is in the bucket and in the file, which is the old one or the new one.
fn stays(
    rt: &impl Abort,
    alloc: Global,
    behind: &Bucket,
    bucket: &Bucket,
    calls: u64,
) -> Result<(), DurableError> {
    assert!(rt; calls == 2 || calls == 3);
    are_same(rt, behind, bucket);
    same_again(rt, alloc, bucket, calls == 3)?;
    Ok(())
}

fn is_replaced(
    rt: &impl Abort,
    alloc: Global,
    bucket: &Bucket,
    calls: u64,
) -> Result<(), DurableError> {
    assert!(rt; calls == 4);
    same_again(rt, alloc, bucket, true)?;
    Ok(())
}

// The bucket is that before the compaction or that behind it, by what was told of it, and so is the file.
fn is_before_or_behind(
    rt: &impl Abort,
    alloc: Global,
    (before, behind): (&Bucket, &Bucket),
    bucket: &Bucket,
    calls: u64,
    told: Result<Shrunk, DurableError>,
) -> Result<(), DurableError> {
    match told {
        Err(DurableError::FileFault) if calls < 2 => are_same(rt, before, bucket),
        Ok(Shrunk::Failed(DurableError::FileFault)) => stays(rt, alloc, behind, bucket, calls)?,
        Ok(Shrunk::Replaced) => is_replaced(rt, alloc, bucket, calls)?,
        Ok(Shrunk::Left) => assert!(rt; false),
        Ok(Shrunk::Failed(error)) | Err(error) => return Err(error),
    }
    assert!(rt; bucket.journal().is_stopped() == (calls != 2 && calls != 4));
    Ok(())
}

// How a compaction ends of which only so many calls of the file go well: the first two add it to the file, and the others
// replace that.
fn is_cut_off(rt: &impl Abort, alloc: Global, calls: u64) -> Result<(), DurableError> {
    let before = overwritten(alloc, 20, u64::MAX)?;
    let behind = compacted(alloc, 20)?;
    let mut bucket = overwritten(alloc, 20, calls)?;
    let told = shrunk(&mut bucket, 20);
    is_before_or_behind(rt, alloc, (&before, &behind), &bucket, calls, told)
}

#[test]
fn a_compaction_stays_where_its_checkpoint_fails(rt: HostRuntime) -> Result<(), Fail> {
    for calls in 0..5u64 {
        twice!(is_cut_off(&rt, rt.alloc(), calls))?;
    }
    Ok(())
}
