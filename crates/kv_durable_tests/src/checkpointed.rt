//! Tests of durable buckets whose file is replaced by a checkpoint.

use crate::acts::{NEXT_SEED, checkpoint};
use crate::equal::equal;
use crate::faults::is_fault;
use crate::steps::{Bucket, STEPS, failing_after, first_steps, is_same, opened, reopened, step};
use kv_durable::{DurableError, Sync};
use kv_test_tools::twice;
use std::alloc::Global;
use std::process::Abort;
use std::test::Fail;

// A bucket behind so many steps, on a file of which so many calls go well: two make it, and each step is two.
fn behind(alloc: Global, steps: usize, calls: u64) -> Result<Bucket, DurableError> {
    let file = failing_after(alloc, calls);
    let mut bucket = opened(alloc, file, Sync::Each)?.durable;
    first_steps(alloc, &mut bucket, steps)?;
    Ok(bucket)
}

pub(crate) fn are_same(rt: &impl Abort, first: &Bucket, second: &Bucket) {
    assert!(rt; is_same(first.bucket().version(), second.bucket().version()));
}

// What the file of a bucket is opened as: the same bucket.
pub(crate) fn same_again(
    rt: &impl Abort,
    alloc: Global,
    bucket: &Bucket,
    has_checkpoint: bool,
) -> Result<Bucket, DurableError> {
    let second = reopened(alloc, bucket.journal().file().kept())?;
    equal(rt, second.checkpointed, has_checkpoint);
    equal(rt, second.dropped, 0);
    are_same(rt, bucket, &second.durable);
    Ok(second.durable)
}

// Both make the steps that are left, and stay the same.
fn both_go_on(
    rt: &impl Abort,
    alloc: Global,
    first: &mut Bucket,
    second: &mut Bucket,
    steps: usize,
) -> Result<(), DurableError> {
    for number in steps..STEPS {
        step(alloc, first, number)?;
        step(alloc, second, number)?;
        are_same(rt, first, second);
    }
    Ok(())
}

// A bucket behind so many steps is opened again from its checkpoint, and both make the others: revisions go on, a floor is
// kept, and so is a seal.
fn comes_back(rt: &impl Abort, alloc: Global, steps: usize) -> Result<(), DurableError> {
    let mut bucket = behind(alloc, steps, u64::MAX)?;
    checkpoint(&mut bucket)?;
    let mut second = same_again(rt, alloc, &bucket, true)?;
    equal(rt, second.journal().seed(), NEXT_SEED);
    equal(rt, second.journal().offset(), bucket.journal().offset());
    both_go_on(rt, alloc, &mut bucket, &mut second, steps)?;
    same_again(rt, alloc, &bucket, true)?;
    Ok(())
}

#[test]
fn a_checkpoint_is_opened_as_the_same_bucket(rt: HostRuntime) -> Result<(), Fail> {
    for steps in 0..STEPS + 1 {
        twice!(comes_back(&rt, rt.alloc(), steps))?;
    }
    Ok(())
}

// A bucket is as before a checkpoint that failed, whose file it has or not.
fn stays(
    rt: &impl Abort,
    alloc: Global,
    before: &Bucket,
    bucket: &Bucket,
    has_checkpoint: bool,
) -> Result<(), DurableError> {
    equal(rt, bucket.journal().is_stopped(), has_checkpoint);
    equal(rt, bucket.journal().seed(), before.journal().seed());
    are_same(rt, before, bucket);
    same_again(rt, alloc, bucket, has_checkpoint)?;
    Ok(())
}

// A checkpoint of which a call of the file fails: the first leaves the old file, and the second the new one. Both are of the
// same bucket, which goes on by the first.
fn is_cut_off(
    rt: &impl Abort,
    alloc: Global,
    steps: usize,
    calls: u64,
) -> Result<(), DurableError> {
    let before_it = (steps as u64).saturating_mul(2).saturating_add(2);
    let mut bucket = behind(alloc, steps, before_it.saturating_add(calls))?;
    let before = behind(alloc, steps, u64::MAX)?;
    is_fault(rt, checkpoint(&mut bucket))?;
    stays(rt, alloc, &before, &bucket, calls == 1)
}

#[test]
fn a_checkpoint_that_is_cut_off_leaves_the_bucket(rt: HostRuntime) -> Result<(), Fail> {
    for steps in 0..STEPS + 1 {
        for calls in 0..2u64 {
            twice!(is_cut_off(&rt, rt.alloc(), steps, calls))?;
        }
    }
    Ok(())
}
