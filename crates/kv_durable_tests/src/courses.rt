//! Each short course of acts on two keys, under narrow limits: the checkpoint behind it is opened as the same bucket.

use crate::acts::{checkpoint, compact_back, delete_in, purge_in, put_in};
use crate::steps::{Bucket, config, is_same, opened_with};
use kv_durable::DurableError;
use kv_model::Config;
use std::alloc::Global;
use std::process::Abort;
use std::test::Fail;

// How many acts there are to choose from, and of how many a course is at most.
const CHOICES: u64 = 8;

const LONGEST: u32 = 4;

// Makes the act of this number: a write of one of the keys, or a compaction to one of the last revisions.
fn act(alloc: Global, bucket: &mut Bucket, number: u64) -> Result<(), DurableError> {
    match number {
        0 => put_in(alloc, bucket, "a", "1"),
        1 => put_in(alloc, bucket, "b", "1"),
        2 => delete_in(alloc, bucket, "a", None),
        3 => delete_in(alloc, bucket, "b", None),
        4 => purge_in(alloc, bucket, "a"),
        _ => compact_back(bucket, number - 5),
    }
}

// Whether the rules allow the act, which is made then.
fn may_act(alloc: Global, bucket: &mut Bucket, number: u64) -> Result<bool, DurableError> {
    match act(alloc, bucket, number) {
        Ok(()) => Ok(true),
        Err(DurableError::Refused(_)) => Ok(false),
        Err(error) => Err(error),
    }
}

// The bucket behind a course, whose acts are the digits of its number, and none where one of them is refused.
fn behind(
    alloc: Global,
    config: &Config,
    course: u64,
    acts: u32,
) -> Result<Option<Bucket>, DurableError> {
    let mut bucket = opened_with(alloc, config, &[])?.durable;
    let mut left = course;
    for _ in 0..acts {
        if !may_act(alloc, &mut bucket, left % CHOICES)? {
            return Ok(None);
        }
        left /= CHOICES;
    }
    Ok(Some(bucket))
}

// Whether the checkpoint behind a course is opened as the same bucket; none where there is no such course.
fn is_opened(
    alloc: Global,
    config: &Config,
    course: u64,
    acts: u32,
) -> Result<Option<bool>, DurableError> {
    let Some(mut bucket) = behind(alloc, config, course, acts)? else {
        return Ok(None);
    };
    checkpoint(&mut bucket)?;
    let bytes = bucket.journal().file().kept();
    let second = opened_with(alloc, config, bytes)?;
    let same = is_same(bucket.bucket().version(), second.durable.bucket().version());
    Ok(Some(second.checkpointed && same))
}

// Whether there is such a course, which is opened then.
fn is_there(
    rt: &impl Abort,
    alloc: Global,
    config: &Config,
    course: u64,
    acts: u32,
) -> Result<bool, DurableError> {
    let Some(opened) = is_opened(alloc, config, course, acts)? else {
        return Ok(false);
    };
    assert!(rt; opened, "the course {course} of {acts} acts");
    Ok(true)
}

// How many courses there are of so many acts, each of which is opened.
fn all_are_opened(
    rt: &impl Abort,
    alloc: Global,
    config: &Config,
    acts: u32,
) -> Result<u64, DurableError> {
    let mut courses = 0u64;
    for course in 0..CHOICES.saturating_pow(acts) {
        if is_there(rt, alloc, config, course, acts)? {
            courses = courses.saturating_add(1);
        }
    }
    Ok(courses)
}

#[test]
fn the_checkpoint_behind_each_short_course_is_opened(rt: HostRuntime) -> Result<(), Fail> {
    let alloc = rt.alloc();
    let mut courses = 0u64;
    for (history, write_limit) in [
        (1, 1),
        (1, 2),
        (1, 3),
        (2, 2),
        (2, 3),
        (2, 4),
        (3, 3),
        (3, 64),
    ] {
        let mut config = config(alloc)?;
        config.history = history;
        config.write_limit = write_limit;
        for acts in 0..LONGEST + 1 {
            courses = courses.saturating_add(all_are_opened(&rt, alloc, &config, acts)?);
        }
    }
    assert!(rt; courses > 8_000, "{courses} courses");
    Ok(())
}
