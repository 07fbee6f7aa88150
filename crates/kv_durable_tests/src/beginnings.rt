//! Tests of what an opening takes from bytes: those of a whole file, of its beginnings, with a bit turned, and with more behind them.

use crate::equal::equal;
use crate::steps::{Bucket, STEPS, empty, first_steps, is_same, opened, reopened, step};
use kv_durable::{DurableError, Opened, Sync};
use kv_file::{JournalFile, MemoryFile};
use kv_store::Version;
use kv_test_tools::twice;
use std::alloc::{AllocError, Global};
use std::process::Abort;
use std::test::Fail;

fn push<T: Drop>(items: &mut Vec<T>, item: T) -> Result<(), AllocError> {
    items.push(item)?;
    Ok(())
}

// The bytes of a file, and for each number of steps the version and where its bytes end.
#[derive(Drop)]
pub(crate) struct Course {
    pub(crate) bytes: Vec<u8>,
    versions: Vec<Version>,
    ends: Vec<usize>,
}

// Notes the version that a bucket has now, and where its bytes end.
fn note(course: &mut Course, bucket: &Bucket) -> Result<(), DurableError> {
    push(&mut course.versions, bucket.bucket().version().snapshot()?)?;
    push(&mut course.ends, bucket.journal().offset() as usize)?;
    Ok(())
}

pub(crate) fn make_course(alloc: Global) -> Result<Course, DurableError> {
    let mut bucket = opened(alloc, empty(alloc), Sync::Each)?.durable;
    let mut course = Course {
        bytes: Vec::new(alloc),
        versions: Vec::new(alloc),
        ends: Vec::new(alloc),
    };
    note(&mut course, &bucket)?;
    for number in 0..STEPS {
        step(alloc, &mut bucket, number)?;
        note(&mut course, &bucket)?;
    }
    course
        .bytes
        .extend_from_slice(bucket.journal().file().kept())?;
    Ok(course)
}

// How many steps are whole in so many bytes, and where the last of them ends.
fn whole_in(course: &Course, n: usize) -> Option<(usize, usize)> {
    let mut found = None;
    for (number, end) in course.ends.iter().enumerate() {
        if *end <= n {
            found = Some((number, *end));
        }
    }
    found
}

// Whether the version is that behind so many steps.
pub(crate) fn is_behind(course: &Course, number: usize, version: &Version) -> bool {
    match course.versions.get(number) {
        Some(wanted) => is_same(wanted, version),
        None => false,
    }
}

fn closed(bucket: Bucket) -> Result<MemoryFile, DurableError> {
    match bucket.close() {
        Ok(file) => Ok(file),
        Err(refused) => Err(refused.error),
    }
}

fn all_is_there_again_once(rt: &impl Abort, alloc: Global) -> Result<(), DurableError> {
    let mut bucket = opened(alloc, empty(alloc), Sync::Every(3))?.durable;
    first_steps(alloc, &mut bucket, STEPS)?;
    let version = bucket.bucket().version().snapshot()?;
    let file = closed(bucket)?;
    let again = reopened(alloc, file.kept())?;
    equal(rt, again.dropped, 0);
    assert!(rt; is_same(&version, again.durable.bucket().version()));
    Ok(())
}

#[test]
fn all_is_there_again(rt: HostRuntime) -> Result<(), Fail> {
    Ok(twice!(all_is_there_again_once(&rt, rt.alloc()))?)
}

// The first bytes of a file are opened as the steps that are whole in them.
fn is_its_whole_acts(rt: &impl Abort, course: &Course, n: usize, again: &Opened<MemoryFile>) {
    match whole_in(course, n) {
        Some((number, end)) => {
            equal(rt, again.dropped, n.saturating_sub(end) as u64);
            assert!(rt; is_behind(course, number, again.durable.bucket().version()));
        }
        None => assert!(rt; n == 0 && again.dropped == 0),
    }
}

// What is read of the first bytes of a file.
fn is_read(rt: &impl Abort, alloc: Global, course: &Course, n: usize) -> Result<(), DurableError> {
    let Some(bytes) = course.bytes.get(..n) else {
        return Ok(());
    };
    match reopened(alloc, bytes) {
        Ok(again) => {
            is_its_whole_acts(rt, course, n, &again);
            Ok(())
        }
        Err(DurableError::FileDamaged { at: 0 }) if whole_in(course, n).is_none() => Ok(()),
        Err(error) => Err(error),
    }
}

fn each_beginning_is_read_once(rt: &impl Abort, alloc: Global) -> Result<(), DurableError> {
    let course = make_course(alloc)?;
    for n in 0..course.bytes.len() + 1 {
        is_read(rt, alloc, &course, n)?;
    }
    Ok(())
}

#[test]
fn each_beginning_of_a_file_is_its_whole_acts(rt: HostRuntime) -> Result<(), Fail> {
    Ok(twice!(each_beginning_is_read_once(&rt, rt.alloc()))?)
}

// Whether the version is that behind some number of steps.
fn is_somewhere(course: &Course, version: &Version) -> bool {
    for wanted in &course.versions {
        if is_same(wanted, version) {
            return true;
        }
    }
    false
}

fn is_told(
    rt: &impl Abort,
    course: &Course,
    again: Result<Opened<MemoryFile>, DurableError>,
) -> Result<(), DurableError> {
    match again {
        Ok(again) => {
            assert!(rt;
                again.dropped > 0 && is_somewhere(course, again.durable.bucket().version())
            );
            Ok(())
        }
        Err(DurableError::FileDamaged { .. }) => Ok(()),
        Err(error) => Err(error),
    }
}

fn a_turned_bit_is_told_once(rt: &impl Abort, alloc: Global) -> Result<(), DurableError> {
    let course = make_course(alloc)?;
    for n in 0..course.bytes.len() {
        for bit in 0..8u32 {
            let mut bytes = Vec::from_slice(alloc, &course.bytes)?;
            bytes[n] ^= 1 << bit;
            is_told(rt, &course, reopened(alloc, &bytes))?;
        }
    }
    Ok(())
}

#[test]
fn a_turned_bit_is_told(rt: HostRuntime) -> Result<(), Fail> {
    Ok(twice!(a_turned_bit_is_told_once(&rt, rt.alloc()))?)
}

// These bytes, and another one a hundred times behind them.
fn followed_by(alloc: Global, bytes: &[u8], byte: u8) -> Result<Vec<u8>, AllocError> {
    let mut out = Vec::from_slice(alloc, bytes)?;
    for _ in 0..100 {
        push(&mut out, byte)?;
    }
    Ok(out)
}

fn what_stands_behind_is_dropped_once(rt: &impl Abort, alloc: Global) -> Result<(), DurableError> {
    let course = make_course(alloc)?;
    for byte in [0u8, 1, 85, 255] {
        let bytes = followed_by(alloc, &course.bytes, byte)?;
        let again = reopened(alloc, &bytes)?;
        equal(rt, again.dropped, 100);
        assert!(rt; is_behind(&course, STEPS, again.durable.bucket().version()));
        equal(
            rt,
            again.durable.journal().file().kept(),
            course.bytes.as_slice(),
        );
    }
    Ok(())
}

#[test]
fn what_stands_behind_is_dropped(rt: HostRuntime) -> Result<(), Fail> {
    Ok(twice!(what_stands_behind_is_dropped_once(&rt, rt.alloc()))?)
}
