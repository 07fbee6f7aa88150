//! Tests of durable buckets whose files fail, and of what is refused.

use crate::acts::{compact, seal, sync, write};
use crate::beginnings::{Course, is_behind, make_course};
use crate::equal::equal;
use crate::steps::{
    Bucket, STEPS, config, create, empty, failing_after, open, opened, reopened, step,
};
use kv_durable::{DurableError, Sync};
use kv_file::{JournalFile, MemoryFile, Torn};
use kv_keys::KvError;
use kv_test_tools::twice;
use std::alloc::Global;
use std::process::Abort;
use std::test::Fail;

// The file of a bucket that is let go, whether all of it comes onto the disk or not.
fn let_go(bucket: Bucket) -> MemoryFile {
    match bucket.close() {
        Ok(file) => file,
        Err(refused) => refused.file,
    }
}

// Makes each step, and tells how many of them were answered.
fn answered_steps(alloc: Global, bucket: &mut Bucket) -> Result<usize, DurableError> {
    let mut answered: usize = 0;
    for number in 0..STEPS {
        match step(alloc, bucket, number) {
            Ok(()) => answered = answered.saturating_add(1),
            Err(DurableError::FileFault) => {}
            Err(error) => return Err(error),
        }
    }
    Ok(answered)
}

// A bucket of a file that fails behind so many calls, and how many of its steps were answered.
fn until_it_fails(
    alloc: Global,
    calls: u64,
    sync: Sync,
) -> Result<(MemoryFile, usize), DurableError> {
    let file = failing_after(alloc, calls);
    let mut bucket = match open(alloc, &config(alloc)?, file, sync) {
        Ok(opened) => opened.durable,
        Err(refused) => return Ok((refused.file, 0)),
    };
    let answered = answered_steps(alloc, &mut bucket)?;
    Ok((let_go(bucket), answered))
}

// What was answered is there in these bytes, and at most one step more.
fn has_answered(
    rt: &impl Abort,
    alloc: Global,
    course: &Course,
    bytes: &[u8],
    answered: usize,
) -> Result<(), DurableError> {
    let again = reopened(alloc, bytes)?;
    let version = again.durable.bucket().version();
    assert!(rt;
        is_behind(course, answered, version)
            || is_behind(course, answered.saturating_add(1), version)
    );
    Ok(())
}

// What was answered is there, whatever the crash left of the rest.
fn comes_back(
    rt: &impl Abort,
    alloc: Global,
    course: &Course,
    file: &MemoryFile,
    answered: usize,
    torn: Torn,
) -> Result<(), DurableError> {
    for left in 0..file.loose().len() + 1 {
        let bytes = file.crashed(alloc, left, torn)?;
        has_answered(rt, alloc, course, &bytes, answered)?;
    }
    Ok(())
}

fn what_was_answered_is_there_once(rt: &impl Abort, alloc: Global) -> Result<(), DurableError> {
    let course = make_course(alloc)?;
    for calls in 0..24u64 {
        let (file, answered) = until_it_fails(alloc, calls, Sync::Each)?;
        for torn in [Torn::Whole, Torn::Zeros, Torn::Noise] {
            comes_back(rt, alloc, &course, &file, answered, torn)?;
        }
    }
    Ok(())
}

#[test]
fn what_was_answered_is_there(rt: HostRuntime) -> Result<(), Fail> {
    Ok(twice!(what_was_answered_is_there_once(&rt, rt.alloc()))?)
}

// The file has failed. Where memory is refused before that shows, all is done once more.
pub(crate) fn is_fault(
    rt: &impl Abort,
    answer: Result<(), DurableError>,
) -> Result<(), DurableError> {
    let no_memory = Err(DurableError::Refused(KvError::OutOfMemory));
    if answer == no_memory {
        return answer;
    }
    equal(rt, answer, Err(DurableError::FileFault));
    Ok(())
}

fn each_act_is_fault(
    rt: &impl Abort,
    alloc: Global,
    bucket: &mut Bucket,
) -> Result<(), DurableError> {
    is_fault(rt, step(alloc, bucket, 0))?;
    is_fault(rt, seal(bucket))?;
    is_fault(rt, compact(bucket, 1))?;
    is_fault(rt, sync(bucket))
}

fn a_fault_stops_once(rt: &impl Abort, alloc: Global) -> Result<(), DurableError> {
    let mut bucket = opened(alloc, failing_after(alloc, 3), Sync::Each)?.durable;
    is_fault(rt, step(alloc, &mut bucket, 0))?;
    equal(rt, bucket.bucket().version().revision(), 0);
    let loose = bucket.journal().file().loose().len();
    assert!(rt; bucket.journal().is_stopped());
    each_act_is_fault(rt, alloc, &mut bucket)?;
    equal(rt, bucket.journal().file().loose().len(), loose);
    equal(rt, bucket.bucket().version().revision(), 0);
    Ok(())
}

#[test]
fn a_fault_stops(rt: HostRuntime) -> Result<(), Fail> {
    Ok(twice!(a_fault_stops_once(&rt, rt.alloc()))?)
}

fn what_is_refused_is_not_there_once(rt: &impl Abort, alloc: Global) -> Result<(), DurableError> {
    let mut bucket = opened(alloc, empty(alloc), Sync::Asked)?.durable;
    step(alloc, &mut bucket, 0)?;
    let offset = bucket.journal().offset();
    let exists = write(&mut bucket, &create(alloc, "app.port", "1")?);
    equal(rt, exists, Err(DurableError::Refused(KvError::KeyExists)));
    equal(
        rt,
        compact(&mut bucket, 2),
        Err(DurableError::Refused(KvError::BadFloor)),
    );
    equal(rt, bucket.journal().offset(), offset);
    assert!(rt; !bucket.journal().file().loose().is_empty());
    sync(&mut bucket)?;
    assert!(rt; bucket.journal().file().loose().is_empty());
    Ok(())
}

#[test]
fn what_is_refused_is_not_in_the_file(rt: HostRuntime) -> Result<(), Fail> {
    Ok(twice!(what_is_refused_is_not_there_once(&rt, rt.alloc()))?)
}

fn another_bucket_is_told_once(rt: &impl Abort, alloc: Global) -> Result<(), DurableError> {
    let course = make_course(alloc)?;
    let mut config = config(alloc)?;
    config.history = 3;
    let file = MemoryFile::new(alloc, Vec::from_slice(alloc, &course.bytes)?);
    match open(alloc, &config, file, Sync::Each) {
        Ok(_) => assert!(rt; false),
        Err(refused) => {
            let is_memory = refused.error == DurableError::Refused(KvError::OutOfMemory);
            assert!(rt; is_memory || refused.error == DurableError::OtherBucket);
            equal(rt, refused.file.kept(), course.bytes.as_slice());
        }
    }
    Ok(())
}

#[test]
fn another_bucket_is_told(rt: HostRuntime) -> Result<(), Fail> {
    Ok(twice!(another_bucket_is_told_once(&rt, rt.alloc()))?)
}
