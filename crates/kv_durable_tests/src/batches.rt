//! Tests of batches of durable buckets.

use crate::acts::{sync, write_all, write_batch};
use crate::equal::equal;
use crate::faults::is_fault;
use crate::steps::{
    BATCH, Bucket, create, empty, failing_after, opened, reopened, step, without_place,
};
use kv_durable::{BatchError, DurableError, Sync};
use kv_keys::{Key, KvError};
use kv_model::{BatchRefused, Request};
use kv_test_tools::{put, twice};
use std::alloc::{AllocError, Global};
use std::process::Abort;
use std::test::Fail;

// A batch of which only the first write may be done.
fn put_and_create(
    alloc: Global,
    bucket: &mut Bucket,
) -> Result<Result<u64, BatchError>, DurableError> {
    let batch = [
        put(alloc, "app.host", "kv")?,
        create(alloc, "app.port", "1")?,
    ];
    Ok(write_all(bucket, &batch))
}

// It is told of the second write that its key exists, unless memory was refused.
fn is_refused_at_second(rt: &impl Abort, told: Result<u64, BatchError>) {
    let at_second = BatchRefused {
        at: 1,
        error: KvError::KeyExists,
    };
    if told != Err(BatchError::Refused(at_second)) {
        equal(
            rt,
            told.map_err(without_place),
            Err(DurableError::Refused(KvError::OutOfMemory)),
        );
    }
}

fn a_batch_is_refused_whole_once(rt: &impl Abort, alloc: Global) -> Result<(), DurableError> {
    let mut bucket = opened(alloc, empty(alloc), Sync::Asked)?.durable;
    step(alloc, &mut bucket, 0)?;
    let offset = bucket.journal().offset();
    let told = put_and_create(alloc, &mut bucket)?;
    is_refused_at_second(rt, told);
    equal(rt, bucket.journal().offset(), offset);
    equal(rt, bucket.bucket().version().revision(), 1);
    Ok(())
}

#[test]
fn a_batch_is_refused_whole(rt: HostRuntime) -> Result<(), Fail> {
    Ok(twice!(a_batch_is_refused_whole_once(&rt, rt.alloc()))?)
}

fn an_empty_batch_is_nothing_once(rt: &impl Abort, alloc: Global) -> Result<(), DurableError> {
    let mut bucket = opened(alloc, failing_after(alloc, 3), Sync::Asked)?.durable;
    step(alloc, &mut bucket, 0)?;
    let loose = bucket.journal().file().loose().len();
    equal(rt, write_all(&mut bucket, &[]), Ok(1));
    equal(rt, bucket.journal().file().loose().len(), loose);
    is_fault(rt, sync(&mut bucket))?;
    equal(rt, write_all(&mut bucket, &[]), Ok(1));
    is_fault(rt, step(alloc, &mut bucket, BATCH))?;
    equal(rt, bucket.bucket().version().revision(), 1);
    Ok(())
}

#[test]
fn an_empty_batch_is_nothing(rt: HostRuntime) -> Result<(), Fail> {
    Ok(twice!(an_empty_batch_is_nothing_once(&rt, rt.alloc()))?)
}

fn mebibyte(alloc: Global) -> Result<Vec<u8>, AllocError> {
    vec![in alloc; 0u8; 1_048_576]
}

// A put of a mebibyte of zeros.
fn put_zeros(alloc: Global, key: &str) -> Result<Request, KvError> {
    let key = Key::parse(alloc, key)?;
    let value = mebibyte(alloc)?;
    Ok(Request::Put { key, value })
}

// A batch that is longer than a reader looks.
fn put_long(alloc: Global, bucket: &mut Bucket) -> Result<(), DurableError> {
    let long = [
        put_zeros(alloc, "app.a")?,
        put_zeros(alloc, "app.b")?,
        put_zeros(alloc, "app.c")?,
    ];
    write_batch(bucket, &long)
}

// The bytes of its file, of which one in the batch is another one later.
fn damaged(rt: &impl Abort, alloc: Global, bucket: &Bucket) -> Result<Vec<u8>, AllocError> {
    let mut bytes = Vec::from_slice(alloc, bucket.journal().file().kept())?;
    let Some(byte) = bytes.get_mut(1_000_000) else {
        panic!(rt; "the batch is short");
    };
    *byte = 7;
    Ok(bytes)
}

// Behind the batch stands one more write.
fn damage_in_a_long_batch_is_told_once(rt: &impl Abort, alloc: Global) -> Result<(), DurableError> {
    let mut bucket = opened(alloc, empty(alloc), Sync::Each)?.durable;
    let offset = bucket.journal().offset();
    put_long(alloc, &mut bucket)?;
    step(alloc, &mut bucket, 0)?;
    let bytes = damaged(rt, alloc, &bucket)?;
    match reopened(alloc, &bytes) {
        Err(DurableError::FileDamaged { at }) => equal(rt, at, offset),
        Err(error) => return Err(error),
        Ok(_) => panic!(rt; "a damaged batch was taken for a torn one"),
    }
    Ok(())
}

#[test]
fn damage_in_a_long_batch_is_told(rt: HostRuntime) -> Result<(), Fail> {
    Ok(twice!(damage_in_a_long_batch_is_told_once(&rt, rt.alloc()))?)
}
