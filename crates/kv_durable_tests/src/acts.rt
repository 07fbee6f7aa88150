//! The acts of a durable bucket, one in each function. None of these has a contract, so what makes several acts is proved sooner
//! by them than by calls of the bucket.

use crate::steps::{Bucket, without_place};
use kv_durable::{BatchError, Durable, DurableError, JournalFile};
use kv_model::Request;
use kv_test_tools::{delete, purge, put};
use std::alloc::Global;

// The seed of the file that a checkpoint makes.
pub(crate) const NEXT_SEED: u64 = 0xFEDC_BA98_7654_3210;

pub(crate) fn write<F: JournalFile>(
    bucket: &mut Durable<F>,
    request: &Request,
) -> Result<(), DurableError> {
    bucket.write(request)?;
    Ok(())
}

pub(crate) fn put_in<F: JournalFile>(
    alloc: Global,
    bucket: &mut Durable<F>,
    key: &str,
    value: &str,
) -> Result<(), DurableError> {
    write(bucket, &put(alloc, key, value)?)
}

pub(crate) fn delete_in(
    alloc: Global,
    bucket: &mut Bucket,
    key: &str,
    last: Option<u64>,
) -> Result<(), DurableError> {
    write(bucket, &delete(alloc, key, last)?)
}

pub(crate) fn purge_in(alloc: Global, bucket: &mut Bucket, key: &str) -> Result<(), DurableError> {
    write(bucket, &purge(alloc, key, None)?)
}

// Puts one value so often.
pub(crate) fn put_often(
    alloc: Global,
    bucket: &mut Bucket,
    writes: u64,
) -> Result<(), DurableError> {
    for _ in 0..writes {
        put_in(alloc, bucket, "app.port", "80")?;
    }
    Ok(())
}

pub(crate) fn write_all(bucket: &mut Bucket, requests: &[Request]) -> Result<u64, BatchError> {
    bucket.write_all(requests)
}

// A batch that is refused is so for one of its writes, whichever that is.
pub(crate) fn write_batch(bucket: &mut Bucket, requests: &[Request]) -> Result<(), DurableError> {
    match write_all(bucket, requests) {
        Ok(_) => Ok(()),
        Err(error) => Err(without_place(error)),
    }
}

pub(crate) fn compact(bucket: &mut Bucket, floor: u64) -> Result<(), DurableError> {
    bucket.compact(floor)
}

// Compacts to the revision that is so many before the last.
pub(crate) fn compact_back(bucket: &mut Bucket, back: u64) -> Result<(), DurableError> {
    let last = bucket.bucket().version().revision();
    compact(bucket, last.saturating_sub(back))
}

pub(crate) fn seal(bucket: &mut Bucket) -> Result<(), DurableError> {
    bucket.seal()
}

pub(crate) fn sync(bucket: &mut Bucket) -> Result<(), DurableError> {
    bucket.sync()
}

pub(crate) fn checkpoint(bucket: &mut Bucket) -> Result<(), DurableError> {
    bucket.checkpoint(&(), NEXT_SEED)
}
