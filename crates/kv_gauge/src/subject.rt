//! A bucket that is measured.

use crate::clock::{each, since};
use crate::fault::{Answer, Fault, check};
use crate::keys::{key, keys, put, puts};
use kv_single::{Bucket, Config, Request};
use std::alloc::Global;
use std::rt::Clock;
use std::time::Instant;

/// A bucket in which five entries of each key are kept.
pub fn empty(alloc: Global) -> Result<Bucket, Fault> {
    let config = config(alloc)?;
    let bucket = Bucket::open(alloc, &config)?;
    Ok(bucket)
}

/// The configuration of all buckets that are measured.
pub fn config(alloc: Global) -> Result<Config, Fault> {
    let config = Config::named(alloc, "bench")?;
    Ok(Config {
        history: 5,
        ..config
    })
}

// Puts to the key of a number.
fn write(alloc: Global, bucket: &mut Bucket, number: usize) -> Result<(), Fault> {
    let key = key(alloc, number)?;
    let request = put(alloc, &key)?;
    bucket.write(&request)?;
    Ok(())
}

/// Makes so many writes to these many keys, in turn.
pub fn overwrite(
    alloc: Global,
    bucket: &mut Bucket,
    keys: usize,
    writes: usize,
) -> Result<(), Fault> {
    for turn in 0..writes {
        write(alloc, bucket, if keys == 0 { 0 } else { turn % keys })?;
    }
    Ok(())
}

/// Puts to each of so many keys.
pub fn fill(alloc: Global, bucket: &mut Bucket, keys: usize) -> Result<(), Fault> {
    overwrite(alloc, bucket, keys, keys)
}

/// Makes each of these writes, and gives the last revision.
pub fn write_all(bucket: &mut Bucket, requests: &[Request]) -> Result<u64, Fault> {
    let mut last = 0;
    for request in requests {
        last = bucket.write(request)?;
    }
    Ok(last)
}

/// The time of each of these writes, in tenths of a nanosecond.
pub fn time_writes<R: Clock>(
    rt: &R,
    bucket: &mut Bucket,
    requests: &[Request],
) -> Result<u64, Fault> {
    let before = bucket.version().revision();
    let start = Instant::now(rt)?;
    let last = write_all(bucket, requests)?;
    let took = since(rt, &start)?;
    check(
        last == before.saturating_add(requests.len() as u64),
        Answer::Revision,
    )?;
    Ok(each(took, requests.len()))
}

/// Fills an empty bucket with so many keys, and gives the time of each of its last writes, a tenth of all.
pub fn grow<R: Clock>(
    rt: &R,
    alloc: Global,
    bucket: &mut Bucket,
    count: usize,
) -> Result<u64, Fault> {
    let first = count - count / 10;
    let last = keys(alloc, first, count)?;
    let requests = puts(alloc, last.as_slice())?;
    fill(alloc, bucket, first)?;
    time_writes(rt, bucket, requests.as_slice())
}
