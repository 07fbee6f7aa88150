//! A durable bucket over a file in memory, and the nine steps that tests make of it.

use crate::acts::{compact, delete_in, purge_in, put_in, seal, write, write_batch};
use kv_durable::{BatchError, Durable, DurableError, NotDone, Opened, Sync};
use kv_file::MemoryFile;
use kv_keys::KvError;
use kv_model::{Config, Request};
use kv_store::Version;
use kv_test_tools::{is_same_at, put};
use std::alloc::Global;

pub(crate) type Bucket = Durable<MemoryFile>;

pub(crate) const SEED: u64 = 0x0123_4567_89AB_CDEF;

// How many steps there are, and which of them is a batch.
pub(crate) const STEPS: usize = 9;

pub(crate) const BATCH: usize = 7;

pub(crate) fn config(alloc: Global) -> Result<Config, KvError> {
    let mut config = Config::named(alloc, "settings")?;
    config.history = 2;
    Ok(config)
}

// Opens a file, or hands it back.
pub(crate) fn open(
    alloc: Global,
    config: &Config,
    file: MemoryFile,
    sync: Sync,
) -> Result<Opened<MemoryFile>, NotDone<MemoryFile>> {
    Durable::open(alloc, config, file, &(), SEED, sync)
}

pub(crate) fn opened(
    alloc: Global,
    file: MemoryFile,
    sync: Sync,
) -> Result<Opened<MemoryFile>, DurableError> {
    match open(alloc, &config(alloc)?, file, sync) {
        Ok(opened) => Ok(opened),
        Err(refused) => Err(refused.error),
    }
}

// Opens these bytes as the file of a bucket that has this configuration.
pub(crate) fn opened_with(
    alloc: Global,
    config: &Config,
    bytes: &[u8],
) -> Result<Opened<MemoryFile>, DurableError> {
    let file = MemoryFile::new(alloc, Vec::from_slice(alloc, bytes)?);
    match open(alloc, config, file, Sync::Each) {
        Ok(opened) => Ok(opened),
        Err(refused) => Err(refused.error),
    }
}

pub(crate) fn reopened(alloc: Global, bytes: &[u8]) -> Result<Opened<MemoryFile>, DurableError> {
    opened_with(alloc, &config(alloc)?, bytes)
}

pub(crate) fn create(alloc: Global, key: &str, value: &str) -> Result<Request, KvError> {
    match put(alloc, key, value)? {
        Request::Put { key, value } => Ok(Request::Create { key, value }),
        request => Ok(request),
    }
}

fn create_in(
    alloc: Global,
    bucket: &mut Bucket,
    key: &str,
    value: &str,
) -> Result<(), DurableError> {
    write(bucket, &create(alloc, key, value)?)
}

// Why a batch was not done, without its index.
pub(crate) fn without_place(error: BatchError) -> DurableError {
    match error {
        BatchError::Refused(refused) => DurableError::Refused(refused.error),
        BatchError::FileFault => DurableError::FileFault,
    }
}

// Two puts in one step.
fn put_both(alloc: Global, bucket: &mut Bucket) -> Result<(), DurableError> {
    let both = [
        put(alloc, "app.port", "443")?,
        create(alloc, "app.user", "kv")?,
    ];
    write_batch(bucket, &both)
}

// Makes the step of this number.
pub(crate) fn step(alloc: Global, bucket: &mut Bucket, number: usize) -> Result<(), DurableError> {
    match number {
        0 => put_in(alloc, bucket, "app.port", "80"),
        1 => create_in(alloc, bucket, "app.host", "kv"),
        2 => delete_in(alloc, bucket, "app.port", Some(1)),
        3 => purge_in(alloc, bucket, "app.host"),
        4 => put_in(alloc, bucket, "app.port", ""),
        5 => compact(bucket, 3),
        6 => put_in(alloc, bucket, "app.name", "durable"),
        BATCH => put_both(alloc, bucket),
        _ => seal(bucket),
    }
}

pub(crate) fn first_steps(
    alloc: Global,
    bucket: &mut Bucket,
    steps: usize,
) -> Result<(), DurableError> {
    for number in 0..steps {
        step(alloc, bucket, number)?;
    }
    Ok(())
}

pub(crate) fn is_same(first: &Version, second: &Version) -> bool {
    if first.status() != second.status() || first.floor() != second.floor() {
        return false;
    }
    for revision in 0..10u64 {
        if !is_same_at(first, second, revision) {
            return false;
        }
    }
    true
}

pub(crate) fn empty(alloc: Global) -> MemoryFile {
    MemoryFile::new(alloc, Vec::new(alloc))
}

// An empty file of which so many calls go well.
pub(crate) fn failing_after(alloc: Global, calls: u64) -> MemoryFile {
    let mut file = empty(alloc);
    file.fail_after(calls);
    file
}
