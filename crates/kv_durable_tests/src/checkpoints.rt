//! Tests of checkpoints.

use crate::equal::equal;
use crate::steps::{STEPS, config, empty, is_same, opened, step};
use kv_durable::{DurableError, Sync};
use kv_frames::Framing;
use kv_journal::{ReplayError, Replayed, push_checkpoint, restore};
use kv_keys::KvError;
use kv_model::Config;
use kv_store::Version;
use kv_test_tools::twice;
use std::alloc::Global;
use std::process::Abort;
use std::test::Fail;

// What is read of bytes as a checkpoint; none where they are damaged.
fn restored(
    alloc: Global,
    config: &Config,
    framing: &Framing,
    bytes: &[u8],
) -> Result<Option<Replayed>, KvError> {
    match restore(
        alloc,
        Version::empty(alloc, config)?,
        config,
        framing,
        0,
        bytes,
    ) {
        Ok(restored) => Ok(Some(restored)),
        Err(ReplayError::OutOfMemory) => Err(KvError::OutOfMemory),
        Err(ReplayError::Damaged { .. }) => Ok(None),
    }
}

fn checkpoint_of(alloc: Global, framing: &Framing, version: &Version) -> Result<Vec<u8>, KvError> {
    let mut bytes = Vec::new(alloc);
    push_checkpoint(alloc, &mut bytes, framing, version)?;
    Ok(bytes)
}

fn each_beginning_is_damaged(
    rt: &impl Abort,
    alloc: Global,
    config: &Config,
    framing: &Framing,
    bytes: &[u8],
) -> Result<(), KvError> {
    for n in 0..bytes.len() {
        assert!(rt; restored(alloc, config, framing, &bytes[..n])?.is_none());
    }
    Ok(())
}

// The checkpoint of a version gives the version again, and a beginning of it is damaged.
fn comes_back(
    rt: &impl Abort,
    alloc: Global,
    config: &Config,
    version: &Version,
) -> Result<(), DurableError> {
    let framing = Framing::new(7);
    let bytes = checkpoint_of(alloc, &framing, version)?;
    each_beginning_is_damaged(rt, alloc, config, &framing, &bytes)?;
    match restored(alloc, config, &framing, &bytes)? {
        Some(restored) => {
            assert!(rt; is_same(version, &restored.version));
            equal(rt, restored.offset, bytes.len() as u64);
        }
        None => assert!(rt; false),
    }
    Ok(())
}

fn each_comes_back(rt: &impl Abort, alloc: Global) -> Result<(), DurableError> {
    let config = config(alloc)?;
    let mut bucket = opened(alloc, empty(alloc), Sync::Each)?.durable;
    for number in 0..STEPS {
        comes_back(rt, alloc, &config, bucket.bucket().version())?;
        step(alloc, &mut bucket, number)?;
    }
    comes_back(rt, alloc, &config, bucket.bucket().version())
}

#[test]
fn a_checkpoint_gives_the_version_again(rt: HostRuntime) -> Result<(), Fail> {
    Ok(twice!(each_comes_back(&rt, rt.alloc()))?)
}
