//! Compactions of a bucket that threads share that replace its file where it is large.

use crate::acts::{NEXT_SEED, shrink, shrink_alone, write_alone, write_often, writes};
use crate::checkpointed::{copied, goes_on_from, has_all};
use crate::equal::equal;
use crate::opened::{Shared, Test, empty, run_on, second_life};
use crate::readers::{followed, gets, popped};
use kv_bucket::{Feed, Start, Version};
use kv_durable::Durable;
use kv_durable_live::{DurableError, LiveName, Reader, Shrunk};
use kv_file::MemoryFile;
use kv_keys::KvError;
use std::alloc::Global;
use std::process::Abort;
use std::sync::Wait;
use std::sync::atomic::{AtomicBool, Ordering};
use std::test::Fail;

// A bucket of one thread, behind so many writes of one key, a compaction that may replace the file, and one write more.
fn alone(alloc: Global, writes: u64) -> Result<Durable<MemoryFile>, DurableError> {
    let mut bucket = second_life(alloc, &empty(alloc))?;
    for _ in 0..writes {
        write_alone(alloc, &mut bucket, "a")?;
    }
    if let Shrunk::Failed(error) = shrink_alone(&mut bucket, writes)? {
        return Err(error);
    }
    write_alone(alloc, &mut bucket, "b")?;
    Ok(bucket)
}

// The next write has this revision, and the feed gets it.
fn writes_next<N: LiveName, R: Wait + Abort>(
    rt: &R,
    alloc: Global,
    live: &Shared<N>,
    feed: &mut Feed<N>,
    key: &str,
    revision: u64,
) -> Result<(), DurableError> {
    writes(rt, alloc, live, key, revision)?;
    feed.refresh()?;
    gets(rt, feed, revision, revision);
    Ok(())
}

fn see_both<N: LiveName, R: Abort>(
    rt: &R,
    readers: &mut Vec<Reader<N>>,
    revision: u64,
    floor: u64,
) -> Result<(), DurableError> {
    for reader in readers.iter_mut() {
        let version = reader.version()?;
        equal(rt, version.revision(), revision);
        equal(rt, version.floor(), floor);
    }
    Ok(())
}

// The same on a bucket that threads share. Readers and a feed go on over it, also where the checkpoint has failed.
#[derive(Clone, Copy)]
struct Shrinks<'a> {
    writes: u64,
    failed: &'a AtomicBool,
}

impl<R: Wait + Abort> Test<R> for Shrinks<'_> {
    fn run<N: LiveName>(
        self,
        rt: &R,
        alloc: Global,
        live: &Shared<N>,
        readers: &mut Vec<Reader<N>>,
    ) -> Result<(), DurableError> {
        let mut feed = followed(alloc, popped(readers)?, Start::Updates)?;
        let last = self.writes;
        for before in 0..last {
            writes_next(rt, alloc, live, &mut feed, "a", before.saturating_add(1))?;
        }
        let told = shrink(rt, live, last)?;
        let failed = matches!(told, Shrunk::Failed(_));
        self.failed.store(failed, Ordering::SeqCst);
        see_both(rt, readers, last, last)?;
        writes_next(rt, alloc, live, &mut feed, "b", last.saturating_add(1))?;
        see_both(rt, readers, last.saturating_add(1), last)
    }
}

fn are_same<R: Abort>(rt: &R, first: &Version, second: &Version) {
    equal(rt, first.revision(), second.revision());
    equal(rt, first.floor(), second.floor());
    has_all(rt, first, second);
}

// The file has what that of the one thread has, and later lives go on from it. It is answered whether it was replaced.
fn is_replaced_where_large<R: Wait + Abort>(
    rt: &R,
    alloc: Global,
    writes: u64,
) -> Result<bool, DurableError> {
    let alone = alone(alloc, writes)?;
    let failed = AtomicBool::new(false);
    let shrinks = Shrinks {
        writes,
        failed: &failed,
    };
    let file = run_on(rt, alloc, empty(alloc), shrinks)?;
    let first = second_life(alloc, &file)?;
    are_same(rt, alone.bucket().version(), first.bucket().version());
    goes_on_from(rt, alloc, &first, copied(alloc, &file)?)?;
    if failed.load(Ordering::SeqCst) {
        return Err(DurableError::Refused(KvError::OutOfMemory));
    }
    assert!(rt; file.kept().starts_with(alone.journal().file().kept()));
    Ok(first.journal().seed() == NEXT_SEED)
}

fn large_ones_are_replaced<R: Wait + Abort>(rt: &R, alloc: Global) -> Result<(), DurableError> {
    equal(rt, is_replaced_where_large(rt, alloc, 1)?, false);
    equal(rt, is_replaced_where_large(rt, alloc, 20)?, true);
    for writes in 2..8_u64 {
        is_replaced_where_large(rt, alloc, writes)?;
    }
    Ok(())
}

#[test]
fn a_shared_compaction_replaces_a_large_file(rt: HostRuntime) -> Result<(), Fail> {
    match large_ones_are_replaced(&rt, rt.alloc()) {
        Ok(()) => Ok(()),
        Err(_) => Ok(large_ones_are_replaced(&rt, rt.alloc())?),
    }
}

// So many calls of the file go well behind the writes: the first two add the compaction to it, and the others replace it. What is
// published has the compaction once that is in the file, whatever comes of the checkpoint.
// A file that is refused memory fails too: then all is done once more.
#[derive(Clone, Copy)]
struct IsCutOff {
    calls: u64,
}

const WRITES: u64 = 20;

// What is told of a compaction of which so many calls go well.
fn is_told<R: Abort>(
    rt: &R,
    told: Result<Shrunk, DurableError>,
    calls: u64,
) -> Result<(), DurableError> {
    match told {
        Err(DurableError::FileFault) if calls < 2 => {}
        Ok(Shrunk::Failed(DurableError::FileFault)) => assert!(rt; calls == 2 || calls == 3),
        Ok(Shrunk::Replaced) => equal(rt, calls, 4),
        Ok(Shrunk::Left) => assert!(rt; false),
        Ok(Shrunk::Failed(error)) | Err(error) => return Err(error),
    }
    Ok(())
}

impl<R: Wait + Abort> Test<R> for IsCutOff {
    fn run<N: LiveName>(
        self,
        rt: &R,
        alloc: Global,
        live: &Shared<N>,
        readers: &mut Vec<Reader<N>>,
    ) -> Result<(), DurableError> {
        write_often(rt, alloc, live, "a", WRITES)?;
        let calls = self.calls;
        is_told(rt, shrink(rt, live, WRITES), calls)?;
        see_both(rt, readers, WRITES, floor_behind(calls))
    }
}

fn floor_behind(calls: u64) -> u64 {
    if calls < 2 { 0 } else { WRITES }
}

// Two calls make the file, and each write is two.
fn is_cut_off<R: Wait + Abort>(rt: &R, alloc: Global, calls: u64) -> Result<(), DurableError> {
    let mut file = empty(alloc);
    file.fail_after((2 * WRITES + 2).saturating_add(calls));
    let file = run_on(rt, alloc, file, IsCutOff { calls })?;
    let again = second_life(alloc, &file)?;
    equal(rt, again.bucket().version().revision(), WRITES);
    equal(rt, again.bucket().version().floor(), floor_behind(calls));
    equal(rt, again.journal().seed() == NEXT_SEED, calls > 2);
    Ok(())
}

fn each_is_cut_off<R: Wait + Abort>(rt: &R, alloc: Global) -> Result<(), DurableError> {
    for calls in 0..5_u64 {
        is_cut_off(rt, alloc, calls)?;
    }
    Ok(())
}

#[test]
fn a_shared_compaction_stays_where_its_checkpoint_fails(rt: HostRuntime) -> Result<(), Fail> {
    match each_is_cut_off(&rt, rt.alloc()) {
        Ok(()) => Ok(()),
        Err(_) => Ok(each_is_cut_off(&rt, rt.alloc())?),
    }
}
