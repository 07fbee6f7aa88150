//! Files that begin with a checkpoint: a bucket that threads share goes on from what they have, and makes such files itself.

use crate::acts::{NEXT_SEED, checkpoint_alone, compact_alone, delete_alone, write_alone, writes};
use crate::equal::equal;
use crate::opened::{Shared, Test, empty, run_on, second_life};
use crate::readers::see;
use kv_bucket::Version;
use kv_durable::Durable;
use kv_durable_live::{DurableError, LiveName, Reader};
use kv_file::MemoryFile;
use kv_test_tools::is_same_at;
use std::alloc::Global;
use std::process::Abort;
use std::sync::Wait;
use std::test::Fail;

// A bucket of one thread, behind writes of which some are stored no more, and a checkpoint.
fn first_life(alloc: Global) -> Result<Durable<MemoryFile>, DurableError> {
    let mut bucket = second_life(alloc, &empty(alloc))?;
    write_alone(alloc, &mut bucket, "a")?;
    write_alone(alloc, &mut bucket, "b")?;
    write_alone(alloc, &mut bucket, "a")?;
    delete_alone(alloc, &mut bucket, "b")?;
    compact_alone(&mut bucket, 4)?;
    write_alone(alloc, &mut bucket, "c")?;
    checkpoint_alone(&mut bucket)?;
    Ok(bucket)
}

pub fn copied(alloc: Global, file: &MemoryFile) -> Result<MemoryFile, DurableError> {
    let bytes = Vec::from_slice(alloc, file.kept())?;
    Ok(MemoryFile::new(alloc, bytes))
}

// The second has all of the first, under the same revisions.
pub fn has_all<R: Abort>(rt: &R, first: &Version, second: &Version) {
    for revision in 1..first.revision().saturating_add(1) {
        assert!(rt; is_same_at(first, second, revision));
    }
}

// Each reader sees what the first life has, and a write has the next revision.
#[derive(Clone, Copy)]
struct GoesOn<'a> {
    first: &'a Version,
}

impl<R: Wait + Abort> Test<R> for GoesOn<'_> {
    fn run<N: LiveName>(
        self,
        rt: &R,
        alloc: Global,
        live: &Shared<N>,
        readers: &mut Vec<Reader<N>>,
    ) -> Result<(), DurableError> {
        let last = self.first.revision();
        for reader in readers.iter_mut() {
            let version = reader.version()?;
            equal(rt, version.revision(), last);
            has_all(rt, self.first, &version);
        }
        writes(rt, alloc, live, "d", last.saturating_add(1))
    }
}

// A shared bucket goes on from the file of the first life, and the life after it has all.
pub fn goes_on_from<R: Wait + Abort>(
    rt: &R,
    alloc: Global,
    first: &Durable<MemoryFile>,
    file: MemoryFile,
) -> Result<(), DurableError> {
    let version = first.bucket().version();
    let file = run_on(rt, alloc, file, GoesOn { first: version })?;
    let again = second_life(alloc, &file)?;
    let later = again.bucket().version();
    equal(rt, later.revision(), version.revision().saturating_add(1));
    has_all(rt, version, later);
    Ok(())
}

fn is_opened_once<R: Wait + Abort>(rt: &R, alloc: Global) -> Result<(), DurableError> {
    let first = first_life(alloc)?;
    let file = copied(alloc, first.journal().file())?;
    goes_on_from(rt, alloc, &first, file)
}

#[test]
fn a_checkpoint_is_gone_on_from(rt: HostRuntime) -> Result<(), Fail> {
    match is_opened_once(&rt, rt.alloc()) {
        Ok(()) => Ok(()),
        Err(_) => Ok(is_opened_once(&rt, rt.alloc())?),
    }
}

// A checkpoint between two writes, of which the readers see nothing.
#[derive(Clone, Copy)]
struct Replaces;

impl<R: Wait + Abort> Test<R> for Replaces {
    fn run<N: LiveName>(
        self,
        rt: &R,
        alloc: Global,
        live: &Shared<N>,
        readers: &mut Vec<Reader<N>>,
    ) -> Result<(), DurableError> {
        writes(rt, alloc, live, "a", 1)?;
        writes(rt, alloc, live, "a", 2)?;
        live.lock(rt).checkpoint(&(), NEXT_SEED)?;
        see(rt, readers, 2)?;
        writes(rt, alloc, live, "b", 3)
    }
}

fn is_replaced_once<R: Wait + Abort>(rt: &R, alloc: Global) -> Result<(), DurableError> {
    let file = run_on(rt, alloc, empty(alloc), Replaces)?;
    let first = second_life(alloc, &file)?;
    equal(rt, first.journal().seed(), NEXT_SEED);
    equal(rt, first.bucket().version().revision(), 3);
    goes_on_from(rt, alloc, &first, file)
}

#[test]
fn a_shared_bucket_replaces_its_file(rt: HostRuntime) -> Result<(), Fail> {
    match is_replaced_once(&rt, rt.alloc()) {
        Ok(()) => Ok(()),
        Err(_) => Ok(is_replaced_once(&rt, rt.alloc())?),
    }
}
