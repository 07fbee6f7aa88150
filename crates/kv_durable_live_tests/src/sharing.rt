//! What is answered is on the disk, and what a reader sees is.

use crate::acts::writes;
use crate::equal::equal;
use crate::opened::{Shared, Test, empty, number, run_on, second_life};
use crate::readers::see;
use kv_durable_live::{DurableError, LiveName, Reader};
use std::alloc::Global;
use std::process::Abort;
use std::sync::Wait;
use std::test::Fail;

fn write_both<N: LiveName, R: Wait>(
    rt: &R,
    alloc: Global,
    live: &Shared<N>,
) -> Result<u64, DurableError> {
    let both = [number(alloc, "b")?, number(alloc, "c")?];
    match live.write_all(rt, &both) {
        Ok(first) => Ok(first),
        Err(_) => Err(DurableError::FileFault),
    }
}

// A write, a batch of two, a compaction and a seal.
#[derive(Clone, Copy)]
struct EachCall;

impl<R: Wait + Abort> Test<R> for EachCall {
    fn run<N: LiveName>(
        self,
        rt: &R,
        alloc: Global,
        live: &Shared<N>,
        readers: &mut Vec<Reader<N>>,
    ) -> Result<(), DurableError> {
        writes(rt, alloc, live, "a", 1)?;
        equal(rt, write_both(rt, alloc, live)?, 2);
        live.compact(rt, 1)?;
        live.seal(rt)?;
        see(rt, readers, 3)
    }
}

fn is_there_again_once<R: Wait + Abort>(rt: &R, alloc: Global) -> Result<(), DurableError> {
    let file = run_on(rt, alloc, empty(alloc), EachCall)?;
    let again = second_life(alloc, &file)?;
    let version = again.bucket().version();
    equal(rt, (version.revision(), version.floor()), (3, 1));
    assert!(rt; version.sealed());
    Ok(())
}

#[test]
fn what_was_seen_is_there_again(rt: HostRuntime) -> Result<(), Fail> {
    match is_there_again_once(&rt, rt.alloc()) {
        Ok(()) => Ok(()),
        Err(_) => Ok(is_there_again_once(&rt, rt.alloc())?),
    }
}
