//! A file that fails: nothing is published that is not on the disk, and nothing is written any more.

use crate::acts::write;
use crate::opened::{Shared, Test, empty, run_on, second_life};
use crate::readers::see;
use kv_durable_live::{DurableError, LiveName, Reader};
use std::alloc::Global;
use std::process::Abort;
use std::sync::Wait;
use std::sync::atomic::{AtomicU64, Ordering};
use std::test::Fail;

// Writes until the file fails, and looks at what a reader sees then.
#[derive(Clone, Copy)]
struct UntilItFails<'a> {
    seen: &'a AtomicU64,
}

fn write_on<N: LiveName, R: Wait>(
    rt: &R,
    alloc: Global,
    live: &Shared<N>,
) -> Result<u64, DurableError> {
    let mut answered = 0_u64;
    for _ in 0..4 {
        match write(rt, alloc, live, "a") {
            Ok(revision) => answered = revision,
            Err(DurableError::FileFault) => {}
            Err(error) => return Err(error),
        }
    }
    Ok(answered)
}

impl<R: Wait + Abort> Test<R> for UntilItFails<'_> {
    fn run<N: LiveName>(
        self,
        rt: &R,
        alloc: Global,
        live: &Shared<N>,
        readers: &mut Vec<Reader<N>>,
    ) -> Result<(), DurableError> {
        let answered = write_on(rt, alloc, live)?;
        see(rt, readers, answered)?;
        self.seen.store(answered, Ordering::SeqCst);
        Ok(())
    }
}

fn is_kept_once<R: Wait + Abort>(rt: &R, alloc: Global) -> Result<(), DurableError> {
    for calls in 2..12_u64 {
        let mut file = empty(alloc);
        file.fail_after(calls);
        let seen = AtomicU64::new(0);
        let file = run_on(rt, alloc, file, UntilItFails { seen: &seen })?;
        let again = second_life(alloc, &file)?;
        assert!(rt; seen.load(Ordering::SeqCst) <= again.bucket().version().revision());
    }
    Ok(())
}

#[test]
fn nothing_is_seen_that_a_failed_file_lacks(rt: HostRuntime) -> Result<(), Fail> {
    match is_kept_once(&rt, rt.alloc()) {
        Ok(()) => Ok(()),
        Err(_) => Ok(is_kept_once(&rt, rt.alloc())?),
    }
}
