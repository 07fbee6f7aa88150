//! Two threads that write, and a reader.

ghost use Rattle.std.specs.Prelude.{◌≡◌};

use crate::acts::write_often;
use crate::equal::equal;
use crate::opened::{Shared, empty, opened, second_life};
use crate::readers::see;
use kv_durable_live::{DurableError, LiveName, Opened, Reader};
use kv_file::MemoryFile;
use kv_keys::KvError;
use std::alloc::Global;
use std::marker::Brand;
use std::process::Abort;
use std::sync::Wait;
use std::test::Fail;
use std::thread::{Threads, join};

const WRITES: u64 = 20;

fn write_beside<N: LiveName + Send + Sync, R: Threads + Wait + Sync>(
    rt: &R,
    alloc: Global,
    live: &Shared<N>,
) -> Result<(), DurableError> {
    let (first, second) = join(
        rt,
        || write_often(rt, alloc, live, "a", WRITES),
        || write_often(rt, alloc, live, "b", WRITES),
    );
    second?;
    first
}

fn run_over<N: LiveName + Send + Sync, R: Threads + Wait + Abort + Sync>(
    rt: &R,
    alloc: Global,
    live: &Shared<N>,
    readers: &mut Vec<Reader<N>>,
) -> Result<(), DurableError> {
    write_beside(rt, alloc, live)?;
    see(rt, readers, 2 * WRITES)
}

fn run_named<N: LiveName + Send + Sync, R: Threads + Wait + Abort + Sync>(
    rt: &R,
    alloc: Global,
    opened: Opened<MemoryFile>,
) -> Result<MemoryFile, DurableError>
    requires { opened.opened.opening ≡ N.opening }
{
    match opened.live::<N, R>(rt) {
        Ok((live, mut readers)) => {
            let done = run_over(rt, alloc, &live, &mut readers);
            let file = match live.close(rt) {
                Ok(file) => file,
                Err(refused) => refused.file,
            };
            done?;
            Ok(file)
        }
        Err(refused) => Err(refused.error),
    }
}

fn are_there_again_once<R: Threads + Wait + Abort + Sync>(
    rt: &R,
    alloc: Global,
) -> Result<(), DurableError> {
    let opened = opened(alloc, empty(alloc))?;
    let file = run_named::<Brand, R>(rt, alloc, opened)?;
    let again = second_life(alloc, &file)?;
    equal(rt, again.bucket().version().revision(), 2 * WRITES);
    Ok(())
}

#[test]
fn writes_of_two_threads_are_there_again(rt: HostRuntime) -> Result<(), Fail> {
    match are_there_again_once(&rt, rt.alloc()) {
        Ok(()) => Ok(()),
        Err(_) => Ok(are_there_again_once(&rt, rt.alloc())?),
    }
}
