//! A durable bucket `kv` for each test, over a file in memory. It is opened, and closed behind what the test does with it.

ghost use Rattle.std.specs.Prelude.{◌≡◌};

use kv_durable::Durable;
use kv_durable_live::{DurableError, DurableLive, JournalFile, LiveName, Opened, Reader, Sync};
use kv_file::MemoryFile;
use kv_keys::KvError;
use kv_model::{Config, Request};
use kv_test_tools::put;
use std::alloc::Global;
use std::marker::Brand;
use std::sync::Wait;

const SEED: u64 = 0x0123_4567_89AB_CDEF;

// The bucket of the tests.
pub type Shared<N> = DurableLive<N, MemoryFile>;

// What a test does with a bucket that was just opened, with two readers. It gives the file back.
pub trait Test<R>: Copy {
    fn run<N: LiveName>(
        self,
        rt: &R,
        alloc: Global,
        live: &Shared<N>,
        readers: &mut Vec<Reader<N>>,
    ) -> Result<(), DurableError>;
}

pub fn config(alloc: Global) -> Result<Config, KvError> {
    Config::named(alloc, "kv")
}

// An opening of a file, for two readers.
pub fn opened(alloc: Global, file: MemoryFile) -> Result<Opened<MemoryFile>, DurableError> {
    match DurableLive::open(alloc, &config(alloc)?, file, &(), SEED, Sync::Each, 2) {
        Ok(opened) => Ok(opened),
        Err(refused) => Err(refused.error),
    }
}

fn run_named<N: LiveName, R: Wait, T: Test<R>>(
    rt: &R,
    alloc: Global,
    opened: Opened<MemoryFile>,
    test: T,
) -> Result<MemoryFile, DurableError>
    requires { opened.opened.opening ≡ N.opening }
{
    match opened.live::<N, R>(rt) {
        Ok((live, mut readers)) => {
            let done = test.run(rt, alloc, &live, &mut readers);
            let file = match live.close(rt) {
                Ok(file) => file,
                Err(refused) => refused.file,
            };
            done?;
            Ok(file)
        }
        Err(refused) => Err(refused.error),
    }
}

// Runs a test on a bucket of this file, and hands back the file.
pub fn run_on<R: Wait, T: Test<R>>(
    rt: &R,
    alloc: Global,
    file: MemoryFile,
    test: T,
) -> Result<MemoryFile, DurableError> {
    let opened = opened(alloc, file)?;
    run_named::<Brand, R, T>(rt, alloc, opened, test)
}

pub fn empty(alloc: Global) -> MemoryFile {
    MemoryFile::new(alloc, Vec::new(alloc))
}

// The bucket that a file's bytes on the disk stand for.
pub fn second_life(alloc: Global, file: &MemoryFile) -> Result<Durable<MemoryFile>, DurableError> {
    let bytes = Vec::from_slice(alloc, file.kept())?;
    match Durable::open(
        alloc,
        &config(alloc)?,
        MemoryFile::new(alloc, bytes),
        &(),
        SEED,
        Sync::Each,
    ) {
        Ok(opened) => Ok(opened.durable),
        Err(refused) => Err(refused.error),
    }
}

pub fn number(alloc: Global, key: &str) -> Result<Request, KvError> {
    put(alloc, key, "1")
}
