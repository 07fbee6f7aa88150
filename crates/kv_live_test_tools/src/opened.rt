//! A bucket `kv` for each test. It is opened, and closed behind what the test does with it.

ghost use Rattle.std.specs.Prelude.{◌≡◌};

use kv_bucket::{Config, KvError, Live, LiveName, Opened, Reader};
use kv_test_tools::once_more;
use std::alloc::Global;
use std::marker::Brand;
use std::sync::Wait;

/// How a bucket is opened: for so many readers, and with this limit of writes.
#[derive(Clone, Copy)]
pub struct Opening {
    pub readers: usize,
    pub writes: u64,
}

/// For tests that write no more often than this.
pub const OPENING: Opening = Opening {
    readers: 2,
    writes: 6,
};

/// What a test does, on one thread, with a bucket that was just opened. It is no closure: an opening has a name of its own, which stands in
/// the types of all that belongs to the bucket, and a closure can't be over every name.
pub trait Test<R>: Copy {
    /// Does it, with these readers, the opening's.
    fn run<N: LiveName>(
        self,
        rt: &R,
        alloc: Global,
        live: &Live<N>,
        readers: &mut Vec<Reader<N>>,
    ) -> Result<(), KvError>;
}

/// What a test does that closes the bucket itself, since it goes on behind the close.
pub trait ClosingTest<R>: Copy {
    /// Does it, with these readers, the opening's.
    fn run<N: LiveName>(
        self,
        rt: &R,
        alloc: Global,
        live: Live<N>,
        readers: &mut Vec<Reader<N>>,
    ) -> Result<(), KvError>;
}

// Of a test that leaves the bucket open.
#[derive(Clone, Copy)]
struct ClosedBehind<T>(T);

impl<R: Wait, T: Test<R>> ClosingTest<R> for ClosedBehind<T> {
    fn run<N: LiveName>(
        self,
        rt: &R,
        alloc: Global,
        live: Live<N>,
        readers: &mut Vec<Reader<N>>,
    ) -> Result<(), KvError> {
        let done = self.0.run(rt, alloc, &live, readers);
        live.close(rt);
        done
    }
}

fn run_named<N: LiveName, R: Wait, T: ClosingTest<R>>(
    rt: &R,
    alloc: Global,
    opened: Opened,
    test: T,
) -> Result<(), KvError>
    requires { opened.opening ≡ N.opening }
{
    let (live, mut readers) = opened.live::<N, R>(rt)?;
    test.run(rt, alloc, live, &mut readers)
}

/// Opens `kv`. OutOfMemory, and what `Live::open` refuses.
pub fn open_bucket(alloc: Global, opening: Opening) -> Result<Opened, KvError> {
    let mut config = Config::named(alloc, "kv")?;
    config.write_limit = opening.writes;
    Live::open(alloc, &config, opening.readers)
}

fn run_once<R: Wait, T: ClosingTest<R>>(
    rt: &R,
    alloc: Global,
    opening: Opening,
    test: T,
) -> Result<(), KvError> {
    let opened = open_bucket(alloc, opening)?;
    run_named::<Brand, R, T>(rt, alloc, opened, test)
}

/// Runs a test on such an opening, and once more where a request for memory ended it.
pub fn run_on<R: Wait, T: Test<R>>(
    rt: &R,
    alloc: Global,
    opening: Opening,
    test: T,
) -> Result<(), KvError> {
    once_more!(run_once(rt, alloc, opening, ClosedBehind(test)))
}

/// The same on an opening of two readers, for six writes.
pub fn run<R: Wait, T: Test<R>>(rt: &R, alloc: Global, test: T) -> Result<(), KvError> {
    run_on(rt, alloc, OPENING, test)
}

/// The same of a test that closes the bucket.
pub fn run_closing<R: Wait, T: ClosingTest<R>>(
    rt: &R,
    alloc: Global,
    test: T,
) -> Result<(), KvError> {
    once_more!(run_once(rt, alloc, OPENING, test))
}
