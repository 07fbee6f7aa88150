//! A live bucket: its readers, its writers and its feeds.

use crate::sides::{Copies, Gets, Named, Puts, Takes};
use kv_bucket::{Cached, Config, Feed, Key, Live, LiveName, Opened, Reader, Request, Taken};
use kv_gauge::fault::Fault;
use kv_gauge::keys::{key, put, puts, spread};
use kv_gauge::plan::Plan;
use kv_gauge::subject::config;
use std::alloc::Global;
use std::rt::Clock;
use std::sync::Wait;
use std::thread;
use std::time::Duration;

// How long a nap is, in microseconds, and how many of them there are in vain until a follower gives up.
const NAP: u64 = 100;

const MOST_NAPS: usize = 100_000;

/// A bucket that threads share, opened for so many readers.
pub fn opened(alloc: Global, readers: usize) -> Result<Opened, Fault> {
    let config = config(alloc)?;
    let opened = Live::open(alloc, &config, readers)?;
    Ok(opened)
}

/// The same, that keeps one entry of each key. So a compaction makes room again where all keys were written to.
pub fn opened_for_latest(alloc: Global, readers: usize) -> Result<Opened, Fault> {
    let config = Config {
        history: 1,
        ..config(alloc)?
    };
    let opened = Live::open(alloc, &config, readers)?;
    Ok(opened)
}

/// The keys that are read, and the requests that are written.
#[derive(Drop)]
pub struct Load {
    pub requests: Vec<Request>,
    pub keys: Vec<Key>,
}

/// So many keys, spread over all, and a put to each.
pub fn spread_load(alloc: Global, plan: Plan, asked: usize) -> Result<Load, Fault> {
    let keys = spread(alloc, plan.keys, asked)?;
    let requests = puts(alloc, keys.as_slice())?;
    Ok(Load { requests, keys })
}

fn put_number<N: LiveName, R: Wait>(
    rt: &R,
    alloc: Global,
    live: &Live<N>,
    number: usize,
) -> Result<(), Fault> {
    let request = put(alloc, &key(alloc, number)?)?;
    live.write(rt, &request)?;
    Ok(())
}

/// Puts to each key.
pub fn fill<N: LiveName, R: Wait>(
    rt: &R,
    alloc: Global,
    live: &Live<N>,
    count: usize,
) -> Result<(), Fault> {
    for number in 0..count {
        put_number(rt, alloc, live, number)?;
    }
    Ok(())
}

/// A reader, with the version that it keeps, and the keys that it reads.
pub struct Reads<'a, N: LiveName> {
    reader: Reader<N>,
    cached: Cached<N>,
    keys: &'a [Key],
}

// Field by field: a derived drop makes each proof longer that owns one.
impl<'a, N: LiveName> Drop for Reads<'a, N> {
    fn drop(self) {
        let Self {
            reader: _,
            cached: _,
            keys: _,
        } = self;
    }
}

impl<'a, N: LiveName> Reads<'a, N> {
    /// Who reads these keys.
    pub fn new(reader: Reader<N>, keys: &'a [Key]) -> Result<Reads<'a, N>, Fault> {
        let mut reader = reader;
        let cached = reader.cached()?;
        Ok(Reads {
            reader,
            cached,
            keys,
        })
    }
}

impl<'a, N: LiveName> Named for Reads<'a, N> {
    const NAME: &'static str = "Vilgoued";
}

impl<'a, N: LiveName> Gets for Reads<'a, N> {
    // Each read is of the version that is published then.
    fn get<R: Wait>(&mut self, _rt: &R, index: usize) -> Result<usize, Fault> {
        let Some(key) = self.keys.get(index) else {
            return Ok(0);
        };
        self.reader.refresh(&mut self.cached)?;
        let bytes = self.cached.version().get(key)?.value().len();
        Ok(bytes)
    }
}

impl<'a, N: LiveName> Copies for Reads<'a, N> {
    fn copy<R: Wait>(&mut self, _rt: &R) -> Result<u64, Fault> {
        let version = self.reader.version()?;
        Ok(version.revision())
    }
}

/// A bucket that threads share, with the requests that are made.
#[derive(Drop)]
pub struct Writes<'a, N: LiveName> {
    pub live: &'a Live<N>,
    pub requests: &'a [Request],
}

impl<'a, N: LiveName> Named for Writes<'a, N> {
    const NAME: &'static str = "Vilgoued";
}

impl<'a, N: LiveName> Puts for Writes<'a, N> {
    fn put<R: Wait>(&mut self, rt: &R, index: usize) -> Result<(), Fault> {
        let Some(request) = self.requests.get(index) else {
            return Ok(());
        };
        self.live.write(rt, request)?;
        Ok(())
    }

    fn finish(self) {
        self.live.finish();
    }
}

/// A feed, which begins with nothing and so has no end marker, and whether its thread naps where there is nothing.
#[derive(Drop)]
pub struct Follows<N: LiveName> {
    pub feed: Feed<N>,
    pub naps: bool,
}

impl<N: LiveName> Follows<N> {
    fn next<R: Wait>(&mut self, rt: &R) -> Result<bool, Fault> {
        let taken = self.feed.next(rt)?;
        Ok(matches!(taken, Taken::Entry(_)))
    }

    // Whoever naps is not woken. So it gives up in the end, as it hears of no end.
    fn next_after_naps<R: Clock>(&mut self, rt: &R) -> Result<bool, Fault> {
        for _ in 0..MOST_NAPS {
            if matches!(self.feed.take(), Taken::Entry(_)) {
                return Ok(true);
            }
            thread::sleep(rt, Duration::from_micros(NAP));
            self.feed.refresh()?;
        }
        Ok(false)
    }
}

impl<N: LiveName> Takes for Follows<N> {
    fn take<R: Wait + Clock>(&mut self, rt: &R) -> Result<bool, Fault> {
        if self.naps {
            self.next_after_naps(rt)
        } else {
            self.next(rt)
        }
    }
}
