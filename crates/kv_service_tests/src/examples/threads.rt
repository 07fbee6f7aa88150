//! A writer and two readers, each on a thread of its own.

ghost use Rattle.std.specs.Prelude.{◌≡◌};

use super::*;
use kv_bucket::{
    Config, Feed, Filters, Key, KvError, Live, LiveName, Opened, Reader, Request, Taken,
};
use std::marker::Brand;
use std::sync::Wait;
use std::thread::{Threads, join};

fn put<N: LiveName, R: Wait>(
    rt: &R,
    alloc: Global,
    live: &Live<N>,
    key: &str,
    value: &str,
) -> Result<u64, KvError> {
    let key = Key::parse(alloc, key)?;
    let value = Vec::from_slice(alloc, value.as_bytes())?;
    live.write(rt, &Request::Put { key, value })
}

pub(crate) fn write_three<N: LiveName, R: Wait>(
    rt: &R,
    alloc: Global,
    live: &Live<N>,
) -> Result<u64, KvError> {
    put(rt, alloc, live, "app.port", "80")?;
    put(rt, alloc, live, "db.port", "5432")?;
    put(rt, alloc, live, "app.port", "8080")
}

// Takes a thousand times. It is handed no runtime, so it can't wait for anybody.
fn follow<N: LiveName>(feed: &mut Feed<N>) -> Result<(), KvError> {
    for _ in 0..1000 {
        if let Taken::Empty = feed.take() {
            feed.refresh()?;
        }
    }
    Ok(())
}

fn follow_both<N: LiveName + Send + Sync, R: Threads>(
    rt: &R,
    one: &mut Feed<N>,
    two: &mut Feed<N>,
) -> Result<(), KvError> {
    let (first, second) = join(rt, || follow(one), || follow(two));
    first?;
    second
}

fn share<N: LiveName + Send + Sync, R: Threads + Wait + Sync>(
    rt: &R,
    alloc: Global,
    live: &Live<N>,
    one: &mut Feed<N>,
    two: &mut Feed<N>,
) -> Result<(), KvError> {
    let (written, followed) = join(
        rt,
        || write_three(rt, alloc, live),
        || follow_both(rt, one, two),
    );
    written?;
    followed
}

// What the writer wrote last may not have been followed.
fn followed_to_the_end<N: LiveName>(feed: &mut Feed<N>) -> Result<u64, KvError> {
    follow(feed)?;
    Ok(feed.handed())
}

fn feed<N: LiveName>(alloc: Global, readers: &mut Vec<Reader<N>>) -> Result<Feed<N>, KvError> {
    let filters = Filters::parse(alloc, "app.>")?;
    match readers.pop() {
        Some(reader) => feed_of(reader, &filters),
        None => Err(KvError::NoReader),
    }
}

pub(crate) fn feed_of<N: LiveName>(
    reader: Reader<N>,
    filters: &Filters,
) -> Result<Feed<N>, KvError> {
    match reader.watch_from_empty(filters, LATEST) {
        Ok(feed) => Ok(feed),
        Err((_, refusal)) => Err(refusal),
    }
}

fn shared_by_two<N: LiveName + Send + Sync, R: Threads + Wait + Sync>(
    rt: &R,
    alloc: Global,
    live: &Live<N>,
    readers: &mut Vec<Reader<N>>,
) -> Result<(u64, u64), KvError> {
    let mut one = feed(alloc, readers)?;
    shared_with(rt, alloc, live, readers, &mut one)
}

fn shared_with<N: LiveName + Send + Sync, R: Threads + Wait + Sync>(
    rt: &R,
    alloc: Global,
    live: &Live<N>,
    readers: &mut Vec<Reader<N>>,
    one: &mut Feed<N>,
) -> Result<(u64, u64), KvError> {
    let mut two = feed(alloc, readers)?;
    shared_by_both(rt, alloc, live, one, &mut two)
}

fn shared_by_both<N: LiveName + Send + Sync, R: Threads + Wait + Sync>(
    rt: &R,
    alloc: Global,
    live: &Live<N>,
    one: &mut Feed<N>,
    two: &mut Feed<N>,
) -> Result<(u64, u64), KvError> {
    share(rt, alloc, live, one, two)?;
    Ok((followed_to_the_end(one)?, followed_to_the_end(two)?))
}

fn opened_and_shared<N: LiveName + Send + Sync, R: Threads + Wait + Sync>(
    rt: &R,
    alloc: Global,
    opened: Opened,
) -> Result<(u64, u64), KvError>
    requires { opened.opening ≡ N.opening }
{
    let (live, mut readers) = opened.live::<N, R>(rt)?;
    let done = shared_by_two(rt, alloc, &live, &mut readers);
    live.close(rt);
    done
}

fn writer_and_readers<R: Threads + Wait + Sync>(
    rt: &R,
    alloc: Global,
) -> Result<(u64, u64), KvError> {
    let opened = Live::open(alloc, &Config::named(alloc, "settings")?, 2)?;
    opened_and_shared::<Brand, R>(rt, alloc, opened)
}

#[test]
fn two_readers_follow_a_writer_to_the_end(rt: HostRuntime) -> Result<(), Fail> {
    let handed = once_more!(writer_and_readers(&rt, rt.alloc()))?;
    assert_eq!(rt; handed, (3, 3));
    Ok(())
}
