//! Tests of a writer that always writes two keys together, each time the same value, beside a reader and beside a feed on
//! another thread: neither of them ever sees one of the two writes without the other. They look until the writer has ended,
//! and the writer waits for nobody.

use crate::beside::beside;
use crate::equal::equal;
use crate::following::is_next;
use crate::threaded::{Threaded, run_threaded};
use kv_bucket::{Feed, Key, KvError, Live, LiveName, Reader, Request, Taken, Version};
use kv_live_test_tools::{Answer, OPENING, Opening, batched, feed_of_last, last, shown_to};
use std::alloc::Global;
use std::process::Abort;
use std::sync::Wait;
use std::sync::atomic::{AtomicU64, Ordering};
use std::test::Fail;
use std::thread::Threads;

const PAIRS: u64 = 200;

const WRITES: u64 = 2 * PAIRS;

const PAIRED: Opening = Opening {
    writes: WRITES,
    ..OPENING
};

const FIRST: &str = "a";

const SECOND: &str = "b";

fn put_number(alloc: Global, key: &str, number: u64) -> Result<Request, KvError> {
    let key = Key::parse(alloc, key)?;
    let value = Vec::from_slice(alloc, &number.to_le_bytes())?;
    Ok(Request::Put { key, value })
}

fn pair(alloc: Global, number: u64) -> Result<Vec<Request>, KvError> {
    let mut requests = Vec::new(alloc);
    requests.push(put_number(alloc, FIRST, number)?)?;
    requests.push(put_number(alloc, SECOND, number)?)?;
    Ok(requests)
}

fn write_pair<N: LiveName, R: Wait>(
    rt: &R,
    alloc: Global,
    live: &Live<N>,
    number: u64,
) -> Result<u64, KvError> {
    batched(live.write_all(rt, &pair(alloc, number)?))
}

// Each pair follows the one before it.
fn write_each_pair<N: LiveName, R: Wait + Abort>(
    rt: &R,
    alloc: Global,
    live: &Live<N>,
) -> Result<(), KvError> {
    let mut next = 1_u64;
    for number in 0..PAIRS {
        equal(rt, write_pair(rt, alloc, live, number)?, next);
        next = next.saturating_add(2);
    }
    Ok(())
}

// Tells that it has ended, also where it was refused.
fn write_pairs<N: LiveName, R: Wait + Abort>(
    rt: &R,
    alloc: Global,
    live: &Live<N>,
    ended: &AtomicU64,
) -> Result<(), KvError> {
    let written = write_each_pair(rt, alloc, live);
    ended.store(1, Ordering::SeqCst);
    written
}

fn has_ended(ended: &AtomicU64) -> bool {
    ended.load(Ordering::SeqCst) == 1
}

// Makes a call on another thread, and writes the pairs on this one.
fn beside_the_writer<
    N: LiveName + Send + Sync,
    R: Threads + Wait + Abort + Sync,
    F: FnOnce() -> Result<(), KvError> + Send,
>(rt: &R, alloc: Global, live: &Live<N>, ended: &AtomicU64, other: F) -> Result<(), KvError>
    requires { F.pre other }
{
    beside(rt, other, || write_pairs(rt, alloc, live, ended))
}

// Refutes a batch whose writes are published one after the other: between them the values differ.
#[test]
fn a_reader_sees_both_writes_of_a_batch_or_neither(rt: HostRuntime) -> Result<(), Fail> {
    Ok(run_threaded(&rt, rt.alloc(), PAIRED, Threaded::PairsBesideAReader)?)
}

pub fn beside_a_reader<N: LiveName + Send + Sync, R: Threads + Wait + Abort + Sync>(
    rt: &R,
    alloc: Global,
    live: &Live<N>,
    readers: &mut Vec<Reader<N>>,
) -> Result<(), KvError> {
    let mut reader = last(readers)?;
    let ended = AtomicU64::new(0);
    let look = || look_at_pairs(rt, alloc, &mut reader, &ended);
    beside_the_writer(rt, alloc, live, &ended, look)?;
    equal(rt, shown_to(&mut reader), Answer::On(WRITES, 0));
    Ok(())
}

fn look_at_pairs<N: LiveName, R: Wait + Abort>(
    rt: &R,
    alloc: Global,
    reader: &mut Reader<N>,
    ended: &AtomicU64,
) -> Result<(), KvError> {
    let first = Key::parse(alloc, FIRST)?;
    let second = Key::parse(alloc, SECOND)?;
    look_to_the_end(rt, reader, (&first, &second), ended)
}

// The last look comes behind the last write.
fn look_to_the_end<N: LiveName, R: Wait + Abort>(
    rt: &R,
    reader: &mut Reader<N>,
    keys: (&Key, &Key),
    ended: &AtomicU64,
) -> Result<(), KvError> {
    for _ in rt.forever() {
        let is_last = has_ended(ended);
        let version = reader.version()?;
        equal(rt, has_whole_pairs(&version, keys), true);
        if is_last {
            return Ok(());
        }
    }
    Ok(())
}

fn has_whole_pairs(version: &Version, (first, second): (&Key, &Key)) -> bool {
    match (version.get(first), version.get(second)) {
        (Ok(one), Ok(other)) => one.value() == other.value(),
        (Err(_), Err(_)) => true,
        _ => false,
    }
}

// Refutes a batch whose writes are published one after the other: the feed would go on to the first of two.
#[test]
fn a_feed_goes_on_to_both_writes_of_a_batch_or_to_neither(rt: HostRuntime) -> Result<(), Fail> {
    Ok(run_threaded(&rt, rt.alloc(), PAIRED, Threaded::PairsBesideAFeed)?)
}

pub fn beside_a_feed<N: LiveName + Send + Sync, R: Threads + Wait + Abort + Sync>(
    rt: &R,
    alloc: Global,
    live: &Live<N>,
    readers: &mut Vec<Reader<N>>,
) -> Result<(), KvError> {
    let mut feed = feed_of_last(alloc, readers)?;
    let ended = AtomicU64::new(0);
    let follow = || follow_to_the_end(rt, &mut feed, &ended);
    beside_the_writer(rt, alloc, live, &ended, follow)?;
    // the marker and each write
    equal(rt, feed.handed(), WRITES + 1);
    Ok(())
}

// The last refresh comes behind the last write.
fn follow_to_the_end<N: LiveName, R: Wait + Abort>(
    rt: &R,
    feed: &mut Feed<N>,
    ended: &AtomicU64,
) -> Result<(), KvError> {
    let mut last = 0;
    for _ in rt.forever() {
        let is_last = has_ended(ended);
        feed.refresh()?;
        equal(rt, takes_whole_pairs(feed, &mut last), true);
        if is_last {
            return Ok(());
        }
    }
    Ok(())
}

// Whether all that it hands out by its version comes in order, and ends with the second write of a pair.
fn takes_whole_pairs<N: LiveName>(feed: &mut Feed<N>, last: &mut u64) -> bool {
    // the marker, each write, and the end
    for _ in 0..WRITES + 2 {
        match feed.take() {
            Taken::Empty => return *last % 2 == 0,
            item => {
                if !is_next(item, last) {
                    return false;
                }
            }
        }
    }
    false
}
