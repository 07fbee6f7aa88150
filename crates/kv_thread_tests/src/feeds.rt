//! Tests of feeds beside other threads, which write or have the lock.

use crate::equal::equal;
use crate::threaded::{Threaded, run_threaded};
use kv_bucket::{Feed, Keeper, KvError, Live, LiveName, Reader};
use kv_live_test_tools::{
    Answer, Call, Move, OPENING, Step, calls, feed_of, last, moves, shown_to, steps, stop,
};
use std::alloc::Global;
use std::process::Abort;
use std::sync::Wait;
use std::test::Fail;
use std::thread::{Threads, join};

#[test]
fn a_feed_goes_on_to_what_a_second_thread_wrote(rt: HostRuntime) -> Result<(), Fail> {
    Ok(run_threaded(&rt, rt.alloc(), OPENING, Threaded::SecondWriter)?)
}

const THREE_KEYS: &[(Call, Answer)] = &[
    (Call::Put("a"), Answer::Number(1)),
    (Call::Put("b"), Answer::Number(2)),
    (Call::Put("c"), Answer::Number(3)),
];

const THREE_ENTRIES: &[(Move, Answer)] = &[
    (Move::Take, Answer::Entry(1)),
    (Move::Take, Answer::Entry(2)),
    (Move::Take, Answer::Entry(3)),
    (Move::Take, Answer::Marker),
    (Move::Take, Answer::Empty),
];

// What the second thread does.
const FOURTH_PUT: &[(Call, Answer)] = &[(Call::Put("d"), Answer::Number(4))];

// Nothing comes before the refresh.
const TO_THE_FOURTH: &[(Move, Answer)] = &[
    (Move::Take, Answer::Empty),
    (Move::Refresh, Answer::Done),
    (Move::Take, Answer::Entry(4)),
];

const SEALED: &[(Call, Answer)] = &[
    (Call::Seal, Answer::Done),
    (Call::Put("e"), Answer::Refused(KvError::Sealed)),
];

pub fn behind_a_second_writer<N: LiveName + Send + Sync, R: Threads + Wait + Abort + Sync>(
    rt: &R,
    alloc: Global,
    live: &Live<N>,
    readers: &mut Vec<Reader<N>>,
) -> Result<(), KvError> {
    equal(rt, calls(rt, alloc, live, THREE_KEYS), None);
    let reader = last(readers)?;
    let feed = opened_beside_the_guard(rt, alloc, live, reader)?;
    let mut reader = stopped_behind_a_writer(rt, alloc, live, feed);
    equal(rt, shown_to(&mut reader), Answer::On(4, 0));
    equal(rt, calls(rt, alloc, live, SEALED), None);
    Ok(())
}

// This thread has the guard while another opens a feed, and takes all that it is given.
fn opened_beside_the_guard<N: LiveName + Send + Sync, R: Threads + Wait + Abort + Sync>(
    rt: &R,
    alloc: Global,
    live: &Live<N>,
    reader: Reader<N>,
) -> Result<Feed<N>, KvError> {
    let keeper = live.lock(rt);
    let (feed, ()) = join(rt, || taken(rt, alloc, reader, THREE_ENTRIES), || ());
    is_at(rt, &keeper, 3);
    feed
}

// A feed of which this is taken.
fn taken<N: LiveName, R: Abort>(
    rt: &R,
    alloc: Global,
    reader: Reader<N>,
    lines: &[(Move, Answer)],
) -> Result<Feed<N>, KvError> {
    let mut feed = feed_of(alloc, reader)?;
    equal(rt, moves(&mut feed, lines), None);
    Ok(feed)
}

// A second thread writes, and the feed goes on to what it wrote.
fn stopped_behind_a_writer<N: LiveName + Send + Sync, R: Threads + Wait + Abort + Sync>(
    rt: &R,
    alloc: Global,
    live: &Live<N>,
    feed: Feed<N>,
) -> Reader<N> {
    let mut feed = feed;
    write_beside(rt, alloc, live);
    equal(rt, moves(&mut feed, TO_THE_FOURTH), None);
    let (reader, handed) = stop(feed);
    equal(rt, handed, (5, 5));
    reader
}

fn write_beside<N: LiveName + Send + Sync, R: Threads + Wait + Abort + Sync>(
    rt: &R,
    alloc: Global,
    live: &Live<N>,
) {
    join(
        rt,
        || equal(rt, calls(rt, alloc, live, FOURTH_PUT), None),
        || (),
    );
}

// Refutes feed_takes_the_lock, which would wait here for ever: the guard is given back only after the feed is done.
#[test]
fn a_feed_needs_no_lock(rt: HostRuntime) -> Result<(), Fail> {
    Ok(run_threaded(&rt, rt.alloc(), OPENING, Threaded::BesideAGuard)?)
}

// The latest entries are those of revisions 2 and 3.
const THREE_WRITES: &[(Call, Answer)] = &[
    (Call::Put("a"), Answer::Number(1)),
    (Call::Put("b"), Answer::Number(2)),
    (Call::Guarded(Step::Delete("a")), Answer::Number(3)),
];

const ITEMS: &[(Move, Answer)] = &[
    (Move::Take, Answer::Entry(2)),
    (Move::Take, Answer::Entry(3)),
    (Move::Take, Answer::Marker),
    (Move::Take, Answer::Empty),
];

// A feed that is dropped takes its reader with it, and nobody waits for either.
pub fn beside_a_guard<N: LiveName + Send + Sync, R: Threads + Wait + Abort + Sync>(
    rt: &R,
    alloc: Global,
    live: &Live<N>,
    readers: &mut Vec<Reader<N>>,
) -> Result<(), KvError> {
    equal(rt, calls(rt, alloc, live, THREE_WRITES), None);
    drop(followed(rt, alloc, live, readers)?);
    equal(
        rt,
        calls(rt, alloc, live, &[(Call::Put("d"), Answer::Number(5))]),
        None,
    );
    let mut reader = last(readers)?;
    equal(rt, shown_to(&mut reader), Answer::On(5, 0));
    Ok(())
}

fn followed<N: LiveName + Send + Sync, R: Threads + Wait + Abort + Sync>(
    rt: &R,
    alloc: Global,
    live: &Live<N>,
    readers: &mut Vec<Reader<N>>,
) -> Result<Feed<N>, KvError> {
    let feed = taken(rt, alloc, last(readers)?, ITEMS)?;
    let reader = stopped_under_a_guard(rt, alloc, live, feed);
    feed_of(alloc, reader)
}

// This thread writes through its guard, and has it while another thread goes on with the feed.
fn stopped_under_a_guard<N: LiveName + Send + Sync, R: Threads + Wait + Abort + Sync>(
    rt: &R,
    alloc: Global,
    live: &Live<N>,
    feed: Feed<N>,
) -> Reader<N> {
    let mut keeper = live.lock(rt);
    let put = &[(Step::Put("c"), Answer::Number(4))];
    equal(rt, steps(rt, alloc, &mut *keeper, put), None);
    stopped_beside(rt, &keeper, feed)
}

fn stopped_beside<N: LiveName + Send + Sync, R: Threads + Wait + Abort + Sync>(
    rt: &R,
    keeper: &Keeper<N>,
    feed: Feed<N>,
) -> Reader<N> {
    let (reader, ()) = join(rt, || fourth_taken(rt, feed), || ());
    is_at(rt, keeper, 4);
    reader
}

fn fourth_taken<N: LiveName, R: Abort>(rt: &R, feed: Feed<N>) -> Reader<N> {
    let mut feed = feed;
    equal(rt, moves(&mut feed, PUT_UNDER_THE_GUARD), None);
    let (reader, handed) = stop(feed);
    equal(rt, handed, (4, 4));
    reader
}

const PUT_UNDER_THE_GUARD: &[(Move, Answer)] = &[
    (Move::Refresh, Answer::Done),
    (Move::Take, Answer::Entry(4)),
];

fn is_at<N: LiveName, R: Abort>(rt: &R, keeper: &Keeper<N>, revision: u64) {
    equal(rt, keeper.bucket().version().revision(), revision);
}
