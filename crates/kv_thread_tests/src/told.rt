//! Tests of told writes. A publish that is refused leaves receipts, readers and later writes working.

use crate::equal::equal;
use crate::threaded::{Threaded, run_threaded};
use kv_bucket::{Feed, KvError, Live, LiveName, Reader, Receipt};
use kv_live_test_tools::{
    Answer, Move, OPENING, Test, both, look, moves, put_request, reader_and_feed, run, shown_to,
    stop,
};
use kv_test_tools::once_more;
use std::alloc::Global;
use std::process::Abort;
use std::sync::Wait;
use std::test::Fail;
use std::thread::{Threads, join};

fn write_told<N: LiveName, R: Wait>(
    rt: &R,
    alloc: Global,
    live: &Live<N>,
) -> Result<(u64, Receipt<N>), KvError> {
    let request = put_request(alloc, "a")?;
    live.write_told(rt, &request)
}

// The receipt of a put, which is told at this revision.
fn told_at<N: LiveName, R: Wait + Abort>(
    rt: &R,
    alloc: Global,
    live: &Live<N>,
    revision: u64,
) -> Result<Receipt<N>, KvError> {
    let before = look(rt, live);
    let told = once_more!(
        write_told(rt, alloc, live),
        equal(rt, look(rt, live).is_as(&before), true)
    );
    let (answered, receipt) = told?;
    equal(rt, (answered, receipt.revision()), (revision, revision));
    Ok(receipt)
}

// Another thread writes.
fn told_write<N: LiveName + Send + Sync, R: Threads + Wait + Abort + Sync>(
    rt: &R,
    alloc: Global,
    live: &Live<N>,
    revision: u64,
) -> Result<Receipt<N>, KvError> {
    let (receipt, ()) = join(rt, || told_at(rt, alloc, live, revision), || ());
    receipt
}

#[test]
fn a_told_write_is_handed_out(rt: HostRuntime) -> Result<(), Fail> {
    Ok(run_threaded(&rt, rt.alloc(), OPENING, Threaded::ToldWrite)?)
}

pub fn handed_out<N: LiveName + Send + Sync, R: Threads + Wait + Abort + Sync>(
    rt: &R,
    alloc: Global,
    live: &Live<N>,
    readers: &mut Vec<Reader<N>>,
) -> Result<(), KvError> {
    let (mut reader, feed) = reader_and_feed(alloc, readers)?;
    told_to_both(rt, alloc, live, feed, &mut reader)
}

const TOLD: &[(Move, Answer)] = &[
    (Move::Refresh, Answer::Done),
    (Move::Take, Answer::Marker),
    (Move::Take, Answer::Entry(1)),
    (Move::Take, Answer::Empty),
];

fn told_to_both<N: LiveName + Send + Sync, R: Threads + Wait + Abort + Sync>(
    rt: &R,
    alloc: Global,
    live: &Live<N>,
    feed: Feed<N>,
    reader: &mut Reader<N>,
) -> Result<(), KvError> {
    let receipt = told_write(rt, alloc, live, 1)?;
    follows_told(rt, feed, &receipt);
    learns(rt, reader, &receipt, 1);
    Ok(())
}

fn follows_told<N: LiveName, R: Abort>(rt: &R, feed: Feed<N>, receipt: &Receipt<N>) {
    let mut feed = feed;
    feed.learn(receipt);
    equal(rt, moves(&mut feed, TOLD), None);
    let (_reader, handed) = stop(feed);
    equal(rt, handed, (2, 2));
}

fn learns<N: LiveName, R: Abort>(
    rt: &R,
    reader: &mut Reader<N>,
    receipt: &Receipt<N>,
    revision: u64,
) {
    reader.learn(receipt);
    equal(rt, shown_to(reader), Answer::On(revision, 0));
}

#[test]
fn readers_tell_what_the_other_has_seen(rt: HostRuntime) -> Result<(), Fail> {
    Ok(run(&rt, rt.alloc(), LooksInTurn)?)
}

#[derive(Clone, Copy)]
struct LooksInTurn;

impl<R: Wait + Abort> Test<R> for LooksInTurn {
    fn run<N: LiveName>(
        self,
        rt: &R,
        alloc: Global,
        live: &Live<N>,
        readers: &mut Vec<Reader<N>>,
    ) -> Result<(), KvError> {
        let (mut first, mut second) = both(readers)?;
        told_twice(rt, alloc, live, &mut first, &mut second)
    }
}

fn told_twice<N: LiveName, R: Wait + Abort>(
    rt: &R,
    alloc: Global,
    live: &Live<N>,
    first: &mut Reader<N>,
    second: &mut Reader<N>,
) -> Result<(), KvError> {
    let older = told_at(rt, alloc, live, 1)?;
    look_in_turn(rt, first, second, &older);
    let newer = told_at(rt, alloc, live, 2)?;
    learns_both(rt, first, &newer, &older);
    learns_both(rt, second, &older, &newer);
    Ok(())
}

// A reader that learns an older receipt behind a newer one knows no less.
fn learns_both<N: LiveName, R: Abort>(
    rt: &R,
    reader: &mut Reader<N>,
    one: &Receipt<N>,
    other: &Receipt<N>,
) {
    learns(rt, reader, one, 2);
    learns(rt, reader, other, 2);
}

// Whether each of two readers has seen all that the other has, and the first what was told.
fn compare<N: LiveName, R: Abort>(
    rt: &R,
    first: &Reader<N>,
    second: &Reader<N>,
    receipt: &Receipt<N>,
    expected: (bool, bool, bool),
) {
    let ahead = first.has_seen_all_of(second);
    let level = second.has_seen_all_of(first);
    equal(rt, (ahead, level, first.has_seen(receipt)), expected);
}

// A reader has seen a told write once it has entered behind it.
fn look_in_turn<N: LiveName, R: Abort>(
    rt: &R,
    first: &mut Reader<N>,
    second: &mut Reader<N>,
    receipt: &Receipt<N>,
) {
    compare(rt, first, second, receipt, (true, true, false));
    equal(rt, shown_to(first), Answer::On(1, 0));
    compare(rt, first, second, receipt, (true, false, true));
    equal(rt, shown_to(second), Answer::On(1, 0));
    compare(rt, first, second, receipt, (true, true, true));
}
