//! The places of readers, and the versions that feeds leave.

use super::*;

fn slot<N: LiveName, R: Wait>(rt: &R, live: &Live<N>) -> Result<Reader<N>, KvError> {
    once_more!(live.lock(rt).reader())
}

fn finds_no_place<N: LiveName, R: Wait + Abort>(rt: &R, live: &Live<N>) {
    equal(rt, slot(rt, live).err(), Some(KvError::NoReader));
}

// Takes the one place that is free. The reader there sees all that is published.
fn takes_the_place<N: LiveName, R: Wait + Abort>(
    rt: &R,
    live: &Live<N>,
) -> Result<Reader<N>, KvError> {
    let mut reader = slot(rt, live)?;
    equal(rt, shown_to(&mut reader), Answer::On(1, 0));
    finds_no_place(rt, live);
    Ok(reader)
}

#[test]
fn a_dropped_reader_frees_its_place(rt: HostRuntime) -> Result<(), Fail> {
    Ok(run(&rt, rt.alloc(), FreedPlace)?)
}

#[derive(Clone, Copy)]
struct FreedPlace;

impl<R: Wait + Abort> Test<R> for FreedPlace {
    fn run<N: LiveName>(
        self,
        rt: &R,
        alloc: Global,
        live: &Live<N>,
        readers: &mut Vec<Reader<N>>,
    ) -> Result<(), KvError> {
        equal(
            rt,
            calls(rt, alloc, live, &[(Call::Put("a"), Answer::Number(1))]),
            None,
        );
        finds_no_place(rt, live);
        drop(last(readers)?);
        let _third = takes_the_place(rt, live)?;
        freed_by_a_feed(rt, alloc, live, readers)
    }
}

// A feed that is dropped frees the place of its reader.
fn freed_by_a_feed<N: LiveName, R: Wait + Abort>(
    rt: &R,
    alloc: Global,
    live: &Live<N>,
    readers: &mut Vec<Reader<N>>,
) -> Result<(), KvError> {
    drop(feed_of_last(alloc, readers)?);
    drop(takes_the_place(rt, live)?);
    Ok(())
}

#[test]
fn a_refresh_hands_out_what_it_left(rt: HostRuntime) -> Result<(), Fail> {
    Ok(run(&rt, rt.alloc(), LeftBehind)?)
}

#[derive(Clone, Copy)]
struct LeftBehind;

impl<R: Wait + Abort> Test<R> for LeftBehind {
    fn run<N: LiveName>(
        self,
        rt: &R,
        alloc: Global,
        live: &Live<N>,
        readers: &mut Vec<Reader<N>>,
    ) -> Result<(), KvError> {
        equal(
            rt,
            calls(rt, alloc, live, &[(Call::Put("a"), Answer::Number(1))]),
            None,
        );
        let mut feed = feed_of_last(alloc, readers)?;
        goes_on_without_it(rt, alloc, live, &mut feed);
        Ok(())
    }
}

// The feed hands out the version that it leaves, and goes on to what a write and a compaction made.
fn goes_on_without_it<N: LiveName, R: Wait + Abort>(
    rt: &R,
    alloc: Global,
    live: &Live<N>,
    feed: &mut Feed<N>,
) {
    equal(
        rt,
        calls(rt, alloc, live, &[(Call::Put("b"), Answer::Number(2))]),
        None,
    );
    equal(rt, left_by(rt, feed), Answer::On(1, 0));
    equal(rt, moves(feed, ON_THE_SECOND), None);
    equal(
        rt,
        calls(rt, alloc, live, &[(Call::Compact(2), Answer::Done)]),
        None,
    );
    equal(rt, moves(feed, COMPACTED), None);
}

fn left_by<N: LiveName, R: Abort>(rt: &R, feed: &mut Feed<N>) -> Answer {
    let before = look_at(feed);
    once_more!(on(feed.refresh_keeping()), equal(rt, look_at(feed), before))
}

const ON_THE_SECOND: &[(Move, Answer)] = &[
    (Move::Version, Answer::On(2, 0)),
    (Move::Take, Answer::Entry(1)),
    (Move::Take, Answer::Marker),
    (Move::Take, Answer::Entry(2)),
    (Move::Take, Answer::Empty),
];

// A compaction gives a feed nothing but its floor.
const COMPACTED: &[(Move, Answer)] = &[
    (Move::Refresh, Answer::Done),
    (Move::Take, Answer::Empty),
    (Move::Version, Answer::On(2, 2)),
];
