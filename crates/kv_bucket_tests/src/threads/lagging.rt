//! A test of two feeds that lag: a compaction is ahead of what they have handed out.

use super::*;
use kv_bucket::Keeper;

const LAGGED: Answer = Answer::Refused(KvError::Lagged { floor: 2 });

#[test]
fn a_feed_that_lags_begins_anew(rt: HostRuntime) -> Result<(), Fail> {
    Ok(run(&rt, rt.alloc(), TwoFeeds)?)
}

// The one feed stays where it is while the other goes on to two more puts, and is opened anew after the compaction.
#[derive(Clone, Copy)]
struct TwoFeeds;

impl<R: Wait + Abort> Test<R> for TwoFeeds {
    fn run<N: LiveName>(
        self,
        rt: &R,
        alloc: Global,
        live: &Live<N>,
        readers: &mut Vec<Reader<N>>,
    ) -> Result<(), KvError> {
        equal(rt, calls(rt, alloc, live, ONE_PUT), None);
        let (one, mut other) = feeds_of_both(alloc, readers)?;
        compacted_behind(rt, alloc, live, &mut other);
        begins_anew(rt, alloc, stays_behind(rt, one))?;
        equal(rt, moves(&mut other, GOES_ON), None);
        Ok(())
    }
}

fn feeds_of_both<N: LiveName>(
    alloc: Global,
    readers: &mut Vec<Reader<N>>,
) -> Result<(Feed<N>, Feed<N>), KvError> {
    let one = feed_of_last(alloc, readers)?;
    Ok((one, feed_of_last(alloc, readers)?))
}

fn compacted_behind<N: LiveName, R: Wait + Abort>(
    rt: &R,
    alloc: Global,
    live: &Live<N>,
    feed: &mut Feed<N>,
) {
    let mut keeper = live.lock(rt);
    compacts_behind(rt, alloc, &mut *keeper, feed);
}

// Two more puts and a compaction through one guard. Before the compaction the feed goes on to the puts.
fn compacts_behind<N: LiveName, R: Wait + Abort>(
    rt: &R,
    alloc: Global,
    keeper: &mut Keeper<N>,
    feed: &mut Feed<N>,
) {
    equal(rt, steps(rt, alloc, keeper, TWO_PUTS), None);
    equal(rt, moves(feed, &[(Move::Refresh, Answer::Done)]), None);
    equal(
        rt,
        steps(rt, alloc, keeper, &[(Step::Compact(2), Answer::Done)]),
        None,
    );
}

const ONE_PUT: &[(Call, Answer)] = &[(Call::Put("k"), Answer::Number(1))];

const TWO_PUTS: &[(Step, Answer)] = &[
    (Step::Put("k"), Answer::Number(2)),
    (Step::Put("k"), Answer::Number(3)),
];

// The floor is above the last revision of this feed. It hands out what it owes by its own version, and stays behind.
const STAYS_BEHIND: &[(Move, Answer)] = &[
    (Move::Refresh, LAGGED),
    (Move::Take, Answer::Entry(1)),
    (Move::Take, Answer::Marker),
    (Move::Take, Answer::Empty),
    (Move::Refresh, LAGGED),
    (Move::Version, Answer::On(1, 0)),
];

const BEGINS_ANEW: &[(Move, Answer)] = &[
    (Move::Take, Answer::Entry(3)),
    (Move::Take, Answer::Marker),
    (Move::Take, Answer::Empty),
    (Move::Version, Answer::On(3, 2)),
];

// This feed owes an entry at the floor, and goes on once that is handed out.
const GOES_ON: &[(Move, Answer)] = &[
    (Move::Refresh, LAGGED),
    (Move::Version, Answer::On(3, 0)),
    (Move::Take, Answer::Entry(1)),
    (Move::Take, Answer::Marker),
    (Move::Take, Answer::Entry(2)),
    (Move::Refresh, Answer::Done),
    (Move::Take, Answer::Entry(3)),
    (Move::Take, Answer::Empty),
    (Move::Version, Answer::On(3, 2)),
];

fn stays_behind<N: LiveName, R: Abort>(rt: &R, feed: Feed<N>) -> Reader<N> {
    let mut feed = feed;
    equal(rt, moves(&mut feed, STAYS_BEHIND), None);
    let (reader, handed) = stop(feed);
    equal(rt, handed, (2, 2));
    reader
}

fn begins_anew<N: LiveName, R: Abort>(
    rt: &R,
    alloc: Global,
    reader: Reader<N>,
) -> Result<(), KvError> {
    let mut feed = feed_of(alloc, reader)?;
    equal(rt, moves(&mut feed, BEGINS_ANEW), None);
    Ok(())
}
