//! Tests of what is published, as a guard has it: who has seen it, which receipt tells it, and marks behind it.

use super::*;
use kv_bucket::{Keeper, Mark, Receipt};

// What is done through the guard, by a reader, or with a feed.
#[derive(Clone, Copy)]
enum Action {
    Step(Step, Answer),
    Looks(Answer),
    Move(Move, Answer),
}

// An action, who has seen all that is published by then, and whether the receipt of the first write tells it.
#[derive(Clone, Copy)]
struct Line {
    action: Action,
    seen: Seen,
    told: Told,
}

const GOES_ON: Action = Action::Move(Move::Refresh, Answer::Done);

const WRITES: &[Line] = &[
    Line {
        action: Action::Move(Move::Take, Answer::Marker),
        seen: Seen::ByNobody,
        told: Told::Yes,
    },
    Line {
        action: Action::Looks(Answer::On(1, 0)),
        seen: Seen::ByReader,
        told: Told::Yes,
    },
    Line {
        action: GOES_ON,
        seen: Seen::ByBoth,
        told: Told::Yes,
    },
    Line {
        action: Action::Step(Step::Put("b"), Answer::Number(2)),
        seen: Seen::ByNobody,
        told: Told::No,
    },
    Line {
        action: GOES_ON,
        seen: Seen::ByFeed,
        told: Told::No,
    },
    Line {
        action: Action::Looks(Answer::On(2, 0)),
        seen: Seen::ByBoth,
        told: Told::No,
    },
    // A seal is published as a write is.
    Line {
        action: Action::Step(Step::Seal, Answer::Done),
        seen: Seen::ByNobody,
        told: Told::No,
    },
    Line {
        action: Action::Looks(Answer::On(2, 0)),
        seen: Seen::ByReader,
        told: Told::No,
    },
    // What is refused is not published.
    Line {
        action: Action::Step(Step::Put("c"), Answer::Refused(KvError::Sealed)),
        seen: Seen::ByReader,
        told: Told::No,
    },
    Line {
        action: GOES_ON,
        seen: Seen::ByBoth,
        told: Told::No,
    },
];

#[test]
fn a_guard_tells_who_has_seen_what_is_published(rt: HostRuntime) -> Result<(), Fail> {
    Ok(run(&rt, rt.alloc(), WhoHasSeen { lines: WRITES })?)
}

const BATCHES: &[Line] = &[
    Line {
        action: Action::Looks(Answer::On(1, 0)),
        seen: Seen::ByReader,
        told: Told::Yes,
    },
    Line {
        action: Action::Step(Step::WriteAll(batches::PAIR), Answer::Number(2)),
        seen: Seen::ByNobody,
        told: Told::No,
    },
    Line {
        action: Action::Looks(Answer::On(3, 0)),
        seen: Seen::ByReader,
        told: Told::No,
    },
    Line {
        action: GOES_ON,
        seen: Seen::ByBoth,
        told: Told::No,
    },
    // What is refused is not published, and of no requests nothing is.
    Line {
        action: Action::Step(
            Step::WriteAll(batches::LAST_IS_THERE),
            Answer::RefusedAt(1, KvError::KeyExists),
        ),
        seen: Seen::ByBoth,
        told: Told::No,
    },
    Line {
        action: Action::Step(Step::WriteAll(batches::NOTHING), Answer::Number(3)),
        seen: Seen::ByBoth,
        told: Told::No,
    },
    Line {
        action: Action::Step(Step::Put("c"), Answer::Number(4)),
        seen: Seen::ByNobody,
        told: Told::No,
    },
];

// Refutes a batch that publishes what comes before the request that is refused.
#[test]
fn a_guard_tells_who_has_seen_a_batch(rt: HostRuntime) -> Result<(), Fail> {
    Ok(run(&rt, rt.alloc(), WhoHasSeen { lines: BATCHES })?)
}

#[derive(Clone, Copy)]
struct WhoHasSeen {
    lines: &'static [Line],
}

impl<R: Wait + Abort> Test<R> for WhoHasSeen {
    fn run<N: LiveName>(
        self,
        rt: &R,
        alloc: Global,
        live: &Live<N>,
        readers: &mut Vec<Reader<N>>,
    ) -> Result<(), KvError> {
        let (mut reader, mut feed) = reader_and_feed(alloc, readers)?;
        let mut keeper = live.lock(rt);
        seen_on_a_guard(rt, alloc, &mut *keeper, &mut reader, &mut feed, self.lines)
    }
}

fn seen_on_a_guard<N: LiveName, R: Wait + Abort>(
    rt: &R,
    alloc: Global,
    keeper: &mut Keeper<N>,
    reader: &mut Reader<N>,
    feed: &mut Feed<N>,
    lines: &[Line],
) -> Result<(), KvError> {
    // Nothing is published yet, and nobody can have missed it.
    equal(rt, who_has_seen(keeper, reader, feed), Seen::ByBoth);
    let receipt = told::told_through(rt, alloc, keeper, 1)?;
    seen_in_turn(rt, alloc, keeper, reader, feed, &receipt, lines);
    Ok(())
}

fn who_has_seen<N: LiveName>(keeper: &mut Keeper<N>, reader: &Reader<N>, feed: &Feed<N>) -> Seen {
    let by_reader = keeper.is_seen_by(reader);
    seen_by(by_reader, keeper.is_followed_by(feed))
}

fn seen_in_turn<N: LiveName, R: Wait + Abort>(
    rt: &R,
    alloc: Global,
    keeper: &mut Keeper<N>,
    reader: &mut Reader<N>,
    feed: &mut Feed<N>,
    receipt: &Receipt<N>,
    lines: &[Line],
) {
    for line in lines {
        do_one(rt, alloc, keeper, reader, feed, line.action);
        equal(rt, who_has_seen(keeper, reader, feed), line.seen);
        equal(rt, told_if(keeper.is_told_by(receipt)), line.told);
    }
}

fn do_one<N: LiveName, R: Wait + Abort>(
    rt: &R,
    alloc: Global,
    keeper: &mut Keeper<N>,
    reader: &mut Reader<N>,
    feed: &mut Feed<N>,
    action: Action,
) {
    match action {
        Action::Step(step, answer) => {
            equal(rt, steps(rt, alloc, keeper, &[(step, answer)]), None);
        }
        Action::Looks(answer) => equal(rt, shown_to(reader), answer),
        Action::Move(step, answer) => equal(rt, moves(feed, &[(step, answer)]), None),
    }
}

#[test]
fn who_learns_a_mark_sees_all_that_was_published(rt: HostRuntime) -> Result<(), Fail> {
    Ok(run(&rt, rt.alloc(), Marked)?)
}

const WRITE_AND_SEAL: &[(Call, Answer)] = &[
    (Call::Put("a"), Answer::Number(1)),
    (Call::Seal, Answer::Done),
];

const MARKED: &[(Move, Answer)] = &[
    (Move::Refresh, Answer::Done),
    (Move::Version, Answer::On(1, 0)),
    (Move::Take, Answer::Marker),
    (Move::Take, Answer::Entry(1)),
    (Move::Take, Answer::Empty),
];

#[derive(Clone, Copy)]
struct Marked;

impl<R: Wait + Abort> Test<R> for Marked {
    fn run<N: LiveName>(
        self,
        rt: &R,
        alloc: Global,
        live: &Live<N>,
        readers: &mut Vec<Reader<N>>,
    ) -> Result<(), KvError> {
        let mut feed = feed_of_last(alloc, readers)?;
        equal(rt, calls(rt, alloc, live, WRITE_AND_SEAL), None);
        let mark = live.lock(rt).mark();
        feed.learn_mark(&mark);
        equal(rt, moves(&mut feed, MARKED), None);
        sees_the_seal(rt, readers, &mark)
    }
}

fn sees_the_seal<N: LiveName, R: Abort>(
    rt: &R,
    readers: &mut Vec<Reader<N>>,
    mark: &Mark<N>,
) -> Result<(), KvError> {
    let mut reader = last(readers)?;
    reader.learn_mark(mark);
    let version = version(&mut reader)?;
    equal(rt, (version.revision(), version.sealed()), (1, true));
    Ok(())
}
