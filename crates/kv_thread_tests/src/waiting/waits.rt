//! Tests of waits: what ends them, and what they answer.

use crate::equal::equal;
use crate::following::{From, put, put_two, watch};
use kv_bucket::{Feed, Filters, KvError, Live, LiveName, Reader, Version, Woken};
use kv_live_test_tools::{Test, last, run};
use std::alloc::Global;
use std::process::Abort;
use std::rt::Clock;
use std::sync::Wait;
use std::test::Fail;
use std::time::Duration;

// What is done to the bucket.
#[derive(Clone, Copy)]
pub enum Act {
    Put,
    // In one batch.
    PutTwo,
    Seal,
    Compact,
    Finish,
}

pub fn make<N: LiveName, R: Wait>(
    rt: &R,
    alloc: Global,
    live: &Live<N>,
    act: Act,
) -> Result<(), KvError> {
    match act {
        Act::Put => {
            put(rt, alloc, live)?;
            Ok(())
        }
        Act::PutTwo => {
            put_two(rt, alloc, live)?;
            Ok(())
        }
        Act::Seal => live.seal(rt),
        Act::Compact => live.compact(rt, 1),
        Act::Finish => {
            live.finish();
            Ok(())
        }
    }
}

// What is done beside a reader, or by it.
#[derive(Clone, Copy)]
pub enum Step {
    Do(Act),
    // A look at what is published.
    Look,
    // A wait for a moment, and what it is told; None is the limit.
    Moment(Option<Woken>),
    // A wait without a limit.
    Wait(Woken),
    // A wait for a revision, and the revision of the version that was found, if any.
    For { revision: u64, found: Option<u64> },
}

// Long enough for who doesn't wait, and short enough for a test.
fn moment() -> Duration {
    Duration::from_millis(20)
}

pub fn take_step<N: LiveName, R: Wait + Clock + Abort>(
    rt: &R,
    alloc: Global,
    live: &Live<N>,
    reader: &mut Reader<N>,
    step: Step,
) -> Result<(), KvError> {
    match step {
        Step::Do(one) => make(rt, alloc, live, one),
        Step::Look => {
            reader.version()?;
            Ok(())
        }
        Step::Moment(woken) => {
            equal(rt, reader.wait_timeout(rt, moment()), woken);
            Ok(())
        }
        Step::Wait(woken) => {
            equal(rt, reader.wait(rt), woken);
            Ok(())
        }
        Step::For { revision, found } => finds(rt, reader, revision, found),
    }
}

fn revision_of(found: Option<Version>) -> Option<u64> {
    match found {
        Some(version) => Some(version.revision()),
        None => None,
    }
}

fn finds<N: LiveName, R: Wait + Abort>(
    rt: &R,
    reader: &mut Reader<N>,
    revision: u64,
    found: Option<u64>,
) -> Result<(), KvError> {
    equal(rt, revision_of(reader.wait_for(rt, revision)?), found);
    Ok(())
}

pub fn steps<N: LiveName, R: Wait + Clock + Abort>(
    rt: &R,
    alloc: Global,
    live: &Live<N>,
    reader: &mut Reader<N>,
    all: &[Step],
) -> Result<(), KvError> {
    for one in all {
        take_step(rt, alloc, live, reader, *one)?;
    }
    Ok(())
}

// A test of what a reader does, one step after another.
#[derive(Clone, Copy)]
struct InTurn(&'static [Step]);

impl<R: Wait + Clock + Abort> Test<R> for InTurn {
    fn run<N: LiveName>(
        self,
        rt: &R,
        alloc: Global,
        live: &Live<N>,
        readers: &mut Vec<Reader<N>>,
    ) -> Result<(), KvError> {
        let mut reader = last(readers)?;
        steps(rt, alloc, live, &mut reader, self.0)
    }
}

// What is new goes before the end.
const TIMEOUTS: &[Step] = &[
    Step::Moment(None),
    Step::Do(Act::Put),
    Step::Moment(Some(Woken::Changed)),
    Step::Look,
    Step::Moment(None),
    Step::Do(Act::Finish),
    Step::Moment(Some(Woken::Closed)),
    Step::Do(Act::Put),
    Step::Moment(Some(Woken::Changed)),
];

#[test]
fn a_timeout_ends_a_wait(rt: HostRuntime) -> Result<(), Fail> {
    Ok(run(&rt, rt.alloc(), InTurn(TIMEOUTS))?)
}

// A seal is news, too.
const ENDS: &[Step] = &[
    Step::Do(Act::Put),
    Step::Wait(Woken::Changed),
    Step::Look,
    Step::Do(Act::Seal),
    Step::Wait(Woken::Changed),
    Step::Look,
    Step::Do(Act::Finish),
    Step::Wait(Woken::Closed),
];

#[test]
fn a_wait_ends_by_news_and_by_the_end(rt: HostRuntime) -> Result<(), Fail> {
    Ok(run(&rt, rt.alloc(), InTurn(ENDS))?)
}

const REVISIONS: &[Step] = &[
    Step::For {
        revision: 0,
        found: Some(0),
    },
    Step::Do(Act::Put),
    Step::Do(Act::Put),
    Step::For {
        revision: 1,
        found: Some(2),
    },
    Step::Do(Act::Finish),
    Step::For {
        revision: 3,
        found: None,
    },
    Step::For {
        revision: 2,
        found: Some(2),
    },
];

#[test]
fn a_revision_is_waited_for_to_the_end(rt: HostRuntime) -> Result<(), Fail> {
    Ok(run(&rt, rt.alloc(), InTurn(REVISIONS))?)
}

// A look takes in all of a batch, and what is written behind it is news again.
const BATCHES: &[Step] = &[
    Step::Do(Act::PutTwo),
    Step::Moment(Some(Woken::Changed)),
    Step::For {
        revision: 1,
        found: Some(2),
    },
    Step::Moment(None),
    Step::Do(Act::Put),
    Step::Moment(Some(Woken::Changed)),
    Step::For {
        revision: 3,
        found: Some(3),
    },
    Step::Do(Act::PutTwo),
    Step::For {
        revision: 4,
        found: Some(5),
    },
    Step::Moment(None),
];

// Refutes a notifier that counts a batch as one write: who has looked behind the batch would sleep on behind the next.
#[test]
fn a_wait_counts_each_write_of_a_batch(rt: HostRuntime) -> Result<(), Fail> {
    Ok(run(&rt, rt.alloc(), InTurn(BATCHES))?)
}

// A test of a feed that begins there, and is told this by its first wait.
#[derive(Clone, Copy)]
struct FirstWait {
    from: From,
    woken: Option<Woken>,
}

impl<R: Wait + Clock + Abort> Test<R> for FirstWait {
    fn run<N: LiveName>(
        self,
        rt: &R,
        alloc: Global,
        live: &Live<N>,
        readers: &mut Vec<Reader<N>>,
    ) -> Result<(), KvError> {
        let mut reader = last(readers)?;
        steps(rt, alloc, live, &mut reader, SEEN)?;
        let mut feed = watch(reader, &Filters::parse(alloc, "app.>")?, self.from)?;
        feed_waits(rt, alloc, live, &mut feed, self.woken)
    }
}

#[test]
fn a_feed_waits_from_its_refresh_on(rt: HostRuntime) -> Result<(), Fail> {
    let first = FirstWait {
        from: From::ItsReader,
        woken: None,
    };
    Ok(run(&rt, rt.alloc(), first)?)
}

// The feed has yet to hand out what its reader has seen before.
#[test]
fn a_feed_from_the_empty_bucket_is_behind_what_its_reader_saw(rt: HostRuntime) -> Result<(), Fail> {
    let first = FirstWait {
        from: From::EmptyBucket,
        woken: Some(Woken::Changed),
    };
    Ok(run(&rt, rt.alloc(), first)?)
}

const SEEN: &[Step] = &[Step::Do(Act::Put), Step::Look, Step::Moment(None)];

fn feed_waits<N: LiveName, R: Wait + Clock + Abort>(
    rt: &R,
    alloc: Global,
    live: &Live<N>,
    feed: &mut Feed<N>,
    first: Option<Woken>,
) -> Result<(), KvError> {
    equal(rt, feed.wait_timeout(rt, moment()), first);
    put(rt, alloc, live)?;
    equal(rt, feed.wait(rt), Woken::Changed);
    feed.refresh()?;
    equal(rt, feed.wait_timeout(rt, moment()), None);
    live.finish();
    equal(rt, feed.wait(rt), Woken::Closed);
    Ok(())
}
