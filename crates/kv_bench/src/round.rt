//! A round of threads: what they share, and what each did.

use kv_gauge::clock::since;
use kv_gauge::fault::Fault;
use kv_gauge::plan::Plan;
use std::alloc::Global;
use std::rt::Clock;
use std::sync::atomic::{AtomicU64, Ordering};
use std::thread;
use std::time::{Duration, Instant};

/// How many keys the threads of a round ask for, unless they ask for all, and how many reads a reader makes before it looks
/// whether the round is over.
pub const ASKED: usize = 500;

// How long a writer writes that is not followed, in nanoseconds: shorter where nothing is told.
const NANOS: u64 = 150_000_000;

const QUIET_NANOS: u64 = 1_000_000;

// How many writes a writer makes that is followed: without pauses, with pauses, and where nothing is told.
const WRITES: usize = 10_000;

const PAUSED_WRITES: usize = 1000;

const QUIET_WRITES: usize = 50;

// How long the pauses are, in microseconds.
const PAUSE: u64 = 100;

/// What the threads of a round do.
#[derive(Clone, Copy)]
pub enum Task {
    /// One writes for a time, the others read.
    Read,
    /// The same over all keys.
    ReadAll,
    /// One makes a number of writes, the others follow.
    Follow,
    /// The same, but who finds nothing naps for a while, and looks again.
    Nap,
    /// One makes a number of writes with pauses, the others tell when the items came.
    Delay,
}

/// How many keys are asked for.
pub fn asked(plan: Plan, task: Task) -> usize {
    match task {
        Task::ReadAll => plan.keys,
        Task::Read | Task::Follow | Task::Nap | Task::Delay => ASKED,
    }
}

fn writes(plan: Plan, task: Task) -> usize {
    if plan.quiet {
        return QUIET_WRITES;
    }
    match task {
        Task::Read | Task::ReadAll => usize::MAX,
        Task::Follow | Task::Nap => WRITES,
        Task::Delay => PAUSED_WRITES,
    }
}

/// When a round began, what is done in it, and whether its writer has ended.
#[derive(Drop)]
pub struct Round {
    task: Task,
    /// The most writes that are made.
    pub writes: usize,
    asked: usize,
    nanos: u64,
    start: Instant,
    ended: AtomicU64,
    readers: AtomicU64,
}

impl Round {
    /// A round that begins now, and makes no more writes than there is room for.
    pub fn begun<R: Clock>(rt: &R, plan: Plan, task: Task, room: usize) -> Result<Round, Fault> {
        Ok(Round {
            task,
            writes: writes(plan, task).min(room),
            asked: asked(plan, task),
            nanos: if plan.quiet { QUIET_NANOS } else { NANOS },
            start: Instant::now(rt)?,
            ended: AtomicU64::new(0),
            readers: AtomicU64::new(0),
        })
    }

    /// The index of the key behind this one: after the last one comes the first.
    pub fn next(&self, index: usize) -> usize {
        let next = index.wrapping_add(1);
        if next >= self.asked { 0 } else { next }
    }

    /// The index of the first key of a reader that begins now: each begins elsewhere.
    pub fn first(&self) -> usize {
        let before = self.readers.fetch_add(1, Ordering::SeqCst) as usize;
        if self.asked == 0 {
            return 0;
        }
        before.wrapping_mul(self.asked / 7) % self.asked
    }

    /// The nanoseconds since it began.
    pub fn time<R: Clock>(&self, rt: &R) -> Result<u64, Fault> {
        since(rt, &self.start)
    }

    /// The writer has ended.
    pub fn end(&self) {
        self.ended.store(1, Ordering::SeqCst);
    }

    /// Whether it has.
    pub fn is_over(&self) -> bool {
        self.ended.load(Ordering::SeqCst) != 0
    }

    /// Notes when something was done, where that is asked.
    pub fn note<R: Clock>(&self, rt: &R, moments: &mut Vec<u64>) -> Result<(), Fault> {
        if let Task::Delay = self.task {
            moments.push(self.time(rt)?)?;
        }
        Ok(())
    }

    /// Pauses after a write, where there are pauses, and tells whether the time is over, at which it looks now and
    /// then.
    pub fn is_enough<R: Clock>(&self, rt: &R, turn: usize) -> Result<bool, Fault> {
        match self.task {
            Task::Read | Task::ReadAll => Ok(turn % 128 == 127 && self.time(rt)? >= self.nanos),
            Task::Follow | Task::Nap => Ok(false),
            Task::Delay => {
                thread::sleep(rt, Duration::from_micros(PAUSE));
                Ok(false)
            }
        }
    }
}

/// What a thread did: how often, in how many nanoseconds since the round began, how many of these a processor was at
/// it, and when, where that is asked.
#[derive(Drop)]
pub struct Done {
    pub count: usize,
    pub nanos: u64,
    pub busy: u64,
    pub moments: Vec<u64>,
}

/// What the threads of a round did, the writer first, unless one of them failed.
pub fn all_done(alloc: Global, done: Vec<Result<Done, Fault>>) -> Result<Vec<Done>, Fault> {
    let mut all = Vec::new(alloc);
    for one in done {
        all.push(one?)?;
    }
    Ok(all)
}
