//! Rounds of threads over a live bucket.

ghost use Rattle.std.specs.Prelude.{◌≡◌};

use crate::jobs::{Job, perform_all};
use crate::lives::{Follows, Load, Reads, Writes, fill, opened, opened_for_latest, spread_load};
use crate::round::{Done, Round, Task, asked};
use crate::told::{Over, most, tell_all, untold};
use kv_bucket::{Filters, KvError, Live, LiveName, Opened, Reader};
use kv_gauge::fault::Fault;
use kv_gauge::plan::Plan;
use kv_gauge::watching::UPDATES;
use std::alloc::Global;
use std::marker::Brand;
use std::rt::Clock;
use std::sync::Wait;
use std::thread::Threads;
use std::time::CpuClock;

// How many writes a bucket stores at most, and with room for how many more a round begins.
const MOST: u64 = 1_000_000;

const WANTED: u64 = 25_000;

// A live bucket, and what is asked of it.
#[derive(Drop)]
struct Lively<'a, N: LiveName> {
    live: &'a Live<N>,
    load: &'a Load,
}

fn seat<N: LiveName, R: Wait>(rt: &R, live: &Live<N>) -> Result<Reader<N>, KvError> {
    live.lock(rt).reader()
}

// How many writes there is room for, after a compaction where that is little.
fn make_room<N: LiveName, R: Wait>(rt: &R, live: &Live<N>) -> Result<usize, KvError> {
    let mut keeper = live.lock(rt);
    let status = keeper.bucket().version().status();
    if MOST.saturating_sub(status.stored) < WANTED {
        keeper.compact(rt, status.last)?;
    }
    let stored = keeper.bucket().version().status().stored;
    Ok(MOST.saturating_sub(stored) as usize)
}

fn follows<N: LiveName>(alloc: Global, reader: Reader<N>, naps: bool) -> Result<Follows<N>, Fault> {
    let filters = Filters::parse(alloc, ">")?;
    match reader.watch(&filters, UPDATES) {
        Ok(feed) => Ok(Follows { feed, naps }),
        Err((_, refusal)) => Err(Fault::Refused(refusal)),
    }
}

type LiveJob<'a, N> = Job<Writes<'a, N>, Reads<'a, N>, Follows<N>>;

fn job<'a, N: LiveName>(
    alloc: Global,
    load: &'a Load,
    task: Task,
    reader: Reader<N>,
) -> Result<LiveJob<'a, N>, Fault> {
    match task {
        Task::Read | Task::ReadAll => Ok(Job::Get(Reads::new(reader, load.keys.as_slice())?)),
        Task::Follow | Task::Delay => Ok(Job::Take(follows(alloc, reader, false)?)),
        Task::Nap => Ok(Job::Take(follows(alloc, reader, true)?)),
    }
}

fn jobs<'a, N: LiveName, R: Wait>(
    rt: &R,
    alloc: Global,
    ground: &Lively<'a, N>,
    task: Task,
    others: usize,
) -> Result<Vec<LiveJob<'a, N>>, Fault> {
    let mut jobs = Vec::new(alloc);
    jobs.push(Job::Put(Writes {
        live: ground.live,
        requests: ground.load.requests.as_slice(),
    }))?;
    for _ in 0..others {
        let reader = seat(rt, ground.live)?;
        jobs.push(job(alloc, ground.load, task, reader)?)?;
    }
    Ok(jobs)
}

fn round<N: LiveName + Send + Sync, R: Threads + Wait + Sync + Clock + CpuClock>(
    rt: &R,
    alloc: Global,
    plan: Plan,
    task: Task,
    ground: &Lively<'_, N>,
    others: usize,
) -> Result<Vec<Done>, Fault> {
    let room = make_room(rt, ground.live)?;
    let jobs = jobs(rt, alloc, ground, task, others)?;
    let round = Round::begun(rt, plan, task, room)?;
    perform_all(rt, alloc, &round, jobs)
}

// One round for each number of threads in turn, so that a short disturbance meets few rounds of the same number.
fn figures<N: LiveName + Send + Sync, R: Threads + Wait + Sync + Clock + CpuClock + Print>(
    rt: &R,
    alloc: Global,
    plan: Plan,
    task: Task,
    ground: &Lively<'_, N>,
) -> Result<(), Fault> {
    let mut all = untold(alloc, plan, task, Over::Live)?;
    for _ in 0..plan.rounds {
        for told in all.iter_mut() {
            let done = round(rt, alloc, plan, task, ground, told.number)?;
            told.add_round(task, done.as_slice())?;
        }
    }
    tell_all(rt, task, &mut all)
}

fn live_figures<N: LiveName + Send + Sync, R: Threads + Wait + Sync + Clock + CpuClock + Print>(
    rt: &R,
    alloc: Global,
    plan: Plan,
    task: Task,
    live: &Live<N>,
) -> Result<(), Fault> {
    fill(rt, alloc, live, plan.keys)?;
    let load = spread_load(alloc, plan, asked(plan, task))?;
    let ground = Lively { live, load: &load };
    figures(rt, alloc, plan, task, &ground)
}

fn opened_figures<N: LiveName + Send + Sync, R: Threads + Wait + Sync + Clock + CpuClock + Print>(
    rt: &R,
    alloc: Global,
    plan: Plan,
    task: Task,
    opened: Opened,
) -> Result<(), Fault>
    requires { opened.opening ≡ N.opening }
{
    let (live, readers) = opened.live::<N, R>(rt)?;
    drop(readers);
    let done = live_figures(rt, alloc, plan, task, &live);
    live.close(rt);
    done
}

/// Opens a bucket with its keys, and measures rounds of threads over it.
pub fn run<R: Threads + Wait + Sync + Clock + CpuClock + Print>(
    rt: &R,
    alloc: Global,
    plan: Plan,
    task: Task,
) -> Result<(), Fault> {
    let opened = match task {
        Task::ReadAll => opened_for_latest(alloc, most(task))?,
        _ => opened(alloc, most(task))?,
    };
    opened_figures::<Brand, R>(rt, alloc, plan.with_room(), task, opened)
}
