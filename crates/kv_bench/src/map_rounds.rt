//! Rounds of threads over a map under a lock, with a channel to each follower, as a user would do for a watch.

use crate::jobs::{Job, perform_all};
use crate::maps::{Locked, filled, texts};
use crate::round::{Done, Round, Task, asked};
use crate::sides::{Puts, Takes};
use crate::told::{Over, tell_all, untold};
use crossbeam_channel::{Receiver, Sender, unbounded};
use kv_gauge::fault::Fault;
use kv_gauge::keys::VALUE;
use kv_gauge::plan::Plan;
use std::alloc::Global;
use std::collections::HashMap;
use std::rt::Clock;
use std::sync::{Arc, RwLock, Wait};
use std::thread::Threads;
use std::time::CpuClock;

type Map = HashMap<String, Vec<u8>>;

// What a follower is sent: one block for all of them.
#[derive(Drop)]
struct Message {
    key: String,
    value: Vec<u8>,
}

// A map under a lock, and what is asked of it.
#[derive(Drop)]
struct Plain<'a> {
    lock: &'a RwLock<Map>,
    texts: &'a [String],
}

// A map under a lock, with the channels of its followers.
#[derive(Drop)]
struct Posts<'a> {
    alloc: Global,
    lock: &'a RwLock<Map>,
    texts: &'a [String],
    ends: Vec<Sender<Arc<Message>>>,
}

fn packed(alloc: Global, text: &String) -> Result<Arc<Message>, Fault> {
    let key = text.clone()?;
    let value = Vec::from_slice(alloc, VALUE)?;
    let message = Arc::new(alloc, Message { key, value })?;
    Ok(message)
}

fn send_all<R: Wait>(
    rt: &R,
    ends: &[Sender<Arc<Message>>],
    message: &Arc<Message>,
) -> Result<(), Fault> {
    for end in ends {
        let copy = Arc::try_clone(message)?;
        if end.send(rt, copy).is_err() {
            return Err(Fault::Memory);
        }
    }
    Ok(())
}

impl<'a> Puts for Posts<'a> {
    // Sends while it has the lock, so that all followers see one order.
    fn put<R: Wait>(&mut self, rt: &R, index: usize) -> Result<(), Fault> {
        let Some(text) = self.texts.get(index) else {
            return Ok(());
        };
        let message = packed(self.alloc, text)?;
        let key = text.clone()?;
        let value = Vec::from_slice(self.alloc, VALUE)?;
        let mut map = self.lock.write(rt);
        map.insert(key, value)?;
        send_all(rt, self.ends.as_slice(), &message)
    }

    // The channels end with their senders.
    fn finish(self) {}
}

// A follower's end of its channel.
#[derive(Drop)]
struct Receives(Receiver<Arc<Message>>);

impl Takes for Receives {
    fn take<R: Wait + Clock>(&mut self, rt: &R) -> Result<bool, Fault> {
        Ok(self.0.recv(rt).is_ok())
    }
}

fn reading<'a>(
    alloc: Global,
    ground: &Plain<'a>,
    others: usize,
) -> Result<Vec<Job<Locked<'a, Map>, Locked<'a, Map>, Receives>>, Fault> {
    let mut jobs = Vec::new(alloc);
    jobs.push(Job::Put(Locked {
        alloc,
        lock: ground.lock,
        texts: ground.texts,
    }))?;
    for _ in 0..others {
        jobs.push(Job::Get(Locked {
            alloc,
            lock: ground.lock,
            texts: ground.texts,
        }))?;
    }
    Ok(jobs)
}

// The ends of so many channels: those that are sent to, and those of the followers.
fn channels(
    alloc: Global,
    others: usize,
) -> Result<(Vec<Sender<Arc<Message>>>, Vec<Receives>), Fault> {
    let mut ends = Vec::new(alloc);
    let mut followers = Vec::new(alloc);
    for _ in 0..others {
        let (end, other_end) = unbounded::<Arc<Message>, Global>(alloc)?;
        ends.push(end)?;
        followers.push(Receives(other_end))?;
    }
    Ok((ends, followers))
}

fn following<'a>(
    alloc: Global,
    ground: &Plain<'a>,
    others: usize,
) -> Result<Vec<Job<Posts<'a>, Locked<'a, Map>, Receives>>, Fault> {
    let (ends, followers) = channels(alloc, others)?;
    let mut jobs = Vec::new(alloc);
    jobs.push(Job::Put(Posts {
        alloc,
        lock: ground.lock,
        texts: ground.texts,
        ends,
    }))?;
    for follower in followers {
        jobs.push(Job::Take(follower))?;
    }
    Ok(jobs)
}

fn round<R: Threads + Wait + Sync + Clock + CpuClock>(
    rt: &R,
    alloc: Global,
    plan: Plan,
    task: Task,
    ground: &Plain<'_>,
    others: usize,
) -> Result<Vec<Done>, Fault> {
    match task {
        Task::Read | Task::ReadAll => {
            let jobs = reading(alloc, ground, others)?;
            let round = Round::begun(rt, plan, task, usize::MAX)?;
            perform_all(rt, alloc, &round, jobs)
        }
        Task::Follow | Task::Nap | Task::Delay => {
            let jobs = following(alloc, ground, others)?;
            let round = Round::begun(rt, plan, task, usize::MAX)?;
            perform_all(rt, alloc, &round, jobs)
        }
    }
}

// One round for each number of threads in turn, as of a live bucket.
fn figures<R: Threads + Wait + Sync + Clock + CpuClock + Print>(
    rt: &R,
    alloc: Global,
    plan: Plan,
    task: Task,
    ground: &Plain<'_>,
) -> Result<(), Fault> {
    let mut all = untold(alloc, plan, task, Over::Map)?;
    for _ in 0..plan.rounds {
        for told in all.iter_mut() {
            let done = round(rt, alloc, plan, task, ground, told.number)?;
            told.add_round(task, done.as_slice())?;
        }
    }
    tell_all(rt, task, &mut all)
}

/// Fills a map, and measures rounds of threads over it.
pub fn run<R: Threads + Wait + Sync + Clock + CpuClock + Print>(
    rt: &R,
    alloc: Global,
    plan: Plan,
    task: Task,
) -> Result<(), Fault> {
    let lock = RwLock::new(filled::<Map>(alloc, plan.keys)?);
    let texts = texts(alloc, plan.keys, asked(plan, task))?;
    let ground = Plain {
        lock: &lock,
        texts: texts.as_slice(),
    };
    figures(rt, alloc, plan, task, &ground)
}
