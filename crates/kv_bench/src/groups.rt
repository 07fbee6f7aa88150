//! The groups of figures.

use crate::round::Task;
use crate::{beside, live_memory, live_rounds, map_rounds};
use kv_gauge::fault::Fault;
use kv_gauge::plan::Plan;
use kv_gauge::{calls, colliding, compacting, memory};
use std::alloc::Global;
use std::rt::{Clock, Files};
use std::sync::Wait;
use std::thread::Threads;
use std::time::CpuClock;

/// A group of figures.
#[derive(Clone, Copy)]
pub enum Group {
    /// The calls of a bucket, on one thread.
    Calls(calls::Part),
    /// Compactions.
    Compact,
    /// Gets and puts among keys of one place.
    Collide,
    /// Puts, gets and copies beside maps under a lock.
    Beside(beside::Part),
    /// Memory for each key or write.
    Memory(memory::What),
    /// The same of a live bucket.
    LiveMemory,
    /// Threads that read or follow beside one that writes.
    Threads(Task),
    /// All of them, and no figure is told.
    Check,
}

/// The group of a word.
pub fn of_word(word: &str) -> Option<Group> {
    match word {
        "calls-growth" => Some(Group::Calls(calls::Part::Growth)),
        "calls-reads" => Some(Group::Calls(calls::Part::Reads)),
        "calls-writes" => Some(Group::Calls(calls::Part::Writes)),
        "calls-long" => Some(Group::Calls(calls::Part::Long)),
        "compact" => Some(Group::Compact),
        "collide" => Some(Group::Collide),
        "beside-reads" => Some(Group::Beside(beside::Part::Live(beside::Asked::Reads))),
        "beside-writes" => Some(Group::Beside(beside::Part::Live(beside::Asked::Writes))),
        "beside-maps" => Some(Group::Beside(beside::Part::Maps)),
        "memory-keys" => Some(Group::Memory(memory::What::Keys)),
        "memory-writes" => Some(Group::Memory(memory::What::Writes)),
        "memory-held" => Some(Group::Memory(memory::What::Held)),
        "memory-compacted" => Some(Group::Memory(memory::What::Compacted)),
        "memory-live" => Some(Group::LiveMemory),
        "threads" => Some(Group::Threads(Task::Read)),
        "threads-all" => Some(Group::Threads(Task::ReadAll)),
        "feeds" => Some(Group::Threads(Task::Follow)),
        "naps" => Some(Group::Threads(Task::Nap)),
        "delay" => Some(Group::Threads(Task::Delay)),
        "check" => Some(Group::Check),
        _ => None,
    }
}

fn rounds<R: Clock + CpuClock + Print + Wait + Threads + Sync>(
    rt: &R,
    alloc: Global,
    plan: Plan,
    task: Task,
) -> Result<(), Fault> {
    live_rounds::run(rt, alloc, plan, task)?;
    match task {
        Task::Nap => Ok(()),
        _ => map_rounds::run(rt, alloc, plan, task),
    }
}

fn weigh_all<R: Wait + Print + Files + AllocGlobal>(
    rt: &R,
    alloc: Global,
    plan: Plan,
) -> Result<(), Fault> {
    memory::run(rt, alloc, plan, memory::What::Keys)?;
    memory::run(rt, alloc, plan, memory::What::Writes)?;
    memory::run(rt, alloc, plan, memory::What::Held)?;
    memory::run(rt, alloc, plan, memory::What::Compacted)?;
    live_memory::run(rt, alloc, plan)
}

fn all_calls<R: Clock + Print>(rt: &R, alloc: Global, plan: Plan) -> Result<(), Fault> {
    calls::run(rt, alloc, plan, calls::Part::Growth)?;
    calls::run(rt, alloc, plan, calls::Part::Reads)?;
    calls::run(rt, alloc, plan, calls::Part::Writes)?;
    calls::run(rt, alloc, plan, calls::Part::Long)
}

fn all_beside<R: Clock + Print + Wait>(rt: &R, alloc: Global, plan: Plan) -> Result<(), Fault> {
    beside::run(rt, alloc, plan, beside::Part::Live(beside::Asked::Reads))?;
    beside::run(rt, alloc, plan, beside::Part::Live(beside::Asked::Writes))?;
    beside::run(rt, alloc, plan, beside::Part::Maps)
}

fn all<R: Clock + CpuClock + Print + Wait + Threads + Sync + Files + AllocGlobal>(
    rt: &R,
    alloc: Global,
    plan: Plan,
) -> Result<(), Fault> {
    all_calls(rt, alloc, plan)?;
    compacting::run(rt, alloc, plan)?;
    colliding::run(rt, alloc, plan)?;
    all_beside(rt, alloc, plan)?;
    rounds(rt, alloc, plan, Task::Read)?;
    rounds(rt, alloc, plan, Task::ReadAll)?;
    rounds(rt, alloc, plan, Task::Follow)?;
    rounds(rt, alloc, plan, Task::Nap)?;
    rounds(rt, alloc, plan, Task::Delay)?;
    weigh_all(rt, alloc, plan)
}

/// Measures a group.
pub fn run<R: Clock + CpuClock + Print + Wait + Threads + Sync + Files + AllocGlobal>(
    rt: &R,
    plan: Plan,
    group: Group,
) -> Result<(), Fault> {
    let alloc = rt.alloc();
    match group {
        Group::Calls(part) => calls::run(rt, alloc, plan, part),
        Group::Compact => compacting::run(rt, alloc, plan),
        Group::Collide => colliding::run(rt, alloc, plan),
        Group::Beside(part) => beside::run(rt, alloc, plan, part),
        Group::Memory(what) => memory::run(rt, alloc, plan, what),
        Group::LiveMemory => live_memory::run(rt, alloc, plan),
        Group::Threads(task) => rounds(rt, alloc, plan, task),
        Group::Check => all(rt, alloc, plan),
    }
}
