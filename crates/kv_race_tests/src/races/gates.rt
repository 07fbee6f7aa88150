//! Races whose threads wait for each other: on one thread they would wait until the limit.

use super::*;
use std::hint::spin_loop;
use std::sync::atomic::{AtomicBool, Ordering};

// The most looks at a flag.
const MOST_TURNS: u64 = 100_000_000;

fn raise(flag: &AtomicBool) {
    flag.store(true, Ordering::SeqCst);
}

fn is_raised(flag: &AtomicBool) -> bool {
    flag.load(Ordering::SeqCst)
}

// Races so many workers, each of which puts a value under each of these keys, beside a watcher. So many writes are
// accepted, and nobody raised the flag of what may not be.
fn race_through<R: Threads + Wait + Abort + Sync, G: Gate>(
    rt: &R,
    alloc: Global,
    scripts: (usize, &[&str]),
    gate: &G,
    wrong: &AtomicBool,
    writes: u64,
) -> Result<(), KvError> {
    race_of(rt, alloc, scripts, &[">"], gate, writes)?;
    equal(rt, is_raised(wrong), false);
    Ok(())
}

// Waits for a flag, and raises the other where the limit is met.
fn wait_for(flag: &AtomicBool, late: &AtomicBool) {
    for _ in 0..MOST_TURNS {
        if is_raised(flag) {
            return;
        }
        spin_loop();
    }
    raise(late);
}

// Two workers and a watcher each wait, before their first step, until all three have come to it.
#[derive(Drop)]
struct Meeting {
    first: AtomicBool,
    second: AtomicBool,
    watcher: AtomicBool,
    late: AtomicBool,
}

fn no_meeting_yet() -> Meeting {
    Meeting {
        first: AtomicBool::new(false),
        second: AtomicBool::new(false),
        watcher: AtomicBool::new(false),
        late: AtomicBool::new(false),
    }
}

fn come(meeting: &Meeting, who: Who) {
    match who {
        Who::Worker(0) => raise(&meeting.first),
        Who::Worker(_) => raise(&meeting.second),
        Who::Watcher(_) => raise(&meeting.watcher),
    }
}

fn meet(meeting: &Meeting) {
    wait_for(&meeting.first, &meeting.late);
    wait_for(&meeting.second, &meeting.late);
    wait_for(&meeting.watcher, &meeting.late);
}

impl Gate for Meeting {
    fn before(&self, who: Who, n: u64) {
        if n == 0 {
            come(self, who);
            meet(self);
        }
    }

    fn after(&self, _who: Who, _n: u64) {}
}

// Refutes race_on_one_thread, which would meet the limit: its second worker would begin when the first has ended.
#[test]
fn workers_run_on_their_own_threads(rt: HostRuntime) -> Result<(), Fail> {
    Ok(once_more!(all_meet(&rt, rt.alloc()))?)
}

fn all_meet<R: Threads + Wait + Abort + Sync>(rt: &R, alloc: Global) -> Result<(), KvError> {
    let gate = no_meeting_yet();
    race_through(rt, alloc, (2, &["a"]), &gate, &gate.late, 2)
}

// The watcher's second round waits for the worker's first write, and the second write for the end of that round.
#[derive(Drop)]
struct Between {
    written: AtomicBool,
    looked: AtomicBool,
    late: AtomicBool,
}

fn nothing_between_yet() -> Between {
    Between {
        written: AtomicBool::new(false),
        looked: AtomicBool::new(false),
        late: AtomicBool::new(false),
    }
}

impl Gate for Between {
    fn before(&self, who: Who, n: u64) {
        match (who, n) {
            (Who::Watcher(_), 1) => wait_for(&self.written, &self.late),
            (Who::Worker(_), 1) => wait_for(&self.looked, &self.late),
            _ => {}
        }
    }

    fn after(&self, who: Who, n: u64) {
        match (who, n) {
            (Who::Worker(_), 0) => raise(&self.written),
            (Who::Watcher(_), 1) => raise(&self.looked),
            _ => {}
        }
    }
}

#[test]
fn a_watcher_looks_between_two_writes(rt: HostRuntime) -> Result<(), Fail> {
    Ok(once_more!(round_between(&rt, rt.alloc()))?)
}

fn round_between<R: Threads + Wait + Abort + Sync>(rt: &R, alloc: Global) -> Result<(), KvError> {
    let gate = nothing_between_yet();
    race_through(rt, alloc, (1, &["a", "b"]), &gate, &gate.late, 2)
}

// How long the writer is held up.
const A_WHILE: u64 = 10_000_000;

// The writer is held up before its write, and the watcher's first round looks whether that has begun.
#[derive(Drop)]
struct HeldUp {
    writing: AtomicBool,
    early: AtomicBool,
}

fn nobody_writes_yet() -> HeldUp {
    HeldUp {
        writing: AtomicBool::new(false),
        early: AtomicBool::new(false),
    }
}

fn hold_up(gate: &HeldUp) {
    for _ in 0..A_WHILE {
        spin_loop();
    }
    raise(&gate.writing);
}

impl Gate for HeldUp {
    fn before(&self, who: Who, n: u64) {
        match (who, n) {
            (Who::Worker(_), 0) => hold_up(self),
            (Who::Watcher(_), 0) if !is_raised(&self.writing) => raise(&self.early),
            _ => {}
        }
    }

    fn after(&self, _who: Who, _n: u64) {}

    fn lets_sleep(&self) -> bool {
        true
    }
}

#[test]
fn a_watcher_sleeps_until_the_first_write(rt: HostRuntime) -> Result<(), Fail> {
    Ok(once_more!(sleeps_until_written(&rt, rt.alloc()))?)
}

fn sleeps_until_written<R: Threads + Wait + Abort + Sync>(
    rt: &R,
    alloc: Global,
) -> Result<(), KvError> {
    let gate = nobody_writes_yet();
    race_through(rt, alloc, (1, &["a"]), &gate, &gate.early, 1)
}
