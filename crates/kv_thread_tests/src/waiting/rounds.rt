//! Four followers in `next` beside two writers. The threads wait for one another, so no request for memory is refused to
//! them.

use crate::beside::beside;
use crate::equal::equal;
use crate::following::{follow_to_the_end, put, watch_all};
use crate::threaded::{Threaded, run_threaded};
use crate::waiting::sleepers::pause;
use kv_bucket::{KvError, Live, LiveName, Reader};
use kv_live_test_tools::Opening;
use std::alloc::Global;
use std::process::Abort;
use std::rt::Clock;
use std::sync::Wait;
use std::sync::atomic::{AtomicU64, Ordering};
use std::test::Fail;
use std::thread;
use std::thread::Threads;
use std::time::{CpuClock, Duration};

// What a writer does.
#[derive(Clone, Copy)]
pub enum Plan {
    // So many writes, with a pause after each thousandth.
    Pauses(u64),
    // So many writes, each once all four were handed the one before.
    Rounds(u64),
    // A write, and a second without one.
    Idle,
}

fn write<N: LiveName, R: Wait + Clock + CpuClock + Abort>(
    rt: &R,
    alloc: Global,
    live: &Live<N>,
    handed: &AtomicU64,
    plan: Plan,
) -> Result<(), KvError> {
    match plan {
        Plan::Pauses(count) => write_with_pauses(rt, alloc, live, count),
        Plan::Rounds(count) => write_in_rounds(rt, alloc, live, handed, count),
        Plan::Idle => write_once(rt, alloc, live),
    }
}

fn write_with_pauses<N: LiveName, R: Wait + Clock>(
    rt: &R,
    alloc: Global,
    live: &Live<N>,
    count: u64,
) -> Result<(), KvError> {
    for n in 0..count {
        put(rt, alloc, live)?;
        if n % 1000 == 0 {
            thread::sleep(rt, Duration::from_millis(1));
        }
    }
    Ok(())
}

fn write_in_rounds<N: LiveName, R: Wait>(
    rt: &R,
    alloc: Global,
    live: &Live<N>,
    handed: &AtomicU64,
    count: u64,
) -> Result<(), KvError> {
    for _ in 0..count {
        let revision = put(rt, alloc, live)?;
        // the marker, and the writes
        let items = revision.saturating_add(1);
        wait_for(rt, handed, items.saturating_mul(4));
    }
    Ok(())
}

fn wait_for<R: Wait>(rt: &R, handed: &AtomicU64, items: u64) {
    for _ in rt.forever() {
        let seen = handed.load(Ordering::SeqCst);
        if seen >= items {
            return;
        }
        handed.park(rt, (seen & 0xffff_ffff) as u32);
    }
}

// The processor spends less than ten milliseconds over a second in which all four sleep.
fn write_once<N: LiveName, R: Wait + Clock + CpuClock + Abort>(
    rt: &R,
    alloc: Global,
    live: &Live<N>,
) -> Result<(), KvError> {
    put(rt, alloc, live)?;
    thread::sleep(rt, Duration::from_millis(100));
    let before = rt.process_cpu_time().unwrap_or(Duration::ZERO);
    thread::sleep(rt, Duration::from_millis(1000));
    let after = rt.process_cpu_time().unwrap_or(Duration::MAX);
    assert!(rt; after.saturating_sub(before) < Duration::from_millis(10));
    Ok(())
}

// The last of both writers ends the waits, behind a seal, which wakes the followers and gives them nothing.
fn write_to_the_end<N: LiveName, R: Wait + Clock + CpuClock + Abort>(
    rt: &R,
    alloc: Global,
    live: &Live<N>,
    (handed, ended): (&AtomicU64, &AtomicU64),
    plan: Plan,
) -> Result<(), KvError> {
    let written = write(rt, alloc, live, handed, plan);
    if ended.fetch_add(1, Ordering::SeqCst) == 0 {
        return written;
    }
    let sealed = live.seal(rt);
    pause(rt);
    live.finish();
    written?;
    sealed
}

// A follower that is refused counts as one that was handed everything, so that no writer waits for it.
fn follow<N: LiveName, R: Wait + Abort>(
    rt: &R,
    alloc: Global,
    live: &Live<N>,
    handed: &AtomicU64,
    all: u64,
) -> Result<(), KvError> {
    let followed = handed_to_one(rt, alloc, live, handed);
    if followed.is_err() {
        handed.fetch_add(EVERYTHING, Ordering::SeqCst);
        handed.wake_all();
    }
    equal(rt, followed?, all);
    Ok(())
}

// How many items a follower is handed.
fn handed_to_one<N: LiveName, R: Wait>(
    rt: &R,
    alloc: Global,
    live: &Live<N>,
    handed: &AtomicU64,
) -> Result<u64, KvError> {
    let mut feed = watch_all(rt, alloc, live)?;
    follow_to_the_end(rt, &mut feed, handed)
}

// Makes a call beside one more follower.
fn beside_a_follower<
    N: LiveName + Send + Sync,
    R: Threads + Wait + Abort + Sync,
    F: FnOnce() -> Result<(), KvError>,
>(
    rt: &R,
    alloc: Global,
    live: &Live<N>,
    handed: &AtomicU64,
    all: u64,
    own: F,
) -> Result<(), KvError>
    requires { F.pre own }
{
    beside(rt, || follow(rt, alloc, live, handed, all), own)
}

fn write_beside_two<N: LiveName + Send + Sync, R: Threads + Wait + Clock + CpuClock + Abort + Sync>(
    rt: &R,
    alloc: Global,
    live: &Live<N>,
    (handed, ended): (&AtomicU64, &AtomicU64),
    plan: Plan,
    all: u64,
) -> Result<(), KvError> {
    let write = || write_to_the_end(rt, alloc, live, (handed, ended), plan);
    let write_beside_one = || beside_a_follower(rt, alloc, live, handed, all, write);
    beside_a_follower(rt, alloc, live, handed, all, write_beside_one)
}

// A test of four followers beside two writers, one of them with this plan: each follower is handed so many items, the marker
// among them. Each writer has two followers beside it.
#[derive(Clone, Copy)]
pub struct Followers {
    plan: Plan,
    // How often the other writer writes.
    others: u64,
    handed: u64,
}

const FOLLOWED: Opening = Opening {
    readers: 4,
    writes: 2 * MANY,
};

// Each follower takes the place of a reader that is dropped.
pub fn follow_four<N: LiveName + Send + Sync, R: Threads + Wait + Clock + CpuClock + Abort + Sync>(
    rt: &R,
    alloc: Global,
    live: &Live<N>,
    readers: &mut Vec<Reader<N>>,
    followers: Followers,
) -> Result<(), KvError> {
    readers.clear();
    let handed = AtomicU64::new(0);
    let ended = AtomicU64::new(0);
    let plans = (followers.plan, followers.others);
    follow_beside(rt, alloc, live, (&handed, &ended), plans, followers.handed)
}

fn follow_beside<N: LiveName + Send + Sync, R: Threads + Wait + Clock + CpuClock + Abort + Sync>(
    rt: &R,
    alloc: Global,
    live: &Live<N>,
    counts: (&AtomicU64, &AtomicU64),
    (plan, others): (Plan, u64),
    all: u64,
) -> Result<(), KvError> {
    beside(
        rt,
        || write_beside_two(rt, alloc, live, counts, Plan::Pauses(others), all),
        || write_beside_two(rt, alloc, live, counts, plan, all),
    )
}

// How many writes one writer makes.
const MANY: u64 = 50_000;

const ROUNDS: u64 = 10_000;

// More items than any follower is handed.
const EVERYTHING: u64 = 1_000_000_000;

#[test]
fn four_followers_are_handed_all_of_two_writers(rt: HostRuntime) -> Result<(), Fail> {
    let followers = Followers {
        plan: Plan::Pauses(MANY),
        others: MANY,
        handed: 2 * MANY + 1,
    };
    Ok(run_threaded(&rt, rt.alloc(), FOLLOWED, Threaded::Followers(followers))?)
}

#[test]
fn no_wake_up_is_lost(rt: HostRuntime) -> Result<(), Fail> {
    let followers = Followers {
        plan: Plan::Rounds(ROUNDS),
        others: 0,
        handed: ROUNDS + 1,
    };
    Ok(run_threaded(&rt, rt.alloc(), FOLLOWED, Threaded::Followers(followers))?)
}

#[test]
fn a_sleeper_takes_no_processor_time(rt: HostRuntime) -> Result<(), Fail> {
    let followers = Followers {
        plan: Plan::Idle,
        others: 0,
        handed: 2,
    };
    Ok(run_threaded(&rt, rt.alloc(), FOLLOWED, Threaded::Followers(followers))?)
}
