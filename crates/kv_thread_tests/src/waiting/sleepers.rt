//! Readers that sleep: what another thread does wakes them, and they keep no close from ending.

ghost use Rattle.std.specs.Prelude.{◌≡◌};

use crate::beside::beside;
use crate::equal::equal;
use crate::threaded::{Threaded, run_threaded};
use crate::waiting::waits::{Act, Step, make, steps, take_step};
use kv_bucket::{Config, KvError, Live, LiveName, Opened, Reader, Woken};
use kv_live_test_tools::{OPENING, last};
use kv_test_tools::once_more;
use std::alloc::Global;
use std::marker::Brand;
use std::process::Abort;
use std::rt::Clock;
use std::sync::Wait;
use std::test::Fail;
use std::thread;
use std::thread::Threads;
use std::time::Duration;

// Long enough for another thread to fall asleep.
pub fn pause<R: Clock>(rt: &R) {
    thread::sleep(rt, Duration::from_millis(20));
}

const SEEN: &[Step] = &[Step::Do(Act::Put), Step::Look];

// A test of a reader that sleeps in a step, beside a thread that does this so often. The reader has seen all that there is
// before it sleeps.
#[derive(Clone, Copy)]
pub struct Sleeper {
    act: Act,
    times: u64,
    sleep: Step,
}

pub fn woken_by<N: LiveName + Send + Sync, R: Threads + Wait + Clock + Abort + Sync>(
    rt: &R,
    alloc: Global,
    live: &Live<N>,
    readers: &mut Vec<Reader<N>>,
    sleeper: Sleeper,
) -> Result<(), KvError> {
    let mut reader = last(readers)?;
    steps(rt, alloc, live, &mut reader, SEEN)?;
    sleep_beside(
        rt,
        alloc,
        live,
        &mut reader,
        (sleeper.act, sleeper.times),
        sleeper.sleep,
    )
}

fn sleep_beside<N: LiveName + Send + Sync, R: Threads + Wait + Clock + Abort + Sync>(
    rt: &R,
    alloc: Global,
    live: &Live<N>,
    reader: &mut Reader<N>,
    (act, times): (Act, u64),
    sleep: Step,
) -> Result<(), KvError> {
    beside(
        rt,
        || take_step(rt, alloc, live, reader, sleep),
        || disturb_to_the_end(rt, alloc, live, act, times),
    )
}

// Where an act is refused again the wait is ended, since nobody is to sleep for ever.
fn disturb_to_the_end<N: LiveName, R: Wait + Clock>(
    rt: &R,
    alloc: Global,
    live: &Live<N>,
    act: Act,
    times: u64,
) -> Result<(), KvError> {
    let disturbed = disturb(rt, alloc, live, act, times);
    if disturbed.is_err() {
        live.finish();
    }
    disturbed
}

fn disturb<N: LiveName, R: Wait + Clock>(
    rt: &R,
    alloc: Global,
    live: &Live<N>,
    one: Act,
    times: u64,
) -> Result<(), KvError> {
    for _ in 0..times {
        pause(rt);
        once_more!(make(rt, alloc, live, one))?;
    }
    Ok(())
}

const WOKEN: &[(Act, Woken)] = &[
    (Act::Put, Woken::Changed),
    (Act::PutTwo, Woken::Changed),
    (Act::Seal, Woken::Changed),
    (Act::Compact, Woken::Changed),
    (Act::Finish, Woken::Closed),
];

#[test]
fn a_sleeper_is_woken_by_each_act(rt: HostRuntime) -> Result<(), Fail> {
    for &(act, woken) in WOKEN {
        let sleep = Step::Wait(woken);
        let times = 1;
        let sleeper = Sleeper { act, times, sleep };
        run_threaded(&rt, rt.alloc(), OPENING, Threaded::Sleeper(sleeper))?;
    }
    Ok(())
}

#[test]
fn a_revision_of_another_thread_is_waited_for(rt: HostRuntime) -> Result<(), Fail> {
    let sleeper = Sleeper {
        act: Act::Put,
        times: 3,
        sleep: Step::For {
            revision: 4,
            found: Some(4),
        },
    };
    Ok(run_threaded(&rt, rt.alloc(), OPENING, Threaded::Sleeper(sleeper))?)
}

// A close ends while another thread sleeps, and wakes it.
fn close_beside<
    N: LiveName + Send + Sync + 'static,
    R: Threads + Wait + Clock + Abort + Copy + Send + 'static,
>(rt: &R, opened: Opened) -> Result<(), KvError>
    requires { opened.opening ≡ N.opening }
{
    let (live, mut readers) = opened.live::<N, R>(rt)?;
    let own = *rt;
    let sleeper = match readers.pop() {
        Some(reader) => thread::spawn(rt, move || reader.wait(&own)).ok(),
        None => None,
    };
    pause(rt);
    live.close(rt);
    match sleeper {
        Some(sleeper) => {
            equal(rt, sleeper.join(rt), Woken::Closed);
            Ok(())
        }
        // no thread was to be had
        None => Err(KvError::OutOfMemory),
    }
}

fn closed_once<R: Threads + Wait + Clock + Abort + Copy + Send + 'static>(
    rt: &R,
    alloc: Global,
) -> Result<(), KvError> {
    let opened = Live::open(alloc, &Config::named(alloc, "kv")?, 1)?;
    close_beside::<Brand, R>(rt, opened)
}

#[test]
fn a_sleeper_keeps_no_close_from_ending(rt: HostRuntime) -> Result<(), Fail> {
    Ok(once_more!(closed_once(&rt, rt.alloc()))?)
}
