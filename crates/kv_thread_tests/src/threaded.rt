//! Tests that start threads. A method of a trait can't send to a thread what rests on its own bounds, so each of them is
//! a function, which is named here.

ghost use Rattle.std.specs.Prelude.{◌≡◌};

use crate::waiting::rounds::{Followers, follow_four};
use crate::waiting::sleepers::{Sleeper, woken_by};
use crate::{feeds, pairs, told};
use kv_bucket::{KvError, Live, LiveName, Opened, Reader};
use kv_live_test_tools::{Opening, open_bucket};
use kv_test_tools::once_more;
use std::alloc::Global;
use std::marker::Brand;
use std::process::Abort;
use std::rt::Clock;
use std::sync::Wait;
use std::thread::Threads;
use std::time::CpuClock;

#[derive(Clone, Copy)]
pub enum Threaded {
    SecondWriter,
    BesideAGuard,
    ToldWrite,
    PairsBesideAReader,
    PairsBesideAFeed,
    Sleeper(Sleeper),
    Followers(Followers),
}

fn run_over<N: LiveName + Send + Sync, R: Threads + Wait + Clock + CpuClock + Abort + Sync>(
    rt: &R,
    alloc: Global,
    live: &Live<N>,
    readers: &mut Vec<Reader<N>>,
    test: Threaded,
) -> Result<(), KvError> {
    match test {
        Threaded::SecondWriter => feeds::behind_a_second_writer(rt, alloc, live, readers),
        Threaded::BesideAGuard => feeds::beside_a_guard(rt, alloc, live, readers),
        Threaded::ToldWrite => told::handed_out(rt, alloc, live, readers),
        Threaded::PairsBesideAReader => pairs::beside_a_reader(rt, alloc, live, readers),
        Threaded::PairsBesideAFeed => pairs::beside_a_feed(rt, alloc, live, readers),
        Threaded::Sleeper(sleeper) => woken_by(rt, alloc, live, readers, sleeper),
        Threaded::Followers(followers) => follow_four(rt, alloc, live, readers, followers),
    }
}

fn run_named<N: LiveName + Send + Sync, R: Threads + Wait + Clock + CpuClock + Abort + Sync>(
    rt: &R,
    alloc: Global,
    opened: Opened,
    test: Threaded,
) -> Result<(), KvError>
    requires { opened.opening ≡ N.opening }
{
    let (live, mut readers) = opened.live::<N, R>(rt)?;
    let done = run_over(rt, alloc, &live, &mut readers, test);
    live.close(rt);
    done
}

fn run_once<R: Threads + Wait + Clock + CpuClock + Abort + Sync>(
    rt: &R,
    alloc: Global,
    opening: Opening,
    test: Threaded,
) -> Result<(), KvError> {
    let opened = open_bucket(alloc, opening)?;
    run_named::<Brand, R>(rt, alloc, opened, test)
}

// Runs a test on such an opening, and once more where a request for memory ended it.
pub fn run_threaded<R: Threads + Wait + Clock + CpuClock + Abort + Sync>(
    rt: &R,
    alloc: Global,
    opening: Opening,
    test: Threaded,
) -> Result<(), KvError> {
    once_more!(run_once(rt, alloc, opening, test))
}
