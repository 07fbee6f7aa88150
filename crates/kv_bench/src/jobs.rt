//! What each thread of a round does.

use crate::round::{ASKED, Done, Round, all_done};
use crate::sides::{Gets, Puts, Takes};
use kv_gauge::clock::nanos;
use kv_gauge::fault::{Answer, Fault, check};
use kv_gauge::keys::VALUE;
use std::alloc::Global;
use std::rt::Clock;
use std::sync::Wait;
use std::thread;
use std::thread::Threads;
use std::time::CpuClock;

/// What one thread does.
#[derive(Drop)]
pub enum Job<P, G, T> {
    /// Writes.
    Put(P),
    /// Reads until the writer has ended.
    Get(G),
    /// Follows until it has each write.
    Take(T),
}

fn write_all<P: Puts, R: Wait + Clock>(
    rt: &R,
    round: &Round,
    puts: &mut P,
    moments: &mut Vec<u64>,
) -> Result<usize, Fault> {
    let mut index = 0;
    for turn in 0..round.writes {
        puts.put(rt, index)?;
        index = round.next(index);
        round.note(rt, moments)?;
        if round.is_enough(rt, turn)? {
            return Ok(turn.wrapping_add(1));
        }
    }
    Ok(round.writes)
}

fn write<P: Puts, R: Wait + Clock + CpuClock>(
    rt: &R,
    alloc: Global,
    round: &Round,
    puts: &mut P,
) -> Result<Done, Fault> {
    let mut moments = Vec::new(alloc);
    let before = rt.thread_cpu_time()?;
    let count = write_all(rt, round, puts, &mut moments)?;
    let after = rt.thread_cpu_time()?;
    Ok(Done {
        count,
        nanos: round.time(rt)?,
        busy: nanos(after).saturating_sub(nanos(before)),
        moments,
    })
}

// Ends the round, also where a write was refused: else the others would wait for ever.
fn write_to_the_end<P: Puts + Drop, R: Wait + Clock + CpuClock>(
    rt: &R,
    alloc: Global,
    round: &Round,
    puts: P,
) -> Result<Done, Fault> {
    let mut puts = puts;
    let done = write(rt, alloc, round, &mut puts);
    round.end();
    if done.is_err() {
        puts.finish();
    }
    done
}

// Reads some keys, from one on: how many bytes their values have, and the index of the key behind the last.
fn get_some<G: Gets, R: Wait>(
    rt: &R,
    round: &Round,
    gets: &mut G,
    first: usize,
) -> Result<(usize, usize), Fault> {
    let mut bytes = 0_usize;
    let mut index = first;
    for _ in 0..ASKED {
        bytes = bytes.wrapping_add(gets.get(rt, index)?);
        index = round.next(index);
    }
    Ok((bytes, index))
}

fn read<G: Gets + Drop, R: Wait + Clock>(
    rt: &R,
    alloc: Global,
    round: &Round,
    gets: G,
) -> Result<Done, Fault> {
    let mut gets = gets;
    let mut count = 0_usize;
    let mut index = round.first();
    for _ in 0..u64::MAX {
        if round.is_over() {
            break;
        }
        let (bytes, behind) = get_some(rt, round, &mut gets, index)?;
        index = behind;
        check(bytes == ASKED.wrapping_mul(VALUE.len()), Answer::Values)?;
        count = count.wrapping_add(ASKED);
    }
    Ok(Done {
        count,
        nanos: round.time(rt)?,
        busy: 0,
        moments: Vec::new(alloc),
    })
}

fn follow<T: Takes + Drop, R: Wait + Clock>(
    rt: &R,
    alloc: Global,
    round: &Round,
    takes: T,
) -> Result<Done, Fault> {
    let mut takes = takes;
    let mut moments = Vec::new(alloc);
    for _ in 0..round.writes {
        check(takes.take(rt)?, Answer::Items)?;
        round.note(rt, &mut moments)?;
    }
    Ok(Done {
        count: round.writes,
        nanos: round.time(rt)?,
        busy: 0,
        moments,
    })
}

fn perform<P: Puts + Drop, G: Gets + Drop, T: Takes + Drop, R: Wait + Clock + CpuClock>(
    rt: &R,
    alloc: Global,
    round: &Round,
    job: Job<P, G, T>,
) -> Result<Done, Fault> {
    match job {
        Job::Put(puts) => write_to_the_end(rt, alloc, round, puts),
        Job::Get(gets) => read(rt, alloc, round, gets),
        Job::Take(takes) => follow(rt, alloc, round, takes),
    }
}

/// Does each job on a thread of its own. The writer is first, so that it goes on even where the others get no thread.
pub fn perform_all<
    P: Puts + Drop + Send,
    G: Gets + Drop + Send,
    T: Takes + Drop + Send,
    R: Threads + Wait + Sync + Clock + CpuClock,
>(rt: &R, alloc: Global, round: &Round, jobs: Vec<Job<P, G, T>>) -> Result<Vec<Done>, Fault> {
    let done = thread::map_vec(rt, jobs, &|job| perform(rt, alloc, round, job))?;
    all_done(alloc, done)
}
