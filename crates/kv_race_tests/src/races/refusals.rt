//! What a race refuses, and what it answers where memory is refused.

use super::*;

fn many_watches(alloc: Global, count: usize) -> Result<Vec<(Filters, Options)>, KvError> {
    let mut watches = Vec::new(alloc);
    for _ in 0..count {
        push_watch(alloc, &mut watches, ">", LATEST)?;
    }
    Ok(watches)
}

fn asked_once<R: Threads + Wait + Sync>(
    rt: &R,
    alloc: Global,
    asked: &Asked,
) -> Result<(), KvError> {
    let scripts = scripts_of(alloc, asked.workers, &[])?;
    let watches = many_watches(alloc, asked.watches)?;
    raced(rt, alloc, asked.name, &scripts, &watches, &NoGate)?;
    Ok(())
}

// A race of this bucket, with so many workers and watches, and its answer.
struct Asked {
    name: &'static str,
    workers: usize,
    watches: usize,
    answer: Result<(), KvError>,
}

const RACES: &[Asked] = &[
    Asked {
        name: "kv",
        workers: 1,
        watches: 0,
        answer: Ok(()),
    },
    Asked {
        name: "kv",
        workers: MOST_WORKERS,
        watches: 1,
        answer: Ok(()),
    },
    Asked {
        name: "kv",
        workers: 0,
        watches: 1,
        answer: Err(KvError::BadConfig),
    },
    Asked {
        name: "kv",
        workers: MOST_WORKERS + 1,
        watches: 1,
        answer: Err(KvError::BadConfig),
    },
    Asked {
        name: "kv",
        workers: MOST_WORKERS + 1,
        watches: MOST_WATCHES + 1,
        answer: Err(KvError::BadConfig),
    },
    Asked {
        name: "kv",
        workers: MOST_WORKERS,
        watches: MOST_WATCHES + 1,
        answer: Err(KvError::NoReader),
    },
    Asked {
        name: "my.bucket",
        workers: 0,
        watches: MOST_WATCHES + 1,
        answer: Err(KvError::BadBucket),
    },
    Asked {
        name: "my.bucket",
        workers: MOST_WORKERS,
        watches: MOST_WATCHES + 1,
        answer: Err(KvError::BadBucket),
    },
];

#[test]
fn a_race_refuses_names_then_workers_then_watches(rt: HostRuntime) -> Result<(), Fail> {
    let alloc = rt.alloc();
    for asked in RACES {
        let answer = once_more!(asked_once(&rt, alloc, asked));
        equal(&rt, answer, asked.answer);
    }
    Ok(())
}

// The race of two workers and a watcher that wait for nobody.
fn race_of_two<R: Threads + Wait + Sync>(rt: &R, alloc: Global) -> Result<Report, KvError> {
    let scripts = scripts_of(alloc, 2, &["a"])?;
    let watches = watches_of(alloc, &[">"])?;
    raced(rt, alloc, "kv", &scripts, &watches, &NoGate)
}

// How many writes both workers make.
const WRITES: u64 = 2;

fn accepts_each_once<R: Threads + Wait + Abort + Sync>(
    rt: &R,
    alloc: Global,
) -> Result<(), KvError> {
    let report = race_of_two(rt, alloc)?;
    let accepted = answers_each_once(rt, alloc, &report)?;
    assert!(rt; accepted == WRITES || lacked_memory(&report));
    Ok(())
}

// A race to which memory is refused is refused, or what it accepted has the revisions from 1 on, each once.
#[test]
fn what_is_accepted_has_each_revision_once(rt: HostRuntime) -> Result<(), Fail> {
    if let Err(error) = accepts_each_once(&rt, rt.alloc()) {
        equal(&rt, error, KvError::OutOfMemory);
    }
    Ok(())
}
