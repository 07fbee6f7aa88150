//! A race of as many workers and watches as there may be.

use super::*;

const KEYS: &[&str] = &[
    "a", "b", "a.b", "a.c", "a.b.c", "b.c", "c", "c.a", "c.b.a", "d",
];

// Each worker puts a value under each of the ten keys.
const WRITES: u64 = 160;

const FILTERS: &[&str] = &[">", "a.>", "*", "a.*", "*.b", "b,c.>", "d", "a.b.c"];

const OPTIONS: &[Options] = &[
    LATEST,
    Options {
        start: Start::History,
        ignore_deletes: false,
        headers_only: true,
    },
    Options {
        start: Start::Updates,
        ignore_deletes: true,
        headers_only: false,
    },
    Options {
        start: Start::From(5),
        ignore_deletes: true,
        headers_only: true,
    },
];

// A watch by each of the filters with each of the options.
fn all_watches(alloc: Global) -> Result<Vec<(Filters, Options)>, KvError> {
    let mut watches = Vec::new(alloc);
    for options in OPTIONS {
        push_watches(alloc, &mut watches, *options)?;
    }
    Ok(watches)
}

fn push_watches(
    alloc: Global,
    watches: &mut Vec<(Filters, Options)>,
    options: Options,
) -> Result<(), KvError> {
    for text in FILTERS {
        push_watch(alloc, watches, text, options)?;
    }
    Ok(())
}

// Refutes race_last_is_empty, which would answer a version without the writes, and the watches saw more than it gives.
#[test]
fn every_watch_saw_every_write(rt: HostRuntime) -> Result<(), Fail> {
    Ok(once_more!(audit(&rt, rt.alloc()))?)
}

fn audit<R: Threads + Wait + Abort + Sync>(rt: &R, alloc: Global) -> Result<(), KvError> {
    let scripts = scripts_of(alloc, MOST_WORKERS, KEYS)?;
    let watches = all_watches(alloc)?;
    equal(rt, watches.len(), MOST_WATCHES);
    race_beside(rt, alloc, &scripts, &watches, &NoGate, WRITES)
}
