//! A race of four workers with twenty writes: each write is answered once, and each watch sees all of them in order.

use super::*;

#[test]
fn twenty_writes_of_four_workers_come_in_order(rt: HostRuntime) -> Result<(), Fail> {
    Ok(once_more!(twenty(&rt, rt.alloc()))?)
}

// The keys that each worker writes to, in its order.
const SCRIPTS: &[&[&str]] = &[
    &["a.0", "a.4", "a.8", "a.12", "a.16"],
    &["a.1", "a.5", "a.9", "a.13", "a.17"],
    &["a.2", "a.6", "a.10", "a.14", "a.18"],
    &["a.3", "a.7", "a.11", "a.15", "a.19"],
];

// How many writes the scripts have together.
const WRITES: u64 = 20;

// The marker of the empty bucket, and then each of the writes.
fn wanted(alloc: Global) -> Result<Vec<Event>, KvError> {
    let mut events = Vec::new(alloc);
    events.push(Event::Marker)?;
    for before in 0..WRITES {
        events.push(Event::Entry {
            revision: before + 1,
        })?;
    }
    Ok(events)
}

fn twenty_scripts(alloc: Global) -> Result<Vec<Vec<Request>>, KvError> {
    let mut scripts = Vec::new(alloc);
    for keys in SCRIPTS {
        scripts.push(puts(alloc, *keys)?)?;
    }
    Ok(scripts)
}

fn twenty<R: Threads + Wait + Abort + Sync>(rt: &R, alloc: Global) -> Result<(), KvError> {
    let scripts = twenty_scripts(alloc)?;
    let watches = watches_of(alloc, &[">", "a.*"])?;
    let report = raced(rt, alloc, "kv", &scripts, &watches, &NoGate)?;
    all_twenty(rt, alloc, &with_all_memory(report)?)
}

fn all_twenty<R: Abort>(rt: &R, alloc: Global, report: &Report) -> Result<(), KvError> {
    equal(rt, answers_each_once(rt, alloc, report)?, WRITES);
    all_saw(rt, report, &wanted(alloc)?);
    Ok(())
}

fn all_saw<R: Abort>(rt: &R, report: &Report, events: &[Event]) {
    equal(rt, report.seen.len(), 2);
    for items in &report.seen {
        equal(rt, are(items, events), true);
    }
}
