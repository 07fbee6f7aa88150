//! Tests of races. Each also passes where any one request for memory is refused: then the race is refused, or one of
//! its replies is want of memory, and the whole row is run again.

use crate::equal::equal;
use kv_model::{Event, Write};
use kv_race::{Gate, NoGate, Report, Who, race};
use kv_single::{Config, Filters, KvError, Options, Reply, Request, Start, Version};
use kv_test_tools::{LATEST, once_more, put};
use kv_watch::given;
use std::alloc::Global;
use std::process::Abort;
use std::sync::Wait;
use std::test::Fail;
use std::thread::Threads;

mod audit;
mod gates;
mod refusals;
mod twenty;

// So many workers and watches there may be in a race.
const MOST_WORKERS: usize = 16;

const MOST_WATCHES: usize = 32;

// A script that puts a value under each of these keys.
fn puts(alloc: Global, keys: &[&str]) -> Result<Vec<Request>, KvError> {
    let mut script = Vec::new(alloc);
    for key in keys {
        script.push(put(alloc, key, "1")?)?;
    }
    Ok(script)
}

// So many scripts that put a value under each of these keys.
fn scripts_of(alloc: Global, count: usize, keys: &[&str]) -> Result<Vec<Vec<Request>>, KvError> {
    let mut scripts = Vec::new(alloc);
    for _ in 0..count {
        scripts.push(puts(alloc, keys)?)?;
    }
    Ok(scripts)
}

fn push_watch(
    alloc: Global,
    watches: &mut Vec<(Filters, Options)>,
    text: &str,
    options: Options,
) -> Result<(), KvError> {
    let filters = Filters::parse(alloc, text)?;
    watches.push((filters, options))?;
    Ok(())
}

// A watch of the latest entries for each of these filters.
fn watches_of(alloc: Global, texts: &[&str]) -> Result<Vec<(Filters, Options)>, KvError> {
    let mut watches = Vec::new(alloc);
    for text in texts {
        push_watch(alloc, &mut watches, text, LATEST)?;
    }
    Ok(watches)
}

// The report of a race of the bucket of this name.
fn raced<R: Threads + Wait + Sync, G: Gate>(
    rt: &R,
    alloc: Global,
    name: &str,
    scripts: &[Vec<Request>],
    watches: &[(Filters, Options)],
    gate: &G,
) -> Result<Report, KvError> {
    let config = Config::named(alloc, name)?;
    race(rt, alloc, &config, scripts, watches, gate)
}

// A report in which a reply is want of memory is refused for that.
fn with_all_memory(report: Report) -> Result<Report, KvError> {
    if lacked_memory(&report) {
        return Err(KvError::OutOfMemory);
    }
    Ok(report)
}

fn lacked_memory(report: &Report) -> bool {
    for replies in &report.replies {
        if replies.contains(&Err(KvError::OutOfMemory)) {
            return true;
        }
    }
    false
}

// The revisions that were answered, worker by worker.
fn answered(alloc: Global, report: &Report) -> Result<Vec<u64>, KvError> {
    let mut revisions = Vec::new(alloc);
    for replies in &report.replies {
        push_answered(&mut revisions, replies)?;
    }
    Ok(revisions)
}

fn push_answered(
    revisions: &mut Vec<u64>,
    replies: &[Result<u64, KvError>],
) -> Result<(), KvError> {
    for reply in replies {
        if let Ok(revision) = reply {
            revisions.push(*revision)?;
        }
    }
    Ok(())
}

// Whether these are all revisions from 1 on, each once.
fn are_all(revisions: &mut Vec<u64>) -> bool {
    revisions.sort_unstable();
    for before in 0..revisions.len() {
        if revisions[before] != before as u64 + 1 {
            return false;
        }
    }
    true
}

// The revisions that were answered are those up to the last one, each once; how many these are.
fn answers_each_once<R: Abort>(rt: &R, alloc: Global, report: &Report) -> Result<u64, KvError> {
    let mut revisions = answered(alloc, report)?;
    assert!(rt; are_all(&mut revisions));
    equal(rt, revisions.len() as u64, report.last.revision());
    Ok(report.last.revision())
}

fn writes_of(alloc: Global, version: &Version) -> Result<Vec<&Write>, KvError> {
    let mut writes = Vec::new(alloc);
    for before in 0..version.revision() {
        let Some(write) = version.write_at(before + 1) else {
            return Err(KvError::KeyNotFound);
        };
        writes.push(write)?;
    }
    Ok(writes)
}

fn event_of(reply: &Reply) -> Option<Event> {
    match reply {
        Reply::Entry(seen) => Some(Event::Entry {
            revision: seen.revision,
        }),
        Reply::Marker => Some(Event::Marker),
        _ => None,
    }
}

// Whether the items are these events, in order.
fn are(items: &[Reply], events: &[Event]) -> bool {
    if items.len() != events.len() {
        return false;
    }
    for place in 0..items.len() {
        if event_of(&items[place]) != Some(events[place]) {
            return false;
        }
    }
    true
}

// The items are what a watch from the empty bucket is given by these writes, as the plain list has it.
fn saw_what_is_given<R: Abort>(
    rt: &R,
    alloc: Global,
    writes: &[&Write],
    watch: &(Filters, Options),
    items: &[Reply],
) -> Result<(), KvError> {
    let (filters, options) = watch;
    let events = given(alloc, writes, 0, writes.len() as u64, 1, filters, *options)?;
    assert!(rt; are(items, &events));
    Ok(())
}

// Each watch saw all that it is given by the writes of the last version.
fn all_saw_what_is_given<R: Abort>(
    rt: &R,
    alloc: Global,
    watches: &[(Filters, Options)],
    report: &Report,
) -> Result<(), KvError> {
    assert_eq!(rt; report.seen.len(), watches.len());
    let writes = writes_of(alloc, &report.last)?;
    for place in 0..watches.len() {
        saw_what_is_given(rt, alloc, &writes, &watches[place], &report.seen[place])?;
    }
    Ok(())
}

// Runs a race of so many scripts, each of which puts a value under each of these keys, with a watch for each of these
// filters. So many writes are accepted.
fn race_of<R: Threads + Wait + Abort + Sync, G: Gate>(
    rt: &R,
    alloc: Global,
    (count, keys): (usize, &[&str]),
    filters: &[&str],
    gate: &G,
    writes: u64,
) -> Result<(), KvError> {
    let scripts = scripts_of(alloc, count, keys)?;
    let watches = watches_of(alloc, filters)?;
    race_beside(rt, alloc, &scripts, &watches, gate, writes)
}

fn race_beside<R: Threads + Wait + Abort + Sync, G: Gate>(
    rt: &R,
    alloc: Global,
    scripts: &[Vec<Request>],
    watches: &[(Filters, Options)],
    gate: &G,
    writes: u64,
) -> Result<(), KvError> {
    let report = raced(rt, alloc, "kv", scripts, watches, gate)?;
    let report = with_all_memory(report)?;
    equal(rt, answers_each_once(rt, alloc, &report)?, writes);
    all_saw_what_is_given(rt, alloc, watches, &report)
}
