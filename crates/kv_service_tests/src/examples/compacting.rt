//! A service that compacts: where its bucket is full, as far as the watches under the lock allow. A feed that was too
//! slow for that begins anew.

use super::*;
use kv_bucket::{Config, Feed, Filters, KvError, Live, LiveName, Reader, Request, Service, Taken};
use kv_test_tools::put;
use std::sync::Wait;

// Compacts as far as the watches under the lock allow.
fn compact<N: LiveName, R: Wait>(rt: &R, live: &Live<N>) -> Result<(), KvError> {
    let mut keeper = live.lock(rt);
    let reach = keeper.bucket().reach();
    keeper.compact(rt, reach)
}

// Writes; where the bucket is full it is compacted first.
fn write<N: LiveName, R: Wait>(rt: &R, live: &Live<N>, request: &Request) -> Result<u64, KvError> {
    match live.write(rt, request) {
        Err(KvError::JournalFull) => {
            compact(rt, live)?;
            live.write(rt, request)
        }
        done => done,
    }
}

// Goes on to what is published. A feed that lags begins anew, with what there is.
fn go_on<N: LiveName>(mut feed: Feed<N>, filters: &Filters) -> Result<Feed<N>, KvError> {
    match feed.refresh() {
        Ok(()) => Ok(feed),
        Err(KvError::Lagged { .. }) => {
            let (reader, _) = feed.stop();
            watch(reader, filters)
        }
        Err(refusal) => Err(refusal),
    }
}

fn watch<N: LiveName>(reader: Reader<N>, filters: &Filters) -> Result<Feed<N>, KvError> {
    match reader.watch(filters, LATEST) {
        Ok(feed) => Ok(feed),
        Err((_, refusal)) => Err(refusal),
    }
}

// The same key again and again.
fn write_some<N: LiveName, R: Wait>(
    rt: &R,
    alloc: Global,
    live: &Live<N>,
    count: u64,
) -> Result<(), KvError> {
    let request = put(alloc, "app.port", "80")?;
    for _ in 0..count {
        write(rt, live, &request)?;
    }
    Ok(())
}

// The revision of the entry that is handed out next, 0 where none is.
fn next_revision<N: LiveName>(feed: &mut Feed<N>) -> u64 {
    match feed.take() {
        Taken::Entry(entry) => entry.revision(),
        _ => 0,
    }
}

// Of the entries before the compaction only the last is left.
fn hands_out_the_last<N: LiveName, R: Abort>(rt: &R, feed: &mut Feed<N>) {
    assert_eq!(rt; next_revision(feed), 5);
    assert!(rt; matches!(feed.take(), Taken::Marker));
    assert!(rt; matches!(feed.take(), Taken::Empty));
}

fn five_writes_of_three<N: LiveName, R: Wait + Abort>(
    rt: &R,
    alloc: Global,
    live: &Live<N>,
    reader: Reader<N>,
) -> Result<(), KvError> {
    let filters = Filters::parse(alloc, "app.>")?;
    let feed = watch(reader, &filters)?;
    write_some(rt, alloc, live, 5)?;

    let mut feed = go_on(feed, &filters)?;
    hands_out_the_last(rt, &mut feed);
    Ok(())
}

#[derive(Drop)]
struct Compacts {
    alloc: Global,
}

impl<R: Wait + Abort> Service<R> for Compacts {
    type Answer = Result<(), KvError>;

    fn run<N: LiveName>(
        self,
        rt: &R,
        live: &Live<N>,
        mut readers: Vec<Reader<N>>,
    ) -> Result<(), KvError> {
        match readers.pop() {
            Some(reader) => five_writes_of_three(rt, self.alloc, live, reader),
            None => Err(KvError::NoReader),
        }
    }
}

fn compacted<R: Wait + Abort>(rt: &R, alloc: Global) -> Result<(), KvError> {
    let mut config = Config::named(alloc, "settings")?;
    config.write_limit = 3;
    Live::serve(rt, alloc, &config, 1, Compacts { alloc })?
}

#[test]
fn a_full_bucket_is_compacted_and_a_slow_feed_begins_anew(rt: HostRuntime) -> Result<(), Fail> {
    Ok(once_more!(compacted(&rt, rt.alloc()))?)
}
