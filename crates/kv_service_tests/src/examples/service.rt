//! A service: a writer, two followers that sleep in `next`, and a clean end.

use super::threads::{feed_of, write_three};
use super::*;
use kv_bucket::{Config, Feed, Filters, KvError, Live, LiveName, Reader, Taken, ThreadedService};
use std::sync::Wait;
use std::thread::Threads;

// Takes all, to the end, and sleeps where there is nothing yet.
fn take_all<N: LiveName, R: Wait>(rt: &R, feed: &mut Feed<N>) -> Result<u64, KvError> {
    for _ in rt.forever() {
        match feed.next(rt)? {
            Taken::Entry(_change) => {}
            Taken::Marker => {}
            Taken::Empty => return Ok(feed.handed()),
        }
    }
    unreachable!()
}

#[derive(Drop)]
struct Settings {
    alloc: Global,
}

impl<R: Wait> ThreadedService<R> for Settings {
    type Answer = Result<u64, KvError>;

    type Followed = Result<u64, KvError>;

    // Writes.
    fn lead<N: LiveName>(&self, rt: &R, live: &Live<N>) -> Result<u64, KvError> {
        write_three(rt, self.alloc, live)
    }

    // Follows, and answers how many items it was handed.
    fn follow<N: LiveName>(
        &self,
        rt: &R,
        _number: usize,
        _live: &Live<N>,
        reader: Reader<N>,
    ) -> Result<u64, KvError> {
        let filters = Filters::parse(self.alloc, "app.>")?;
        let mut feed = feed_of(reader, &filters)?;
        take_all(rt, &mut feed)
    }
}

// How many items both followers were handed.
fn service<R: Threads + Wait + Sync>(rt: &R, alloc: Global) -> Result<u64, KvError> {
    let config = Config::named(alloc, "settings")?;
    let settings = Settings { alloc };
    let (written, followed) = Live::serve_threaded(rt, alloc, &config, 2, &settings)?;
    written?;
    total(followed)
}

fn total(followed: Vec<Result<u64, KvError>>) -> Result<u64, KvError> {
    let mut total = 0_u64;
    for handed in followed {
        total = total.saturating_add(handed?);
    }
    Ok(total)
}

#[test]
fn a_service_hands_all_to_two_followers(rt: HostRuntime) -> Result<(), Fail> {
    let handed = once_more!(service(&rt, rt.alloc()))?;
    assert_eq!(rt; handed, 6);
    Ok(())
}
