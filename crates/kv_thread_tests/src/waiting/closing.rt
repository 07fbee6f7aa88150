//! A follower of a bucket that was closed.

use crate::equal::equal;
use crate::following::{follow_to_the_end, put, watch_all};
use kv_bucket::{Feed, KvError, Live, LiveName, Reader, Woken};
use kv_live_test_tools::{ClosingTest, run_closing};
use std::alloc::Global;
use std::process::Abort;
use std::sync::Wait;
use std::sync::atomic::AtomicU64;
use std::test::Fail;

const WRITES: u64 = 3;

// A feed that has yet to look at any of the writes.
fn fall_behind<N: LiveName, R: Wait>(
    rt: &R,
    alloc: Global,
    live: &Live<N>,
) -> Result<Feed<N>, KvError> {
    for _ in 0..WRITES {
        put(rt, alloc, live)?;
    }
    watch_all(rt, alloc, live)
}

// It is handed the marker and each write, and then told of the end.
fn is_handed_everything<N: LiveName, R: Wait + Abort>(
    rt: &R,
    feed: &mut Feed<N>,
) -> Result<(), KvError> {
    let handed = AtomicU64::new(0);
    equal(rt, feed.wait(rt), Woken::Changed);
    equal(rt, follow_to_the_end(rt, feed, &handed)?, WRITES + 1);
    equal(rt, feed.wait(rt), Woken::Closed);
    equal(rt, feed.version()?.revision(), WRITES);
    Ok(())
}

// A test of a feed that has yet to look when the bucket is closed.
#[derive(Clone, Copy)]
struct FollowedBehind;

impl<R: Wait + Abort> ClosingTest<R> for FollowedBehind {
    fn run<N: LiveName>(
        self,
        rt: &R,
        alloc: Global,
        live: Live<N>,
        readers: &mut Vec<Reader<N>>,
    ) -> Result<(), KvError> {
        readers.clear();
        let feed = fall_behind(rt, alloc, &live);
        live.close(rt);
        let mut feed = feed?;
        is_handed_everything(rt, &mut feed)
    }
}

#[test]
fn a_follower_behind_a_close_is_handed_everything(rt: HostRuntime) -> Result<(), Fail> {
    Ok(run_closing(&rt, rt.alloc(), FollowedBehind)?)
}
