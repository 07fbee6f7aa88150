//! What tests of followers have in common: a write, a reader, a watch of its own, and its items to the end.

use kv_bucket::{Feed, Filters, KvError, Live, LiveName, Reader, Request, Taken};
use kv_live_test_tools::batched;
use kv_test_tools::LATEST;
use std::alloc::Global;
use std::sync::Wait;
use std::sync::atomic::{AtomicU64, Ordering};

fn request(alloc: Global) -> Result<Request, KvError> {
    kv_test_tools::put(alloc, "app.port", "80")
}

pub fn put<N: LiveName, R: Wait>(rt: &R, alloc: Global, live: &Live<N>) -> Result<u64, KvError> {
    live.write(rt, &request(alloc)?)
}

// Two writes in one step.
pub fn put_two<N: LiveName, R: Wait>(
    rt: &R,
    alloc: Global,
    live: &Live<N>,
) -> Result<u64, KvError> {
    let mut requests = Vec::new(alloc);
    requests.push(request(alloc)?)?;
    requests.push(request(alloc)?)?;
    batched(live.write_all(rt, &requests))
}

// A reader at a place that is free.
pub fn slot<N: LiveName, R: Wait>(rt: &R, live: &Live<N>) -> Result<Reader<N>, KvError> {
    live.lock(rt).reader()
}

// Where a feed begins.
#[derive(Clone, Copy)]
pub enum From {
    EmptyBucket,
    ItsReader,
}

pub fn watch<N: LiveName>(
    reader: Reader<N>,
    filters: &Filters,
    from: From,
) -> Result<Feed<N>, KvError> {
    let opened = match from {
        From::EmptyBucket => reader.watch_from_empty(filters, LATEST),
        From::ItsReader => reader.watch(filters, LATEST),
    };
    match opened {
        Ok(feed) => Ok(feed),
        Err((_, refusal)) => Err(refusal),
    }
}

// A feed of a reader of its own, which has yet to look at any write.
pub fn watch_all<N: LiveName, R: Wait>(
    rt: &R,
    alloc: Global,
    live: &Live<N>,
) -> Result<Feed<N>, KvError> {
    let filters = Filters::parse(alloc, "app.>")?;
    watch(slot(rt, live)?, &filters, From::EmptyBucket)
}

// Whether an item comes after all that came before it. The revisions of entries rise one by one.
pub fn is_next(item: Taken<'_>, last: &mut u64) -> bool {
    match item {
        Taken::Entry(shown) => {
            *last = last.saturating_add(1);
            shown.revision() == *last
        }
        _ => true,
    }
}

// How many items it was handed, or 0 where one was left out or out of order. Each is counted, and who waits for that
// is woken.
pub fn follow_to_the_end<N: LiveName, R: Wait>(
    rt: &R,
    feed: &mut Feed<N>,
    handed: &AtomicU64,
) -> Result<u64, KvError> {
    let mut last = 0;
    for _ in rt.forever() {
        match feed.next(rt)? {
            Taken::Empty => return Ok(feed.handed()),
            item => {
                if !is_next(item, &mut last) {
                    return Ok(0);
                }
            }
        }
        handed.fetch_add(1, Ordering::SeqCst);
        handed.wake_all();
    }
    Ok(0)
}
