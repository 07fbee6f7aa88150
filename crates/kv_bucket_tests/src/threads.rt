//! Tests of what threads share. Where a request for memory is refused, the lock and the feed are as they were, and the
//! same call, made again, goes on. A refusal while the readers are made ends the opening, so the whole test is run
//! again.

use crate::equal::equal;
use known::{Seen, Told, seen_by, told_if};
use kv_bucket::{Feed, KvError, Live, LiveName, Reader};
use kv_live_test_tools::{
    Answer, Ask, Call, ClosingTest, Move, OPENING, Opening, Step, Test, batched, calls, feed_of,
    feed_of_last, last, look_at, look_through, moves, on, put_request, reader_and_feed, requests,
    run, run_closing, run_on, shown_to, steps, stop, version,
};
use kv_test_tools::once_more;
use std::alloc::Global;
use std::process::Abort;
use std::sync::Wait;
use std::test::Fail;

mod batches;
mod cached;
mod compacting;
mod known;
mod lagging;
mod lock;
mod opening;
mod phases;
mod places;
mod published;
mod told;

// What the last of the readers sees, which is dropped then.
fn last_reads<N: LiveName, R: Abort>(
    rt: &R,
    readers: &mut Vec<Reader<N>>,
    answer: Answer,
) -> Result<(), KvError> {
    let mut reader = last(readers)?;
    equal(rt, shown_to(&mut reader), answer);
    Ok(())
}
