//! Tests of buckets by worked rows. Each also passes where any one request for memory is refused: then the bucket is as
//! it was, and the same call, made again, goes on.

use crate::equal::equal;
use crate::limits::{Limits, keeping, limited};
use crate::same::tell_the_same;
use kv_single::{Bucket, Call, Filter, Filters, Key, KvError, Reply, Request, Status, Taken};
use kv_test_tools::{Answered, LATEST, delete, once_more, purge, put};
use std::alloc::Global;
use std::process::Abort;
use std::test::Fail;

mod asking;
mod batches;
mod companions;
mod making;
mod passing;
mod rows;
mod running;

// What is asked of a bucket.
#[derive(Clone, Copy)]
enum Ask {
    Put(&'static str, &'static str),
    // The longest key, with the largest value.
    PutLongest,
    Create(&'static str),
    Delete(&'static str),
    Purge(&'static str, u64),
    Get(&'static str),
    GetAt(&'static str, u64),
    History(&'static str),
    Keys(&'static str),
    Watch(&'static str),
    // By the list that is made of one filter.
    WatchOne(&'static str),
    Take(u64),
    Stop(u64),
    Status,
    Seal,
    Compact(u64),
}

// What was answered. An entry by its revision, and the first byte of its value, if it has one.
#[derive(Clone, Copy, Debug, PartialEq, Eq)]
enum Answer {
    Revision(u64),
    Sealed,
    Entry(u64, u8),
    Count(usize),
    Status(Status, u64),
    Watch(u64),
    Marker,
    Empty,
    Stopped(u64),
    Compacted(u64),
    Refused(KvError),
}

type Row = (Ask, Answer);

fn entry(revision: u64, value: Option<&[u8]>) -> Answer {
    let first = match value {
        Some(value) => value.first().copied().unwrap_or(0),
        None => 0,
    };
    Answer::Entry(revision, first)
}

impl Answered for Answer {
    fn refusal(&self) -> Option<KvError> {
        match *self {
            Answer::Refused(error) => Some(error),
            _ => None,
        }
    }
}

// No row opens a watch of a greater number.
const LAST_WATCH: u64 = 3;

// Two buckets look alike: by their versions, by how many watches each has, and by what each of these is given next.
fn look_alike(rt: &impl Abort, first: &Bucket, second: &Bucket) {
    tell_the_same(rt, first.version(), second.version());
    equal(rt, first.watches(), second.watches());
    for number in 1..=LAST_WATCH {
        let next = asking::taken(first.peek(number));
        equal(rt, next, asking::taken(second.peek(number)));
    }
}

fn open_once(alloc: Global, limits: Limits) -> Result<Bucket, KvError> {
    let config = limited(alloc, "kv", limits)?;
    Bucket::open(alloc, &config)
}

fn open(alloc: Global, limits: Limits) -> Result<Bucket, KvError> {
    once_more!(open_once(alloc, limits))
}
