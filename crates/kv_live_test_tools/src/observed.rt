//! What can be seen of a bucket under the lock: its version, how many watches are open, and what each is given next. A call
//! that is refused changes none of it.

use crate::answers::{Answer, taken};
use kv_bucket::{Keeper, KvError, Live, LiveName, Version};
use kv_test_tools::is_same_at;
use std::sync::Wait;

// The largest number of a watch in any row.
const MOST_NUMBERS: usize = 65;

/// What can be seen of a bucket through a guard.
#[derive(Drop)]
pub struct Observed {
    version: Result<Version, KvError>,
    watches: u64,
    // What the watches are given next, by their numbers from 1 on. A number without a watch is refused.
    next: [Answer; MOST_NUMBERS],
}

/// Looks through a guard, at each watch of a number up to 65.
pub fn look_through<N: LiveName>(keeper: &Keeper<N>) -> Observed {
    let bucket = keeper.bucket();
    Observed {
        version: bucket.version().snapshot(),
        watches: bucket.watches(),
        next: next_items(keeper),
    }
}

fn next_items<N: LiveName>(keeper: &Keeper<N>) -> [Answer; MOST_NUMBERS] {
    let mut next = [Answer::Empty; MOST_NUMBERS];
    for place in 0..MOST_NUMBERS {
        next[place] = taken(keeper.peek(place as u64 + 1));
    }
    next
}

/// Looks through a guard of its own.
pub fn look<N: LiveName, R: Wait>(rt: &R, live: &Live<N>) -> Observed {
    look_through(&*live.lock(rt))
}

impl Observed {
    /// Whether all looks as it did before.
    pub fn is_as(&self, before: &Observed) -> bool {
        self.watches == before.watches && self.next == before.next && self.has_version_of(before)
    }

    fn has_version_of(&self, before: &Observed) -> bool {
        match (&self.version, &before.version) {
            (Ok(version), Ok(other)) => is_same_version(version, other),
            _ => false,
        }
    }
}

// Whether the numbers, the floor, each write that is stored, and the entries that are kept of its key are the same.
fn is_same_version(version: &Version, other: &Version) -> bool {
    if version.status() != other.status() || version.floor() != other.floor() {
        return false;
    }
    for before in 0..version.revision() {
        if !is_same_at(version, other, before + 1) {
            return false;
        }
    }
    true
}
