//! Whether a wait looks again for a moment before it sleeps.

use std::sync::atomic::{AtomicBool, AtomicU64, Ordering};

// So many others are asleep where a wait begins to look. To wake fewer costs the writer little.
const MANY_ASLEEP: u64 = 4;

// The most waits in a row that sleep at once behind looks in vain.
const MOST_SKIPPED: u64 = 128;

/// Says which waits look again before they sleep. A sleep costs the writer its share of a call of the system, and a look
/// none; but a look lets others run, so on a busy machine it may take a slice of their time, in which items wait. So
/// looks begin where many sleep, all of which each write wakes. A look that was of use is followed by another at the
/// next wait, and behind looks in vain the next 1, 2, 4, .. 128 waits sleep at once.
#[derive(Drop)]
pub(crate) struct AdaptiveSpin {
    // Whether the last look was of use.
    was_of_use: AtomicBool,
    // So many waits from now on sleep at once.
    skipped: AtomicU64,
    // So many will behind the next look in vain.
    next: AtomicU64,
}

impl AdaptiveSpin {
    /// Nothing was waited for yet.
    pub(crate) fn new() -> AdaptiveSpin {
        AdaptiveSpin {
            was_of_use: AtomicBool::new(false),
            skipped: AtomicU64::new(0),
            next: AtomicU64::new(1),
        }
    }

    /// Whether this wait looks again, where so many others are asleep.
    pub(crate) fn is_due(&self, asleep: u64) -> bool {
        if self.was_of_use.load(Ordering::SeqCst) {
            return true;
        }
        if asleep < MANY_ASLEEP {
            return false;
        }
        let skipped = self.skipped.load(Ordering::SeqCst);
        self.skipped
            .store(skipped.saturating_sub(1), Ordering::SeqCst);
        skipped == 0
    }

    /// Takes in whether a look was of use.
    pub(crate) fn learn(&self, was_of_use: bool) {
        self.was_of_use.store(was_of_use, Ordering::SeqCst);
        if was_of_use {
            self.next.store(1, Ordering::SeqCst);
            return;
        }
        let next = self.next.load(Ordering::SeqCst);
        self.skipped.store(next, Ordering::SeqCst);
        self.next
            .store(next.saturating_mul(2).min(MOST_SKIPPED), Ordering::SeqCst);
    }
}
