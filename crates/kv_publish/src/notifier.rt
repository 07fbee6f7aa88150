//! What readers sleep on until something is published, and where the last version lies once nothing will be.

ghost use Rattle.std.specs.Prelude.{◌≡◌, IfErr};
ghost use Rattle.kv_keys.specs.declared.error.KvError.TheVariants.{OutOfMemory};

use crate::adaptive_spin::AdaptiveSpin;
use crate::last_published::LastPublished;
use crate::protocol::LiveName;
use kv_keys::KvError;
use std::alloc::Global;
use std::rt::Clock;
use std::sync::atomic::{AtomicBool, AtomicU64, Ordering};
use std::sync::{Arc, OnceLock, Wait};
use std::thread;
use std::time::{Duration, Instant};

// One word: whether the opening was closed, how far what is published is, and how many sleep. The high bits are so
// few that no opening has so many readers, and the middle ones so many that no opening publishes so often.
const CLOSED: u64 = 1;

const PUBLISHED: u64 = 2;

const SLEEPER: u64 = 1 << 48;

// So often a wait looks again, behind a yield each time, before it sleeps. A writer without pauses publishes meanwhile.
const LOOKS: u32 = 4;

/// Why a wait ended.
#[derive(Clone, Copy, Debug, PartialEq, Eq)]
pub enum Woken {
    /// Something is published that who waits has not taken in.
    Changed,
    /// The bucket was closed, and all that was published was taken in.
    Closed,
}

#[derive(Drop)]
struct Shared<N: LiveName> {
    word: AtomicU64,
    closed: AtomicBool,
    last: OnceLock<LastPublished<N>>,
}

/// What the publisher and the readers of the opening N share. Contracts see of it that what was published last is of N.
/// Each of them has one of its own, which also knows whether it was of use to look again before a sleep.
#[derive(Drop)]
pub struct Notifier<N: LiveName> {
    board: Arc<Shared<N>, Global>,
    spin: AdaptiveSpin,
}

// What a word says, the sleepers aside.
fn said(word: u64) -> u64 {
    word % SLEEPER
}

// What there is to wake for who has taken in so many acts. The word counts acts: a batch adds as many as it has.
fn what_woke(said: u64, acts: u64) -> Option<Woken> {
    if said / PUBLISHED > acts {
        Some(Woken::Changed)
    } else if said % PUBLISHED == CLOSED {
        Some(Woken::Closed)
    } else {
        None
    }
}

impl<N: LiveName> Notifier<N> {
    /// A notifier of a history that is so far. It has notified nobody. It costs an entry.
    pub fn new(alloc: Global, published: u64) -> Result<Notifier<N>, KvError>
        ensures { IfErr result (λ e. e ≡ OutOfMemory) }
    {
        let board = Shared {
            word: AtomicU64::new(PUBLISHED.wrapping_mul(published)),
            closed: AtomicBool::new(false),
            last: OnceLock::new(),
        };
        match Arc::new(alloc, board) {
            Ok(board) => Ok(Notifier::on(board)),
            Err(_) => Err(KvError::OutOfMemory),
        }
    }

    fn on(board: Arc<Shared<N>, Global>) -> Notifier<N> {
        Notifier {
            board,
            spin: AdaptiveSpin::new(),
        }
    }

    /// The same notifier.
    pub fn try_clone(&self) -> Result<Notifier<N>, KvError>
        ensures { IfErr result (λ e. e ≡ OutOfMemory) }
    {
        match Arc::try_clone(&self.board) {
            Ok(board) => Ok(Notifier::on(board)),
            Err(_) => Err(KvError::OutOfMemory),
        }
    }

    /// Leaves what was published last, for those who come once the store lets nobody enter.
    pub fn leave(&self, last: LastPublished<N>) {
        // What is handed back was left before, which never comes: a publisher ends once.
        drop(self.board.last.try_set(last));
    }

    /// What was left, if anything was.
    pub fn last(&self) -> Option<&LastPublished<N>> {
        self.board.last.get()
    }

    // One step where nobody sleeps.
    fn add(&self, what: u64) {
        let word = &self.board.word;
        if word.fetch_add(what, Ordering::SeqCst) >= SLEEPER {
            word.wake_all();
        }
    }

    /// Tells that something was published. It comes after the publishing.
    pub fn notify(&self) {
        self.add(PUBLISHED);
    }

    /// Tells that so many acts were published in one step. Those who sleep are woken once.
    pub fn notify_of(&self, acts: u64) {
        self.add(PUBLISHED.wrapping_mul(acts));
    }

    /// Tells that nothing will be published any more.
    pub fn close(&self) {
        if !self.board.closed.swap(true, Ordering::SeqCst) {
            self.add(CLOSED);
        }
    }

    /// Whether more acts are published than so many. It writes nothing.
    pub fn has_more(&self, acts: u64) -> bool {
        said(self.board.word.load(Ordering::SeqCst)) / PUBLISHED > acts
    }

    // What there is to wake for by now.
    fn woken(&self, acts: u64) -> Option<Woken> {
        what_woke(said(self.board.word.load(Ordering::SeqCst)), acts)
    }

    // Looks several times, and lets others run before each.
    fn look(&self, acts: u64) -> Option<Woken> {
        for _ in 0..LOOKS {
            thread::yield_now();
            let woken = self.woken(acts);
            if woken.is_some() {
                return woken;
            }
        }
        None
    }

    // What there is to wake for, where that shows without a sleep: at once, or behind a few looks where these are due.
    fn look_again(&self, acts: u64) -> Option<Woken> {
        let word = self.board.word.load(Ordering::SeqCst);
        let woken = what_woke(said(word), acts);
        if woken.is_some() || !self.spin.is_due(word / SLEEPER) {
            return woken;
        }
        let woken = self.look(acts);
        self.spin.learn(woken.is_some());
        woken
    }

    // Sleeps once, for no longer than the limit, unless there is something to wake for. It may wake for no reason.
    fn sleep<R: Wait>(&self, rt: &R, acts: u64, limit: Option<Duration>) -> Option<Woken> {
        let word = &self.board.word;
        // It is counted before it falls asleep: who publishes after that sees it, and who did before has changed the
        // word.
        let seen = said(word.fetch_add(SLEEPER, Ordering::SeqCst));
        let woken = what_woke(seen, acts);
        if woken.is_none() {
            let expected = (seen & 0xffff_ffff) as u32;
            match limit {
                None => word.park(rt, expected),
                Some(limit) => word.park_timeout(rt, expected, limit),
            }
        }
        word.fetch_sub(SLEEPER, Ordering::SeqCst);
        woken
    }

    /// Sleeps until more acts are published than so many, or it is closed. Before that it looks again for a moment, where
    /// that was of use lately: so a follower of a busy writer seldom sleeps, and the writer seldom has to wake it.
    pub fn wait<R: Wait>(&self, rt: &R, acts: u64) -> Woken {
        if let Some(woken) = self.look_again(acts) {
            return woken;
        }
        for _ in rt.forever() {
            if let Some(woken) = self.sleep(rt, acts, None) {
                return woken;
            }
        }
        unreachable!()
    }

    /// As `wait` does, for no longer than the limit. It is `None` where the time was over first, or the clock couldn't
    /// be read.
    pub fn wait_timeout<R: Wait + Clock>(
        &self,
        rt: &R,
        acts: u64,
        limit: Duration,
    ) -> Option<Woken> {
        let start = Instant::now(rt).ok();
        for _ in rt.forever() {
            let left = left_of(rt, start, limit);
            let woken = self.sleep(rt, acts, Some(left.unwrap_or(Duration::ZERO)));
            if woken.is_some() || left.is_none() {
                return woken;
            }
        }
        unreachable!()
    }
}

// What is left of a limit since a start: `None` once it is over, or the clock can't be read.
fn left_of<R: Clock>(rt: &R, start: Option<Instant>, limit: Duration) -> Option<Duration> {
    let left = limit.checked_sub(start?.elapsed(rt).ok()?)?;
    if left.is_zero() { None } else { Some(left) }
}
