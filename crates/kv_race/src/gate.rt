//! Where the threads of a race can be held up, and watched.

/// A thread of a race: the worker or the watcher of a number, from 0.
#[derive(Clone, Copy, Debug, PartialEq, Eq)]
pub enum Who {
    /// It writes.
    Worker(usize),
    /// It follows a watch.
    Watcher(usize),
}

/// Stands before and after each write of a worker and each round of a watcher, `n` of which counts from 0 for each of
/// them. A test can wait in it for other threads; how long a race then takes is the gate's affair.
pub trait Gate: Sync {
    /// Just before that write, or that round.
    fn before(&self, who: Who, n: u64);

    /// Just after it.
    fn after(&self, who: Who, n: u64);

    /// Whether a watcher sleeps before each of its rounds until something is published, or no write comes any more. A
    /// gate in which others wait for a watcher's rounds lets none sleep.
    fn lets_sleep(&self) -> bool {
        false
    }
}

/// Holds nobody up, and lets watchers sleep.
#[derive(Clone, Copy, Debug)]
pub struct NoGate;

impl Gate for NoGate {
    fn before(&self, _who: Who, _n: u64) {}

    fn after(&self, _who: Who, _n: u64) {}

    fn lets_sleep(&self) -> bool {
        true
    }
}
