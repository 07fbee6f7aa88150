//! Why a batch of requests is refused.

use kv_keys::KvError;
use thiserror::Error;

/// Why none of several requests was done, that were asked for in one step.
#[derive(Clone, Copy, Debug, PartialEq, Eq, Error)]
#[error("{error} at {at}")]
pub struct BatchRefused {
    /// The index of the request that was refused, from 0. Those before it would have been accepted.
    pub at: usize,
    /// What it is refused with behind those before it. `OutOfMemory` where memory was refused while it was done: then
    /// it would have been accepted too.
    pub error: KvError,
}
