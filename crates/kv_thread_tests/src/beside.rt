//! Two calls at once.

use kv_bucket::KvError;
use std::thread::{Threads, join};

// Makes the first call on another thread and the second on this one. Where no other thread is to be had, the first is
// made behind the second. So the first may wait for what the second does, and the second for nothing that the first does.
pub fn beside<
    R: Threads,
    F: FnOnce() -> Result<(), KvError> + Send,
    G: FnOnce() -> Result<(), KvError>,
>(rt: &R, other: F, own: G) -> Result<(), KvError>
    requires { F.pre other × G.pre own }
{
    let (first, second) = join(rt, other, own);
    second?;
    first
}
