//! Why a measurement gave no figure.

ghost use Rattle.std.specs.Prelude.{◌↔◌, IsOk, IsTrue};

use kv_single::KvError;
use std::alloc::{AllocError, AllocFailed};
use std::io;
use thiserror::Error;

/// What is read back.
#[derive(Clone, Copy, Debug, Error)]
pub enum Answer {
    #[error("the values of keys")]
    Values,
    #[error("the entries of histories")]
    Histories,
    #[error("a revision")]
    Revision,
    #[error("the keys of a filter")]
    Keys,
    #[error("the items of a watch")]
    Items,
    #[error("what a copy has")]
    Copy,
    #[error("the places of keys")]
    Place,
}

/// Why a measurement gave no figure.
#[derive(Clone, Copy, Debug, Error)]
pub enum Fault {
    /// A call of the bucket was refused.
    #[error("a call was refused: {0}")]
    Refused(#[from] KvError),
    /// A request for memory was refused, or a thread.
    #[error("out of memory")]
    Memory,
    /// The clock, a file or standard output failed.
    #[error("the clock, a file or standard output failed")]
    System,
    /// What was read back is not what was written.
    #[error("a wrong answer: {0}")]
    Wrong(Answer),
}

impl From<io::Error> for Fault {
    fn from(_error: io::Error) -> Fault {
        Fault::System
    }
}

impl From<AllocError> for Fault {
    fn from(_error: AllocError) -> Fault {
        Fault::Memory
    }
}

impl<T: Drop> From<AllocFailed<T>> for Fault {
    fn from(_error: AllocFailed<T>) -> Fault {
        Fault::Memory
    }
}

/// A wrong answer, unless the test holds.
pub fn check(holds: bool, answer: Answer) -> Result<(), Fault>
    ensures { IsOk result ↔ IsTrue holds }
{
    if holds {
        return Ok(());
    }
    Err(Fault::Wrong(answer))
}
