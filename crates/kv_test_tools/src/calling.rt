//! Calls that are made again. A call that is refused for want of memory is made once more: a second refusal in a row does
//! not come, where one request for memory is refused at a time.

use kv_keys::KvError;
use std::alloc::AllocError;

/// What a call answers, by which it tells that it was refused.
pub trait Answered: Drop {
    /// Why the call was refused, if it was.
    fn refusal(&self) -> Option<KvError>;
}

impl<T: Drop> Answered for Result<T, KvError> {
    fn refusal(&self) -> Option<KvError> {
        match self {
            Ok(_) => None,
            Err(error) => Some(*error),
        }
    }
}

impl<T: Drop> Answered for Result<T, AllocError> {
    fn refusal(&self) -> Option<KvError> {
        match self {
            Ok(_) => None,
            Err(_) => Some(KvError::OutOfMemory),
        }
    }
}

/// Whether a call that answered this was refused.
pub fn is_refused<A: Answered>(answer: &A) -> bool {
    answer.refusal().is_some()
}

/// Whether a call that answered this was refused for want of memory.
pub fn lacks_memory<A: Answered>(answer: &A) -> bool {
    matches!(answer.refusal(), Some(KvError::OutOfMemory))
}

/// What a call answers, which is written as it stands in a body. Where it is refused for want of memory, it is made once
/// more. With a second expression, that comes first where the call is refused.
///
/// A closure in the call's place is three functions to prove; here the call is proved twice with its caller.
#[macro_export]
macro_rules! once_more {
    ($call:expr) => {{
        let answer = $call;
        if $crate::lacks_memory(&answer) { $call } else { answer }
    }};
    ($call:expr, $refused:expr) => {{
        let answer = $call;
        if $crate::is_refused(&answer) {
            $refused;
        }
        if $crate::lacks_memory(&answer) { $call } else { answer }
    }};
}

/// What a test answers, which is written as it stands in a body. Where it could not end, for whatever reason, it is made once
/// more: it makes anew all that it stands on, so no part of it has to be made again by itself.
#[macro_export]
macro_rules! twice {
    ($test:expr) => {
        match $test {
            Ok(()) => Ok(()),
            Err(_) => $test,
        }
    };
}
