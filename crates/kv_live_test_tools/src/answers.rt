//! What calls on a shared bucket answer, in brief.

use kv_bucket::{BatchRefused, KvError, Stopped, Taken, Version};
use kv_test_tools::Answered;

/// What a call answered, by its numbers.
#[derive(Clone, Copy, Debug, PartialEq, Eq)]
pub enum Answer {
    /// The call did what was asked, and has no number to tell.
    Done,
    /// The revision of a write, or of the first of a batch, or the number of a watch.
    Number(u64),
    /// An entry of this revision was handed out.
    Entry(u64),
    /// The marker was handed out.
    Marker,
    /// There was nothing to hand out.
    Empty,
    /// So many items were handed out.
    Stopped(u64),
    /// The last revision of a version, and its floor.
    On(u64, u64),
    /// The call was refused.
    Refused(KvError),
    /// A batch was refused, at this one of its requests.
    RefusedAt(usize, KvError),
    /// The call was refused, and what can be seen is not what it was before. No line is to answer that.
    Changed,
    /// What was handed out is not what was next. No line is to answer that.
    OutOfTurn,
}

impl Answered for Answer {
    fn refusal(&self) -> Option<KvError> {
        match *self {
            Answer::Refused(error) | Answer::RefusedAt(_, error) => Some(error),
            _ => None,
        }
    }
}

/// The first line of a row, counted from 0, that answered otherwise than it says, and its answer.
#[derive(Clone, Copy, Debug, PartialEq, Eq)]
pub struct Differs {
    pub line: usize,
    pub answer: Answer,
}

pub(crate) fn number(answered: Result<u64, KvError>) -> Answer {
    match answered {
        Ok(number) => Answer::Number(number),
        Err(error) => Answer::Refused(error),
    }
}

pub(crate) fn done(answered: Result<(), KvError>) -> Answer {
    match answered {
        Ok(()) => Answer::Done,
        Err(error) => Answer::Refused(error),
    }
}

pub(crate) fn first(answered: Result<u64, BatchRefused>) -> Answer {
    match answered {
        Ok(first) => Answer::Number(first),
        Err(refused) => Answer::RefusedAt(refused.at, refused.error),
    }
}

/// A version's last revision and floor, or why there is none.
pub fn on(version: Result<Version, KvError>) -> Answer {
    match version {
        Ok(version) => Answer::On(version.revision(), version.floor()),
        Err(error) => Answer::Refused(error),
    }
}

pub(crate) fn taken(taken: Result<Taken<'_>, KvError>) -> Answer {
    match taken {
        Ok(Taken::Entry(shown)) => Answer::Entry(shown.revision()),
        Ok(Taken::Marker) => Answer::Marker,
        Ok(Taken::Empty) => Answer::Empty,
        Err(error) => Answer::Refused(error),
    }
}

pub(crate) fn stopped(stopped: Result<Stopped, KvError>) -> Answer {
    match stopped {
        Ok(stopped) => Answer::Stopped(stopped.handed),
        Err(error) => Answer::Refused(error),
    }
}

// What was taken, which has to be what was next.
pub(crate) fn in_turn(next: Answer, taken: Answer) -> Answer {
    if taken == next {
        taken
    } else {
        Answer::OutOfTurn
    }
}
