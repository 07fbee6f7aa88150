//! What is done with a feed, line by line. A refresh that is refused leaves its count and its next item.

use crate::answers::{Answer, Differs, done, in_turn, on, taken};
use crate::readers::last;
use kv_bucket::{Feed, Filters, KvError, LiveName, Reader};
use kv_test_tools::{LATEST, once_more};
use std::alloc::Global;

/// What is done with a feed.
#[derive(Clone, Copy)]
pub enum Move {
    /// Takes the next item.
    Take,
    /// Goes on to what is published.
    Refresh,
    /// Asks for the version of the feed.
    Version,
}

/// The feed of all keys. A reader whose watch lacks memory comes back, and watches once more.
pub fn feed_of<N: LiveName>(alloc: Global, reader: Reader<N>) -> Result<Feed<N>, KvError> {
    let filters = once_more!(Filters::parse(alloc, ">"))?;
    let reader = match reader.watch(&filters, LATEST) {
        Ok(feed) => return Ok(feed),
        Err((reader, KvError::OutOfMemory)) => reader,
        Err((_, error)) => return Err(error),
    };
    match reader.watch(&filters, LATEST) {
        Ok(feed) => Ok(feed),
        Err((_, error)) => Err(error),
    }
}

/// The feed of all keys, of the last of the readers. NoReader.
pub fn feed_of_last<N: LiveName>(
    alloc: Global,
    readers: &mut Vec<Reader<N>>,
) -> Result<Feed<N>, KvError> {
    let reader = last(readers)?;
    feed_of(alloc, reader)
}

/// What can be seen of a feed: how many items it handed out, and which is the next one.
#[derive(Clone, Copy, Debug, PartialEq, Eq)]
pub struct ObservedFeed {
    handed: u64,
    next: Answer,
}

/// Looks at a feed.
pub fn look_at<N: LiveName>(feed: &Feed<N>) -> ObservedFeed {
    ObservedFeed {
        handed: feed.handed(),
        next: taken(Ok(feed.peek())),
    }
}

fn take<N: LiveName>(feed: &mut Feed<N>) -> Answer {
    let next = taken(Ok(feed.peek()));
    in_turn(next, taken(Ok(feed.take())))
}

fn move_once<N: LiveName>(feed: &mut Feed<N>, step: Move) -> Answer {
    match step {
        Move::Take => take(feed),
        Move::Refresh => done(feed.refresh()),
        Move::Version => on(feed.version()),
    }
}

fn move_made<N: LiveName>(feed: &mut Feed<N>, step: Move) -> Answer {
    let before = look_at(feed);
    once_more!(
        move_once(feed, step),
        if look_at(feed) != before {
            return Answer::Changed;
        }
    )
}

/// Does all this with a feed, in turn, up to the first line that differs.
pub fn moves<N: LiveName>(feed: &mut Feed<N>, lines: &[(Move, Answer)]) -> Option<Differs> {
    for line in 0..lines.len() {
        let (step, wanted) = lines[line];
        let answer = move_made(feed, step);
        if answer != wanted {
            return Some(Differs { line, answer });
        }
    }
    None
}

/// Stops a feed: its reader, and how many items it handed out, by its count and by what the stop tells.
pub fn stop<N: LiveName>(feed: Feed<N>) -> (Reader<N>, (u64, u64)) {
    let counted = feed.handed();
    let (reader, stopped) = feed.stop();
    (reader, (counted, stopped.handed))
}
