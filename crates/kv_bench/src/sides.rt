//! What is set side by side: those who read, write, copy and follow. Each asks for keys of its own, by their indices
//! among these.

use kv_gauge::fault::Fault;
use std::rt::Clock;
use std::sync::Wait;

/// What has figures of its own.
pub trait Named {
    /// The name under which they are told.
    const NAME: &'static str;
}

/// Who reads.
pub trait Gets {
    /// How many bytes the value of a key has; 0 where there is none.
    fn get<R: Wait>(&mut self, rt: &R, index: usize) -> Result<usize, Fault>;
}

/// Who writes.
pub trait Puts {
    /// Puts to a key.
    fn put<R: Wait>(&mut self, rt: &R, index: usize) -> Result<(), Fault>;

    /// Tells those who follow that no write comes any more.
    fn finish(self);
}

/// Who copies all that there is.
pub trait Copies {
    /// A copy that is let go at once: how many writes or keys it has.
    fn copy<R: Wait>(&mut self, rt: &R) -> Result<u64, Fault>;
}

/// Who follows a writer.
pub trait Takes {
    /// Waits for an item. It is false where none comes any more.
    fn take<R: Wait + Clock>(&mut self, rt: &R) -> Result<bool, Fault>;
}

/// How many bytes the values of the first keys have, so many of them.
pub fn get_all<G: Gets, R: Wait>(rt: &R, gets: &mut G, count: usize) -> Result<usize, Fault> {
    let mut bytes = 0_usize;
    for index in 0..count {
        bytes = bytes.wrapping_add(gets.get(rt, index)?);
    }
    Ok(bytes)
}
