//! The readers that a test is handed.

use crate::answers::{Answer, on};
use crate::moving::feed_of;
use kv_bucket::{Feed, KvError, LiveName, Reader, Version};
use kv_test_tools::once_more;
use std::alloc::Global;

/// The last of the readers. NoReader.
pub fn last<N: LiveName>(readers: &mut Vec<Reader<N>>) -> Result<Reader<N>, KvError> {
    match readers.pop() {
        Some(reader) => Ok(reader),
        None => Err(KvError::NoReader),
    }
}

/// The last two readers. NoReader.
pub fn both<N: LiveName>(readers: &mut Vec<Reader<N>>) -> Result<(Reader<N>, Reader<N>), KvError> {
    let first = last(readers)?;
    Ok((first, last(readers)?))
}

/// The last reader, and a feed of the one before it. NoReader.
pub fn reader_and_feed<N: LiveName>(
    alloc: Global,
    readers: &mut Vec<Reader<N>>,
) -> Result<(Reader<N>, Feed<N>), KvError> {
    let (reader, other) = both(readers)?;
    Ok((reader, feed_of(alloc, other)?))
}

/// The version that a reader is shown.
pub fn version<N: LiveName>(reader: &mut Reader<N>) -> Result<Version, KvError> {
    once_more!(reader.version())
}

/// What a reader is shown: the last revision, and the floor.
pub fn shown_to<N: LiveName>(reader: &mut Reader<N>) -> Answer {
    on(version(reader))
}
