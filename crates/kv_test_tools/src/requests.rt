//! Requests of writes by a key's text, and the options of a watch.

use kv_keys::{Key, KvError};
use kv_model::{Options, Request, Start};
use std::alloc::Global;

/// A watch that begins with the latest entry of each key, and shows all.
pub const LATEST: Options = Options {
    start: Start::Latest,
    ignore_deletes: false,
    headers_only: false,
};

/// The put of a value. BadKey; OutOfMemory.
pub fn put(alloc: Global, key: &str, value: &str) -> Result<Request, KvError> {
    let key = Key::parse(alloc, key)?;
    let value = Vec::from_slice(alloc, value.as_bytes())?;
    Ok(Request::Put { key, value })
}

/// The delete of a key, at this last revision of it where one is named. BadKey; OutOfMemory.
pub fn delete(alloc: Global, key: &str, last: Option<u64>) -> Result<Request, KvError> {
    let key = Key::parse(alloc, key)?;
    Ok(Request::Delete { key, last })
}

/// The purge of a key, at this last revision of it where one is named. BadKey; OutOfMemory.
pub fn purge(alloc: Global, key: &str, last: Option<u64>) -> Result<Request, KvError> {
    let key = Key::parse(alloc, key)?;
    Ok(Request::Purge { key, last })
}
