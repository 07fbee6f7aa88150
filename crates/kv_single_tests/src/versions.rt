//! Tests of versions by worked rows. Each also passes where any one request for memory is refused: then what was named
//! is as it was, and the same call, made again, goes on.

use crate::equal::equal;
use crate::limits::{DEFAULTS, Limits, empty, keeping, limited};
use kv_keys::{Key, KvError};
use kv_model::{Config, Op, Request, Start, Status, Write};
use kv_store::Version;
use kv_test_tools::once_more;
use std::alloc::Global;
use std::process::Abort;
use std::test::Fail;

mod at_once;
mod compacted;
mod configuration;
mod driving;
mod facts;
mod limits;
mod listed;
mod parts;
mod ring;
mod rows;

use driving::holds;
use facts::Fact;

// What is asked of a key. A seal and a compaction to a floor are asked of no key: in their rows it is empty.
#[derive(Clone, Copy)]
enum Ask {
    Put(&'static str),
    // A put of so many bytes that are 0.
    Zeros(usize),
    Create(&'static str),
    Update(&'static str, u64),
    Delete(Option<u64>),
    Purge(Option<u64>),
    Seal,
    Compact(u64),
}

// A key, what is asked of it, and the answer: the last revision then, or why it is refused.
type Row = (&'static str, Ask, Result<u64, KvError>);

fn value_of(alloc: Global, ask: Ask) -> Result<Vec<u8>, KvError> {
    match ask {
        Ask::Put(value) | Ask::Create(value) | Ask::Update(value, _) => {
            Ok(Vec::from_slice(alloc, value.as_bytes())?)
        }
        Ask::Zeros(size) => Ok(vec![in alloc; 0; size]?),
        _ => Ok(Vec::new(alloc)),
    }
}

fn request_of(key: Key, value: Vec<u8>, ask: Ask) -> Request {
    match ask {
        Ask::Create(_) => Request::Create { key, value },
        Ask::Update(_, last) => Request::Update { key, value, last },
        Ask::Delete(last) => Request::Delete { key, last },
        Ask::Purge(last) => Request::Purge { key, last },
        _ => Request::Put { key, value },
    }
}

fn request(alloc: Global, text: &str, ask: Ask) -> Result<Request, KvError> {
    let value = value_of(alloc, ask)?;
    let key = Key::parse(alloc, text)?;
    Ok(request_of(key, value, ask))
}
