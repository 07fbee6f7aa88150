//! Tests of names by texts from outside: published hashes, NATS ADR-8's rules, and the worked rows of the bucket.

use crate::equal::equal;
use kv_keys::{Filter, Filters, Key, KvError, Place, Short, fnv32, is_name};
use kv_test_tools::once_more;
use std::alloc::{AllocError, Global};
use std::process::Abort;
use std::test::Fail;

mod faults;
mod places;
mod refusals;
mod values;
mod wildcards;

// What is made of a text: keys, filters and lists of filters.
trait Parsed: Drop {
    fn parsed(alloc: Global, text: &str) -> Result<Self, KvError>;

    fn copied(&self, alloc: Global) -> Result<Self, KvError>;

    fn text(&self) -> &str;
    // How many filters it is.
    fn filters(&self) -> u64;
}

impl Parsed for Key {
    fn parsed(alloc: Global, text: &str) -> Result<Key, KvError> {
        Key::parse(alloc, text)
    }

    fn copied(&self, alloc: Global) -> Result<Key, KvError> {
        self.copy(alloc)
    }

    fn text(&self) -> &str {
        self.as_str()
    }

    fn filters(&self) -> u64 {
        1
    }
}

impl Parsed for Filter {
    fn parsed(alloc: Global, text: &str) -> Result<Filter, KvError> {
        Filter::parse(alloc, text)
    }

    fn copied(&self, alloc: Global) -> Result<Filter, KvError> {
        self.copy(alloc)
    }

    fn text(&self) -> &str {
        self.as_str()
    }

    fn filters(&self) -> u64 {
        1
    }
}

impl Parsed for Filters {
    fn parsed(alloc: Global, text: &str) -> Result<Filters, KvError> {
        Filters::parse(alloc, text)
    }

    fn copied(&self, alloc: Global) -> Result<Filters, KvError> {
        self.copy(alloc)
    }

    fn text(&self) -> &str {
        self.as_str()
    }

    fn filters(&self) -> u64 {
        self.count()
    }
}

fn made<T: Parsed>(alloc: Global, text: &str) -> Result<T, KvError> {
    once_more!(T::parsed(alloc, text))
}

// `count` times `part` behind `start`, and then `end`.
#[derive(Clone, Copy)]
struct Repeated {
    start: &'static str,
    part: &'static str,
    count: u64,
    end: &'static str,
}

fn text_once(alloc: Global, repeated: Repeated) -> Result<String, AllocError> {
    let mut text = String::new(alloc);
    text.push_str(repeated.start)?;
    for _ in 0..repeated.count {
        text.push_str(repeated.part)?;
    }
    text.push_str(repeated.end)?;
    Ok(text)
}

fn text_of(alloc: Global, repeated: Repeated) -> Result<String, AllocError> {
    once_more!(text_once(alloc, repeated))
}
