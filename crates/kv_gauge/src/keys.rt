//! The keys and the requests of a measurement.

ghost use Rattle.std.specs.Prelude.{◌<◌};

use crate::fault::Fault;
use kv_single::{Filter, Key, Request};
use std::alloc::Global;

/// The value of each put: 16 bytes.
pub const VALUE: &'static [u8] = b"0123456789012345";

// A prime, so that its multiples are spread over all keys.
const STRIDE: usize = 7919;

/// The text of the key of a number. One of a hundred lies below `a`, the others below `b`.
pub fn text(alloc: Global, number: usize) -> Result<String, Fault> {
    let room = if number % 100 == 0 { "a" } else { "b" };
    let text = format!(in alloc; "{room}.{number}")?;
    Ok(text)
}

/// The key of a number.
pub fn key(alloc: Global, number: usize) -> Result<Key, Fault> {
    let text = text(alloc, number)?;
    let key = Key::parse(alloc, text.as_str())?;
    Ok(key)
}

/// The keys that are made of the numbers from one on, up to another.
pub fn keys_by<F: FnMut(usize) -> Result<Key, Fault>>(
    alloc: Global,
    from: usize,
    to: usize,
    key: F,
) -> Result<Vec<Key>, Fault>
    requires { F.IsAlwaysCallable key }
{
    let mut key = key;
    let mut keys = Vec::new(alloc);
    for number in from..to {
        keys.push(key(number)?)?;
    }
    Ok(keys)
}

/// The keys of the numbers from one on, up to another.
pub fn keys(alloc: Global, from: usize, to: usize) -> Result<Vec<Key>, Fault> {
    keys_by(alloc, from, to, |number| key(alloc, number))
}

/// A number among so many, spread over them.
pub fn index(turn: usize, count: usize) -> usize
    ensures { 0 < count → result < count }
{
    if count == 0 {
        return 0;
    }
    turn.wrapping_mul(STRIDE) % count
}

/// Some keys among so many, spread over them, in the order in which they are asked for.
pub fn spread(alloc: Global, count: usize, asked: usize) -> Result<Vec<Key>, Fault> {
    keys_by(alloc, 0, asked, |turn| key(alloc, index(turn, count)))
}

/// A put of these bytes to a key.
pub fn put_of(alloc: Global, key: &Key, bytes: &[u8]) -> Result<Request, Fault> {
    let key = key.copy(alloc)?;
    let value = Vec::from_slice(alloc, bytes)?;
    Ok(Request::Put { key, value })
}

/// A put to a key.
pub fn put(alloc: Global, key: &Key) -> Result<Request, Fault> {
    put_of(alloc, key, VALUE)
}

/// A delete of a key.
pub fn delete(alloc: Global, key: &Key) -> Result<Request, Fault> {
    let key = key.copy(alloc)?;
    Ok(Request::Delete { key, last: None })
}

/// What is asked of each key.
pub fn requests_of<F: FnMut(&Key) -> Result<Request, Fault>>(
    alloc: Global,
    keys: &[Key],
    ask: F,
) -> Result<Vec<Request>, Fault>
    requires { F.IsAlwaysCallable ask }
{
    let mut ask = ask;
    let mut requests = Vec::new(alloc);
    for key in keys {
        requests.push(ask(key)?)?;
    }
    Ok(requests)
}

/// A put to each key.
pub fn puts(alloc: Global, keys: &[Key]) -> Result<Vec<Request>, Fault> {
    requests_of(alloc, keys, |key| put(alloc, key))
}

/// A delete of each key.
pub fn deletes(alloc: Global, keys: &[Key]) -> Result<Vec<Request>, Fault> {
    requests_of(alloc, keys, |key| delete(alloc, key))
}

fn add_filter(alloc: Global, filters: &mut Vec<Filter>, text: &str) -> Result<(), Fault> {
    filters.push(Filter::parse(alloc, text)?)?;
    Ok(())
}

/// The filter of a text, alone.
pub fn one_filter(alloc: Global, text: &str) -> Result<Vec<Filter>, Fault> {
    let mut filters = Vec::new(alloc);
    add_filter(alloc, &mut filters, text)?;
    Ok(filters)
}

/// A filter for each key, which matches that key alone.
pub fn filters_of(alloc: Global, keys: &[Key]) -> Result<Vec<Filter>, Fault> {
    let mut filters = Vec::new(alloc);
    for key in keys {
        add_filter(alloc, &mut filters, key.as_str())?;
    }
    Ok(filters)
}
