//! Requests, filters and calls by what is asked.

use super::*;

const LARGEST_VALUE: usize = 1_048_576;

fn longest_key(alloc: Global) -> Result<Key, KvError> {
    let mut text = String::new(alloc);
    for _ in 0..255 {
        text.push_str("k")?;
    }
    Key::parse(alloc, &text)
}

fn put_longest(alloc: Global) -> Result<Request, KvError> {
    let value = vec![in alloc; 7u8; LARGEST_VALUE]?;
    Ok(Request::Put {
        key: longest_key(alloc)?,
        value,
    })
}

fn create(alloc: Global, key: &str) -> Result<Request, KvError> {
    Ok(Request::Create {
        key: Key::parse(alloc, key)?,
        value: Vec::new(alloc),
    })
}

// The request of a write. Other asks are none.
pub(super) fn request(alloc: Global, ask: Ask) -> Result<Option<Request>, KvError> {
    match ask {
        Ask::Put(key, value) => Ok(Some(put(alloc, key, value)?)),
        Ask::PutLongest => Ok(Some(put_longest(alloc)?)),
        Ask::Create(key) => Ok(Some(create(alloc, key)?)),
        Ask::Delete(key) => Ok(Some(delete(alloc, key, None)?)),
        Ask::Purge(key, last) => Ok(Some(purge(alloc, key, Some(last))?)),
        _ => Ok(None),
    }
}

pub(super) fn one(alloc: Global, text: &str) -> Result<Filters, KvError> {
    let filter = Filter::parse(alloc, text)?;
    Filters::one(alloc, &filter)
}

fn other_call(alloc: Global, ask: Ask) -> Result<Call, KvError> {
    match ask {
        Ask::Get(key) => Ok(Call::Get(Key::parse(alloc, key)?)),
        Ask::GetAt(key, revision) => Ok(Call::GetAt(Key::parse(alloc, key)?, revision)),
        Ask::History(key) => Ok(Call::History(Key::parse(alloc, key)?)),
        Ask::Keys(filters) => Ok(Call::Keys(Filters::parse(alloc, filters)?)),
        Ask::Watch(filters) => Ok(Call::Watch(Filters::parse(alloc, filters)?, LATEST)),
        Ask::WatchOne(filter) => Ok(Call::Watch(one(alloc, filter)?, LATEST)),
        Ask::Take(watch) => Ok(Call::Take(watch)),
        Ask::Stop(watch) => Ok(Call::Stop(watch)),
        Ask::Compact(floor) => Ok(Call::Compact(floor)),
        Ask::Seal => Ok(Call::Seal),
        _ => Ok(Call::Status),
    }
}

// The call of an ask, for a run.
pub(super) fn call(alloc: Global, ask: Ask) -> Result<Call, KvError> {
    match request(alloc, ask)? {
        Some(request) => Ok(Call::Write(request)),
        None => other_call(alloc, ask),
    }
}
