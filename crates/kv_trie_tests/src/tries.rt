//! Tests of a trie at the keys of a bucket. Each also passes where any one request for memory is refused: then the trie
//! is as it was, and the same call, made again, goes on.

ghost use Rattle.std.specs.Prelude.{◌<◌, ◌^◌, ◌-◌, length, OnOk};

use crate::equal::equal;
use kv_keys::{Key, KvError, Place, Short};
use kv_test_tools::once_more;
use kv_trie::{Node, Trie, Visit, Wants};
use std::alloc::Global;
use std::process::Abort;
use std::test::Fail;

mod both;
mod driving;
mod forms;
mod one_place;
mod retained;
mod steps;
mod walks;

// What is done to a trie.
#[derive(Clone, Copy)]
enum Step {
    Put(&'static str, u32),
    Remove(&'static str),
}

// A step, and how many keys there are then.
type Row = (Step, u64);

// More entries than any test has.
const MANY: u64 = 2000;

// A trie whose values are numbers.
type Numbers<K> = Trie<K, u32>;

// Keys that are made from a text.
trait Named: Place + Drop {
    fn named(alloc: Global, text: &str) -> Result<Self, KvError>;
}

impl Named for Key {
    fn named(alloc: Global, text: &str) -> Result<Key, KvError> {
        Key::parse(alloc, text)
    }
}

impl Named for Short {
    // The copy of a key.
    fn named(alloc: Global, text: &str) -> Result<Short, KvError> {
        let key = Key::parse(alloc, text)?;
        Ok(Short(key.copy(alloc)?))
    }
}

// The key of a text, for a trie that has room for one more.
fn key_with_room<K: Named>(alloc: Global, trie: &Numbers<K>, text: &str) -> Result<K, KvError>
    ensures { OnOk result (length trie.now < 2 ^ 32 - 1) }
{
    let key = K::named(alloc, text)?;
    if trie.len() < MANY {
        Ok(key)
    } else {
        Err(KvError::JournalFull)
    }
}

fn inserted<K: Named>(
    alloc: Global,
    trie: &Numbers<K>,
    text: &str,
    value: u32,
) -> Result<Numbers<K>, KvError> {
    let key = key_with_room(alloc, trie, text)?;
    trie.insert(alloc, key, value)
}

fn put<K: Named>(
    alloc: Global,
    trie: &mut Numbers<K>,
    text: &str,
    value: u32,
) -> Result<(), KvError> {
    let key = key_with_room(alloc, &*trie, text)?;
    trie.put(alloc, key, value)
}

fn removed<K: Named>(alloc: Global, trie: &Numbers<K>, text: &str) -> Result<Numbers<K>, KvError> {
    trie.remove(alloc, &K::named(alloc, text)?)
}

fn discard<K: Named>(alloc: Global, trie: &mut Numbers<K>, text: &str) -> Result<(), KvError> {
    trie.discard(alloc, &K::named(alloc, text)?)
}

// The trie of these names and values, built apart from every other.
fn built<K: Named>(alloc: Global, pairs: &[(&str, u32)]) -> Result<Numbers<K>, KvError> {
    let mut trie = Trie::new();
    for (text, value) in pairs {
        once_more!(put(alloc, &mut trie, text, *value))?;
    }
    Ok(trie)
}

// Both tries have the same keys in the same form, with the same values.
fn are_same<K: Named>(rt: &impl Abort, trie: &Numbers<K>, other: &Numbers<K>) {
    assert!(rt; trie.same_form(other));
    equal(rt, trie.len(), other.len());
    equal(rt, walks::sum(trie), walks::sum(other));
}
