//! Maps of std under a lock, as a user would take them.

use crate::sides::{Copies, Gets, Named, Puts};
use kv_gauge::fault::Fault;
use kv_gauge::keys::{VALUE, index, text};
use std::alloc::Global;
use std::collections::{BTreeMap, HashMap};
use std::sync::{RwLock, Wait};

/// A map from texts to values.
pub trait Table: Sized + Drop {
    /// Its name.
    const NAME: &'static str;

    /// No keys.
    fn empty(alloc: Global) -> Self;

    /// Puts a value.
    fn put(&mut self, key: String, value: Vec<u8>) -> Result<(), Fault>;

    /// The value of a key.
    fn value(&self, key: &str) -> Option<&Vec<u8>>;

    /// How many bytes the value of a key has; 0 where there is none.
    fn bytes(&self, key: &str) -> usize {
        match self.value(key) {
            Some(value) => value.len(),
            None => 0,
        }
    }

    /// How many keys a copy of all keys and values has.
    fn copied(&self) -> Result<usize, Fault>;
}

impl Table for HashMap<String, Vec<u8>> {
    const NAME: &'static str = "HashMap under RwLock";

    fn empty(alloc: Global) -> Self {
        HashMap::new(alloc)
    }

    fn put(&mut self, key: String, value: Vec<u8>) -> Result<(), Fault> {
        self.insert(key, value)?;
        Ok(())
    }

    fn value(&self, key: &str) -> Option<&Vec<u8>> {
        self.get(key)
    }

    fn copied(&self) -> Result<usize, Fault> {
        let copy = self.clone()?;
        Ok(copy.len())
    }
}

impl Table for BTreeMap<String, Vec<u8>> {
    const NAME: &'static str = "BTreeMap under RwLock";

    fn empty(alloc: Global) -> Self {
        BTreeMap::new(alloc)
    }

    fn put(&mut self, key: String, value: Vec<u8>) -> Result<(), Fault> {
        self.insert(key, value)?;
        Ok(())
    }

    fn value(&self, key: &str) -> Option<&Vec<u8>> {
        self.get(key)
    }

    fn copied(&self) -> Result<usize, Fault> {
        let copy = self.clone()?;
        Ok(copy.len())
    }
}

/// A map with so many keys.
pub fn filled<T: Table>(alloc: Global, keys: usize) -> Result<T, Fault> {
    let mut table = T::empty(alloc);
    for number in 0..keys {
        table.put(text(alloc, number)?, Vec::from_slice(alloc, VALUE)?)?;
    }
    Ok(table)
}

/// The texts of keys that are asked for, spread over so many.
pub fn texts(alloc: Global, count: usize, asked: usize) -> Result<Vec<String>, Fault> {
    let mut texts = Vec::new(alloc);
    for turn in 0..asked {
        texts.push(text(alloc, index(turn, count))?)?;
    }
    Ok(texts)
}

/// A map under a lock, and the keys that are asked for.
#[derive(Drop)]
pub struct Locked<'a, T> {
    pub alloc: Global,
    pub lock: &'a RwLock<T>,
    pub texts: &'a [String],
}

impl<'a, T: Table> Named for Locked<'a, T> {
    const NAME: &'static str = T::NAME;
}

impl<'a, T: Table> Gets for Locked<'a, T> {
    fn get<R: Wait>(&mut self, rt: &R, index: usize) -> Result<usize, Fault> {
        let Some(text) = self.texts.get(index) else {
            return Ok(0);
        };
        Ok(self.lock.read(rt).bytes(text.as_str()))
    }
}

impl<'a, T: Table> Puts for Locked<'a, T> {
    // The key and the value are copied before the lock is taken.
    fn put<R: Wait>(&mut self, rt: &R, index: usize) -> Result<(), Fault> {
        let Some(text) = self.texts.get(index) else {
            return Ok(());
        };
        let key = text.clone()?;
        let value = Vec::from_slice(self.alloc, VALUE)?;
        self.lock.write(rt).put(key, value)
    }

    fn finish(self) {}
}

impl<'a, T: Table> Copies for Locked<'a, T> {
    fn copy<R: Wait>(&mut self, rt: &R) -> Result<u64, Fault> {
        let keys = self.lock.read(rt).copied()?;
        Ok(keys as u64)
    }
}
