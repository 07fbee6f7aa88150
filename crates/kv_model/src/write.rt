//! Accepted writes.

ghost use Rattle.std.specs.Prelude.{◌≡◌, IfErr, IfOk};
ghost use Rattle.kv_keys.specs.declared.error.KvError.TheVariants.{OutOfMemory};
ghost use Rattle.kv_model.specs.Acts.{is_put, is_purge};

use kv_keys::{Key, KvError};
use smallvec::SmallVec;
use std::alloc::Global;
use std::marker::Model;

/// How many bytes of a value lie in the write itself.
const MOST_INSIDE: usize = 24;

/// What a write does to its key.
#[derive(Clone, Copy, Debug, PartialEq, Eq)]
pub enum Op {
    /// Gives it a value.
    Put,
    /// Writes a marker that it has none, and keeps earlier entries within the history.
    Delete,
    /// Writes such a marker, and removes all earlier entries.
    Purge,
}

impl Op {
    /// Whether it gives a value; else it is a marker.
    pub fn is_put(self) -> bool
        ensures { result ≡ is_put self }
    {
        match self {
            Op::Put => true,
            Op::Delete => false,
            Op::Purge => false,
        }
    }

    /// Whether it removes earlier entries.
    pub fn is_purge(self) -> bool
        ensures { result ≡ is_purge self }
    {
        match self {
            Op::Put => false,
            Op::Delete => false,
            Op::Purge => true,
        }
    }
}

/// An accepted write. A value of at most 24 bytes lies in it, so who reads a short one looks nowhere else.
pub struct Write {
    key: Key,
    op: Op,
    value: SmallVec<u8, MOST_INSIDE>,
    revision: u64,
}

// Field by field: a derived drop makes each proof longer that owns one.
impl Drop for Write {
    fn drop(self) {
        let Self {
            key: _,
            op: _,
            value: _,
            revision: _,
        } = self;
    }
}

impl Model for Write {
    ghost use Rattle.kv_model.specs.Acts.{Write};

    ghost Value = { Write };

    ghost view = { λ w. record { key = w.key; op = w.op; value = w.value.items; revision = w.revision } };
}

impl Write {
    /// A write by its parts, with its own copy of the value. It asks for memory only where that has more than 24 bytes.
    pub fn new(
        alloc: Global,
        key: Key,
        op: Op,
        value: &[u8],
        revision: u64,
    ) -> Result<Write, KvError>
        ensures ok { IfOk result
            (λ write. write ≡ record { key = key; op = op; value = value.now; revision = revision }) }
        ensures err { IfErr result (λ e. e ≡ OutOfMemory) }
    {
        let value = SmallVec::from_slice(alloc, value)?;
        Ok(Write {
            key,
            op,
            value,
            revision,
        })
    }

    /// The key that was written.
    pub fn key(&self) -> &Key
        ensures { result.now ≡ self.now.key }
    {
        &self.key
    }

    /// What the write did.
    pub fn op(&self) -> Op
        ensures { result ≡ self.now.op }
    {
        self.op
    }

    /// The value, empty for a marker.
    pub fn value(&self) -> &[u8]
        ensures { result.now ≡ self.now.value }
    {
        self.value.as_slice()
    }

    /// The sequence number of the write, from 1.
    pub fn revision(&self) -> u64
        ensures { result ≡ self.now.revision }
    {
        self.revision
    }
}
