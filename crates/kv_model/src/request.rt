//! Writes that are asked for.

ghost use Rattle.std.specs.Prelude.{◌≡◌, IfErr, IfOk, IsTrue};
ghost use Rattle.kv_keys.specs.Grammar.{is_key};
ghost use Rattle.kv_keys.specs.declared.error.KvError.TheVariants.{OutOfMemory};
ghost use Rattle.kv_model.specs.Requests.{asked, key_of, op_of, value_of, write_for};

use crate::write::{Op, Write};
use kv_keys::{Key, KvError};
use std::alloc::Global;

/// A write that is asked for.
#[derive(Drop)]
pub enum Request {
    /// The key is to have this value.
    Put { key: Key, value: Vec<u8> },
    /// The same, where the key has no value now.
    Create { key: Key, value: Vec<u8> },
    /// The same, where `last` is the key's last revision, 0 where it was never written.
    Update { key: Key, value: Vec<u8>, last: u64 },
    /// The key is to have no value; with `last`, only where that is the key's last revision.
    Delete { key: Key, last: Option<u64> },
    /// The same, and its earlier entries are to go.
    Purge { key: Key, last: Option<u64> },
}

impl Request {
    /// The key that is to be written.
    pub fn key(&self) -> &Key
        ensures { result.now ≡ key_of (asked self.now) }
    {
        match self {
            Request::Put { key, .. } => key,
            Request::Create { key, .. } => key,
            Request::Update { key, .. } => key,
            Request::Delete { key, .. } => key,
            Request::Purge { key, .. } => key,
        }
    }

    /// The value that the key is to have, empty for a marker.
    pub fn value(&self) -> &[u8]
        ensures { result.now ≡ value_of (asked self.now) }
    {
        match self {
            Request::Put { value, .. } => value,
            Request::Create { value, .. } => value,
            Request::Update { value, .. } => value,
            Request::Delete { .. } => &[],
            Request::Purge { .. } => &[],
        }
    }

    /// What the write is to do.
    pub fn op(&self) -> Op
        ensures { result ≡ op_of (asked self.now) }
    {
        match self {
            Request::Put { .. } => Op::Put,
            Request::Create { .. } => Op::Put,
            Request::Update { .. } => Op::Put,
            Request::Delete { .. } => Op::Delete,
            Request::Purge { .. } => Op::Purge,
        }
    }

    /// The write that is asked for, at a revision, with its own copies of the key and the value.
    pub fn write(&self, alloc: Global, revision: u64) -> Result<Write, KvError>
        ensures ok { IfOk result (λ w. w ≡ write_for (asked self.now) revision) }
        ensures key { IfOk result (λ w. IsTrue (is_key w.key)) }
        ensures err { IfErr result (λ e. e ≡ OutOfMemory) }
    {
        let key = self.key().copy(alloc)?;
        Write::new(alloc, key, self.op(), self.value(), revision)
    }
}
