//! Versions of a bucket, and what they store.

ghost use Rattle.std.specs.Prelude.{◌≡◌, ◌<◌, ◌^◌, ◌==◌, ◌∷◌, ◌++◌, ℕ, [], List, true, length, IfErr, IfOk};
ghost use Rattle.std.specs.Map.{lookup};
ghost use Rattle.std.specs.Option.{option_copied, option_map};
ghost use Rattle.std.specs.Str.{bytes_eq};
ghost use Rattle.kv_keys.specs.Outcome.{Refuses};
ghost use Rattle.kv_keys.specs.declared.error.KvError.TheVariants.{OutOfMemory};
ghost use Rattle.kv_model.specs.Acts.{Act, Seal, floor_of, is_sealed, writes_of};
ghost use Rattle.kv_model.specs.Configuration.{configure};
ghost use Rattle.kv_model.specs.Reads.{unless_empty, write_at_of};
ghost use Rattle.kv_model.specs.Retained.{kept, last_write, revisions};
ghost use Rattle.kv_store.specs.Standing.{StandsFor};
ghost use Rattle.kv_store.specs.Stored.{kept_at, last_at, write_at};

use crate::key_history::{KeyHistory, last_of};
use crate::rev::Rev;
use arrayvec::ArrayString;
use kv_keys::{Key, KvError};
use kv_model::{Config, Write};
use kv_trie::Trie;
use std::alloc::{AllocError, Global};
use std::marker::Model;
use std::sync::Arc;

/// A version of a bucket. `apply`, `seal` and `compact` make another one, which shares what both have, and leave this
/// one as it is; `write` and `compact_in_place` change this one, and no other.
///
/// Contracts see what it stores, and say which lists of accepted acts that stands for.
pub struct Version {
    pub(crate) inner: Arc<Inner>,
}

// Field by field: a derived drop makes each proof longer that owns one.
impl Drop for Version {
    fn drop(self) {
        let Self { inner: _ } = self;
    }
}

impl Model for Version {
    ghost use Rattle.kv_store.specs.Stored.{Stored};

    ghost Value = { Stored };

    ghost use Rattle.std.specs.Arc.{arc_value};
    ghost use Rattle.kv_store.specs.inside.Bounds.{IsBounded};
    ghost use Rattle.kv_store.specs.inside.Fields.{stored_of};

    ghost view = { λ v. stored_of (arc_value v.inner) };

    ghost invariant = { λ v. IsBounded (stored_of (arc_value v.inner)) };
}

impl Version {
    ghost use Rattle.kv_store.specs.inside.Bounds.{IsBounded};
    ghost use Rattle.kv_store.specs.inside.Fields.{kept_entries, last_entries, stored_of};

    /// The version of a new bucket: no write, not sealed. The name is checked before the numbers, and both before any
    /// request for memory.
    pub fn empty(alloc: Global, config: &Config) -> Result<Version, KvError>
        ensures ok { IfOk result (λ version. (version.config ≡ config.now) × StandsFor [] version) }
        ensures refused { IfErr result (λ e. Refuses e (configure config.now)) }
    {
        config.check()?;
        let Ok(name) = ArrayString::from(config.bucket.as_str()) else {
            unreachable!()
        };
        let inner = Inner {
            name,
            history: config.history,
            value_limit: config.value_limit,
            write_limit: config.write_limit,
            revision_limit: config.revision_limit,
            by_key: Trie::new(),
            by_revision: Trie::new(),
            last: 0,
            values: 0,
            floor: 0,
            sealed: false,
        };
        Ok(Version::of(alloc, inner)?)
    }

    // The version that has these parts.
    pub(crate) fn of(alloc: Global, inner: Inner) -> Result<Version, AllocError>
        requires { IsBounded (stored_of inner) }
        ensures { IfOk result (λ version. version ≡ stored_of inner) }
    {
        Ok(Version {
            inner: Arc::new(alloc, inner)?,
        })
    }

    /// An equal version, which shares everything, at once at every size. It is refused only where something is shared
    /// as often as can be counted.
    pub fn snapshot(&self) -> Result<Version, KvError>
        ensures ok { IfOk result (λ version. version ≡ self.now) }
        ensures stands { IfOk result (λ version. (acts : List Act) → StandsFor acts self.now → StandsFor acts version) }
        ensures err { IfErr result (λ e. e ≡ OutOfMemory) }
    {
        Ok(Version {
            inner: Arc::try_clone(&self.inner)?,
        })
    }

    /// The sealed version, which refuses writes. A version that is sealed already is so again.
    pub fn seal(&self, alloc: Global) -> Result<Version, KvError>
        ensures ok { IfOk result (λ version. version ≡ record self.now { sealed = true }) }
        ensures stands { IfOk result
            (λ version. (acts : List Act) → StandsFor acts self.now → StandsFor (acts ++ Seal ∷ []) version) }
        ensures err { IfErr result (λ e. e ≡ OutOfMemory) }
    {
        let mut inner = (*self.inner).clone()?;
        inner.sealed = true;
        Ok(Version::of(alloc, inner)?)
    }

    /// The bucket's name.
    pub fn bucket(&self) -> &str
        ensures { result.now ≡ self.now.config.bucket }
    {
        self.inner.name.as_str()
    }

    /// The last revision, 0 where nothing was written.
    pub fn revision(&self) -> u64
        ensures value { result ≡ self.now.last }
        ensures small { result < 2 ^ 32 }
        ensures acts { (acts : List Act) → StandsFor acts self.now → result ≡ length (writes_of acts) }
    {
        self.inner.last
    }

    /// The floor of the last compaction, 0 where there was none.
    pub fn floor(&self) -> u64
        ensures value { result ≡ self.now.floor }
        ensures acts { (acts : List Act) → StandsFor acts self.now → result ≡ floor_of acts }
    {
        self.inner.floor
    }

    /// Whether writes have ended.
    pub fn sealed(&self) -> bool
        ensures value { result ≡ self.now.sealed }
        ensures acts { (acts : List Act) → StandsFor acts self.now → result ≡ is_sealed acts }
    {
        self.inner.sealed
    }

    /// Of each key what is stored of it: the revisions that are kept of it, in order, and its last write.
    pub fn by_key(&self) -> &Trie<Key, KeyHistory>
        ensures value { kept_entries result.now ≡ self.now.by_key }
        ensures last_value { last_entries result.now ≡ self.now.last_by_key }
        ensures acts { (acts : List Act) → StandsFor acts self.now → (key : List ℕ) →
            lookup (λ k. bytes_eq key k) (kept_entries result.now)
            ≡ unless_empty (revisions (kept self.now.config.history key acts)) }
        ensures last { (acts : List Act) → StandsFor acts self.now → (key : List ℕ) →
            lookup (λ k. bytes_eq key k) (last_entries result.now) ≡ last_write key acts }
    {
        &self.inner.by_key
    }

    /// Of each revision the write that is stored of it.
    pub fn by_revision(&self) -> &Trie<Rev, Write>
        ensures value { result.now ≡ self.now.by_revision }
        ensures acts { (acts : List Act) → StandsFor acts self.now → (revision : ℕ) →
            lookup (λ r. revision == r) result.now ≡ write_at_of self.now.config.history revision acts }
    {
        &self.inner.by_revision
    }

    // What is stored of the key.
    pub(crate) fn of_key(&self, key: &Key) -> Option<&KeyHistory>
        ensures kept { option_map (λ k. k.revisions) (option_copied result) ≡ kept_at key.now self.now }
        ensures last { option_map (λ k. k.last) (option_copied result) ≡ last_at key.now self.now }
    {
        self.inner.by_key.get(key)
    }

    /// The revisions that are kept of the key, in order. It takes no memory.
    pub fn kept_at(&self, key: &Key) -> Option<&[u64]>
        ensures { option_copied result ≡ kept_at key.now self.now }
    {
        match self.of_key(key) {
            Some(kept) => Some(kept.revisions()),
            None => None,
        }
    }

    /// The last write of the key, put or marker; none where it was never written, or was cleared and not written since.
    /// It looks into the trie of keys alone, and takes no memory.
    pub fn last_write(&self, key: &Key) -> Option<&Write>
        ensures value { option_copied result ≡ last_at key.now self.now }
        ensures acts { (acts : List Act) → StandsFor acts self.now → option_copied result ≡ last_write key.now acts }
    {
        last_of(self.of_key(key))
    }

    /// The write that is stored of the revision, retained or not. It takes no memory.
    pub fn write_at(&self, revision: u64) -> Option<&Write>
        ensures value { option_copied result ≡ write_at revision self.now }
        ensures acts { (acts : List Act) → StandsFor acts self.now →
            option_copied result ≡ write_at_of self.now.config.history revision acts }
    {
        if revision > self.inner.last {
            return None;
        }
        self.inner.by_revision.get(&Rev::new(revision as u32))
    }
}

/// What a version stores. Its snapshots have this in common with it, until one of them is changed.
pub struct Inner {
    pub name: ArrayString<64>,
    pub history: u64,
    pub value_limit: u64,
    pub write_limit: u64,
    pub revision_limit: u64,
    pub by_key: Trie<Key, KeyHistory>,
    pub by_revision: Trie<Rev, Write>,
    /// The last revision.
    pub last: u64,
    /// How many entries are retained.
    pub values: u64,
    /// The floor of the last compaction, 0 where there was none.
    pub floor: u64,
    pub sealed: bool,
}

// Field by field: a derived drop makes each proof longer that owns one.
impl Drop for Inner {
    fn drop(self) {
        let Self {
            name: _,
            history: _,
            value_limit: _,
            write_limit: _,
            revision_limit: _,
            by_key: _,
            by_revision: _,
            last: _,
            values: _,
            floor: _,
            sealed: _,
        } = self;
    }
}

impl Inner {
    /// The same with these tries, which have so many entries and this floor.
    pub fn with(
        &self,
        by_key: Trie<Key, KeyHistory>,
        by_revision: Trie<Rev, Write>,
        values: u64,
        floor: u64,
    ) -> Inner
        ensures { result ≡ record self.now {
          by_key = by_key;
          by_revision = by_revision;
          values = values;
          floor = floor;
        } }
    {
        Inner {
            name: self.name,
            history: self.history,
            value_limit: self.value_limit,
            write_limit: self.write_limit,
            revision_limit: self.revision_limit,
            by_key,
            by_revision,
            last: self.last,
            values,
            floor,
            sealed: self.sealed,
        }
    }
}

/// The copy shares all nodes of both tries.
impl Clone for Inner {
    ghost is_clone = { λ inner copy. copy ≡ inner };

    fn clone(&self) -> Result<Inner, AllocError> {
        let by_key = self.by_key.snapshot().map_err(|_| AllocError)?;
        let by_revision = self.by_revision.snapshot().map_err(|_| AllocError)?;
        Ok(self.with(by_key, by_revision, self.values, self.floor))
    }
}
