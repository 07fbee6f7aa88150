//! Reads of a version: its status, the latest entry of a key, the one of a revision, and the history of a key.

ghost use Rattle.std.specs.Prelude.{◌≡◌, ◌==◌, ℕ, List, [], length, unwrap_or, IfErr, MatchResult, Some, map, take, IfOk};
ghost use Rattle.std.specs.List.{find, list_any, filter_map};
ghost use Rattle.std.specs.Option.{option_and_then, option_copied, ok_or};
ghost use Rattle.kv_keys.specs.declared.error.KvError.TheVariants.{KeyNotFound};
ghost use Rattle.kv_keys.specs.Outcome.{Refuses};
ghost use Rattle.kv_model.specs.Acts.{Act};
ghost use Rattle.kv_model.specs.Compaction.{stored_writes};
ghost use Rattle.kv_model.specs.Reads.{get_at_of, get_of, if_put, status_of, history_of};
ghost use Rattle.kv_model.specs.Retained.{kept};
ghost use Rattle.kv_store.specs.inside.Next.{kept_before};
ghost use Rattle.kv_store.specs.Standing.{StandsFor};
ghost use Rattle.kv_store.specs.Stored.{write_at};

use crate::key_history::is_kept_of;
use crate::version::Version;
use kv_keys::{Key, KvError};
use kv_model::{Status, Write};
use std::alloc::{AllocError, Global};

fn if_put(write: Option<&Write>) -> Result<&Write, KvError>
    ensures { MatchResult result
        (λ w. option_and_then if_put (option_copied write.entry) ≡ Some w.now)
        (λ e. (e ≡ KeyNotFound) × (option_and_then if_put (option_copied write.entry) ≡ None)) }
{
    match write {
        Some(write) => {
            if write.op().is_put() {
                Ok(write)
            } else {
                Err(KvError::KeyNotFound)
            }
        }
        None => Err(KvError::KeyNotFound),
    }
}

impl Version {
    // How many writes are stored.
    pub(crate) fn stored(&self) -> u64
        ensures value { result ≡ length self.now.by_revision }
        ensures acts { (acts : List Act) → StandsFor acts self.now →
            result ≡ length (stored_writes self.now.config.history acts) }
    {
        self.inner.by_revision.len()
    }

    /// The history bound, the last revision, whether writes have ended, and how many writes are stored and how many
    /// entries retained. Nothing is walked.
    pub fn status(&self) -> Status
        ensures value { result ≡ record {
          history = self.now.config.history;
          last = self.now.last;
          sealed = self.now.sealed;
          stored = length self.now.by_revision;
          values = self.now.values;
        } }
        ensures acts { (acts : List Act) → StandsFor acts self.now → result ≡ status_of self.now.config.history acts }
    {
        Status {
            history: self.inner.history,
            last: self.inner.last,
            sealed: self.inner.sealed,
            stored: self.stored(),
            values: self.inner.values,
        }
    }

    /// The latest entry of the key, where it is a put. It takes no memory.
    pub fn get(&self, key: &Key) -> Result<&Write, KvError>
        ensures value { (acts : List Act) → StandsFor acts self.now → MatchResult result
            (λ w. get_of key.now acts ≡ Some w.now)
            (λ e. (e ≡ KeyNotFound) × (get_of key.now acts ≡ None)) }
        ensures err { IfErr result (λ e. e ≡ KeyNotFound) }
    {
        if_put(self.last_write(key))
    }

    fn is_kept(&self, key: &Key, revision: u64) -> bool
        ensures { result ≡ list_any (λ r. r == revision) (kept_before key.now self.now) }
    {
        is_kept_of(&self.inner.by_key, key, revision)
    }

    // The write of the key with the revision, where it is kept.
    fn kept_write(&self, key: &Key, revision: u64) -> Option<&Write>
        ensures { (acts : List Act) → StandsFor acts self.now →
            option_copied result ≡ find (λ w. w.revision == revision) (kept self.now.config.history key.now acts) }
    {
        if self.is_kept(key, revision) {
            self.write_at(revision)
        } else {
            None
        }
    }

    /// The retained entry of the key with the revision, where it is a put. It takes no memory.
    pub fn get_at(&self, key: &Key, revision: u64) -> Result<&Write, KvError>
        ensures value { (acts : List Act) → StandsFor acts self.now → MatchResult result
            (λ w. get_at_of self.now.config.history key.now revision acts ≡ Some w.now)
            (λ e. (e ≡ KeyNotFound) × (get_at_of self.now.config.history key.now revision acts ≡ None)) }
        ensures err { IfErr result (λ e. e ≡ KeyNotFound) }
    {
        if_put(self.kept_write(key, revision))
    }

    // The writes that are stored of these revisions, in this order.
    fn writes_at(&self, alloc: Global, revisions: &[u64]) -> Result<Vec<&Write>, AllocError>
        ensures { IfOk result
            (λ found. map (λ w. w.now) found.items ≡ filter_map (λ r. write_at r self.now) revisions.now) }
    {
        let mut found = Vec::with_capacity(alloc, revisions.len())?;
        for revision in revisions {
            if let Some(write) = self.write_at(*revision) {
                found.push(write)?;
            }
        }
        Ok(found)
    }

    /// The retained entries of the key, markers too, oldest first (NATS ADR-8). Each costs one look-up. A key without
    /// one is refused as `KeyNotFound`, before any request for memory.
    pub fn history(&self, alloc: Global, key: &Key) -> Result<Vec<&Write>, KvError>
        ensures { (acts : List Act) → StandsFor acts self.now →
            MatchResult result
            (λ found. history_of self.now.config.history key.now acts ≡ Some (map (λ w. w.now) found.items))
            (λ e. Refuses e (ok_or (history_of self.now.config.history key.now acts) KeyNotFound)) }
    {
        match self.kept_at(key) {
            Some(revisions) => Ok(self.writes_at(alloc, revisions)?),
            None => Err(KvError::KeyNotFound),
        }
    }
}
