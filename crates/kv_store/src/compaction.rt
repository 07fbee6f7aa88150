//! Compactions make new versions of what they leave of the two tries.

ghost use Rattle.std.specs.Prelude.{◌≡◌, ◌∷◌, ◌++◌, if◌then◌else◌, ◌+◌, ◌<◌, ◌≤◌, ◌^◌, ◌==◌, ℕ, List, [], false, Ok, Err, IfErr, IfOk, OnErr, OnOk, All, length};
ghost use Rattle.std.specs.List.{IsDistinct};
ghost use Rattle.std.specs.Map.{keys_of, lookup};
ghost use Rattle.std.specs.Str.{bytes_eq};
ghost use Rattle.kv_keys.specs.Outcome.{Refuses};
ghost use Rattle.kv_keys.specs.declared.error.KvError.TheVariants.{BadFloor};
ghost use Rattle.kv_model.specs.Acts.{Act, Compact, Write as AWrite};
ghost use Rattle.kv_model.specs.Compaction.{is_bad_floor};
ghost use Rattle.kv_store.specs.inside.Compacted.{IsCompacted, all_kept, left_of, spared};
ghost use Rattle.kv_store.specs.Standing.{StandsFor};
ghost use Rattle.kv_store.specs.inside.Fields.{kept_entries, last_entries};

use crate::key_history::{KeyHistory, is_kept_of};
use crate::rev::Rev;
use crate::version::{Inner, Version};
use kv_keys::{Key, KvError};
use kv_model::Write;
use kv_trie::{Trie, Visit, Wants};
use std::alloc::{AllocError, Global};

impl Version {
    /// Whether the version can't be compacted to the floor: it is 0, above the last revision, or below the floor so
    /// far.
    pub fn is_bad_floor(&self, floor: u64) -> bool
        ensures { (acts : List Act) → StandsFor acts self.now → result ≡ is_bad_floor floor acts }
    {
        floor == 0 || self.inner.last < floor || floor < self.inner.floor
    }

    // The version with what a compaction to the floor leaves.
    fn compacted(&self, alloc: Global, floor: u64) -> Result<Version, AllocError>
        ensures { IfOk result (IsCompacted floor self.now) }
    {
        let inner: &Inner = &self.inner;
        let by_key = uncleared_keys(alloc, &inner.by_key, floor)?;
        let by_revision = left_writes(alloc, &inner.by_revision, &by_key, floor)?;
        let values = kept_count(&by_key)?.min(inner.values);
        Version::of(alloc, inner.with(by_key, by_revision, values, floor))
    }

    /// The version with this floor. A key whose latest entry is a marker at or below the floor is cleared, as if it had
    /// never been written; and of the writes at or below the floor only those stay stored that are retained then. No
    /// revision is used, and a sealed bucket may be compacted. `BadFloor` where the floor is 0, above the last
    /// revision, or below the floor so far; and only then want of memory.
    ///
    /// It looks at each key and at each stored write once, makes anew the nodes above what goes, and shares the rest
    /// with `self`.
    pub fn compact(&self, alloc: Global, floor: u64) -> Result<Version, KvError>
        ensures config { IfOk result (λ next. next.config ≡ self.now.config) }
        ensures ok { IfOk result (λ next. (acts : List Act) → StandsFor acts self.now →
            (is_bad_floor floor acts ≡ false) × StandsFor (acts ++ Compact floor ∷ []) next) }
        ensures refused { IfErr result (λ e. (acts : List Act) → StandsFor acts self.now →
            Refuses e (if is_bad_floor floor acts then Err BadFloor else Ok floor)) }
    {
        if self.is_bad_floor(floor) {
            return Err(KvError::BadFloor);
        }
        let next = self.compacted(alloc, floor)?;
        Ok(next)
    }

    /// Does to this version what `compact` answers in a new one, or changes nothing and answers why.
    pub fn compact_in_place(&mut self, alloc: Global, floor: u64) -> Result<(), KvError>
        ensures config { OnOk result (self.new.config ≡ self.old.config) }
        ensures ok { OnOk result ((acts : List Act) → StandsFor acts self.old →
            (is_bad_floor floor acts ≡ false) × StandsFor (acts ++ Compact floor ∷ []) self.new) }
        ensures refused { IfErr result (λ e. (acts : List Act) → StandsFor acts self.old →
            Refuses e (if is_bad_floor floor acts then Err BadFloor else Ok floor)) }
        ensures unchanged { OnErr result (self.new ≡ self.old) }
    {
        *self = self.compact(alloc, floor)?;
        Ok(())
    }
}

// Asks of a key whether it stays where a version is compacted to the floor.
#[derive(Drop)]
struct Uncleared {
    floor: u64,
}

impl Wants<Key, KeyHistory> for Uncleared {
    ghost use Rattle.std.specs.Prelude.{Some, not};
    ghost use Rattle.kv_store.specs.inside.Compacted.{clears};

    ghost wanted = { λ asker key kept. not (clears asker.floor (Some kept.last)) };

    fn wants(&self, _key: &Key, kept: &KeyHistory) -> bool {
        let last = kept.last();
        last.op().is_put() || last.revision() > self.floor
    }
}

// The keys that a compaction to the floor doesn't clear, each with what is stored of it.
fn uncleared_keys(
    alloc: Global,
    by_key: &Trie<Key, KeyHistory>,
    floor: u64,
) -> Result<Trie<Key, KeyHistory>, AllocError>
    ensures kept { IfOk result (λ left. (key : List ℕ) →
        lookup (λ k. bytes_eq key k) (kept_entries left)
        ≡ spared floor (lookup (λ k. bytes_eq key k) (last_entries by_key.now))
        (lookup (λ k. bytes_eq key k) (kept_entries by_key.now))) }
    ensures last { IfOk result (λ left. (key : List ℕ) →
        lookup (λ k. bytes_eq key k) (last_entries left)
        ≡ spared floor (lookup (λ k. bytes_eq key k) (last_entries by_key.now))
        (lookup (λ k. bytes_eq key k) (last_entries by_key.now))) }
    ensures len { IfOk result (λ left. length (kept_entries left) ≤ length (kept_entries by_key.now)) }
{
    let uncleared = Uncleared { floor };
    by_key.retain(alloc, &uncleared).map_err(|_| AllocError)
}

// Asks of a write whether it stays where a version is compacted to the floor, and these keys are not cleared.
#[derive(Drop)]
struct Left<'t> {
    by_key: &'t Trie<Key, KeyHistory>,
    floor: u64,
}

impl<'t> Wants<Rev, Write> for Left<'t> {
    ghost use Rattle.kv_store.specs.inside.Compacted.{is_left};
    ghost use Rattle.kv_store.specs.inside.Fields.{kept_entries};

    ghost wanted = { λ asker revision write. is_left asker.floor (kept_entries asker.by_key.now) revision write };

    fn wants(&self, revision: &Rev, write: &Write) -> bool {
        let revision = revision.number() as u64;
        revision > self.floor || is_kept_of(self.by_key, write.key(), revision)
    }
}

// Those of the writes that a compaction to the floor leaves, where these are the keys that it doesn't clear.
fn left_writes(
    alloc: Global,
    by_revision: &Trie<Rev, Write>,
    by_key: &Trie<Key, KeyHistory>,
    floor: u64,
) -> Result<Trie<Rev, Write>, AllocError>
    ensures written { IfOk result (λ left. (revision : ℕ) → lookup (λ r. revision == r) left ≡
        left_of floor (kept_entries by_key.now) revision (lookup (λ r. revision == r) by_revision.now)) }
    ensures len { IfOk result (λ left. length left ≤ length by_revision.now) }
    ensures revisions { IfOk result (λ left. (last : ℕ) → All (λ (e : ℕ × AWrite). e.0 ≤ last) by_revision.now →
        All (λ (e : ℕ × AWrite). e.0 ≤ last) left) }
{
    let left = Left { by_key, floor };
    by_revision.retain(alloc, &left).map_err(|_| AllocError)
}

// Counts revisions.
#[derive(Drop)]
struct Count {
    revisions: u64,
}

impl Visit<Key, KeyHistory> for Count {
    ghost use Rattle.std.specs.Prelude.{◌≡◌, ◌+◌, ◌<◌, ◌^◌, length};

    ghost shows = { λ old key kept result new.
        old.revisions + length kept.revisions < 2 ^ 64 → new.revisions ≡ old.revisions + length kept.revisions };

    fn pair(&mut self, _key: &Key, kept: &KeyHistory) -> Result<(), KvError> {
        self.revisions = self.revisions.saturating_add(kept.revisions().len() as u64);
        Ok(())
    }
}

// How many revisions are kept of all keys.
fn kept_count(by_key: &Trie<Key, KeyHistory>) -> Result<u64, AllocError>
    ensures count { IfOk result (λ count.
        length (all_kept (kept_entries by_key.now)) < 2 ^ 64 → count ≡ length (all_kept (kept_entries by_key.now))) }
    ensures apart { IsDistinct bytes_eq (keys_of (kept_entries by_key.now)) }
{
    let mut count = Count { revisions: 0 };
    by_key.each(&mut count).map_err(|_| AllocError)?;
    Ok(count.revisions)
}
