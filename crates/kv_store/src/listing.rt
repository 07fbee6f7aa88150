//! What there is of the keys that are wanted: those that have a value, and the revisions that a watch begins with.

ghost use Rattle.std.specs.Prelude.{◌≡◌, ◌++◌, List, filter, map, IfOk, IfErr, IsPermutation, nat_le};
ghost use Rattle.std.specs.Cmp.Lexicographic.{slice_cmp};
ghost use Rattle.std.specs.List.{flat_map};
ghost use Rattle.std.specs.List.Sorted.{IsNonDecreasingBy, IsSorted};
ghost use Rattle.std.specs.Ordering.{nat_cmp};
ghost use Rattle.kv_keys.specs.declared.error.KvError.TheVariants.{OutOfMemory};
ghost use Rattle.kv_keys.specs.Matching.{matches};
ghost use Rattle.kv_keys.specs.Places.{fnv32_of};
ghost use Rattle.kv_model.specs.Acts.{Act, is_put};
ghost use Rattle.kv_model.specs.Reads.{keys_of};
ghost use Rattle.kv_model.specs.Retained.{latest, revisions};
ghost use Rattle.kv_model.specs.Given.{initial};
ghost use Rattle.kv_trie.specs.Form.{Ascends, order};
ghost use Rattle.kv_trie.specs.Numbered.{lent};
ghost use Rattle.kv_store.specs.inside.Selected.{last_numbered, last_of_entry, last_at_key, initial_revisions, initial_at, initial_of};
ghost use Rattle.kv_store.specs.Standing.{StandsFor};

use crate::key_history::{KeyHistory, kept_of};
use crate::version::Version;
use crate::wanted::Wanted;
use kv_keys::{Filter, Key, KvError};
use kv_model::Start;
use kv_trie::{Numbers, Trie, Visit};
use std::alloc::{AllocError, Global};

// Asks of a key for its last revision, where the key is wanted.
#[derive(Drop)]
struct Latest<'w, W> {
    wanted: &'w W,
}

impl<'w, W: Wanted> Numbers<Key, KeyHistory> for Latest<'w, W> {
    ghost use Rattle.std.specs.Prelude.{None, if◌then◌else◌};
    ghost use Rattle.std.specs.List.{last_or};

    ghost number = { λ asker key kept. if W.wants_key asker.wanted.now key then last_or None kept.revisions else None };

    fn number(&self, key: &Key, kept: &KeyHistory) -> Option<u64> {
        if self.wanted.wants(key) {
            kept.revisions().last().copied()
        } else {
            None
        }
    }
}

// Adds what is stored of a key behind its last revision. The last write itself is not looked at: it lies elsewhere.
fn add_last<'t>(
    found: &mut Vec<(u64, &'t KeyHistory)>,
    kept: &'t KeyHistory,
) -> Result<(), AllocError>
    ensures { IfOk result (λ _. lent found.new.items ≡ lent found.old.items ++ last_numbered kept.now) }
{
    if let Some(revision) = kept.revisions().last() {
        found.push((*revision, kept))?;
    }
    Ok(())
}

// What is stored of these keys, by one look-up for each.
fn last_looked_up<'t>(
    alloc: Global,
    by_key: &'t Trie<Key, KeyHistory>,
    keys: &[Key],
) -> Result<Vec<(u64, &'t KeyHistory)>, AllocError>
    ensures { IfOk result (λ found. lent found.items ≡ flat_map (last_at_key by_key.now) keys.now) }
{
    let mut found = Vec::new(alloc);
    for key in keys {
        if let Some(kept) = by_key.get(key) {
            add_last(&mut found, kept)?;
        }
    }
    Ok(found)
}

// What is stored of wanted keys, in any order.
fn last_found<'t, W: Wanted>(
    alloc: Global,
    by_key: &'t Trie<Key, KeyHistory>,
    wanted: &W,
) -> Result<Vec<(u64, &'t KeyHistory)>, AllocError>
    requires { Ascends (order (slice_cmp nat_cmp) fnv32_of 7) by_key.now }
    ensures { IfOk result
        (λ found. IsPermutation (flat_map (last_of_entry (W.wants_key wanted.now)) by_key.now) (lent found.items)) }
{
    match wanted.literals(alloc).map_err(|_| AllocError)? {
        Some(keys) => last_looked_up(alloc, by_key, &keys),
        None => by_key.numbered(alloc, &Latest { wanted }),
    }
}

// What is stored of wanted keys, in the order of their last revisions. Where there is no key, none is made.
fn last_sorted<'t, W: Wanted>(
    alloc: Global,
    by_key: &'t Trie<Key, KeyHistory>,
    wanted: &W,
) -> Result<Vec<(u64, &'t KeyHistory)>, AllocError>
    ensures keys { Ascends (order (slice_cmp nat_cmp) fnv32_of 7) by_key.now }
    ensures same { IfOk result
        (λ found. IsPermutation (flat_map (last_of_entry (W.wants_key wanted.now)) by_key.now) (lent found.items)) }
    ensures sorted { IfOk result (λ found. IsNonDecreasingBy (λ f. f.0) found.items) }
{
    if by_key.len() == 0 {
        return Ok(Vec::new(alloc));
    }
    let mut found = last_found(alloc, by_key, wanted)?;
    found.sort_unstable_by_key(|f| f.0);
    Ok(found)
}

// Keeps those whose last write is a put.
fn keep_puts(found: &mut Vec<(u64, &KeyHistory)>)
    ensures { found.new.items ≡ filter (λ f. is_put f.1.now.last.op) found.old.items }
{
    found.retain(|numbered| numbered.1.last().op().is_put());
}

// The last revisions of these.
fn revisions_in(alloc: Global, entries: &[(u64, &KeyHistory)]) -> Result<Vec<u64>, AllocError>
    ensures { IfOk result (λ found. found.items ≡ map (λ f. f.1.now.last.revision) entries.now) }
{
    let mut found = Vec::with_capacity(alloc, entries.len())?;
    for numbered in entries {
        found.push(numbered.1.last().revision())?;
    }
    Ok(found)
}

// The keys of these, as their last writes have them.
fn keys_in<'t>(alloc: Global, entries: &[(u64, &'t KeyHistory)]) -> Result<Vec<&'t Key>, AllocError>
    ensures { IfOk result (λ found. map (λ k. k.now) found.items ≡ map (λ f. f.1.now.last.key) entries.now) }
{
    let mut found = Vec::with_capacity(alloc, entries.len())?;
    for numbered in entries {
        found.push(numbered.1.last().key())?;
    }
    Ok(found)
}

impl Version {
    // What is stored of the wanted keys whose latest write is a put, in the order of those writes. Keys that are wanted by
    // name are looked up; else it looks at each key once. It sorts what it takes of the wanted ones, and only then looks at
    // the writes, which mostly lie in that order. None is looked up by its revision: what is stored of a key leads to it.
    fn latest_puts<W: Wanted>(
        &self,
        alloc: Global,
        wanted: &W,
    ) -> Result<Vec<(u64, &KeyHistory)>, AllocError>
        ensures { IfOk result (λ found. (acts : List Act) → StandsFor acts self.now →
            map (λ f. f.1.now.last) found.items
            ≡ filter (λ w. is_put w.op) (filter (λ w. W.wants_key wanted.now w.key) (latest acts))) }
    {
        let mut found = last_sorted(alloc, self.by_key(), wanted)?;
        keep_puts(&mut found);
        Ok(found)
    }

    /// The revisions of the latest entries that are puts of wanted keys, in order. It costs what [`Version::keys`] does.
    pub fn puts_where<W: Wanted>(&self, alloc: Global, wanted: &W) -> Result<Vec<u64>, KvError>
        ensures ok { IfOk result (λ found. (acts : List Act) → StandsFor acts self.now →
            found.items ≡ revisions (filter (λ w. is_put w.op)
            (filter (λ w. W.wants_key wanted.now w.key) (latest acts)))) }
        ensures err { IfErr result (λ e. e ≡ OutOfMemory) }
    {
        let puts = self.latest_puts(alloc, wanted)?;
        Ok(revisions_in(alloc, &puts)?)
    }

    /// The keys that match and whose latest entry is a put, in the order of those puts' revisions. It looks up the key
    /// of a filter without a wildcard, and else looks at each key once, and sorts those that match by their latest
    /// revisions. No write is looked up by its revision.
    pub fn keys(&self, alloc: Global, filter: &Filter) -> Result<Vec<&Key>, KvError>
        ensures ok { IfOk result
            (λ found. (acts : List Act) → StandsFor acts self.now →
            map (λ k. k.now) found.items ≡ keys_of (matches filter.now) acts) }
        ensures err { IfErr result (λ e. e ≡ OutOfMemory) }
    {
        self.keys_where(alloc, filter)
    }

    /// The wanted keys whose latest entry is a put, each once, in the order of those puts' revisions. It costs what
    /// [`Version::keys`] does: wanted by a list of filters of which none has a wildcard, each key is looked up.
    pub fn keys_where<W: Wanted>(&self, alloc: Global, wanted: &W) -> Result<Vec<&Key>, KvError>
        ensures ok { IfOk result
            (λ found. (acts : List Act) → StandsFor acts self.now →
            map (λ k. k.now) found.items ≡ keys_of (W.wants_key wanted.now) acts) }
        ensures err { IfErr result (λ e. e ≡ OutOfMemory) }
    {
        let puts = self.latest_puts(alloc, wanted)?;
        Ok(keys_in(alloc, &puts)?)
    }

    /// The revisions of the entries whose keys are wanted and that a watch with this start begins with, in order. Keys
    /// that are wanted by name are looked up, each once; else it looks at each key of the bucket. It sorts what it
    /// takes of the wanted ones.
    pub fn revisions_where<W: Wanted>(
        &self,
        alloc: Global,
        wanted: &W,
        start: Start,
    ) -> Result<Vec<u64>, KvError>
        ensures ok { IfOk result (λ found. (acts : List Act) → StandsFor acts self.now →
            found.items ≡ revisions (filter
            (λ w. W.wants_key wanted.now w.key) (initial self.now.config.history start acts))) }
        ensures err { IfErr result (λ error. error ≡ OutOfMemory) }
    {
        Ok(selected_revisions_of(alloc, self.by_key(), wanted, start)?)
    }
}

// What was found so far, and what is looked for.
#[derive(Drop)]
struct Gather<'w, W> {
    wanted: &'w W,
    start: Start,
    found: Vec<u64>,
}

// Adds the revisions from the first one on.
fn add_from(found: &mut Vec<u64>, first: u64, revisions: &[u64]) -> Result<(), AllocError>
    ensures { IfOk result (λ _. found.new.items ≡ found.old.items ++ filter (λ r. nat_le first r) revisions.now) }
{
    for revision in revisions {
        if first <= *revision {
            found.push(*revision)?;
        }
    }
    Ok(())
}

// Adds those of a key's revisions that a watch begins with.
fn add_selected(found: &mut Vec<u64>, start: Start, revisions: &[u64]) -> Result<(), AllocError>
    ensures { IfOk result (λ _. found.new.items ≡ found.old.items ++ initial_revisions start revisions.now) }
{
    match start {
        Start::Latest => {
            if let Some(last) = revisions.last() {
                found.push(*last)?;
            }
        }
        Start::History => found.extend_from_slice(revisions)?,
        Start::Updates => {}
        Start::From(first) => add_from(found, first, revisions)?,
    }
    Ok(())
}

impl<'w, W: Wanted> Visit<Key, KeyHistory> for Gather<'w, W> {
    ghost shows = { λ old key kept result new.
        (new.wanted ≡ old.wanted) × (new.start ≡ old.start)
        × IfOk result
        (λ _. new.found.items ≡ old.found.items ++ initial_of (W.wants_key old.wanted.now) old.start (key, kept)) };

    fn pair(&mut self, key: &Key, kept: &KeyHistory) -> Result<(), KvError> {
        if self.wanted.wants(key) {
            add_selected(&mut self.found, self.start, kept.revisions())?;
        }
        Ok(())
    }
}

// The revisions of wanted keys that a watch begins with, by a look at each key.
fn walked<W: Wanted>(
    alloc: Global,
    by_key: &Trie<Key, KeyHistory>,
    wanted: &W,
    start: Start,
) -> Result<Vec<u64>, AllocError>
    ensures { IfOk result
        (λ found. found.items ≡ flat_map (initial_of (W.wants_key wanted.now) start) by_key.now) }
{
    let mut gather = Gather {
        wanted,
        start,
        found: Vec::new(alloc),
    };
    by_key.each(&mut gather).map_err(|_| AllocError)?;
    Ok(gather.found)
}

// The revisions of these keys that a watch begins with, by one look-up for each key.
fn looked_up(
    alloc: Global,
    by_key: &Trie<Key, KeyHistory>,
    keys: &[Key],
    start: Start,
) -> Result<Vec<u64>, AllocError>
    ensures { IfOk result (λ found. found.items ≡ flat_map (initial_at start by_key.now) keys.now) }
{
    let mut found = Vec::new(alloc);
    for key in keys {
        add_selected(&mut found, start, kept_of(by_key, key))?;
    }
    Ok(found)
}

// The revisions of wanted keys that a watch begins with, in any order.
fn found_of<W: Wanted>(
    alloc: Global,
    by_key: &Trie<Key, KeyHistory>,
    wanted: &W,
    start: Start,
) -> Result<Vec<u64>, AllocError>
    requires { Ascends (order (slice_cmp nat_cmp) fnv32_of 7) by_key.now }
    ensures { IfOk result
        (λ found. IsPermutation (flat_map (initial_of (W.wants_key wanted.now) start) by_key.now) found.items) }
{
    match wanted.literals(alloc).map_err(|_| AllocError)? {
        Some(keys) => looked_up(alloc, by_key, &keys, start),
        None => walked(alloc, by_key, wanted, start),
    }
}

// The revisions of wanted keys that a watch begins with, in order. Where there is no key, none is made.
fn selected_revisions_of<W: Wanted>(
    alloc: Global,
    by_key: &Trie<Key, KeyHistory>,
    wanted: &W,
    start: Start,
) -> Result<Vec<u64>, AllocError>
    ensures keys { Ascends (order (slice_cmp nat_cmp) fnv32_of 7) by_key.now }
    ensures same { IfOk result
        (λ found. IsPermutation (flat_map (initial_of (W.wants_key wanted.now) start) by_key.now) found.items) }
    ensures sorted { IfOk result (λ found. IsSorted nat_cmp found.items) }
{
    if by_key.len() == 0 {
        return Ok(Vec::new(alloc));
    }
    let mut found = found_of(alloc, by_key, wanted, start)?;
    found.sort_unstable();
    Ok(found)
}
