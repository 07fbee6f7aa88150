//! What writes that are put back show of the acts that left them.

ghost use Rattle.std.specs.Prelude.{◌≡◌, ◌==◌, ◌+◌, ◌-◌, ◌<◌, ◌≤◌, ◌++◌, ◌∷◌, [], ℕ, List, Ok, Some, false, true, ◌&&◌, filter, length, nat_le, nat_lt, not, unwrap_or, IfErr, IfOk, OnOk, MatchOption};
ghost use Rattle.std.specs.List.{list_any};
ghost use Rattle.std.specs.Option.{option_map_or};
ghost use Rattle.std.specs.List.Sorted.{IsStrictlyIncreasing};
ghost use Rattle.kv_keys.specs.declared.error.KvError.TheVariants.{OutOfMemory};
ghost use Rattle.kv_model.specs.Acts.{Write as AWrite, is_put};
ghost use Rattle.kv_model.specs.Requests.{asked, key_of, op_of, write_for};
ghost use Rattle.kv_model.specs.Retained.{is_cleared};
ghost use Rattle.kv_store.specs.Standing.{StandsFor};
ghost use Rattle.kv_store.specs.Stored.{kept_at, last_at};
ghost use Rattle.kv_journal.specs.Restored.{HasPutBack, IsRestored, those_of};
ghost use Rattle.kv_journal.specs.inside.Contents.{checkpoint_told, writes_told};
ghost use Rattle.kv_journal.specs.inside.Courses.{GoesOn, IsCourse, loses};
ghost use Rattle.kv_journal.specs.inside.Reachable.{IsReachable, IsWritable, RiseWithin, is_kept_among, last_among};

use crate::contents::Contents;
use kv_keys::{Key, KvError};
use kv_model::{Config, Request};
use kv_store::Version;
use std::alloc::Global;

/// Stored writes that are put back into a version, one after the other.
#[derive(Drop)]
pub(crate) struct Course<'c> {
    config: &'c Config,
    // That of the last compaction.
    floor: u64,
    version: Version,
    // The revisions of the writes.
    revisions: Vec<u64>,
    // Whether the last compaction was made before one of the writes, since less is kept behind that.
    past: bool,
}

// Whether the bucket accepts the write where no rule on what was written before hinders it.
fn is_writable(config: &Config, request: &Request) -> bool
    ensures yes { result ≡ true → (revision : ℕ) → IsWritable config.now (write_for (asked request.now) revision) }
    ensures no { (revision : ℕ) → IsWritable config.now (write_for (asked request.now) revision) → result ≡ true }
{
    let _text = request.key().as_str();
    request.value().len() as u64 <= config.value_limit
}

// How many of the revisions are lower.
fn lower(revisions: &[u64], revision: u64) -> u64
    requires { IsStrictlyIncreasing revisions.now }
    ensures { result ≡ length (filter (λ r. nat_lt r revision) revisions.now) }
{
    match revisions.binary_search(&revision) {
        Ok(index) => index as u64,
        Err(index) => index as u64,
    }
}

// How many of the writes are above the floor.
fn above(writes: &[(u64, Request)], floor: u64) -> u64
    ensures { result ≡ length (filter (λ w. nat_lt floor w.revision) (writes_told writes.now)) }
{
    let mut count = 0;
    for write in writes {
        if write.0 > floor {
            count += 1;
        }
    }
    count
}

// Whether the revision is among those that are kept of the key.
fn is_kept(version: &Version, key: &Key, revision: u64) -> bool
    ensures { result ≡ list_any (λ r. r == revision) (unwrap_or (kept_at key.now version.now) []) }
{
    match version.kept_at(key) {
        Some(kept) => kept.contains(&revision),
        None => false,
    }
}

// How many of the writes that are put back are kept.
fn kept(version: &Version, writes: &[(u64, Request)]) -> u64
    requires { HasPutBack (writes_told writes.now) version.now }
    ensures { result ≡ length (filter (is_kept_among version.now.config.history (writes_told writes.now)) (writes_told writes.now)) }
{
    let mut count = 0;
    for write in writes {
        if is_kept(version, write.1.key(), write.0) {
            count += 1;
        }
    }
    count
}

// Whether a compaction to the floor would clear the write's key: its last write is this one, a marker at or below the floor.
fn clears(version: &Version, floor: u64, revision: u64, request: &Request) -> bool
    ensures { result ≡ (not (is_put (op_of (asked request.now))) && nat_le revision floor
        && option_map_or (λ w. w.revision == revision) (last_at (key_of (asked request.now)) version.now) false) }
{
    if request.op().is_put() || revision > floor {
        return false;
    }
    match version.last_write(request.key()) {
        Some(last) => last.revision() == revision,
        None => false,
    }
}

// Whether a compaction to the floor would clear none of the keys of the writes that are put back.
fn are_spared(version: &Version, floor: u64, writes: &[(u64, Request)]) -> bool
    requires put { HasPutBack (writes_told writes.now) version.now }
    requires rise { RiseWithin 0 (last_among (writes_told writes.now)) (writes_told writes.now) }
    ensures yes { result ≡ true → (key : List ℕ) → is_cleared floor (those_of key (writes_told writes.now)) ≡ false }
    ensures no { ((key : List ℕ) → is_cleared floor (those_of key (writes_told writes.now)) ≡ false) → result ≡ true }
{
    for write in writes {
        if clears(version, floor, write.0, &write.1) {
            return false;
        }
    }
    true
}

impl<'c> Course<'c> {
    fn new(alloc: Global, empty: Version, config: &'c Config, floor: u64) -> Course<'c>
        requires stands { StandsFor [] empty }
        requires config { empty.config ≡ config.now }
        ensures course { IsCourse [] result }
        ensures floor { result.floor ≡ floor }
        ensures config { result.config.now ≡ config.now }
    {
        Course {
            config,
            floor,
            version: empty,
            revisions: Vec::new(alloc),
            past: false,
        }
    }

    // The revision of the key's last write, where that is a marker at or below the floor.
    fn marker(&self, key: &Key) -> Option<u64>
        ensures { MatchOption result
            ((m : AWrite) → last_at key.now self.now.version ≡ Some m → is_put m.op ≡ false → m.revision ≤ self.now.floor → ⊥)
            (λ r. (m : AWrite) × (last_at key.now self.now.version ≡ Some m) × (is_put m.op ≡ false) × (m.revision ≤ self.now.floor) × (m.revision ≡ r)) }
    {
        match self.version.last_write(key) {
            Some(last) if !last.op().is_put() && last.revision() <= self.floor => Some(
                last.revision(),
            ),
            _ => None,
        }
    }

    // Whether a write at or below the floor is kept no more behind this one.
    fn loses(&self, request: &Request) -> bool
        ensures { result ≡ loses self.now.config.now.history self.now.floor (op_of (asked request.now)) (unwrap_or (kept_at (key_of (asked request.now)) self.now.version) []) }
    {
        let kept = match self.version.kept_at(request.key()) {
            Some(kept) => kept,
            None => return false,
        };
        let config = self.config;
        match kept {
            [first, ..] => *first <= self.floor
                && (request.op().is_purge() || kept.len() as u64 >= config.history),
            [] => false,
        }
    }

    // Whether there was room for a write with this revision whose key's last one is a marker that stays. No floor had reached
    // the marker, so each write from it on was stored.
    fn had_room(&self, marker: u64, revision: u64) -> bool
        requires { IsStrictlyIncreasing self.now.revisions.items }
        ensures { result ≡ nat_lt ((revision - marker) + length (filter (λ r. nat_lt r marker) self.now.revisions.items)) self.now.config.now.write_limit }
    {
        let config = self.config;
        let before = lower(&self.revisions, marker);
        revision.saturating_sub(marker).saturating_add(before) < config.write_limit
    }

    // Whether the last compaction was made before one of the writes, with this one. None where no acts lead to a checkpoint
    // that has them.
    fn past_with(&self, revision: u64, request: &Request) -> Option<bool>
        requires course { (ws : List AWrite) × IsCourse ws self.now }
        requires later { self.now.version.last < revision }
        ensures { MatchOption result
            ((ws more : List AWrite) (last count : ℕ) → IsCourse ws self.now →
            IsReachable self.now.config.now (ws ++ write_for (asked request.now) revision ∷ more) last count self.now.floor → ⊥)
            (λ past. (ws : List AWrite) → IsCourse ws self.now → GoesOn self.now.config.now self.now.floor ws (write_for (asked request.now) revision) past) }
    {
        let loses = self.loses(request);
        if loses && revision <= self.floor {
            return None;
        }
        let past = self.past || loses;
        let Some(marker) = self.marker(request.key()) else {
            return Some(past);
        };
        if past || !self.had_room(marker, revision) {
            return None;
        }
        Some(past)
    }

    // Puts back one more write. It is false where no acts lead to a checkpoint that has these writes and this one.
    fn add(&mut self, alloc: Global, revision: u64, request: &Request) -> Result<bool, KvError>
        requires course { (ws : List AWrite) × IsCourse ws self.old }
        ensures added { result ≡ Ok true → (ws : List AWrite) → IsCourse ws self.old → IsCourse (ws ++ write_for (asked request.now) revision ∷ []) self.new }
        ensures same { OnOk result ((self.new.floor ≡ self.old.floor) × (self.new.config.now ≡ self.old.config.now)) }
        ensures never { result ≡ Ok false → (ws more : List AWrite) (last count : ℕ) → IsCourse ws self.old →
            IsReachable self.old.config.now (ws ++ write_for (asked request.now) revision ∷ more) last count self.old.floor → ⊥ }
        ensures err { IfErr result (λ e. e ≡ OutOfMemory) }
    {
        let config = self.config;
        if revision <= self.version.revision() || revision > config.revision_limit {
            return Ok(false);
        }
        if !is_writable(config, request) {
            return Ok(false);
        }
        let Some(past) = self.past_with(revision, request) else {
            return Ok(false);
        };
        let write = request.write(alloc, revision)?;
        self.version.put_back(alloc, write)?;
        self.revisions.push(revision)?;
        self.past = past;
        Ok(true)
    }

    // Whether the numbers are those of acts that lead to these writes.
    fn ends(&self, contents: &Contents) -> bool
        requires course { IsCourse (writes_told contents.now.writes.items) self.now }
        requires floor { self.now.floor ≡ contents.now.numbers.floor }
        ensures yes { result ≡ true → IsReachable self.now.config.now (writes_told contents.now.writes.items) contents.now.numbers.last contents.now.numbers.values contents.now.numbers.floor }
        ensures no { IsReachable self.now.config.now (writes_told contents.now.writes.items) contents.now.numbers.last contents.now.numbers.values contents.now.numbers.floor → result ≡ true }
    {
        let config = self.config;
        let numbers = contents.numbers;
        let last = numbers.last;
        let count = contents.writes.len() as u64;
        let stored_last = self.version.revision();
        if last > config.revision_limit || stored_last > last || numbers.floor > last {
            return false;
        }
        if count > config.write_limit || (stored_last < last && count == config.write_limit) {
            return false;
        }
        above(&contents.writes, numbers.floor) == last - numbers.floor
            && kept(&self.version, &contents.writes) == numbers.values
            && are_spared(&self.version, numbers.floor, &contents.writes)
    }

    // The version with these numbers.
    fn finish(self, contents: &Contents) -> Result<Option<Version>, KvError>
        requires course { IsCourse (writes_told contents.now.writes.items) self }
        requires floor { self.floor ≡ contents.now.numbers.floor }
        ensures found { IfOk result (λ found. MatchOption found
            (IsReachable self.entry.config.now (writes_told contents.now.writes.items) contents.now.numbers.last contents.now.numbers.values contents.now.numbers.floor → ⊥)
            (λ v. IsReachable self.entry.config.now (writes_told contents.now.writes.items) contents.now.numbers.last contents.now.numbers.values contents.now.numbers.floor
            × IsRestored self.entry.config.now (checkpoint_told contents.now) v)) }
        ensures err { IfErr result (λ e. e ≡ OutOfMemory) }
    {
        if !self.ends(contents) {
            return Ok(None);
        }
        let numbers = contents.numbers;
        let mut version = self.version;
        version.settle(numbers.last, numbers.values, numbers.floor, numbers.sealed)?;
        Ok(Some(version))
    }
}

/// The version of a checkpoint that tells this, if acts lead to one. It puts back each stored write once, and looks up its
/// key once or twice more.
pub(crate) fn reached(
    alloc: Global,
    empty: Version,
    config: &Config,
    contents: &Contents,
) -> Result<Option<Version>, KvError>
    requires stands { StandsFor [] empty }
    requires config { empty.config ≡ config.now }
    ensures found { IfOk result (λ found. MatchOption found
        (IsReachable config.now (writes_told contents.now.writes.items) contents.now.numbers.last contents.now.numbers.values contents.now.numbers.floor → ⊥)
        (λ v. IsReachable config.now (writes_told contents.now.writes.items) contents.now.numbers.last contents.now.numbers.values contents.now.numbers.floor
        × IsRestored config.now (checkpoint_told contents.now) v)) }
    ensures err { IfErr result (λ e. e ≡ OutOfMemory) }
{
    let mut course = Course::new(alloc, empty, config, contents.numbers.floor);
    for write in &contents.writes {
        if !course.add(alloc, write.0, &write.1)? {
            return Ok(None);
        }
    }
    course.finish(contents)
}
