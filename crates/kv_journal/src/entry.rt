//! Entries that are done again.

ghost use Rattle.std.specs.Prelude.{◌≡◌, ◌≢◌, ◌+◌, ◌^◌, ◌<◌, ◌≤◌, ◌++◌, ◌∷◌, [], ℕ, List, true, false, Ok, Err, length, get_or, IfErr, MatchOption, OnErr, OnOk};
ghost use Rattle.std.specs.Int.{w32, to_be_bytes};
ghost use Rattle.kv_keys.specs.declared.error.KvError.{KvError as AnError};
ghost use Rattle.kv_keys.specs.declared.error.KvError.TheVariants.{OutOfMemory};
ghost use Rattle.kv_model.specs.Acceptance.{IsAccepted, accept};
ghost use Rattle.kv_model.specs.Acts.{Act, Compact, Wrote};
ghost use Rattle.kv_model.specs.Compaction.{is_bad_floor};
ghost use Rattle.kv_model.specs.Requests.{asked, write_for};
ghost use Rattle.kv_store.specs.Standing.{StandsFor};
ghost use Rattle.kv_journal.specs.Records.{Content, act_record, record_of};
ghost use Rattle.kv_journal.specs.Entries.{Entry, IsLawfulContent, IsLawfulEntry, payload_of};
ghost use Rattle.kv_journal.specs.inside.Redoes.{Redoes, RedoesAct, RedoesEntry};

use crate::decode::Record;
use crate::loose::{loose_of, number_of};
use kv_keys::KvError;
use kv_model::Request;
use kv_store::Version;
use std::alloc::Global;

// Writes again. It is false where the rules refuse it.
fn redo_write(alloc: Global, version: &mut Version, request: &Request) -> Result<bool, KvError>
    ensures config { OnOk result (version.new.config ≡ version.old.config) }
    ensures done { result ≡ Ok true → (acts : List Act) → StandsFor acts version.old →
        StandsFor (acts ++ Wrote (write_for (asked request.now) (version.old.last + 1)) ∷ []) version.new }
    ensures not { result ≡ Ok false → (acts : List Act) → StandsFor acts version.old →
        (e : AnError) × (accept version.old.config (asked request.now) acts ≡ Err e) }
    ensures same { result ≡ Ok false → version.new ≡ version.old }
    ensures err { IfErr result (λ e. e ≡ OutOfMemory) }
{
    match version.write(alloc, request) {
        Ok(()) => Ok(true),
        Err(KvError::OutOfMemory) => Err(KvError::OutOfMemory),
        Err(_) => Ok(false),
    }
}

// Compacts again. It is false where the floor is bad.
fn redo_compaction(alloc: Global, version: &mut Version, floor: u64) -> Result<bool, KvError>
    ensures config { OnOk result (version.new.config ≡ version.old.config) }
    ensures done { result ≡ Ok true → (acts : List Act) → StandsFor acts version.old →
        StandsFor (acts ++ Compact floor ∷ []) version.new }
    ensures not { result ≡ Ok false → (acts : List Act) → StandsFor acts version.old → is_bad_floor floor acts ≡ true }
    ensures same { result ≡ Ok false → version.new ≡ version.old }
    ensures bounds { (floor < 2 ^ 64) × (version.old.last < 2 ^ 64) }
    ensures err { IfErr result (λ e. e ≡ OutOfMemory) }
{
    let _last = version.revision();
    if version.is_bad_floor(floor) {
        return Ok(false);
    }
    match version.compact_in_place(alloc, floor) {
        Ok(()) => Ok(true),
        Err(_) => Err(KvError::OutOfMemory),
    }
}

// Whether so many writes have been accepted.
fn has_written(version: &Version, last: u64) -> bool
    ensures yes { result ≡ true → last ≡ version.now.last }
    ensures no { result ≡ false → last ≢ version.now.last }
    ensures bounds { (last < 2 ^ 64) × (version.now.last < 2 ^ 64) }
{
    version.revision() == last
}

// Does again what a record says that is no batch. It is false, and nothing has changed, where nothing with this record can
// be told behind the acts that the version stands for.
fn redo_record(alloc: Global, version: &mut Version, bytes: &[u8]) -> Result<bool, KvError>
    requires single { (rest : List ℕ) → bytes.now ≢ 10 ∷ rest }
    ensures config { OnOk result (version.new.config ≡ version.old.config) }
    ensures done { result ≡ Ok true → (content : Content) × Redoes bytes.now content version.old version.new }
    ensures not { result ≡ Ok false → (acts : List Act) → StandsFor acts version.old → (content : Content) →
        record_of content ≡ bytes.now → IsLawfulContent version.old.config acts content → ⊥ }
    ensures same { result ≡ Ok false → version.new ≡ version.old }
    ensures err { IfErr result (λ e. e ≡ OutOfMemory) }
{
    let Some(record) = Record::decode(alloc, bytes)? else {
        return Ok(false);
    };
    match record {
        Record::Write(request) => redo_write(alloc, version, &request),
        Record::Seal => {
            *version = version.seal(alloc)?;
            Ok(true)
        }
        Record::Compact(floor) => redo_compaction(alloc, version, floor),
        Record::Closed(last) => Ok(has_written(version, last)),
    }
}

// Whether a record is of a kind that tells an act.
fn tells_act(bytes: &[u8]) -> bool
    ensures yes { result ≡ true → get_or bytes.now 0 0 < 9 }
    ensures no { result ≡ false → 9 ≤ get_or bytes.now 0 0 }
{
    match bytes.split_first() {
        Some((kind, _)) => *kind < 9,
        None => true,
    }
}

// Does again the act of a record. It is false where no act with this record can be told behind the acts that the version
// stands for.
fn redo_act(alloc: Global, version: &mut Version, bytes: &[u8]) -> Result<bool, KvError>
    ensures config { OnOk result (version.new.config ≡ version.old.config) }
    ensures done { result ≡ Ok true → (act : Act) × RedoesAct bytes.now act version.old version.new }
    ensures not { result ≡ Ok false → (acts : List Act) → StandsFor acts version.old → (act : Act) →
        act_record act ≡ bytes.now → IsAccepted version.old.config acts act → ⊥ }
    ensures same { result ≡ Ok false → version.new ≡ version.old }
    ensures err { IfErr result (λ e. e ≡ OutOfMemory) }
{
    if !tells_act(bytes) {
        return Ok(false);
    }
    redo_record(alloc, version, bytes)
}

/// Of the records of a batch the one at the front, which stands behind its length, and what stands behind it.
pub fn part_of(bytes: &[u8]) -> Option<(&[u8], &[u8])>
    ensures { MatchOption result
        ((part rest : List ℕ) → length part < 2 ^ 32 →
        bytes.now ≢ to_be_bytes w32 (length part) ++ (part ++ rest))
        (λ p. (length p.0.now < 2 ^ 32)
        × (bytes.now ≡ to_be_bytes w32 (length p.0.now) ++ (p.0.now ++ p.1.now))) }
{
    let Some((len, rest)) = number_of(bytes) else {
        return None;
    };
    let len = len as usize;
    if rest.len() < len {
        return None;
    }
    Some(rest.split_at(len))
}

fn has_none(bytes: &[u8]) -> bool
    ensures yes { result ≡ true → bytes.now ≡ [] }
    ensures no { result ≡ false → bytes.now ≢ [] }
{
    bytes.is_empty()
}

// Does again the acts of a batch, one behind the other, on a version of their own: all of them, or none.
fn redo_batch(alloc: Global, version: &mut Version, bytes: &[u8]) -> Result<bool, KvError>
    ensures config { OnOk result (version.new.config ≡ version.old.config) }
    ensures done { result ≡ Ok true → (content : Content) × Redoes (10 ∷ bytes.now) content version.old version.new }
    ensures not { result ≡ Ok false → (acts : List Act) → StandsFor acts version.old → (content : Content) →
        record_of content ≡ 10 ∷ bytes.now → IsLawfulContent version.old.config acts content → ⊥ }
    ensures same { result ≡ Ok false → version.new ≡ version.old }
    ensures err { IfErr result (λ e. e ≡ OutOfMemory) }
{
    let mut next = version.snapshot()?;
    let mut rest = bytes;
    while let Some((part, after)) = part_of(rest) {
        match redo_act(alloc, &mut next, part) {
            Ok(true) => {}
            Ok(false) => return Ok(false),
            Err(error) => return Err(error),
        }
        rest = after;
    }
    if !has_none(rest) {
        return Ok(false);
    }
    *version = next;
    Ok(true)
}

/// The records of a batch, each behind its length, if this record is one.
pub fn batch_of(bytes: &[u8]) -> Option<&[u8]>
    ensures { MatchOption result ((rest : List ℕ) → bytes.now ≢ 10 ∷ rest) (λ rest. bytes.now ≡ 10 ∷ rest.now) }
{
    let [kind, rest @ ..] = bytes else {
        return None;
    };
    if *kind != 10 {
        return None;
    }
    Some(rest)
}

// Does again what a record tells.
fn redo_content(alloc: Global, version: &mut Version, bytes: &[u8]) -> Result<bool, KvError>
    ensures config { OnOk result (version.new.config ≡ version.old.config) }
    ensures done { result ≡ Ok true → (content : Content) × Redoes bytes.now content version.old version.new }
    ensures not { result ≡ Ok false → (acts : List Act) → StandsFor acts version.old → (content : Content) →
        record_of content ≡ bytes.now → IsLawfulContent version.old.config acts content → ⊥ }
    ensures same { result ≡ Ok false → version.new ≡ version.old }
    ensures err { IfErr result (λ e. e ≡ OutOfMemory) }
{
    match batch_of(bytes) {
        Some(batch) => redo_batch(alloc, version, batch),
        None => redo_record(alloc, version, bytes),
    }
}

/// Does again what the payload of an entry tells. It is false, and nothing has changed, where no entry with this payload
/// can stand behind the acts that the version stands for.
pub(crate) fn redo(alloc: Global, version: &mut Version, payload: &[u8]) -> Result<bool, KvError>
    ensures config { OnOk result (version.new.config ≡ version.old.config) }
    ensures done { result ≡ Ok true → (entry : Entry) × RedoesEntry payload.now entry version.old version.new }
    ensures not { result ≡ Ok false → (acts : List Act) → StandsFor acts version.old → (entry : Entry) →
        payload_of entry ≡ payload.now → IsLawfulEntry version.old.config acts entry → ⊥ }
    ensures same { result ≡ Ok false → version.new ≡ version.old }
    ensures err { IfErr result (λ e. e ≡ OutOfMemory) }
{
    match loose_of(payload) {
        Some((_, record)) => redo_content(alloc, version, record),
        None => Ok(false),
    }
}
