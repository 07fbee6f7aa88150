//! Reads of a version, for a bucket and for a view.

ghost use Rattle.std.specs.Prelude.{◌≡◌, List, MatchResult, Some, false, length, map, IfErr, IfOk, is_some, true};
ghost use Rattle.std.specs.List.{flat_map, slice_get};
ghost use Rattle.kv_c.specs.Calling.{AreKeys, IsHistory, IsValue, WantsKeys, WantsRead, keys_asked};
ghost use Rattle.kv_c.specs.Codes.{found_code, history_code, keys_code, listed, read_code, value_code};
ghost use Rattle.kv_c.specs.Handing.{IsEntry, WantsAt, WantsValue};
ghost use Rattle.kv_keys.specs.Grammar.{are_filters, parts};
ghost use Rattle.kv_keys.specs.Refusals.{code_of};
ghost use Rattle.kv_keys.specs.declared.error.KvError.TheVariants.{BadFilter, OutOfMemory};
ghost use Rattle.kv_model.specs.Acts.{Act, Write};
ghost use Rattle.kv_model.specs.Reads.{get_at_of, get_of, history_of};
ghost use Rattle.kv_store.specs.Standing.{StandsFor};

use crate::item::{Item, copy_sized, empty_item, hand_write};
use crate::parse::{filters_of, key_of};
use kv_single::{Key, KvError, Version, Write};
use std::alloc::Global;

// Hands out the value and the revision of a write that was found.
fn show(
    found: Result<&Write, KvError>,
    room: &mut [u8],
    size: &mut usize,
    revision: &mut u64,
) -> u64
    ensures found { MatchResult found.entry
        (λ w. (result ≡ value_code room.old w.now) × (result ≡ 0 → IsValue (Some w.now) room.new size.new revision.new)
        × WantsRead (Some w.now) size.new revision.new)
        (λ e. (result ≡ code_of e) × (size.new ≡ size.old) × (revision.new ≡ revision.old)) }
    ensures room { ¬ (result ≡ 0) → room.new ≡ room.old }
{
    match found {
        Ok(write) => {
            *revision = write.revision();
            copy_sized(room, write.value(), size)
        }
        Err(refusal) => refusal.code(),
    }
}

/// The value of a key, copied to the beginning of `room`; how many bytes it has is told also where there is too little.
pub(crate) fn get(
    alloc: Global,
    version: &Version,
    key: &[u8],
    room: &mut [u8],
    size: &mut usize,
    revision: &mut u64,
) -> u64
    ensures value { result ≡ 0 → (acts : List Act) → StandsFor acts version.now →
        IsValue (get_of key.now acts) room.new size.new revision.new }
    ensures code { (acts : List Act) → StandsFor acts version.now → ¬ (result ≡ 1) →
        result ≡ read_code key.now room.old (get_of key.now acts) }
    ensures wants { result ≡ 33 → (acts : List Act) → StandsFor acts version.now →
        WantsRead (get_of key.now acts) size.new revision.new }
    ensures room { ¬ (result ≡ 0) → room.new ≡ room.old }
    ensures untold { ¬ (result ≡ 0) → ¬ (result ≡ 33) → (size.new ≡ size.old) × (revision.new ≡ revision.old) }
{
    match key_of(alloc, key) {
        Ok(key) => show(version.get(&key), room, size, revision),
        Err(refusal) => refusal.code(),
    }
}

/// The same of the put of the key at a revision.
pub(crate) fn get_at(
    alloc: Global,
    version: &Version,
    key: &[u8],
    at: u64,
    room: &mut [u8],
    size: &mut usize,
    revision: &mut u64,
) -> u64
    ensures value { result ≡ 0 → (acts : List Act) → StandsFor acts version.now →
        IsValue (get_at_of version.now.config.history key.now at acts) room.new size.new revision.new }
    ensures code { (acts : List Act) → StandsFor acts version.now → ¬ (result ≡ 1) →
        result ≡ read_code key.now room.old (get_at_of version.now.config.history key.now at acts) }
    ensures wants { result ≡ 33 → (acts : List Act) → StandsFor acts version.now →
        WantsRead (get_at_of version.now.config.history key.now at acts) size.new revision.new }
    ensures room { ¬ (result ≡ 0) → room.new ≡ room.old }
    ensures untold { ¬ (result ≡ 0) → ¬ (result ≡ 33) → (size.new ≡ size.old) × (revision.new ≡ revision.old) }
{
    match key_of(alloc, key) {
        Ok(key) => show(version.get_at(&key, at), room, size, revision),
        Err(refusal) => refusal.code(),
    }
}

// Hands out the entry of this index, with its value copied, or that there is none.
fn show_at(found: &[&Write], index: usize, room: &mut [u8], item: &mut Item) -> u64
    ensures entry { result ≡ 0 → IsEntry (slice_get (map (λ w. w.now) found.now) index) item.new room.new }
    ensures code { result ≡ found_code room.old (slice_get (map (λ w. w.now) found.now) index) }
    ensures wants { result ≡ 33 → WantsValue (slice_get (map (λ w. w.now) found.now) index) item.new }
    ensures room { ¬ (result ≡ 0) → room.new ≡ room.old }
{
    match found.get(index) {
        Some(write) => hand_write(write, room, item),
        None => {
            *item = empty_item(0);
            0
        }
    }
}

/// The retained entry of a key that has this index, oldest first, with its value copied, and how many there are. Past
/// the last one the item says that nothing is left.
#[tactic(auto, using(crate::proofs::Refusing::code_from, crate::proofs::Refusing::code_memory))]
pub(crate) fn history(
    alloc: Global,
    version: &Version,
    key: &[u8],
    index: usize,
    room: &mut [u8],
    item: &mut Item,
    count: &mut usize,
) -> u64
    ensures entry { result ≡ 0 → (acts : List Act) → StandsFor acts version.now →
        IsHistory (history_of version.now.config.history key.now acts) index count.new item.new room.new }
    ensures code { (acts : List Act) → StandsFor acts version.now → ¬ (result ≡ 1) →
        result ≡ history_code key.now index room.old (history_of version.now.config.history key.now acts) }
    ensures wants { result ≡ 33 → (acts : List Act) → StandsFor acts version.now →
        WantsAt (history_of version.now.config.history key.now acts) index count.new item.new }
    ensures room { ¬ (result ≡ 0) → room.new ≡ room.old }
    ensures untold { ¬ (result ≡ 0) → ¬ (result ≡ 33) → (item.new ≡ item.old) × (count.new ≡ count.old) }
{
    let key = match key_of(alloc, key) {
        Ok(key) => key,
        Err(refusal) => return refusal.code(),
    };
    match version.history(alloc, &key) {
        Ok(found) => {
            *count = found.len();
            show_at(found.as_slice(), index, room, item)
        }
        Err(refusal) => refusal.code(),
    }
}

// The keys, each with a zero byte behind it.
fn listed(alloc: Global, keys: &[&Key]) -> Result<Vec<u8>, KvError>
    ensures ok { IfOk result (λ text. text.items ≡ listed (map (λ k. k.now) keys.now)) }
    ensures err { IfErr result (λ e. e ≡ OutOfMemory) }
{
    let mut text = Vec::new(alloc);
    for key in keys {
        text.extend_from_slice(key.as_str().as_bytes())?;
        text.push(0)?;
    }
    Ok(text)
}

// How many keys match, and the list of them.
fn matching(alloc: Global, version: &Version, filters: &[u8]) -> Result<(usize, Vec<u8>), KvError>
    ensures ok { IfOk result (λ p. (acts : List Act) → StandsFor acts version.now →
        (p.0 ≡ length (keys_asked filters.now acts)) × (p.1.items ≡ listed (keys_asked filters.now acts))) }
    ensures filters { IfOk result (λ p. are_filters (parts filters.now) ≡ true) }
    ensures err { IfErr result
        (λ e. ¬ (e ≡ OutOfMemory) → (e ≡ BadFilter) × (are_filters (parts filters.now) ≡ false)) }
{
    let filters = filters_of(alloc, filters)?;
    let keys = version.keys_where(alloc, &filters)?;
    Ok((keys.len(), listed(alloc, &keys)?))
}

/// The keys that one of the filters matches and that have a value, each with a zero byte behind it, and how many there
/// are. How many bytes that are is told also where there is too little room.
#[tactic(auto, using(crate::proofs::Refusing::code_memory))]
pub(crate) fn keys(
    alloc: Global,
    version: &Version,
    filters: &[u8],
    room: &mut [u8],
    size: &mut usize,
    count: &mut usize,
) -> u64
    ensures keys { result ≡ 0 → (acts : List Act) → StandsFor acts version.now →
        AreKeys (keys_asked filters.now acts) count.new size.new room.new }
    ensures code { (acts : List Act) → StandsFor acts version.now → ¬ (result ≡ 1) →
        result ≡ keys_code filters.now room.old (keys_asked filters.now acts) }
    ensures wants { result ≡ 33 → (acts : List Act) → StandsFor acts version.now →
        WantsKeys (keys_asked filters.now acts) count.new size.new }
    ensures room { ¬ (result ≡ 0) → room.new ≡ room.old }
    ensures untold { ¬ (result ≡ 0) → ¬ (result ≡ 33) → (size.new ≡ size.old) × (count.new ≡ count.old) }
{
    match matching(alloc, version, filters) {
        Ok((found, text)) => {
            *count = found;
            copy_sized(room, &text, size)
        }
        Err(refusal) => refusal.code(),
    }
}
