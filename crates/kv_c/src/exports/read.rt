//! The functions that C calls to read a bucket, or a view of one.

ghost use Rattle.std.specs.Prelude.{◌≡◌, List, Some, IsFalse, is_some};
ghost use Rattle.std.specs.Option.{option_copied};
ghost use Rattle.kv_c.specs.Calling.{AreKeys, IsHistory, IsValue, Shows, StandsAt, WantsKeys, WantsRead, holds_bucket, keys_asked, version_in};
ghost use Rattle.kv_c.specs.Codes.{history_code, keys_code, read_code};
ghost use Rattle.kv_c.specs.Handing.{WantsAt, numbers_told};
ghost use Rattle.kv_model.specs.Acts.{Act};
ghost use Rattle.kv_model.specs.Answers.{Numbers as Told};
ghost use Rattle.kv_model.specs.Configuration.{Configuration};
ghost use Rattle.kv_model.specs.Reads.{get_at_of, get_of, history_of, status_of};
ghost use Rattle.kv_model.specs.State.{State, answer_to};
ghost use Rattle.kv_model.specs.declared.call.Call.TheVariants.{Status};

use crate::codes::CLOSED;
use crate::content::Content;
use crate::handle::Handle;
use crate::item::Item;
use crate::read;
use crate::status::{Numbers, numbers_of};
use std::alloc::Global;

/// Copies the value of a key to the beginning of `room`; how many bytes it has is told also where there is too little.
#[unsafe(no_mangle)]
pub extern "C" fn kv_get(
    alloc: Global,
    handle: &mut Handle,
    key: &[u8],
    room: &mut [u8],
    size: &mut usize,
    revision: &mut u64,
) -> u64
    ensures value { result ≡ 0 → (config : Configuration) (acts : List Act) → Shows config acts handle.old.slot.held →
        IsValue (get_of key.now acts) room.new size.new revision.new }
    ensures code { (config : Configuration) (acts : List Act) → Shows config acts handle.old.slot.held →
        ¬ (result ≡ 1) → result ≡ read_code key.now room.old (get_of key.now acts) }
    ensures wants { result ≡ 33 → (config : Configuration) (acts : List Act) → Shows config acts handle.old.slot.held →
        WantsRead (get_of key.now acts) size.new revision.new }
    ensures room { ¬ (result ≡ 0) → room.new ≡ room.old }
    ensures untold { ¬ (result ≡ 0) → ¬ (result ≡ 33) → (size.new ≡ size.old) × (revision.new ≡ revision.old) }
    ensures unchanged { handle.new.slot.held ≡ handle.old.slot.held }
    ensures closed { IsFalse (is_some (version_in handle.old.slot.held)) → result ≡ 32 }
{
    let Some(content) = handle.take(alloc) else {
        return CLOSED;
    };
    let done = match content.version() {
        Some(version) => read::get(alloc, version, key, room, size, revision),
        None => CLOSED,
    };
    handle.put(content);
    done
}

/// Copies the value that a key had at a revision, in the same way.
#[unsafe(no_mangle)]
pub extern "C" fn kv_get_at(
    alloc: Global,
    handle: &mut Handle,
    key: &[u8],
    at: u64,
    room: &mut [u8],
    size: &mut usize,
    revision: &mut u64,
) -> u64
    ensures value { result ≡ 0 → (config : Configuration) (acts : List Act) → Shows config acts handle.old.slot.held →
        IsValue (get_at_of config.history key.now at acts) room.new size.new revision.new }
    ensures code { (config : Configuration) (acts : List Act) → Shows config acts handle.old.slot.held →
        ¬ (result ≡ 1) → result ≡ read_code key.now room.old (get_at_of config.history key.now at acts) }
    ensures wants { result ≡ 33 → (config : Configuration) (acts : List Act) → Shows config acts handle.old.slot.held →
        WantsRead (get_at_of config.history key.now at acts) size.new revision.new }
    ensures room { ¬ (result ≡ 0) → room.new ≡ room.old }
    ensures untold { ¬ (result ≡ 0) → ¬ (result ≡ 33) → (size.new ≡ size.old) × (revision.new ≡ revision.old) }
    ensures unchanged { handle.new.slot.held ≡ handle.old.slot.held }
    ensures closed { IsFalse (is_some (version_in handle.old.slot.held)) → result ≡ 32 }
{
    let Some(content) = handle.take(alloc) else {
        return CLOSED;
    };
    let done = match content.version() {
        Some(version) => read::get_at(alloc, version, key, at, room, size, revision),
        None => CLOSED,
    };
    handle.put(content);
    done
}

/// Copies the value of the retained entry of a key that has this index, oldest first, and tells how many there are.
/// Past the last one the item says that nothing is left.
#[unsafe(no_mangle)]
pub extern "C" fn kv_history(
    alloc: Global,
    handle: &mut Handle,
    key: &[u8],
    index: usize,
    room: &mut [u8],
    item: &mut Item,
    count: &mut usize,
) -> u64
    ensures entry { result ≡ 0 → (config : Configuration) (acts : List Act) → Shows config acts handle.old.slot.held →
        IsHistory (history_of config.history key.now acts) index count.new item.new room.new }
    ensures code { (config : Configuration) (acts : List Act) → Shows config acts handle.old.slot.held →
        ¬ (result ≡ 1) → result ≡ history_code key.now index room.old (history_of config.history key.now acts) }
    ensures wants { result ≡ 33 → (config : Configuration) (acts : List Act) → Shows config acts handle.old.slot.held →
        WantsAt (history_of config.history key.now acts) index count.new item.new }
    ensures room { ¬ (result ≡ 0) → room.new ≡ room.old }
    ensures untold { ¬ (result ≡ 0) → ¬ (result ≡ 33) → (item.new ≡ item.old) × (count.new ≡ count.old) }
    ensures unchanged { handle.new.slot.held ≡ handle.old.slot.held }
    ensures closed { IsFalse (is_some (version_in handle.old.slot.held)) → result ≡ 32 }
{
    let Some(content) = handle.take(alloc) else {
        return CLOSED;
    };
    let done = match content.version() {
        Some(version) => read::history(alloc, version, key, index, room, item, count),
        None => CLOSED,
    };
    handle.put(content);
    done
}

/// Copies the keys that one of the filters matches and that have a value, each once, with a zero byte behind it, in the
/// order of their last puts, and tells how many there are. The filters stand with a comma between two. How many bytes
/// that are is told also where there is too little room.
#[unsafe(no_mangle)]
pub extern "C" fn kv_keys(
    alloc: Global,
    handle: &mut Handle,
    filters: &[u8],
    room: &mut [u8],
    size: &mut usize,
    count: &mut usize,
) -> u64
    ensures keys { result ≡ 0 → (config : Configuration) (acts : List Act) → Shows config acts handle.old.slot.held →
        AreKeys (keys_asked filters.now acts) count.new size.new room.new }
    ensures code { (config : Configuration) (acts : List Act) → Shows config acts handle.old.slot.held →
        ¬ (result ≡ 1) → result ≡ keys_code filters.now room.old (keys_asked filters.now acts) }
    ensures wants { result ≡ 33 → (config : Configuration) (acts : List Act) → Shows config acts handle.old.slot.held →
        WantsKeys (keys_asked filters.now acts) count.new size.new }
    ensures room { ¬ (result ≡ 0) → room.new ≡ room.old }
    ensures untold { ¬ (result ≡ 0) → ¬ (result ≡ 33) → (size.new ≡ size.old) × (count.new ≡ count.old) }
    ensures unchanged { handle.new.slot.held ≡ handle.old.slot.held }
    ensures closed { IsFalse (is_some (version_in handle.old.slot.held)) → result ≡ 32 }
{
    let Some(content) = handle.take(alloc) else {
        return CLOSED;
    };
    let done = match content.version() {
        Some(version) => read::keys(alloc, version, filters, room, size, count),
        None => CLOSED,
    };
    handle.put(content);
    done
}

fn status_of_content(content: &Content, numbers: &mut Numbers) -> u64
    ensures told { (state : State) → StandsAt state (Some content.now) →
        (result ≡ 0) × (answer_to state Status ≡ numbers_told numbers.new) }
    ensures view { IsFalse (holds_bucket (Some content.now)) → (config : Configuration) (acts : List Act) →
        Shows config acts (Some content.now) →
        (result ≡ 0) × (numbers_told numbers.new ≡ Told (status_of config.history acts) 0) }
    ensures untold { ¬ (result ≡ 0) → numbers.new ≡ numbers.old }
    ensures closed { IsFalse (is_some (version_in (Some content.now))) → result ≡ 32 }
{
    match content {
        Content::Bucket(bucket, _, _) => {
            *numbers = numbers_of(bucket.single().version(), bucket.single().watches());
            0
        }
        Content::View(version, _) => {
            *numbers = numbers_of(version, 0);
            0
        }
        Content::Feed(..) | Content::Batch(_) | Content::Made(..) => CLOSED,
    }
}

/// Hands out the numbers of a bucket, or of a view, which has no watches.
#[unsafe(no_mangle)]
pub extern "C" fn kv_get_status(alloc: Global, handle: &mut Handle, numbers: &mut Numbers) -> u64
    ensures told { (state : State) → StandsAt state handle.old.slot.held →
        (result ≡ 0) × (answer_to state Status ≡ numbers_told numbers.new) }
    ensures view { IsFalse (holds_bucket handle.old.slot.held) → (config : Configuration) (acts : List Act) →
        Shows config acts handle.old.slot.held →
        (result ≡ 0) × (numbers_told numbers.new ≡ Told (status_of config.history acts) 0) }
    ensures untold { ¬ (result ≡ 0) → numbers.new ≡ numbers.old }
    ensures unchanged { handle.new.slot.held ≡ handle.old.slot.held }
    ensures closed { IsFalse (is_some (version_in handle.old.slot.held)) → result ≡ 32 }
{
    let Some(content) = handle.take(alloc) else {
        return CLOSED;
    };
    let done = status_of_content(&content, numbers);
    handle.put(content);
    done
}
