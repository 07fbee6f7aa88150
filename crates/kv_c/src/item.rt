//! Entries and items as C is handed them: copies into the memory that C has for them.

ghost use Rattle.std.specs.Prelude.{◌≡◌, ℕ, List, length, take, drop, IsTrue, IsFalse, Some};
ghost use Rattle.std.specs.Option.{option_copied};
ghost use Rattle.kv_c.specs.Codes.{entry_fits, fits, room_code, taken_code, value_code, value_fits};
ghost use Rattle.kv_model.specs.Answers.{AnsweredEntry, answer_item};
ghost use Rattle.kv_c.specs.Handing.{AreCopied, HasSizes, IsEntry, IsValueCopied, TellsWrite, Wants, told, op_named, op_number};
ghost use Rattle.kv_watch.specs.Taking.{item_taken, entry_shown};

use crate::codes::TOO_LITTLE_ROOM;
use kv_single::{Op, Shown, Taken, Write};

/// An entry as C sees it. The bytes of key and value lie in the memory that C gave for them.
#[repr(C)]
#[derive(Drop)]
pub struct Item {
    /// 0: nothing was left, 1: the end marker, 2: an entry.
    pub kind: u32,
    /// 0: put, 1: delete, 2: purge.
    pub op: u32,
    pub revision: u64,
    /// How many bytes the key has, also where there is too little room for it.
    pub key_size: usize,
    /// How many bytes the value has, also where it isn't shown.
    pub size: u64,
    /// How many bytes of the value are copied: all, or 0 where it isn't shown. Where there is too little room, how many
    /// would be.
    pub value_size: usize,
    pub has_value: bool,
}

/// Copies bytes to the beginning of some room, if there is enough; else nothing changes.
pub(crate) fn copy_into(room: &mut [u8], bytes: &[u8]) -> bool
    ensures fits { result ≡ fits bytes.now room.old }
    ensures copied { IsTrue result → take (length bytes.now) room.new ≡ bytes.now }
    ensures unchanged { IsFalse result → room.new ≡ room.old }
{
    if bytes.len() > room.len() {
        return false;
    }
    let (begin, _) = room.split_at_mut(bytes.len());
    begin.copy_from_slice(bytes);
    true
}

/// Copies bytes, and tells how many there are also where there is too little room.
pub(crate) fn copy_sized(room: &mut [u8], bytes: &[u8], size: &mut usize) -> u64
    ensures size { size.new ≡ length bytes.now }
    ensures code { result ≡ room_code (fits bytes.now room.old) }
    ensures copied { result ≡ 0 → take size.new room.new ≡ bytes.now }
    ensures unchanged { ¬ (result ≡ 0) → room.new ≡ room.old }
{
    *size = bytes.len();
    if copy_into(room, bytes) {
        0
    } else {
        TOO_LITTLE_ROOM
    }
}

fn number_of(op: Op) -> u32
    ensures named { op_named result ≡ op }
    ensures number { result ≡ op_number op }
{
    match op {
        Op::Put => 0,
        Op::Delete => 1,
        Op::Purge => 2,
    }
}

/// The item without an entry.
pub(crate) fn empty_item(kind: u32) -> Item
    ensures kind { result.kind ≡ kind }
    ensures sizes { (result.key_size ≡ 0) × (result.value_size ≡ 0) }
{
    Item {
        kind,
        op: 0,
        revision: 0,
        key_size: 0,
        size: 0,
        value_size: 0,
        has_value: false,
    }
}

fn write_item(write: &Write) -> Item
    ensures told { (room : List ℕ) → take (length write.now.value) room ≡ write.now.value →
        IsEntry (Some write.now) result room }
    ensures wants { TellsWrite write.now result }
{
    let size = write.value().len();
    Item {
        kind: 2,
        op: number_of(write.op()),
        revision: write.revision(),
        key_size: 0,
        size: size as u64,
        value_size: size,
        has_value: write.op().is_put(),
    }
}

/// Hands out a stored write without its key, with its value copied. Where there is too little room, the item tells how
/// much is needed, and nothing is copied.
pub(crate) fn hand_write(write: &Write, room: &mut [u8], item: &mut Item) -> u64
    ensures entry { result ≡ 0 → IsEntry (Some write.now) item.new room.new }
    ensures code { result ≡ value_code room.old write.now }
    ensures wants { TellsWrite write.now item.new }
    ensures room { ¬ (result ≡ 0) → room.new ≡ room.old }
{
    *item = write_item(write);
    if copy_into(room, write.value()) {
        0
    } else {
        TOO_LITTLE_ROOM
    }
}

fn value_fits(value: Option<&[u8]>, values: &[u8]) -> bool
    ensures { result ≡ value_fits (option_copied value.entry) values.now }
{
    match value {
        Some(value) => value.len() <= values.len(),
        None => true,
    }
}

fn entry_fits(shown: &Shown<'_>, keys: &[u8], values: &[u8]) -> bool
    ensures { result ≡ entry_fits (entry_shown shown.now) keys.now values.now }
{
    shown.key().as_str().len() <= keys.len() && value_fits(shown.value(), values)
}

// The item of an entry, which tells also how much room its key and its value need. Nothing is copied.
fn entry_item(shown: &Shown<'_>) -> Item
    ensures wants { Wants result (AnsweredEntry (entry_shown shown.now)) }
    ensures told { (keys values : List ℕ) → AreCopied keys values (entry_shown shown.now) →
        told result keys values ≡ AnsweredEntry (entry_shown shown.now) }
{
    let item = Item {
        kind: 2,
        op: number_of(shown.op()),
        revision: shown.revision(),
        key_size: shown.key().as_str().len(),
        size: shown.size(),
        value_size: 0,
        has_value: false,
    };
    match shown.value() {
        Some(value) => Item {
            value_size: value.len(),
            has_value: true,
            ..item
        },
        None => item,
    }
}

fn copy_value(value: Option<&[u8]>, values: &mut [u8]) -> bool
    ensures fits { result ≡ value_fits (option_copied value.entry) values.old }
    ensures copied { IsTrue result → IsValueCopied values.new (option_copied value.entry) }
    ensures unchanged { IsFalse result → values.new ≡ values.old }
{
    match value {
        Some(value) => copy_into(values, value),
        None => true,
    }
}

// Copies key and value of an entry, where there is enough room for both; else nothing changes.
fn copy_entry(shown: &Shown<'_>, keys: &mut [u8], values: &mut [u8]) -> bool
    ensures fits { result ≡ entry_fits (entry_shown shown.now) keys.old values.old }
    ensures copied { IsTrue result → AreCopied keys.new values.new (entry_shown shown.now) }
    ensures unchanged { IsFalse result → (keys.new ≡ keys.old) × (values.new ≡ values.old) }
{
    if !entry_fits(shown, keys, values) {
        return false;
    }
    copy_into(keys, shown.key().as_str().as_bytes());
    copy_value(shown.value(), values)
}

fn hand_entry(shown: &Shown<'_>, keys: &mut [u8], values: &mut [u8], item: &mut Item) -> u64
    ensures told { result ≡ 0 → told item.new keys.new values.new ≡ AnsweredEntry (entry_shown shown.now) }
    ensures code { result ≡ room_code (entry_fits (entry_shown shown.now) keys.old values.old) }
    ensures wants { Wants item.new (AnsweredEntry (entry_shown shown.now)) }
    ensures room { ¬ (result ≡ 0) → (keys.new ≡ keys.old) × (values.new ≡ values.old) }
{
    *item = entry_item(shown);
    if copy_entry(shown, keys, values) {
        0
    } else {
        TOO_LITTLE_ROOM
    }
}

/// Hands out what a take shows, with key and value copied. Where there is too little room, the item tells how much is
/// needed, and nothing is copied.
pub(crate) fn hand(taken: &Taken<'_>, keys: &mut [u8], values: &mut [u8], item: &mut Item) -> u64
    ensures told { result ≡ 0 → told item.new keys.new values.new ≡ answer_item (item_taken taken.now) }
    ensures code { result ≡ taken_code keys.old values.old (answer_item (item_taken taken.now)) }
    ensures sizes { result ≡ 0 → HasSizes item.new (answer_item (item_taken taken.now)) }
    ensures wants { result ≡ 33 → Wants item.new (answer_item (item_taken taken.now)) }
    ensures untold { ¬ (result ≡ 0) → ¬ (result ≡ 33) → item.new ≡ item.old }
    ensures room { ¬ (result ≡ 0) → (keys.new ≡ keys.old) × (values.new ≡ values.old) }
{
    match taken {
        Taken::Entry(shown) => hand_entry(shown, keys, values, item),
        Taken::Marker => {
            *item = empty_item(1);
            0
        }
        Taken::Empty => {
            *item = empty_item(0);
            0
        }
    }
}
