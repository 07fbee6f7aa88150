//! From the bytes of a record to what they say.

ghost use Rattle.std.specs.Prelude.{◌≡◌, ◌≢◌, ◌++◌, ◌∷◌, [], ℕ, List, true, false, length, IfErr, IfOk, MatchOption};
ghost use Rattle.std.specs.Int.{w64, to_be_bytes};
ghost use Rattle.kv_keys.specs.Grammar.{is_key};
ghost use Rattle.kv_keys.specs.declared.error.KvError.TheVariants.{OutOfMemory};
ghost use Rattle.kv_model.specs.Acts.{is_put};
ghost use Rattle.kv_model.specs.Requests.{asked, key_of, op_of, value_of};
ghost use Rattle.kv_model.specs.declared.write.Op.{Op as AnOp};
ghost use Rattle.kv_journal.specs.Records.{Content, IsRecordable, kind_of, record_of};
ghost use Rattle.kv_journal.specs.Says.{IsPlain, Says, SaysWrite};

use kv_keys::{Key, KvError};
use kv_model::{Op, Request};
use std::alloc::Global;

/// What a record says.
#[derive(Drop)]
pub enum Record {
    /// A write: a put, or a delete or purge that asks for no last revision.
    Write(Request),
    /// A seal.
    Seal,
    /// A compaction to this floor.
    Compact(u64),
    /// A clean end, when so many writes had been accepted.
    Closed(u64),
}

fn op_of(kind: u8) -> Option<Op>
    ensures { MatchOption result ((op : AnOp) → kind_of op ≢ kind) (λ op. kind_of op ≡ kind) }
{
    match kind {
        1 => Some(Op::Put),
        2 => Some(Op::Delete),
        3 => Some(Op::Purge),
        _ => None,
    }
}

// The number in eight bytes.
fn number_in(bytes: &[u8]) -> Option<u64>
    ensures { MatchOption result ((number : ℕ) → bytes.now ≢ to_be_bytes w64 number)
        (λ number. bytes.now ≡ to_be_bytes w64 number) }
{
    let [a, b, c, d, e, f, g, h] = bytes else {
        return None;
    };
    Some(u64::from_be_bytes([*a, *b, *c, *d, *e, *f, *g, *h]))
}

// The key of these bytes, if they are one.
#[tactic(auto, using(crate::proofs::Ascii::no_key))]
fn key_in(alloc: Global, bytes: &[u8]) -> Result<Option<Key>, KvError>
    ensures ok { IfOk result
        (λ found. MatchOption found (is_key bytes.now ≡ false) (λ key. (key ≡ bytes.now) × (is_key bytes.now ≡ true))) }
    ensures err { IfErr result (λ e. e ≡ OutOfMemory) }
{
    let Ok(text) = str::from_utf8(bytes) else {
        return Ok(None);
    };
    match Key::parse(alloc, text) {
        Ok(key) => Ok(Some(key)),
        Err(KvError::OutOfMemory) => Err(KvError::OutOfMemory),
        Err(_) => Ok(None),
    }
}

// The request for the write. A marker has no value.
fn request_of(alloc: Global, op: Op, key: Key, value: &[u8]) -> Result<Option<Request>, KvError>
    ensures ok { IfOk result
        (λ found. MatchOption found ((is_put op ≡ false) × (value.now ≢ []))
        (λ r. IsPlain (asked r) × (op_of (asked r) ≡ op) × (key_of (asked r) ≡ key) × (value_of (asked r) ≡ value.now))) }
    ensures err { IfErr result (λ e. e ≡ OutOfMemory) }
{
    match op {
        Op::Put => {
            let value = Vec::from_slice(alloc, value)?;
            Ok(Some(Request::Put { key, value }))
        }
        Op::Delete => {
            if !value.is_empty() {
                return Ok(None);
            }
            Ok(Some(Request::Delete { key, last: None }))
        }
        Op::Purge => {
            if !value.is_empty() {
                return Ok(None);
            }
            Ok(Some(Request::Purge { key, last: None }))
        }
    }
}

// What stands behind the length of a key in a write's record.
fn write_in(alloc: Global, op: Op, len: u8, rest: &[u8]) -> Result<Option<Request>, KvError>
    ensures ok { IfOk result
        (λ found. MatchOption found
        ((key value : List ℕ) → rest.now ≡ key ++ value → length key ≡ len → is_key key ≡ true →
        (is_put op ≡ false → value ≡ []) → ⊥)
        (λ r. SaysWrite (asked r) (kind_of op ∷ len ∷ rest.now))) }
    ensures err { IfErr result (λ e. e ≡ OutOfMemory) }
{
    let len = usize::from(len);
    if rest.len() < len {
        return Ok(None);
    }
    let (key, value) = rest.split_at(len);
    let Some(key) = key_in(alloc, key)? else {
        return Ok(None);
    };
    request_of(alloc, op, key, value)
}

// The request for what stands behind the kind of a write's record.
pub(crate) fn request_in(alloc: Global, kind: u8, rest: &[u8]) -> Result<Option<Request>, KvError>
    ensures ok { IfOk result
        (λ found. MatchOption found
        ((op : AnOp) (key value : List ℕ) → kind_of op ≡ kind → rest.now ≡ length key ∷ (key ++ value) →
        is_key key ≡ true → (is_put op ≡ false → value ≡ []) → ⊥)
        (λ r. SaysWrite (asked r) (kind ∷ rest.now))) }
    ensures err { IfErr result (λ e. e ≡ OutOfMemory) }
{
    let Some(op) = op_of(kind) else {
        return Ok(None);
    };
    let [len, rest @ ..] = rest else {
        return Ok(None);
    };
    write_in(alloc, op, *len, rest)
}

// What stands behind the kind of a write's record.
fn write_of(alloc: Global, kind: u8, rest: &[u8]) -> Result<Option<Record>, KvError>
    ensures ok { IfOk result
        (λ found. MatchOption found
        ((op : AnOp) (key value : List ℕ) → kind_of op ≡ kind → rest.now ≡ length key ∷ (key ++ value) →
        is_key key ≡ true → (is_put op ≡ false → value ≡ []) → ⊥)
        (λ r. Says r (kind ∷ rest.now))) }
    ensures err { IfErr result (λ e. e ≡ OutOfMemory) }
{
    match request_in(alloc, kind, rest)? {
        Some(request) => Ok(Some(Record::Write(request))),
        None => Ok(None),
    }
}

fn seal_of(rest: &[u8]) -> Option<Record>
    ensures { MatchOption result (rest.now ≢ []) (λ r. Says r (4 ∷ rest.now)) }
{
    if rest.is_empty() {
        Some(Record::Seal)
    } else {
        None
    }
}

fn compaction_of(rest: &[u8]) -> Option<Record>
    ensures { MatchOption result ((floor : ℕ) → rest.now ≢ to_be_bytes w64 floor)
        (λ r. Says r (5 ∷ rest.now)) }
{
    match number_in(rest) {
        Some(floor) => Some(Record::Compact(floor)),
        None => None,
    }
}

fn closed_of(rest: &[u8]) -> Option<Record>
    ensures { MatchOption result ((last : ℕ) → rest.now ≢ to_be_bytes w64 last)
        (λ r. Says r (9 ∷ rest.now)) }
{
    match number_in(rest) {
        Some(last) => Some(Record::Closed(last)),
        None => None,
    }
}

impl Record {
    /// What these bytes say; none where they are no record of an act that can be accepted or of a clean end: another
    /// kind, a key that is none, a marker with a value, a number of another length than eight bytes.
    pub fn decode(alloc: Global, bytes: &[u8]) -> Result<Option<Record>, KvError>
        ensures ok { IfOk result
            (λ found. MatchOption found ((content : Content) → IsRecordable content → record_of content ≡ bytes.now → ⊥)
            (λ r. Says r bytes.now)) }
        ensures err { IfErr result (λ e. e ≡ OutOfMemory) }
    {
        let [kind, rest @ ..] = bytes else {
            return Ok(None);
        };
        if *kind == 4 {
            return Ok(seal_of(rest));
        }
        if *kind == 5 {
            return Ok(compaction_of(rest));
        }
        if *kind == 9 {
            return Ok(closed_of(rest));
        }
        write_of(alloc, *kind, rest)
    }
}
