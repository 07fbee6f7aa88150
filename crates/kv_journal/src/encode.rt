//! From acts to entries.

ghost use Rattle.std.specs.Prelude.{◌≡◌, ◌+◌, ◌++◌, ◌∷◌, [], ◌<◌, ◌≤◌, ◌^◌, ℕ, length, map, IfOk, OnOk};
ghost use Rattle.std.specs.Int.{w32, w64, to_be_bytes};
ghost use Rattle.kv_frames.specs.Frames.{IsPayload};
ghost use Rattle.kv_journal.specs.Entries.{payload_of};
ghost use Rattle.kv_journal.specs.Records.{asked_record, asked_records, closed, did, kind_of, write_record};
ghost use Rattle.kv_model.specs.Acts.{Compact, Seal, Wrote};
ghost use Rattle.kv_model.specs.Requests.{asked, value_of, write_for};

use kv_keys::Key;
use kv_model::{Op, Request};
use std::alloc::{AllocError, Global};

// A batch is added to while its payload has no more bytes, and no value in it has more.
const MOST_BATCH: usize = 1_073_741_824;

fn kind_of(op: Op) -> u8
    ensures { result ≡ kind_of op }
{
    match op {
        Op::Put => 1,
        Op::Delete => 2,
        Op::Purge => 3,
    }
}

// The bytes of a key.
fn bytes_of(key: &Key) -> &[u8]
    ensures value { result.now ≡ key.now }
    ensures fits { length result.now ≤ 255 }
{
    key.as_str().as_bytes()
}

// Adds the record of a write.
pub(crate) fn push_write(
    out: &mut Vec<u8>,
    op: Op,
    key: &Key,
    value: &[u8],
) -> Result<(), AllocError>
    ensures items { OnOk result (out.new.items ≡ out.old.items ++ write_record op key.now value.now) }
    ensures fits { length key.now ≤ 255 }
{
    let key = bytes_of(key);
    out.push(kind_of(op))?;
    out.push(key.len() as u8)?;
    out.extend_from_slice(key)?;
    out.extend_from_slice(value)?;
    Ok(())
}

fn encode_write(
    alloc: Global,
    loose: u32,
    op: Op,
    key: &Key,
    value: &[u8],
) -> Result<Vec<u8>, AllocError>
    requires { length value.now < 2 ^ 31 }
    ensures items { IfOk result (λ v. v.items ≡ to_be_bytes w32 loose ++ write_record op key.now value.now) }
    ensures payload { IfOk result (λ v. IsPayload v.items) }
{
    let mut bytes = Vec::with_capacity(alloc, 6 + bytes_of(key).len() + value.len())?;
    bytes.extend_from_slice(&loose.to_be_bytes())?;
    push_write(&mut bytes, op, key, value)?;
    Ok(bytes)
}

/// The payload of the entry of an accepted request, before whose frame so many bytes are loose. What the request asks of
/// the key is not in it, and so it is that of a put where the request is a create or an update.
pub fn encode_request(alloc: Global, loose: u32, request: &Request) -> Result<Vec<u8>, AllocError>
    requires { length (value_of (asked request.now)) < 2 ^ 31 }
    ensures items { IfOk result (λ v. (revision : ℕ) → v.items ≡ payload_of (record {
      loose = loose;
      content = did (Wrote (write_for (asked request.now) revision));
    })) }
    ensures payload { IfOk result (λ v. IsPayload v.items) }
{
    encode_write(alloc, loose, request.op(), request.key(), request.value())
}

// How many bytes the record of a request has.
fn len_of(request: &Request) -> usize
    requires { length (value_of (asked request.now)) ≤ 1073741824 }
    ensures value { result ≡ length (asked_record (asked request.now)) }
    ensures few { result ≤ 1073742081 }
{
    2 + bytes_of(request.key()).len() + request.value().len()
}

// Adds the record of a request behind its length.
fn push_part(out: &mut Vec<u8>, request: &Request) -> Result<(), AllocError>
    requires { length (value_of (asked request.now)) ≤ 1073741824 }
    ensures items { OnOk result (out.new.items ≡ out.old.items ++ asked_records (asked request.now ∷ [])) }
    ensures few { OnOk result (length out.new.items ≤ length out.old.items + 1073742085) }
{
    let len = len_of(request);
    out.extend_from_slice(&(len as u32).to_be_bytes())?;
    push_write(out, request.op(), request.key(), request.value())?;
    Ok(())
}

// Adds the record of a request behind its length, where what is there has no more than a gibibyte, nor the request.
fn push_some(out: &mut Vec<u8>, request: &Request) -> Result<(), AllocError>
    ensures items { OnOk result (out.new.items ≡ out.old.items ++ asked_records (asked request.now ∷ [])) }
    ensures few { OnOk result (length out.new.items < 2 ^ 32) }
{
    if out.len() > MOST_BATCH || request.value().len() > MOST_BATCH {
        return Err(AllocError);
    }
    push_part(out, request)
}

/// The payload of the entry of a batch of accepted requests. A batch whose records have more than a gibibyte before the
/// last is refused as if memory for it were.
pub fn encode_batch(alloc: Global, loose: u32, requests: &[Request]) -> Result<Vec<u8>, AllocError>
    ensures items { IfOk result
        (λ v. v.items ≡ to_be_bytes w32 loose ++ (10 ∷ asked_records (map asked requests.now))) }
    ensures payload { IfOk result (λ v. IsPayload v.items) }
{
    let mut bytes = Vec::new(alloc);
    bytes.extend_from_slice(&loose.to_be_bytes())?;
    bytes.push(10)?;
    let mut rest = requests;
    while let Some((request, more)) = rest.split_first() {
        push_some(&mut bytes, request)?;
        rest = more;
    }
    Ok(bytes)
}

// The payload of a record of this kind with a number.
fn encode_number(alloc: Global, loose: u32, kind: u8, number: u64) -> Result<Vec<u8>, AllocError>
    ensures items { IfOk result
        (λ v. v.items ≡ to_be_bytes w32 loose ++ (kind ∷ to_be_bytes w64 number)) }
    ensures payload { IfOk result (λ v. IsPayload v.items) }
{
    let mut bytes = Vec::new(alloc);
    bytes.extend_from_slice(&loose.to_be_bytes())?;
    bytes.push(kind)?;
    bytes.extend_from_slice(&number.to_be_bytes())?;
    Ok(bytes)
}

/// The payload of the entry of a seal.
pub fn encode_seal(alloc: Global, loose: u32) -> Result<Vec<u8>, AllocError>
    ensures items { IfOk result (λ v. v.items ≡ payload_of (record { loose = loose; content = did Seal })) }
    ensures payload { IfOk result (λ v. IsPayload v.items) }
{
    let mut bytes = Vec::new(alloc);
    bytes.extend_from_slice(&loose.to_be_bytes())?;
    bytes.push(4)?;
    Ok(bytes)
}

/// The payload of the entry of a compaction to this floor.
pub fn encode_compaction(alloc: Global, loose: u32, floor: u64) -> Result<Vec<u8>, AllocError>
    ensures items { IfOk result
        (λ v. v.items ≡ payload_of (record { loose = loose; content = did (Compact floor) })) }
    ensures payload { IfOk result (λ v. IsPayload v.items) }
{
    encode_number(alloc, loose, 5, floor)
}

/// The payload of the entry of a clean end, when so many writes have been accepted.
pub fn encode_closed(alloc: Global, loose: u32, last: u64) -> Result<Vec<u8>, AllocError>
    ensures items { IfOk result
        (λ v. v.items ≡ payload_of (record { loose = loose; content = closed last })) }
    ensures payload { IfOk result (λ v. IsPayload v.items) }
{
    encode_number(alloc, loose, 9, last)
}
