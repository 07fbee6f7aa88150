//! The checkpoint of a version: what it stores, in frames.

ghost use Rattle.std.specs.Prelude.{◌≡◌, ◌<◌, ◌^◌, ◌++◌, ◌∷◌, [], Bool, List, length, map, IfOk, OnOk};
ghost use Rattle.kv_frames.specs.Frames.{ArePayloads, IsPayload, frames};
ghost use Rattle.kv_model.specs.Acts.{Act};
ghost use Rattle.kv_store.specs.Standing.{StandsFor};
ghost use Rattle.kv_journal.specs.Checkpoints.{checkpoint_of, checkpoint_payloads, numbers_record, settled_payload, stored_payload};

use crate::encode::push_write;
use kv_frames::Framing;
use kv_model::Write;
use kv_store::Version;
use std::alloc::{AllocError, Global};

// No bucket takes a longer value.
const MOST_VALUE: usize = 1_048_576;

// The payload of a stored write. What no bucket can store is refused as if memory for it were.
fn stored_payload(alloc: Global, write: &Write) -> Result<Vec<u8>, AllocError>
    ensures items { IfOk result (λ v. v.items ≡ stored_payload write.now) }
    ensures payload { IfOk result (λ v. IsPayload v.items) }
{
    let Ok(revision) = u32::try_from(write.revision()) else {
        return Err(AllocError);
    };
    if write.value().len() > MOST_VALUE {
        return Err(AllocError);
    }
    let mut bytes = Vec::new(alloc);
    bytes.extend_from_slice(&[0, 0, 0, 0, 7])?;
    bytes.extend_from_slice(&revision.to_be_bytes())?;
    push_write(&mut bytes, write.op(), write.key(), write.value())?;
    Ok(bytes)
}

// The payload of a version's numbers.
fn numbers_payload(alloc: Global, version: &Version) -> Result<Vec<u8>, AllocError>
    ensures items { IfOk result (λ v. v.items
        ≡ settled_payload (numbers_record version.now.last version.now.values version.now.floor version.now.sealed)) }
    ensures payload { IfOk result (λ v. IsPayload v.items) }
{
    let status = version.status();
    let sealed = if status.sealed { 1 } else { 0 };
    let mut bytes = Vec::new(alloc);
    bytes.extend_from_slice(&[0, 0, 0, 0, 8])?;
    bytes.extend_from_slice(&status.last.to_be_bytes())?;
    bytes.extend_from_slice(&status.values.to_be_bytes())?;
    bytes.extend_from_slice(&version.floor().to_be_bytes())?;
    bytes.push(sealed)?;
    Ok(bytes)
}

// Adds the frame of a stored write.
fn push_stored(
    alloc: Global,
    out: &mut Vec<u8>,
    framing: &Framing,
    write: &Write,
) -> Result<(), AllocError>
    ensures items { OnOk result (out.new.items ≡ out.old.items ++ frames framing.now.seed (length out.old.items)
        (stored_payload write.now ∷ [])) }
    ensures payload { OnOk result (IsPayload (stored_payload write.now)) }
{
    let payload = stored_payload(alloc, write)?;
    framing.push_frame(out, out.len() as u64, &payload)
}

// Adds the frames of stored writes, each of which stands behind its revision.
fn push_all_stored(
    alloc: Global,
    out: &mut Vec<u8>,
    framing: &Framing,
    writes: &[(u64, &Write)],
) -> Result<(), AllocError>
    ensures items { OnOk result (out.new.items ≡ out.old.items ++ frames framing.now.seed (length out.old.items)
        (map stored_payload (map (λ f. f.1.now) writes.now))) }
    ensures payloads { OnOk result (ArePayloads (map stored_payload (map (λ f. f.1.now) writes.now))) }
{
    for numbered in writes {
        push_stored(alloc, out, framing, numbered.1)?;
    }
    Ok(())
}

/// Adds the frames of the checkpoint of a version behind what is there of its file. It looks at each stored write once, and
/// sorts them.
pub fn push_checkpoint(
    alloc: Global,
    out: &mut Vec<u8>,
    framing: &Framing,
    version: &Version,
) -> Result<(), AllocError>
    ensures items { OnOk result ((acts : List Act) → StandsFor acts version.now →
        out.new.items ≡ out.old.items ++ frames framing.now.seed (length out.old.items)
        (checkpoint_payloads (checkpoint_of version.now.config acts))) }
    ensures payloads { OnOk result ((acts : List Act) → StandsFor acts version.now →
        ArePayloads (checkpoint_payloads (checkpoint_of version.now.config acts))) }
{
    let writes = version.stored_writes(alloc)?;
    push_all_stored(alloc, out, framing, &writes)?;
    let payload = numbers_payload(alloc, version)?;
    framing.push_frame(out, out.len() as u64, &payload)
}
