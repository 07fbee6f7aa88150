//! What the frames of a checkpoint tell, one after the other.

ghost use Rattle.std.specs.Prelude.{◌≡◌, ◌+◌, ◌<◌, ◌^◌, ◌++◌, ℕ, List, length, IfErr, IfOk, MatchOption};
ghost use Rattle.kv_frames.specs.Frames.{ArePayloads, frames, offset_after};
ghost use Rattle.kv_model.specs.Acceptance.{IsLawful};
ghost use Rattle.kv_model.specs.Acts.{Act, Wrote, Write as AWrite};
ghost use Rattle.kv_model.specs.Configuration.{Configuration, IsLegal};
ghost use Rattle.kv_model.specs.Requests.{asked, write_for};
ghost use Rattle.kv_journal.specs.Checkpoints.{checkpoint_of, checkpoint_payloads, stored_payload};
ghost use Rattle.kv_journal.specs.Records.{IsRecordableAct, write_record};
ghost use Rattle.kv_journal.specs.Replays.{IsDamaged};
ghost use Rattle.kv_journal.specs.Restored.{IsOnly};
ghost use Rattle.kv_journal.specs.inside.Contents.{checkpoint_told};

use crate::decode::request_in;
use crate::loose::number_of;
use crate::numbers::{Numbers, behind_kind, numbers_in};
use crate::replays::ReplayError;
use kv_frames::Framing;
use kv_model::Request;
use std::alloc::{AllocError, Global};

/// The stored writes of a checkpoint, each as a revision and what asks for it, its numbers, and where its frames end.
#[derive(Drop)]
pub(crate) struct Contents {
    pub writes: Vec<(u64, Request)>,
    pub numbers: Numbers,
    pub offset: u64,
}

// The request of the write whose record this is.
fn request_told(alloc: Global, bytes: &[u8]) -> Result<Option<Request>, AllocError>
    ensures { IfOk result
        (λ found. MatchOption found
        ((w : AWrite) → IsRecordableAct (Wrote w) → write_record w.op w.key w.value ≡ bytes.now → ⊥)
        (λ r. (revision : ℕ) → write_record (write_for (asked r) revision).op (write_for (asked r) revision).key (write_for (asked r) revision).value ≡ bytes.now)) }
{
    let [kind, rest @ ..] = bytes else {
        return Ok(None);
    };
    match request_in(alloc, *kind, rest) {
        Ok(request) => Ok(request),
        Err(_) => Err(AllocError),
    }
}

// The stored write that a payload tells.
fn write_in(alloc: Global, payload: &[u8]) -> Result<Option<(u64, Request)>, AllocError>
    ensures { IfOk result
        (λ found. MatchOption found
        ((w : AWrite) → IsRecordableAct (Wrote w) → w.revision < 2 ^ 32 → stored_payload w ≡ payload.now → ⊥)
        (λ t. (stored_payload (write_for (asked t.1) t.0) ≡ payload.now) × (t.0 < 2 ^ 32))) }
{
    let Some(rest) = behind_kind(payload, 7) else {
        return Ok(None);
    };
    let Some((revision, record)) = number_of(rest) else {
        return Ok(None);
    };
    match request_told(alloc, record)? {
        Some(request) => Ok(Some((u64::from(revision), request))),
        None => Ok(None),
    }
}

impl Contents {
    /// Those of the checkpoint whose frames stand at the front of the bytes, the first at this offset. Where they tell of none, it
    /// is the frame from which on they do.
    pub(crate) fn of(
        alloc: Global,
        framing: &Framing,
        at: u64,
        bytes: &[u8],
    ) -> Result<Contents, ReplayError>
        requires { at + length bytes.now < 2 ^ 64 }
        ensures ok { IfOk result (λ c. (rest : List ℕ)
            × (bytes.now ≡ frames framing.now.seed at (checkpoint_payloads (checkpoint_told c)) ++ rest)
            × ArePayloads (checkpoint_payloads (checkpoint_told c))
            × (c.offset ≡ offset_after at (checkpoint_payloads (checkpoint_told c)))
            × ((config : Configuration) → IsLegal config → IsOnly config framing.now.seed at bytes.now (checkpoint_told c))) }
        ensures damaged { IfErr result (λ e. IsDamaged e → (config : Configuration) (acts : List Act) (rest : List ℕ) →
            IsLegal config → IsLawful config acts → ArePayloads (checkpoint_payloads (checkpoint_of config acts)) →
            bytes.now ≡ frames framing.now.seed at (checkpoint_payloads (checkpoint_of config acts)) ++ rest → ⊥) }
    {
        let mut writes = Vec::new(alloc);
        let mut offset = at;
        let mut rest = bytes;
        while let Some((payload, after)) = framing.frame_at(offset, rest) {
            match write_in(alloc, payload)? {
                Some(write) => writes.push(write)?,
                None => {
                    let Some(numbers) = numbers_in(payload) else {
                        return Err(ReplayError::Damaged { at: offset });
                    };
                    let offset = offset + 8 + payload.len() as u64;
                    return Ok(Contents {
                        writes,
                        numbers,
                        offset,
                    });
                }
            }
            offset += 8 + payload.len() as u64;
            rest = after;
        }
        Err(ReplayError::Damaged { at: offset })
    }
}
