//! What a write leads to that is made behind calls that wait for the shell. Nothing is changed.

ghost use Rattle.std.specs.Prelude.{◌≡◌, ◌<◌, ◌≤◌, ◌^◌, ◌∷◌, [], ℕ, List, true, false, Ok, Err, length, IfErr, IfOk, IsErrOf, OnOk};
ghost use Rattle.kv_c.specs.Chaining.{IsFrameBehind};
ghost use Rattle.kv_c.specs.Filing.{is_stopped};
ghost use Rattle.kv_durable.specs.Durables.{Accepts, IsRefusal};
ghost use Rattle.kv_durable.specs.declared.error.DurableError.TheVariants.{FileFault, Refused};
ghost use Rattle.kv_frames.specs.Frames.{IsPayload, frames};
ghost use Rattle.kv_journal.specs.Records.{did};
ghost use Rattle.kv_keys.specs.Outcome.{Refuses};
ghost use Rattle.kv_keys.specs.declared.error.KvError.{KvError as AnError};
ghost use Rattle.kv_model.specs.Acceptance.{accept};
ghost use Rattle.kv_model.specs.Acts.{Wrote};
ghost use Rattle.kv_model.specs.Requests.{asked, value_of, write_for};
ghost use Rattle.kv_model.specs.State.{State};
ghost use Rattle.kv_single.specs.Held.{Represents};

use crate::filed::Filed;
use crate::made::Ready;
use crate::ready::MOST_VALUE;
use crate::ringed::NextVersion;
use kv_durable::DurableError;
use kv_frames::Framing;
use kv_journal::encode_request;
use kv_single::{Bucket, KvError, Request, Version};
use std::alloc::{AllocError, Global};

// The frame of a payload that is added next.
fn frame_of(alloc: Global, filed: &Filed, payload: &[u8]) -> Result<Vec<u8>, AllocError>
    requires { IsPayload payload.now }
    ensures items { IfOk result (λ v.
        v.items ≡ frames filed.now.journal.value.framing.seed filed.now.journal.value.appender.offset (payload.now ∷ [])) }
    ensures short { IfOk result (λ v. length v.items < 2 ^ 33) }
{
    let mut frame = Vec::new(alloc);
    Framing::new(filed.journal.seed()).push_frame(&mut frame, filed.journal.offset(), payload)?;
    Ok(frame)
}

// The frame of a write behind so many bytes that wait. It says that these are loose: the shell syncs behind all of them at
// once, so a crash can leave the later ones alone on the disk, and that is no damage.
fn frame_behind(
    alloc: Global,
    filed: &Filed,
    waiting: usize,
    request: &Request,
) -> Result<Vec<u8>, AllocError>
    requires value { length (value_of (asked request.now)) ≤ 1048576 }
    requires few { waiting ≤ 16777216 }
    ensures is { IfOk result (λ v. (revision : ℕ) →
        IsFrameBehind filed.now waiting (did (Wrote (write_for (asked request.now) revision))) v.items) }
    ensures short { IfOk result (λ v. length v.items < 2 ^ 33) }
{
    let payload = encode_request(alloc, waiting as u32, request)?;
    frame_of(alloc, filed, &payload)
}

// The version with one write more than this one. What no bucket takes is refused first, as the rules do.
fn next_behind(bucket: &Bucket, version: &Version, request: &Request) -> Result<Version, KvError>
    ensures config { IfOk result (λ next. next.config ≡ version.now.config) }
    ensures ok { IfOk result (λ next. Accepts (record bucket.now { version = version.now }) request.now next) }
    ensures short { OnOk result (length (value_of (asked request.now)) ≤ 1048576) }
    ensures refused { IfErr result (λ e. (state : State) → Represents state (record bucket.now { version = version.now }) →
        Refuses e (accept state.config (asked request.now) state.acts)) }
{
    if request.value().len() > MOST_VALUE {
        return Err(KvError::ValueTooLarge);
    }
    version.apply(bucket.alloc(), request)
}

/// A write to the bucket as it is at this version, behind so many bytes that wait.
pub(crate) fn ready_more(
    bucket: &Bucket,
    version: &Version,
    filed: &Filed,
    waiting: usize,
    request: &Request,
) -> Result<Ready, DurableError>
    requires { waiting ≤ 16777216 }
    ensures goes { OnOk result (is_stopped filed.now ≡ false) }
    ensures config { IfOk result (λ r. r.next.config ≡ version.now.config) }
    ensures accepts { IfOk result (λ r. Accepts (record bucket.now { version = version.now }) request.now r.next) }
    ensures told { IfOk result (λ r. r.told ≡ r.next.last) }
    ensures frame { IfOk result (λ r. (revision : ℕ) →
        IsFrameBehind filed.now waiting (did (Wrote (write_for (asked request.now) revision))) r.frames.items) }
    ensures short { IfOk result (λ r. length r.frames.items < 2 ^ 33) }
    ensures refused { IfErr result (λ e. (x : AnError) → e ≡ Refused x → (state : State) →
        Represents state (record bucket.now { version = version.now }) → Refuses x (accept state.config (asked request.now) state.acts)) }
    ensures fault { IsErrOf result FileFault → is_stopped filed.now ≡ true }
    ensures stopped { is_stopped filed.now ≡ true → result ≡ Err FileFault }
    ensures no_other { IfErr result IsRefusal }
{
    filed.may_add()?;
    let next = next_behind(bucket, version, request)?;
    let frames = frame_behind(bucket.alloc(), filed, waiting, request)?;
    let told = next.revision();
    Ok(Ready {
        next: NextVersion::apart(next),
        frames,
        told,
    })
}
