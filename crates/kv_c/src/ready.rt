//! What a call on a bucket with a file leads to, made apart: the version and the frames that tell it. Nothing is changed.

ghost use Rattle.std.specs.Prelude.{◌≡◌, ◌<◌, ◌≤◌, ◌^◌, ◌∷◌, ℕ, List, true, false, Ok, Err, length, map, IfErr, IfOk, IsErrOf, OnOk};
ghost use Rattle.kv_c.specs.Filing.{is_stopped};
ghost use Rattle.kv_durable.specs.Durables.{Accepts, IsRefusal};
ghost use Rattle.kv_durable.specs.Journals.{IsFrameOf};
ghost use Rattle.kv_durable.specs.declared.error.BatchError.TheVariants as batches;
ghost use Rattle.kv_durable.specs.declared.error.DurableError.TheVariants.{FileFault, Refused};
ghost use Rattle.kv_journal.specs.Records.{act_records, asked_records, closed, did, did_all};
ghost use Rattle.kv_keys.specs.Outcome.{Refuses};
ghost use Rattle.kv_keys.specs.declared.error.KvError.{KvError as AnError};
ghost use Rattle.kv_keys.specs.declared.error.KvError.TheVariants.{OutOfMemory};
ghost use Rattle.kv_model.specs.Acceptance.{accept};
ghost use Rattle.kv_model.specs.Acts.{Act, Compact as ACompaction, Seal as ASeal, Wrote};
ghost use Rattle.kv_model.specs.Answers.{Compacted, Sealed};
ghost use Rattle.kv_model.specs.Batches.{IsRefusedAt};
ghost use Rattle.kv_model.specs.Requests.{asked, value_of, write_for};
ghost use Rattle.kv_model.specs.State.{State, may_compact};
ghost use Rattle.kv_model.specs.declared.batch.BatchRefused.{BatchRefused as ARefusal};
ghost use Rattle.kv_model.specs.declared.call.Call.TheVariants.{Compact, Seal};
ghost use Rattle.kv_single.specs.Batches.{IsBatch};
ghost use Rattle.kv_single.specs.Held.{Represents};
ghost use Rattle.kv_single.specs.Stepping.{IsStep};

use crate::filed::Filed;
use crate::made::Ready;
use crate::ringed::{NextVersion, Ringed};
use kv_durable::{BatchError, DurableError};
use kv_single::{BatchRefused, Bucket, KvError, Request};

/// No bucket takes a longer value.
pub(crate) const MOST_VALUE: usize = 1_048_576;

// The version with one write more. What no bucket takes is refused first, as the rules do.
fn next_of(bucket: &mut Ringed, request: &Request) -> Result<NextVersion, KvError>
    ensures config { IfOk result (λ next. next.config ≡ bucket.old.version.config) }
    ensures ok { IfOk result (λ next. Accepts bucket.old request.now next) }
    ensures short { OnOk result (length (value_of (asked request.now)) ≤ 1048576) }
    ensures refused { IfErr result (λ e. (state : State) → Represents state bucket.old →
        Refuses e (accept state.config (asked request.now) state.acts)) }
    ensures same { bucket.new ≡ bucket.old }
{
    if request.value().len() > MOST_VALUE {
        return Err(KvError::ValueTooLarge);
    }
    bucket.next(request)
}

/// A write.
pub(crate) fn ready_write(
    bucket: &mut Ringed,
    filed: &Filed,
    request: &Request,
) -> Result<Ready, DurableError>
    ensures goes { OnOk result (is_stopped filed.now ≡ false) }
    ensures config { IfOk result (λ r. r.next.config ≡ bucket.old.version.config) }
    ensures accepts { IfOk result (λ r. Accepts bucket.old request.now r.next) }
    ensures told { IfOk result (λ r. r.told ≡ r.next.last) }
    ensures frame { IfOk result (λ r. (revision : ℕ) →
        IsFrameOf filed.now.journal.value (did (Wrote (write_for (asked request.now) revision))) r.frames.items) }
    ensures short { IfOk result (λ r. length r.frames.items < 2 ^ 33) }
    ensures refused { IfErr result (λ e. (x : AnError) → e ≡ Refused x → (state : State) →
        Represents state bucket.old → Refuses x (accept state.config (asked request.now) state.acts)) }
    ensures fault { IsErrOf result FileFault → is_stopped filed.now ≡ true }
    ensures stopped { is_stopped filed.now ≡ true → result ≡ Err FileFault }
    ensures no_other { IfErr result IsRefusal }
    ensures same { bucket.new ≡ bucket.old }
{
    filed.may_add()?;
    let next = next_of(bucket, request)?;
    let frames = filed
        .journal
        .frame_of_write(bucket.single().alloc(), request)?;
    let told = next.version().revision();
    Ok(Ready { next, frames, told })
}

/// A batch, of a first request and the rest. Where its frame has no room, the last request is refused.
pub(crate) fn ready_batch(
    bucket: &Bucket,
    filed: &Filed,
    requests: &[Request],
    first: &Request,
    rest: &[Request],
) -> Result<Ready, BatchError>
    requires { requests.now ≡ first.now ∷ rest.now }
    ensures goes { OnOk result (is_stopped filed.now ≡ false) }
    ensures batch { IfOk result (λ r. IsBatch bucket.now requests.now r.told
        (record bucket.now { version = r.next })) }
    ensures frame { IfOk result (λ r. (acts : List Act) →
        act_records acts ≡ asked_records (map asked requests.now) →
        IsFrameOf filed.now.journal.value (did_all acts) r.frames.items) }
    ensures short { IfOk result (λ r. length r.frames.items < 2 ^ 33) }
    ensures refused { IfErr result (λ e. (x : ARefusal) → e ≡ batches.Refused x → (state : State) →
        Represents state bucket.now → IsRefusedAt state.config (map asked requests.now) state.acts x) }
    ensures fault { IsErrOf result batches.FileFault → is_stopped filed.now ≡ true }
    ensures stopped { is_stopped filed.now ≡ true → result ≡ Err batches.FileFault }
{
    filed.may_add()?;
    let alloc = bucket.alloc();
    let (next, told) = bucket.version().apply_all(alloc, first, rest)?;
    match filed.journal.frame_of_batch(alloc, requests) {
        Ok(frames) => Ok(Ready {
            next: NextVersion::apart(next),
            frames,
            told,
        }),
        Err(_) => Err(BatchError::Refused(BatchRefused {
            at: rest.len(),
            error: KvError::OutOfMemory,
        })),
    }
}

/// A seal.
pub(crate) fn ready_seal(bucket: &Bucket, filed: &Filed) -> Result<Ready, DurableError>
    ensures goes { OnOk result (is_stopped filed.now ≡ false) }
    ensures step { IfOk result (λ r. IsStep bucket.now Seal Sealed (record bucket.now { version = r.next })) }
    ensures frame { IfOk result (λ r. IsFrameOf filed.now.journal.value (did ASeal) r.frames.items) }
    ensures short { IfOk result (λ r. length r.frames.items < 2 ^ 33) }
    ensures refused { IfErr result (λ e. (x : AnError) → e ≡ Refused x → x ≡ OutOfMemory) }
    ensures fault { IsErrOf result FileFault → is_stopped filed.now ≡ true }
    ensures stopped { is_stopped filed.now ≡ true → result ≡ Err FileFault }
    ensures no_other { IfErr result IsRefusal }
{
    filed.may_add()?;
    let next = bucket.version().seal(bucket.alloc())?;
    let frames = filed.journal.frame_of_seal(bucket.alloc())?;
    Ok(Ready {
        next: NextVersion::apart(next),
        frames,
        told: 0,
    })
}

/// A compaction.
pub(crate) fn ready_compaction(
    bucket: &Bucket,
    filed: &Filed,
    floor: u64,
) -> Result<Ready, DurableError>
    ensures goes { OnOk result (is_stopped filed.now ≡ false) }
    ensures step { IfOk result
        (λ r. IsStep bucket.now (Compact floor) (Compacted floor) (record bucket.now { version = r.next })) }
    ensures frame { IfOk result (λ r. IsFrameOf filed.now.journal.value (did (ACompaction floor)) r.frames.items) }
    ensures may { OnOk result ((state : State) → Represents state bucket.now → may_compact floor state ≡ Ok floor) }
    ensures short { IfOk result (λ r. length r.frames.items < 2 ^ 33) }
    ensures refused { IfErr result (λ e. (x : AnError) → e ≡ Refused x → (state : State) →
        Represents state bucket.now → Refuses x (may_compact floor state)) }
    ensures fault { IsErrOf result FileFault → is_stopped filed.now ≡ true }
    ensures stopped { is_stopped filed.now ≡ true → result ≡ Err FileFault }
    ensures no_other { IfErr result IsRefusal }
{
    filed.may_add()?;
    bucket.may_compact(floor)?;
    let next = bucket.version().compact(bucket.alloc(), floor)?;
    let frames = filed.journal.frame_of_compaction(bucket.alloc(), floor)?;
    Ok(Ready {
        next: NextVersion::apart(next),
        frames,
        told: 0,
    })
}

/// A clean end of the file: its frame.
pub(crate) fn ready_end(bucket: &Bucket, filed: &Filed) -> Result<Vec<u8>, DurableError>
    ensures goes { OnOk result (is_stopped filed.now ≡ false) }
    ensures frame { IfOk result (λ v. IsFrameOf filed.now.journal.value (closed bucket.now.version.last) v.items) }
    ensures short { IfOk result (λ v. length v.items < 2 ^ 33) }
    ensures refused { IfErr result (λ e. (x : AnError) → e ≡ Refused x → x ≡ OutOfMemory) }
    ensures fault { IsErrOf result FileFault → is_stopped filed.now ≡ true }
    ensures stopped { is_stopped filed.now ≡ true → result ≡ Err FileFault }
    ensures no_other { IfErr result IsRefusal }
{
    filed.may_add()?;
    let last = bucket.version().revision();
    let frame = filed.journal.frame_of_end(bucket.alloc(), last)?;
    Ok(frame)
}
