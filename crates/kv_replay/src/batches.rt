//! Answers to batches.

ghost use Rattle.std.specs.Prelude.{◌≡◌, ◌≢◌, ◌⊎◌, ◌<◌, ◌+◌, ◌++◌, [], Err, OnOk, OnErr, IfErr, IsErrOf, length, map};
ghost use Rattle.kv_single.specs.Held.{Represents};
ghost use Rattle.kv_model.specs.Batches.{accept_all, after_batch};
ghost use Rattle.kv_model.specs.Requests.{asked};
ghost use Rattle.kv_model.specs.State.{State};
ghost use Rattle.kv_keys.specs.declared.error.KvError.TheVariants.{OutOfMemory};
ghost use Rattle.kv_script.specs.Text.{batch_refusal_text};
ghost use Rattle.kv_replay.specs.Batches.{outcome, outcome_text};
ghost use Rattle.kv_replay.specs.Faults.{IsWriteOrMemory};
ghost use Rattle.kv_replay.specs.inside.Leaving.{LeavesLine};
ghost use Rattle.kv_replay.specs.inside.Written.{Pours, Puts};

use crate::batch::Batch;
use crate::output::Output;
use crate::pouring::pour_many;
use crate::target::Target;
use kv_keys::KvError;
use kv_script::{append_batch_refusal, append_revisions};
use kv_single::Request;
use std::alloc::Global;

/// The number from 1 of the line at this index from 0 of so many.
fn number_of(at: usize, count: usize) -> u64
    ensures { at < count → result ≡ at + 1 }
{
    if at < count { at as u64 + 1 } else { 0 }
}

/// A batch that the bucket refused, by the number of its line from 1.
fn answer_refused(
    alloc: Global,
    number: u64,
    error: KvError,
    out: &mut Vec<u8>,
) -> Result<(), KvError>
    ensures cause { OnOk result (error ≢ OutOfMemory) }
    ensures ok { OnOk result (out.new.items ≡ out.old.items ++ batch_refusal_text number error) }
    ensures err { OnErr result (out.new.items ≡ out.old.items) }
    ensures memory { IfErr result (λ e. e ≡ OutOfMemory) }
{
    match error {
        KvError::OutOfMemory => Err(KvError::OutOfMemory),
        other => {
            append_batch_refusal(alloc, out, number, other)?;
            Ok(())
        }
    }
}

/// Does all that is asked in one step, or nothing. After want of memory nothing was appended.
fn answer_requests<T: Target>(
    alloc: Global,
    target: &mut T,
    requests: &[Request],
    out: &mut Vec<u8>,
) -> Result<(), KvError>
    ensures kept { T.goes_on target.old target.new }
    ensures ok { OnOk result ((state : State) → Represents state (T.bucket target.old) →
        (out.new.items
        ≡ out.old.items ++ outcome_text (accept_all state.config (map asked requests.now) state.acts))
        × Represents (after_batch state (accept_all state.config (map asked requests.now) state.acts)) (T.bucket target.new)) }
    ensures err { OnErr result (out.new.items ≡ out.old.items) }
    ensures left { OnErr result ((state : State) → Represents state (T.bucket target.old) →
        Represents state (T.bucket target.new)
        ⊎ Represents (after_batch state (accept_all state.config (map asked requests.now) state.acts)) (T.bucket target.new)) }
    ensures memory { IfErr result (λ e. e ≡ OutOfMemory) }
{
    let before = target.as_bucket().version().revision();
    match target.write_all(requests) {
        Ok(_) => {
            let last = target.as_bucket().version().revision();
            append_revisions(alloc, out, before, last)?;
            Ok(())
        }
        Err(refused) => {
            let number = number_of(refused.at, requests.len());
            answer_refused(alloc, number, refused.error, out)
        }
    }
}

/// A batch that is refused for a line that asks for no write, behind so many that do.
fn answer_unread(
    alloc: Global,
    before: &[Request],
    error: KvError,
    out: &mut Vec<u8>,
) -> Result<(), KvError>
    ensures ok { OnOk result (out.new.items
        ≡ out.old.items ++ outcome_text (Err (record { at = length before.now; error = error }))) }
    ensures err { OnErr result (out.new.items ≡ out.old.items) }
    ensures memory { IfErr result (λ e. e ≡ OutOfMemory) }
{
    append_batch_refusal(alloc, out, before.len() as u64 + 1, error)?;
    Ok(())
}

/// Ends a batch: does what its lines ask for. After want of memory nothing was appended.
fn answer_batch<T: Target>(
    alloc: Global,
    target: &mut T,
    batch: &Batch,
    out: &mut Vec<u8>,
) -> Result<(), KvError>
    ensures kept { T.goes_on target.old target.new }
    ensures ok { OnOk result ((state : State) → Represents state (T.bucket target.old) →
        (out.new.items ≡ out.old.items ++ outcome_text (outcome state batch.now.asked))
        × Represents (after_batch state (outcome state batch.now.asked)) (T.bucket target.new)) }
    ensures err { OnErr result (out.new.items ≡ out.old.items) }
    ensures left { OnErr result ((state : State) → Represents state (T.bucket target.old) →
        Represents state (T.bucket target.new)
        ⊎ Represents (after_batch state (outcome state batch.now.asked)) (T.bucket target.new)) }
    ensures memory { IfErr result (λ e. e ≡ OutOfMemory) }
{
    match batch.asked() {
        (requests, None) => answer_requests(alloc, target, requests, out),
        (before, Some(error)) => answer_unread(alloc, before, error, out),
    }
}

/// Ends a batch. Its answer waits behind others, and is written where they are many.
pub(crate) fn pour_batch<T: Target, K: Output>(
    alloc: Global,
    target: &mut T,
    batch: &Batch,
    out: &mut Vec<u8>,
    sink: &mut K,
) -> Result<(), KvError>
    ensures kept { T.goes_on target.old target.new }
    ensures same { K.goes_on sink.old sink.new }
    ensures ok { OnOk result ((state : State) → Represents state (T.bucket target.old) →
        Pours (outcome_text (outcome state batch.now.asked)) (K.held sink.old) out.old.items
        (K.held sink.new) out.new.items
        × Represents (after_batch state (outcome state batch.now.asked)) (T.bucket target.new)) }
    ensures write_fault { IsErrOf result KvError.WriteFault →
        K.failed_between sink.old sink.new × ((state : State) → Represents state (T.bucket target.old) →
        Puts (out.old.items ++ outcome_text (outcome state batch.now.asked)) (K.held sink.old) (K.held sink.new)) }
    ensures memory { IsErrOf result KvError.OutOfMemory →
        Pours [] (K.held sink.old) out.old.items (K.held sink.new) out.new.items }
    ensures left { OnErr result ((state : State) → Represents state (T.bucket target.old) →
        LeavesLine state.acts (after_batch state (outcome state batch.now.asked)).acts (T.bucket target.new)
        (K.held sink.old) out.old.items (K.held sink.new) out.new.items) }
    ensures fault { IfErr result IsWriteOrMemory }
{
    answer_batch(alloc, target, batch, out)?;
    pour_many(out, sink)
}
