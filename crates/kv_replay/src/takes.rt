//! Answers to takes.

ghost use Rattle.std.specs.Prelude.{◌≡◌, ◌++◌, IfOk, OnOk, OnErr, IfErr, IsErrOf};
ghost use Rattle.kv_model.specs.Answers.{answer_item};
ghost use Rattle.kv_model.specs.further.Events.{event_answered};
ghost use Rattle.kv_single.specs.Held.{Represents};
ghost use Rattle.kv_model.specs.State.{State, after, answer_to};
ghost use Rattle.kv_model.specs.declared.call.Call.TheVariants.{Take};
ghost use Rattle.kv_keys.specs.declared.error.KvError.TheVariants.{OutOfMemory};
ghost use Rattle.kv_script.specs.Answered.{taken_text};
ghost use Rattle.kv_watch.specs.Taking.{item_taken};
ghost use Rattle.kv_replay.specs.Faults.{IsWriteOrMemory};
ghost use Rattle.kv_replay.specs.Replaying.{HasActs};
ghost use Rattle.kv_replay.specs.Steps.{Does, EndsBetween};
ghost use Rattle.kv_replay.specs.Text.{hands_out, steps_next, steps_text, takes};
ghost use Rattle.kv_replay.specs.inside.Written.{Pours, PoursFront, Puts};

use crate::output::Output;
use crate::pouring::pour_many;
use crate::target::Target;
use kv_keys::KvError;
use kv_script::{Form, append_empty, append_marker, append_refusal, append_taken_entry};
use kv_single::{Bucket, Event};
use kv_watch::Taken;
use std::alloc::Global;

/// Appends what a take hands out.
pub(crate) fn append_taken(
    alloc: Global,
    form: Form,
    out: &mut Vec<u8>,
    watch: u64,
    taken: &Taken<'_>,
) -> Result<(), KvError>
    ensures ok { OnOk result (out.new.items ≡ out.old.items ++ taken_text form watch
        (answer_item (item_taken taken.now))) }
    ensures err { OnErr result (out.new.items ≡ out.old.items) }
    ensures memory { IfErr result (λ e. e ≡ OutOfMemory) }
{
    match taken {
        Taken::Entry(entry) => append_taken_entry(
            alloc,
            form,
            out,
            watch,
            entry.key(),
            entry.op(),
            entry.revision(),
            entry.size(),
            entry.value(),
        )?,
        Taken::Marker => append_marker(alloc, out, watch)?,
        Taken::Empty => append_empty(alloc, out, watch)?,
    }
    Ok(())
}

/// Shows what a take would hand out, and then makes it, so that nothing is taken that can't be shown. It tells whether
/// an item was handed out.
fn answer_take<T: Target>(
    alloc: Global,
    form: Form,
    target: &mut T,
    watch: u64,
    out: &mut Vec<u8>,
) -> Result<bool, KvError>
    ensures kept { T.goes_on target.old target.new }
    ensures ok { IfOk result (λ goes_on. (state : State) → Represents state (T.bucket target.old) →
        (goes_on ≡ hands_out (answer_to state (Take watch)))
        × ((out.new.items ≡ out.old.items ++ taken_text form watch (answer_to state (Take watch)))
        × Represents (after state (Take watch)) (T.bucket target.new))) }
    ensures err { OnErr result ((out.new.items ≡ out.old.items) × ((T.bucket target.new) ≡ (T.bucket target.old))) }
    ensures memory { IfErr result (λ e. e ≡ OutOfMemory) }
{
    let shown = show_taken(alloc, form, target.as_bucket(), watch, out)?;
    target.pass(watch);
    Ok(shown.is_some())
}

/// Appends what a take would hand out, or its refusal, and answers the item by its revision.
fn show_taken(
    alloc: Global,
    form: Form,
    bucket: &Bucket,
    watch: u64,
    out: &mut Vec<u8>,
) -> Result<Option<Event>, KvError>
    ensures ok { IfOk result (λ shown. (state : State) → Represents state bucket.now →
        (shown ≡ event_answered (answer_to state (Take watch)))
        × (out.new.items ≡ out.old.items ++ taken_text form watch (answer_to state (Take watch)))) }
    ensures err { OnErr result (out.new.items ≡ out.old.items) }
    ensures memory { IfErr result (λ e. e ≡ OutOfMemory) }
{
    match bucket.peek(watch) {
        Ok(taken) => {
            append_taken(alloc, form, out, watch, &taken)?;
            Ok(taken.event())
        }
        Err(error) => {
            append_refusal(alloc, out, error)?;
            Ok(None)
        }
    }
}

/// Makes so many takes, up to the first that hands out no item. None is made that is not shown.
pub(crate) fn answer_takes<T: Target>(
    alloc: Global,
    form: Form,
    target: &mut T,
    watch: u64,
    count: u64,
    out: &mut Vec<u8>,
) -> Result<(), KvError>
    ensures kept { T.goes_on target.old target.new }
    ensures ok { OnOk result ((state : State) → Represents state (T.bucket target.old) →
        Does state (takes form watch count state) out.old.items out.new.items (T.bucket target.new)) }
    ensures err { OnErr result ((state : State) → Represents state (T.bucket target.old) →
        EndsBetween state (takes form watch count state) out.old.items out.new.items (T.bucket target.new)) }
    ensures memory { IfErr result (λ e. e ≡ OutOfMemory) }
{
    for _ in 0..count {
        if !answer_take(alloc, form, target, watch, out)? {
            return Ok(());
        }
    }
    Ok(())
}

/// Makes so many takes, up to the first that hands out no item. The answers wait behind others, and are written where
/// they are many.
pub(crate) fn pour_takes<T: Target, K: Output>(
    alloc: Global,
    form: Form,
    target: &mut T,
    watch: u64,
    count: u64,
    out: &mut Vec<u8>,
    sink: &mut K,
) -> Result<(), KvError>
    ensures kept { T.goes_on target.old target.new }
    ensures same { K.goes_on sink.old sink.new }
    ensures ok { OnOk result ((state : State) → Represents state (T.bucket target.old) →
        Pours (steps_text (takes form watch count state)) (K.held sink.old) out.old.items
        (K.held sink.new) out.new.items
        × Represents (steps_next state (takes form watch count state)) (T.bucket target.new)) }
    ensures write_fault { IsErrOf result KvError.WriteFault →
        K.failed_between sink.old sink.new × ((state : State) → Represents state (T.bucket target.old) →
        Puts (out.old.items ++ steps_text (takes form watch count state)) (K.held sink.old) (K.held sink.new)) }
    ensures memory { IsErrOf result KvError.OutOfMemory → (state : State) → Represents state (T.bucket target.old) →
        PoursFront (steps_text (takes form watch count state)) (K.held sink.old) out.old.items
        (K.held sink.new) out.new.items }
    // Takes are no acts.
    ensures left { OnErr result ((state : State) → Represents state (T.bucket target.old) →
        HasActs state.acts (T.bucket target.new)) }
    ensures fault { IfErr result IsWriteOrMemory }
{
    for _ in 0..count {
        let goes_on = answer_take(alloc, form, target, watch, out)?;
        pour_many(out, sink)?;
        if !goes_on {
            return Ok(());
        }
    }
    Ok(())
}
