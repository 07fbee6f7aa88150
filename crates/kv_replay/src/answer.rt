//! The answer to one line.

ghost use Rattle.std.specs.Prelude.{◌≡◌, ◌++◌, ℕ, [], Ok, OnOk, OnErr, IfErr, IsErrOf};
ghost use Rattle.kv_single.specs.Held.{Represents};
ghost use Rattle.kv_model.specs.State.{State};
ghost use Rattle.kv_keys.specs.declared.error.KvError.TheVariants.{OutOfMemory};
ghost use Rattle.kv_script.specs.Commands.{Take, line_command, meaning_of};
ghost use Rattle.kv_script.specs.Text.{refusal_text};
ghost use Rattle.kv_script.specs.declared.form.Form.TheVariants.{Base64};
ghost use Rattle.kv_replay.specs.Faults.{IsRefusal, IsWriteOrMemory};
ghost use Rattle.kv_replay.specs.Steps.{Does, EndsBetween, EndsEarly};
ghost use Rattle.kv_replay.specs.Text.{line_steps, steps, steps_next, steps_text, takes};
ghost use Rattle.kv_replay.specs.inside.Leaving.{LeavesLine};
ghost use Rattle.kv_replay.specs.inside.Written.{Pours, PoursFront, Puts};

use crate::output::Output;
use crate::pouring::pour_many;
use crate::reads::{
    answer_get, answer_get_at, answer_history, answer_keys, answer_place, answer_status,
};
use crate::refusals::answer_refusal;
use crate::takes::{answer_takes, pour_takes};
use crate::target::Target;
use crate::watches::{answer_stop, answer_watch};
use crate::writes::{answer_compact, answer_seal, answer_write};
use kv_keys::KvError;
use kv_script::{Command, Form, is_skipped, parse};
use kv_single::Bucket;
use std::alloc::Global;

/// Does one command, and appends its answer lines.
fn answer_command<T: Target>(
    alloc: Global,
    form: Form,
    target: &mut T,
    command: &Command,
    out: &mut Vec<u8>,
) -> Result<(), KvError>
    ensures kept { T.goes_on target.old target.new }
    ensures ok { OnOk result ((state : State) → Represents state (T.bucket target.old) →
        Does state (steps form state (meaning_of command.now)) out.old.items out.new.items (T.bucket target.new)) }
    ensures err { OnErr result ((state : State) → Represents state (T.bucket target.old) →
        EndsEarly state (steps form state (meaning_of command.now)) out.old.items out.new.items (T.bucket target.new)) }
    ensures shown { OnErr result ((watch count : ℕ) → meaning_of command.now ≡ Take watch count → (state : State) →
        Represents state (T.bucket target.old) →
        EndsBetween state (takes form watch count state) out.old.items out.new.items (T.bucket target.new)) }
    ensures memory { IfErr result (λ e. e ≡ OutOfMemory) }
{
    match command {
        Command::Write(request) => answer_write(alloc, target, request, out),
        Command::Get(key) => answer_get(alloc, form, target.as_bucket(), key, out),
        Command::GetAt(key, revision) => answer_get_at(
            alloc,
            form,
            target.as_bucket(),
            key,
            *revision,
            out,
        ),
        Command::History(key) => answer_history(alloc, form, target.as_bucket(), key, out),
        Command::Keys(filters) => answer_keys(alloc, target.as_bucket(), filters, out),
        Command::Watch(filters, options) => answer_watch(alloc, target, filters, *options, out),
        Command::Take { watch, count } => answer_takes(alloc, form, target, *watch, *count, out),
        Command::Stop(watch) => answer_stop(alloc, target, *watch, out),
        Command::Status => answer_status(alloc, target.as_bucket(), out),
        Command::Seal => answer_seal(alloc, target, out),
        Command::Compact(floor) => answer_compact(alloc, target, *floor, out),
        Command::Place(key) => answer_place(alloc, key, out),
        Command::Batch(_) => answer_refusal(alloc, KvError::BadCommand, out),
    }
}

/// Answers a line without its end, and without the carriage return before that.
///
/// Values stand in the line and in its answers in base64. The answer lines are appended. After want of memory the
/// first calls of the line were made, and these were answered but perhaps for the last. Only `take` makes more than
/// one, and each that it made was answered. `batch` is refused: its lines stand behind it, and here is none.
pub fn answer_line(
    alloc: Global,
    bucket: &mut Bucket,
    line: &[u8],
    out: &mut Vec<u8>,
) -> Result<(), KvError>
    ensures ok { OnOk result ((state : State) → Represents state bucket.old →
        Does state (line_steps Base64 state line.now) out.old.items out.new.items bucket.new) }
    ensures err { OnErr result ((state : State) → Represents state bucket.old →
        EndsEarly state (line_steps Base64 state line.now) out.old.items out.new.items bucket.new) }
    // Of takes none was made that was not shown.
    ensures shown { OnErr result ((watch count : ℕ) → line_command Base64 line.now ≡ Ok (Take watch count) →
        (state : State) →
        Represents state bucket.old →
        EndsBetween state (takes Base64 watch count state) out.old.items out.new.items bucket.new) }
    ensures memory { IfErr result (λ e. e ≡ OutOfMemory) }
{
    answer_line_in(alloc, bucket, line, out, Form::Base64)
}

/// The same, where values stand in the line and in its answers in this form.
pub fn answer_line_in(
    alloc: Global,
    bucket: &mut Bucket,
    line: &[u8],
    out: &mut Vec<u8>,
    form: Form,
) -> Result<(), KvError>
    ensures ok { OnOk result ((state : State) → Represents state bucket.old →
        Does state (line_steps form state line.now) out.old.items out.new.items bucket.new) }
    ensures err { OnErr result ((state : State) → Represents state bucket.old →
        EndsEarly state (line_steps form state line.now) out.old.items out.new.items bucket.new) }
    // Of takes none was made that was not shown.
    ensures shown { OnErr result ((watch count : ℕ) → line_command form line.now ≡ Ok (Take watch count) →
        (state : State) →
        Represents state bucket.old →
        EndsBetween state (takes form watch count state) out.old.items out.new.items bucket.new) }
    ensures memory { IfErr result (λ e. e ≡ OutOfMemory) }
{
    if is_skipped(line) {
        return Ok(());
    }
    match parse(alloc, form, line) {
        Ok(command) => answer_command(alloc, form, bucket, &command, out),
        Err(error) => answer_refusal(alloc, error, out),
    }
}

/// Does one command. Its answers wait behind others, and are written where they are many.
pub(crate) fn pour_command<T: Target, K: Output>(
    alloc: Global,
    form: Form,
    target: &mut T,
    command: &Command,
    out: &mut Vec<u8>,
    sink: &mut K,
) -> Result<(), KvError>
    ensures kept { T.goes_on target.old target.new }
    ensures same { K.goes_on sink.old sink.new }
    ensures ok { OnOk result ((state : State) → Represents state (T.bucket target.old) →
        Pours (steps_text (steps form state (meaning_of command.now))) (K.held sink.old) out.old.items
        (K.held sink.new) out.new.items
        × Represents (steps_next state (steps form state (meaning_of command.now))) (T.bucket target.new)) }
    ensures write_fault { IsErrOf result KvError.WriteFault →
        K.failed_between sink.old sink.new × ((state : State) → Represents state (T.bucket target.old) →
        Puts (out.old.items ++ steps_text (steps form state (meaning_of command.now))) (K.held sink.old)
        (K.held sink.new)) }
    ensures memory { IsErrOf result KvError.OutOfMemory → (state : State) → Represents state (T.bucket target.old) →
        PoursFront (steps_text (steps form state (meaning_of command.now)))
        (K.held sink.old) out.old.items (K.held sink.new) out.new.items }
    ensures left { OnErr result ((state : State) → Represents state (T.bucket target.old) →
        LeavesLine state.acts (steps_next state (steps form state (meaning_of command.now))).acts (T.bucket target.new)
        (K.held sink.old) out.old.items (K.held sink.new) out.new.items) }
    ensures fault { IfErr result IsWriteOrMemory }
{
    if let Command::Take { watch, count } = command {
        return pour_takes(alloc, form, target, *watch, *count, out, sink);
    }
    answer_command(alloc, form, target, command, out)?;
    pour_many(out, sink)
}

/// Answers a refused line.
pub(crate) fn pour_refusal<K: Output>(
    alloc: Global,
    error: KvError,
    out: &mut Vec<u8>,
    sink: &mut K,
) -> Result<(), KvError>
    ensures same { K.goes_on sink.old sink.new }
    ensures cause { OnOk result (IsRefusal error) }
    ensures ok { OnOk result (Pours (refusal_text error) (K.held sink.old) out.old.items
        (K.held sink.new) out.new.items) }
    ensures write_fault { IsErrOf result KvError.WriteFault →
        K.failed_between sink.old sink.new × (IsRefusal error ×
        Puts (out.old.items ++ refusal_text error) (K.held sink.old) (K.held sink.new)) }
    ensures memory { IsErrOf result KvError.OutOfMemory →
        Pours [] (K.held sink.old) out.old.items (K.held sink.new) out.new.items }
    ensures fault { IfErr result IsWriteOrMemory }
{
    answer_refusal(alloc, error, out)?;
    pour_many(out, sink)
}
