//! Answers to new watches and stops.

ghost use Rattle.std.specs.Prelude.{◌≡◌, ◌++◌, ◌⊎◌, OnOk, OnErr, IfErr};
ghost use Rattle.kv_single.specs.Held.{Represents};
ghost use Rattle.kv_model.specs.State.{State, after, answer_to};
ghost use Rattle.kv_model.specs.declared.call.Call.TheVariants.{Watch, Stop};
ghost use Rattle.kv_keys.specs.declared.error.KvError.TheVariants.{OutOfMemory};
ghost use Rattle.kv_script.specs.Answered.{answer_text, ended_text};

use crate::target::Target;
use kv_keys::{Filters, KvError};
use kv_model::Options;
use kv_script::{Form, append_refusal, append_stopped, append_watch};
use std::alloc::Global;

/// Opens a watch. After want of memory nothing was appended, and the watch was opened or not.
pub(crate) fn answer_watch<T: Target>(
    alloc: Global,
    target: &mut T,
    filters: &Filters,
    options: Options,
    out: &mut Vec<u8>,
) -> Result<(), KvError>
    ensures kept { T.goes_on target.old target.new }
    ensures ok { OnOk result ((form : Form) (state : State) → Represents state (T.bucket target.old) →
        (out.new.items ≡ out.old.items ++ answer_text form state.config.bucket
        (answer_to state (Watch filters.now options)))
        × Represents (after state (Watch filters.now options)) (T.bucket target.new)) }
    ensures err { OnErr result ((out.new.items ≡ out.old.items) × ((state : State) → Represents state (T.bucket target.old) →
        Represents state (T.bucket target.new) ⊎ Represents (after state (Watch filters.now options)) (T.bucket target.new))) }
    ensures memory { IfErr result (λ e. e ≡ OutOfMemory) }
{
    match target.watch(filters, options) {
        Ok(number) => {
            append_watch(alloc, out, number)?;
            Ok(())
        }
        Err(KvError::OutOfMemory) => Err(KvError::OutOfMemory),
        Err(error) => {
            append_refusal(alloc, out, error)?;
            Ok(())
        }
    }
}

/// Stops a watch. After want of memory nothing was appended, and the watch was stopped or not.
pub(crate) fn answer_stop<T: Target>(
    alloc: Global,
    target: &mut T,
    watch: u64,
    out: &mut Vec<u8>,
) -> Result<(), KvError>
    ensures kept { T.goes_on target.old target.new }
    ensures ok { OnOk result ((state : State) → Represents state (T.bucket target.old) →
        (out.new.items ≡ out.old.items ++ ended_text watch (answer_to state (Stop watch)))
        × Represents (after state (Stop watch)) (T.bucket target.new)) }
    ensures err { OnErr result ((out.new.items ≡ out.old.items) × ((state : State) → Represents state (T.bucket target.old) →
        Represents state (T.bucket target.new) ⊎ Represents (after state (Stop watch)) (T.bucket target.new))) }
    ensures memory { IfErr result (λ e. e ≡ OutOfMemory) }
{
    match target.stop(watch) {
        Ok(stopped) => {
            append_stopped(alloc, out, watch, stopped.handed)?;
            Ok(())
        }
        Err(error) => {
            append_refusal(alloc, out, error)?;
            Ok(())
        }
    }
}
