//! Answers to writes, seals and compactions.

ghost use Rattle.std.specs.Prelude.{◌≡◌, ◌++◌, ◌⊎◌, OnOk, OnErr, IfErr};
ghost use Rattle.kv_single.specs.Held.{Represents};
ghost use Rattle.kv_model.specs.State.{State, after, after_write, answer_to, answer_write as answered};
ghost use Rattle.kv_model.specs.declared.call.Call.TheVariants.{Compact, Seal};
ghost use Rattle.kv_keys.specs.declared.error.KvError.TheVariants.{OutOfMemory};
ghost use Rattle.kv_script.specs.Answered.{answer_text};
ghost use Rattle.kv_model.specs.Acceptance.{accept};
ghost use Rattle.kv_model.specs.Requests.{asked};

use crate::target::Target;
use kv_keys::KvError;
use kv_model::Request;
use kv_script::{Form, append_compacted, append_refusal, append_revision, append_sealed};
use std::alloc::Global;

/// Does what is asked. After want of memory nothing was appended, and the write was accepted or not.
pub(crate) fn answer_write<T: Target>(
    alloc: Global,
    target: &mut T,
    request: &Request,
    out: &mut Vec<u8>,
) -> Result<(), KvError>
    ensures kept { T.goes_on target.old target.new }
    ensures ok { OnOk result ((form : Form) (state : State) → Represents state (T.bucket target.old) →
        (out.new.items
        ≡ out.old.items ++ answer_text form state.config.bucket
        (answered (accept state.config (asked request.now) state.acts)))
        × Represents (after_write state (accept state.config (asked request.now) state.acts)) (T.bucket target.new)) }
    ensures err { OnErr result ((out.new.items ≡ out.old.items) × ((state : State) → Represents state (T.bucket target.old) →
        Represents state (T.bucket target.new)
        ⊎ Represents (after_write state (accept state.config (asked request.now) state.acts)) (T.bucket target.new))) }
    ensures memory { IfErr result (λ e. e ≡ OutOfMemory) }
{
    match target.write(request) {
        Ok(revision) => {
            append_revision(alloc, out, revision)?;
            Ok(())
        }
        Err(KvError::OutOfMemory) => Err(KvError::OutOfMemory),
        Err(error) => {
            append_refusal(alloc, out, error)?;
            Ok(())
        }
    }
}

/// Ends writes. After want of memory nothing was appended, and the bucket was sealed or not.
pub(crate) fn answer_seal<T: Target>(
    alloc: Global,
    target: &mut T,
    out: &mut Vec<u8>,
) -> Result<(), KvError>
    ensures kept { T.goes_on target.old target.new }
    ensures ok { OnOk result ((form : Form) (state : State) → Represents state (T.bucket target.old) →
        (out.new.items ≡ out.old.items ++ answer_text form state.config.bucket (answer_to state Seal))
        × Represents (after state Seal) (T.bucket target.new)) }
    ensures err { OnErr result ((out.new.items ≡ out.old.items) × ((state : State) → Represents state (T.bucket target.old) →
        Represents state (T.bucket target.new) ⊎ Represents (after state Seal) (T.bucket target.new))) }
    ensures memory { IfErr result (λ e. e ≡ OutOfMemory) }
{
    target.seal()?;
    append_sealed(alloc, out)?;
    Ok(())
}

/// Compacts to a floor. After want of memory nothing was appended, and the bucket was compacted or not.
pub(crate) fn answer_compact<T: Target>(
    alloc: Global,
    target: &mut T,
    floor: u64,
    out: &mut Vec<u8>,
) -> Result<(), KvError>
    ensures kept { T.goes_on target.old target.new }
    ensures ok { OnOk result ((form : Form) (state : State) → Represents state (T.bucket target.old) →
        (out.new.items ≡ out.old.items ++ answer_text form state.config.bucket (answer_to state (Compact floor)))
        × Represents (after state (Compact floor)) (T.bucket target.new)) }
    ensures err { OnErr result ((out.new.items ≡ out.old.items) × ((state : State) → Represents state (T.bucket target.old) →
        Represents state (T.bucket target.new) ⊎ Represents (after state (Compact floor)) (T.bucket target.new))) }
    ensures memory { IfErr result (λ e. e ≡ OutOfMemory) }
{
    match target.compact(floor) {
        Ok(()) => {
            append_compacted(alloc, out, floor)?;
            Ok(())
        }
        Err(KvError::OutOfMemory) => Err(KvError::OutOfMemory),
        Err(error) => {
            append_refusal(alloc, out, error)?;
            Ok(())
        }
    }
}
