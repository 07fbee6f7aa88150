//! Answers to what is refused.

ghost use Rattle.std.specs.Prelude.{◌≡◌, ◌++◌, OnOk, OnErr, IfErr};
ghost use Rattle.kv_keys.specs.declared.error.KvError.TheVariants.{OutOfMemory};
ghost use Rattle.kv_script.specs.Text.{refusal_text};
ghost use Rattle.kv_replay.specs.Faults.{IsRefusal};

use kv_keys::KvError;
use kv_script::append_refusal;
use std::alloc::Global;

/// A refusal is an answer, unless it is want of memory.
pub(crate) fn answer_refusal(
    alloc: Global,
    error: KvError,
    out: &mut Vec<u8>,
) -> Result<(), KvError>
    ensures cause { OnOk result (IsRefusal error) }
    ensures ok { OnOk result (out.new.items ≡ out.old.items ++ refusal_text error) }
    ensures err { OnErr result (out.new.items ≡ out.old.items) }
    ensures memory { IfErr result (λ e. e ≡ OutOfMemory) }
{
    match error {
        KvError::OutOfMemory => Err(KvError::OutOfMemory),
        other => {
            append_refusal(alloc, out, other)?;
            Ok(())
        }
    }
}
