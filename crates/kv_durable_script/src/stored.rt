//! The script of what a version stores.

ghost use Rattle.std.specs.Prelude.{◌≡◌, ◌⊎◌, ℕ, ◌++◌, ◌∷◌, [], List, codes, map, if◌then◌else◌, IfErr, IsErrOf, OnErr, OnOk};
ghost use Rattle.std.specs.Io.KnownBytes.{Appends};
ghost use Rattle.kv_keys.specs.declared.error.KvError.TheVariants.{WriteFault};
ghost use Rattle.kv_replay.specs.Faults.{IsWriteOrMemory};
ghost use Rattle.kv_replay.specs.inside.Written.{Pours, Puts};
ghost use Rattle.kv_durable_script.specs.Dumps.{lines_text};
ghost use Rattle.kv_durable_script.specs.Stored.{stored_line};
ghost use Rattle.kv_durable_script.specs.inside.StoredText.{IsStoredText};

use crate::lines::push_line;
use kv_keys::KvError;
use kv_model::Write;
use kv_replay::{Output, pour_many};
use kv_store::Version;
use std::alloc::{AllocError, Global};

// The command of a stored write, and the end of the line.
fn push_stored(alloc: Global, out: &mut Vec<u8>, write: &Write) -> Result<(), AllocError>
    ensures { OnOk result (out.new.items ≡ out.old.items ++ lines_text (stored_line write.now ∷ [])) }
{
    push_line(alloc, out, write.op(), write.key().as_str(), write.value())
}

// The command that ends writes, where they have ended.
fn push_seal(out: &mut Vec<u8>, is_sealed: bool) -> Result<(), AllocError>
    ensures { OnOk result (out.new.items ≡ out.old.items ++ lines_text (if is_sealed then codes "seal" ∷ [] else [])) }
{
    if is_sealed {
        return out.extend_from_slice(b"seal\n");
    }
    Ok(())
}

// Makes the lines of stored writes, each of which stands behind its revision. They wait, and are written where they are many.
fn pour_stored<K: Output>(
    alloc: Global,
    writes: &[(u64, &Write)],
    out: &mut Vec<u8>,
    sink: &mut K,
) -> Result<(), KvError>
    ensures same { K.goes_on sink.old sink.new }
    ensures ok { OnOk result (Pours (lines_text (map stored_line (map (λ f. f.1.now) writes.now)))
        (K.held sink.old) out.old.items (K.held sink.new) out.new.items) }
    ensures early { OnErr result (Puts (out.old.items ++ lines_text (map stored_line (map (λ f. f.1.now) writes.now)))
        (K.held sink.old) (K.held sink.new)) }
    ensures write_fault { IsErrOf result WriteFault → K.failed_between sink.old sink.new }
    ensures fault { IfErr result IsWriteOrMemory }
{
    for numbered in writes {
        push_stored(alloc, out, numbered.1)?;
        pour_many(out, sink)?;
    }
    Ok(())
}

/// Writes the commands for what a version stores. It looks at each stored write once, and sorts them.
pub(crate) fn write_stored<K: Output>(
    alloc: Global,
    version: &Version,
    sink: &mut K,
) -> Result<(), KvError>
    ensures same { K.goes_on sink.old sink.new }
    ensures ok { OnOk result ((text : List ℕ) × IsStoredText version.now text × Appends (K.held sink.old) (K.held sink.new) text) }
    ensures early { OnErr result ((sink.new ≡ sink.old)
        ⊎ ((text : List ℕ) × IsStoredText version.now text × Puts text (K.held sink.old) (K.held sink.new))) }
    ensures write_fault { IsErrOf result WriteFault → K.failed_between sink.old sink.new }
    ensures fault { IfErr result IsWriteOrMemory }
{
    let writes = version.stored_writes(alloc)?;
    let mut out = Vec::new(alloc);
    pour_stored(alloc, &writes, &mut out, sink)?;
    push_seal(&mut out, version.status().sealed)?;
    sink.write(&out)
}
