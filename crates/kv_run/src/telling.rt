//! What is told of a file, and the status beside it.

ghost use Rattle.std.specs.Prelude.{◌≡◌, ◌⊎◌, ◌++◌, ◌∷◌, [], IfErr, IfOk, OnErr, OnOk, codes, string_bytes};
ghost use Rattle.std.specs.Io.KnownBytes.{Appends};
ghost use Rattle.kv_keys.specs.declared.error.KvError.TheVariants.{OutOfMemory};
ghost use Rattle.kv_durable.specs.Refusals.{IsDamaged};
ghost use Rattle.kv_durable.specs.declared.error.DurableError.TheVariants.{FileDamaged, Refused};
ghost use Rattle.kv_run.specs.Telling.{file_fault_text, file_status, torn_text};

use kv_durable_script::DurableError;
use kv_keys::KvError;
use kv_replay::Output;
use std::alloc::{AllocError, Global};

/// The line that names damage, with the offset up to which the file is good.
fn damage_line(alloc: Global, at: u64) -> Result<String, AllocError>
    ensures { IfOk result (λ line. string_bytes line ≡ file_fault_text (FileDamaged at)) }
{
    format!(in alloc; "kvbucket: FileDamaged at byte {at}\n")
}

/// Names damage, or that memory for its line was refused.
fn tell_damage<F: Output>(alloc: Global, at: u64, faults: &mut F) -> Result<(), KvError>
    ensures same { F.goes_on faults.old faults.new }
    ensures told { OnOk result (Appends (F.held faults.old) (F.held faults.new) (file_fault_text (FileDamaged at))
        ⊎ Appends (F.held faults.old) (F.held faults.new) (file_fault_text (Refused OutOfMemory))) }
    ensures failed { OnErr result (F.failed_between faults.old faults.new) }
{
    match damage_line(alloc, at) {
        Ok(line) => faults.write(line.as_bytes()),
        Err(_) => faults.write(b"kvbucket: OutOfMemory\n"),
    }
}

/// Writes the line of a name.
fn tell_name<F: Output>(name: &str, faults: &mut F) -> Result<(), KvError>
    ensures same { F.goes_on faults.old faults.new }
    ensures told { OnOk result (Appends (F.held faults.old) (F.held faults.new) (codes "kvbucket: " ++ (name.now ++ 10 ∷ []))) }
    ensures failed { OnErr result (F.failed_between faults.old faults.new) }
{
    faults.write(b"kvbucket: ")?;
    faults.write(name.as_bytes())?;
    faults.write(b"\n")
}

/// Names what ended the run. Of damage, where memory for its line is refused, that is told.
fn tell_fault<F: Output>(alloc: Global, error: DurableError, faults: &mut F) -> Result<(), KvError>
    ensures same { F.goes_on faults.old faults.new }
    ensures told { OnOk result (Appends (F.held faults.old) (F.held faults.new) (file_fault_text error)
        ⊎ (IsDamaged error × Appends (F.held faults.old) (F.held faults.new) (file_fault_text (Refused OutOfMemory)))) }
    ensures failed { OnErr result (F.failed_between faults.old faults.new) }
{
    match error {
        DurableError::FileDamaged { at } => tell_damage(alloc, at, faults),
        other => tell_name(other.name(), faults),
    }
}

/// The status that an error comes to.
fn status_of(error: DurableError) -> u8
    ensures { result ≡ file_status error }
{
    match error {
        DurableError::Refused(KvError::BadBucket | KvError::BadConfig) => 2,
        _ => 1,
    }
}

/// Names what ended the run, and answers its status.
pub(crate) fn fail<F: Output>(alloc: Global, error: DurableError, faults: &mut F) -> u8
    ensures same { F.goes_on faults.old faults.new }
    ensures status { result ≡ file_status error }
    ensures told { (Appends (F.held faults.old) (F.held faults.new) (file_fault_text error)
        ⊎ (IsDamaged error × Appends (F.held faults.old) (F.held faults.new) (file_fault_text (Refused OutOfMemory))))
        ⊎ F.failed_between faults.old faults.new }
{
    let _ = tell_fault(alloc, error, faults);
    status_of(error)
}

/// The line that tells how many bytes of a file count for nothing, where some do.
fn torn_line(alloc: Global, what: &str, dropped: u64, path: &str) -> Result<String, AllocError>
    ensures { IfOk result (λ line. string_bytes line ≡ torn_text what.now dropped path.now) }
{
    if dropped == 0 {
        return Ok(String::new(alloc));
    }
    format!(in alloc; "kvbucket: {what} {dropped} bytes at the end of {path}\n")
}

/// Tells how many bytes of a file count for nothing, where some do.
pub(crate) fn tell_torn<F: Output>(
    alloc: Global,
    dropped: u64,
    what: &str,
    path: &str,
    faults: &mut F,
) -> Result<(), DurableError>
    ensures same { F.goes_on faults.old faults.new }
    ensures told { OnOk result (Appends (F.held faults.old) (F.held faults.new) (torn_text what.now dropped path.now)
        ⊎ F.failed_between faults.old faults.new) }
    ensures err { IfErr result (λ e. (e ≡ Refused OutOfMemory) × (faults.new ≡ faults.old)) }
{
    let line = torn_line(alloc, what, dropped, path)?;
    let _ = faults.write(line.as_bytes());
    Ok(())
}
