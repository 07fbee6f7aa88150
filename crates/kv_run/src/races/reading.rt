//! Reads a script for a race.

ghost use Rattle.std.specs.Prelude.{◌≡◌, ◌<◌, ◌⊎◌, ℕ, List, length, false, IfOk, IfErr, IsErrOf, OnErr};
ghost use Rattle.std.specs.Io.KnownBytes.{Consumes, IsAtEnd};
ghost use Rattle.kv_keys.specs.declared.error.KvError.TheVariants.{OutOfMemory, ReadFault};
ghost use Rattle.kv_run.specs.Planning.{nothing, planned};
ghost use Rattle.kv_replay.specs.Lines.{lines_of};
ghost use Rattle.kv_replay.specs.inside.Reading.{beginning};

use crate::races::notes::Notes;
use crate::races::plan::Plan;
use kv_keys::KvError;
use kv_replay::{BUFFER_BYTES, BoundedInput, new_buffer};
use kv_script::Form;
use std::alloc::Global;

/// Reads the source to its end.
fn read_lines<S: BoundedInput>(
    mut notes: Notes,
    alloc: Global,
    form: Form,
    buffer: &mut [u8],
    source: &mut S,
) -> Result<Plan, KvError>
    requires room { 0 < length buffer.old }
    requires begins { notes ≡ beginning nothing }
    ensures same { S.goes_on source.old source.new }
    ensures in_time { S.has_ended source.old ≡ false → S.was_asked_late source.new ≡ S.was_asked_late source.old }
    ensures ok { IfOk result
        (λ plan. (input : List ℕ)
        × (Consumes (S.left source.old) (S.left source.new) input
        × (IsAtEnd (S.left source.new) × (plan ≡ planned form (lines_of input))))) }
    ensures part { OnErr result ((input : List ℕ) × Consumes (S.left source.old) (S.left source.new) input) }
    ensures read_fault { IsErrOf result KvError.ReadFault → S.failed_between source.old source.new }
    ensures fault { IfErr result (λ e. (e ≡ OutOfMemory) ⊎ (e ≡ ReadFault)) }
{
    'reads: loop {
        let count = source.read(buffer)?;
        if count == 0 {
            notes.end_line(alloc, form)?;
            return Ok(notes.plan());
        }
        notes.take_bytes(alloc, form, &buffer[..count])?;
    }
}

/// Reads a script to its end, and answers what its lines ask for.
pub(crate) fn read_plan<S: BoundedInput>(
    alloc: Global,
    form: Form,
    source: &mut S,
) -> Result<Plan, KvError>
    ensures same { S.goes_on source.old source.new }
    ensures in_time { S.has_ended source.old ≡ false → S.was_asked_late source.new ≡ S.was_asked_late source.old }
    ensures ok { IfOk result
        (λ plan. (input : List ℕ)
        × (Consumes (S.left source.old) (S.left source.new) input
        × (IsAtEnd (S.left source.new) × (plan ≡ planned form (lines_of input))))) }
    ensures part { OnErr result ((input : List ℕ) × Consumes (S.left source.old) (S.left source.new) input) }
    ensures read_fault { IsErrOf result KvError.ReadFault → S.failed_between source.old source.new }
    ensures fault { IfErr result (λ e. (e ≡ OutOfMemory) ⊎ (e ≡ ReadFault)) }
{
    let notes = Notes::new(alloc);
    let mut buffer = new_buffer(alloc, BUFFER_BYTES)?;
    read_lines(notes, alloc, form, &mut buffer, source)
}
