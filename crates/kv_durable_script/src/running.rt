//! A script on a durable bucket, from a source to a sink.

ghost use Rattle.std.specs.Prelude.{◌≡◌, ◌⊎◌, List, false, Ok, Err, IfErr, IsErrOf, OnOk};
ghost use Rattle.kv_keys.specs.declared.error.KvError.TheVariants.{ReadFault, WriteFault};
ghost use Rattle.kv_journal.specs.Entries.{Entry};
ghost use Rattle.kv_model.specs.State.{State};
ghost use Rattle.kv_single.specs.Held.{Represents};
ghost use Rattle.kv_replay.specs.Outcome.{Replays};
ghost use Rattle.kv_replay.specs.Sessions.{outside, text_from, whole_from};
ghost use Rattle.kv_durable.specs.Durables.{IsAt};
ghost use Rattle.kv_durable.specs.Endings.{IsClosed};
ghost use Rattle.kv_durable.specs.declared.error.DurableError.TheVariants.{Refused};
ghost use Rattle.kv_durable_script.specs.Runs.{ClosesBehind, EndsBy, HasEnded, IsOutcome, IsUnclosed, KeepsAnswered};

use crate::shrinking::Compacts;
use crate::target::OnDurable;
use kv_durable::{Durable, DurableError};
use kv_file::JournalFile;
use kv_keys::KvError;
use kv_replay::{BoundedInput, Ended, Form, Output, run_on};
use std::alloc::Global;

/// How a run on a bucket in a file has ended, and the file.
#[derive(Drop)]
pub struct Finished<F> {
    pub file: F,
    pub result: Result<(), DurableError>,
}

// How a run has ended. What could not be made while the file has failed was refused by the file.
fn outcome_of(run: Result<(), KvError>, is_stopped: bool) -> Result<(), DurableError>
    ensures ok { OnOk result ((run ≡ Ok tt) × (is_stopped ≡ false)) }
    ensures err { IfErr result (λ e. IsOutcome run e) }
{
    match run {
        Ok(()) if is_stopped => Err(DurableError::FileFault),
        Err(KvError::OutOfMemory) if is_stopped => Err(DurableError::FileFault),
        Ok(()) => Ok(()),
        Err(error) => Err(DurableError::Refused(error)),
    }
}

// Ends the file, whatever the run came to.
fn close<F: JournalFile>(durable: Durable<F>, run: Result<(), DurableError>) -> Finished<F>
    ensures ok { OnOk result.result ((run ≡ Ok tt) × ((state : State) (kept loose : List Entry)
        (at : IsAt F.has F.usable state kept loose durable) →
        IsClosed F.has at.base kept loose state.acts durable.journal result.file)) }
    ensures err { IfErr result.result (λ e. (run ≡ Err e) ⊎ ((run ≡ Ok tt) × IsUnclosed e)) }
    ensures file { (state : State) (kept loose : List Entry) (at : IsAt F.has F.usable state kept loose durable) →
        HasEnded F.has at.base kept loose state.acts durable.journal result.file }
{
    match durable.close() {
        Ok(file) => Finished { file, result: run },
        Err(refused) => Finished {
            file: refused.file,
            result: run.and(Err(refused.error)),
        },
    }
}

/// Runs the script of a source on a durable bucket, and writes its answers to a sink. Values stand in both in this form. Then
/// the file is closed: it ends cleanly, with all on the disk.
///
/// Each act is in the file before its answer is written, and on the disk where its bucket's [`Sync`](crate::Sync) says so. The
/// answers to all lines that are known so far are written before more is asked for. Where the file fails the run ends, behind the
/// answers to the lines before.
///
/// Compactions are made as `compaction` has it: with [`Replacing`](crate::Replacing) one that makes the file much smaller replaces
/// it, so that a script can bound it.
///
/// A file that begins with a checkpoint is run on as any other. The run then begins at the state of the acts in whose place that
/// stands, whatever lawful acts these are, and of the entries behind it.
pub fn run_durable<F: JournalFile, C: Compacts<F> + Drop, S: BoundedInput, K: Output>(
    alloc: Global,
    durable: Durable<F>,
    compaction: C,
    source: &mut S,
    sink: &mut K,
    form: Form,
) -> Finished<F>
    ensures same_source { S.goes_on source.old source.new }
    ensures same_sink { K.goes_on sink.old sink.new }
    // All was read, and the text of its replies was written, from whatever state the bucket represents.
    ensures ok { OnOk result.result ((state : State) → Represents state durable.bucket →
        Replays (text_from form (outside state)) (whole_from form (outside state))
        (S.left source.old) (S.left source.new) (K.held sink.old) (K.held sink.new)) }
    // What was answered is in the file.
    ensures recorded { OnOk result.result ((state : State) (kept loose : List Entry)
        (at : IsAt F.has F.usable state kept loose durable) →
        ClosesBehind F.has F.usable form at.base state kept loose (S.left source.old) (S.left source.new) durable result.file) }
    // Or it ended early, and a beginning of that text was written.
    ensures early { IfErr result.result (λ e. (state : State) → Represents state durable.bucket →
        EndsBy form (outside state) (S.left source.old) (S.left source.new) (K.held sink.old) (K.held sink.new) e) }
    // And what was answered is in the file too.
    ensures answered { (state : State) (kept loose : List Entry) (at : IsAt F.has F.usable state kept loose durable) →
        KeepsAnswered F.has F.usable form at.base state kept loose (S.left source.old) (S.left source.new)
        (K.held sink.old) (K.held sink.new) durable result.file }
    ensures in_time { S.has_ended source.old ≡ false → S.was_asked_late source.new ≡ S.was_asked_late source.old }
    ensures read_fault { IsErrOf result.result (Refused ReadFault) → S.failed_between source.old source.new }
    ensures write_fault { IsErrOf result.result (Refused WriteFault) → K.failed_between sink.old sink.new }
{
    let Ended { target, result } = run_on(
        alloc,
        OnDurable::new(durable, compaction),
        source,
        sink,
        form,
    );
    let is_stopped = target.durable().journal().is_stopped();
    close(target.into_durable(), outcome_of(result, is_stopped))
}
