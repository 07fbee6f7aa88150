//! Bringing onto the disk, and the end.

ghost use Rattle.std.specs.Prelude.{◌≡◌, ◌⊎◌, ◌<◌, ◌++◌, ◌∷◌, ◌&&◌, [], ℕ, List, true, Err, IfErr, IfOk, IsErrOf, OnErr, OnOk, length};
ghost use Rattle.kv_keys.specs.declared.error.KvError.{KvError as AnError};
ghost use Rattle.kv_keys.specs.declared.error.KvError.TheVariants.{OutOfMemory};
ghost use Rattle.kv_journal.specs.Entries.{Entry, acts_of};
ghost use Rattle.kv_model.specs.Acts.{Act};
ghost use Rattle.kv_model.specs.State.{State};
ghost use Rattle.kv_store.specs.Standing.{StandsFor};
ghost use Rattle.kv_durable.specs.Bases.{Base, acts_before};
ghost use Rattle.kv_durable.specs.Durables.{IsAt, IsHanded, IsRefusal};
ghost use Rattle.kv_durable.specs.Endings.{IsClosed, end_of};
ghost use Rattle.kv_durable.specs.Journals.{IsLeft, Keeps, is_stopped, told_next};
ghost use Rattle.kv_durable.specs.declared.error.DurableError.TheVariants.{FileFault, Refused};

use crate::durable::{Durable, NotDone};
use crate::error::DurableError;
use crate::journal::Journal;
use kv_file::JournalFile;
use kv_store::Version;
use std::alloc::Global;

// Adds that a journal ends cleanly behind the acts of a version, and brings all onto the disk.
fn end<F: JournalFile>(
    alloc: Global,
    journal: &mut Journal<F>,
    version: &Version,
) -> Result<(), DurableError>
    ensures ok { OnOk result ((acts : List Act) (base : Base) (kept loose : List Entry) → StandsFor acts version.now →
        acts ≡ acts_before base ++ acts_of (kept ++ loose) → Keeps F.has F.usable base kept loose journal.old →
        IsClosed F.has base kept loose acts journal.old journal.new.appender.file) }
    ensures usable { OnOk result (F.usable journal.new.appender.file ≡ true) }
    ensures handed { OnErr result ((acts : List Act) (base : Base) (kept loose : List Entry) → StandsFor acts version.now →
        acts ≡ acts_before base ++ acts_of (kept ++ loose) → Keeps F.has F.usable base kept loose journal.old →
        IsLeft F.has journal.old.framing.seed base kept (loose ++ told_next journal.old (end_of acts)) journal.new.appender.file) }
    ensures refused { IfErr result (λ e. (x : AnError) → e ≡ Refused x → x ≡ OutOfMemory) }
    ensures untouched { IfErr result (λ e. (x : AnError) → e ≡ Refused x → journal.new ≡ journal.old) }
    ensures fault { IsErrOf result FileFault → (is_stopped F.usable journal.old ≡ true)
        ⊎ (F.faults journal.old.appender.file < F.faults journal.new.appender.file) }
    ensures no_other { IfErr result IsRefusal }
{
    journal.may_add()?;
    let frame = journal.frame_of_end(alloc, version.revision())?;
    journal.add(&frame)?;
    journal.flush()?;
    Ok(())
}

impl<F: JournalFile> Durable<F> {
    /// Brings all that was accepted onto the disk.
    pub fn sync(&mut self) -> Result<(), DurableError>
        ensures ok { OnOk result ((state : State) (kept loose : List Entry) (at : IsAt F.has F.usable state kept loose self.old) →
            (next : IsAt F.has F.usable state (kept ++ loose) [] self.new) × (next.base ≡ at.base)) }
        ensures bucket { self.new.bucket ≡ self.old.bucket }
        ensures handed { OnErr result (IsHanded F.has F.usable (λ _. []) self.old self.new) }
        ensures fault { OnErr result ((is_stopped F.usable self.old.journal ≡ true)
            ⊎ (F.faults self.old.journal.appender.file < F.faults self.new.journal.appender.file)) }
        ensures stops { OnErr result (is_stopped F.usable self.new.journal ≡ true) }
        ensures stopped { is_stopped F.usable self.old.journal ≡ true → (result ≡ Err FileFault) × (self.new ≡ self.old) }
        ensures err { IfErr result (λ e. e ≡ FileFault) }
        ensures same { (self.new.journal.framing ≡ self.old.journal.framing)
            × (self.new.journal.appender.sync ≡ self.old.journal.appender.sync) }
    {
        self.journal.may_add()?;
        self.journal.flush()?;
        Ok(())
    }

    /// Ends it: adds to the file that it ends cleanly, brings all onto the disk, and gives the file back. Behind a clean end
    /// a damaged end of the file is told from a torn one.
    pub fn close(self) -> Result<F, NotDone<F>>
        ensures ok { IfOk result (λ file. (state : State) (kept loose : List Entry)
            (at : IsAt F.has F.usable state kept loose self) →
            IsClosed F.has at.base kept loose state.acts self.journal file) }
        ensures usable { IfOk result (λ file. F.usable file ≡ true) }
        ensures handed { IfErr result (λ r. (state : State) (kept loose : List Entry)
            (at : IsAt F.has F.usable state kept loose self) →
            IsLeft F.has self.journal.framing.seed at.base kept (loose ++ told_next self.journal (end_of state.acts)) r.file) }
        ensures refused { IfErr result (λ r. (x : AnError) → r.error ≡ Refused x → (x ≡ OutOfMemory) × (r.file ≡ self.journal.appender.file)) }
        ensures fault { IfErr result (λ r. r.error ≡ FileFault → (is_stopped F.usable self.journal ≡ true)
            ⊎ (F.faults self.journal.appender.file < F.faults r.file)) }
        ensures no_other { IfErr result (λ r. IsRefusal r.error) }
    {
        let Durable { bucket, journal } = self;
        let mut journal = journal;
        match end(bucket.alloc(), &mut journal, bucket.version()) {
            Ok(()) => Ok(journal.into_file()),
            Err(error) => Err(NotDone {
                error,
                file: journal.into_file(),
            }),
        }
    }
}
