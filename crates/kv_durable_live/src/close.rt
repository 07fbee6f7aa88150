//! Syncs, and the end of a durable bucket that threads share.

ghost use Rattle.std.specs.Prelude.{◌≡◌, ◌⊎◌, ◌<◌, ◌++◌, [], List, true, Err, IfErr, IfOk, OnErr, OnOk};
ghost use Rattle.kv_durable.specs.Durables.{IsHanded, IsRefusal};
ghost use Rattle.kv_durable.specs.Endings.{IsClosed, end_of};
ghost use Rattle.kv_durable.specs.Journals.{IsLeft, is_stopped, told_next};
ghost use Rattle.kv_durable.specs.declared.error.DurableError.TheVariants.{FileFault, Refused};
ghost use Rattle.kv_durable_live.specs.Sharing.{IsAt, durable_of};
ghost use Rattle.kv_journal.specs.Entries.{Entry};
ghost use Rattle.kv_keys.specs.declared.error.KvError.{KvError as AnError};
ghost use Rattle.kv_keys.specs.declared.error.KvError.TheVariants.{OutOfMemory};
ghost use Rattle.kv_model.specs.State.{State};

use crate::keeper::DurableKeeper;
use kv_bucket::LiveName;
use kv_durable::{Durable, DurableError, JournalFile, NotDone};
use std::sync::Wait;

impl<N: LiveName, F: JournalFile> DurableKeeper<N, F> {
    /// Brings all that was accepted onto the disk.
    pub fn sync(&mut self) -> Result<(), DurableError>
        ensures ok { OnOk result ((state : State) (kept loose : List Entry)
            (at : IsAt F.has F.usable state kept loose self.old.keeper self.old.journal) →
            (next : IsAt F.has F.usable state (kept ++ loose) [] self.new.keeper self.new.journal)
            × (next.durable.base ≡ at.durable.base)) }
        ensures keeper { self.new.keeper ≡ self.old.keeper }
        ensures handed { OnErr result (IsHanded F.has F.usable (λ _. [])
            (durable_of self.old.keeper self.old.journal) (durable_of self.new.keeper self.new.journal)) }
        ensures fault { OnErr result ((is_stopped F.usable self.old.journal ≡ true)
            ⊎ (F.faults self.old.journal.appender.file < F.faults self.new.journal.appender.file)) }
        ensures stops { OnErr result (is_stopped F.usable self.new.journal ≡ true) }
        ensures stopped { is_stopped F.usable self.old.journal ≡ true → (result ≡ Err FileFault) × (self.new ≡ self.old) }
        ensures err { IfErr result (λ e. e ≡ FileFault) }
        ensures same { (self.new.journal.framing ≡ self.old.journal.framing)
            × (self.new.journal.appender.sync ≡ self.old.journal.appender.sync) }
    {
        self.journal.may_add()?;
        self.journal.flush()?;
        Ok(())
    }

    /// Ends it: ends the publisher, adds to the file that it ends cleanly, brings all onto the disk, and gives the file back.
    /// Readers read what is published on. It waits for the readers that are reading.
    pub fn close<R: Wait>(self, rt: &R) -> Result<F, NotDone<F>>
        ensures ok { IfOk result (λ file. (state : State) (kept loose : List Entry)
            (at : IsAt F.has F.usable state kept loose self.keeper self.journal) →
            IsClosed F.has at.durable.base kept loose state.acts self.journal file) }
        ensures usable { IfOk result (λ file. F.usable file ≡ true) }
        ensures handed { IfErr result (λ r. (state : State) (kept loose : List Entry)
            (at : IsAt F.has F.usable state kept loose self.keeper self.journal) →
            IsLeft F.has self.journal.framing.seed at.durable.base kept (loose ++ told_next self.journal (end_of state.acts)) r.file) }
        ensures refused { IfErr result (λ r. (x : AnError) → r.error ≡ Refused x →
            (x ≡ OutOfMemory) × (r.file ≡ self.journal.appender.file)) }
        ensures fault { IfErr result (λ r. r.error ≡ FileFault → (is_stopped F.usable self.journal ≡ true)
            ⊎ (F.faults self.journal.appender.file < F.faults r.file)) }
        ensures no_other { IfErr result (λ r. IsRefusal r.error) }
    {
        let DurableKeeper { keeper, journal } = self;
        Durable::from_parts(keeper.close(rt), journal).close()
    }
}
