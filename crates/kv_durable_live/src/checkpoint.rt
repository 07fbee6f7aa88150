//! Checkpoints of a durable bucket that threads share: its file is replaced by one that has what the bucket stores, in place of
//! the acts that led to it.

ghost use Rattle.std.specs.Prelude.{◌≡◌, ◌⊎◌, ◌<◌, [], List, Err, false, true, IfErr, IsErrOf, OnErr, OnOk};
ghost use Rattle.kv_durable.specs.Durables.{IsRefusal, IsReplaced, checkpoint_at};
ghost use Rattle.kv_durable.specs.Journals.{HasEntries, is_stopped};
ghost use Rattle.kv_durable.specs.declared.error.DurableError.TheVariants.{FileFault, Refused};
ghost use Rattle.kv_durable_live.specs.Sharing.{IsAt, durable_of};
ghost use Rattle.kv_journal.specs.Entries.{Entry};
ghost use Rattle.kv_keys.specs.declared.error.KvError.{KvError as AnError};
ghost use Rattle.kv_keys.specs.declared.error.KvError.TheVariants.{OutOfMemory};
ghost use Rattle.kv_model.specs.State.{State};

use crate::keeper::DurableKeeper;
use kv_bucket::LiveName;
use kv_durable::{DurableError, JournalFile, ReplaceableFile};

impl<N: LiveName, F: JournalFile> DurableKeeper<N, F> {
    /// Replaces the file by one with this seed that has what the bucket stores, and none of the acts that led to it, as
    /// `Durable::checkpoint` does it. The bucket and what is published stay as they are, and readers read on. No act is added
    /// meanwhile, since the lock is held.
    ///
    /// A later opening begins what it publishes with other acts, of which the same is stored.
    pub fn checkpoint<P>(&mut self, location: &P, seed: u64) -> Result<(), DurableError>
    where
        F: ReplaceableFile<P>,
        ensures ok { OnOk result (IsReplaced F.has F.usable (λ state. state)
            (durable_of self.old.keeper self.old.journal) (durable_of self.new.keeper self.new.journal)) }
        ensures seed { OnOk result (self.new.journal.framing.seed ≡ seed) }
        ensures keeper { self.new.keeper ≡ self.old.keeper }
        ensures goes_on { OnErr result (is_stopped F.usable self.new.journal ≡ false → (state : State) (kept loose : List Entry)
            (at : IsAt F.has F.usable state kept loose self.old.keeper self.old.journal) →
            (next : IsAt F.has F.usable state kept loose self.new.keeper self.new.journal)
            × (next.durable.base ≡ at.durable.base)) }
        ensures left { OnErr result ((state : State) (kept loose : List Entry)
            (at : IsAt F.has F.usable state kept loose self.old.keeper self.old.journal) →
            HasEntries F.has self.old.journal.framing.seed at.durable.base kept loose self.new.journal.appender.file
            ⊎ HasEntries F.has seed (checkpoint_at state) [] [] self.new.journal.appender.file) }
        ensures refused { IfErr result (λ e. (x : AnError) → e ≡ Refused x → x ≡ OutOfMemory) }
        ensures untouched { IfErr result (λ e. (x : AnError) → e ≡ Refused x → self.new ≡ self.old) }
        ensures fault { IsErrOf result FileFault → (is_stopped F.usable self.old.journal ≡ true)
            ⊎ (F.faults self.old.journal.appender.file < F.faults self.new.journal.appender.file) }
        ensures stopped { is_stopped F.usable self.old.journal ≡ true → (result ≡ Err FileFault) × (self.new ≡ self.old) }
        ensures no_other { IfErr result IsRefusal }
        ensures sync { self.new.journal.appender.sync ≡ self.old.journal.appender.sync }
    {
        let bucket = self.keeper.bucket();
        self.journal
            .replace_by_checkpoint(bucket.alloc(), location, seed, bucket.version())
    }
}
