//! Compactions of a durable bucket that threads share that replace the file where that makes it much smaller.

ghost use Rattle.std.specs.Prelude.{◌≡◌, ◌⊎◌, ◌<◌, ◌≤◌, ◌*◌, ◌^◌, ◌∷◌, [], ℕ, Ok, Err, List, true, false, IfErr, IsErrOf, OnErr, OnOk};
ghost use Rattle.kv_bucket.specs.Keeping as keeping;
ghost use Rattle.kv_bucket.specs.Keeping.{IsKeptStep};
ghost use Rattle.kv_durable.specs.Bases.{opening_size};
ghost use Rattle.kv_durable.specs.Durables.{HasEither, IsAt, IsHanded, IsRecorded, IsRefusal, IsReplaced, checkpoint_at};
ghost use Rattle.kv_durable.specs.Journals.{HasEntries, is_stopped, offset_behind};
ghost use Rattle.kv_durable.specs.declared.error.DurableError.{DurableError as ARefusal};
ghost use Rattle.kv_durable.specs.declared.error.DurableError.TheVariants.{FileFault, Refused};
ghost use Rattle.kv_durable.specs.declared.shrinking.Shrunk.TheVariants.{Failed, Left, Replaced};
ghost use Rattle.kv_durable_live.specs.Sharing.{durable_of};
ghost use Rattle.kv_file.specs.declared.appender.Sync.TheVariants.{Every};
ghost use Rattle.kv_journal.specs.Entries.{Entry};
ghost use Rattle.kv_journal.specs.Records.{did};
ghost use Rattle.kv_keys.specs.Outcome.{Refuses};
ghost use Rattle.kv_keys.specs.declared.error.KvError.{KvError as AnError};
ghost use Rattle.kv_keys.specs.declared.error.KvError.TheVariants.{OutOfMemory};
ghost use Rattle.kv_model.specs.Acts.{Compact as ACompaction};
ghost use Rattle.kv_model.specs.Answers.{Compacted};
ghost use Rattle.kv_model.specs.State.{State, after, may_compact};
ghost use Rattle.kv_model.specs.declared.call.Call.TheVariants.{Compact};

use crate::keeper::DurableKeeper;
use kv_bucket::LiveName;
use kv_durable::{DurableError, JournalFile, ReplaceableFile, Shrunk};
use std::sync::Wait;

impl<N: LiveName, F: JournalFile> DurableKeeper<N, F> {
    // Replaces the file where it has more than twice the bytes of the new one, and tells whether it did.
    fn replace_large<P>(&mut self, location: &P, seed: u64) -> Result<bool, DurableError>
    where
        F: ReplaceableFile<P>,
        ensures keeper { self.new.keeper ≡ self.old.keeper }
        ensures left { result ≡ Ok false → self.new ≡ self.old }
        ensures small { result ≡ Ok false → (state : State) (kept loose : List Entry) →
            IsAt F.has F.usable state kept loose (durable_of self.old.keeper self.old.journal) →
            self.old.journal.appender.offset ≤ 2 * opening_size seed (checkpoint_at state) }
        ensures large { (result ≡ Ok true) ⊎ (result ≡ Err FileFault) → (state : State) (kept loose : List Entry) →
            IsAt F.has F.usable state kept loose (durable_of self.old.keeper self.old.journal) →
            2 * opening_size seed (checkpoint_at state) < self.old.journal.appender.offset }
        ensures replaced { result ≡ Ok true → IsReplaced F.has F.usable (λ state. state)
            (durable_of self.old.keeper self.old.journal) (durable_of self.new.keeper self.new.journal) }
        ensures seed { result ≡ Ok true → self.new.journal.framing.seed ≡ seed }
        ensures none { result ≡ Ok true → self.new.journal.appender.waiting ≡ 0 }
        ensures goes_on { OnErr result (is_stopped F.usable self.new.journal ≡ false → (state : State) (kept loose : List Entry)
            (at : IsAt F.has F.usable state kept loose (durable_of self.old.keeper self.old.journal)) →
            (next : IsAt F.has F.usable state kept loose (durable_of self.new.keeper self.new.journal)) × (next.base ≡ at.base)) }
        ensures either { OnErr result ((state : State) (kept loose : List Entry)
            (at : IsAt F.has F.usable state kept loose (durable_of self.old.keeper self.old.journal)) →
            HasEntries F.has self.old.journal.framing.seed at.base kept loose self.new.journal.appender.file
            ⊎ HasEntries F.has seed (checkpoint_at state) [] [] self.new.journal.appender.file) }
        ensures refused { IfErr result (λ e. (x : AnError) → e ≡ Refused x → x ≡ OutOfMemory) }
        ensures untouched { IfErr result (λ e. (x : AnError) → e ≡ Refused x → self.new ≡ self.old) }
        ensures fault { IsErrOf result FileFault → F.usable self.old.journal.appender.file ≡ true → (2 ^ 62 ≤ self.new.journal.appender.offset)
            ⊎ (F.faults self.old.journal.appender.file < F.faults self.new.journal.appender.file) }
        ensures same { OnErr result (self.new.journal.framing ≡ self.old.journal.framing) }
        ensures no_other { IfErr result IsRefusal }
        ensures sync { self.new.journal.appender.sync ≡ self.old.journal.appender.sync }
    {
        let bucket = self.keeper.bucket();
        self.journal
            .replace_if_large(bucket.alloc(), location, seed, bucket.version())
    }

    /// Compacts to the floor, as `compact` does. Where the file then has more than twice the bytes of a new one, it is replaced
    /// by a checkpoint with this seed, as `checkpoint` does it. The compaction is answered, and published, also where the
    /// checkpoint fails: `Shrunk` tells what came of it.
    pub fn compact_and_checkpoint<P, R: Wait>(
        &mut self,
        rt: &R,
        floor: u64,
        location: &P,
        seed: u64,
    ) -> Result<Shrunk, DurableError>
    where
        F: ReplaceableFile<P>,
        ensures ok { OnOk result (IsKeptStep self.old.keeper (Compact floor) (Compacted floor) self.new.keeper) }
        ensures left { result ≡ Ok Left → IsRecorded F.has F.usable (λ state. after state (Compact floor))
            (λ _. did (ACompaction floor) ∷ [])
            (durable_of self.old.keeper self.old.journal) (durable_of self.new.keeper self.new.journal) }
        ensures every { result ≡ Ok Left → (n : ℕ) → self.old.journal.appender.sync ≡ Every n → 0 < n →
            self.new.journal.appender.waiting < n }
        ensures small { result ≡ Ok Left → (state : State) (kept loose : List Entry) →
            IsAt F.has F.usable state kept loose (durable_of self.old.keeper self.old.journal) →
            offset_behind self.old.journal (did (ACompaction floor) ∷ []) ≤ 2 * opening_size seed (checkpoint_at (after state (Compact floor))) }
        ensures large { (result ≡ Ok Replaced) ⊎ (result ≡ Ok (Failed FileFault)) → (state : State) (kept loose : List Entry) →
            IsAt F.has F.usable state kept loose (durable_of self.old.keeper self.old.journal) →
            2 * opening_size seed (checkpoint_at (after state (Compact floor))) < offset_behind self.old.journal (did (ACompaction floor) ∷ []) }
        ensures replaced { result ≡ Ok Replaced → IsReplaced F.has F.usable (λ state. after state (Compact floor))
            (durable_of self.old.keeper self.old.journal) (durable_of self.new.keeper self.new.journal) }
        ensures seed { result ≡ Ok Replaced → self.new.journal.framing.seed ≡ seed }
        ensures none { result ≡ Ok Replaced → self.new.journal.appender.waiting ≡ 0 }
        ensures goes_on { (e : ARefusal) → result ≡ Ok (Failed e) → is_stopped F.usable self.new.journal ≡ false →
            IsRecorded F.has F.usable (λ state. after state (Compact floor)) (λ _. did (ACompaction floor) ∷ [])
            (durable_of self.old.keeper self.old.journal) (durable_of self.new.keeper self.new.journal) }
        ensures either { (e : ARefusal) → result ≡ Ok (Failed e) → HasEither F.has F.usable (λ state. after state (Compact floor))
            (λ _. did (ACompaction floor) ∷ []) seed (durable_of self.old.keeper self.old.journal) self.new.journal.appender.file }
        ensures memory { (x : AnError) → result ≡ Ok (Failed (Refused x)) → (x ≡ OutOfMemory) × IsRecorded F.has F.usable
            (λ state. after state (Compact floor)) (λ _. did (ACompaction floor) ∷ [])
            (durable_of self.old.keeper self.old.journal) (durable_of self.new.keeper self.new.journal) }
        ensures failed { result ≡ Ok (Failed FileFault) → (2 ^ 62 ≤ self.new.journal.appender.offset)
            ⊎ (F.faults self.old.journal.appender.file < F.faults self.new.journal.appender.file) }
        ensures no_other_failure { (e : ARefusal) → result ≡ Ok (Failed e) → IsRefusal e }
        ensures refused { IfErr result (λ e. (x : AnError) → e ≡ Refused x → (state : State) →
            keeping.IsAt state self.old.keeper → Refuses x (may_compact floor state)) }
        ensures untouched { IfErr result (λ e. (x : AnError) → e ≡ Refused x → self.new ≡ self.old) }
        ensures unchanged { OnErr result (self.new.keeper ≡ self.old.keeper) }
        ensures handed { OnErr result (IsHanded F.has F.usable (λ _. did (ACompaction floor) ∷ [])
            (durable_of self.old.keeper self.old.journal) (durable_of self.new.keeper self.new.journal)) }
        ensures fault { IsErrOf result FileFault → (is_stopped F.usable self.old.journal ≡ true)
            ⊎ (F.faults self.old.journal.appender.file < F.faults self.new.journal.appender.file) }
        ensures stops { IsErrOf result FileFault → is_stopped F.usable self.new.journal ≡ true }
        ensures stopped { is_stopped F.usable self.old.journal ≡ true → (result ≡ Err FileFault) × (self.new ≡ self.old) }
        ensures no_other { IfErr result IsRefusal }
        ensures same { (result ≡ Ok Replaced) ⊎ (self.new.journal.framing ≡ self.old.journal.framing) }
        ensures sync { self.new.journal.appender.sync ≡ self.old.journal.appender.sync }
    {
        self.compact(rt, floor)?;
        let replaced = self.replace_large(location, seed);
        Ok(Shrunk::of(replaced))
    }
}
