//! Seals and compactions of a durable bucket.

ghost use Rattle.std.specs.Prelude.{◌≡◌, ◌⊎◌, ◌<◌, ◌≤◌, ◌^◌, ◌∷◌, [], ℕ, true, false, Ok, Err, length, IfErr, IfOk, IsErrOf, OnErr, OnOk};
ghost use Rattle.kv_keys.specs.Outcome.{Refuses};
ghost use Rattle.kv_keys.specs.declared.error.KvError.{KvError as AnError};
ghost use Rattle.kv_keys.specs.declared.error.KvError.TheVariants.{OutOfMemory};
ghost use Rattle.kv_file.specs.declared.appender.Sync.TheVariants.{Every};
ghost use Rattle.kv_journal.specs.Records.{did};
ghost use Rattle.kv_model.specs.Acts.{Seal as ASeal, Compact as ACompaction};
ghost use Rattle.kv_model.specs.Answers.{Compacted, Sealed};
ghost use Rattle.kv_model.specs.State.{State, after, may_compact};
ghost use Rattle.kv_model.specs.declared.call.Call.TheVariants.{Compact, Seal};
ghost use Rattle.kv_single.specs.Held.{Represents};
ghost use Rattle.kv_single.specs.Stepping.{IsStep};
ghost use Rattle.kv_durable.specs.Durables.{IsHanded, IsRecorded, IsRefusal};
ghost use Rattle.kv_durable.specs.Journals.{IsFrameOf, is_stopped};
ghost use Rattle.kv_durable.specs.declared.error.DurableError.TheVariants.{FileFault, Refused};

use crate::acceptance::Prepared;
use crate::durable::Durable;
use crate::error::DurableError;
use kv_file::JournalFile;

impl<F: JournalFile> Durable<F> {
    // The sealed version, and the frame of the seal.
    fn prepared_seal(&self) -> Result<Prepared, DurableError>
        ensures goes { OnOk result (is_stopped F.usable self.now.journal ≡ false) }
        ensures step { IfOk result (λ p. IsStep self.now.bucket Seal Sealed (record self.now.bucket { version = p.next })) }
        ensures frame { IfOk result (λ p. IsFrameOf self.now.journal (did ASeal) p.frames.items) }
        ensures short { IfOk result (λ p. length p.frames.items < 2 ^ 33) }
        ensures refused { IfErr result (λ e. (x : AnError) → e ≡ Refused x → x ≡ OutOfMemory) }
        ensures fault { IsErrOf result FileFault → is_stopped F.usable self.now.journal ≡ true }
        ensures stopped { is_stopped F.usable self.now.journal ≡ true → result ≡ Err FileFault }
        ensures no_other { IfErr result IsRefusal }
    {
        self.journal.may_add()?;
        let bucket = &self.bucket;
        let next = bucket.version().seal(bucket.alloc())?;
        let frames = self.journal.frame_of_seal(bucket.alloc())?;
        Ok(Prepared { next, frames })
    }

    // The compacted version, and the frame of the compaction.
    fn prepared_compaction(&self, floor: u64) -> Result<Prepared, DurableError>
        ensures goes { OnOk result (is_stopped F.usable self.now.journal ≡ false) }
        ensures step { IfOk result
            (λ p. IsStep self.now.bucket (Compact floor) (Compacted floor) (record self.now.bucket { version = p.next })) }
        ensures frame { IfOk result (λ p. IsFrameOf self.now.journal (did (ACompaction floor)) p.frames.items) }
        ensures may { OnOk result ((state : State) → Represents state self.now.bucket → may_compact floor state ≡ Ok floor) }
        ensures short { IfOk result (λ p. length p.frames.items < 2 ^ 33) }
        ensures refused { IfErr result (λ e. (x : AnError) → e ≡ Refused x → (state : State) →
            Represents state self.now.bucket → Refuses x (may_compact floor state)) }
        ensures fault { IsErrOf result FileFault → is_stopped F.usable self.now.journal ≡ true }
        ensures stopped { is_stopped F.usable self.now.journal ≡ true → result ≡ Err FileFault }
        ensures no_other { IfErr result IsRefusal }
    {
        self.journal.may_add()?;
        let bucket = &self.bucket;
        bucket.may_compact(floor)?;
        let next = bucket.version().compact(bucket.alloc(), floor)?;
        let frames = self.journal.frame_of_compaction(bucket.alloc(), floor)?;
        Ok(Prepared { next, frames })
    }

    /// Ends writes. A bucket that is sealed already is so again, and the file has it twice.
    pub fn seal(&mut self) -> Result<(), DurableError>
        ensures ok { OnOk result (IsStep self.old.bucket Seal Sealed self.new.bucket) }
        ensures recorded { OnOk result (IsRecorded F.has F.usable (λ state. after state Seal) (λ _. did ASeal ∷ []) self.old self.new) }
        ensures every { OnOk result ((n : ℕ) → self.old.journal.appender.sync ≡ Every n → 0 < n →
            self.new.journal.appender.waiting < n) }
        ensures refused { IfErr result (λ e. (x : AnError) → e ≡ Refused x → x ≡ OutOfMemory) }
        ensures untouched { IfErr result (λ e. (x : AnError) → e ≡ Refused x → self.new ≡ self.old) }
        ensures unchanged { OnErr result (self.new.bucket ≡ self.old.bucket) }
        ensures handed { OnErr result (IsHanded F.has F.usable (λ _. did ASeal ∷ []) self.old self.new) }
        ensures fault { IsErrOf result FileFault → (is_stopped F.usable self.old.journal ≡ true)
            ⊎ (F.faults self.old.journal.appender.file < F.faults self.new.journal.appender.file) }
        ensures stops { IsErrOf result FileFault → is_stopped F.usable self.new.journal ≡ true }
        ensures stopped { is_stopped F.usable self.old.journal ≡ true → (result ≡ Err FileFault) × (self.new ≡ self.old) }
        ensures no_other { IfErr result IsRefusal }
        ensures same { (self.new.journal.framing ≡ self.old.journal.framing)
            × (self.new.journal.appender.sync ≡ self.old.journal.appender.sync) }
    {
        let prepared = self.prepared_seal()?;
        self.keep(prepared)?;
        Ok(())
    }

    /// Compacts to the floor, as `Bucket::compact` does: `BadFloor` where its floor is bad, `WatchBehind` where a watch is
    /// behind it.
    pub fn compact(&mut self, floor: u64) -> Result<(), DurableError>
        ensures ok { OnOk result (IsStep self.old.bucket (Compact floor) (Compacted floor) self.new.bucket) }
        ensures recorded { OnOk result (IsRecorded F.has F.usable (λ state. after state (Compact floor))
            (λ _. did (ACompaction floor) ∷ []) self.old self.new) }
        ensures every { OnOk result ((n : ℕ) → self.old.journal.appender.sync ≡ Every n → 0 < n →
            self.new.journal.appender.waiting < n) }
        ensures still { OnOk result (F.usable self.new.journal.appender.file ≡ true) }
        ensures count { F.faults self.old.journal.appender.file ≤ F.faults self.new.journal.appender.file }
        ensures refused { IfErr result (λ e. (x : AnError) → e ≡ Refused x → (state : State) →
            Represents state self.old.bucket → Refuses x (may_compact floor state)) }
        ensures untouched { IfErr result (λ e. (x : AnError) → e ≡ Refused x → self.new ≡ self.old) }
        ensures unchanged { OnErr result (self.new.bucket ≡ self.old.bucket) }
        ensures handed { OnErr result (IsHanded F.has F.usable (λ _. did (ACompaction floor) ∷ []) self.old self.new) }
        ensures fault { IsErrOf result FileFault → (is_stopped F.usable self.old.journal ≡ true)
            ⊎ (F.faults self.old.journal.appender.file < F.faults self.new.journal.appender.file) }
        ensures stops { IsErrOf result FileFault → is_stopped F.usable self.new.journal ≡ true }
        ensures stopped { is_stopped F.usable self.old.journal ≡ true → (result ≡ Err FileFault) × (self.new ≡ self.old) }
        ensures no_other { IfErr result IsRefusal }
        ensures same { (self.new.journal.framing ≡ self.old.journal.framing)
            × (self.new.journal.appender.sync ≡ self.old.journal.appender.sync) }
    {
        let prepared = self.prepared_compaction(floor)?;
        self.keep(prepared)?;
        Ok(())
    }
}
