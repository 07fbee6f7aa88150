//! Seals and compactions of a durable bucket that threads share.

ghost use Rattle.std.specs.Prelude.{◌≡◌, ◌⊎◌, ◌<◌, ◌≤◌, ◌^◌, ◌∷◌, [], ℕ, true, false, Ok, Err, length, IfErr, IfOk, IsErrOf, OnErr, OnOk};
ghost use Rattle.kv_bucket.specs.Keeping.{ComesNext, IsAt, IsKeptStep, kept_with};
ghost use Rattle.kv_durable.specs.Durables.{IsHanded, IsRecorded, IsRefusal};
ghost use Rattle.kv_durable.specs.Journals.{IsFrameOf, is_stopped};
ghost use Rattle.kv_durable.specs.declared.error.DurableError.TheVariants.{FileFault, Refused};
ghost use Rattle.kv_durable_live.specs.Sharing.{durable_of};
ghost use Rattle.kv_file.specs.declared.appender.Sync.TheVariants.{Every};
ghost use Rattle.kv_journal.specs.Records.{did};
ghost use Rattle.kv_keys.specs.Outcome.{Refuses};
ghost use Rattle.kv_keys.specs.declared.error.KvError.{KvError as AnError};
ghost use Rattle.kv_keys.specs.declared.error.KvError.TheVariants.{OutOfMemory};
ghost use Rattle.kv_model.specs.Acts.{Seal as ASeal, Compact as ACompaction};
ghost use Rattle.kv_model.specs.Answers.{Compacted, Sealed};
ghost use Rattle.kv_model.specs.State.{State, after, may_compact};
ghost use Rattle.kv_model.specs.declared.call.Call.TheVariants.{Compact, Seal};
ghost use Rattle.kv_single.specs.Held.{Represents};
ghost use Rattle.kv_single.specs.Stepping.{IsStep};

use crate::acceptance::Framed;
use crate::keeper::DurableKeeper;
use kv_bucket::LiveName;
use kv_durable::{DurableError, JournalFile};
use std::sync::Wait;

impl<N: LiveName, F: JournalFile> DurableKeeper<N, F> {
    // The end of writes, and the frame that tells it.
    fn framed_seal(&self) -> Result<Framed, DurableError>
        ensures goes { OnOk result (is_stopped F.usable self.now.journal ≡ false) }
        ensures ok { IfOk result (λ f. (f.next.act ≡ ASeal)
            × IsKeptStep self.now.keeper Seal Sealed (kept_with self.now.keeper (f.next.act ∷ []) f.next.version)) }
        ensures next { IfOk result (λ f. ComesNext N.opening.config self.now.keeper f.next) }
        ensures step { IfOk result
            (λ f. IsStep self.now.keeper.bucket Seal Sealed (record self.now.keeper.bucket { version = f.next.version })) }
        ensures frame { IfOk result (λ f. IsFrameOf self.now.journal (did ASeal) f.frame.items) }
        ensures short { IfOk result (λ f. length f.frame.items < 2 ^ 33) }
        ensures refused { IfErr result (λ e. (x : AnError) → e ≡ Refused x → x ≡ OutOfMemory) }
        ensures fault { IsErrOf result FileFault → is_stopped F.usable self.now.journal ≡ true }
        ensures stopped { is_stopped F.usable self.now.journal ≡ true → result ≡ Err FileFault }
        ensures no_other { IfErr result IsRefusal }
    {
        self.journal.may_add()?;
        let next = self.keeper.next_seal()?;
        let frame = self.journal.frame_of_seal(self.keeper.bucket().alloc())?;
        Ok(Framed { next, frame })
    }

    // A compaction, and the frame that tells it.
    fn framed_compaction(&self, floor: u64) -> Result<Framed, DurableError>
        ensures goes { OnOk result (is_stopped F.usable self.now.journal ≡ false) }
        ensures ok { IfOk result (λ f. (f.next.act ≡ ACompaction floor)
            × IsKeptStep self.now.keeper (Compact floor) (Compacted floor) (kept_with self.now.keeper (f.next.act ∷ []) f.next.version)) }
        ensures next { IfOk result (λ f. ComesNext N.opening.config self.now.keeper f.next) }
        ensures step { IfOk result
            (λ f. IsStep self.now.keeper.bucket (Compact floor) (Compacted floor) (record self.now.keeper.bucket { version = f.next.version })) }
        ensures frame { IfOk result (λ f. IsFrameOf self.now.journal (did (ACompaction floor)) f.frame.items) }
        ensures may { OnOk result
            ((state : State) → Represents state self.now.keeper.bucket → may_compact floor state ≡ Ok floor) }
        ensures short { IfOk result (λ f. length f.frame.items < 2 ^ 33) }
        ensures refused { IfErr result (λ e. (x : AnError) → e ≡ Refused x → (state : State) →
            IsAt state self.now.keeper → Refuses x (may_compact floor state)) }
        ensures fault { IsErrOf result FileFault → is_stopped F.usable self.now.journal ≡ true }
        ensures stopped { is_stopped F.usable self.now.journal ≡ true → result ≡ Err FileFault }
        ensures no_other { IfErr result IsRefusal }
    {
        self.journal.may_add()?;
        let next = self.keeper.next_compaction(floor)?;
        let frame = self
            .journal
            .frame_of_compaction(self.keeper.bucket().alloc(), floor)?;
        Ok(Framed { next, frame })
    }

    /// Ends writes. A bucket that is sealed already is so again, and the file has it twice.
    pub fn seal<R: Wait>(&mut self, rt: &R) -> Result<(), DurableError>
        ensures ok { OnOk result (IsKeptStep self.old.keeper Seal Sealed self.new.keeper) }
        ensures recorded { OnOk result (IsRecorded F.has F.usable (λ state. after state Seal) (λ _. did ASeal ∷ [])
            (durable_of self.old.keeper self.old.journal) (durable_of self.new.keeper self.new.journal)) }
        ensures every { OnOk result ((n : ℕ) → self.old.journal.appender.sync ≡ Every n → 0 < n →
            self.new.journal.appender.waiting < n) }
        ensures refused { IfErr result (λ e. (x : AnError) → e ≡ Refused x → x ≡ OutOfMemory) }
        ensures untouched { IfErr result (λ e. (x : AnError) → e ≡ Refused x → self.new ≡ self.old) }
        ensures unchanged { OnErr result (self.new.keeper ≡ self.old.keeper) }
        ensures handed { OnErr result (IsHanded F.has F.usable (λ _. did ASeal ∷ [])
            (durable_of self.old.keeper self.old.journal) (durable_of self.new.keeper self.new.journal)) }
        ensures fault { IsErrOf result FileFault → (is_stopped F.usable self.old.journal ≡ true)
            ⊎ (F.faults self.old.journal.appender.file < F.faults self.new.journal.appender.file) }
        ensures stops { IsErrOf result FileFault → is_stopped F.usable self.new.journal ≡ true }
        ensures stopped { is_stopped F.usable self.old.journal ≡ true → (result ≡ Err FileFault) × (self.new ≡ self.old) }
        ensures no_other { IfErr result IsRefusal }
        ensures same { (self.new.journal.framing ≡ self.old.journal.framing)
            × (self.new.journal.appender.sync ≡ self.old.journal.appender.sync) }
    {
        let framed = self.framed_seal()?;
        self.keep(rt, framed)?;
        Ok(())
    }

    /// Compacts to the floor: `BadFloor` where its floor is bad. A feed is told by its next refresh where it lags behind it.
    pub fn compact<R: Wait>(&mut self, rt: &R, floor: u64) -> Result<(), DurableError>
        ensures ok { OnOk result (IsKeptStep self.old.keeper (Compact floor) (Compacted floor) self.new.keeper) }
        ensures recorded { OnOk result (IsRecorded F.has F.usable (λ state. after state (Compact floor))
            (λ _. did (ACompaction floor) ∷ [])
            (durable_of self.old.keeper self.old.journal) (durable_of self.new.keeper self.new.journal)) }
        ensures every { OnOk result ((n : ℕ) → self.old.journal.appender.sync ≡ Every n → 0 < n →
            self.new.journal.appender.waiting < n) }
        ensures still { OnOk result (F.usable self.new.journal.appender.file ≡ true) }
        ensures count { F.faults self.old.journal.appender.file ≤ F.faults self.new.journal.appender.file }
        ensures refused { IfErr result (λ e. (x : AnError) → e ≡ Refused x → (state : State) →
            IsAt state self.old.keeper → Refuses x (may_compact floor state)) }
        ensures untouched { IfErr result (λ e. (x : AnError) → e ≡ Refused x → self.new ≡ self.old) }
        ensures unchanged { OnErr result (self.new.keeper ≡ self.old.keeper) }
        ensures handed { OnErr result (IsHanded F.has F.usable (λ _. did (ACompaction floor) ∷ [])
            (durable_of self.old.keeper self.old.journal) (durable_of self.new.keeper self.new.journal)) }
        ensures fault { IsErrOf result FileFault → (is_stopped F.usable self.old.journal ≡ true)
            ⊎ (F.faults self.old.journal.appender.file < F.faults self.new.journal.appender.file) }
        ensures stops { IsErrOf result FileFault → is_stopped F.usable self.new.journal ≡ true }
        ensures stopped { is_stopped F.usable self.old.journal ≡ true → (result ≡ Err FileFault) × (self.new ≡ self.old) }
        ensures no_other { IfErr result IsRefusal }
        ensures same { (self.new.journal.framing ≡ self.old.journal.framing)
            × (self.new.journal.appender.sync ≡ self.old.journal.appender.sync) }
    {
        let framed = self.framed_compaction(floor)?;
        self.keep(rt, framed)?;
        Ok(())
    }
}
