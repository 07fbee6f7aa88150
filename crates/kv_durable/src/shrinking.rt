//! Compactions that replace the file where that makes it much smaller.

ghost use Rattle.std.specs.Prelude.{◌≡◌, ◌⊎◌, ◌<◌, ◌≤◌, ◌*◌, ◌^◌, ◌∷◌, [], ℕ, Ok, Err, List, true, false, IfErr, IfOk, IsErrOf, OnErr, OnOk};
ghost use Rattle.kv_file.specs.declared.appender.Sync.TheVariants.{Every};
ghost use Rattle.kv_journal.specs.Entries.{Entry};
ghost use Rattle.kv_journal.specs.Records.{did};
ghost use Rattle.kv_keys.specs.Outcome.{Refuses};
ghost use Rattle.kv_keys.specs.declared.error.KvError.{KvError as AnError};
ghost use Rattle.kv_keys.specs.declared.error.KvError.TheVariants.{OutOfMemory};
ghost use Rattle.kv_model.specs.Acts.{Act, Compact as ACompaction};
ghost use Rattle.kv_model.specs.Answers.{Compacted};
ghost use Rattle.kv_model.specs.State.{State, after, may_compact};
ghost use Rattle.kv_model.specs.declared.call.Call.TheVariants.{Compact};
ghost use Rattle.kv_single.specs.Held.{Represents};
ghost use Rattle.kv_single.specs.Stepping.{IsStep};
ghost use Rattle.kv_store.specs.Standing.{StandsFor};
ghost use Rattle.kv_durable.specs.Bases.{Base, opening_size, replaced_by};
ghost use Rattle.kv_durable.specs.Durables.{HasEither, IsAt, IsHanded, IsRecorded, IsRefusal, IsReplaced, checkpoint_at};
ghost use Rattle.kv_durable.specs.Journals.{HasEntries, Keeps, is_stopped, offset_behind};
ghost use Rattle.kv_durable.specs.declared.error.DurableError.{DurableError as ARefusal};
ghost use Rattle.kv_durable.specs.declared.error.DurableError.TheVariants.{FileFault, Refused};
ghost use Rattle.kv_durable.specs.declared.shrinking.Shrunk.TheVariants.{Failed, Left, Replaced};

use crate::checkpoint::file_of;
use crate::durable::Durable;
use crate::error::DurableError;
use crate::journal::Journal;
use kv_file::{JournalFile, ReplaceableFile};
use kv_frames::Framing;
use kv_store::Version;
use std::alloc::Global;

/// What came of the file behind a compaction that was made.
#[derive(Clone, Copy, Debug, PartialEq, Eq)]
pub enum Shrunk {
    /// It has no more than twice the bytes of a new one, and was left.
    Left,
    /// It was replaced by a checkpoint.
    Replaced,
    /// The checkpoint has failed: `OutOfMemory`, or `FileFault`. Where the journal is not stopped the old file is in use, and
    /// has the compaction.
    Failed(DurableError),
}

impl Shrunk {
    /// What came of it, by whether it was replaced.
    pub fn of(replaced: Result<bool, DurableError>) -> Shrunk
        ensures left { result ≡ Left → replaced ≡ Ok false }
        ensures replaced { result ≡ Replaced → replaced ≡ Ok true }
        ensures failed { (e : ARefusal) → result ≡ Failed e → replaced ≡ Err e }
    {
        match replaced {
            Ok(true) => Shrunk::Replaced,
            Ok(false) => Shrunk::Left,
            Err(error) => Shrunk::Failed(error),
        }
    }
}

impl<F: JournalFile> Journal<F> {
    // Whether the file has more than twice so many bytes.
    fn has_twice(&self, bytes: usize) -> bool
        ensures yes { result ≡ true → 2 * bytes < self.now.appender.offset }
        ensures no { result ≡ false → self.now.appender.offset ≤ 2 * bytes }
    {
        let bytes = bytes as u64;
        self.offset().saturating_sub(bytes) > bytes
    }

    /// Replaces the file as `replace_by_checkpoint` does, where it has more than twice the bytes of the new one, and tells whether
    /// it did: as `Durable::compact_and_checkpoint` does it behind its compaction.
    pub fn replace_if_large<P>(
        &mut self,
        alloc: Global,
        location: &P,
        seed: u64,
        version: &Version,
    ) -> Result<bool, DurableError>
    where
        F: ReplaceableFile<P>,
        ensures left { result ≡ Ok false → self.new ≡ self.old }
        ensures small { result ≡ Ok false → (was : Base) (kept loose : List Entry) (acts : List Act) →
            Keeps F.has F.usable was kept loose self.old → StandsFor acts version.now → version.now.config ≡ was.config →
            self.old.appender.offset ≤ 2 * opening_size seed (replaced_by was.config acts) }
        ensures large { (result ≡ Ok true) ⊎ (result ≡ Err FileFault) → (was : Base) (kept loose : List Entry) (acts : List Act) →
            Keeps F.has F.usable was kept loose self.old → StandsFor acts version.now → version.now.config ≡ was.config →
            2 * opening_size seed (replaced_by was.config acts) < self.old.appender.offset }
        ensures replaced { result ≡ Ok true → (was : Base) (kept loose : List Entry) (acts : List Act) →
            Keeps F.has F.usable was kept loose self.old → StandsFor acts version.now → version.now.config ≡ was.config →
            Keeps F.has F.usable (replaced_by was.config acts) [] [] self.new }
        ensures seed { result ≡ Ok true → self.new.framing.seed ≡ seed }
        ensures none { result ≡ Ok true → self.new.appender.waiting ≡ 0 }
        ensures goes_on { OnErr result (is_stopped F.usable self.new ≡ false → (base : Base) (kept loose : List Entry) →
            Keeps F.has F.usable base kept loose self.old → Keeps F.has F.usable base kept loose self.new) }
        ensures either { OnErr result ((was : Base) (kept loose : List Entry) (acts : List Act) → Keeps F.has F.usable was kept loose self.old →
            StandsFor acts version.now → version.now.config ≡ was.config →
            HasEntries F.has self.old.framing.seed was kept loose self.new.appender.file
            ⊎ HasEntries F.has seed (replaced_by was.config acts) [] [] self.new.appender.file) }
        ensures refused { IfErr result (λ e. (x : AnError) → e ≡ Refused x → x ≡ OutOfMemory) }
        ensures untouched { IfErr result (λ e. (x : AnError) → e ≡ Refused x → self.new ≡ self.old) }
        ensures fault { IsErrOf result FileFault → F.usable self.old.appender.file ≡ true → (2 ^ 62 ≤ self.new.appender.offset)
            ⊎ (F.faults self.old.appender.file < F.faults self.new.appender.file) }
        ensures same { OnErr result (self.new.framing ≡ self.old.framing) }
        ensures no_other { IfErr result IsRefusal }
        ensures sync { self.new.appender.sync ≡ self.old.appender.sync }
    {
        let next = Framing::new(seed);
        let bytes = file_of(alloc, &next, &self.config, version)?;
        if !self.has_twice(bytes.len()) {
            return Ok(false);
        }
        self.may_add()?;
        self.replace(location, next, bytes)?;
        Ok(true)
    }
}

impl<F: JournalFile> Durable<F> {
    // Replaces the file where it has more than twice the bytes of the new one, and tells whether it did.
    fn replace_large<P>(&mut self, location: &P, seed: u64) -> Result<bool, DurableError>
    where
        F: ReplaceableFile<P>,
        ensures left { result ≡ Ok false → self.new ≡ self.old }
        ensures small { result ≡ Ok false → (state : State) (kept loose : List Entry) → IsAt F.has F.usable state kept loose self.old →
            self.old.journal.appender.offset ≤ 2 * opening_size seed (checkpoint_at state) }
        ensures large { (result ≡ Ok true) ⊎ (result ≡ Err FileFault) → (state : State) (kept loose : List Entry) →
            IsAt F.has F.usable state kept loose self.old → 2 * opening_size seed (checkpoint_at state) < self.old.journal.appender.offset }
        ensures replaced { result ≡ Ok true → IsReplaced F.has F.usable (λ state. state) self.old self.new }
        ensures seed { result ≡ Ok true → self.new.journal.framing.seed ≡ seed }
        ensures none { result ≡ Ok true → self.new.journal.appender.waiting ≡ 0 }
        ensures bucket { self.new.bucket ≡ self.old.bucket }
        ensures goes_on { OnErr result (is_stopped F.usable self.new.journal ≡ false →
            (state : State) (kept loose : List Entry) (at : IsAt F.has F.usable state kept loose self.old) →
            (next : IsAt F.has F.usable state kept loose self.new) × (next.base ≡ at.base)) }
        ensures either { OnErr result ((state : State) (kept loose : List Entry) (at : IsAt F.has F.usable state kept loose self.old) →
            HasEntries F.has self.old.journal.framing.seed at.base kept loose self.new.journal.appender.file
            ⊎ HasEntries F.has seed (checkpoint_at state) [] [] self.new.journal.appender.file) }
        ensures refused { IfErr result (λ e. (x : AnError) → e ≡ Refused x → x ≡ OutOfMemory) }
        ensures untouched { IfErr result (λ e. (x : AnError) → e ≡ Refused x → self.new ≡ self.old) }
        ensures fault { IsErrOf result FileFault → F.usable self.old.journal.appender.file ≡ true → (2 ^ 62 ≤ self.new.journal.appender.offset)
            ⊎ (F.faults self.old.journal.appender.file < F.faults self.new.journal.appender.file) }
        ensures same { OnErr result (self.new.journal.framing ≡ self.old.journal.framing) }
        ensures no_other { IfErr result IsRefusal }
        ensures sync { self.new.journal.appender.sync ≡ self.old.journal.appender.sync }
    {
        let bucket = &self.bucket;
        self.journal
            .replace_if_large(bucket.alloc(), location, seed, bucket.version())
    }

    /// Compacts to the floor, as `compact` does. Where the file then has more than twice the bytes of a new one, it is replaced
    /// by a checkpoint with this seed, as `checkpoint` does; else it is left. What is answered tells which. Choose the seed as
    /// for `checkpoint`.
    ///
    /// A compaction that was made stays made, and is in the file, whatever comes of the checkpoint: one that fails is told in
    /// `Shrunk::Failed`. An error tells that the compaction itself was not made; then the file is not replaced.
    ///
    /// It makes the new file in memory, once, also where the file is left: a frame of each stored write.
    pub fn compact_and_checkpoint<P>(
        &mut self,
        floor: u64,
        location: &P,
        seed: u64,
    ) -> Result<Shrunk, DurableError>
    where
        F: ReplaceableFile<P>,
        ensures ok { OnOk result (IsStep self.old.bucket (Compact floor) (Compacted floor) self.new.bucket) }
        ensures left { result ≡ Ok Left → IsRecorded F.has F.usable (λ state. after state (Compact floor))
            (λ _. did (ACompaction floor) ∷ []) self.old self.new }
        ensures every { result ≡ Ok Left → (n : ℕ) → self.old.journal.appender.sync ≡ Every n → 0 < n →
            self.new.journal.appender.waiting < n }
        ensures small { result ≡ Ok Left → (state : State) (kept loose : List Entry) → IsAt F.has F.usable state kept loose self.old →
            offset_behind self.old.journal (did (ACompaction floor) ∷ []) ≤ 2 * opening_size seed (checkpoint_at (after state (Compact floor))) }
        ensures large { (result ≡ Ok Replaced) ⊎ (result ≡ Ok (Failed FileFault)) → (state : State) (kept loose : List Entry) →
            IsAt F.has F.usable state kept loose self.old →
            2 * opening_size seed (checkpoint_at (after state (Compact floor))) < offset_behind self.old.journal (did (ACompaction floor) ∷ []) }
        ensures replaced { result ≡ Ok Replaced → IsReplaced F.has F.usable (λ state. after state (Compact floor)) self.old self.new }
        ensures seed { result ≡ Ok Replaced → self.new.journal.framing.seed ≡ seed }
        ensures none { result ≡ Ok Replaced → self.new.journal.appender.waiting ≡ 0 }
        ensures goes_on { (e : ARefusal) → result ≡ Ok (Failed e) → is_stopped F.usable self.new.journal ≡ false →
            IsRecorded F.has F.usable (λ state. after state (Compact floor)) (λ _. did (ACompaction floor) ∷ []) self.old self.new }
        ensures either { (e : ARefusal) → result ≡ Ok (Failed e) → HasEither F.has F.usable (λ state. after state (Compact floor))
            (λ _. did (ACompaction floor) ∷ []) seed self.old self.new.journal.appender.file }
        ensures memory { (x : AnError) → result ≡ Ok (Failed (Refused x)) → (x ≡ OutOfMemory) × IsRecorded F.has F.usable
            (λ state. after state (Compact floor)) (λ _. did (ACompaction floor) ∷ []) self.old self.new }
        ensures failed { result ≡ Ok (Failed FileFault) → (2 ^ 62 ≤ self.new.journal.appender.offset)
            ⊎ (F.faults self.old.journal.appender.file < F.faults self.new.journal.appender.file) }
        ensures no_other_failure { (e : ARefusal) → result ≡ Ok (Failed e) → IsRefusal e }
        ensures refused { IfErr result (λ e. (x : AnError) → e ≡ Refused x → (state : State) →
            Represents state self.old.bucket → Refuses x (may_compact floor state)) }
        ensures untouched { IfErr result (λ e. (x : AnError) → e ≡ Refused x → self.new ≡ self.old) }
        ensures unchanged { OnErr result (self.new.bucket ≡ self.old.bucket) }
        ensures handed { OnErr result (IsHanded F.has F.usable (λ _. did (ACompaction floor) ∷ []) self.old self.new) }
        ensures fault { IsErrOf result FileFault → (is_stopped F.usable self.old.journal ≡ true)
            ⊎ (F.faults self.old.journal.appender.file < F.faults self.new.journal.appender.file) }
        ensures stops { IsErrOf result FileFault → is_stopped F.usable self.new.journal ≡ true }
        ensures stopped { is_stopped F.usable self.old.journal ≡ true → (result ≡ Err FileFault) × (self.new ≡ self.old) }
        ensures no_other { IfErr result IsRefusal }
        ensures same { (result ≡ Ok Replaced) ⊎ (self.new.journal.framing ≡ self.old.journal.framing) }
        ensures sync { self.new.journal.appender.sync ≡ self.old.journal.appender.sync }
    {
        self.compact(floor)?;
        let replaced = self.replace_large(location, seed);
        Ok(Shrunk::of(replaced))
    }
}
