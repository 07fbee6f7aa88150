//! Checkpoints of a durable bucket: its file is replaced by one that has what the bucket stores, in place of the acts that led
//! to it.

ghost use Rattle.std.specs.Prelude.{◌≡◌, ◌⊎◌, ◌<◌, ◌^◌, [], List, Err, false, true, IfErr, IfOk, IsErrOf, OnErr, OnOk};
ghost use Rattle.kv_frames.specs.Frames.{ArePayloads};
ghost use Rattle.kv_journal.specs.Entries.{Entry};
ghost use Rattle.kv_keys.specs.declared.error.KvError.{KvError as AnError};
ghost use Rattle.kv_keys.specs.declared.error.KvError.TheVariants.{OutOfMemory};
ghost use Rattle.kv_model.specs.Acts.{Act};
ghost use Rattle.kv_model.specs.State.{State};
ghost use Rattle.kv_store.specs.Standing.{StandsFor};
ghost use Rattle.kv_durable.specs.Bases.{Base, base_payloads, opening, replaced_by};
ghost use Rattle.kv_durable.specs.Durables.{IsAt, IsRefusal, IsReplaced, checkpoint_at};
ghost use Rattle.kv_durable.specs.Journals.{HasEntries, Keeps, is_stopped};
ghost use Rattle.kv_durable.specs.declared.error.DurableError.TheVariants.{FileFault, Refused};

use crate::config::OwnConfig;
use crate::durable::Durable;
use crate::error::DurableError;
use crate::journal::Journal;
use kv_file::{JournalFile, ReplaceableFile};
use kv_frames::Framing;
use kv_journal::{push_beginning, push_checkpoint};
use kv_store::Version;
use std::alloc::Global;

// The bytes of a file that begins with the checkpoint of a version, and has nothing behind it.
pub(crate) fn file_of(
    alloc: Global,
    framing: &Framing,
    own: &OwnConfig,
    version: &Version,
) -> Result<Vec<u8>, DurableError>
    ensures items { IfOk result (λ v. (acts : List Act) → StandsFor acts version.now → version.now.config ≡ own.now.config →
        v.items ≡ opening framing.now.seed (replaced_by own.now.config acts)) }
    ensures payloads { OnOk result ((acts : List Act) → StandsFor acts version.now → version.now.config ≡ own.now.config →
        ArePayloads (base_payloads (replaced_by own.now.config acts))) }
    ensures err { IfErr result (λ e. e ≡ Refused OutOfMemory) }
{
    let mut bytes = Vec::new(alloc);
    push_beginning(alloc, &mut bytes, framing, &own.config)?;
    push_checkpoint(alloc, &mut bytes, framing, version)?;
    Ok(bytes)
}

impl<F: JournalFile> Durable<F> {
    /// Replaces the file, where it lies at such a location, by one with this seed that has what the bucket stores, and none of the
    /// acts that led to it. Choose the seed at random, and another for each file: a disk can leave blocks of the old file in
    /// the new one. Whatever a crash leaves, it is the old file or the whole new one, and both are of the same bucket.
    ///
    /// A fault before the new file takes the place of the old one leaves that in use: the bucket goes on, as `is_stopped` of
    /// its journal tells. After a fault whose outcome is not known, nothing more is written.
    ///
    /// It makes the new file in memory: a frame of each stored write, and one of the numbers.
    pub fn checkpoint<P>(&mut self, location: &P, seed: u64) -> Result<(), DurableError>
    where
        F: ReplaceableFile<P>,
        ensures ok { OnOk result (IsReplaced F.has F.usable (λ state. state) self.old self.new) }
        ensures seed { OnOk result (self.new.journal.framing.seed ≡ seed) }
        ensures bucket { self.new.bucket ≡ self.old.bucket }
        ensures goes_on { OnErr result (is_stopped F.usable self.new.journal ≡ false →
            (state : State) (kept loose : List Entry) (at : IsAt F.has F.usable state kept loose self.old) →
            (next : IsAt F.has F.usable state kept loose self.new) × (next.base ≡ at.base)) }
        ensures left { OnErr result ((state : State) (kept loose : List Entry) (at : IsAt F.has F.usable state kept loose self.old) →
            HasEntries F.has self.old.journal.framing.seed at.base kept loose self.new.journal.appender.file
            ⊎ HasEntries F.has seed (checkpoint_at state) [] [] self.new.journal.appender.file) }
        ensures refused { IfErr result (λ e. (x : AnError) → e ≡ Refused x → x ≡ OutOfMemory) }
        ensures untouched { IfErr result (λ e. (x : AnError) → e ≡ Refused x → self.new ≡ self.old) }
        ensures fault { IsErrOf result FileFault → (is_stopped F.usable self.old.journal ≡ true)
            ⊎ (F.faults self.old.journal.appender.file < F.faults self.new.journal.appender.file) }
        ensures stopped { is_stopped F.usable self.old.journal ≡ true → (result ≡ Err FileFault) × (self.new ≡ self.old) }
        ensures no_other { IfErr result IsRefusal }
        ensures sync { self.new.journal.appender.sync ≡ self.old.journal.appender.sync }
    {
        let bucket = &self.bucket;
        self.journal
            .replace_by_checkpoint(bucket.alloc(), location, seed, bucket.version())
    }
}

impl<F: JournalFile + Drop> Journal<F> {
    /// The journal of another file, which has this seed and what the version stores in place of the acts that led to it, and the
    /// bytes of that file. Whoever calls it brings these onto the disk, and the file into the place of this journal's; until then
    /// this one is in use. Choose the seed as for `Durable::checkpoint`.
    pub fn checkpointed(
        &self,
        alloc: Global,
        file: F,
        seed: u64,
        version: &Version,
    ) -> Result<(Journal<F>, Vec<u8>), DurableError>
        ensures bytes { IfOk result (λ r. (acts : List Act) → StandsFor acts version.now → version.now.config ≡ self.now.config.config →
            r.1.items ≡ opening seed (replaced_by self.now.config.config acts)) }
        ensures keeps { IfOk result (λ r. (acts : List Act) → StandsFor acts version.now → version.now.config ≡ self.now.config.config →
            F.usable file ≡ true → F.has file r.1.items [] → Keeps F.has F.usable (replaced_by self.now.config.config acts) [] [] r.0) }
        ensures seed { IfOk result (λ r. r.0.framing.seed ≡ seed) }
        ensures file { IfOk result (λ r. r.0.appender.file ≡ file) }
        ensures sync { IfOk result (λ r. r.0.appender.sync ≡ self.now.appender.sync) }
        ensures err { IfErr result (λ e. e ≡ Refused OutOfMemory) }
    {
        let other = Framing::new(seed);
        let bytes = file_of(alloc, &other, &self.config, version)?;
        let config = OwnConfig::copy_of(alloc, &self.config.config)?;
        let offset = bytes.len() as u64;
        let journal = Journal::new(file, other, config, offset, self.appender.mode());
        Ok((journal, bytes))
    }
}

impl<F: JournalFile> Journal<F> {
    /// Replaces the file, where it lies at such a location, by one with this seed that has what the version stores, as
    /// `Durable::checkpoint` does it of its bucket: for a layer that has the bucket and its journal side by side. The version is to
    /// be that of the bucket whose journal this is. Choose the seed as for `Durable::checkpoint`.
    ///
    /// A fault before the new file takes the place of the old one leaves that in use, as `is_stopped` tells. After a fault whose
    /// outcome is not known, nothing more is written.
    pub fn replace_by_checkpoint<P>(
        &mut self,
        alloc: Global,
        location: &P,
        seed: u64,
        version: &Version,
    ) -> Result<(), DurableError>
    where
        F: ReplaceableFile<P>,
        ensures ok { OnOk result ((was : Base) (kept loose : List Entry) (acts : List Act) → Keeps F.has F.usable was kept loose self.old →
            StandsFor acts version.now → version.now.config ≡ was.config →
            Keeps F.has F.usable (replaced_by was.config acts) [] [] self.new) }
        ensures seed { OnOk result (self.new.framing.seed ≡ seed) }
        ensures none { OnOk result (self.new.appender.waiting ≡ 0) }
        ensures goes_on { OnErr result (is_stopped F.usable self.new ≡ false → (base : Base) (kept loose : List Entry) →
            Keeps F.has F.usable base kept loose self.old → Keeps F.has F.usable base kept loose self.new) }
        ensures left { OnErr result ((was : Base) (kept loose : List Entry) (acts : List Act) → Keeps F.has F.usable was kept loose self.old →
            StandsFor acts version.now → version.now.config ≡ was.config →
            HasEntries F.has self.old.framing.seed was kept loose self.new.appender.file
            ⊎ HasEntries F.has seed (replaced_by was.config acts) [] [] self.new.appender.file) }
        ensures refused { IfErr result (λ e. (x : AnError) → e ≡ Refused x → x ≡ OutOfMemory) }
        ensures untouched { IfErr result (λ e. (x : AnError) → e ≡ Refused x → self.new ≡ self.old) }
        ensures fault { IsErrOf result FileFault → (is_stopped F.usable self.old ≡ true)
            ⊎ (F.faults self.old.appender.file < F.faults self.new.appender.file) }
        ensures stopped { is_stopped F.usable self.old ≡ true → (result ≡ Err FileFault) × (self.new ≡ self.old) }
        ensures no_other { IfErr result IsRefusal }
        ensures same { OnErr result (self.new.framing ≡ self.old.framing) }
        ensures sync { self.new.appender.sync ≡ self.old.appender.sync }
    {
        self.may_add()?;
        let next = Framing::new(seed);
        let bytes = file_of(alloc, &next, &self.config, version)?;
        self.replace(location, next, bytes)?;
        Ok(())
    }
}
