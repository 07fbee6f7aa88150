//! The journal of a bucket: its file, and what adds entries to it.

ghost use Rattle.std.specs.Prelude.{◌≡◌, ◌⊎◌, ◌<◌, ◌≤◌, ◌^◌, ◌++◌, ◌∷◌, ◌&&◌, [], ℕ, List, true, false, is_ok, length, IfOk, IsErrOf, OnErr, OnOk};
ghost use Rattle.kv_file.specs.declared.appender.Sync.TheVariants.{Each, Every};
ghost use Rattle.kv_frames.specs.Frames.{ArePayloads, IsPayload, frames};
ghost use Rattle.kv_journal.specs.Entries.{Entry};
ghost use Rattle.kv_file.specs.declared.replace.ReplaceFault.TheVariants.{Unchanged, Unknown};
ghost use Rattle.kv_durable.specs.Bases.{Base, IsLawfulBase, base_payloads, opening};
ghost use Rattle.kv_durable.specs.Files.{file_of};
ghost use Rattle.kv_durable.specs.Journals.{AddsFrames, CanFollow, HasEntries, IsLeft, Keeps, LeavesFrames, is_stopped, loose_ahead};

use crate::config::OwnConfig;
use kv_file::{Appender, FileFault, JournalFile, ReplaceFault, ReplaceableFile, Sync};
use kv_frames::Framing;
use std::alloc::{AllocError, Global};

// A file with so many bytes is full.
const FULL: u64 = 4_611_686_018_427_387_904;

/// The file of a bucket, to which its entries are added: by a `Durable`, or by a layer that publishes what it adds, as
/// `DurableKeeper` of `kv_durable_live` does. Such a layer makes the next version first, then the frame that tells it, adds that,
/// and only then puts the version in place.
#[derive(Drop)]
pub struct Journal<F: JournalFile> {
    pub(crate) framing: Framing,
    pub(crate) config: OwnConfig,
    pub(crate) appender: Appender<F>,
}

impl<F: JournalFile> Journal<F> {
    /// The journal of a file whose frames are written so, and that ends at this offset, all of it on the disk.
    pub(crate) fn new(
        file: F,
        framing: Framing,
        config: OwnConfig,
        offset: u64,
        sync: Sync,
    ) -> Journal<F>
        ensures keeps { (base : Base) (entries : List Entry) → framing.seed < 2 ^ 64 → config.config ≡ base.config → ArePayloads (base_payloads base) →
            IsLawfulBase base → CanFollow base [] entries → F.usable file ≡ true →
            F.has file (file_of framing.seed base entries) [] → offset ≡ length (file_of framing.seed base entries) →
            Keeps F.has F.usable base entries [] result }
        ensures framing { result.framing ≡ framing }
        ensures file { result.appender.file ≡ file }
        ensures sync { result.appender.sync ≡ sync }
    {
        Journal {
            framing,
            config,
            appender: Appender::new(file, offset, sync),
        }
    }

    /// The file.
    pub fn file(&self) -> &F
        ensures { result.now ≡ self.now.appender.file }
    {
        self.appender.file()
    }

    /// The seed of the file: the number that was chosen when it was made.
    pub fn seed(&self) -> u64
        ensures { result ≡ self.now.framing.seed }
    {
        self.framing.seed
    }

    /// Where the file ends.
    pub fn offset(&self) -> u64
        ensures { result ≡ self.now.appender.offset }
    {
        self.appender.offset()
    }

    /// The file, to which nothing more is added.
    pub fn into_file(self) -> F
        ensures { result ≡ self.appender.file }
    {
        let Journal {
            framing: _,
            config: _,
            appender,
        } = self;
        appender.into_file()
    }

    /// Whether nothing more is added: a call of the file has failed, or it has 2^62 bytes.
    pub fn is_stopped(&self) -> bool
        ensures { result ≡ is_stopped F.usable self.now }
    {
        !self.appender.file().is_usable() || self.appender.offset() >= FULL
    }

    /// Refused where nothing more is added.
    pub fn may_add(&self) -> Result<(), FileFault>
        ensures ok { OnOk result (is_stopped F.usable self.now ≡ false) }
        ensures err { OnErr result (is_stopped F.usable self.now ≡ true) }
    {
        if self.is_stopped() {
            return Err(FileFault);
        }
        Ok(())
    }

    /// How many bytes will be loose before what is added next.
    pub(crate) fn loose_ahead(&self) -> u32
        ensures value { result ≡ loose_ahead self.now }
        ensures few { result ≤ 1073741824 }
    {
        self.appender.loose_ahead()
    }

    /// The frame of a payload that is added next.
    pub(crate) fn frame_of(&self, alloc: Global, payload: &[u8]) -> Result<Vec<u8>, AllocError>
        requires { IsPayload payload.now }
        ensures items { IfOk result
            (λ v. v.items ≡ frames self.now.framing.seed self.now.appender.offset (payload.now ∷ [])) }
        ensures short { IfOk result (λ v. length v.items < 2 ^ 33) }
    {
        let mut frame = Vec::with_capacity(alloc, 8 + payload.len())?;
        self.framing
            .push_frame(&mut frame, self.appender.offset(), payload)?;
        Ok(frame)
    }

    /// Adds the frame of an entry, and brings all onto the disk where that is due.
    pub fn add(&mut self, bytes: &[u8]) -> Result<(), FileFault>
        requires room { self.old.appender.offset < 2 ^ 62 }
        requires short { length bytes.now < 2 ^ 33 }
        ensures ok { OnOk result (AddsFrames F.has F.usable bytes.now self.old self.new) }
        ensures err { OnErr result (LeavesFrames F.has F.usable bytes.now self.old self.new.appender.file) }
        ensures each { OnOk result (self.old.appender.sync ≡ Each → self.new.appender.loose ≡ 0) }
        ensures every { OnOk result ((n : ℕ) → self.old.appender.sync ≡ Every n → 0 < n → self.new.appender.waiting < n) }
        ensures framing { self.new.framing ≡ self.old.framing }
        ensures sync { self.new.appender.sync ≡ self.old.appender.sync }
        ensures still { OnOk result (F.usable self.old.appender.file ≡ true → F.usable self.new.appender.file ≡ true) }
        ensures count { F.faults self.old.appender.file ≤ F.faults self.new.appender.file }
        ensures usable { F.usable self.new.appender.file ≡ (F.usable self.old.appender.file && is_ok result) }
        ensures failed { OnErr result (F.usable self.old.appender.file ≡ true →
            F.faults self.old.appender.file < F.faults self.new.appender.file) }
    {
        self.appender.add(bytes)
    }

    /// Brings all onto the disk.
    pub fn flush(&mut self) -> Result<(), FileFault>
        ensures ok { OnOk result ((base : Base) (kept loose : List Entry) →
            Keeps F.has F.usable base kept loose self.old → Keeps F.has F.usable base (kept ++ loose) [] self.new) }
        ensures err { OnErr result ((base : Base) (kept loose : List Entry) →
            Keeps F.has F.usable base kept loose self.old →
            IsLeft F.has self.old.framing.seed base kept loose self.new.appender.file) }
        ensures none { OnOk result (self.new.appender.loose ≡ 0) }
        ensures framing { self.new.framing ≡ self.old.framing }
        ensures sync { self.new.appender.sync ≡ self.old.appender.sync }
        ensures offset { self.new.appender.offset ≡ self.old.appender.offset }
        ensures usable { F.usable self.new.appender.file ≡ (F.usable self.old.appender.file && is_ok result) }
        ensures failed { OnErr result (F.usable self.old.appender.file ≡ true →
            F.faults self.old.appender.file < F.faults self.new.appender.file) }
    {
        self.appender.flush()
    }

    /// Puts in the place of the file one that has these bytes, whose frames are written so.
    pub(crate) fn replace<P>(
        &mut self,
        location: &P,
        framing: Framing,
        bytes: Vec<u8>,
    ) -> Result<(), ReplaceFault>
    where
        F: ReplaceableFile<P>,
        ensures ok { OnOk result ((was base : Base) (kept loose : List Entry) → Keeps F.has F.usable was kept loose self.old →
            base.config ≡ was.config → IsLawfulBase base → ArePayloads (base_payloads base) →
            bytes.items ≡ opening framing.seed base → Keeps F.has F.usable base [] [] self.new) }
        ensures framing { OnOk result (self.new.framing ≡ framing) }
        ensures none { OnOk result (self.new.appender.waiting ≡ 0) }
        ensures unchanged { IsErrOf result Unchanged → (base : Base) (kept loose : List Entry) →
            Keeps F.has F.usable base kept loose self.old → Keeps F.has F.usable base kept loose self.new }
        ensures unknown { IsErrOf result Unknown → (was base : Base) (kept loose : List Entry) → Keeps F.has F.usable was kept loose self.old →
            bytes.items ≡ opening framing.seed base →
            HasEntries F.has self.old.framing.seed was kept loose self.new.appender.file
            ⊎ HasEntries F.has framing.seed base [] [] self.new.appender.file }
        ensures stops { IsErrOf result Unknown → is_stopped F.usable self.new ≡ true }
        ensures stays { OnErr result (self.new.framing ≡ self.old.framing) }
        ensures offset { OnErr result (self.new.appender.offset ≡ self.old.appender.offset) }
        ensures sync { self.new.appender.sync ≡ self.old.appender.sync }
        ensures failed { OnErr result (F.usable self.old.appender.file ≡ true →
            F.faults self.old.appender.file < F.faults self.new.appender.file) }
    {
        match self.appender.replace(location, bytes) {
            Ok(()) => {
                self.framing = framing;
                Ok(())
            }
            Err(fault) => Err(fault),
        }
    }
}
