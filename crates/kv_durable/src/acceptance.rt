//! The one way in which something is accepted: what it leads to is made apart, added to the file, and only then put in place.

ghost use Rattle.std.specs.Prelude.{◌≡◌, ◌<◌, ◌≤◌, ◌^◌, ◌&&◌, ℕ, List, true, is_ok, length, OnErr, OnOk};
ghost use Rattle.kv_file.specs.declared.appender.Sync.TheVariants.{Each, Every};
ghost use Rattle.kv_model.specs.declared.call.Call.{Call as ACall};
ghost use Rattle.kv_single.specs.Batches.{LeadThere};
ghost use Rattle.kv_durable.specs.Journals.{AddsFrames, LeavesFrames};

use crate::durable::Durable;
use kv_file::{FileFault, JournalFile};
use kv_store::Version;

/// What is to be accepted: the version that it leads to, and the frames that tell it.
#[derive(Drop)]
pub(crate) struct Prepared {
    pub next: Version,
    pub frames: Vec<u8>,
}

impl<F: JournalFile> Durable<F> {
    /// Adds the frames to the file, brings all onto the disk where that is due, and only then puts the version in place.
    pub(crate) fn keep(&mut self, prepared: Prepared) -> Result<(), FileFault>
        requires steps { (calls : List ACall) × LeadThere calls self.old.bucket (record self.old.bucket { version = prepared.next }) }
        requires room { self.old.journal.appender.offset < 2 ^ 62 }
        requires short { length prepared.frames.items < 2 ^ 33 }
        ensures bucket { OnOk result (self.new.bucket ≡ record self.old.bucket { version = prepared.next }) }
        ensures unchanged { OnErr result (self.new.bucket ≡ self.old.bucket) }
        ensures added { OnOk result (AddsFrames F.has F.usable prepared.frames.items self.old.journal self.new.journal) }
        ensures left { OnErr result (LeavesFrames F.has F.usable prepared.frames.items self.old.journal self.new.journal.appender.file) }
        ensures each { OnOk result (self.old.journal.appender.sync ≡ Each → self.new.journal.appender.loose ≡ 0) }
        ensures every { OnOk result ((n : ℕ) → self.old.journal.appender.sync ≡ Every n → 0 < n →
            self.new.journal.appender.waiting < n) }
        ensures framing { self.new.journal.framing ≡ self.old.journal.framing }
        ensures sync { self.new.journal.appender.sync ≡ self.old.journal.appender.sync }
        ensures usable { F.usable self.new.journal.appender.file ≡ (F.usable self.old.journal.appender.file && is_ok result) }
        ensures count { F.faults self.old.journal.appender.file ≤ F.faults self.new.journal.appender.file }
        ensures failed { OnErr result (F.usable self.old.journal.appender.file ≡ true →
            F.faults self.old.journal.appender.file < F.faults self.new.journal.appender.file) }
    {
        let Prepared { next, frames } = prepared;
        self.journal.add(&frames)?;
        self.bucket.go_on_through(next);
        Ok(())
    }
}
