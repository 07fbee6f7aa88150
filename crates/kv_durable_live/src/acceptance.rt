//! The one way in which something is accepted: what it leads to is made apart, added to the file, and only then published.

ghost use Rattle.std.specs.Prelude.{◌≡◌, ◌<◌, ◌≤◌, ◌^◌, ◌&&◌, ◌∷◌, [], ℕ, true, is_ok, length, IfOk, OnErr, OnOk};
ghost use Rattle.kv_bucket.specs.Batches.{ComeNext};
ghost use Rattle.kv_bucket.specs.Keeping.{ComesNext, kept_with};
ghost use Rattle.kv_durable.specs.Journals.{AddsFrames, LeavesFrames};
ghost use Rattle.kv_file.specs.declared.appender.Sync.TheVariants.{Each, Every};
ghost use Rattle.kv_publish.specs.Steps.{acts_from, step_of};

use crate::keeper::DurableKeeper;
use kv_bucket::{BatchReceipt, LiveName, Prepared, PreparedBatch};
use kv_durable::JournalFile;
use kv_file::FileFault;
use kv_model::Request;
use std::sync::Wait;

/// An act that is to be accepted, and the frame that tells it.
#[derive(Drop)]
pub(crate) struct Framed {
    pub next: Prepared,
    pub frame: Vec<u8>,
}

/// A batch that is to be accepted, and the frame that tells it.
#[derive(Drop)]
pub(crate) struct FramedBatch {
    pub next: PreparedBatch,
    pub frame: Vec<u8>,
}

impl<N: LiveName, F: JournalFile> DurableKeeper<N, F> {
    /// Adds the frame to the file, brings all onto the disk where that is due, and only then publishes the act.
    pub(crate) fn keep<R: Wait>(&mut self, rt: &R, framed: Framed) -> Result<(), FileFault>
        requires next { ComesNext N.opening.config self.old.keeper framed.next }
        requires room { self.old.journal.appender.offset < 2 ^ 62 }
        requires short { length framed.frame.items < 2 ^ 33 }
        ensures keeper { OnOk result
            (self.new.keeper ≡ kept_with self.old.keeper (framed.next.act ∷ []) framed.next.version) }
        ensures unchanged { OnErr result (self.new.keeper ≡ self.old.keeper) }
        ensures added { OnOk result (AddsFrames F.has F.usable framed.frame.items self.old.journal self.new.journal) }
        ensures left { OnErr result (LeavesFrames F.has F.usable framed.frame.items self.old.journal self.new.journal.appender.file) }
        ensures each { OnOk result (self.old.journal.appender.sync ≡ Each → self.new.journal.appender.loose ≡ 0) }
        ensures every { OnOk result ((n : ℕ) → self.old.journal.appender.sync ≡ Every n → 0 < n →
            self.new.journal.appender.waiting < n) }
        ensures framing { self.new.journal.framing ≡ self.old.journal.framing }
        ensures sync { self.new.journal.appender.sync ≡ self.old.journal.appender.sync }
        ensures count { F.faults self.old.journal.appender.file ≤ F.faults self.new.journal.appender.file }
        ensures usable { F.usable self.new.journal.appender.file ≡ (F.usable self.old.journal.appender.file && is_ok result) }
        ensures failed { OnErr result (F.usable self.old.journal.appender.file ≡ true →
            F.faults self.old.journal.appender.file < F.faults self.new.journal.appender.file) }
    {
        let Framed { next, frame } = framed;
        self.journal.add(&frame)?;
        self.keeper.publish(rt, next);
        Ok(())
    }

    /// The same of a batch, whose writes are published in one step.
    pub(crate) fn keep_all<R: Wait>(
        &mut self,
        rt: &R,
        requests: &[Request],
        framed: FramedBatch,
    ) -> Result<BatchReceipt<N>, FileFault>
        requires next { ComeNext N.opening.config self.old.keeper requests.now framed.next }
        requires room { self.old.journal.appender.offset < 2 ^ 62 }
        requires short { length framed.frame.items < 2 ^ 33 }
        ensures keeper { OnOk result
            (self.new.keeper ≡ kept_with self.old.keeper (acts_from framed.next.first requests.now) framed.next.version) }
        ensures told { IfOk result (λ receipt. receipt ≡ step_of self.old.keeper.published self.new.keeper.published) }
        ensures unchanged { OnErr result (self.new.keeper ≡ self.old.keeper) }
        ensures added { OnOk result (AddsFrames F.has F.usable framed.frame.items self.old.journal self.new.journal) }
        ensures left { OnErr result (LeavesFrames F.has F.usable framed.frame.items self.old.journal self.new.journal.appender.file) }
        ensures each { OnOk result (self.old.journal.appender.sync ≡ Each → self.new.journal.appender.loose ≡ 0) }
        ensures every { OnOk result ((n : ℕ) → self.old.journal.appender.sync ≡ Every n → 0 < n →
            self.new.journal.appender.waiting < n) }
        ensures framing { self.new.journal.framing ≡ self.old.journal.framing }
        ensures sync { self.new.journal.appender.sync ≡ self.old.journal.appender.sync }
        ensures usable { F.usable self.new.journal.appender.file ≡ (F.usable self.old.journal.appender.file && is_ok result) }
        ensures failed { OnErr result (F.usable self.old.journal.appender.file ≡ true →
            F.faults self.old.journal.appender.file < F.faults self.new.journal.appender.file) }
    {
        let FramedBatch { next, frame } = framed;
        self.journal.add(&frame)?;
        Ok(self.keeper.publish_all(rt, requests, next))
    }
}
