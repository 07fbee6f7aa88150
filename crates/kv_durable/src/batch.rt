//! Batches of a durable bucket: several requests in one step, which a crash keeps all or none of.

ghost use Rattle.std.specs.Prelude.{◌≡◌, ◌⊎◌, ◌<◌, ◌^◌, ◌∷◌, [], ℕ, List, true, false, Ok, Err, length, map, IfErr, IfOk, IsErrOf, OnErr, OnOk, IsOk};
ghost use Rattle.kv_file.specs.declared.appender.Sync.TheVariants.{Every};
ghost use Rattle.kv_journal.specs.Records.{act_records, asked_records, did_all};
ghost use Rattle.kv_model.specs.Acts.{Act};
ghost use Rattle.kv_model.specs.Batches.{IsRefusedAt, accept_all, after_batch};
ghost use Rattle.kv_model.specs.Requests.{asked};
ghost use Rattle.kv_model.specs.State.{State};
ghost use Rattle.kv_model.specs.declared.batch.BatchRefused.{BatchRefused as ARefusal};
ghost use Rattle.kv_single.specs.Batches.{IsBatch};
ghost use Rattle.kv_single.specs.Held.{Represents};
ghost use Rattle.kv_durable.specs.Durables.{IsHanded, IsRecorded, batch_of};
ghost use Rattle.kv_durable.specs.Journals.{IsFrameOf, is_stopped};
ghost use Rattle.kv_durable.specs.declared.error.BatchError.TheVariants.{FileFault, Refused};

use crate::acceptance::Prepared;
use crate::durable::Durable;
use crate::error::BatchError;
use kv_file::JournalFile;
use kv_keys::KvError;
use kv_model::{BatchRefused, Request};

// What a batch leads to, and the revision of its first write.
#[derive(Drop)]
struct PreparedBatch {
    prepared: Prepared,
    first: u64,
}

impl<F: JournalFile> Durable<F> {
    // The version with all writes, and the one frame that tells them. Where that has no room, the last request is refused.
    fn prepared_batch(
        &self,
        requests: &[Request],
        first: &Request,
        rest: &[Request],
    ) -> Result<PreparedBatch, BatchError>
        requires { requests.now ≡ first.now ∷ rest.now }
        ensures goes { OnOk result (is_stopped F.usable self.now.journal ≡ false) }
        ensures batch { IfOk result (λ p. IsBatch self.now.bucket requests.now p.first
            (record self.now.bucket { version = p.prepared.next })) }
        ensures frame { IfOk result (λ p. (acts : List Act) →
            act_records acts ≡ asked_records (map asked requests.now) →
            IsFrameOf self.now.journal (did_all acts) p.prepared.frames.items) }
        ensures short { IfOk result (λ p. length p.prepared.frames.items < 2 ^ 33) }
        ensures refused { IfErr result (λ e. (x : ARefusal) → e ≡ Refused x → (state : State) →
            Represents state self.now.bucket → IsRefusedAt state.config (map asked requests.now) state.acts x) }
        ensures fault { IsErrOf result FileFault → is_stopped F.usable self.now.journal ≡ true }
        ensures stopped { is_stopped F.usable self.now.journal ≡ true → result ≡ Err FileFault }
    {
        self.journal.may_add()?;
        let bucket = &self.bucket;
        let alloc = bucket.alloc();
        let (next, revision) = bucket.version().apply_all(alloc, first, rest)?;
        match self.journal.frame_of_batch(alloc, requests) {
            Ok(frames) => Ok(PreparedBatch {
                prepared: Prepared { next, frames },
                first: revision,
            }),
            Err(_) => Err(BatchError::Refused(BatchRefused {
                at: rest.len(),
                error: KvError::OutOfMemory,
            })),
        }
    }

    // Does a batch that has a first request.
    fn write_some(
        &mut self,
        requests: &[Request],
        first: &Request,
        rest: &[Request],
    ) -> Result<u64, BatchError>
        requires { requests.now ≡ first.now ∷ rest.now }
        ensures ok { IfOk result (λ first. IsBatch self.old.bucket requests.now first self.new.bucket) }
        ensures recorded { OnOk result (IsRecorded F.has F.usable
            (λ state. after_batch state (accept_all state.config (map asked requests.now) state.acts))
            (λ state. batch_of (accept_all state.config (map asked requests.now) state.acts)) self.old self.new) }
        ensures every { OnOk result ((n : ℕ) → self.old.journal.appender.sync ≡ Every n → 0 < n →
            self.new.journal.appender.waiting < n) }
        ensures refused { IfErr result (λ e. (x : ARefusal) → e ≡ Refused x → (state : State) →
            Represents state self.old.bucket → IsRefusedAt state.config (map asked requests.now) state.acts x) }
        ensures untouched { IfErr result (λ e. (x : ARefusal) → e ≡ Refused x → self.new ≡ self.old) }
        ensures unchanged { OnErr result (self.new.bucket ≡ self.old.bucket) }
        ensures handed { OnErr result (IsHanded F.has F.usable
            (λ state. batch_of (accept_all state.config (map asked requests.now) state.acts)) self.old self.new) }
        ensures fault { IsErrOf result FileFault → (is_stopped F.usable self.old.journal ≡ true)
            ⊎ (F.faults self.old.journal.appender.file < F.faults self.new.journal.appender.file) }
        ensures stops { IsErrOf result FileFault → is_stopped F.usable self.new.journal ≡ true }
        ensures stopped { is_stopped F.usable self.old.journal ≡ true → (result ≡ Err FileFault) × (self.new ≡ self.old) }
        ensures same { (self.new.journal.framing ≡ self.old.journal.framing)
            × (self.new.journal.appender.sync ≡ self.old.journal.appender.sync) }
    {
        let batch = self.prepared_batch(requests, first, rest)?;
        let revision = batch.first;
        self.keep(batch.prepared)?;
        Ok(revision)
    }

    /// Does all that is asked in one step, or nothing, as `Bucket::write_all` does, and answers the revision of the first
    /// write: one record of the whole batch is in the file then, and on the disk where that is due. A crash keeps all of
    /// it or none. A refused batch changes nothing, uses no revision, and is not in the file. Of no requests nothing is
    /// done and the file is not touched, also where it has failed, and the last revision is answered.
    ///
    /// A batch whose record would have more than a gibibyte before its last write is refused as if memory were, at its
    /// last request.
    pub fn write_all(&mut self, requests: &[Request]) -> Result<u64, BatchError>
        ensures ok { IfOk result (λ first. IsBatch self.old.bucket requests.now first self.new.bucket) }
        ensures none { requests.now ≡ [] → IsOk result × (self.new ≡ self.old) }
        ensures recorded { OnOk result ((requests.now ≡ [] → ⊥) → IsRecorded F.has F.usable
            (λ state. after_batch state (accept_all state.config (map asked requests.now) state.acts))
            (λ state. batch_of (accept_all state.config (map asked requests.now) state.acts)) self.old self.new) }
        ensures every { OnOk result ((requests.now ≡ [] → ⊥) → (n : ℕ) → self.old.journal.appender.sync ≡ Every n → 0 < n →
            self.new.journal.appender.waiting < n) }
        ensures refused { IfErr result (λ e. (x : ARefusal) → e ≡ Refused x → (state : State) →
            Represents state self.old.bucket → IsRefusedAt state.config (map asked requests.now) state.acts x) }
        ensures untouched { IfErr result (λ e. (x : ARefusal) → e ≡ Refused x → self.new ≡ self.old) }
        ensures unchanged { OnErr result (self.new.bucket ≡ self.old.bucket) }
        ensures handed { OnErr result (IsHanded F.has F.usable
            (λ state. batch_of (accept_all state.config (map asked requests.now) state.acts)) self.old self.new) }
        ensures fault { IsErrOf result FileFault → (is_stopped F.usable self.old.journal ≡ true)
            ⊎ (F.faults self.old.journal.appender.file < F.faults self.new.journal.appender.file) }
        ensures stops { IsErrOf result FileFault → is_stopped F.usable self.new.journal ≡ true }
        ensures stopped { (requests.now ≡ [] → ⊥) → is_stopped F.usable self.old.journal ≡ true →
            (result ≡ Err FileFault) × (self.new ≡ self.old) }
        ensures same { (self.new.journal.framing ≡ self.old.journal.framing)
            × (self.new.journal.appender.sync ≡ self.old.journal.appender.sync) }
    {
        match requests.split_first() {
            Some((first, rest)) => self.write_some(requests, first, rest),
            None => Ok(self.bucket.version().revision()),
        }
    }
}
