//! Batches: several requests in one step, which a crash keeps all or none of.

ghost use Rattle.std.specs.Prelude.{◌≡◌, ◌⊎◌, ◌<◌, ◌^◌, ◌++◌, ◌∷◌, [], ℕ, List, true, false, Ok, Err, length, map, IfErr, IfOk, IsErrOf, IsOk, OnErr, OnOk};
ghost use Rattle.kv_bucket.specs.Batches.{ComeNext, IsKeptBatch, PublishesAll};
ghost use Rattle.kv_bucket.specs.Keeping.{IsAt, kept_with};
ghost use Rattle.kv_durable.specs.Durables.{IsHanded, IsRecorded, batch_of};
ghost use Rattle.kv_durable.specs.Journals.{IsFrameOf, is_stopped};
ghost use Rattle.kv_durable.specs.declared.error.BatchError.TheVariants.{FileFault, Refused};
ghost use Rattle.kv_durable_live.specs.Sharing.{durable_of};
ghost use Rattle.kv_file.specs.declared.appender.Sync.TheVariants.{Every};
ghost use Rattle.kv_journal.specs.Records.{act_records, asked_records, did_all};
ghost use Rattle.kv_model.specs.Acts.{Act};
ghost use Rattle.kv_model.specs.Batches.{IsRefusedAt, accept_all, after_batch};
ghost use Rattle.kv_model.specs.Requests.{asked};
ghost use Rattle.kv_model.specs.State.{State};
ghost use Rattle.kv_model.specs.declared.batch.BatchRefused.{BatchRefused as ARefusal};
ghost use Rattle.kv_publish.specs.Steps.{acts_from, step_of};
ghost use Rattle.kv_single.specs.Batches.{IsBatch};

use crate::acceptance::FramedBatch;
use crate::keeper::DurableKeeper;
use kv_bucket::{BatchReceipt, LiveName};
use kv_durable::{BatchError, JournalFile};
use kv_keys::KvError;
use kv_model::{BatchRefused, Request};
use std::sync::Wait;

impl<N: LiveName, F: JournalFile> DurableKeeper<N, F> {
    // All that is asked, and the one frame that tells it. Where that has no room, the last request is refused.
    fn framed_batch(
        &self,
        requests: &[Request],
        first: &Request,
        rest: &[Request],
    ) -> Result<FramedBatch, BatchError>
        requires { requests.now ≡ first.now ∷ rest.now }
        ensures goes { OnOk result (is_stopped F.usable self.now.journal ≡ false) }
        ensures ok { IfOk result (λ f. IsKeptBatch self.now.keeper requests.now f.next.first
            (kept_with self.now.keeper (acts_from f.next.first requests.now) f.next.version)) }
        ensures published { IfOk result
            (λ f. PublishesAll N.opening.config (map asked requests.now) f.next.first self.now.keeper.published
            (self.now.keeper.published ++ acts_from f.next.first requests.now)) }
        ensures next { IfOk result (λ f. ComeNext N.opening.config self.now.keeper requests.now f.next) }
        ensures batch { IfOk result (λ f. IsBatch self.now.keeper.bucket requests.now f.next.first
            (record self.now.keeper.bucket { version = f.next.version })) }
        ensures frame { IfOk result (λ f. (acts : List Act) →
            act_records acts ≡ asked_records (map asked requests.now) → IsFrameOf self.now.journal (did_all acts) f.frame.items) }
        ensures short { IfOk result (λ f. length f.frame.items < 2 ^ 33) }
        ensures refused { IfErr result (λ e. (x : ARefusal) → e ≡ Refused x → (state : State) →
            IsAt state self.now.keeper → IsRefusedAt state.config (map asked requests.now) state.acts x) }
        ensures fault { IsErrOf result FileFault → is_stopped F.usable self.now.journal ≡ true }
        ensures stopped { is_stopped F.usable self.now.journal ≡ true → result ≡ Err FileFault }
    {
        self.journal.may_add()?;
        let next = self.keeper.next_all(requests, first, rest)?;
        match self
            .journal
            .frame_of_batch(self.keeper.bucket().alloc(), requests)
        {
            Ok(frame) => Ok(FramedBatch { next, frame }),
            Err(_) => Err(BatchError::Refused(BatchRefused {
                at: rest.len(),
                error: KvError::OutOfMemory,
            })),
        }
    }

    // Does a batch that has a first request.
    fn write_some<R: Wait>(
        &mut self,
        rt: &R,
        requests: &[Request],
        first: &Request,
        rest: &[Request],
    ) -> Result<(u64, BatchReceipt<N>), BatchError>
        requires { requests.now ≡ first.now ∷ rest.now }
        ensures ok { IfOk result (λ r. IsKeptBatch self.old.keeper requests.now r.0 self.new.keeper) }
        ensures published { IfOk result
            (λ r. PublishesAll N.opening.config (map asked requests.now) r.0 self.old.keeper.published
            self.new.keeper.published) }
        ensures told { IfOk result (λ r. r.1 ≡ step_of self.old.keeper.published self.new.keeper.published) }
        ensures recorded { OnOk result (IsRecorded F.has F.usable
            (λ state. after_batch state (accept_all state.config (map asked requests.now) state.acts))
            (λ state. batch_of (accept_all state.config (map asked requests.now) state.acts))
            (durable_of self.old.keeper self.old.journal) (durable_of self.new.keeper self.new.journal)) }
        ensures every { OnOk result ((n : ℕ) → self.old.journal.appender.sync ≡ Every n → 0 < n →
            self.new.journal.appender.waiting < n) }
        ensures refused { IfErr result (λ e. (x : ARefusal) → e ≡ Refused x → (state : State) →
            IsAt state self.old.keeper → IsRefusedAt state.config (map asked requests.now) state.acts x) }
        ensures untouched { IfErr result (λ e. (x : ARefusal) → e ≡ Refused x → self.new ≡ self.old) }
        ensures unchanged { OnErr result (self.new.keeper ≡ self.old.keeper) }
        ensures handed { OnErr result (IsHanded F.has F.usable
            (λ state. batch_of (accept_all state.config (map asked requests.now) state.acts))
            (durable_of self.old.keeper self.old.journal) (durable_of self.new.keeper self.new.journal)) }
        ensures fault { IsErrOf result FileFault → (is_stopped F.usable self.old.journal ≡ true)
            ⊎ (F.faults self.old.journal.appender.file < F.faults self.new.journal.appender.file) }
        ensures stops { IsErrOf result FileFault → is_stopped F.usable self.new.journal ≡ true }
        ensures stopped { is_stopped F.usable self.old.journal ≡ true → (result ≡ Err FileFault) × (self.new ≡ self.old) }
        ensures same { (self.new.journal.framing ≡ self.old.journal.framing)
            × (self.new.journal.appender.sync ≡ self.old.journal.appender.sync) }
    {
        let framed = self.framed_batch(requests, first, rest)?;
        let revision = framed.next.first();
        let receipt = self.keep_all(rt, requests, framed)?;
        Ok((revision, receipt))
    }

    /// Does all that is asked in one step, or nothing, as `Keeper::write_all` does, and answers the revision of the first write:
    /// one record of the whole batch is in the file then, and on the disk where that is due, all with one sync, and then the
    /// batch is published at once. A crash keeps all of it or none. A refused batch changes nothing, publishes nothing, uses no
    /// revision, and is not in the file. Of no requests nothing is done and the file is not touched, also where it has failed,
    /// and the last revision is answered.
    pub fn write_all<R: Wait>(&mut self, rt: &R, requests: &[Request]) -> Result<u64, BatchError>
        ensures ok { IfOk result (λ first. (requests.now ≡ [] → ⊥) → IsKeptBatch self.old.keeper requests.now first self.new.keeper) }
        ensures published { IfOk result (λ first. (requests.now ≡ [] → ⊥) →
            PublishesAll N.opening.config (map asked requests.now) first self.old.keeper.published
            self.new.keeper.published) }
        ensures none { requests.now ≡ [] → IsOk result × (self.new ≡ self.old) }
        ensures recorded { OnOk result ((requests.now ≡ [] → ⊥) → IsRecorded F.has F.usable
            (λ state. after_batch state (accept_all state.config (map asked requests.now) state.acts))
            (λ state. batch_of (accept_all state.config (map asked requests.now) state.acts))
            (durable_of self.old.keeper self.old.journal) (durable_of self.new.keeper self.new.journal)) }
        ensures every { OnOk result ((requests.now ≡ [] → ⊥) → (n : ℕ) → self.old.journal.appender.sync ≡ Every n → 0 < n →
            self.new.journal.appender.waiting < n) }
        ensures refused { IfErr result (λ e. (x : ARefusal) → e ≡ Refused x → (state : State) →
            IsAt state self.old.keeper → IsRefusedAt state.config (map asked requests.now) state.acts x) }
        ensures untouched { IfErr result (λ e. (x : ARefusal) → e ≡ Refused x → self.new ≡ self.old) }
        ensures unchanged { OnErr result (self.new.keeper ≡ self.old.keeper) }
        ensures handed { OnErr result (IsHanded F.has F.usable
            (λ state. batch_of (accept_all state.config (map asked requests.now) state.acts))
            (durable_of self.old.keeper self.old.journal) (durable_of self.new.keeper self.new.journal)) }
        ensures fault { IsErrOf result FileFault → (is_stopped F.usable self.old.journal ≡ true)
            ⊎ (F.faults self.old.journal.appender.file < F.faults self.new.journal.appender.file) }
        ensures stops { IsErrOf result FileFault → is_stopped F.usable self.new.journal ≡ true }
        ensures stopped { (requests.now ≡ [] → ⊥) → is_stopped F.usable self.old.journal ≡ true →
            (result ≡ Err FileFault) × (self.new ≡ self.old) }
        ensures same { (self.new.journal.framing ≡ self.old.journal.framing)
            × (self.new.journal.appender.sync ≡ self.old.journal.appender.sync) }
    {
        match requests.split_first() {
            Some((first, rest)) => {
                let (revision, _) = self.write_some(rt, requests, first, rest)?;
                Ok(revision)
            }
            None => Ok(self.keeper.bucket().version().revision()),
        }
    }
}
