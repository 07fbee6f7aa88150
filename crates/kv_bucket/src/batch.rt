//! Several writes that are published in one step.

ghost use Rattle.std.specs.Prelude.{◌≡◌, ◌<◌, ◌^◌, ◌++◌, ◌∷◌, List, true, false, IfErr, IfOk, OnErr, OnOk, map};
ghost use Rattle.kv_model.specs.Acceptance.{IsLawful};
ghost use Rattle.kv_model.specs.Acts.{Act, IsPrefix};
ghost use Rattle.kv_model.specs.Batches.{IsRefusedAt};
ghost use Rattle.kv_model.specs.Requests.{asked};
ghost use Rattle.kv_model.specs.State.{State};
ghost use Rattle.kv_publish.specs.Steps.{acts_from, step_of};
ghost use Rattle.kv_single.specs.Batches.{IsBatch};
ghost use Rattle.kv_bucket.specs.Batches.{ComeNext, IsKeptBatch, PublishesAll, WritesAllSomewhere, RefusedAllSomewhere};
ghost use Rattle.kv_bucket.specs.Keeping.{IsAt, kept_with};

use crate::feed::Feed;
use crate::keeper::Keeper;
use crate::live::Live;
use crate::prepared::PreparedBatch;
use crate::reader::Reader;
use crate::receipt::Mark;
use kv_model::{BatchRefused, Request};
use kv_publish::{LiveName, Step};
use std::marker::Model;
use std::sync::Wait;

/// Tells that a batch was accepted, to any number of readers of the same opening. Contracts see the acts that were
/// published before it, and those with its own.
#[derive(Drop)]
pub struct BatchReceipt<N: LiveName> {
    mark: Mark<N>,
    step: Step<N>,
    ghost same: { mark ≡ step.acts },
}

impl<N: LiveName> Model for BatchReceipt<N> {
    ghost use Rattle.kv_publish.specs.Steps.{JournalStep};

    ghost Value = { JournalStep };

    ghost view = { λ b. b.step };
}

impl<N: LiveName> BatchReceipt<N> {
    fn new(step: Step<N>) -> BatchReceipt<N>
        ensures { result ≡ step }
    {
        BatchReceipt {
            mark: Mark::new(step.prefix()),
            step,
        }
    }

    /// The acts up to the last write of the batch, as a mark that readers and feeds can learn.
    pub fn mark(&self) -> &Mark<N>
        ensures { result.now ≡ self.now.acts }
    {
        &self.mark
    }

    /// Whether a reader has seen the batch. It has seen all of it, or none of its writes.
    pub fn is_seen_by(&self, reader: &Reader<N>) -> bool
        ensures yes { result ≡ true → IsPrefix self.now.acts reader.now.seen }
        ensures no { result ≡ false → IsPrefix reader.now.seen self.now.before }
    {
        self.step.is_in(reader.seen())
    }

    /// Whether the reader of a feed has seen the batch: all of it, or none of its writes. A feed goes on to what its reader
    /// has seen then (`ok` of `Feed::refresh`).
    #[tactic(auto, using(kv_publish::proofs::Prefixes::prefix_trans))]
    pub fn is_followed_by(&self, feed: &Feed<N>) -> bool
        ensures yes { result ≡ true → IsPrefix self.now.acts feed.now.reader.seen }
        ensures no { result ≡ false → IsPrefix feed.now.reader.seen self.now.before }
        ensures reached { result ≡ false → IsPrefix feed.now.acts self.now.before }
    {
        feed.handed();
        self.is_seen_by(feed.reader())
    }

    /// Whether a reader was told of the batch: of all of it, or of none of its writes.
    pub fn is_told_to(&self, reader: &Reader<N>) -> bool
        ensures yes { result ≡ true → IsPrefix self.now.acts reader.now.told }
        ensures no { result ≡ false → IsPrefix reader.now.told self.now.before }
    {
        self.step.is_in(reader.told())
    }
}

impl<N: LiveName> Keeper<N> {
    /// Makes all that is asked, in one step or not at all, and publishes nothing. It is refused as `write_all` is; what is
    /// made can be published next, unless something else is meanwhile.
    pub fn next_all(
        &self,
        requests: &[Request],
        first: &Request,
        rest: &[Request],
    ) -> Result<PreparedBatch, BatchRefused>
        requires { requests.now ≡ first.now ∷ rest.now }
        ensures ok { IfOk result (λ p. IsKeptBatch self.now requests.now p.first
            (kept_with self.now (acts_from p.first requests.now) p.version)) }
        ensures published { IfOk result
            (λ p. PublishesAll N.opening.config (map asked requests.now) p.first self.now.published
            (self.now.published ++ acts_from p.first requests.now)) }
        ensures next { IfOk result (λ p. ComeNext N.opening.config self.now requests.now p) }
        ensures batch { IfOk result
            (λ p. IsBatch self.now.bucket requests.now p.first (record self.now.bucket { version = p.version })) }
        ensures refused { IfErr result (λ refused. (state : State) → IsAt state self.now →
            IsRefusedAt state.config (map asked requests.now) state.acts refused) }
    {
        let version = self.bucket.version();
        let (next, revision) = version.apply_all(self.bucket.alloc(), first, rest)?;
        match PreparedBatch::new(revision, next) {
            Ok(prepared) => Ok(prepared),
            Err(error) => Err(BatchRefused {
                at: rest.len(),
                error,
            }),
        }
    }

    /// Publishes a batch that was made of these requests, in one step, and only then puts the version after it in place. It
    /// refuses nothing. It waits for readers that are inside the copy that is to change.
    pub fn publish_all<R: Wait>(
        &mut self,
        rt: &R,
        requests: &[Request],
        prepared: PreparedBatch,
    ) -> BatchReceipt<N>
        requires { ComeNext N.opening.config self.old requests.now prepared }
        ensures after { self.new ≡ kept_with self.old (acts_from prepared.first requests.now) prepared.version }
        ensures told { result ≡ step_of self.old.published self.new.published }
    {
        let Keeper {
            bucket,
            publisher,
            ring,
        } = self;
        let (first, next) = prepared.into_parts();
        let (own, shown, made) = next.into_parts();
        let step = publisher.publish_all(rt, requests, first, shown);
        bucket.go_on_through(own);
        *ring = Some(made);
        BatchReceipt::new(step)
    }

    // A batch that has a first request, with a receipt.
    fn write_some<R: Wait>(
        &mut self,
        rt: &R,
        requests: &[Request],
        first: &Request,
        rest: &[Request],
    ) -> Result<(u64, BatchReceipt<N>), BatchRefused>
        requires { requests.now ≡ first.now ∷ rest.now }
        ensures ok { IfOk result (λ r. IsKeptBatch self.old requests.now r.0 self.new) }
        ensures published { IfOk result
            (λ r. PublishesAll N.opening.config (map asked requests.now) r.0 self.old.published self.new.published) }
        ensures told { IfOk result (λ r. r.1 ≡ step_of self.old.published self.new.published) }
        ensures refused { IfErr result (λ refused. (state : State) → IsAt state self.old →
            IsRefusedAt state.config (map asked requests.now) state.acts refused) }
        ensures unchanged { OnErr result (self.new ≡ self.old) }
    {
        let prepared = self.next_all(requests, first, rest)?;
        let revision = prepared.first();
        let receipt = self.publish_all(rt, requests, prepared);
        Ok((revision, receipt))
    }

    /// Does all that is asked in one step, as `Bucket::write_all` does, and publishes it at once: no reader, feed or
    /// watch sees what is published between two writes of a batch. It answers the revision of the first. A refused
    /// batch changes nothing, publishes nothing and uses no revision. Of no requests nothing is published, and the last
    /// revision is answered.
    ///
    /// Want of memory is told at the request during which memory was refused, and while the batch is published at the
    /// last. The versions that writes were to be made of are let go, as a compaction does it: the writes behind a batch
    /// make nodes anew until each of the three has its own.
    pub fn write_all<R: Wait>(&mut self, rt: &R, requests: &[Request]) -> Result<u64, BatchRefused>
        ensures ok { IfOk result (λ first. IsKeptBatch self.old requests.now first self.new) }
        ensures published { IfOk result
            (λ first. PublishesAll N.opening.config (map asked requests.now) first self.old.published
            self.new.published) }
        ensures refused { IfErr result (λ refused. (state : State) → IsAt state self.old →
            IsRefusedAt state.config (map asked requests.now) state.acts refused) }
        ensures unchanged { OnErr result (self.new ≡ self.old) }
    {
        let (first, _) = self.write_all_told(rt, requests)?;
        Ok(first)
    }

    /// As `write_all` does, with a receipt for all of it. A receipt for no requests is one for no step.
    pub fn write_all_told<R: Wait>(
        &mut self,
        rt: &R,
        requests: &[Request],
    ) -> Result<(u64, BatchReceipt<N>), BatchRefused>
        ensures ok { IfOk result (λ r. IsKeptBatch self.old requests.now r.0 self.new) }
        ensures published { IfOk result
            (λ r. PublishesAll N.opening.config (map asked requests.now) r.0 self.old.published self.new.published) }
        ensures told { IfOk result (λ r. r.1 ≡ step_of self.old.published self.new.published) }
        ensures refused { IfErr result (λ refused. (state : State) → IsAt state self.old →
            IsRefusedAt state.config (map asked requests.now) state.acts refused) }
        ensures unchanged { OnErr result (self.new ≡ self.old) }
    {
        match requests.split_first() {
            Some((first, rest)) => self.write_some(rt, requests, first, rest),
            None => {
                let receipt = BatchReceipt::new(self.publisher.no_step());
                Ok((self.bucket.version().revision(), receipt))
            }
        }
    }
}

// Writes all. What is answered is what the rules give after the acts that were published before, which are lawful.
fn write_all_on<N: LiveName, R: Wait>(
    rt: &R,
    keeper: &mut Keeper<N>,
    requests: &[Request],
) -> Result<u64, BatchRefused>
    ensures ok { IfOk result
        (λ first. (later : List Act) × WritesAllSomewhere N.opening.config (map asked requests.now) first later) }
    ensures refused { IfErr result (λ refused. RefusedAllSomewhere N.opening.config (map asked requests.now) refused) }
{
    keeper.bucket();
    keeper.write_all(rt, requests)
}

// Writes all, and tells of it.
fn write_all_and_tell<N: LiveName, R: Wait>(
    rt: &R,
    keeper: &mut Keeper<N>,
    requests: &[Request],
) -> Result<(u64, BatchReceipt<N>), BatchRefused>
    ensures ok { IfOk result (λ r. PublishesAll N.opening.config (map asked requests.now) r.0 r.1.before r.1.acts) }
    ensures lawful { IfOk result (λ r. IsLawful N.opening.config r.1.acts) }
    ensures refused { IfErr result (λ refused. RefusedAllSomewhere N.opening.config (map asked requests.now) refused) }
{
    keeper.bucket();
    let told = keeper.write_all_told(rt, requests)?;
    keeper.bucket();
    Ok(told)
}

impl<N: LiveName> Live<N> {
    /// Does all that is asked in one step, or nothing, as `Keeper::write_all` does.
    pub fn write_all<R: Wait>(&self, rt: &R, requests: &[Request]) -> Result<u64, BatchRefused>
        ensures ok { IfOk result
            (λ first. (later : List Act) × WritesAllSomewhere N.opening.config (map asked requests.now) first later) }
        ensures refused { IfErr result
            (λ refused. RefusedAllSomewhere N.opening.config (map asked requests.now) refused) }
    {
        let mut keeper = self.keeper.lock(rt);
        write_all_on(rt, &mut *keeper, requests)
    }

    /// The same, with a receipt, which tells all acts up to the last write of the batch.
    pub fn write_all_told<R: Wait>(
        &self,
        rt: &R,
        requests: &[Request],
    ) -> Result<(u64, BatchReceipt<N>), BatchRefused>
        ensures ok { IfOk result (λ r. PublishesAll N.opening.config (map asked requests.now) r.0 r.1.before r.1.acts) }
        ensures lawful { IfOk result (λ r. IsLawful N.opening.config r.1.acts) }
        ensures refused { IfErr result
            (λ refused. RefusedAllSomewhere N.opening.config (map asked requests.now) refused) }
    {
        let mut keeper = self.keeper.lock(rt);
        write_all_and_tell(rt, &mut *keeper, requests)
    }
}
