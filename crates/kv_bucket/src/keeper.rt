//! What lies under the lock: the bucket, and what publishes its acts.

ghost use Rattle.std.specs.Prelude.{◌≡◌, ◌<◌, ◌++◌, ◌∷◌, [], ⊤, true, false, List, Ok, Some, IfErr, IfOk, OnErr, OnOk, MatchResult, length};
ghost use Rattle.std.specs.Borrow.{sem, follows_so};
ghost use mathlib.Core.Option.{none};
ghost use Rattle.kv_keys.specs.Outcome.{Refuses};
ghost use Rattle.kv_keys.specs.declared.error.KvError.TheVariants.{OutOfMemory, NoSuchWatch};
ghost use Rattle.kv_model.specs.Acceptance.{accept, IsLawful};
ghost use Rattle.kv_model.specs.Acts.{Act, IsPrefix, Wrote, Write as AWrite, Seal as ASeal, Compact as ACompaction, writes_of};
ghost use Rattle.kv_model.specs.Requests.{asked};
ghost use Rattle.kv_single.specs.Held.{Represents};
ghost use Rattle.kv_single.specs.Stepping.{IsStep};
ghost use Rattle.kv_store.specs.Standing.{StandsFor};
ghost use Rattle.kv_bucket.specs.ReaderState.{IsUnread};
ghost use Rattle.kv_watch.specs.Taking.{item_taken};
ghost use Rattle.kv_model.specs.declared.call.Call.TheVariants.{Write, Seal, Watch, Take, Stop, Compact};
ghost use Rattle.kv_model.specs.Answers.{Revision, Sealed, Watching, Ended, Compacted, Refused, answer_item};
ghost use Rattle.kv_bucket.specs.Histories.{IsPublishedHistory};
ghost use Rattle.kv_bucket.specs.Receipts.{EndsAt};
ghost use Rattle.kv_bucket.specs.Keeping.{ComesNext, IsAt, IsSomewhere, IsKeptStep, PublishesWrite, kept_with};
ghost use Rattle.kv_model.specs.State.{State, answer_to, may_compact, next_number};

use crate::feed::Feed;
use crate::prepared::Prepared;
use crate::publisher::Publisher;
use crate::reader::Reader;
use crate::receipt::{Mark, Receipt};
use kv_keys::{Filters, KvError};
use kv_model::{Options, Request, Stopped};
use kv_publish::{GhostAct, LiveName};
use kv_single::Bucket;
use kv_store::Ring;
use kv_watch::Taken;
use std::marker::Model;
use std::sync::Wait;

/// The bucket of the opening N, and what publishes its acts. Contracts see the bucket and the acts that are published,
/// which are always at one state of the model. What is published is one history: all that readers and feeds of N have
/// seen, and all that receipts and marks of N tell, are beginnings of it (`is_seen_by`, `is_followed_by`, `is_told_by`).
/// It is not `Drop`: `Live::close` ends it.
pub struct Keeper<N: LiveName> {
    pub(crate) bucket: Bucket,
    pub(crate) publisher: Publisher<N>,
    /// It makes the versions that writes lead to, and keeps the last ones for that. What is made and not published yet has
    /// it.
    pub(crate) ring: Option<Ring>,
}

impl<N: LiveName> Model for Keeper<N> {
    ghost use Rattle.std.specs.Prelude.{IfSome};
    ghost use Rattle.kv_bucket.specs.Histories.{IsPublishedHistory};
    ghost use Rattle.kv_bucket.specs.Keeping.{KeeperState, IsSomewhere, Shows, kept_of};

    ghost Value = { KeeperState };

    ghost view = { λ k. kept_of k.bucket k.publisher };

    ghost invariant = { λ k. IsSomewhere N.opening.config (kept_of k.bucket k.publisher)
        × IfSome k.ring (Shows N.opening.config k.publisher) × IsPublishedHistory N.opening k.publisher };
}

impl<N: LiveName> Keeper<N> {
    ghost use Rattle.kv_bucket.specs.contracts.keeper.Keeper.{the_row};

    /// The bucket. What is published is one lawful history, of which all that was seen or told of N is a beginning: a list
    /// of acts, and a version for each beginning of it.
    pub fn bucket(&self) -> &Bucket
        ensures value { result.now ≡ self.now.bucket }
        ensures state { IsSomewhere N.opening.config self.now }
        ensures history { IsPublishedHistory N.opening self.now.published }
    {
        &self.bucket
    }

    /// Makes what is asked, and publishes nothing: the value of the keeper stays. A refused request is refused here, by the
    /// rules or for want of memory; what is made can be published next, unless something else is meanwhile.
    pub fn next(&mut self, request: &Request) -> Result<Prepared, KvError>
        ensures ok { IfOk result (λ p. IsKeptStep self.old (Write request.now) (Revision p.version.last)
            (kept_with self.old (p.act ∷ []) p.version)) }
        ensures published { IfOk result
            (λ p. PublishesWrite N.opening.config (asked request.now) p.version.last self.old.published
            (self.old.published ++ p.act ∷ [])) }
        ensures next { IfOk result (λ p. ComesNext N.opening.config self.old p) }
        ensures config { IfOk result (λ p. p.version.config ≡ self.old.bucket.version.config) }
        ensures accepts { IfOk result (λ p. (acts : List Act) → StandsFor acts self.old.bucket.version →
            (w : AWrite)
            × ((accept self.old.bucket.version.config (asked request.now) acts ≡ Ok w) × StandsFor (acts ++ Wrote w ∷ []) p.version)) }
        ensures refused { IfErr result (λ e. (state : State) → IsAt state self.old →
            Refuses e (accept state.config (asked request.now) state.acts)) }
        ensures same { self.new ≡ self.old }
    {
        let Keeper {
            bucket,
            publisher: _,
            ring,
        } = self;
        let made = Ring::with_write(ring, bucket.version(), bucket.alloc(), request)?;
        let revision = made.version().revision();
        Prepared::new(GhostAct::wrote(request, revision), made)
    }

    /// Makes the end of writes, and publishes nothing.
    pub fn next_seal(&self) -> Result<Prepared, KvError>
        ensures ok { IfOk result (λ p. (p.act ≡ ASeal)
            × IsKeptStep self.now Seal Sealed (kept_with self.now (p.act ∷ []) p.version)) }
        ensures next { IfOk result (λ p. ComesNext N.opening.config self.now p) }
        ensures step { IfOk result
            (λ p. IsStep self.now.bucket Seal Sealed (record self.now.bucket { version = p.version })) }
        ensures err { IfErr result (λ e. e ≡ OutOfMemory) }
    {
        let next = self.bucket.version().seal(self.bucket.alloc())?;
        Prepared::new(GhostAct::seal(), Ring::new(next))
    }

    /// Makes a compaction to the floor, and publishes nothing. It is refused as `compact` is.
    pub fn next_compaction(&self, floor: u64) -> Result<Prepared, KvError>
        ensures ok { IfOk result (λ p. (p.act ≡ ACompaction floor)
            × IsKeptStep self.now (Compact floor) (Compacted floor) (kept_with self.now (p.act ∷ []) p.version)) }
        ensures next { IfOk result (λ p. ComesNext N.opening.config self.now p) }
        ensures step { IfOk result
            (λ p. IsStep self.now.bucket (Compact floor) (Compacted floor) (record self.now.bucket { version = p.version })) }
        ensures may { OnOk result
            ((state : State) → Represents state self.now.bucket → may_compact floor state ≡ Ok floor) }
        ensures refused { IfErr result
            (λ e. (state : State) → IsAt state self.now → Refuses e (may_compact floor state)) }
    {
        self.bucket.may_compact(floor)?;
        let next = self.bucket.version().compact(self.bucket.alloc(), floor)?;
        Prepared::new(GhostAct::compact(floor), Ring::new(next))
    }

    /// Publishes what was made, and only then puts the version after it in place. It refuses nothing. It waits for readers
    /// that are inside the copy that is to change.
    pub fn publish<R: Wait>(&mut self, rt: &R, prepared: Prepared)
        requires { ComesNext N.opening.config self.old prepared }
        ensures { self.new ≡ kept_with self.old (prepared.act ∷ []) prepared.version }
    {
        let Keeper {
            bucket,
            publisher,
            ring,
        } = self;
        let (ghost_act, next) = prepared.into_parts();
        let (own, shown, made) = next.into_parts();
        publisher.publish(rt, ghost_act, shown);
        bucket.go_on_to(own);
        *ring = Some(made);
    }

    /// Does what is asked, publishes it, and answers the revision of the write. A refused request changes nothing,
    /// publishes nothing and uses no revision. It waits for readers that are inside the copy that is to change.
    pub fn write<R: Wait>(&mut self, rt: &R, request: &Request) -> Result<u64, KvError>
        ensures ok { IfOk result (λ revision. IsKeptStep self.old (Write request.now) (Revision revision) self.new) }
        ensures published { IfOk result
            (λ revision. PublishesWrite N.opening.config (asked request.now) revision self.old.published
            self.new.published) }
        ensures refused { IfErr result (λ e. (state : State) → IsAt state self.old →
            Refuses e (accept state.config (asked request.now) state.acts)) }
        ensures unchanged { OnErr result (self.new ≡ self.old) }
    {
        let prepared = self.next(request)?;
        let revision = prepared.version().revision();
        self.publish(rt, prepared);
        Ok(revision)
    }

    /// Ends writes, and publishes it. Reads, takes, stops and new watches go on.
    pub fn seal<R: Wait>(&mut self, rt: &R) -> Result<(), KvError>
        ensures ok { OnOk result (IsKeptStep self.old Seal Sealed self.new) }
        ensures err { IfErr result (λ e. e ≡ OutOfMemory) }
        ensures unchanged { OnErr result (self.new ≡ self.old) }
    {
        let prepared = self.next_seal()?;
        self.publish(rt, prepared);
        Ok(())
    }

    /// Compacts to the floor, as `Bucket::compact` does, and publishes it. A watch of the bucket that is behind the
    /// floor refuses it; a feed is told by its next refresh where it lags behind it.
    pub fn compact<R: Wait>(&mut self, rt: &R, floor: u64) -> Result<(), KvError>
        ensures ok { OnOk result (IsKeptStep self.old (Compact floor) (Compacted floor) self.new) }
        ensures refused { IfErr result
            (λ e. (state : State) → IsAt state self.old → Refuses e (may_compact floor state)) }
        ensures unchanged { OnErr result (self.new ≡ self.old) }
    {
        let prepared = self.next_compaction(floor)?;
        self.publish(rt, prepared);
        Ok(())
    }

    /// Opens a watch on the bucket, as `Bucket::watch` does.
    pub fn watch(&mut self, filters: &Filters, options: Options) -> Result<u64, KvError>
        ensures ok { IfOk result
            (λ number. IsKeptStep self.old (Watch filters.now options) (Watching number) self.new) }
        ensures refused { IfErr result (λ e. (state : State) → IsAt state self.old → Refuses e (next_number state)) }
        ensures unchanged { OnErr result (self.new ≡ self.old) }
    {
        self.bucket.watch(filters, options)
    }

    /// What `take` would hand out.
    pub fn peek(&self, number: u64) -> Result<Taken<'_>, KvError>
        ensures ok { IfOk result (λ taken. (state : State) → IsAt state self.now →
            answer_item (item_taken taken) ≡ answer_to state (Take number)) }
        ensures refused { IfErr result (λ e. (e ≡ NoSuchWatch) × ((state : State) → IsAt state self.now →
            Refused e ≡ answer_to state (Take number))) }
    {
        self.bucket.peek(number)
    }

    /// Hands out the next item of a watch, lent from the bucket, and moves the watch on behind it, as `Bucket::take`
    /// does.
    pub fn take(&mut self, number: u64) -> Result<Taken<'_>, KvError>
        ensures* after { sem 𝓛 (follows_so (the_row N.row N.LiveName) (the_row N.row N.LiveName)
            self.entry.ghost_name none (λ _ _. ⊤)
            (λ left. MatchResult result
            (λ taken. IsKeptStep self.old (Take number) (answer_item (item_taken taken)) left)
            (λ e. left ≡ self.old))) }
        ensures ok { IfOk result (λ taken. (state : State) → IsAt state self.old →
            answer_item (item_taken taken) ≡ answer_to state (Take number)) }
        ensures refused { IfErr result (λ e. (e ≡ NoSuchWatch) × ((state : State) → IsAt state self.old →
            Refused e ≡ answer_to state (Take number))) }
    {
        self.bucket.take(number)
    }

    /// Stops a watch of the bucket, as `Bucket::stop` does.
    pub fn stop(&mut self, number: u64) -> Result<Stopped, KvError>
        ensures ok { IfOk result (λ stopped. IsKeptStep self.old (Stop number) (Ended stopped.handed) self.new) }
        ensures refused { IfErr result
            (λ e. (e ≡ NoSuchWatch) × IsKeptStep self.old (Stop number) (Refused e) self.new) }
        ensures unchanged { OnErr result (self.new ≡ self.old) }
    {
        self.bucket.stop(number)
    }

    /// Whether the reader has seen all that is published. What it has seen, and what it was told, are always beginnings
    /// of that.
    pub fn is_seen_by(&mut self, reader: &Reader<N>) -> bool
        ensures same { self.new ≡ self.old }
        ensures within { IsPrefix reader.now.seen self.old.published }
        ensures told { IsPrefix reader.now.told self.old.published }
        ensures yes { result ≡ true → reader.now.seen ≡ self.old.published }
        ensures no { result ≡ false → length reader.now.seen < length self.old.published }
    {
        self.publisher.is_seen(reader.told());
        self.publisher.is_seen(reader.seen())
    }

    /// Whether the reader of the feed has seen all that is published. What it has seen, and what the feed went on to, are
    /// always beginnings of that.
    #[tactic(auto, using(kv_publish::proofs::Prefixes::prefix_trans))]
    pub fn is_followed_by(&mut self, feed: &Feed<N>) -> bool
        ensures same { self.new ≡ self.old }
        ensures within { IsPrefix feed.now.acts self.old.published }
        ensures seen { IsPrefix feed.now.reader.seen self.old.published }
        ensures told { IsPrefix feed.now.reader.told self.old.published }
        ensures yes { result ≡ true → feed.now.reader.seen ≡ self.old.published }
        ensures no { result ≡ false → length feed.now.reader.seen < length self.old.published }
    {
        feed.handed();
        self.is_seen_by(feed.reader())
    }

    /// Whether the receipt tells all that is published. What it tells is always a beginning of that.
    pub fn is_told_by(&mut self, receipt: &Receipt<N>) -> bool
        ensures same { self.new ≡ self.old }
        ensures within { IsPrefix receipt.now self.old.published }
        ensures yes { result ≡ true → receipt.now ≡ self.old.published }
        ensures no { result ≡ false → length receipt.now < length self.old.published }
    {
        self.publisher.is_seen(receipt.mark().prefix())
    }

    /// A mark behind all that is published.
    pub fn mark(&self) -> Mark<N>
        ensures { result ≡ self.now.published }
    {
        self.publisher.mark()
    }

    /// A receipt for all that is published, of which the write with this revision is the last.
    pub fn receipt(&self, revision: u64) -> Receipt<N>
        requires { EndsAt revision self.now.published }
        ensures { result ≡ self.now.published }
    {
        self.publisher.receipt(revision)
    }

    /// As `write` does, with a receipt for it.
    pub fn write_told<R: Wait>(
        &mut self,
        rt: &R,
        request: &Request,
    ) -> Result<(u64, Receipt<N>), KvError>
        ensures ok { IfOk result (λ r. IsKeptStep self.old (Write request.now) (Revision r.0) self.new) }
        ensures published { IfOk result
            (λ r. PublishesWrite N.opening.config (asked request.now) r.0 self.old.published self.new.published) }
        ensures told { IfOk result (λ r. r.1 ≡ self.new.published) }
        ensures refused { IfErr result (λ e. (state : State) → IsAt state self.old →
            Refuses e (accept state.config (asked request.now) state.acts)) }
        ensures unchanged { OnErr result (self.new ≡ self.old) }
    {
        let revision = self.write(rt, request)?;
        Ok((revision, self.receipt(revision)))
    }

    /// Adds a reader, which has seen nothing and is told of all that is published. `NoReader` where all places
    /// of the opening are taken; a reader that is dropped frees its place.
    pub fn reader(&self) -> Result<Reader<N>, KvError>
        ensures ok { IfOk result
            (λ reader. (reader.config ≡ N.opening.config) × (reader.seen ≡ []) × (reader.told ≡ self.now.published)) }
        ensures err { IfErr result IsUnread }
    {
        self.publisher.reader()
    }

    /// Ends the publisher, and gives the bucket back. Readers read what is published on. It waits for the readers that are
    /// reading.
    pub fn close<R: Wait>(self, rt: &R) -> Bucket
        ensures { result ≡ self.bucket }
    {
        let Keeper {
            bucket,
            publisher,
            ring: _,
        } = self;
        publisher.close(rt, bucket.version());
        bucket
    }
}
