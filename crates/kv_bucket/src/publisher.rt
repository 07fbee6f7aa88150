//! What publishes the acts of an opening. It lies under the lock, beside the bucket.

ghost use Rattle.std.specs.Prelude.{◌≡◌, ◌<◌, ◌^◌, ◌++◌, ◌∷◌, [], true, false, IfOk, IfErr, OnOk, MatchResult, All, length};
ghost use Rattle.kv_keys.specs.declared.error.KvError.TheVariants.{OutOfMemory};
ghost use Rattle.kv_model.specs.Acts.{IsPrefix};
ghost use Rattle.kv_store.specs.Standing.{StandsFor};
ghost use Rattle.kv_bucket.specs.ReaderState.{IsUnread};
ghost use Rattle.kv_bucket.specs.Histories.{IsPublishedHistory};
ghost use Rattle.kv_bucket.specs.Keeping.{Shows};
ghost use Rattle.kv_bucket.specs.Receipts.{EndsAt};
ghost use Rattle.kv_publish.specs.Beginnings.{count_of};
ghost use Rattle.kv_publish.specs.Publications.{IsOf};
ghost use Rattle.kv_publish.specs.Steps.{acts_from, step_of};
ghost use Rattle.kv_bucket.specs.inside.Beginnings.{HasBeginnings};

use crate::reader::Reader;
use crate::receipt::{Mark, Receipt};
use kv_keys::KvError;
use kv_model::Request;
use kv_publish::{
    DoubleBuffer, FreshJournal, GhostAct, Journal, LastPublished, LiveName, Notifier, Prefix,
    Publication, Right, Step,
};
use kv_store::Version;
use std::alloc::Global;
use std::marker::Model;
use std::mem;
use std::sync::Wait;

// As many acts as are counted. A bucket that does a thousand million acts a second comes to that in 73 years.
const MOST_ACTS: u64 = 1 << 61;

// Waits for room for one act more. There always is; where there were none, this would wait for ever, as a call that waits
// may: no refusal stands for it.
fn await_room<N: LiveName, R: Wait>(rt: &R, journal: &Journal<N>)
    ensures { count_of N.opening.book.began journal.now < 2 ^ 61 }
{
    for _ in rt.forever() {
        if journal.len() < MOST_ACTS {
            return;
        }
    }
    unreachable!()
}

/// Publishes the acts of the opening N. Contracts see it as the acts that are published, which are all that the history
/// has. It is not `Drop`: end it by `close`.
pub struct Publisher<N: LiveName> {
    alloc: Global,
    /// It tells the readers.
    notifier: Notifier<N>,
    /// What a reader begins on that has not entered.
    empty: Publication,
    /// The history of what is published, whole.
    journal: Journal<N>,
    /// It is `None` within a publish alone.
    buffer: Option<DoubleBuffer<N>>,
}

impl<N: LiveName> Model for Publisher<N> {
    ghost use Rattle.std.specs.Prelude.{◌≡◌, [], List, IfSome, IsSome};
    ghost use Rattle.kv_model.specs.Acts.{Act};
    ghost use Rattle.kv_publish.specs.Publications.{IsOf};
    ghost use Rattle.kv_bucket.specs.Histories.{IsPublishedHistory};

    ghost Value = { List Act };

    ghost view = { λ p. p.journal };

    ghost invariant = { λ p. IsSome p.buffer × IfSome p.buffer (λ c. c ≡ p.journal) × IsOf N.opening p.empty ×
        (p.empty.raw_prefix.acts ≡ []) × IsPublishedHistory N.opening p.journal };
}

// What a publisher begins with besides its copies: its notifier, the empty publication, its history, which has what the bucket
// had when it was opened, and the rights of the copies.
fn beginning<N: LiveName>(
    alloc: Global,
    fresh: FreshJournal,
    empty: &Version,
) -> Result<(Notifier<N>, Publication, Journal<N>, Right<N>, Right<N>), KvError>
    requires book { fresh.witness.book ≡ N.opening.book }
    requires stands { Shows N.opening.config [] empty.now }
    ensures { MatchResult result (λ r. IsOf N.opening r.1 × (r.1.raw_prefix.acts ≡ []) × (r.2 ≡ N.opening.book.began))
        (λ e. e ≡ OutOfMemory) }
{
    let empty = empty.snapshot()?;
    let (journal, first, second) = fresh.named::<N>();
    let notifier = Notifier::new(alloc, journal.len())?;
    let empty = Publication::new(empty, journal.nothing());
    Ok((notifier, empty, journal, first, second))
}

// A publication of this version, which stands for all that the history has.
fn first_publication<N: LiveName>(
    journal: &Journal<N>,
    version: &Version,
) -> Result<Publication, KvError>
    requires { Shows N.opening.config journal.now version.now }
    ensures { MatchResult result (λ p. IsOf N.opening p × (p.raw_prefix.acts ≡ journal.now)) (λ e. e ≡ OutOfMemory) }
{
    Ok(Publication::new(version.snapshot()?, journal.raw_prefix()))
}

// Adds an act to the history, and publishes the version after it.
fn show<N: LiveName, R: Wait>(
    rt: &R,
    journal: &mut Journal<N>,
    buffer: DoubleBuffer<N>,
    ghost_act: GhostAct,
    version: Version,
) -> DoubleBuffer<N>
    requires room { count_of N.opening.book.began journal.old < 2 ^ 62 }
    requires stands { StandsFor (journal.old ++ ghost_act ∷ []) version }
    requires config { version.config ≡ N.opening.config }
    ensures added { journal.new ≡ journal.old ++ ghost_act ∷ [] }
    ensures shown { result ≡ journal.new }
{
    journal.add(ghost_act);
    let publication = Publication::new(version, journal.raw_prefix());
    buffer.publish(rt, publication)
}

// Adds the writes of a batch to the history in one step, and publishes the version after it.
fn show_all<N: LiveName, R: Wait>(
    rt: &R,
    journal: &mut Journal<N>,
    buffer: DoubleBuffer<N>,
    requests: &[Request],
    revision: u64,
    version: Version,
) -> (DoubleBuffer<N>, Step<N>)
    requires room { count_of N.opening.book.began journal.old < 2 ^ 62 }
    requires small { revision < 2 ^ 32 }
    requires stands { StandsFor (journal.old ++ acts_from revision requests.now) version }
    requires config { version.config ≡ N.opening.config }
    ensures added { journal.new ≡ journal.old ++ acts_from revision requests.now }
    ensures shown { result.0 ≡ journal.new }
    ensures step { result.1 ≡ step_of journal.old journal.new }
{
    let step = journal.add_all(requests, revision);
    let publication = Publication::new(version, journal.raw_prefix());
    (buffer.publish(rt, publication), step)
}

// Puts the copies in their place, which is empty. What stands there would end.
fn put<N: LiveName, R: Wait>(
    rt: &R,
    place: &mut Option<DoubleBuffer<N>>,
    buffer: Option<DoubleBuffer<N>>,
)
    ensures { place.new ≡ buffer }
{
    end(rt, mem::replace(place, buffer));
}

// Ends the copies, if there are any.
fn end<N: LiveName, R: Wait>(rt: &R, buffer: Option<DoubleBuffer<N>>) {
    if let Some(buffer) = buffer {
        buffer.close(rt);
    }
}

impl<N: LiveName> Publisher<N> {
    /// The publisher of an opening of which just that is published which the bucket had when it was opened, with room for so
    /// many readers. The notifier's word has room to count that many of them asleep.
    pub fn new<R: Wait>(
        rt: &R,
        alloc: Global,
        fresh: FreshJournal,
        empty: &Version,
        version: &Version,
        readers: usize,
    ) -> Result<Publisher<N>, KvError>
        requires book { fresh.witness.book ≡ N.opening.book }
        requires empty { Shows N.opening.config [] empty.now }
        requires stands { Shows N.opening.config N.opening.book.began version.now }
        requires readers { (0 < readers) × (readers < 2 ^ 16) }
        ensures begins { MatchResult result (λ p. p ≡ N.opening.book.began) (λ e. e ≡ OutOfMemory) }
        ensures history { IfOk result (IsPublishedHistory N.opening) }
    {
        let (notifier, empty, journal, first, second) = beginning(alloc, fresh, empty)?;
        let publication = first_publication(&journal, version)?;
        let buffer = DoubleBuffer::new(rt, alloc, first, second, &publication, readers)?;
        Ok(Publisher {
            alloc,
            notifier,
            empty,
            journal,
            buffer: Some(buffer),
        })
    }

    /// Publishes an act, with the version after it, and wakes those who sleep until then. It waits for readers that are
    /// inside the copy that is to change. It refuses nothing: who calls it has asked before for all that can be refused.
    pub fn publish<R: Wait>(&mut self, rt: &R, ghost_act: GhostAct, version: Version)
        requires stands { StandsFor (self.old ++ ghost_act ∷ []) version }
        requires config { version.config ≡ N.opening.config }
        ensures added { self.new ≡ self.old ++ ghost_act ∷ [] }
        ensures history { IsPublishedHistory N.opening self.new }
    {
        await_room(rt, &self.journal);
        let Some(buffer) = self.buffer.take() else {
            unreachable!()
        };
        let buffer = show(rt, &mut self.journal, buffer, ghost_act, version);
        put(rt, &mut self.buffer, Some(buffer));
        self.notifier.notify();
    }

    /// Publishes the writes of a batch in one step, the first with this revision, with the version after them: as
    /// `publish`. Nobody sees what is published between two of them.
    pub fn publish_all<R: Wait>(
        &mut self,
        rt: &R,
        requests: &[Request],
        revision: u64,
        version: Version,
    ) -> Step<N>
        requires small { revision < 2 ^ 32 }
        requires stands { StandsFor (self.old ++ acts_from revision requests.now) version }
        requires config { version.config ≡ N.opening.config }
        requires each { HasBeginnings N.opening.config self.old (acts_from revision requests.now) }
        ensures added { self.new ≡ self.old ++ acts_from revision requests.now }
        ensures step { result ≡ step_of self.old self.new }
        ensures history { IsPublishedHistory N.opening self.new }
    {
        await_room(rt, &self.journal);
        let Some(buffer) = self.buffer.take() else {
            unreachable!()
        };
        let (shown, step) = show_all(rt, &mut self.journal, buffer, requests, revision, version);
        put(rt, &mut self.buffer, Some(shown));
        self.notifier.notify_of(requests.len() as u64);
        step
    }

    /// The step of no act, behind all that is published.
    pub fn no_step(&self) -> Step<N>
        ensures { result ≡ step_of self.now self.now }
    {
        self.journal.no_step()
    }

    /// Whether all that is published was seen. What was seen is always a beginning of that.
    pub fn is_seen(&mut self, prefix: &Prefix<N>) -> bool
        ensures same { self.new ≡ self.old }
        ensures within { IsPrefix prefix.now self.old }
        ensures yes { result ≡ true → prefix.now ≡ self.old }
        ensures no { result ≡ false → length prefix.now < length self.old }
    {
        self.journal.is_seen(prefix)
    }

    /// A new reader, which is told of all that is published.
    pub fn reader(&self) -> Result<Reader<N>, KvError>
        ensures { MatchResult result
            (λ r. (r.config ≡ N.opening.config) × (r.seen ≡ []) × (r.told ≡ self.now)) IsUnread }
    {
        let Some(buffer) = &self.buffer else {
            unreachable!()
        };
        let empty = self.empty.try_clone()?;
        let notifier = self.notifier.try_clone()?;
        let slot = buffer.slot()?;
        Ok(Reader::new(self.alloc, notifier, slot, self.journal.prefix(), empty))
    }

    /// As many readers.
    pub fn readers(&self, count: usize) -> Result<Vec<Reader<N>>, KvError>
        ensures ok { IfOk result
            (λ readers. (length readers.items ≡ count)
            × All (λ r. (r.seen ≡ []) × (r.told ≡ self.now)) readers.items) }
        ensures err { IfErr result IsUnread }
    {
        let mut readers = Vec::with_capacity(self.alloc, count)?;
        self.fill(&mut readers, count)?;
        Ok(readers)
    }

    // Adds readers to none, until there are as many.
    fn fill(&self, readers: &mut Vec<Reader<N>>, count: usize) -> Result<(), KvError>
        requires { readers.old.items ≡ [] }
        ensures ok { OnOk result
            ((length readers.new.items ≡ count)
            × All (λ r. (r.seen ≡ []) × (r.told ≡ self.now)) readers.new.items) }
        ensures err { IfErr result IsUnread }
    {
        while readers.len() < count {
            let reader = self.reader()?;
            if readers.push(reader).is_err() {
                return Err(KvError::OutOfMemory);
            }
        }
        Ok(())
    }

    /// The notifier that it calls.
    pub fn notifier(&self) -> Result<Notifier<N>, KvError>
        ensures { IfErr result (λ e. e ≡ OutOfMemory) }
    {
        self.notifier.try_clone()
    }

    /// A mark behind all that is published.
    pub fn mark(&self) -> Mark<N>
        ensures { result ≡ self.now }
    {
        Mark::new(self.journal.prefix())
    }

    /// A receipt for all that is published, of which the write with this revision is the last.
    pub fn receipt(&self, revision: u64) -> Receipt<N>
        requires { EndsAt revision self.now }
        ensures { result ≡ self.now }
    {
        Receipt::new(self.mark(), revision)
    }

    /// Ends it, leaves the version of what is published for readers that come later, and wakes those that sleep. It
    /// waits for the readers that are reading.
    pub fn close<R: Wait>(self, rt: &R, version: &Version)
        requires stands { StandsFor self version.now }
        requires config { version.now.config ≡ N.opening.config }
    {
        self.leave(version);
        let (notifier, buffer) = self.into_notifier_and_buffer();
        end(rt, buffer);
        notifier.close();
    }

    // What an end still needs of it.
    fn into_notifier_and_buffer(self) -> (Notifier<N>, Option<DoubleBuffer<N>>) {
        let Publisher {
            alloc: _,
            notifier,
            empty: _,
            journal: _,
            buffer,
        } = self;
        (notifier, buffer)
    }

    // Leaves the version of what is published for readers that come later.
    fn leave(&self, version: &Version)
        requires stands { StandsFor self.now version.now }
        requires config { version.now.config ≡ N.opening.config }
    {
        if let Ok(version) = version.snapshot() {
            self.notifier.leave(LastPublished::new(Publication::new(
                version,
                self.journal.raw_prefix(),
            )));
        }
    }
}
