//! A bucket that threads share: writers take one lock, readers none.

ghost use Rattle.std.specs.Prelude.{◌≡◌, List, [], Err, Ok, IfErr, IfOk, OnOk, All, length};
ghost use Rattle.std.specs.Sync.Mutex.{mutex_guard_value};
ghost use Rattle.kv_keys.specs.declared.error.KvError.TheVariants.{OutOfMemory, NoReader};
ghost use Rattle.kv_keys.specs.Outcome.{Refuses};
ghost use Rattle.kv_model.specs.Acceptance.{IsLawful};
ghost use Rattle.kv_model.specs.Acts.{Act};
ghost use Rattle.kv_model.specs.Requests.{asked};
ghost use Rattle.kv_publish.specs.Beginnings.{counted};
ghost use Rattle.kv_store.specs.Standing.{StandsFor};
ghost use Rattle.kv_bucket.specs.ReaderState.{IsUnread};
ghost use Rattle.kv_bucket.specs.Histories.{IsPublishedHistory};
ghost use Rattle.kv_bucket.specs.Keeping.{IsAt, IsSomewhere, PublishesWrite, Shows, state_of, WritesSomewhere, RefusedSomewhere, CompactsSomewhere, UncompactedSomewhere, may_open};

use crate::keeper::Keeper;
use crate::publisher::Publisher;
use crate::reader::Reader;
use crate::receipt::Receipt;
use kv_keys::KvError;
use kv_model::{Config, Request};
use kv_publish::{Began, FreshJournal, LiveName, Notifier};
use kv_single::Bucket;
use kv_store::{Ring, Version};
use std::alloc::Global;
use std::marker::{Brand, Model};
use std::sync::{Mutex, MutexGuard, Wait};

/// The most readers of one opening.
const MOST_READERS: usize = 32;

/// An opening that has no name yet. Contracts see which history and which configuration it is of, and for how many
/// readers.
pub struct Opened {
    alloc: Global,
    bucket: Bucket,
    /// What readers begin on.
    empty: Version,
    fresh: FreshJournal,
    readers: usize,
}

// Field by field: a derived drop makes each proof longer that owns one.
impl Drop for Opened {
    fn drop(self) {
        let Self {
            alloc: _,
            bucket: _,
            empty: _,
            fresh: _,
            readers: _,
        } = self;
    }
}

impl Model for Opened {
    ghost use Rattle.std.specs.Prelude.{◌<◌, ◌≤◌, []};
    ghost use Rattle.kv_single.specs.Held.{Represents};
    ghost use Rattle.kv_bucket.specs.Keeping.{Shows, Unnamed, state_of};

    ghost Value = { Unnamed };

    ghost view = { λ o. record {
      opening = record { book = o.fresh.witness.book; config = o.bucket.version.config };
      readers = o.readers;
    } };

    ghost invariant = { λ o. Represents (state_of o.bucket.version.config o.fresh.witness.book.began []) o.bucket
        × Shows o.bucket.version.config [] o.empty × (0 < o.readers) × (o.readers ≤ 32) };
}

/// The bucket of the opening N. Threads share it by reference. It is not `Drop`: end it by `close`.
pub struct Live<N: LiveName> {
    pub(crate) keeper: Mutex<Keeper<N>>,
    /// It tells the readers that sleep.
    notifier: Notifier<N>,
}

impl Live<Brand> {
    /// Whether there is an opening of this configuration for so many readers. The name is checked before the numbers, and
    /// these before the number of readers.
    pub fn check(config: &Config, readers: usize) -> Result<(), KvError>
        ensures ok { OnOk result (may_open config.now readers ≡ Ok config.now) }
        ensures refused { IfErr result (λ e. may_open config.now readers ≡ Err e) }
    {
        config.check()?;
        if readers == 0 || readers > MOST_READERS {
            return Err(KvError::NoReader);
        }
        Ok(())
    }

    /// Opens an empty bucket for 1 to 32 readers. The name is checked before the numbers, and these before the number
    /// of readers.
    pub fn open(alloc: Global, config: &Config, readers: usize) -> Result<Opened, KvError>
        ensures ok { IfOk result
            (λ opened. (may_open config.now readers ≡ Ok config.now) × (opened.opening.config ≡ config.now)
            × (opened.readers ≡ readers)) }
        ensures new { IfOk result (λ opened. opened.opening.book.began ≡ []) }
        ensures refused { IfErr result (λ e. Refuses e (may_open config.now readers)) }
    {
        Live::check(config, readers)?;
        let bucket = Bucket::open(alloc, config)?;
        let empty = bucket.version().snapshot()?;
        Ok(Opened {
            alloc,
            bucket,
            empty,
            fresh: FreshJournal::new(),
            readers,
        })
    }

    /// Opens a bucket that has acts, which this version stands for, for 1 to 32 readers: what is published begins with these
    /// acts. It is for a layer that makes the version again from what it keeps.
    pub fn open_from<B: Began>(
        alloc: Global,
        config: &Config,
        version: Version,
        readers: usize,
    ) -> Result<Opened, KvError>
        requires { Shows config.now B.acts version }
        ensures ok { IfOk result
            (λ opened. (may_open config.now readers ≡ Ok config.now) × (opened.opening.config ≡ config.now)
            × (opened.readers ≡ readers)) }
        ensures began { IfOk result (λ opened. opened.opening.book.began ≡ B.acts) }
        ensures refused { IfErr result (λ e. Refuses e (may_open config.now readers)) }
    {
        Live::check(config, readers)?;
        let empty = Version::empty(alloc, config)?;
        let fresh = FreshJournal::after::<B>(counted_in(&version));
        Ok(Opened {
            alloc,
            bucket: Bucket::from_version(alloc, version),
            empty,
            fresh,
            readers,
        })
    }
}

// What the acts count as that a version stands for: one, where there are any.
fn counted_in(version: &Version) -> u64
    ensures { (acts : List Act) → StandsFor acts version.now → result ≡ counted acts }
{
    if version.sealed() || version.revision() > 0 {
        1
    } else {
        0
    }
}

fn readers_and_notifier<N: LiveName>(
    publisher: &Publisher<N>,
    readers: usize,
) -> Result<(Vec<Reader<N>>, Notifier<N>), KvError>
    ensures ok { IfOk result
        (λ r. (length r.0.items ≡ readers)
        × All (λ reader. (reader.seen ≡ []) × (reader.told ≡ publisher.now)) r.0.items) }
    ensures err { IfErr result IsUnread }
{
    let readers = publisher.readers(readers)?;
    Ok((readers, publisher.notifier()?))
}

// What lies under the lock, with its readers and what tells them. Where they are refused it has ended.
fn with_readers<N: LiveName, R: Wait>(
    rt: &R,
    keeper: Keeper<N>,
    readers: usize,
) -> Result<(Keeper<N>, Notifier<N>, Vec<Reader<N>>), KvError>
    ensures ok { IfOk result
        (λ r. (r.0 ≡ keeper) × (length r.2.items ≡ readers)
        × All (λ reader. (reader.seen ≡ []) × (reader.told ≡ keeper.published)) r.2.items) }
    ensures err { IfErr result IsUnread }
{
    match readers_and_notifier(&keeper.publisher, readers) {
        Ok((readers, notifier)) => Ok((keeper, notifier, readers)),
        Err(refusal) => {
            keeper.close(rt);
            Err(refusal)
        }
    }
}

impl Opened {
    /// What lies under the lock of the bucket under a name: its keeper, at the state of the acts that it was opened with and no
    /// watch, what tells its readers, and these, which have seen nothing and are told of these acts. It is for a layer that has a lock of its own. Where it is refused the
    /// opening ends.
    pub fn keeper<N: LiveName, R: Wait>(
        self,
        rt: &R,
    ) -> Result<(Keeper<N>, Notifier<N>, Vec<Reader<N>>), KvError>
        requires { self.opening ≡ N.opening }
        ensures at { IfOk result (λ r. IsAt (state_of N.opening.config N.opening.book.began []) r.0) }
        ensures ok { IfOk result
            (λ r. (length r.2.items ≡ self.readers)
            × All (λ reader. (reader.seen ≡ []) × (reader.told ≡ N.opening.book.began)) r.2.items) }
        ensures err { IfErr result IsUnread }
    {
        let Opened {
            alloc,
            bucket,
            empty,
            fresh,
            readers,
        } = self;
        let ring = Ring::new(bucket.version().snapshot()?);
        let publisher: Publisher<N> = Publisher::new(
            rt,
            alloc,
            fresh,
            &empty,
            bucket.version(),
            readers,
        )?;
        let keeper = Keeper {
            bucket,
            publisher,
            ring: Some(ring),
        };
        with_readers(rt, keeper, readers)
    }

    /// The bucket under a name, and its readers, which have seen nothing and are told of the acts that the bucket was opened
    /// with: all that they see begins with these. Where it is refused the opening ends.
    pub fn live<N: LiveName, R: Wait>(self, rt: &R) -> Result<(Live<N>, Vec<Reader<N>>), KvError>
        requires { self.opening ≡ N.opening }
        ensures ok { IfOk result
            (λ r. (length r.1.items ≡ self.readers)
            × All (λ reader. (reader.seen ≡ []) × (reader.told ≡ N.opening.book.began)) r.1.items) }
        ensures err { IfErr result IsUnread }
    {
        let (keeper, notifier, readers) = self.keeper::<N, R>(rt)?;
        let live = Live {
            keeper: Mutex::new(keeper),
            notifier,
        };
        Ok((live, readers))
    }

    // That of a new bucket, whose readers are told of nothing.
    pub(crate) fn new_live<N: LiveName, R: Wait>(
        self,
        rt: &R,
    ) -> Result<(Live<N>, Vec<Reader<N>>), KvError>
        requires name { self.opening ≡ N.opening }
        requires new { N.opening.book.began ≡ [] }
        ensures count { IfOk result (λ r. length r.1.items ≡ self.readers) }
        ensures fresh { IfOk result (λ r. All (λ reader. (reader.seen ≡ []) × (reader.told ≡ [])) r.1.items) }
        ensures err { IfErr result IsUnread }
    {
        self.live(rt)
    }
}

// Writes. What is answered is what the rules give after the acts that were published before, which are lawful.
fn write_on<N: LiveName, R: Wait>(
    rt: &R,
    keeper: &mut Keeper<N>,
    request: &Request,
) -> Result<u64, KvError>
    ensures ok { IfOk result
        (λ revision. (later : List Act) × WritesSomewhere N.opening.config (asked request.now) revision later) }
    ensures published { IfOk result
        (λ revision. PublishesWrite N.opening.config (asked request.now) revision keeper.old.published
        keeper.new.published) }
    ensures refused { IfErr result (λ e. RefusedSomewhere N.opening.config (asked request.now) e) }
{
    keeper.bucket();
    keeper.write(rt, request)
}

// Writes, and tells of it.
fn write_and_tell<N: LiveName, R: Wait>(
    rt: &R,
    keeper: &mut Keeper<N>,
    request: &Request,
) -> Result<(u64, Receipt<N>), KvError>
    ensures ok { IfOk result (λ r. PublishesWrite N.opening.config (asked request.now) r.0 keeper.old.published r.1) }
    ensures lawful { IfOk result (λ r. IsLawful N.opening.config r.1) }
    ensures refused { IfErr result (λ e. RefusedSomewhere N.opening.config (asked request.now) e) }
{
    keeper.bucket();
    let told = keeper.write_told(rt, request)?;
    keeper.bucket();
    Ok(told)
}

// Compacts. What is answered is what the rules give at a state of the acts that were published before, which are
// lawful.
fn compact_on<N: LiveName, R: Wait>(
    rt: &R,
    keeper: &mut Keeper<N>,
    floor: u64,
) -> Result<(), KvError>
    ensures ok { OnOk result (CompactsSomewhere N.opening.config floor) }
    ensures refused { IfErr result (λ e. UncompactedSomewhere N.opening.config floor e) }
{
    keeper.bucket();
    keeper.compact(rt, floor)
}

impl<N: LiveName> Live<N> {
    /// The keeper, for several calls in a row, at a state of the model, whose acts are those that are published: one
    /// history, of which all that anybody has seen or was told is a beginning. It waits until the lock is free.
    pub fn lock<R: Wait>(&self, rt: &R) -> MutexGuard<'_, Keeper<N>>
        ensures state { IsSomewhere N.opening.config (mutex_guard_value result) }
        ensures history { IsPublishedHistory N.opening (mutex_guard_value result).published }
    {
        let keeper = self.keeper.lock(rt);
        keeper.bucket();
        keeper
    }

    /// Does what is asked, and answers the revision of the write, as `Keeper::write` does.
    pub fn write<R: Wait>(&self, rt: &R, request: &Request) -> Result<u64, KvError>
        ensures ok { IfOk result
            (λ revision. (later : List Act) × WritesSomewhere N.opening.config (asked request.now) revision later) }
        ensures refused { IfErr result (λ e. RefusedSomewhere N.opening.config (asked request.now) e) }
    {
        let mut keeper = self.keeper.lock(rt);
        write_on(rt, &mut *keeper, request)
    }

    /// The same, with a receipt: readers that learn it see the write from then on. The receipt tells all acts up to the
    /// write, which is its last.
    pub fn write_told<R: Wait>(
        &self,
        rt: &R,
        request: &Request,
    ) -> Result<(u64, Receipt<N>), KvError>
        ensures ok { IfOk result
            (λ r. (before : List Act) × PublishesWrite N.opening.config (asked request.now) r.0 before r.1) }
        ensures lawful { IfOk result (λ r. IsLawful N.opening.config r.1) }
        ensures refused { IfErr result (λ e. RefusedSomewhere N.opening.config (asked request.now) e) }
    {
        let mut keeper = self.keeper.lock(rt);
        write_and_tell(rt, &mut *keeper, request)
    }

    /// Ends writes, as `Keeper::seal` does.
    pub fn seal<R: Wait>(&self, rt: &R) -> Result<(), KvError>
        ensures err { IfErr result (λ e. e ≡ OutOfMemory) }
    {
        self.keeper.lock(rt).seal(rt)
    }

    /// Compacts to the floor, as `Keeper::compact` does.
    pub fn compact<R: Wait>(&self, rt: &R, floor: u64) -> Result<(), KvError>
        ensures ok { OnOk result (CompactsSomewhere N.opening.config floor) }
        ensures refused { IfErr result (λ e. UncompactedSomewhere N.opening.config floor e) }
    {
        let mut keeper = self.keeper.lock(rt);
        compact_on(rt, &mut *keeper, floor)
    }

    /// Tells those who wait, and those who will, that no write comes any more: their waits end once they have seen all
    /// that was published. It takes no lock, and changes nothing else; a write that comes all the same is published.
    pub fn finish(&self) {
        self.notifier.close();
    }

    /// Ends the bucket's writer. Readers and feeds go on, to the last version that was published. It waits for the
    /// readers that are reading.
    pub fn close<R: Wait>(self, rt: &R) {
        let Live {
            keeper,
            notifier: _,
        } = self;
        keeper.into_inner().close(rt);
    }
}
