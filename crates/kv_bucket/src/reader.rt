//! Readers, which take no lock and wait for nobody.

ghost use Rattle.std.specs.Prelude.{◌≡◌, ◌⊎◌, ◌≤◌, IfOk, IfErr, IfSome, IsSome, OnErr, OnOk, Some, MatchResult, [], true, false};
ghost use Rattle.std.specs.Option.{option_map};
ghost use Rattle.kv_keys.specs.declared.error.KvError.TheVariants.{NoReader, OutOfMemory};
ghost use Rattle.kv_model.specs.Acts.{IsPrefix, floor_of};
ghost use Rattle.kv_store.specs.Standing.{StandsFor};
ghost use Rattle.kv_bucket.specs.ReaderState.{IsUnread, StaysUnder};
ghost use Rattle.kv_bucket.specs.inside.Fed.{TellsLag, TellsLagOf, IsNotShown};
ghost use Rattle.kv_bucket.specs.inside.ProgressState.{IsWithin};
ghost use Rattle.kv_publish.specs.Publications.{IsOf};

use crate::cached::Cached;
use crate::progress::Progress;
use crate::receipt::{Mark, Receipt};
use kv_keys::KvError;
use kv_publish::{
    Gets, LastPublished, LiveName, Notifier, Prefix, Publication, PublishRule, Side, Woken,
};
use kv_store::Version;
use kv_watch::Watch;
use left_right::reader::{Reader as Slot, Reading};
use std::alloc::Global;
use std::marker::Model;
use std::rt::Clock;
use std::sync::Wait;
use std::time::Duration;

/// A reader of the opening N. It takes no lock. Contracts see it as the configuration of its bucket, the acts that it has
/// seen, and those that it was told of.
pub struct Reader<N: LiveName> {
    alloc: Global,
    notifier: Notifier<N>,
    slot: Option<Slot<Side, (), PublishRule<N>>>,
    progress: Progress<N>,
    empty: Publication,
}

// Field by field: a derived drop makes each proof longer that owns one.
impl<N: LiveName> Drop for Reader<N> {
    fn drop(self) {
        let Self {
            alloc: _,
            notifier: _,
            slot: _,
            progress: _,
            empty: _,
        } = self;
    }
}

impl<N: LiveName> Model for Reader<N> {
    ghost use Rattle.std.specs.Prelude.{◌≡◌, [], IsSome};
    ghost use Rattle.kv_bucket.specs.ReaderState.{ReaderState};
    ghost use Rattle.kv_publish.specs.Publications.{IsOf};

    ghost Value = { ReaderState };

    ghost view = { λ r. record { config = N.opening.config; seen = r.progress.seen; told = r.progress.told } };

    ghost invariant = { λ r. IsSome r.slot × IsOf N.opening r.empty × (r.empty.raw_prefix.acts ≡ []) };
}

// How often a reader looks where it is shown less than it knows: as good as for ever. It never is shown less, since what is
// shown only grows, and a receipt is made behind that; but no contract of the store says so, and no refusal stands for it.
const LOOKS: u64 = u64::MAX;

// Where a reader is that was let in: inside the store; or outside, on what was published last, once nobody enters there.
type Entered<'a, N> = Result<
    Reading<Side, (), PublishRule<N>>,
    (Slot<Side, (), PublishRule<N>>, &'a LastPublished<N>),
>;

// Enters the store; where nobody enters there any more, what was published last. Where there is neither, no place lets the
// reader enter.
fn enter_once<'a, N: LiveName>(
    slot: &mut Option<Slot<Side, (), PublishRule<N>>>,
    notifier: &'a Notifier<N>,
) -> Result<Entered<'a, N>, KvError>
    requires { IsSome slot.old }
    ensures of { IfOk result (λ entered. MatchResult entered
        (λ reading. IsOf N.opening reading.part.value.publication)
        (λ outside. IsOf N.opening outside.1.now.publication)) }
    ensures seat { OnErr result (IsSome slot.new) }
    ensures err { IfErr result (λ e. e ≡ NoReader) }
{
    let Some(outside) = slot.take() else {
        unreachable!()
    };
    match outside.enter_as::<Gets<N>>() {
        Ok(reading) => Ok(Ok(reading)),
        Err(outside) => match notifier.last() {
            Some(last) => Ok(Err((outside, last))),
            None => {
                *slot = Some(outside);
                Err(KvError::NoReader)
            }
        },
    }
}

// The publication that it entered on.
fn publication_of<'a, N: LiveName>(entered: &'a Entered<'a, N>) -> &'a Publication
    ensures { MatchResult entered.now
        (λ reading. result.now ≡ reading.part.value.publication)
        (λ outside. result.now ≡ outside.1.now.publication) }
{
    match entered {
        Ok(reading) => reading.get().publication(),
        Err((_, last)) => last.publication(),
    }
}

// Leaves the store, if it is inside.
fn leave<N: LiveName>(entered: Entered<'_, N>) -> Slot<Side, (), PublishRule<N>> {
    match entered {
        Ok(reading) => reading.leave(),
        Err((outside, _)) => outside,
    }
}

// Enters on a publication that has all that the reader of this progress has seen and was told.
fn enter<'a, N: LiveName>(
    slot: &mut Option<Slot<Side, (), PublishRule<N>>>,
    notifier: &'a Notifier<N>,
    progress: &Progress<N>,
) -> Result<Entered<'a, N>, KvError>
    requires { IsSome slot.old }
    ensures of { IfOk result (λ entered. MatchResult entered
        (λ reading. IsOf N.opening reading.part.value.publication)
        (λ outside. IsOf N.opening outside.1.now.publication)) }
    ensures within { IfOk result (λ entered. MatchResult entered
        (λ reading. IsWithin reading.part.value.publication.raw_prefix.acts progress.now)
        (λ outside. IsWithin outside.1.now.publication.raw_prefix.acts progress.now)) }
    ensures seat { OnErr result (IsSome slot.new) }
    ensures err { IfErr result (λ e. e ≡ NoReader) }
{
    for _ in 0..LOOKS {
        let entered = enter_once(slot, notifier)?;
        if progress.is_within(publication_of(&entered)) {
            return Ok(entered);
        }
        *slot = Some(leave(entered));
    }
    Err(KvError::NoReader)
}

impl<N: LiveName> Reader<N> {
    pub(crate) fn new(
        alloc: Global,
        notifier: Notifier<N>,
        slot: Slot<Side, (), PublishRule<N>>,
        told: Prefix<N>,
        empty: Publication,
    ) -> Reader<N>
        requires { IsOf N.opening empty × (empty.raw_prefix.acts ≡ []) }
        ensures { (result.config ≡ N.opening.config) × (result.seen ≡ []) × (result.told ≡ told) }
    {
        Reader {
            alloc,
            notifier,
            slot: Some(slot),
            progress: Progress::new(&empty, told),
            empty,
        }
    }

    /// The version that is published; once the bucket was closed, the last one. It costs an entry, a snapshot and a
    /// leave. `NoReader` where nobody lets the reader enter: neither the store, nor what was published last, once there is
    /// that. Shown less than it has seen or was told, which never comes, it would look again.
    pub fn version(&mut self) -> Result<Version, KvError>
        ensures config { StaysUnder N.opening.config self.old self.new }
        ensures later { IsPrefix self.old.seen self.new.seen }
        ensures told { self.new.told ≡ self.old.told }
        ensures ok { IfOk result
            (λ v. StandsFor self.new.seen v × (v.config ≡ self.new.config) × IsPrefix self.old.told self.new.seen) }
        ensures err { IfErr result IsUnread }
    {
        let publication = self.publication()?;
        Ok(publication.into_version())
    }

    /// The version that is published, to be kept for many reads and refreshed between them. It costs what `version`
    /// costs.
    pub fn cached(&mut self) -> Result<Cached<N>, KvError>
        ensures config { StaysUnder N.opening.config self.old self.new }
        ensures later { IsPrefix self.old.seen self.new.seen }
        ensures told { self.new.told ≡ self.old.told }
        ensures ok { IfOk result (λ c. (c ≡ self.new.seen) × IsPrefix self.old.told self.new.seen) }
        ensures err { IfErr result IsUnread }
    {
        let publication = self.publication()?;
        Ok(Cached::new(publication))
    }

    /// Has what was cached go on to the version that is published; once the bucket was closed, to the last one. Where
    /// it is that already it costs a look at one word, and nothing is written that another thread reads; else it costs
    /// what `version` costs, and the version that it leaves is let go. Where it is refused it stays as it was.
    pub fn refresh(&mut self, cached: &mut Cached<N>) -> Result<(), KvError>
        ensures config { StaysUnder N.opening.config self.old self.new }
        ensures later { IsPrefix self.old.seen self.new.seen }
        ensures told { self.new.told ≡ self.old.told }
        ensures ok { OnOk result ((cached.new ≡ self.new.seen) × IsPrefix self.old.told self.new.seen) }
        ensures unchanged { OnErr result (cached.new ≡ cached.old) }
        ensures err { IfErr result IsUnread }
    {
        if cached.is_all_of(&self.progress) && !self.notifier.has_more(self.progress.taken_in()) {
            return Ok(());
        }
        self.go_on(cached)?;
        Ok(())
    }

    // Enters, has what was cached go on to what is there, and answers what that left: who lets it go does so outside,
    // where no publish waits for it.
    fn go_on(&mut self, cached: &mut Cached<N>) -> Result<Option<Publication>, KvError>
        ensures config { StaysUnder N.opening.config self.old self.new }
        ensures later { IsPrefix self.old.seen self.new.seen }
        ensures told { self.new.told ≡ self.old.told }
        ensures ok { OnOk result ((cached.new ≡ self.new.seen) × IsPrefix self.old.told self.new.seen) }
        ensures left { IfOk result (λ left. IfSome left (λ publication. publication.raw_prefix.acts ≡ cached.old)) }
        ensures unchanged { OnErr result (cached.new ≡ cached.old) }
        ensures err { IfErr result IsUnread }
    {
        let entered = enter(&mut self.slot, &self.notifier, &self.progress)?;
        let left = cached.go_on(&mut self.progress, publication_of(&entered));
        self.slot = Some(leave(entered));
        left
    }

    /// Sleeps until something is published that it has not taken in, or the bucket is closed. It takes no lock.
    pub fn wait<R: Wait>(&self, rt: &R) -> Woken {
        self.notifier.wait(rt, self.progress.taken_in())
    }

    /// The same, for no longer than the limit. It is `None` where the time was over first, or the clock couldn't be
    /// read.
    pub fn wait_timeout<R: Wait + Clock>(&self, rt: &R, limit: Duration) -> Option<Woken> {
        self.notifier
            .wait_timeout(rt, self.progress.taken_in(), limit)
    }

    /// A published version with at least this revision. Where there is none yet it waits; it is `None` where the bucket
    /// was closed before there was one.
    pub fn wait_for<R: Wait>(&mut self, rt: &R, revision: u64) -> Result<Option<Version>, KvError>
        ensures config { StaysUnder N.opening.config self.old self.new }
        ensures later { IsPrefix self.old.seen self.new.seen }
        ensures told { self.new.told ≡ self.old.told }
        ensures ok { IfOk result
            (λ found. IfSome found
            (λ v. StandsFor self.new.seen v × (v.config ≡ self.new.config) × (revision ≤ v.last))) }
        ensures learned { IfOk result (λ _. IsPrefix self.old.told self.new.seen) }
        ensures err { IfErr result IsUnread }
    {
        for _ in rt.forever() {
            if let Some(version) = self.version_from(revision)? {
                return Ok(Some(version));
            }
            if self.wait(rt) == Woken::Closed {
                return Ok(None);
            }
        }
        unreachable!()
    }

    // The version that is published, if it has at least this revision.
    fn version_from(&mut self, revision: u64) -> Result<Option<Version>, KvError>
        ensures config { StaysUnder N.opening.config self.old self.new }
        ensures later { IsPrefix self.old.seen self.new.seen }
        ensures told { self.new.told ≡ self.old.told }
        ensures ok { IfOk result
            (λ found. IfSome found
            (λ v. StandsFor self.new.seen v × (v.config ≡ self.new.config) × (revision ≤ v.last))) }
        ensures learned { IfOk result (λ _. IsPrefix self.old.told self.new.seen) }
        ensures err { IfErr result IsUnread }
    {
        let version = self.version()?;
        if version.revision() >= revision {
            Ok(Some(version))
        } else {
            Ok(None)
        }
    }

    /// What is published.
    pub(crate) fn publication(&mut self) -> Result<Publication, KvError>
        ensures config { StaysUnder N.opening.config self.old self.new }
        ensures later { IsPrefix self.old.seen self.new.seen }
        ensures told { self.new.told ≡ self.old.told }
        ensures ok { IfOk result
            (λ s. (s.raw_prefix.acts ≡ self.new.seen) × IsOf N.opening s × IsPrefix self.old.told self.new.seen) }
        ensures stands { IfOk result (λ s. StandsFor self.new.seen s.version) }
        ensures err { IfErr result IsUnread }
    {
        self.look(None)
    }

    /// What is published, for a feed that is on this publication with this watch, unless it lags behind that.
    pub(crate) fn publication_ahead(
        &mut self,
        current: &Publication,
        watch: &Watch,
    ) -> Result<Publication, KvError>
        ensures config { StaysUnder N.opening.config self.old self.new }
        ensures later { IsPrefix self.old.seen self.new.seen }
        ensures told { self.new.told ≡ self.old.told }
        ensures ok { IfOk result
            (λ s. (s.raw_prefix.acts ≡ self.new.seen) × IsOf N.opening s × IsPrefix self.old.told self.new.seen) }
        ensures stands { IfOk result (λ s. StandsFor self.new.seen s.version) }
        ensures ahead { IfOk result (λ _. TellsLag current.now watch.now (floor_of self.new.seen) false) }
        ensures err { IfErr result (IsNotShown (Some (current.now, watch.now)) self.new.seen) }
    {
        self.look(Some((current, watch)))
    }

    // Enters, and copies what is there, unless this follower lags behind it.
    fn look(&mut self, follower: Option<(&Publication, &Watch)>) -> Result<Publication, KvError>
        ensures config { StaysUnder N.opening.config self.old self.new }
        ensures later { IsPrefix self.old.seen self.new.seen }
        ensures told { self.new.told ≡ self.old.told }
        ensures ok { IfOk result
            (λ s. (s.raw_prefix.acts ≡ self.new.seen) × IsOf N.opening s × IsPrefix self.old.told self.new.seen) }
        ensures stands { IfOk result (λ s. StandsFor self.new.seen s.version) }
        ensures ahead { IfOk result
            (λ _. TellsLagOf (option_map (λ f. (f.0.now, f.1.now)) follower.entry) (floor_of self.new.seen) false) }
        ensures err { IfErr result
            (IsNotShown (option_map (λ f. (f.0.now, f.1.now)) follower.entry) self.new.seen) }
    {
        let entered = enter(&mut self.slot, &self.notifier, &self.progress)?;
        let copy = self.progress.take_in(follower, publication_of(&entered));
        self.slot = Some(leave(entered));
        copy
    }

    pub(crate) fn seen(&self) -> &Prefix<N>
        ensures { result.now ≡ self.now.seen }
    {
        self.progress.seen()
    }

    pub(crate) fn told(&self) -> &Prefix<N>
        ensures { result.now ≡ self.now.told }
    {
        self.progress.told()
    }

    pub(crate) fn notifier(&self) -> &Notifier<N> {
        &self.notifier
    }

    pub(crate) fn alloc(&self) -> Global {
        self.alloc
    }

    /// The empty version, as a publication.
    pub(crate) fn empty_publication(&self) -> Result<Publication, KvError>
        ensures config { self.now.config ≡ N.opening.config }
        ensures value { MatchResult result (λ s. IsOf N.opening s × (s.raw_prefix.acts ≡ [])) (λ e. e ≡ OutOfMemory) }
    {
        self.empty.try_clone()
    }

    /// Takes in a receipt. Each version from now on stands for acts that begin with those that the receipt tells.
    pub fn learn(&mut self, receipt: &Receipt<N>)
        ensures config { StaysUnder N.opening.config self.old self.new }
        ensures seen { self.new.seen ≡ self.old.seen }
        ensures told { IsPrefix self.old.told self.new.told }
        ensures learned { IsPrefix receipt.now self.new.told }
        ensures one_list { (self.new.told ≡ self.old.told) ⊎ (self.new.told ≡ receipt.now) }
    {
        self.progress.learn(receipt.mark());
    }

    /// Takes in a mark, as a receipt.
    pub fn learn_mark(&mut self, mark: &Mark<N>)
        ensures config { StaysUnder N.opening.config self.old self.new }
        ensures seen { self.new.seen ≡ self.old.seen }
        ensures told { IsPrefix self.old.told self.new.told }
        ensures learned { IsPrefix mark.now self.new.told }
        ensures one_list { (self.new.told ≡ self.old.told) ⊎ (self.new.told ≡ mark.now) }
    {
        self.progress.learn(mark);
    }

    /// Whether it has seen all that the other reader has. What the readers of one opening have seen are beginnings of
    /// one list: where it has not seen all of that, the other has seen all that it has.
    pub fn has_seen_all_of(&self, other: &Reader<N>) -> bool
        ensures yes { result ≡ true → IsPrefix other.now.seen self.now.seen }
        ensures no { result ≡ false → IsPrefix self.now.seen other.now.seen }
    {
        self.seen().covers(other.seen())
    }

    /// Whether it has seen what the receipt tells. Where it has not, what it has seen is a beginning of that.
    pub fn has_seen(&self, receipt: &Receipt<N>) -> bool
        ensures yes { result ≡ true → IsPrefix receipt.now self.now.seen }
        ensures no { result ≡ false → IsPrefix self.now.seen receipt.now }
    {
        self.seen().covers(receipt.mark().prefix())
    }
}
