//! Feeds: watches outside the lock.

ghost use Rattle.std.specs.Prelude.{◌≡◌, ◌≤◌, ◌↔◌, false, List, [], ⊤, None, IfOk, IfErr, OnOk, MatchResult, is_some, length, take};
ghost use Rattle.std.specs.Borrow.{sem, follows_so};
ghost use mathlib.Core.Option.{none};
ghost use Rattle.kv_keys.specs.declared.error.KvError.TheVariants.{OutOfMemory};
ghost use Rattle.kv_model.specs.Acceptance.{IsLawful};
ghost use Rattle.kv_model.specs.Acts.{Act, Write, IsPrefix, floor_of};
ghost use Rattle.kv_store.specs.Standing.{StandsFor};
ghost use Rattle.kv_watch.specs.Taking.{item_taken};
ghost use Rattle.kv_bucket.specs.inside.Fed.{acts_on, opened};
ghost use Rattle.kv_bucket.specs.FeedState.{FeedState, HasSeenMore, HasLearned, IsRefreshed, IsNotRefreshed, IsStopped, lags, WentOn, HandsNext, given_by, next_of, after_item};
ghost use Rattle.kv_bucket.specs.ReaderState.{IsUnread, StaysUnder};
ghost use Rattle.kv_bucket.specs.Owed.{Owes, HasOnce};
ghost use Rattle.kv_publish.specs.Publications.{IsOf};

use crate::reader::Reader;
use crate::receipt::{Mark, Receipt};
use kv_keys::{Filters, KvError};
use kv_model::{Options, Stopped};
use kv_publish::{LiveName, Publication, RawPrefix, Woken};
use kv_store::Version;
use kv_watch::{Taken, Watch};
use std::marker::Model;
use std::mem;
use std::rt::Clock;
use std::snapshot::Snapshot;
use std::sync::Wait;
use std::time::Duration;

/// A watch that takes no lock: it goes on from version to version as it is refreshed. Contracts see its reader, the acts
/// when it was opened, those that its version stands for, what it shows, and how many items it handed out.
pub struct Feed<N: LiveName> {
    reader: Reader<N>,
    // The acts of its beginning, as contracts see them. It has no bytes.
    began: Snapshot<RawPrefix>,
    current: Publication,
    watch: Watch,
}

// Field by field: a derived drop makes each proof longer that owns a feed.
impl<N: LiveName> Drop for Feed<N> {
    fn drop(self) {
        let Self {
            reader: _,
            began: _,
            current: _,
            watch: _,
        } = self;
    }
}

impl<N: LiveName> Model for Feed<N> {
    ghost use Rattle.kv_bucket.specs.inside.Fed.{IsFed, feed_state_of};
    ghost use Rattle.kv_bucket.specs.FeedState.{FeedState};

    ghost Value = { FeedState };

    ghost view = { λ f. feed_state_of f.reader f.began.value.acts f.current f.watch.cursor };

    ghost invariant = { λ f. IsFed N.opening.config f.reader f.began.value.acts f.current f.watch };
}

// A feed that begins on a publication.
fn begin<N: LiveName>(
    reader: Reader<N>,
    publication: Publication,
    filters: &Filters,
    options: Options,
) -> Result<Feed<N>, (Reader<N>, KvError)>
    requires of { IsOf N.opening publication }
    requires reader { reader.config ≡ N.opening.config }
    requires seen { IsPrefix (acts_on publication) reader.seen }
    ensures ok { IfOk result (λ feed. feed ≡ opened reader (acts_on publication) filters.now options) }
    ensures err { IfErr result (λ e. (e.0 ≡ reader) × (e.1 ≡ OutOfMemory)) }
{
    match Watch::open(reader.alloc(), publication.version(), filters, options) {
        Ok(watch) => Ok(Feed {
            reader,
            began: Snapshot::of(publication.raw_prefix()),
            current: publication,
            watch,
        }),
        Err(refusal) => Err((reader, refusal)),
    }
}

impl<N: LiveName> Reader<N> {
    /// A feed that begins with the version that is published. It costs an entry, the keys, and what it will hand out.
    /// Where it is refused the reader comes back.
    pub fn watch(self, filters: &Filters, options: Options) -> Result<Feed<N>, (Reader<N>, KvError)>
        ensures config { self.config ≡ N.opening.config }
        ensures reader { IfOk result (λ feed. HasSeenMore self feed.reader × IsPrefix self.told feed.reader.seen) }
        ensures ok { IfOk result (λ feed. feed ≡ opened feed.reader feed.reader.seen filters.now options) }
        ensures err { IfErr result (λ e. HasSeenMore self e.0 × IsUnread e.1) }
    {
        let mut reader = self;
        match reader.publication() {
            Ok(publication) => begin(reader, publication, filters, options),
            Err(refusal) => Err((reader, refusal)),
        }
    }

    /// A feed that begins with the empty version, so that every accepted write is live for it. It doesn't enter: it has
    /// nothing to hand out but the end marker before it is refreshed.
    pub fn watch_from_empty(
        self,
        filters: &Filters,
        options: Options,
    ) -> Result<Feed<N>, (Reader<N>, KvError)>
        ensures config { self.config ≡ N.opening.config }
        ensures ok { IfOk result (λ feed. feed ≡ opened self [] filters.now options) }
        ensures err { IfErr result (λ e. (e.0 ≡ self) × (e.1 ≡ OutOfMemory)) }
    {
        match self.empty_publication() {
            Ok(publication) => begin(self, publication, filters, options),
            Err(refusal) => Err((self, refusal)),
        }
    }
}

impl<N: LiveName> Feed<N> {
    ghost use Rattle.kv_bucket.specs.contracts.feed.Feed.{the_row};

    /// Goes on to the version that is published. Where it is refused the feed stays on its version, with its count.
    /// `Lagged` tells the floor of the published version: it is above the last revision of the feed's version, or the
    /// feed has still to hand out an entry at or below it that came after its opening. What the feed owes by its own
    /// version it can still hand out, and then be opened anew. It frees of the version that it leaves what nobody else
    /// holds; `refresh_keeping` hands that out.
    pub fn refresh(&mut self) -> Result<(), KvError>
        ensures ok { IfOk result (λ _. IsRefreshed self.old self.new) }
        ensures ahead { IfOk result (λ _. lags (floor_of self.new.acts) self.old ≡ false) }
        ensures refused { IfErr result (λ e. IsStopped self.old self.new e × IsNotRefreshed self.old self.new) }
    {
        self.refresh_keeping()?;
        Ok(())
    }

    /// The same, at once at every size: it frees nothing, and answers the version that it left, to be dropped when and
    /// where there is time for that.
    pub fn refresh_keeping(&mut self) -> Result<Version, KvError>
        ensures ok { OnOk result (IsRefreshed self.old self.new) }
        ensures ahead { OnOk result (lags (floor_of self.new.acts) self.old ≡ false) }
        ensures config { StaysUnder N.opening.config self.old.reader self.new.reader }
        ensures left { IfOk result (λ left. StandsFor self.old.acts left × (left.config ≡ self.old.reader.config)) }
        ensures refused { IfErr result (λ e. IsStopped self.old self.new e × IsNotRefreshed self.old self.new) }
    {
        let publication = self.reader.publication_ahead(&self.current, &self.watch)?;
        let left = mem::replace(&mut self.current, publication);
        Ok(left.into_version())
    }

    /// The version that it went on to: a snapshot. While somebody has it, the feed's next refresh frees nothing of it.
    pub fn version(&self) -> Result<Version, KvError>
        ensures config { self.now.reader.config ≡ N.opening.config }
        ensures ok { IfOk result (λ v. StandsFor self.now.acts v × (v.config ≡ self.now.reader.config)) }
        ensures err { IfErr result (λ e. e ≡ OutOfMemory) }
    {
        self.current.version().snapshot()
    }

    /// What `take` would hand out.
    pub fn peek(&self) -> Taken<'_>
        ensures { item_taken result ≡ next_of self.now }
    {
        self.watch.peek(self.current.version())
    }

    /// Hands out the next item, lent from the feed's version. Where all was handed out it is `Empty`, and nothing
    /// changes.
    pub fn take(&mut self) -> Taken<'_>
        ensures* after { sem 𝓛 (follows_so (the_row N.row N.LiveName) (the_row N.row N.LiveName)
            self.entry.ghost_name none (λ _ _. ⊤)
            (λ left. left ≡ after_item self.old (item_taken result))) }
        ensures once { item_taken result ≡ None → (told : List Act) (w : Write) → Owes self.old told w →
            HasOnce self.old w (take self.old.handed (given_by self.old)) }
        ensures value { item_taken result ≡ next_of self.old }
        ensures end { (item_taken result ≡ None) ↔ (self.old.handed ≡ length (given_by self.old)) }
    {
        self.watch.take(self.current.version())
    }

    /// Moves on behind the next item, as `take` does, and lends nothing: so that what was peeked can be copied first, and
    /// want of memory loses no item.
    pub fn pass(&mut self)
        ensures after { self.new ≡ after_item self.old (next_of self.old) }
        ensures once { next_of self.old ≡ None → (told : List Act) (w : Write) → Owes self.old told w →
            HasOnce self.old w (take self.old.handed (given_by self.old)) }
    {
        self.watch.pass(self.current.version());
    }

    /// Sleeps until more is published than it went on to, or the bucket is closed, and says which. It takes no lock.
    pub fn wait<R: Wait>(&self, rt: &R) -> Woken {
        self.reader.notifier().wait(rt, self.current.acts())
    }

    /// The same, for no longer than the limit. It is `None` where the time was over first, or the clock couldn't be
    /// read.
    pub fn wait_timeout<R: Wait + Clock>(&self, rt: &R, limit: Duration) -> Option<Woken> {
        self.reader
            .notifier()
            .wait_timeout(rt, self.current.acts(), limit)
    }

    // Whether there is a next item. It notes how far it looked, so that what was looked at in vain is not looked at
    // again, and a take of the item finds it at once.
    fn settle(&mut self) -> bool
        ensures same { self.new ≡ self.old }
        ensures found { result ≡ is_some (next_of self.old) }
    {
        self.watch.settle(self.current.version())
    }

    // Goes on until there is a next item, or the bucket was closed and there will never be one.
    fn go_on<R: Wait>(&mut self, rt: &R) -> Result<(), KvError>
        ensures goes { WentOn self.old self.new }
        ensures refused { IfErr result (λ e. IsStopped self.new self.new e) }
    {
        for _ in rt.forever() {
            if self.settle() {
                return Ok(());
            }
            match self.wait(rt) {
                Woken::Changed => self.refresh()?,
                Woken::Closed => return Ok(()),
            }
        }
        unreachable!()
    }

    /// Hands out the next item, lent from the feed's version, and waits where there is none yet. It is `Empty` once the
    /// bucket was closed and all was handed out. It looks at each write once, and at the one that it hands out twice:
    /// to find it and to lend it.
    pub fn next<R: Wait>(&mut self, rt: &R) -> Result<Taken<'_>, KvError>
        ensures* after { sem 𝓛 (follows_so (the_row N.row N.LiveName) (the_row N.row N.LiveName)
            self.entry.ghost_name none (λ _ _. ⊤)
            (λ left. MatchResult result
            (λ taken. HandsNext self.old (item_taken taken) left)
            (λ e. WentOn self.old left × IsStopped left left e))) }
    {
        self.go_on(rt)?;
        Ok(self.take())
    }

    /// How many items were handed out, the end marker counted.
    pub fn handed(&self) -> u64
        ensures value { result ≡ self.now.handed }
        ensures config { self.now.reader.config ≡ N.opening.config }
        ensures within { result ≤ length (given_by self.now) }
        ensures prefix { IsPrefix self.now.began self.now.acts }
        ensures seen { IsPrefix self.now.acts self.now.reader.seen }
        ensures lawful { IsLawful self.now.reader.config self.now.acts }
    {
        self.watch.handed()
    }

    /// Ends the feed. Its reader comes back.
    pub fn stop(self) -> (Reader<N>, Stopped)
        ensures reader { result.0 ≡ self.reader }
        ensures handed { result.1.handed ≡ self.handed }
    {
        let Feed {
            reader,
            began: _,
            current: _,
            watch,
        } = self;
        let handed = watch.handed();
        (reader, Stopped { handed })
    }

    /// Takes in a receipt. Each refresh from now on goes on to acts that begin with those that the receipt tells.
    pub fn learn(&mut self, receipt: &Receipt<N>)
        ensures { HasLearned receipt.now self.old self.new }
    {
        self.reader.learn(receipt);
    }

    /// Takes in a mark, as a receipt.
    pub fn learn_mark(&mut self, mark: &Mark<N>)
        ensures { HasLearned mark.now self.old self.new }
    {
        self.reader.learn_mark(mark);
    }

    pub(crate) fn reader(&self) -> &Reader<N>
        ensures { result.now ≡ self.now.reader }
    {
        &self.reader
    }
}
