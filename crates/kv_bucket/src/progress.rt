//! What a reader has seen, and what it was told.

ghost use Rattle.std.specs.Prelude.{◌≡◌, ◌⊎◌, [], true, false, IfOk, IfErr};
ghost use Rattle.std.specs.Option.{option_map};
ghost use Rattle.kv_model.specs.Acts.{IsPrefix, floor_of};
ghost use Rattle.kv_store.specs.Standing.{StandsFor};
ghost use Rattle.kv_bucket.specs.inside.ProgressState.{IsWithin};
ghost use Rattle.kv_bucket.specs.inside.Fed.{TellsLag, TellsLagOf, IsNotCopied};
ghost use Rattle.kv_publish.specs.Publications.{IsOf};

use crate::receipt::Mark;
use kv_keys::KvError;
use kv_publish::{LiveName, Prefix, Publication, RawPrefix};
use kv_watch::Watch;
use std::marker::Model;

/// What a reader of the opening N has seen, what it was told, and how many acts the version stands for that it took in
/// last. Contracts see the acts of the first two.
pub struct Progress<N: LiveName> {
    seen: Prefix<N>,
    told: Prefix<N>,
    taken_in: u64,
}

// Field by field: a derived drop makes each proof longer that owns one.
impl<N: LiveName> Drop for Progress<N> {
    fn drop(self) {
        let Self {
            seen: _,
            told: _,
            taken_in: _,
        } = self;
    }
}

impl<N: LiveName> Model for Progress<N> {
    ghost use Rattle.kv_bucket.specs.inside.ProgressState.{ProgressState};

    ghost Value = { ProgressState };

    ghost view = { λ k. record { seen = k.seen; told = k.told } };
}

impl<N: LiveName> Progress<N> {
    /// Of who has seen nothing and was told this. The empty publication shows which history it is of.
    pub fn new(empty: &Publication, told: Prefix<N>) -> Progress<N>
        requires { IsOf N.opening empty.now × (empty.now.raw_prefix.acts ≡ []) }
        ensures { (result.seen ≡ []) × (result.told ≡ told) }
    {
        Progress {
            seen: Prefix::of(empty.raw_prefix()),
            told,
            taken_in: 0,
        }
    }

    /// How many acts the version stands for that it took in last.
    pub fn taken_in(&self) -> u64 {
        self.taken_in
    }

    /// Whether a publication has all that it has seen and was told. It enters on such a one alone.
    pub fn is_within(&self, publication: &Publication) -> bool
        requires { IsOf N.opening publication.now }
        ensures { result ≡ true → IsWithin publication.now.raw_prefix.acts self.now }
    {
        let prefix: Prefix<N> = Prefix::of(publication.raw_prefix());
        prefix.covers(&self.seen) && prefix.covers(&self.told)
    }

    /// Takes in what it entered on: a copy, unless the follower, if any, lags behind it.
    pub fn take_in(
        &mut self,
        follower: Option<(&Publication, &Watch)>,
        publication: &Publication,
    ) -> Result<Publication, KvError>
        requires of { IsOf N.opening publication.now }
        requires within { IsWithin publication.now.raw_prefix.acts self.old }
        ensures later { IsPrefix self.old.seen self.new.seen }
        ensures told { self.new.told ≡ self.old.told }
        ensures ok { IfOk result
            (λ s. (s.raw_prefix.acts ≡ self.new.seen) × IsOf N.opening s × IsPrefix self.old.told self.new.seen) }
        ensures stands { IfOk result (λ s. StandsFor self.new.seen s.version) }
        ensures ahead { IfOk result
            (λ _. TellsLagOf (option_map (λ f. (f.0.now, f.1.now)) follower.entry) (floor_of self.new.seen) false) }
        ensures err { IfErr result
            (IsNotCopied (option_map (λ f. (f.0.now, f.1.now)) follower.entry) self.new.seen) }
    {
        self.see(publication);
        let copy = copy_for(follower, publication)?;
        self.rest_on(&copy);
        Ok(copy)
    }

    /// Sees what it entered on.
    pub fn see(&mut self, publication: &Publication)
        requires of { IsOf N.opening publication.now }
        requires within { IsWithin publication.now.raw_prefix.acts self.old }
        ensures later { IsPrefix self.old.seen self.new.seen }
        ensures told { self.new.told ≡ self.old.told }
        ensures seen { (self.new.seen ≡ publication.now.raw_prefix.acts) × IsPrefix self.old.told self.new.seen }
    {
        self.seen = Prefix::of(publication.raw_prefix());
    }

    /// Whether it has seen all of this prefix, and no more.
    pub fn has_seen_just(&self, raw_prefix: &RawPrefix) -> bool
        requires { raw_prefix.now.book ≡ N.opening.book }
        ensures { result ≡ true → raw_prefix.now.acts ≡ self.now.seen }
    {
        let prefix: Prefix<N> = Prefix::of(raw_prefix);
        prefix.covers(&self.seen) && self.seen.covers(&prefix)
    }

    /// Whether what it has seen begins with all that it was told.
    pub fn has_seen_all_told(&self) -> bool
        ensures { result ≡ true → IsPrefix self.now.told self.now.seen }
    {
        self.seen.covers(&self.told)
    }

    /// The version of this publication is the one that it took in last.
    pub fn rest_on(&mut self, publication: &Publication)
        ensures { self.new ≡ self.old }
    {
        self.taken_in = publication.acts();
    }

    /// Takes in a mark.
    pub fn learn(&mut self, mark: &Mark<N>)
        ensures seen { self.new.seen ≡ self.old.seen }
        ensures told { IsPrefix self.old.told self.new.told }
        ensures learned { IsPrefix mark.now self.new.told }
        ensures one_list { (self.new.told ≡ self.old.told) ⊎ (self.new.told ≡ mark.now) }
    {
        self.told = self.told.longer(mark.prefix());
    }

    /// What it has seen.
    pub fn seen(&self) -> &Prefix<N>
        ensures { result.now ≡ self.now.seen }
    {
        &self.seen
    }

    /// What it was told.
    pub fn told(&self) -> &Prefix<N>
        ensures { result.now ≡ self.now.told }
    {
        &self.told
    }
}

// A copy of the publication, unless this follower, if any, lags behind it.
fn copy_for(
    follower: Option<(&Publication, &Watch)>,
    publication: &Publication,
) -> Result<Publication, KvError>
    ensures ok { IfOk result (λ s. (s.raw_prefix ≡ publication.now.raw_prefix)
        × (s.version.config ≡ publication.now.version.config)) }
    ensures stands { IfOk result (λ s. StandsFor publication.now.raw_prefix.acts s.version) }
    ensures ahead { IfOk result (λ _. TellsLagOf (option_map (λ f. (f.0.now, f.1.now)) follower.entry)
        (floor_of publication.now.raw_prefix.acts) false) }
    ensures err { IfErr result
        (IsNotCopied (option_map (λ f. (f.0.now, f.1.now)) follower.entry) publication.now.raw_prefix.acts) }
{
    if let Some((current, watch)) = follower {
        let floor = publication.version().floor();
        if lags_behind(current, watch, floor) {
            return Err(KvError::Lagged { floor });
        }
    }
    publication.try_clone()
}

// Whether a feed with this watch that is on this publication lags behind a version with the floor.
fn lags_behind(current: &Publication, watch: &Watch, floor: u64) -> bool
    ensures { TellsLag current.now watch.now floor result }
{
    let version = current.version();
    if version.revision() < floor {
        return true;
    }
    watch.behind(version, floor)
}
