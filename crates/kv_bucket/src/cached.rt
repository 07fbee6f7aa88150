//! A version that a thread keeps for many reads.

ghost use Rattle.std.specs.Prelude.{◌≡◌, true, IfErr, IfOk, IfSome, OnErr, OnOk};
ghost use Rattle.kv_model.specs.Acts.{IsPrefix};
ghost use Rattle.kv_store.specs.Standing.{StandsFor};
ghost use Rattle.kv_bucket.specs.ReaderState.{IsUnread};
ghost use Rattle.kv_bucket.specs.inside.ProgressState.{IsWithin};
ghost use Rattle.kv_publish.specs.Publications.{IsOf};

use crate::progress::Progress;
use kv_keys::KvError;
use kv_publish::{LiveName, Prefix, Publication};
use kv_store::Version;
use std::marker::{Model, PhantomData};
use std::mem;

/// A version of the opening N that a thread keeps for many reads, and refreshes by its reader. Contracts see it as the
/// acts that the version stands for.
#[derive(Drop)]
pub struct Cached<N: LiveName> {
    publication: Publication,
    of: PhantomData<N>,
}

impl<N: LiveName> Model for Cached<N> {
    ghost use Rattle.std.specs.Prelude.{List};
    ghost use Rattle.kv_model.specs.Acts.{Act};
    ghost use Rattle.kv_publish.specs.Publications.{IsOf};

    ghost Value = { List Act };

    ghost view = { λ c. c.publication.raw_prefix.acts };

    ghost invariant = { λ c. IsOf N.opening c.publication };
}

impl<N: LiveName> Cached<N> {
    pub(crate) fn new(publication: Publication) -> Cached<N>
        requires { IsOf N.opening publication }
        ensures { result ≡ publication.raw_prefix.acts }
    {
        Cached {
            publication,
            of: PhantomData,
        }
    }

    /// The version.
    pub fn version(&self) -> &Version
        ensures stands { StandsFor self.now result.now }
        ensures config { result.now.config ≡ N.opening.config }
    {
        self.publication.version()
    }

    // Whether it stands for all that the reader of this progress has seen, and that for all that the reader was told.
    pub(crate) fn is_all_of(&self, progress: &Progress<N>) -> bool
        ensures { result ≡ true → (self.now ≡ progress.now.seen) × IsPrefix progress.now.told progress.now.seen }
    {
        progress.has_seen_just(self.publication.raw_prefix()) && progress.has_seen_all_told()
    }

    // Goes on to what the reader of this progress entered on, which takes it in, and answers what it left. Where it was
    // there already nothing is copied.
    pub(crate) fn go_on(
        &mut self,
        progress: &mut Progress<N>,
        publication: &Publication,
    ) -> Result<Option<Publication>, KvError>
        requires of { IsOf N.opening publication.now }
        requires within { IsWithin publication.now.raw_prefix.acts progress.old }
        ensures later { IsPrefix progress.old.seen progress.new.seen }
        ensures told { progress.new.told ≡ progress.old.told }
        ensures ok { OnOk result ((self.new ≡ progress.new.seen) × IsPrefix progress.old.told progress.new.seen) }
        ensures left { IfOk result (λ left. IfSome left (λ publication. publication.raw_prefix.acts ≡ self.old)) }
        ensures unchanged { OnErr result (self.new ≡ self.old) }
        ensures err { IfErr result IsUnread }
    {
        progress.see(publication);
        let mut left = None;
        if !progress.has_seen_just(self.publication.raw_prefix()) {
            left = Some(mem::replace(&mut self.publication, publication.try_clone()?));
        }
        progress.rest_on(publication);
        Ok(left)
    }
}
