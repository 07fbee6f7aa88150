//! What readers find once the store lets none of them enter.

ghost use Rattle.std.specs.Prelude.{◌≡◌};
ghost use Rattle.kv_publish.specs.Publications.{IsOf};

use crate::protocol::LiveName;
use crate::publication::Publication;
use std::marker::PhantomData;

/// What was published last of the opening N.
#[derive(Drop)]
pub struct LastPublished<N: LiveName> {
    publication: Publication,
    of: PhantomData<N>,
    ghost is_of: { IsOf N.opening publication },
}

impl<N: LiveName> LastPublished<N> {
    /// This publication is the last.
    pub fn new(publication: Publication) -> LastPublished<N>
        requires { IsOf N.opening publication }
    {
        LastPublished {
            publication,
            of: PhantomData,
        }
    }

    /// The last publication.
    pub fn publication(&self) -> &Publication
        ensures value { result.now ≡ self.now.publication }
        ensures of { IsOf N.opening result.now }
    {
        &self.publication
    }
}
