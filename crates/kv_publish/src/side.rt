//! The two copies of what is published.

ghost use Rattle.std.specs.Prelude.{◌≡◌};
ghost use Rattle.kv_publish.specs.Rules.{IsSide};

use crate::prefix::RawPrefix;
use crate::protocol::{Anchor, LiveName};
use crate::publication::Publication;
use kv_model::Config;
use left_right::Absorb;
use std::alloc::AllocError;
use std::marker::PhantomData;

/// The right to be one of the two copies of what is published of N. A name has two of them, and neither can be copied. So
/// there is one pair of copies for a name, and one store.
#[derive(Drop)]
pub struct Right<N: LiveName> {
    word: Anchor,
    of: PhantomData<N>,
    ghost is_of: { IsSide N.opening.book.written_in word },
}

impl<N: LiveName> Right<N> {
    /// The right that this word of the history of N stands for.
    pub(crate) fn new(word: Anchor) -> Right<N>
        requires { IsSide N.opening.book.written_in word }
    {
        Right {
            word,
            of: PhantomData,
        }
    }
}

/// One of the two copies: a publication, and the right to be a copy.
pub struct Side {
    publication: Publication,
    right: Anchor,
    ghost is_side: { IsSide right.book right },
}

// Field by field: a derived drop makes each proof longer that owns one.
impl Drop for Side {
    fn drop(self) {
        let Self {
            publication: _,
            right: _,
        } = self;
    }
}

impl Side {
    /// The copy with this publication.
    pub(crate) fn new<N: LiveName>(publication: Publication, right: Right<N>) -> Side
        ensures publication { result.publication ≡ publication }
        ensures right { result.right.book ≡ N.opening.book.written_in }
    {
        let Right { word, of: _ } = right;
        Side {
            publication,
            right: word,
        }
    }

    /// The publication.
    pub fn publication(&self) -> &Publication
        ensures { result.now ≡ self.now.publication }
    {
        &self.publication
    }
}

/// An operation is the whole next publication. The two copies have in common what was seen, and so what they stand for, the
/// configuration, and whose rights they have.
impl Absorb<Publication> for Side {
    type State = (RawPrefix, Config, Anchor);

    ghost use Rattle.kv_publish.specs.Publications.{common_of, common_after};

    ghost state = { λ s. common_of s.right s.publication };

    ghost applied = { λ before next. common_after before next };

    fn absorb_first(&mut self, next: &Publication, _other: &Side) -> Result<(), AllocError> {
        match next.try_clone() {
            Ok(next) => {
                self.publication = next;
                Ok(())
            }
            Err(_) => Err(AllocError),
        }
    }

    fn absorb_second(&mut self, next: Publication, _other: &Side) -> Result<(), Publication> {
        self.publication = next;
        Ok(())
    }
}
