//! The rule of what is published: it is of one opening, and has one of its two rights.

use crate::protocol::LiveName;
use crate::side::Side;
use crossbeam_utils::rule::{Outcome, Protocol};
use std::marker::PhantomData;

/// What is published is of the history of N, under the configuration of N. Threads know nothing of it but what they
/// keep themselves.
pub struct PublishRule<N: LiveName> {
    of: PhantomData<N>,
}

impl<N: LiveName> Protocol<Side, ()> for PublishRule<N> {
    ghost use Rattle.std.specs.Prelude.{◌≡◌};
    ghost use Rattle.kv_publish.specs.Publications.{IsOf};

    ghost holds = { λ side views. IsOf N.opening side.publication × (side.right.book ≡ N.opening.book.written_in) };

    ghost first = { tt };
}

/// A step of a reader, which gets what is published.
pub struct Gets<N: LiveName> {
    of: PhantomData<N>,
}

impl<N: LiveName> Outcome<Side, ()> for Gets<N> {
    ghost use Rattle.kv_publish.specs.Publications.{IsOf};

    ghost then = { λ v x y w. IsOf N.opening y.publication };
}

/// A step of the writer, which tells it nothing.
pub struct Shows;

impl Outcome<Side, ()> for Shows {
    ghost use Rattle.std.specs.Prelude.{⊤};

    ghost then = { λ v x y w. ⊤ };
}
