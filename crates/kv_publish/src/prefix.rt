//! A beginning of a history that was seen.

ghost use Rattle.std.specs.Prelude.{◌≡◌, ◌≤◌, ◌+◌, ◌++◌, ◌⊎◌, [], true, false, length, take};
ghost use Rattle.kv_model.specs.Acts.{IsPrefix};
ghost use Rattle.kv_publish.specs.Beginnings.{IsFrom, count_of, counted};
ghost use Rattle.kv_publish.specs.Rules.{IsStepFrom, IsWhole, acts_in};

use crate::protocol::LiveName;
use crate::witness::Witness;
use std::marker::{Model, PhantomData};

/// A beginning of some history that ends with a step, with how far it is. Contracts see its acts, and which history it is of.
/// It has nothing, or all that the history began with, and what was added up to there.
#[derive(Drop)]
pub struct RawPrefix {
    acts: u64,
    witness: Witness,
}

impl Model for RawPrefix {
    ghost use Rattle.kv_publish.specs.Beginnings.{IsSoFar, seen_of};
    ghost use Rattle.kv_publish.specs.Rules.{IsWhole};
    ghost use Rattle.kv_publish.specs.Prefixes.{JournalPrefix};

    ghost Value = { JournalPrefix };

    ghost view = { λ g. record {
      acts = seen_of g.acts g.witness.book.began g.witness.log;
      book = g.witness.book;
    } };

    ghost invariant = { λ g. IsSoFar g.acts g.witness.book.began g.witness.log × IsWhole g.witness.log };
}

impl RawPrefix {
    pub(crate) fn new(acts: u64, witness: Witness) -> RawPrefix
        requires acts { acts ≡ counted witness.book.began + length witness.log }
        requires whole { IsWhole witness.log }
        ensures { (result.acts ≡ witness.book.began ++ acts_in witness.log) × (result.book ≡ witness.book) }
    {
        RawPrefix { acts, witness }
    }

    /// Nothing of a history.
    pub(crate) fn nothing(witness: Witness) -> RawPrefix
        requires { IsWhole witness.log }
        ensures { (result.acts ≡ []) × (result.book ≡ witness.book) }
    {
        RawPrefix { acts: 0, witness }
    }

    /// How far it is.
    pub fn len(&self) -> u64
        ensures value { result ≡ count_of self.now.book.began self.now.acts }
        ensures begins { IsFrom self.now.book.began self.now.acts }
    {
        self.acts
    }

    /// A copy.
    pub fn copy(&self) -> RawPrefix
        ensures { result ≡ self.now }
    {
        RawPrefix {
            acts: self.acts,
            witness: self.witness.again(),
        }
    }

    // What this and that witness have seen together.
    pub(crate) fn with(&self, witness: &Witness) -> Witness
        requires { witness.now.book ≡ self.now.book }
        ensures book { result.book ≡ witness.now.book }
        ensures that { IsPrefix witness.now.log result.log }
        ensures this { IsPrefix self.now.acts (result.book.began ++ acts_in result.log) }
    {
        let mut both = witness.again();
        both.learn(&self.witness);
        both
    }

    // Whether it is as far as the other one of the same history, or farther.
    fn covers(&self, other: &RawPrefix) -> bool
        requires { other.now.book ≡ self.now.book }
        ensures yes { result ≡ true → IsPrefix other.now.acts self.now.acts }
        ensures no { result ≡ false → IsPrefix self.now.acts other.now.acts }
    {
        let mut both = self.witness.again();
        both.learn(&other.witness);
        other.acts <= self.acts
    }

    // Whether it has the last step of a beginning of the same history, which so many added acts are before. It has all of it
    // or nothing.
    pub(crate) fn has_step(&self, step: &Witness, before: u64, acts: u64) -> bool
        requires book { step.now.book ≡ self.now.book }
        requires acts { (acts ≡ counted step.now.book.began + length step.now.log) × (before ≤ length step.now.log) }
        requires step { IsStepFrom before step.now.log }
        ensures yes { result ≡ true → IsPrefix (step.now.book.began ++ acts_in step.now.log) self.now.acts }
        ensures no { result ≡ false → IsPrefix self.now.acts (step.now.book.began ++ take before (acts_in step.now.log)) }
    {
        let mut both = self.witness.again();
        both.learn(step);
        acts <= self.acts
    }
}

/// A beginning of the history of N. Contracts see it as its acts.
#[derive(Drop)]
pub struct Prefix<N: LiveName> {
    raw_prefix: RawPrefix,
    of: PhantomData<N>,
}

impl<N: LiveName> Model for Prefix<N> {
    ghost use Rattle.std.specs.Prelude.{◌≡◌, List};
    ghost use Rattle.kv_model.specs.Acts.{Act};

    ghost Value = { List Act };

    ghost view = { λ f. f.raw_prefix.acts };

    ghost invariant = { λ f. f.raw_prefix.book ≡ N.opening.book };
}

impl<N: LiveName> Prefix<N> {
    /// What was seen of the history of N.
    pub fn of(raw_prefix: &RawPrefix) -> Prefix<N>
        requires { raw_prefix.now.book ≡ N.opening.book }
        ensures { result ≡ raw_prefix.now.acts }
    {
        Prefix {
            raw_prefix: raw_prefix.copy(),
            of: PhantomData,
        }
    }

    /// How far it has seen.
    pub fn len(&self) -> u64
        ensures value { result ≡ count_of N.opening.book.began self.now }
        ensures begins { IsFrom N.opening.book.began self.now }
    {
        self.raw_prefix.len()
    }

    /// A copy.
    pub fn copy(&self) -> Prefix<N>
        ensures { result ≡ self.now }
    {
        Prefix {
            raw_prefix: self.raw_prefix.copy(),
            of: PhantomData,
        }
    }

    /// What was seen.
    pub(crate) fn raw_prefix(&self) -> &RawPrefix
        ensures { (result.now.acts ≡ self.now) × (result.now.book ≡ N.opening.book) }
    {
        &self.raw_prefix
    }

    /// Whether this prefix is as long as the other one, or longer. Of two prefixes the shorter begins the longer.
    pub fn covers(&self, other: &Prefix<N>) -> bool
        ensures yes { result ≡ true → IsPrefix other.now self.now }
        ensures no { result ≡ false → IsPrefix self.now other.now }
    {
        self.raw_prefix.covers(&other.raw_prefix)
    }

    /// The longer of two prefixes.
    pub fn longer(&self, other: &Prefix<N>) -> Prefix<N>
        ensures one { (result ≡ self.now) ⊎ (result ≡ other.now) }
        ensures this { IsPrefix self.now result }
        ensures that { IsPrefix other.now result }
    {
        if self.covers(other) {
            self.copy()
        } else {
            other.copy()
        }
    }
}
