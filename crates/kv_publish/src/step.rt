//! A step of a history: the acts that were published in one.

ghost use Rattle.std.specs.Prelude.{◌≡◌, ◌≤◌, ◌+◌, ◌++◌, true, false, length, take};
ghost use Rattle.kv_model.specs.Acts.{IsPrefix};
ghost use Rattle.kv_publish.specs.Beginnings.{counted};
ghost use Rattle.kv_publish.specs.Rules.{IsStepFrom, IsWhole, acts_in};

use crate::prefix::{Prefix, RawPrefix};
use crate::protocol::LiveName;
use crate::witness::Witness;
use std::marker::{Model, PhantomData};

/// The last step of a beginning of the history of N. Contracts see the acts before it, and those with it. Nobody sees the
/// history between them.
#[derive(Drop)]
pub struct Step<N: LiveName> {
    /// How many acts were added before it.
    before: u64,
    /// How far the history is with it.
    acts: u64,
    witness: Witness,
    of: PhantomData<N>,
}

impl<N: LiveName> Model for Step<N> {
    ghost use Rattle.std.specs.Prelude.{◌≡◌, ◌≤◌, ◌+◌, ◌++◌, length, take};
    ghost use Rattle.kv_publish.specs.Beginnings.{counted};
    ghost use Rattle.kv_publish.specs.Rules.{IsStepFrom, IsWhole, acts_in};
    ghost use Rattle.kv_publish.specs.Steps.{JournalStep};

    ghost Value = { JournalStep };

    ghost view = { λ s. record {
      before = s.witness.book.began ++ take s.before (acts_in s.witness.log);
      acts = s.witness.book.began ++ acts_in s.witness.log;
    } };

    ghost invariant = { λ s. (s.acts ≡ counted s.witness.book.began + length s.witness.log) × (s.witness.book ≡ N.opening.book) ×
        IsWhole s.witness.log × IsStepFrom s.before s.witness.log × (s.before ≤ length s.witness.log) };
}

impl<N: LiveName> Step<N> {
    pub(crate) fn new(before: u64, acts: u64, witness: Witness) -> Step<N>
        requires book { witness.book ≡ N.opening.book }
        requires acts { (acts ≡ counted witness.book.began + length witness.log) × (before ≤ length witness.log) }
        requires step { IsWhole witness.log × IsStepFrom before witness.log }
        ensures { result ≡ record {
          before = witness.book.began ++ take before (acts_in witness.log);
          acts = witness.book.began ++ acts_in witness.log;
        } }
    {
        Step {
            before,
            acts,
            witness,
            of: PhantomData,
        }
    }

    /// The history up to the step, and with it.
    pub fn prefix(&self) -> Prefix<N>
        ensures { result ≡ self.now.acts }
    {
        Prefix::of(&RawPrefix::new(self.acts, self.witness.again()))
    }

    /// Whether a beginning of the history has the step. It has all of it, or nothing of it.
    pub fn is_in(&self, prefix: &Prefix<N>) -> bool
        ensures yes { result ≡ true → IsPrefix self.now.acts prefix.now }
        ensures no { result ≡ false → IsPrefix prefix.now self.now.before }
    {
        prefix
            .raw_prefix()
            .has_step(&self.witness, self.before, self.acts)
    }
}
