//! The entries of a history, with the one right to add to it.

ghost use Rattle.std.specs.Prelude.{◌≡◌, ◌<◌, ◌≤◌, ◌^◌, ◌+◌, ◌++◌, ◌∷◌, [], ℕ, true, false, length};
ghost use Rattle.logbook.specs.Pages.{nib, may_write};
ghost use Rattle.kv_model.specs.Acts.{IsPrefix};
ghost use Rattle.kv_publish.specs.Beginnings.{counted};
ghost use Rattle.kv_publish.specs.Rules.{acts_in, entry, head_of};

use crate::ghost_act::GhostAct;
use crate::prefix::Prefix;
use crate::protocol::{Anchor, LiveName};
use crate::witness::Witness;
use logbook::Pen;
use std::marker::{Model, PhantomData};

/// The entries of the history of N, with the one right to add to it. So it is known whole: nothing is in it that is not
/// here. Contracts see it as its entries.
#[derive(Drop)]
pub(crate) struct RawJournal<N: LiveName> {
    /// What the acts count as that the history began with.
    base: u64,
    acts: u64,
    witness: Witness,
    head: Anchor,
    pen: Pen,
    of: PhantomData<N>,
}

impl<N: LiveName> Model for RawJournal<N> {
    ghost use Rattle.std.specs.Prelude.{◌≡◌, ◌≤◌, ◌+◌, List, length};
    ghost use Rattle.logbook.specs.Pages.{nib, may_write};
    ghost use Rattle.kv_publish.specs.Beginnings.{counted};
    ghost use Rattle.kv_publish.specs.Rules.{head_of, right_behind};
    ghost use Rattle.kv_publish.specs.declared.entry.Entry.{Entry};

    ghost Value = { List Entry };

    ghost view = { λ w. w.witness.log };

    ghost invariant = { λ w. (w.acts ≡ w.base + length w.witness.log) × (w.witness.book ≡ N.opening.book) ×
        (w.head ≡ head_of N.opening.book.written_in) × (w.pen.book ≡ N.opening.book.written_in) ×
        (w.pen.nib ≡ nib may_write (right_behind N.opening.book.first w.witness.log) 0) ×
        (w.base ≡ counted N.opening.book.began) × (w.base ≤ 1) };
}

impl<N: LiveName> RawJournal<N> {
    /// An empty one, with the first right to add to it, and what the acts count as that the history began with.
    pub fn new(witness: Witness, head: Anchor, pen: Pen, base: u64) -> RawJournal<N>
        requires empty { (witness.log ≡ []) × (witness.book ≡ N.opening.book) }
        requires head { head ≡ head_of N.opening.book.written_in }
        requires right { (pen.book ≡ N.opening.book.written_in) × (pen.nib ≡ nib may_write N.opening.book.first 0) }
        requires base { (base ≡ counted N.opening.book.began) × (base ≤ 1) }
        ensures { result ≡ [] }
    {
        RawJournal {
            base,
            acts: base,
            witness,
            head,
            pen,
            of: PhantomData,
        }
    }

    /// How far it is: how many entries it has, and what the acts count as that the history began with.
    pub fn len(&self) -> u64
        ensures { result ≡ counted N.opening.book.began + length self.now }
    {
        self.acts
    }

    /// How many entries it has.
    pub fn entries(&self) -> u64
        ensures { result ≡ length self.now }
    {
        self.acts - self.base
    }

    /// What was seen of it, which is all.
    pub fn witness(&self) -> Witness
        ensures { (result.log ≡ self.now) × (result.book ≡ N.opening.book) }
    {
        self.witness.again()
    }

    /// Adds an act, which ends a step or doesn't. It always does: nobody else has the right to.
    pub fn add(&mut self, ghost_act: GhostAct, ends: bool)
        requires { length self.old < 2 ^ 63 }
        ensures { (right next : ℕ) × (self.new ≡ self.old ++ entry ghost_act ends right next ∷ []) }
    {
        let pen = self.witness.add(&self.head, ghost_act, ends, &mut self.pen);
        self.pen = pen;
        self.acts += 1;
    }

    /// Whether all of it was seen. What was seen of it is always a beginning of it.
    pub fn is_seen(&mut self, prefix: &Prefix<N>) -> bool
        ensures same { self.new ≡ self.old }
        ensures within { IsPrefix prefix.now (N.opening.book.began ++ acts_in self.old) }
        ensures yes { result ≡ true → prefix.now ≡ N.opening.book.began ++ acts_in self.old }
        ensures no { result ≡ false → length prefix.now < length (N.opening.book.began ++ acts_in self.old) }
    {
        let mut both = prefix.raw_prefix().with(&self.witness);
        both.look(&self.head, &mut self.pen);
        prefix.len() == self.acts
    }
}
