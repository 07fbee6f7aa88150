//! The history, with the one right to add to it.

ghost use Rattle.std.specs.Prelude.{◌≡◌, ◌≤◌, ◌<◌, ◌^◌, ◌+◌, ◌++◌, ◌∷◌, [], true, false, length};
ghost use Rattle.logbook.specs.Pages.{nib, may_write};
ghost use Rattle.kv_model.specs.Acts.{IsPrefix};
ghost use Rattle.kv_publish.specs.Beginnings.{count_of, counted};
ghost use Rattle.kv_publish.specs.Rules.{IsSide, IsStepFrom, IsWhole, acts_in, head_of};
ghost use Rattle.kv_publish.specs.Steps.{acts_from, step_of};

use crate::ghost_act::GhostAct;
use crate::prefix::{Prefix, RawPrefix};
use crate::protocol::{Anchor, Began, Empty, LiveName, NoActs, SeenLog};
use crate::raw_journal::RawJournal;
use crate::side::Right;
use crate::step::Step;
use crate::witness::Witness;
use kv_model::Request;
use logbook::{Pen, Start};
use std::marker::Model;

/// A history to which nothing was added, and which has no name yet.
#[derive(Drop)]
pub struct FreshJournal {
    base: u64,
    head: Anchor,
    first: Anchor,
    second: Anchor,
    pen: Pen,
    pub witness: Witness,
    pub ghost empty: { witness.log ≡ [] },
    ghost counts: { (base ≡ counted witness.book.began) × (base ≤ 1) },
    ghost head_is: { head ≡ head_of witness.book.written_in },
    ghost sides: { IsSide witness.book.written_in first × IsSide witness.book.written_in second },
    ghost right: { (pen.book ≡ witness.book.written_in) × (pen.nib ≡ nib may_write witness.book.first 0) },
}

impl FreshJournal {
    /// A history that begins with no act, which is told from any other by its log and by the first right to add to it.
    pub fn new() -> FreshJournal
        ensures { result.witness.book.began ≡ [] }
    {
        FreshJournal::after::<NoActs>(0)
    }

    /// A history that begins with these acts. They count as so much: one, where there are any.
    pub fn after<B: Began>(base: u64) -> FreshJournal
        requires { base ≡ counted B.acts }
        ensures { result.witness.book.began ≡ B.acts }
    {
        let (seen, mut pens) = SeenLog::open_row::<(), Empty>(&(), Start::alone(), 3);
        let mut for_head = pens.take();
        let mut for_first = pens.take();
        let mut for_second = pens.take();
        let head = Anchor::tracked(0, &mut for_head);
        let first = Anchor::tracked(0, &mut for_first);
        let second = Anchor::tracked(0, &mut for_second);
        let (witness, pen) = Witness::begin::<B>(seen, &head);
        FreshJournal {
            base,
            head,
            first,
            second,
            pen,
            witness,
        }
    }

    /// The history under a name, with what it begins with, and the rights of the two copies.
    pub fn named<N: LiveName>(self) -> (Journal<N>, Right<N>, Right<N>)
        requires { self.witness.book ≡ N.opening.book }
        ensures { result.0 ≡ N.opening.book.began }
    {
        let FreshJournal {
            base,
            head,
            first,
            second,
            pen,
            witness,
        } = self;
        let journal = Journal {
            raw: RawJournal::new(witness, head, pen, base),
        };
        (journal, Right::new(first), Right::new(second))
    }
}

/// The history of N, with the one right to add to it. So it is known whole: nothing is in it that is not here. It lies
/// under the lock. It grows by steps: of one act, or of several that are published in one. Contracts see it as its acts.
#[derive(Drop)]
pub struct Journal<N: LiveName> {
    raw: RawJournal<N>,
}

impl<N: LiveName> Model for Journal<N> {
    ghost use Rattle.std.specs.Prelude.{◌++◌, List};
    ghost use Rattle.kv_model.specs.Acts.{Act};
    ghost use Rattle.kv_publish.specs.Rules.{IsWhole, acts_in};

    ghost Value = { List Act };

    ghost view = { λ w. N.opening.book.began ++ acts_in w.raw };

    ghost invariant = { λ w. IsWhole w.raw };
}

// Adds the writes for these requests, the first with this revision, to a history that so many acts were in: the last of
// them ends the step.
fn add_writes<N: LiveName>(raw: &mut RawJournal<N>, requests: &[Request], revision: u64)
    requires whole { IsWhole raw.old }
    requires room { length raw.old < 2 ^ 62 }
    requires small { revision < 2 ^ 32 }
    ensures added { acts_in raw.new ≡ acts_in raw.old ++ acts_from revision requests.now }
    ensures whole { IsWhole raw.new }
    ensures step { IsStepFrom (length raw.old) raw.new }
{
    let mut at: usize = 0;
    for request in requests {
        let ghost_act = GhostAct::wrote(request, revision + at as u64);
        at += 1;
        raw.add(ghost_act, at == requests.len());
    }
}

impl<N: LiveName> Journal<N> {
    /// How far it is.
    pub fn len(&self) -> u64
        ensures { result ≡ count_of N.opening.book.began self.now }
    {
        self.raw.len()
    }

    /// What is in it by now.
    pub fn prefix(&self) -> Prefix<N>
        ensures { result ≡ self.now }
    {
        Prefix::of(&self.raw_prefix())
    }

    /// The same, which doesn't name the history.
    pub fn raw_prefix(&self) -> RawPrefix
        ensures { (result.acts ≡ self.now) × (result.book ≡ N.opening.book) }
    {
        RawPrefix::new(self.raw.len(), self.raw.witness())
    }

    /// Nothing of it, which doesn't name it either.
    pub fn nothing(&self) -> RawPrefix
        ensures { (result.acts ≡ []) × (result.book ≡ N.opening.book) }
    {
        RawPrefix::nothing(self.raw.witness())
    }

    /// Adds an act, which is a step. It always does: nobody else has the right to.
    pub fn add(&mut self, ghost_act: GhostAct)
        requires { count_of N.opening.book.began self.old < 2 ^ 62 }
        ensures { self.new ≡ self.old ++ ghost_act ∷ [] }
    {
        self.raw.add(ghost_act, true);
    }

    /// Adds the writes for these requests in one step, the first with this revision and the others with those from there
    /// on. What anybody sees of the history has all of them or none.
    pub fn add_all(&mut self, requests: &[Request], revision: u64) -> Step<N>
        requires room { count_of N.opening.book.began self.old < 2 ^ 62 }
        requires small { revision < 2 ^ 32 }
        ensures added { self.new ≡ self.old ++ acts_from revision requests.now }
        ensures step { result ≡ step_of self.old self.new }
    {
        let before = self.raw.entries();
        add_writes(&mut self.raw, requests, revision);
        Step::new(before, self.raw.len(), self.raw.witness())
    }

    /// The step of no act, behind all that is in it.
    pub fn no_step(&self) -> Step<N>
        ensures { result ≡ step_of self.now self.now }
    {
        Step::new(self.raw.entries(), self.raw.len(), self.raw.witness())
    }

    /// Whether all of it was seen. What was seen of it is always a beginning of it.
    pub fn is_seen(&mut self, prefix: &Prefix<N>) -> bool
        ensures same { self.new ≡ self.old }
        ensures within { IsPrefix prefix.now self.old }
        ensures yes { result ≡ true → prefix.now ≡ self.old }
        ensures no { result ≡ false → length prefix.now < length self.old }
    {
        self.raw.is_seen(prefix)
    }
}
