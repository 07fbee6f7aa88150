//! What was seen of a history, and the steps that are made on it.

ghost use Rattle.std.specs.Prelude.{◌≡◌, ◌++◌, ◌∷◌, [], ℕ, List};
ghost use Rattle.logbook.specs.Pages.{nib, may_write};
ghost use Rattle.kv_model.specs.Acts.{Act, IsPrefix};
ghost use Rattle.kv_publish.specs.Rules.{acts_in, entry, head_of, history_from, right_behind};
ghost use Rattle.kv_publish.specs.declared.entry.Entry.{Entry};

use crate::entry::Entry;
use crate::ghost_act::GhostAct;
use crate::protocol::{
    Adds, Anchor, Began, Chooses, Claim, Known, Looks, Makes, Noted, Nothing, SeenLog, Titled,
};
use logbook::{Offer, Pen, Start};
use std::marker::Model;
use std::snapshot::Snapshot;

/// What was seen of a history that has no name yet. It has no bytes. A history is what was added to a log by a first
/// right and by those that followed it, each of which is used once. Contracts see its entries, and which history it is.
#[derive(Drop)]
pub struct Witness {
    seen: SeenLog,
    /// A log that tells the first right, and the acts that the history began with. It can be copied.
    title: SeenLog,
}

impl Model for Witness {
    ghost use Rattle.kv_publish.specs.Beginnings.{began_in, first_in};
    ghost use Rattle.kv_publish.specs.Rules.{history_from};
    ghost use Rattle.kv_publish.specs.Witnesses.{Witnessed};

    ghost Value = { Witnessed };

    ghost view = { λ w. record {
      log = history_from (first_in w.title.log) w.seen.log;
      book = record { written_in = w.seen.book; first = first_in w.title.log; began = began_in w.title.log };
    } };
}

// A right to add an entry, by which none was added yet.
fn make_right(head: &Anchor, seen: &mut SeenLog) -> Pen
    requires { head.now ≡ head_of seen.old.book }
    ensures book { (seen.new.book ≡ seen.old.book) × (result.book ≡ seen.old.book) }
    ensures right { result.nib ≡ nib may_write result.nib.key 0 }
    ensures unused { history_from result.nib.key seen.new.log ≡ [] }
{
    let mut offer: Offer<Entry, u64, Noted, Nothing> = seen.plain::<Nothing, (), Makes>(&());
    let mut pen = seen.no_pen();
    head.compare_exchange::<Makes, Nothing>(0, 0, seen, &mut offer, &mut pen);
    drop(Anchor::tracked(0, &mut pen));
    pen
}

impl Witness {
    /// Of a history that begins with acts and without entries in the log that was seen, and the first right to add to it.
    pub(crate) fn begin<B: Began>(seen: SeenLog, head: &Anchor) -> (Witness, Pen)
        requires { head.now ≡ head_of seen.book }
        ensures empty { result.0.log ≡ [] }
        ensures book { (result.0.book.written_in ≡ seen.book) × (result.1.book ≡ seen.book) }
        ensures began { result.0.book.began ≡ B.acts }
        ensures right { result.1.nib ≡ nib may_write result.0.book.first 0 }
    {
        let mut seen = seen;
        let pen = make_right(head, &mut seen);
        let (title, _) = SeenLog::open_row::<Pen, Titled<B>>(&pen, Start::alone(), 1);
        (Witness { seen, title }, pen)
    }

    /// A copy.
    pub(crate) fn again(&self) -> Witness
        ensures { result ≡ self.now }
    {
        Witness {
            seen: self.seen.again(),
            title: self.title.again(),
        }
    }

    /// Afterwards it knows what both knew.
    pub(crate) fn learn(&mut self, other: &Witness)
        requires { other.now.book ≡ self.old.book }
        ensures book { self.new.book ≡ self.old.book }
        ensures this { IsPrefix self.old.log self.new.log }
        ensures that { IsPrefix other.now.log self.new.log }
    {
        self.seen.learn(&other.seen);
    }

    /// Adds an entry by the right to do so, and hands out the right to add the next one. It always does: nobody else has
    /// the right to.
    pub(crate) fn add(
        &mut self,
        head: &Anchor,
        ghost_act: GhostAct,
        ends: bool,
        pen: &mut Pen,
    ) -> Pen
        requires head { head.now ≡ head_of self.old.book.written_in }
        requires right { (pen.old.book ≡ self.old.book.written_in)
            × (pen.old.nib ≡ nib may_write (right_behind self.old.book.first self.old.log) 0) }
        ensures book { (self.new.book ≡ self.old.book) × (result.book ≡ self.old.book.written_in) }
        ensures added { (right next : ℕ) × (self.new.log ≡ self.old.log ++ entry ghost_act ends right next ∷ []) }
        ensures right { result.nib ≡ nib may_write (right_behind self.new.book.first self.new.log) 0 }
    {
        let right = Snapshot::of(&*pen);
        let next = make_right(head, &mut self.seen.again());
        let claim = Claim {
            ghost_act,
            ends,
            right,
            next,
        };
        let mut offer: Offer<Entry, u64, Noted, Nothing> = self
            .seen
            .plain::<Nothing, Claim, Adds>(&claim);
        head.compare_exchange::<Adds, Nothing>(0, 0, &mut self.seen, &mut offer, pen);
        let Claim {
            ghost_act: _,
            ends: _,
            right: _,
            next,
        } = claim;
        next
    }

    /// Adds acts of which this is known, by a right by which nothing was added: there are such acts.
    pub(crate) fn choose<M: Known>(&mut self, head: &Anchor, pen: &mut Pen)
        requires head { head.now ≡ head_of self.old.book.written_in }
        requires right { (pen.old.book ≡ self.old.book.written_in) × (pen.old.nib ≡ nib may_write self.old.book.first 0) }
        requires some { (acts : List Act) × M.holds acts }
        ensures { M.holds (acts_in self.new.log) }
    {
        let mut offer: Offer<Entry, u64, Noted, Nothing> = self
            .seen
            .plain::<Nothing, (), Chooses<M>>(&());
        head.compare_exchange::<Chooses<M>, Nothing>(0, 0, &mut self.seen, &mut offer, pen);
    }

    /// A look of who has the right to add behind some entries that were seen: they are all that there are.
    pub(crate) fn look(&mut self, head: &Anchor, pen: &mut Pen)
        requires { (head.now ≡ head_of self.old.book.written_in) × (pen.old.book ≡ self.old.book.written_in) }
        ensures book { self.new.book ≡ self.old.book }
        ensures pen { (pen.new.book ≡ pen.old.book) × (pen.new.nib ≡ pen.old.nib) }
        ensures longer { IsPrefix self.old.log self.new.log }
        ensures all { (all : List Entry) → IsPrefix all self.old.log →
            pen.old.nib ≡ nib may_write (right_behind self.old.book.first all) 0 → self.new.log ≡ all }
    {
        let mut offer: Offer<Entry, u64, Noted, Nothing> = self
            .seen
            .plain::<Nothing, (), Looks>(&());
        head.compare_exchange::<Looks, Nothing>(0, 0, &mut self.seen, &mut offer, pen);
    }
}
