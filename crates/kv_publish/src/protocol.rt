//! The log that has the history of an opening: the acts that are published, in order. It exists in proofs alone, beside a
//! word on which its steps are made.

use crate::entry::Entry;
use crate::ghost_act::GhostAct;
use logbook::{Gain, Opening, Pen, Plain, Play, Rule, Seen, Word};
use std::marker::{Brand, PhantomData};
use std::snapshot::Snapshot;

/// The rule of the log.
pub struct Noted;

impl Rule<Entry, u64> for Noted {
    ghost use Rattle.std.specs.Prelude.{[]};
    ghost use base.Fml.{ftrue};
    ghost use Rattle.kv_publish.specs.Rules.{IsKept};

    ghost holds = { λ cells log. IsKept cells log };

    ghost first = { [] };

    ghost hinted = { λ n log. Unit {0} };

    ghost shows = { λ log. [] };

    ghost keeps = { λ names log. ftrue };

    ghost moves = { λ ask before after answer. Unit {0} };
}

/// A log begins with nothing.
pub struct Empty;

impl Opening<(), Entry> for Empty {
    ghost use Rattle.std.specs.Prelude.{[]};

    ghost log = { λ count about. [] };
}

/// Stands for the acts that a bucket has when it is opened.
///
/// A function generic over it is called with std's `Brand`.
pub trait Began {
    ghost use Rattle.std.specs.Prelude.{List};
    ghost use Rattle.kv_model.specs.Acts.{Act};

    ghost acts: { List Act };
}

impl Began for Brand {
    ghost use Rattle.std.specs.Prelude.{[]};

    ghost acts = { [] };
}

/// A new bucket has none.
pub struct NoActs;

impl Began for NoActs {
    ghost use Rattle.std.specs.Prelude.{[]};

    ghost acts = { [] };
}

/// The log that tells the first right of a history, and the acts that it begins with. It ends with them.
pub struct Titled<B: Began> {
    of: PhantomData<B>,
}

impl<B: Began> Opening<Pen, Entry> for Titled<B> {
    ghost use Rattle.kv_publish.specs.Beginnings.{title_of};

    ghost log = { λ count pen. title_of pen.nib.key B.acts };
}

/// Callers trade nothing.
pub struct Nothing;

impl Gain<Entry, u64> for Nothing {
    ghost use base.Fml.{ftrue};

    ghost after = { λ names about answer. ftrue };
}

/// A step that makes a right to add an entry later, and adds nothing.
pub struct Makes;

impl Play<Entry, u64> for Makes {
    ghost use Rattle.kv_publish.specs.Rules.{Making};

    ghost then = { Making };
}

/// It asks for nothing.
impl Plain<(), Entry, u64> for Makes {
    ghost use Rattle.std.specs.Prelude.{None};
    ghost use Rattle.kv_publish.specs.Rules.{no_entry};

    ghost ask = { λ about. no_entry };

    ghost state = { λ about. None };
}

/// An act, whether it ends a step, by which right it is added, and the right to add the next one.
#[derive(Drop)]
pub struct Claim {
    pub ghost_act: GhostAct,
    pub ends: bool,
    pub right: Snapshot<Pen>,
    pub next: Pen,
}

/// A step that adds an act, by the right to add the next one.
pub struct Adds;

impl Play<Entry, u64> for Adds {
    ghost use Rattle.kv_publish.specs.Rules.{Adding};

    ghost then = { Adding };
}

/// What it asks for: the act, which right it is added by, and which one is the next.
impl Plain<Claim, Entry, u64> for Adds {
    ghost use Rattle.std.specs.Prelude.{None};
    ghost use Rattle.kv_publish.specs.Rules.{entry};

    ghost ask = { λ claim. entry claim.ghost_act claim.ends claim.right.value.nib.key claim.next.nib.key };

    ghost state = { λ claim. None };
}

/// A step of who has the right to add the next entry, who learns that there is none yet.
pub struct Looks;

impl Play<Entry, u64> for Looks {
    ghost use Rattle.kv_publish.specs.Rules.{Looking};

    ghost then = { Looking };
}

/// It asks for nothing.
impl Plain<(), Entry, u64> for Looks {
    ghost use Rattle.std.specs.Prelude.{None};
    ghost use Rattle.kv_publish.specs.Rules.{no_entry};

    ghost ask = { λ about. no_entry };

    ghost state = { λ about. None };
}

/// Says what is known of acts.
///
/// A function generic over it is called with std's `Brand`.
pub trait Known {
    ghost use Rattle.std.specs.Prelude.{List};
    ghost use Rattle.kv_model.specs.Acts.{Act};

    ghost holds: { List Act → Type 0 };
}

impl Known for Brand {
    ghost holds = { λ acts. Unit {0} };
}

/// A step that adds acts of which something is known, all at once.
pub struct Chooses<M: Known> {
    of: PhantomData<M>,
}

impl<M: Known> Play<Entry, u64> for Chooses<M> {
    ghost use Rattle.kv_publish.specs.Rules.{Choosing};

    ghost then = { Choosing M.holds };
}

/// It asks for nothing.
impl<M: Known> Plain<(), Entry, u64> for Chooses<M> {
    ghost use Rattle.std.specs.Prelude.{None};
    ghost use Rattle.kv_publish.specs.Rules.{no_entry};

    ghost ask = { λ about. no_entry };

    ghost state = { λ about. None };
}

/// Stands for one opening of a bucket, which is its history and its configuration. What has one name has one published
/// list.
///
/// A function generic over it is called with std's `Brand`.
pub trait LiveName {
    ghost use Rattle.kv_publish.specs.Openings.{Opening};

    ghost opening: { Opening };
}

impl LiveName for Brand {
    ghost use Rattle.std.specs.Prelude.{[]};

    ghost opening = { record {
      book = record { written_in = record { number = 0; log_name = 0; cells_name = 0 }; first = 0; began = [] };
      config = record { bucket = []; history = 1; value_limit = 0; write_limit = 1; revision_limit = 1 };
    } };
}

/// What was seen of a log. It has no bytes.
pub type SeenLog = Seen<Entry, u64, Noted>;

/// A word of the log. What it holds says nothing when the program runs. The first is there for steps to be made on,
/// and each of the two others is the right to be one of the two copies of what is published.
pub type Anchor = Word<Entry, u64, Noted>;
