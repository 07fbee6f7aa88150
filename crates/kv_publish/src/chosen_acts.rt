//! Acts as a value that proofs see.

ghost use Rattle.std.specs.Prelude.{List};
ghost use Rattle.kv_model.specs.Acts.{Act};

use crate::protocol::{Anchor, Empty, Known, NoActs, SeenLog};
use crate::witness::Witness;
use logbook::Start;
use std::marker::Model;

/// Acts that proofs see, without bytes. An opening that goes on from acts is named by them (`Began`).
#[derive(Drop)]
pub struct ChosenActs {
    witness: Witness,
}

impl Model for ChosenActs {
    ghost use Rattle.std.specs.Prelude.{List};
    ghost use Rattle.kv_model.specs.Acts.{Act};
    ghost use Rattle.kv_publish.specs.Rules.{acts_in};

    ghost Value = { List Act };

    ghost view = { λ c. acts_in c.witness.log };
}

impl ChosenActs {
    /// Acts of which this is known, where there are some. What is known may speak of the value beside.
    pub fn of<M: Known, X>(about: &X) -> ChosenActs
        requires { (acts : List Act) × M.holds acts }
        ensures { M.holds result }
    {
        let (seen, mut pens) = SeenLog::open_row::<(), Empty>(&(), Start::alone(), 1);
        let mut for_head = pens.take();
        let head = Anchor::tracked(0, &mut for_head);
        let (mut witness, mut pen) = Witness::begin::<NoActs>(seen, &head);
        witness.choose::<M>(&head, &mut pen);
        ChosenActs { witness }
    }
}
