//! Refusals.

ghost use Rattle.std.specs.Prelude.{◌≡◌, ◌++◌, OnOk, OnErr};
ghost use Rattle.serde_json.specs.Data.{Members, object};
ghost use Rattle.serde_json.specs.Written.{compact_text};
ghost use Rattle.kv_script.specs.inside.Fields.{detail_fields, optional_field, told_fields};
ghost use Rattle.kv_script.specs.Line.{line};
ghost use Rattle.kv_script.specs.Text.{batch_refusal_text, refusal_text, worker_refusal_text};

use crate::answering::field::{Field, append_object};
use kv_keys::KvError;
use std::alloc::{AllocError, Global};

// The number that a refusal carries, if it carries one, and its name.
fn carried(error: KvError) -> (&'static str, Option<u64>)
    ensures { (more : Members) → optional_field result.0.now result.1 more ≡ detail_fields error more }
{
    match error {
        KvError::WrongLastRevision { last } => ("last", Some(last)),
        KvError::WatchBehind { watch } => ("watch", Some(watch)),
        KvError::Lagged { floor } => ("floor", Some(floor)),
        _ => ("", None),
    }
}

// A refusal, of one line of a batch or of a worker of a race, if it is of either.
fn append_told(
    alloc: Global,
    out: &mut Vec<u8>,
    at: Option<u64>,
    error: KvError,
    worker: Option<u64>,
) -> Result<(), AllocError>
    ensures ok { OnOk result (out.new.items
        ≡ out.old.items ++ line (compact_text (object (told_fields at error worker)))) }
    ensures err { OnErr result (out.new.items ≡ out.old.items) }
{
    let (name, number) = carried(error);
    append_object(
        alloc,
        out,
        &[
            Field::Optional("at", at),
            Field::Number("code", error.code()),
            Field::Text("error", error.name()),
            Field::Optional(name, number),
            Field::Optional("worker", worker),
        ],
    )
}

/// A refusal, with its number and its name, and the number that it carries.
#[tactic(auto, using(crate::proofs::Lines::refusal_line))]
pub fn append_refusal(alloc: Global, out: &mut Vec<u8>, error: KvError) -> Result<(), AllocError>
    ensures ok { OnOk result (out.new.items ≡ out.old.items ++ refusal_text error) }
    ensures err { OnErr result (out.new.items ≡ out.old.items) }
{
    append_told(alloc, out, None, error, None)
}

/// A refusal of a worker of a race. Workers count from 1.
#[tactic(auto, using(crate::proofs::Lines::worker_refusal_line))]
pub fn append_worker_refusal(
    alloc: Global,
    out: &mut Vec<u8>,
    worker: u64,
    error: KvError,
) -> Result<(), AllocError>
    ensures ok { OnOk result (out.new.items ≡ out.old.items ++ worker_refusal_text worker error) }
    ensures err { OnErr result (out.new.items ≡ out.old.items) }
{
    append_told(alloc, out, None, error, Some(worker))
}

/// A batch that is refused for one of its lines, by the number of that line, from 1.
#[tactic(auto, using(crate::proofs::Lines::batch_refusal_line))]
pub fn append_batch_refusal(
    alloc: Global,
    out: &mut Vec<u8>,
    number: u64,
    error: KvError,
) -> Result<(), AllocError>
    ensures ok { OnOk result (out.new.items ≡ out.old.items ++ batch_refusal_text number error) }
    ensures err { OnErr result (out.new.items ≡ out.old.items) }
{
    append_told(alloc, out, Some(number), error, None)
}
