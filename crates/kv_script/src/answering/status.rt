//! Answers that tell of a bucket, and of places.

ghost use Rattle.std.specs.Prelude.{◌≡◌, ◌++◌, OnOk, OnErr};
ghost use Rattle.kv_script.specs.Text.{status_text, place_text};

use crate::answering::field::{Field, append_object};
use kv_model::Status;
use std::alloc::{AllocError, Global};

/// The numbers of a bucket, with how many watches are open.
#[tactic(auto, using(crate::proofs::Lines::status_line))]
pub fn append_status(
    alloc: Global,
    out: &mut Vec<u8>,
    bucket: &str,
    status: Status,
    watches: u64,
) -> Result<(), AllocError>
    ensures ok { OnOk result (out.new.items ≡ out.old.items ++ status_text bucket.now status watches) }
    ensures err { OnErr result (out.new.items ≡ out.old.items) }
{
    append_object(
        alloc,
        out,
        &[
            Field::Text("bucket", bucket),
            Field::Number("history", status.history),
            Field::Number("last", status.last),
            Field::Truth("sealed", status.sealed),
            Field::Number("stored", status.stored),
            Field::Number("values", status.values),
            Field::Number("watches", watches),
        ],
    )
}

/// The place of a key: eight hexadecimal digits.
pub fn append_place(alloc: Global, out: &mut Vec<u8>, place: u32) -> Result<(), AllocError>
    ensures ok { OnOk result (out.new.items ≡ out.old.items ++ place_text place) }
    ensures err { OnErr result (out.new.items ≡ out.old.items) }
{
    let digits = hex::encode(alloc, place.to_be_bytes())?;
    append_object(alloc, out, &[Field::Text("place", digits.as_str())])
}
