//! Lines of JSON.

ghost use Rattle.std.specs.Prelude.{◌≡◌, OnOk, OnErr};
ghost use Rattle.kv_script.specs.inside.Sends.{AddsLine};

use serde::Serialize;
use std::alloc::{AllocError, Global};

/// Appends the text of a value, and a line feed. The line is made apart from the output, which stays as it is where
/// memory is refused.
pub(crate) fn append_line<T: Serialize>(
    alloc: Global,
    out: &mut Vec<u8>,
    value: &T,
) -> Result<(), AllocError>
    ensures ok { OnOk result (AddsLine (T.writes value.now) out.old.items out.new.items) }
    ensures err { OnErr result (out.new.items ≡ out.old.items) }
{
    // Nothing that an answer sends is refused but for memory.
    let Ok(mut line) = serde_json::to_vec(alloc, value) else {
        return Err(AllocError);
    };
    line.push(b'\n')?;
    out.extend_from_slice(&line)
}
