//! Entries that a watch hands out.

ghost use Rattle.std.specs.Prelude.{◌≡◌, ◌++◌, OnOk, OnErr};
ghost use Rattle.std.specs.Option.{option_copied};
ghost use Rattle.kv_script.specs.inside.Fields.{parts_entry};
ghost use Rattle.kv_script.specs.Text.{taken_entry_text};

use crate::answering::json_line::append_line;
use crate::answering::shown::Shown;
use crate::form::Form;
use kv_keys::Key;
use kv_model::Op;
use std::alloc::{AllocError, Global};

/// An entry that a watch hands out, by its parts, with its value in this form. `size` is the number of bytes of the
/// value, also where it isn't shown.
pub fn append_taken_entry(
    alloc: Global,
    form: Form,
    out: &mut Vec<u8>,
    watch: u64,
    key: &Key,
    op: Op,
    revision: u64,
    size: u64,
    value: Option<&[u8]>,
) -> Result<(), AllocError>
    ensures ok { OnOk result (out.new.items
        ≡ out.old.items ++ taken_entry_text form watch
        (parts_entry key.now op revision size (option_copied value.entry))) }
    ensures err { OnErr result (out.new.items ≡ out.old.items) }
{
    let taken = Shown {
        alloc,
        form,
        watch: Some(watch),
        key: key.as_str(),
        op,
        revision,
        size,
        value,
    };
    append_line(alloc, out, &taken)
}
