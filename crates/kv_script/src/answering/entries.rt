//! Entries that a read found.

ghost use Rattle.std.specs.Prelude.{◌≡◌, ◌++◌, OnOk, OnErr};
ghost use Rattle.kv_model.specs.State.{read_entry};
ghost use Rattle.kv_script.specs.inside.Fields.{entry_object};
ghost use Rattle.kv_script.specs.inside.Showing.{shown_object};
ghost use Rattle.kv_script.specs.Text.{entry_text};

use crate::answering::json_line::append_line;
use crate::answering::shown::Shown;
use crate::form::Form;
use kv_model::{Op, Write};
use std::alloc::{AllocError, Global};

/// The entry that a read found, to be shown with its value in this form where it is a put.
pub(crate) fn found<'a>(alloc: Global, form: Form, write: &'a Write) -> Shown<'a>
    ensures { shown_object result ≡ entry_object form (read_entry write.now) }
{
    let value = write.value();
    Shown {
        alloc,
        form,
        watch: None,
        key: write.key().as_str(),
        op: write.op(),
        revision: write.revision(),
        size: value.len() as u64,
        value: match write.op() {
            Op::Put => Some(value),
            Op::Delete | Op::Purge => None,
        },
    }
}

/// The entry that a read found, with its value in this form where it is a put.
pub fn append_entry(
    alloc: Global,
    form: Form,
    out: &mut Vec<u8>,
    write: &Write,
) -> Result<(), AllocError>
    ensures ok { OnOk result (out.new.items ≡ out.old.items ++ entry_text form (read_entry write.now)) }
    ensures err { OnErr result (out.new.items ≡ out.old.items) }
{
    append_line(alloc, out, &found(alloc, form, write))
}
