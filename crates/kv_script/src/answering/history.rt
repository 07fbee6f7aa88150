//! Histories of keys.

ghost use Rattle.std.specs.Prelude.{◌≡◌, ◌++◌, OnOk, OnErr, map};
ghost use Rattle.serde_json.specs.Data.{array};
ghost use Rattle.serde_json.specs.Events.{SendsValue};
ghost use Rattle.kv_model.specs.State.{read_entry};
ghost use Rattle.kv_script.specs.inside.Showing.{found_items, history_object};
ghost use Rattle.kv_script.specs.Text.{history_text};

use crate::answering::entries::found;
use crate::answering::json_line::append_line;
use crate::form::Form;
use kv_model::Write;
use serde::{Described, Serialize, Serializer};
use std::alloc::{AllocError, Global};

#[derive(Clone, Copy)]
struct History<'a> {
    alloc: Global,
    form: Form,
    writes: &'a [&'a Write],
}

fn send_entries<S: Serializer>(history: &History<'_>, out: &mut S) -> Result<(), S::Error>
    ensures { OnOk result (SendsValue (array (found_items history.now.form history.now.writes.now))
        (S.written out.old) (S.written out.new)) }
{
    out.begin_seq(Some(history.writes.len()))?;
    for write in history.writes {
        found(history.alloc, history.form, write).serialize(out)?;
    }
    out.end_seq()
}

impl Described for History<'_> {
    ghost writes = { λ history. SendsValue (history_object history.form history.writes.now) };
}

impl Serialize for History<'_> {
    fn serialize<S: Serializer>(&self, out: &mut S) -> Result<(), S::Error> {
        out.begin_map(Some(1))?;
        out.key("entries")?;
        send_entries(self, out)?;
        out.end_map()
    }
}

/// The entries of a key's history, with their values in this form.
pub fn append_history(
    alloc: Global,
    form: Form,
    out: &mut Vec<u8>,
    writes: &[&Write],
) -> Result<(), AllocError>
    ensures ok { OnOk result (out.new.items ≡ out.old.items ++ history_text form
        (map (λ w. read_entry w.now) writes.now)) }
    ensures err { OnErr result (out.new.items ≡ out.old.items) }
{
    let history = History {
        alloc,
        form,
        writes,
    };
    append_line(alloc, out, &history)
}
