//! Revisions of batches.

ghost use Rattle.std.specs.Prelude.{◌≡◌, ◌-◌, ◌++◌, OnOk, OnErr};
ghost use Rattle.serde_json.specs.Data.{array};
ghost use Rattle.serde_json.specs.Events.{SendsValue};
ghost use Rattle.kv_script.specs.inside.Showing.{listed_revisions, revisions_object};
ghost use Rattle.kv_script.specs.Text.{revisions_behind, revisions_text};

use crate::answering::json_line::append_line;
use serde::{Described, Serialize, Serializer};
use std::alloc::{AllocError, Global};

// The revisions behind one, up to another.
#[derive(Clone, Copy)]
struct Revisions {
    before: u64,
    last: u64,
}

fn send_revisions<S: Serializer>(revisions: &Revisions, out: &mut S) -> Result<(), S::Error>
    ensures { OnOk result (SendsValue (array (listed_revisions revisions.now.before revisions.now.last))
        (S.written out.old) (S.written out.new)) }
{
    let last = revisions.last;
    let mut revision = revisions.before;
    out.begin_seq(Some(last.saturating_sub(revision) as usize))?;
    while revision < last {
        revision += 1;
        out.u64(revision)?;
    }
    out.end_seq()
}

impl Described for Revisions {
    ghost writes = { λ revisions. SendsValue (revisions_object revisions.before revisions.last) };
}

impl Serialize for Revisions {
    fn serialize<S: Serializer>(&self, out: &mut S) -> Result<(), S::Error> {
        out.begin_map(Some(1))?;
        out.key("revisions")?;
        send_revisions(self, out)?;
        out.end_map()
    }
}

/// An accepted batch: the revisions of its writes, which are those behind the last one before it, up to the last one
/// behind it.
pub fn append_revisions(
    alloc: Global,
    out: &mut Vec<u8>,
    before: u64,
    last: u64,
) -> Result<(), AllocError>
    ensures ok { OnOk result (out.new.items
        ≡ out.old.items ++ revisions_text (revisions_behind before (last - before))) }
    ensures err { OnErr result (out.new.items ≡ out.old.items) }
{
    append_line(alloc, out, &Revisions { before, last })
}
