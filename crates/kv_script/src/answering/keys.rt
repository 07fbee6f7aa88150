//! Lists of keys.

ghost use Rattle.std.specs.Prelude.{◌≡◌, ◌++◌, OnOk, OnErr, map};
ghost use Rattle.serde_json.specs.Data.{array};
ghost use Rattle.serde_json.specs.Events.{SendsValue};
ghost use Rattle.kv_script.specs.inside.Showing.{listed_keys, keys_object};
ghost use Rattle.kv_script.specs.Text.{keys_text};

use crate::answering::json_line::append_line;
use kv_keys::Key;
use serde::{Described, Serialize, Serializer};
use std::alloc::{AllocError, Global};

#[derive(Clone, Copy)]
struct Keys<'a>(&'a [&'a Key]);

fn send_keys<S: Serializer>(keys: &[&Key], out: &mut S) -> Result<(), S::Error>
    ensures { OnOk result (SendsValue (array (listed_keys keys.now)) (S.written out.old) (S.written out.new)) }
{
    out.begin_seq(Some(keys.len()))?;
    for key in keys {
        out.str(key.as_str())?;
    }
    out.end_seq()
}

impl Described for Keys<'_> {
    ghost writes = { λ keys. SendsValue (keys_object keys.0.now) };
}

impl Serialize for Keys<'_> {
    fn serialize<S: Serializer>(&self, out: &mut S) -> Result<(), S::Error> {
        out.begin_map(Some(1))?;
        out.key("keys")?;
        send_keys(self.0, out)?;
        out.end_map()
    }
}

/// The keys that match.
pub fn append_keys(alloc: Global, out: &mut Vec<u8>, keys: &[&Key]) -> Result<(), AllocError>
    ensures ok { OnOk result (out.new.items ≡ out.old.items ++ keys_text (map (λ key. key.now) keys.now)) }
    ensures err { OnErr result (out.new.items ≡ out.old.items) }
{
    append_line(alloc, out, &Keys(keys))
}
