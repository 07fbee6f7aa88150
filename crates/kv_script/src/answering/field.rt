//! Objects of JSON with a few members.

ghost use Rattle.std.specs.Prelude.{◌≡◌, ◌++◌, OnOk, OnErr, count_by};
ghost use Rattle.serde_json.specs.Data.{object, string, boolean, member};
ghost use Rattle.serde_json.specs.Events.{SendsValue};
ghost use Rattle.serde_json.specs.Written.{compact_text};
ghost use Rattle.kv_script.specs.inside.Fields.{number_field, optional_field};
ghost use Rattle.kv_script.specs.inside.Objects.{field_of, fields_of, is_there};
ghost use Rattle.kv_script.specs.inside.Sends.{SendsFront};
ghost use Rattle.kv_script.specs.Line.{line};

use crate::answering::json_line::append_line;
use crate::answering::unsent::Unsent;
use serde::{Described, Serialize, Serializer};
use std::alloc::{AllocError, Global};

/// A member of an object: its name, and what it is.
#[derive(Clone, Copy)]
pub(crate) enum Field<'a> {
    Number(&'a str, u64),
    // A number, where there is one; else no member.
    Optional(&'a str, Option<u64>),
    Text(&'a str, &'a str),
    Truth(&'a str, bool),
}

/// Sends a member that is a text.
pub(crate) fn send_text<S: Serializer>(out: &mut S, name: &str, text: &str) -> Result<(), Unsent>
    ensures { OnOk result (SendsFront (member name.now (string text.now)) (S.written out.old) (S.written out.new)) }
{
    let Ok(()) = out.key(name) else {
        return Err(Unsent);
    };
    let Ok(()) = out.str(text) else {
        return Err(Unsent);
    };
    Ok(())
}

/// Sends a member that is a number.
pub(crate) fn send_number<S: Serializer>(out: &mut S, name: &str, n: u64) -> Result<(), Unsent>
    ensures { OnOk result (SendsFront (number_field name.now n) (S.written out.old) (S.written out.new)) }
{
    let Ok(()) = out.key(name) else {
        return Err(Unsent);
    };
    let Ok(()) = out.u64(n) else {
        return Err(Unsent);
    };
    Ok(())
}

fn send_truth<S: Serializer>(out: &mut S, name: &str, truth: bool) -> Result<(), Unsent>
    ensures { OnOk result (SendsFront (member name.now (boolean truth)) (S.written out.old) (S.written out.new)) }
{
    let Ok(()) = out.key(name) else {
        return Err(Unsent);
    };
    let Ok(()) = out.bool(truth) else {
        return Err(Unsent);
    };
    Ok(())
}

fn send_optional<S: Serializer>(out: &mut S, name: &str, n: Option<u64>) -> Result<(), Unsent>
    ensures { OnOk result (SendsFront (optional_field name.now n) (S.written out.old) (S.written out.new)) }
{
    match n {
        Some(n) => send_number(out, name, n),
        None => Ok(()),
    }
}

fn send_field<S: Serializer>(out: &mut S, field: Field<'_>) -> Result<(), Unsent>
    ensures { OnOk result (SendsFront (field_of field.entry) (S.written out.old) (S.written out.new)) }
{
    match field {
        Field::Number(name, n) => send_number(out, name, n),
        Field::Optional(name, n) => send_optional(out, name, n),
        Field::Text(name, text) => send_text(out, name, text),
        Field::Truth(name, truth) => send_truth(out, name, truth),
    }
}

fn is_there(field: &Field<'_>) -> bool
    ensures { result ≡ is_there field.now }
{
    !matches!(field, Field::Optional(_, None))
}

// How many members there are.
fn count(fields: &[Field<'_>]) -> usize
    ensures { result ≡ count_by is_there fields.now }
{
    fields.iter().filter(|field| is_there(field)).count()
}

// An object with these members.
#[derive(Clone, Copy)]
struct Object<'a>(&'a [Field<'a>]);

impl Described for Object<'_> {
    ghost writes = { λ fields. SendsValue (object (fields_of fields.0.now)) };
}

impl Serialize for Object<'_> {
    fn serialize<S: Serializer>(&self, out: &mut S) -> Result<(), S::Error> {
        out.begin_map(Some(count(self.0)))?;
        for field in self.0 {
            let Ok(()) = send_field(out, *field) else {
                return Err(out.custom("unsent"));
            };
        }
        out.end_map()
    }
}

/// Appends an object with these members, and a line feed.
pub(crate) fn append_object(
    alloc: Global,
    out: &mut Vec<u8>,
    fields: &[Field<'_>],
) -> Result<(), AllocError>
    ensures ok { OnOk result (out.new.items ≡ out.old.items ++ line (compact_text (object (fields_of fields.now)))) }
    ensures err { OnErr result (out.new.items ≡ out.old.items) }
{
    append_line(alloc, out, &Object(fields))
}
