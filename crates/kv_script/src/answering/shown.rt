//! An entry as an answer shows it.

ghost use Rattle.std.specs.Prelude.{◌≡◌, IfOk, IfSome, OnOk, Some, codes, string_bytes};
ghost use Rattle.std.specs.Option.{option_copied};
ghost use Rattle.base64.specs.Engines.{standard};
ghost use Rattle.base64.specs.GeneralPurpose.{encode_of};
ghost use Rattle.serde_json.specs.Data.{string, member};
ghost use Rattle.serde_json.specs.Events.{SendsValue, SendsMembers, members_len};
ghost use Rattle.kv_script.specs.inside.Sends.{SendsFront};
ghost use Rattle.kv_script.specs.inside.Showing.{head_of, front_with, shown_fields, shown_object, watch_fields};
ghost use Rattle.kv_script.specs.Text.{op_text};
ghost use Rattle.kv_script.specs.declared.form.Form.TheVariants.{Text};

use crate::answering::field::{send_number, send_text};
use crate::answering::unsent::Unsent;
use crate::form::Form;
use base64::engine::general_purpose::STANDARD;
use kv_model::Op;
use serde::{Described, Serialize, Serializer};
use std::alloc::{AllocError, Global};
use std::str;

/// How many bytes of base64 are made without memory of their own: those of 48 bytes.
const SHORT_BYTES: usize = 64;

/// An entry by its parts: with its value in this form, if that is shown, and with the watch that hands it out, if one
/// does.
#[derive(Clone, Copy)]
pub(crate) struct Shown<'a> {
    pub(crate) alloc: Global,
    pub(crate) form: Form,
    pub(crate) watch: Option<u64>,
    pub(crate) key: &'a str,
    pub(crate) op: Op,
    pub(crate) revision: u64,
    pub(crate) size: u64,
    pub(crate) value: Option<&'a [u8]>,
}

fn op_name(op: Op) -> &'static str
    ensures { result.now ≡ op_text op }
{
    match op {
        Op::Put => "PUT",
        Op::Delete => "DEL",
        Op::Purge => "PURGE",
    }
}

// What an entry has but for its value.
fn send_head<S: Serializer>(shown: &Shown<'_>, out: &mut S) -> Result<(), Unsent>
    ensures { OnOk result (SendsFront (head_of shown.now) (S.written out.old) (S.written out.new)) }
{
    send_text(out, "key", shown.key)?;
    send_text(out, "op", op_name(shown.op))?;
    send_number(out, "revision", shown.revision)?;
    send_number(out, "size", shown.size)
}

// A value in base64, with padding (RFC 4648, section 4).
#[inline(never)]
fn base64_of(alloc: Global, value: &[u8]) -> Result<String, AllocError>
    ensures { IfOk result (λ text. string_bytes text ≡ encode_of standard value.now) }
{
    STANDARD.encode(alloc, value)
}

// A short value in base64, which takes no memory of its own.
fn short_base64<'r>(value: &[u8], room: &'r mut [u8; SHORT_BYTES]) -> Option<&'r str>
    ensures { IfSome result (λ text. text.now ≡ encode_of standard value.now) }
{
    let Ok(count) = STANDARD.encode_slice(value, room) else {
        return None;
    };
    str::from_utf8(&room[..count]).ok()
}

// A member of this name that is the value in base64.
fn send_base64<S: Serializer>(
    alloc: Global,
    out: &mut S,
    name: &str,
    value: &[u8],
) -> Result<(), Unsent>
    ensures { OnOk result (SendsFront (member name.now (string (encode_of standard value.now)))
        (S.written out.old) (S.written out.new)) }
{
    let mut room = [0u8; SHORT_BYTES];
    if let Some(text) = short_base64(value, &mut room) {
        return send_text(out, name, text);
    }
    let Ok(text) = base64_of(alloc, value) else {
        return Err(Unsent);
    };
    send_text(out, name, text.as_str())
}

// All members but for the watch, of a put whose value stands as it is, if it is text.
fn send_text_front<S: Serializer>(
    shown: &Shown<'_>,
    value: &[u8],
    out: &mut S,
) -> Result<(), Unsent>
    ensures { OnOk result (SendsFront (front_with Text shown.now (Some value.now))
        (S.written out.old) (S.written out.new)) }
{
    match str::from_utf8(value) {
        Ok(text) => {
            send_head(shown, out)?;
            send_text(out, "value", text)
        }
        Err(_) => {
            send_base64(shown.alloc, out, "base64", value)?;
            send_head(shown, out)
        }
    }
}

// All members but for the watch, of a put.
fn send_put_front<S: Serializer>(shown: &Shown<'_>, value: &[u8], out: &mut S) -> Result<(), Unsent>
    ensures { OnOk result (SendsFront (front_with shown.now.form shown.now (Some value.now))
        (S.written out.old) (S.written out.new)) }
{
    match shown.form {
        Form::Base64 => {
            send_head(shown, out)?;
            send_base64(shown.alloc, out, "value", value)
        }
        Form::Text => send_text_front(shown, value, out),
    }
}

// All members but for the watch, of an entry whose value is shown or not.
fn send_front<S: Serializer>(shown: &Shown<'_>, out: &mut S) -> Result<(), Unsent>
    ensures { OnOk result (SendsFront (front_with shown.now.form shown.now (option_copied shown.now.value))
        (S.written out.old) (S.written out.new)) }
{
    match shown.value {
        Some(value) => send_put_front(shown, value, out),
        None => send_head(shown, out),
    }
}

// The watch, if there is one, and the end of the entry.
fn send_end<S: Serializer>(watch: Option<u64>, out: &mut S) -> Result<(), S::Error>
    ensures { OnOk result (SendsMembers (watch_fields watch) (S.written out.old) (S.written out.new)) }
{
    match watch {
        Some(watch) => {
            let Ok(()) = send_number(out, "watch", watch) else {
                return Err(out.custom("unsent"));
            };
            out.end_map()
        }
        None => out.end_map(),
    }
}

// How many members an entry has.
fn count(shown: &Shown<'_>) -> usize
    ensures { result ≡ members_len (shown_fields shown.now) }
{
    match (shown.value, shown.watch) {
        (Some(_), Some(_)) => 6,
        (None, None) => 4,
        _ => 5,
    }
}

impl Described for Shown<'_> {
    ghost writes = { λ shown. SendsValue (shown_object shown) };
}

impl Serialize for Shown<'_> {
    fn serialize<S: Serializer>(&self, out: &mut S) -> Result<(), S::Error> {
        out.begin_map(Some(count(self)))?;
        let Ok(()) = send_front(self, out) else {
            return Err(out.custom("unsent"));
        };
        send_end(self.watch, out)
    }
}
