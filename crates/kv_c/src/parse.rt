//! The names that C gives as bytes.

ghost use Rattle.std.specs.Prelude.{◌≡◌, if◌then◌else◌, IfErr, IfOk, IsTrue};
ghost use Rattle.std.specs.Str.{IsUtf8};
ghost use Rattle.kv_keys.specs.Grammar.{are_filters, is_key, parts};
ghost use Rattle.kv_keys.specs.declared.error.KvError.TheVariants.{BadFilter, BadKey, OutOfMemory};

use kv_single::{Filters, Key, KvError};
use std::alloc::Global;

/// The text of these bytes, or the refusal where they are none.
pub(crate) fn text_of(bytes: &[u8], refusal: KvError) -> Result<&str, KvError>
    ensures ok { IfOk result (λ text. text.now ≡ bytes.now) }
    ensures err { IfErr result (λ e. (e ≡ refusal) × ¬ (IsUtf8 bytes.now)) }
{
    match str::from_utf8(bytes) {
        Ok(text) => Ok(text),
        Err(_) => Err(refusal),
    }
}

/// The key of these bytes. Where they are none, that is found before any request for memory.
#[tactic(auto, using(crate::proofs::Ascii::no_key))]
pub(crate) fn key_of(alloc: Global, bytes: &[u8]) -> Result<Key, KvError>
    ensures ok { IfOk result (λ key. (key ≡ bytes.now) × IsTrue (is_key bytes.now)) }
    ensures err { IfErr result (λ e. e ≡ (if is_key bytes.now then OutOfMemory else BadKey)) }
{
    let key = Key::parse(alloc, text_of(bytes, KvError::BadKey)?)?;
    Ok(key)
}

/// The list of filters of these bytes, in the same way.
#[tactic(auto, using(crate::proofs::Ascii::no_filters))]
pub(crate) fn filters_of(alloc: Global, bytes: &[u8]) -> Result<Filters, KvError>
    ensures ok { IfOk result (λ filters. (filters ≡ parts bytes.now) × IsTrue (are_filters (parts bytes.now))) }
    ensures err { IfErr result (λ e. e ≡ (if are_filters (parts bytes.now) then OutOfMemory else BadFilter)) }
{
    let filters = Filters::parse(alloc, text_of(bytes, KvError::BadFilter)?)?;
    Ok(filters)
}
