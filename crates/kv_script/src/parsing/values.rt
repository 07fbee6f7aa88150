//! Values of a script.

ghost use Rattle.std.specs.Prelude.{◌≡◌, option_map, option_and_then, IfOk};
ghost use Rattle.base64.specs.Engines.{standard};
ghost use Rattle.base64.specs.GeneralPurpose.{decoded_of};
ghost use Rattle.kv_script.specs.Words.{value_of, unless_empty};

use base64::DecodeAllocError;
use base64::engine::general_purpose::STANDARD;
use std::alloc::{AllocError, Global};

/// The bytes that base64 stands for, where there is at least one (RFC 4648, section 4).
#[tactic(auto, unfolding(base64::specs::GeneralPurpose::decoded_of))]
fn decoded(alloc: Global, word: &str) -> Result<Option<Vec<u8>>, AllocError>
    ensures { IfOk result
        (λ bytes. option_map (λ v. v.items) bytes ≡ option_and_then unless_empty (decoded_of standard word.now)) }
{
    match STANDARD.decode(alloc, word.as_bytes()) {
        Ok(bytes) if bytes.is_empty() => Ok(None),
        Ok(bytes) => Ok(Some(bytes)),
        Err(DecodeAllocError::DecodeError(_)) => Ok(None),
        Err(DecodeAllocError::OutOfMemory) => Err(AllocError),
    }
}

/// The value of a word, if it is one: `-` for the empty value, or base64 of one or more bytes.
pub(crate) fn value_of(alloc: Global, word: &str) -> Result<Option<Vec<u8>>, AllocError>
    ensures { IfOk result (λ bytes. option_map (λ v. v.items) bytes ≡ value_of word.now) }
{
    if word == "-" {
        return Ok(Some(Vec::new(alloc)));
    }
    decoded(alloc, word)
}
