//! What the names of buckets, keys and filters are made of.

ghost use Rattle.std.specs.Prelude.{◌≡◌, ◌&&◌};
ghost use Rattle.std.specs.List.{list_all};
ghost use Rattle.kv_keys.specs.Matching.{tokens};
ghost use Rattle.kv_keys.specs.inside.Following.{may_follow};
ghost use Rattle.kv_keys.specs.Grammar.{has_one_to, is_present, is_name_character, is_name, is_key_character, is_key, is_literal, are_filter_tokens, is_filter};

use crate::matching::{first_token, is_rest};

const MOST_OF_NAME: usize = 64;

const MOST_OF_KEY: usize = 255;

fn has_one_to(most: usize, text: &str) -> bool
    ensures { result ≡ has_one_to most text.now }
{
    !text.is_empty() && text.len() <= most
}

fn is_name_character(byte: u8) -> bool
    ensures { result ≡ is_name_character byte }
{
    byte.is_ascii_alphanumeric() || byte == b'_' || byte == b'-'
}

fn all_name_characters(bytes: &[u8]) -> bool
    ensures { result ≡ list_all is_name_character bytes.now }
{
    bytes.iter().all(|byte| is_name_character(*byte))
}

/// Whether this is a bucket's name: 1 to 64 ASCII letters, digits, `_` and `-` (NATS ADR-8; the bound is this crate's).
#[tactic(auto, unfolding(crate::specs::Grammar::is_name))]
pub fn is_name(text: &str) -> bool
    ensures { result ≡ is_name text.now }
{
    has_one_to(MOST_OF_NAME, text) && all_name_characters(text.as_bytes())
}

fn is_key_character(byte: u8) -> bool
    ensures { result ≡ is_key_character byte }
{
    byte.is_ascii_alphanumeric() || matches!(byte, b'-' | b'/' | b'_' | b'=' | b'.')
}

fn all_key_characters(bytes: &[u8]) -> bool
    ensures { result ≡ list_all is_key_character bytes.now }
{
    bytes.iter().all(|byte| is_key_character(*byte))
}

// Whether a byte of a key may stand here: a dot only behind a token that has begun.
fn may_follow(has_begun: bool, byte: u8) -> bool
    ensures { result ≡ may_follow has_begun byte }
{
    if byte == b'.' {
        has_begun
    } else {
        is_key_character(byte)
    }
}

// Whether the bytes are characters of keys, and no token between the dots is empty. Each is looked at once.
fn are_key_tokens(bytes: &[u8]) -> bool
    ensures { result ≡ (list_all is_key_character bytes.now && list_all is_present (tokens bytes.now)) }
{
    let mut has_begun = false;
    for byte in bytes {
        if !may_follow(has_begun, *byte) {
            return false;
        }
        has_begun = *byte != b'.';
    }
    has_begun
}

/// Whether this is a key.
#[tactic(auto, unfolding(crate::specs::Grammar::is_key))]
pub(crate) fn is_key(text: &str) -> bool
    ensures { result ≡ is_key text.now }
{
    has_one_to(MOST_OF_KEY, text) && are_key_tokens(text.as_bytes())
}

fn is_literal(token: &str) -> bool
    ensures { result ≡ is_literal token.now }
{
    !token.is_empty() && all_key_characters(token.as_bytes())
}

fn are_filter_tokens(text: &str) -> bool
    ensures { result ≡ are_filter_tokens (tokens text.now) }
{
    let (token, more) = first_token(text);
    if is_rest(token, more) {
        return true;
    }
    if token != "*" && !is_literal(token) {
        return false;
    }
    match more {
        None => true,
        Some(text) => are_filter_tokens(text),
    }
}

/// Whether this is a filter.
#[tactic(auto, unfolding(crate::specs::Grammar::is_filter))]
pub(crate) fn is_filter(text: &str) -> bool
    ensures { result ≡ is_filter text.now }
{
    has_one_to(MOST_OF_KEY, text) && are_filter_tokens(text)
}
