//! Lines whose values stand in them as they are.

ghost use Rattle.std.specs.Prelude.{◌≡◌, ℕ, List, Ok, IfOk, IfErr};
ghost use Rattle.kv_model.specs.Requests.{Asked, put, create};
ghost use Rattle.kv_script.specs.Commands.{Fails, Gives, Write, put_text_command, update_text_command, text_command};
ghost use Rattle.kv_script.specs.Words.{words_of};

use crate::parsing::command::Command;
use crate::parsing::grammar::plain_command;
use crate::parsing::numbers::number_of;
use crate::parsing::words::split_word;
use kv_keys::{Key, KvError};
use kv_model::Request;
use std::alloc::{AllocError, Global};

// The bytes of a text, as they stand.
fn bytes_of(alloc: Global, text: &str) -> Result<Vec<u8>, AllocError>
    ensures { IfOk result (λ v. v.items ≡ text.now) }
{
    Vec::from_slice(alloc, text.as_bytes())
}

// The key and the value behind `put` or `create`.
#[tactic(auto, using(crate::proofs::Spaced::put_text))]
fn key_and_text(alloc: Global, arguments: &str) -> Result<(Key, Vec<u8>), KvError>
    ensures ok { IfOk result (λ pair. (makes : List ℕ → List ℕ → Asked) →
        put_text_command makes (words_of arguments.now) ≡ Ok (Write (makes pair.0 pair.1.items))) }
    ensures err { IfErr result (λ e. (makes : List ℕ → List ℕ → Asked) →
        Fails e (put_text_command makes (words_of arguments.now))) }
{
    let Some((key, text)) = split_word(arguments) else {
        return Err(KvError::BadCommand);
    };
    if key.is_empty() {
        return Err(KvError::BadCommand);
    }
    let key = Key::parse(alloc, key)?;
    let value = bytes_of(alloc, text)?;
    Ok((key, value))
}

/// `put K VALUE`
fn put_command(alloc: Global, arguments: &str) -> Result<Command, KvError>
    ensures { Gives result (put_text_command put (words_of arguments.now)) }
{
    let (key, value) = key_and_text(alloc, arguments)?;
    Ok(Command::Write(Request::Put { key, value }))
}

/// `create K VALUE`
fn create_command(alloc: Global, arguments: &str) -> Result<Command, KvError>
    ensures { Gives result (put_text_command create (words_of arguments.now)) }
{
    let (key, value) = key_and_text(alloc, arguments)?;
    Ok(Command::Write(Request::Create { key, value }))
}

/// `update K R VALUE`
#[tactic(auto, using(crate::proofs::Spaced::update_text))]
fn update_command(alloc: Global, arguments: &str) -> Result<Command, KvError>
    ensures { Gives result (update_text_command (words_of arguments.now)) }
{
    let Some((key, rest)) = split_word(arguments) else {
        return Err(KvError::BadCommand);
    };
    if key.is_empty() {
        return Err(KvError::BadCommand);
    }
    let Some((last, text)) = split_word(rest) else {
        return Err(KvError::BadCommand);
    };
    let Some(last) = number_of(last) else {
        return Err(KvError::BadCommand);
    };
    let key = Key::parse(alloc, key)?;
    let value = bytes_of(alloc, text)?;
    Ok(Command::Write(Request::Update { key, value, last }))
}

/// Reads a line. A value begins behind one space, and ends with the line.
#[tactic(auto, unfolding(crate::specs::Commands::text_command))]
pub(crate) fn text_command(alloc: Global, line: &str) -> Result<Command, KvError>
    ensures { Gives result (text_command (words_of line.now)) }
{
    let Some((name, arguments)) = split_word(line) else {
        return plain_command(alloc, line);
    };
    match name {
        "put" => put_command(alloc, arguments),
        "create" => create_command(alloc, arguments),
        "update" => update_command(alloc, arguments),
        _ => plain_command(alloc, line),
    }
}
