//! Commands that write, alone or several in one step, and those that seal and compact.

ghost use Rattle.std.specs.Prelude.{◌≡◌, ℕ, List, Option, Ok, IfOk, IfErr};
ghost use Rattle.kv_model.specs.Requests.{Asked, put, create, delete, purge};
ghost use Rattle.kv_script.specs.Commands.{Fails, Gives, Write, Batch, Compact, Seal, texts, put_command, update_command, delete_command, lone_command, number_command};

use crate::parsing::command::Command;
use crate::parsing::numbers::{number_of, optional_number};
use crate::parsing::values::value_of;
use kv_keys::{Key, KvError};
use kv_model::Request;
use std::alloc::Global;

// The key and the value behind `put` or `create`.
fn key_and_value(alloc: Global, arguments: &[&str]) -> Result<(Key, Vec<u8>), KvError>
    ensures ok { IfOk result (λ pair. (makes : List ℕ → List ℕ → Asked) →
        put_command makes (texts arguments.now) ≡ Ok (Write (makes pair.0 pair.1.items))) }
    ensures err { IfErr result (λ e. (makes : List ℕ → List ℕ → Asked) →
        Fails e (put_command makes (texts arguments.now))) }
{
    let [key, word] = *arguments else {
        return Err(KvError::BadCommand);
    };
    let Some(value) = value_of(alloc, word)? else {
        return Err(KvError::BadCommand);
    };
    Ok((Key::parse(alloc, key)?, value))
}

/// `put K B`
pub(crate) fn put_command(alloc: Global, arguments: &[&str]) -> Result<Command, KvError>
    ensures { Gives result (put_command put (texts arguments.now)) }
{
    let (key, value) = key_and_value(alloc, arguments)?;
    Ok(Command::Write(Request::Put { key, value }))
}

/// `create K B`
pub(crate) fn create_command(alloc: Global, arguments: &[&str]) -> Result<Command, KvError>
    ensures { Gives result (put_command create (texts arguments.now)) }
{
    let (key, value) = key_and_value(alloc, arguments)?;
    Ok(Command::Write(Request::Create { key, value }))
}

/// `update K R B`
pub(crate) fn update_command(alloc: Global, arguments: &[&str]) -> Result<Command, KvError>
    ensures { Gives result (update_command (texts arguments.now)) }
{
    let [key, last, word] = *arguments else {
        return Err(KvError::BadCommand);
    };
    let Some(last) = number_of(last) else {
        return Err(KvError::BadCommand);
    };
    let Some(value) = value_of(alloc, word)? else {
        return Err(KvError::BadCommand);
    };
    let key = Key::parse(alloc, key)?;
    Ok(Command::Write(Request::Update { key, value, last }))
}

// The key behind `delete` or `purge`, and its last revision, if that is asked for.
fn key_and_last(alloc: Global, arguments: &[&str]) -> Result<(Key, Option<u64>), KvError>
    ensures ok { IfOk result (λ pair. (makes : List ℕ → Option ℕ → Asked) →
        delete_command makes (texts arguments.now) ≡ Ok (Write (makes pair.0 pair.1))) }
    ensures err { IfErr result (λ e. (makes : List ℕ → Option ℕ → Asked) →
        Fails e (delete_command makes (texts arguments.now))) }
{
    let Some((key, words)) = arguments.split_first() else {
        return Err(KvError::BadCommand);
    };
    let Some(last) = optional_number(words) else {
        return Err(KvError::BadCommand);
    };
    Ok((Key::parse(alloc, key)?, last))
}

/// `delete K [R]`
pub(crate) fn delete_command(alloc: Global, arguments: &[&str]) -> Result<Command, KvError>
    ensures { Gives result (delete_command delete (texts arguments.now)) }
{
    let (key, last) = key_and_last(alloc, arguments)?;
    Ok(Command::Write(Request::Delete { key, last }))
}

/// `purge K [R]`
pub(crate) fn purge_command(alloc: Global, arguments: &[&str]) -> Result<Command, KvError>
    ensures { Gives result (delete_command purge (texts arguments.now)) }
{
    let (key, last) = key_and_last(alloc, arguments)?;
    Ok(Command::Write(Request::Purge { key, last }))
}

/// `seal`
pub(crate) fn seal_command(arguments: &[&str]) -> Result<Command, KvError>
    ensures { Gives result (lone_command Seal (texts arguments.now)) }
{
    if arguments.is_empty() {
        Ok(Command::Seal)
    } else {
        Err(KvError::BadCommand)
    }
}

/// `compact R`
pub(crate) fn compact_command(arguments: &[&str]) -> Result<Command, KvError>
    ensures { Gives result (number_command Compact (texts arguments.now)) }
{
    let [floor] = *arguments else {
        return Err(KvError::BadCommand);
    };
    match number_of(floor) {
        Some(floor) => Ok(Command::Compact(floor)),
        None => Err(KvError::BadCommand),
    }
}

/// `batch N`
pub(crate) fn batch_command(arguments: &[&str]) -> Result<Command, KvError>
    ensures { Gives result (number_command Batch (texts arguments.now)) }
{
    let [count] = *arguments else {
        return Err(KvError::BadCommand);
    };
    match number_of(count) {
        Some(count) => Ok(Command::Batch(count)),
        None => Err(KvError::BadCommand),
    }
}
