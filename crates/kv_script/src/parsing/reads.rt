//! Commands that read.

ghost use Rattle.std.specs.Prelude.{◌≡◌};
ghost use Rattle.kv_script.specs.Commands.{Gives, History, Place, Status, texts, get_command, key_command, keys_command, lone_command};

use crate::parsing::command::Command;
use crate::parsing::numbers::optional_number;
use kv_keys::{Filters, Key, KvError};
use std::alloc::Global;

/// `get K [R]`
pub(crate) fn get_command(alloc: Global, arguments: &[&str]) -> Result<Command, KvError>
    ensures { Gives result (get_command (texts arguments.now)) }
{
    let Some((key, words)) = arguments.split_first() else {
        return Err(KvError::BadCommand);
    };
    let Some(revision) = optional_number(words) else {
        return Err(KvError::BadCommand);
    };
    let key = Key::parse(alloc, key)?;
    match revision {
        None => Ok(Command::Get(key)),
        Some(revision) => Ok(Command::GetAt(key, revision)),
    }
}

/// `history K`
pub(crate) fn history_command(alloc: Global, arguments: &[&str]) -> Result<Command, KvError>
    ensures { Gives result (key_command History (texts arguments.now)) }
{
    let [key] = *arguments else {
        return Err(KvError::BadCommand);
    };
    let key = Key::parse(alloc, key)?;
    Ok(Command::History(key))
}

/// `keys F[,F..]`
pub(crate) fn keys_command(alloc: Global, arguments: &[&str]) -> Result<Command, KvError>
    ensures { Gives result (keys_command (texts arguments.now)) }
{
    let [filters] = *arguments else {
        return Err(KvError::BadCommand);
    };
    let filters = Filters::parse(alloc, filters)?;
    Ok(Command::Keys(filters))
}

/// `status`
pub(crate) fn status_command(arguments: &[&str]) -> Result<Command, KvError>
    ensures { Gives result (lone_command Status (texts arguments.now)) }
{
    if arguments.is_empty() {
        Ok(Command::Status)
    } else {
        Err(KvError::BadCommand)
    }
}

/// `place K`
pub(crate) fn place_command(alloc: Global, arguments: &[&str]) -> Result<Command, KvError>
    ensures { Gives result (key_command Place (texts arguments.now)) }
{
    let [key] = *arguments else {
        return Err(KvError::BadCommand);
    };
    let key = Key::parse(alloc, key)?;
    Ok(Command::Place(key))
}
