//! Commands of watches.

ghost use Rattle.std.specs.Prelude.{◌≡◌};
ghost use Rattle.kv_script.specs.Commands.{Gives, Stop, texts, watch_command, take_count, take_command, number_command};

use crate::parsing::choices::{are_options, options_of};
use crate::parsing::command::Command;
use crate::parsing::numbers::number_of;
use kv_keys::{Filters, KvError};
use std::alloc::Global;

const MOST_TAKES: u64 = 1_000_000;

/// `watch F[,F..]` and options
pub(crate) fn watch_command(alloc: Global, arguments: &[&str]) -> Result<Command, KvError>
    ensures { Gives result (watch_command (texts arguments.now)) }
{
    let Some((filters, words)) = arguments.split_first() else {
        return Err(KvError::BadCommand);
    };
    if !are_options(words) {
        return Err(KvError::BadCommand);
    }
    let filters = Filters::parse(alloc, filters)?;
    let options = options_of(words)?;
    Ok(Command::Watch(filters, options))
}

fn take_count(word: &str) -> Option<u64>
    ensures { result ≡ take_count word.now }
{
    match number_of(word) {
        Some(count) if 1 <= count && count <= MOST_TAKES => Some(count),
        _ => None,
    }
}

/// `take ID N`
pub(crate) fn take_command(arguments: &[&str]) -> Result<Command, KvError>
    ensures { Gives result (take_command (texts arguments.now)) }
{
    let [watch, count] = *arguments else {
        return Err(KvError::BadCommand);
    };
    let Some(watch) = number_of(watch) else {
        return Err(KvError::BadCommand);
    };
    let Some(count) = take_count(count) else {
        return Err(KvError::BadCommand);
    };
    Ok(Command::Take { watch, count })
}

/// `stop ID`
pub(crate) fn stop_command(arguments: &[&str]) -> Result<Command, KvError>
    ensures { Gives result (number_command Stop (texts arguments.now)) }
{
    let [watch] = *arguments else {
        return Err(KvError::BadCommand);
    };
    match number_of(watch) {
        Some(watch) => Ok(Command::Stop(watch)),
        None => Err(KvError::BadCommand),
    }
}
