//! Reads the lines of a script as commands.

ghost use Rattle.std.specs.Prelude.{◌≡◌};
ghost use Rattle.std.specs.Io.BufRead.{strip_last};
ghost use Rattle.std.specs.List.{list_all};
ghost use Rattle.kv_keys.specs.Grammar.{is_present};
ghost use Rattle.kv_script.specs.Commands.{Gives, GivesWrite, texts, is_skipped, names_write, line_write, named_command, words_command, present_words_command, text_command, command_in, line_command};
ghost use Rattle.kv_script.specs.Words.{words_of};

use crate::form::Form;
use crate::parsing::command::Command;
use crate::parsing::in_text::text_command;
use crate::parsing::words::split_word;
use crate::parsing::{reads, watches, writes};
use kv_keys::KvError;
use kv_model::Request;
use std::alloc::Global;
use std::str;

const MOST_OF_LINE: usize = 1_400_000;

/// Whether a line, without its end, is to be skipped: it is empty, or begins with `#`.
pub fn is_skipped(line: &[u8]) -> bool
    ensures { result ≡ is_skipped line.now }
{
    match line.first() {
        Some(byte) => *byte == b'#',
        None => true,
    }
}

/// A line as it was read, without its line feed and without the one carriage return before that.
pub fn without_return(line: &[u8]) -> &[u8]
    ensures { result.now ≡ strip_last 13 line.entry.now }
{
    if !line.is_empty() && line[line.len() - 1] == b'\r' {
        &line[..line.len() - 1]
    } else {
        line
    }
}

#[tactic(auto, unfolding(crate::specs::Commands::named_command))]
fn named_command(alloc: Global, name: &str, arguments: &[&str]) -> Result<Command, KvError>
    ensures { Gives result (named_command name.now (texts arguments.now)) }
{
    match name {
        "put" => writes::put_command(alloc, arguments),
        "create" => writes::create_command(alloc, arguments),
        "update" => writes::update_command(alloc, arguments),
        "delete" => writes::delete_command(alloc, arguments),
        "purge" => writes::purge_command(alloc, arguments),
        "get" => reads::get_command(alloc, arguments),
        "history" => reads::history_command(alloc, arguments),
        "keys" => reads::keys_command(alloc, arguments),
        "watch" => watches::watch_command(alloc, arguments),
        "take" => watches::take_command(arguments),
        "stop" => watches::stop_command(arguments),
        "status" => reads::status_command(arguments),
        "seal" => writes::seal_command(arguments),
        "compact" => writes::compact_command(arguments),
        "place" => reads::place_command(alloc, arguments),
        "batch" => writes::batch_command(arguments),
        _ => Err(KvError::BadCommand),
    }
}

fn words_command(alloc: Global, words: &[&str]) -> Result<Command, KvError>
    ensures { Gives result (words_command (texts words.now)) }
{
    match words.split_first() {
        Some((name, arguments)) => named_command(alloc, name, arguments),
        None => Err(KvError::BadCommand),
    }
}

fn all_present(words: &[&str]) -> bool
    ensures { result ≡ list_all is_present (texts words.now) }
{
    words.iter().all(|word| !word.is_empty())
}

fn present_words_command(alloc: Global, words: &[&str]) -> Result<Command, KvError>
    ensures { Gives result (present_words_command (texts words.now)) }
{
    if all_present(words) {
        words_command(alloc, words)
    } else {
        Err(KvError::BadCommand)
    }
}

fn many_words_command(alloc: Global, line: &str) -> Result<Command, KvError>
    ensures { Gives result (present_words_command (words_of line.now)) }
{
    let words: Vec<&str> = line.split(' ').collect(alloc)?;
    present_words_command(alloc, &words)
}

/// Reads a line none of whose words may be empty. Up to three words take no list in memory.
#[inline(always)]
pub(crate) fn plain_command(alloc: Global, line: &str) -> Result<Command, KvError>
    ensures { Gives result (present_words_command (words_of line.now)) }
{
    let Some((name, arguments)) = split_word(line) else {
        return present_words_command(alloc, &[line]);
    };
    let Some((first, more)) = split_word(arguments) else {
        return present_words_command(alloc, &[name, arguments]);
    };
    if split_word(more).is_some() {
        return many_words_command(alloc, line);
    }
    present_words_command(alloc, &[name, first, more])
}

#[inline(always)]
fn command_in(alloc: Global, form: Form, line: &str) -> Result<Command, KvError>
    ensures { Gives result (command_in form (words_of line.now)) }
{
    match form {
        Form::Base64 => plain_command(alloc, line),
        Form::Text => text_command(alloc, line),
    }
}

/// Reads a line, without its end, that is not to be skipped, and whose value stands in this form. A line that is no
/// command is refused before its key or filters are read, and those before options that clash. Memory goes to the
/// command, and to the list of the words where they are more than three.
// A command fills twelve words, which each function that hands it on would copy: so it is read in its caller's place.
#[inline(always)]
#[tactic(auto, unfolding(crate::specs::Commands::line_command))]
pub fn parse(alloc: Global, form: Form, line: &[u8]) -> Result<Command, KvError>
    ensures { Gives result (line_command form line.now) }
{
    if line.len() > MOST_OF_LINE {
        return Err(KvError::BadCommand);
    }
    let Ok(text) = str::from_utf8(line) else {
        return Err(KvError::BadCommand);
    };
    command_in(alloc, form, text)
}

/// Whether a line begins with the word of a write, and a space.
fn names_write(line: &[u8]) -> bool
    ensures { result ≡ names_write line.now }
{
    line.starts_with(b"put ")
        || line.starts_with(b"create ")
        || line.starts_with(b"update ")
        || line.starts_with(b"delete ")
        || line.starts_with(b"purge ")
}

/// Reads a line of a batch, without its end, that is not to be skipped. One that names no write is BadCommand there,
/// whatever follows its first word.
#[tactic(auto, unfolding(crate::specs::Commands::line_write))]
pub fn parse_write(alloc: Global, form: Form, line: &[u8]) -> Result<Request, KvError>
    ensures { GivesWrite result (line_write form line.now) }
{
    if !names_write(line) {
        return Err(KvError::BadCommand);
    }
    match parse(alloc, form, line) {
        Ok(Command::Write(request)) => Ok(request),
        Ok(_) => Err(KvError::BadCommand),
        Err(error) => Err(error),
    }
}
