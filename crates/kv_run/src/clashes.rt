//! Arguments that are fine one by one, and ask together for nothing that can be done.

ghost use Rattle.std.specs.Prelude.{◌≡◌, ◌⊎◌, true, OnErr, OnOk, is_some, option_map};
ghost use Rattle.std.specs.Option.{option_map_or};
ghost use Rattle.std.specs.Io.KnownBytes.{Appends};
ghost use Rattle.kv_run.specs.Arguments.{number_of};
ghost use Rattle.kv_run.specs.Clashes.{clash_of, clash_text, is_from_one, is_when};

use crate::arguments::Arguments;
use kv_durable_script::Sync as When;
use kv_keys::KvError;
use kv_replay::Output;

/// The number of a word, if it is one.
fn number_of(word: &str) -> Option<u64>
    ensures { result ≡ number_of word.now }
{
    word.parse::<u64>().ok()
}

/// So many acts at a time, from 1.
fn every(acts: Option<u64>) -> Option<When>
    ensures { is_some result ≡ is_from_one acts }
{
    match acts {
        Some(acts) if acts > 0 => Some(When::Every(acts)),
        _ => None,
    }
}

/// When what is added to the file is brought onto the disk, as a word says it: `each`, `close`, or a number of acts from 1.
fn when_of_word(word: &str) -> Option<When>
    ensures { is_some result ≡ is_when word.now }
{
    if word == "each" {
        return Some(When::Each);
    }
    if word == "close" {
        return Some(When::Asked);
    }
    every(number_of(word))
}

/// The same, where each act is meant if there is no word.
pub(crate) fn when_of(word: Option<&str>) -> Option<When>
    ensures { is_some result ≡ option_map_or is_when (option_map (λ word. word.now) word.entry) true }
{
    match word {
        Some(word) => when_of_word(word),
        None => Some(When::Each),
    }
}

/// Why the words ask for nothing that can be done: an option stands beside one that it clashes with, or without one that it
/// needs, or has a value that is none.
pub(crate) fn clash(arguments: &Arguments<'_>) -> Option<&'static str>
    ensures { option_map (λ clash. clash.now) result ≡ clash_of arguments.now }
{
    if arguments.races_on_file() {
        return Some("--race can't be used with --journal or --dump");
    }
    if arguments.dumps_as_text() {
        return Some("--dump can't be used with --text");
    }
    if arguments.keeps_and_dumps() {
        return Some("--journal can't be used with --dump");
    }
    if arguments.syncs_no_file() {
        return Some("--sync needs --journal");
    }
    if when_of(arguments.sync()).is_none() {
        return Some("--sync takes each, close or a number from 1");
    }
    None
}

/// Writes what is wrong with the words.
fn tell_clash<F: Output>(clash: &str, faults: &mut F) -> Result<(), KvError>
    ensures told { OnOk result (Appends (F.held faults.old) (F.held faults.new) (clash_text clash.now)) }
    ensures failed { OnErr result (F.failed_between faults.old faults.new) }
{
    faults.write(b"error: ")?;
    faults.write(clash.as_bytes())?;
    faults.write(b"\n\nFor more information, try '--help'.\n")
}

/// Tells what is wrong with the words.
pub(crate) fn accuse<F: Output>(clash: &str, faults: &mut F) -> u8
    ensures status { result ≡ 2 }
    ensures told { Appends (F.held faults.old) (F.held faults.new) (clash_text clash.now)
        ⊎ F.failed_between faults.old faults.new }
{
    let _ = tell_clash(clash, faults);
    2
}
