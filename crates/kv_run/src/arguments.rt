//! The arguments of the program.

ghost use Rattle.std.specs.Prelude.{◌≡◌, false, IfOk, IfErr, MatchResult, [], map, option_map, string_bytes};
ghost use Rattle.clap.specs.Kinds.{HasKind};
ghost use Rattle.clap.specs.Simple.{app_of};
ghost use Rattle.clap.specs.Matches.{found_of};
ghost use Rattle.clap.specs.Walk.{rows_of, rule_of};
ghost use Rattle.kv_keys.specs.declared.error.KvError.TheVariants.{OutOfMemory};
ghost use Rattle.kv_run.specs.Arguments.{faults_of, form_asked, form_option, is_in_memory, number_in, number_option, program_app, race_option, text_option, wanted_of, with_files, with_limits, word_option};
ghost use Rattle.kv_run.specs.Clashes.{dumps_as_text, is_text, keeps_and_dumps, races_on_file, syncs_no_file};

use crate::help::VERSION;
use clap::{Arg, ArgAction, ArgMatches, Command, Error, value_parser};
use kv_keys::KvError;
use kv_model::Config;
use kv_script::Form;
use std::alloc::{AllocError, Global};
use std::marker::Model;

/// What the arguments ask for.
#[derive(Debug, Drop)]
pub(crate) struct Arguments<'a> {
    bucket: &'a str,
    history: u64,
    value_limit: u64,
    write_limit: u64,
    revision_limit: u64,
    race: Option<u64>,
    form: Form,
    journal: Option<&'a str>,
    sync: Option<&'a str>,
    dump: Option<&'a str>,
}

/// An option that takes a text.
fn text<'a>(alloc: Global, name: &'a str, value_name: &'a str, default: &'a str) -> Arg<'a>
    ensures rule { rule_of result ≡ text_option name.entry.now default.entry.now }
    ensures local { result.global ≡ false }
{
    Arg::new(alloc, name)
        .long(name)
        .action(ArgAction::Set)
        .value_name(value_name)
        .default_value(default)
}

/// An option that takes a number.
fn number<'a>(alloc: Global, name: &'a str, default: &'a str) -> Arg<'a>
    ensures rule { rule_of result ≡ number_option name.entry.now default.entry.now }
    ensures local { result.global ≡ false }
{
    text(alloc, name, "N", default).value_parser(value_parser!(u64))
}

/// The option for a race.
fn race<'a>(alloc: Global) -> Arg<'a>
    ensures rule { rule_of result ≡ race_option }
    ensures local { result.global ≡ false }
{
    Arg::new(alloc, "race")
        .long("race")
        .action(ArgAction::Set)
        .value_name("N")
        .value_parser(value_parser!(u64).range(1..=16))
}

/// The option for values as text.
fn form<'a>(alloc: Global) -> Arg<'a>
    ensures rule { rule_of result ≡ form_option }
    ensures local { result.global ≡ false }
{
    Arg::new(alloc, "text")
        .long("text")
        .action(ArgAction::SetTrue)
}

/// An option that takes a text, and has none where it is not given.
fn word<'a>(alloc: Global, name: &'a str, value_name: &'a str) -> Arg<'a>
    ensures rule { rule_of result ≡ word_option name.entry.now }
    ensures local { result.global ≡ false }
{
    Arg::new(alloc, name)
        .long(name)
        .action(ArgAction::Set)
        .value_name(value_name)
}

/// The program with the options for files.
fn with_files<'a>(alloc: Global, command: Command<'a>) -> Result<Command<'a>, AllocError>
    ensures { IfOk result (λ more. app_of more ≡ with_files (app_of command.entry)) }
{
    command
        .arg(word(alloc, "journal", "FILE"))?
        .arg(word(alloc, "sync", "WHEN"))?
        .arg(word(alloc, "dump", "FILE"))
}

/// How values stand.
fn form_asked(as_text: bool) -> Form
    ensures { result ≡ form_asked as_text }
{
    if as_text { Form::Text } else { Form::Base64 }
}

/// Whether values stand as text.
fn is_text(form: Form) -> bool
    ensures { result ≡ is_text form }
{
    match form {
        Form::Base64 => false,
        Form::Text => true,
    }
}

/// The program with the options for the numbers of a configuration.
fn with_limits<'a>(alloc: Global, command: Command<'a>) -> Result<Command<'a>, AllocError>
    ensures { IfOk result (λ more. app_of more ≡ with_limits (app_of command.entry)) }
{
    command
        .arg(number(alloc, "history", "1"))?
        .arg(number(alloc, "value-limit", "1048576"))?
        .arg(number(alloc, "write-limit", "1000000"))?
        .arg(number(alloc, "revision-limit", "4294967295"))
}

/// The program, with its options. Its help and its version are texts of their own, so clap's are not asked for.
fn command<'a>(alloc: Global) -> Result<Command<'a>, AllocError>
    ensures { IfOk result (λ command. app_of command ≡ program_app) }
{
    let named = Command::new(alloc, "kvbucket")
        .version(VERSION)
        .arg(text(alloc, "bucket", "NAME", "kv"))?;
    let raced = with_limits(alloc, named)?
        .arg(race(alloc))?
        .arg(form(alloc))?;
    with_files(alloc, raced)
}

/// The number that is given for an option, or else its default.
fn number_given(matches: &ArgMatches<'_>, name: &str, default: u64) -> u64
    ensures { result ≡ number_in name.now default (rows_of (found_of matches.now)) }
{
    matches.get_one::<u64>(name).unwrap_or(default)
}

impl<'a> Model for Arguments<'a> {
    ghost use Rattle.std.specs.Prelude.{option_map};
    ghost use Rattle.kv_run.specs.Arguments.{Wanted};

    ghost Value = { Wanted };

    ghost view = { λ a. record {
      config = record {
        bucket = a.bucket.now;
        history = a.history;
        value_limit = a.value_limit;
        write_limit = a.write_limit;
        revision_limit = a.revision_limit;
      };
      race = a.race;
      form = a.form;
      journal = option_map (λ word. word.now) a.journal;
      sync = option_map (λ word. word.now) a.sync;
      dump = option_map (λ word. word.now) a.dump;
    } };
}

impl<'a> Arguments<'a> {
    /// What the words ask for. The error has the text for the user, help among it.
    pub(crate) fn parse(alloc: Global, words: &'a [String]) -> Result<Arguments<'a>, Error>
        ensures { MatchResult result
            (λ arguments. (faults_of (map string_bytes words.entry.now) ≡ [])
            × (arguments ≡ wanted_of (map string_bytes words.entry.now)))
            (λ e. HasKind (faults_of (map string_bytes words.entry.now)) e) }
    {
        let matches = command(alloc)?.try_get_matches_from(words)?;
        Ok(Arguments {
            bucket: matches.get_str("bucket").unwrap_or("kv"),
            history: number_given(&matches, "history", 1),
            value_limit: number_given(&matches, "value-limit", 1_048_576),
            write_limit: number_given(&matches, "write-limit", 1_000_000),
            revision_limit: number_given(&matches, "revision-limit", 4_294_967_295),
            race: matches.get_one::<u64>("race"),
            form: form_asked(matches.get_one::<bool>("text").unwrap_or(false)),
            journal: matches.get_str("journal"),
            sync: matches.get_str("sync"),
            dump: matches.get_str("dump"),
        })
    }

    /// How many workers race, where they ask for a race.
    pub(crate) fn race(&self) -> Option<u64>
        ensures { result ≡ self.now.race }
    {
        self.race
    }

    /// How values stand in the lines and in the answers.
    pub(crate) fn form(&self) -> Form
        ensures { result ≡ self.now.form }
    {
        self.form
    }

    /// The file that keeps the bucket, where they name one.
    pub(crate) fn journal(&self) -> Option<&'a str>
        ensures { option_map (λ word. word.now) result ≡ self.now.journal }
    {
        self.journal
    }

    /// When what is added to the file is brought onto the disk, as a word, where one is given.
    pub(crate) fn sync(&self) -> Option<&'a str>
        ensures { option_map (λ word. word.now) result ≡ self.now.sync }
    {
        self.sync
    }

    /// The file whose script is asked for, where they name one.
    pub(crate) fn dump(&self) -> Option<&'a str>
        ensures { option_map (λ word. word.now) result ≡ self.now.dump }
    {
        self.dump
    }

    /// Whether they ask for a race on a file.
    pub(crate) fn races_on_file(&self) -> bool
        ensures { result ≡ races_on_file self.now }
    {
        self.race.is_some() & (self.journal.is_some() | self.dump.is_some())
    }

    /// Whether they ask for a dump with values as text.
    pub(crate) fn dumps_as_text(&self) -> bool
        ensures { result ≡ dumps_as_text self.now }
    {
        self.dump.is_some() & is_text(self.form)
    }

    /// Whether they name a file to run on and one to dump.
    pub(crate) fn keeps_and_dumps(&self) -> bool
        ensures { result ≡ keeps_and_dumps self.now }
    {
        self.journal.is_some() & self.dump.is_some()
    }

    /// Whether they say when to bring onto the disk what no file keeps.
    pub(crate) fn syncs_no_file(&self) -> bool
        ensures { result ≡ syncs_no_file self.now }
    {
        self.sync.is_some() & self.journal.is_none()
    }

    /// Whether they speak of no file.
    pub(crate) fn is_in_memory(&self) -> bool
        ensures { result ≡ is_in_memory self.now }
    {
        self.journal.is_none() & self.sync.is_none() & self.dump.is_none()
    }

    /// The configuration that they ask for. It is not checked here.
    pub(crate) fn config(&self, alloc: Global) -> Result<Config, KvError>
        ensures ok { IfOk result (λ config. config ≡ self.now.config) }
        ensures err { IfErr result (λ e. e ≡ OutOfMemory) }
    {
        Ok(Config {
            bucket: String::from_str(alloc, self.bucket)?,
            history: self.history,
            value_limit: self.value_limit,
            write_limit: self.write_limit,
            revision_limit: self.revision_limit,
        })
    }
}
