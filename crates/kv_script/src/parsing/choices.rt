//! The options of a watch.

ghost use Rattle.std.specs.Prelude.{◌≡◌, Ok, Err, IfOk, IfErr, count_by};
ghost use Rattle.std.specs.List.{list_all};
ghost use Rattle.kv_keys.specs.declared.error.KvError.TheVariants.{OptionsClash};
ghost use Rattle.kv_script.specs.Choices.{is_from, from_of, is_option, times, is_given, is_repeated, is_any_repeated, are_options, from_among, options_of};
ghost use Rattle.kv_script.specs.Commands.{texts};

use crate::parsing::numbers::number_of;
use kv_keys::KvError;
use kv_model::Options;

fn from_of(word: &str) -> Option<u64>
    ensures { result ≡ from_of word.now }
{
    match word.strip_prefix("from=") {
        Some(number) => number_of(number),
        None => None,
    }
}

fn is_from(word: &str) -> bool
    ensures { result ≡ is_from word.now }
{
    word.starts_with("from=")
}

fn is_option(word: &str) -> bool
    ensures { result ≡ is_option word.now }
{
    word == "history"
        || word == "updates"
        || word == "nodeletes"
        || word == "meta"
        || from_of(word).is_some()
}

fn all_options(words: &[&str]) -> bool
    ensures { result ≡ list_all is_option (texts words.now) }
{
    words.iter().all(|word| is_option(word))
}

/// How often a name stands among these words.
fn times(words: &[&str], name: &str) -> usize
    ensures { result ≡ times name.now (texts words.now) }
{
    words.iter().filter(|word| **word == name).count()
}

fn times_from(words: &[&str]) -> usize
    ensures { result ≡ count_by is_from (texts words.now) }
{
    words.iter().filter(|word| is_from(word)).count()
}

fn is_any_repeated(words: &[&str]) -> bool
    ensures { result ≡ is_any_repeated (texts words.now) }
{
    times(words, "history") > 1
        || times(words, "updates") > 1
        || times(words, "nodeletes") > 1
        || times(words, "meta") > 1
        || times_from(words) > 1
}

/// Whether these words are options of a watch, none of them repeated.
pub(crate) fn are_options(words: &[&str]) -> bool
    ensures { result ≡ are_options (texts words.now) }
{
    all_options(words) && !is_any_repeated(words)
}

fn from_among(words: &[&str]) -> Option<u64>
    ensures { result ≡ from_among (texts words.now) }
{
    match words.iter().find(|word| is_from(word)) {
        Some(word) => from_of(word),
        None => None,
    }
}

/// The options that these words ask for.
pub(crate) fn options_of(words: &[&str]) -> Result<Options, KvError>
    ensures ok { IfOk result (λ options. options_of (texts words.now) ≡ Ok options) }
    ensures err { IfErr result (λ e. (e ≡ OptionsClash) × (options_of (texts words.now) ≡ Err e)) }
{
    Options::of_flags(
        times(words, "history") > 0,
        times(words, "updates") > 0,
        from_among(words),
        times(words, "nodeletes") > 0,
        times(words, "meta") > 0,
    )
}
