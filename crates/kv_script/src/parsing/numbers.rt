//! Numbers of a script.

ghost use Rattle.std.specs.Prelude.{◌≡◌};
ghost use Rattle.std.specs.Str.{all_ascii_digits};
ghost use Rattle.kv_script.specs.Words.{number_of};
ghost use Rattle.kv_script.specs.Commands.{texts, optional_number};

const MOST_DIGITS: usize = 20;

fn all_digits(bytes: &[u8]) -> bool
    ensures { result ≡ all_ascii_digits bytes.now }
{
    bytes.iter().all(|byte| byte.is_ascii_digit())
}

/// The number of a word, if it is one: 1 to 20 digits whose value fits 64 bits. Zeros in front are allowed.
pub(crate) fn number_of(word: &str) -> Option<u64>
    ensures { result ≡ number_of word.now }
{
    if word.is_empty() || word.len() > MOST_DIGITS {
        return None;
    }
    if !all_digits(word.as_bytes()) {
        return None;
    }
    word.parse::<u64>().ok()
}

/// No number, or that of the one word.
pub(crate) fn optional_number(words: &[&str]) -> Option<Option<u64>>
    ensures { result ≡ optional_number (texts words.now) }
{
    match *words {
        [] => Some(None),
        [word] => number_of(word).map(Some),
        _ => None,
    }
}
