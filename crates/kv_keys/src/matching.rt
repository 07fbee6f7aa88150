//! Which keys a filter matches.

ghost use Rattle.std.specs.Prelude.{◌≡◌, [], ◌∷◌, ◌<◌, ◌||◌, length, IfSome};
ghost use Rattle.std.specs.Option.{option_copied, option_map_or};
ghost use Rattle.std.specs.Str.{bytes_eq};
ghost use Rattle.kv_keys.specs.Matching.{tokens, is_star, is_rest, matches};

/// The first token, and what stands behind its dot, if there is a dot.
pub(crate) fn first_token(text: &str) -> (&str, Option<&str>)
    ensures tokens { tokens text.now ≡ result.0.now ∷ option_map_or tokens (option_copied result.1) [] }
    ensures shorter { IfSome result.1 (λ rest. length rest.now < length text.now) }
{
    match text.split_once('.') {
        Some((token, rest)) => (token, Some(rest)),
        None => (text, None),
    }
}

/// Whether this token, with what stands behind it, is a `>` at the end.
#[tactic(auto, using(crate::proofs::Tokens::is_rest_more))]
pub(crate) fn is_rest(token: &str, rest: Option<&str>) -> bool
    ensures { result ≡ is_rest (token.now ∷ option_map_or tokens (option_copied rest.entry) []) }
{
    match rest {
        None => token == ">",
        Some(_) => false,
    }
}

/// Whether a token of a filter that is no `>` matches a token of a key.
fn token_matches(token: &str, word: &str) -> bool
    ensures { result ≡ (is_star token.now || bytes_eq token.now word.now) }
{
    token == "*" || token == word
}

/// Whether the filter matches the key. It reads each byte of both a fixed number of times: a `>` is at the end of a
/// filter, so no token has to be tried at a second place.
#[tactic(auto, using(crate::proofs::Tokens::no_match_left, crate::proofs::Tokens::no_match_right), unfolding(crate::specs::Matching::matches))]
pub(crate) fn matches(filter: &str, key: &str) -> bool
    ensures { result ≡ matches filter.now key.now }
{
    let (token, more) = first_token(filter);
    let (word, words) = first_token(key);
    if is_rest(token, more) {
        return true;
    }
    if !token_matches(token, word) {
        return false;
    }
    match (more, words) {
        (None, None) => true,
        (Some(filter), Some(key)) => matches(filter, key),
        _ => false,
    }
}
