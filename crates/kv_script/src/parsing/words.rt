//! The words of a line.

ghost use Rattle.std.specs.Prelude.{◌≡◌, ◌∷◌, [], MatchOption};
ghost use Rattle.kv_script.specs.Words.{words_of};

/// The first word, and what stands behind the space after it, if there is one.
pub(crate) fn split_word(text: &str) -> Option<(&str, &str)>
    ensures { MatchOption result (words_of text.entry.now ≡ text.entry.now ∷ [])
        (λ parts. words_of text.entry.now ≡ parts.0.now ∷ words_of parts.1.now) }
{
    text.split_once(' ')
}
