//! Which keys filters and lists of filters match.

use super::*;

fn filter_matches(alloc: Global, pattern: &str, key: &Key) -> Result<bool, KvError> {
    let filter: Filter = made(alloc, pattern)?;
    Ok(filter.matches(key))
}

fn list_matches(alloc: Global, list: &str, key: &Key) -> Result<bool, KvError> {
    let list: Filters = made(alloc, list)?;
    Ok(list.matches(key))
}

// What a filter answers, alone and as a list.
fn answers(
    rt: &impl Abort,
    alloc: Global,
    pattern: &str,
    text: &str,
    answer: bool,
) -> Result<(), KvError> {
    let key: Key = made(alloc, text)?;
    let found = [
        filter_matches(alloc, pattern, &key)?,
        list_matches(alloc, pattern, &key)?,
    ];
    assert_eq!(rt; found, [answer, answer], "{pattern} at {text}");
    Ok(())
}

const MATCHES: &[(&str, &str, bool)] = &[
    ("a.>", "a", false),
    ("a.>", "a.b", true),
    ("a.>", "a.b.c", true),
    ("a.*", "a", false),
    ("a.*", "a.b", true),
    ("a.*", "a.b.c", false),
    ("*", "a", true),
    ("*", "a.b", false),
    ("*", "a.b.c", false),
    ("*.b.>", "a", false),
    ("*.b.>", "a.b", false),
    ("*.b.>", "a.b.c", true),
    (">", "a", true),
    (">", "a.b", true),
    (">", "a.b.c", true),
    // Literals are whole tokens, in their case, and no expressions.
    ("a.b", "a", false),
    ("a.b", "a.b", true),
    ("a.b", "a.b.c", false),
    ("b", "a", false),
    ("b", "a.b", false),
    ("b", "a.b.c", false),
    ("a", "ab", false),
    ("ab", "a", false),
    ("a", "A", false),
    ("a.b", "a-b", false),
    ("a-b", "a.b", false),
];

#[test]
fn filters_match_whole_tokens(rt: HostRuntime) -> Result<(), Fail> {
    for (pattern, text, answer) in MATCHES {
        answers(&rt, rt.alloc(), pattern, text, *answer)?;
    }
    Ok(())
}

// As many tokens as 255 bytes have room for, where a search that goes back would take long: so many stars before an
// end, and so many tokens before a last one.
const MANY: &[(Repeated, Repeated, bool)] = &[
    (STARS, TOKENS, true),
    (
        STARS,
        Repeated {
            count: 126,
            ..TOKENS
        },
        false,
    ),
    (Repeated { end: "b", ..STARS }, TOKENS, false),
];

const STARS: Repeated = Repeated {
    start: "",
    part: "*.",
    count: 127,
    end: ">",
};

const TOKENS: Repeated = Repeated {
    start: "",
    part: "a.",
    count: 127,
    end: "a",
};

#[test]
fn filters_of_many_tokens_match(rt: HostRuntime) -> Result<(), Fail> {
    for (pattern, text, answer) in MANY {
        let pattern = text_of(rt.alloc(), *pattern)?;
        let text = text_of(rt.alloc(), *text)?;
        answers(&rt, rt.alloc(), pattern.as_str(), text.as_str(), *answer)?;
    }
    Ok(())
}

const LISTED: &[(&str, bool)] = &[
    ("a.b", true),
    ("a.c", true),
    ("x.b", true),
    ("c", false),
    ("x.c", false),
];

#[test]
fn lists_match_by_each_filter(rt: HostRuntime) -> Result<(), Fail> {
    for (text, answer) in LISTED {
        let key: Key = made(rt.alloc(), text)?;
        equal(&rt, list_matches(rt.alloc(), "a.*,*.b", &key)?, *answer);
    }
    Ok(())
}
