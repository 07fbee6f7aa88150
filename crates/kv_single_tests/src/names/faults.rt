//! Which texts are keys, filters, lists of filters and names of buckets.

use super::*;

// How many filters a text is as a key, as a filter and as a list of filters: 0 where it is none.
type Kind = [u64; 3];

const KEY: Kind = [1, 1, 1];

const PATTERN: Kind = [0, 1, 1];

const NOTHING: Kind = [0, 0, 0];

fn filters_as<T: Parsed>(rt: &impl Abort, alloc: Global, text: &str, refusal: KvError) -> u64 {
    match made::<T>(alloc, text) {
        Ok(parsed) => {
            equal(rt, parsed.text(), text);
            parsed.filters()
        }
        Err(error) => {
            equal(rt, error, refusal);
            0
        }
    }
}

fn is_of_kind(rt: &impl Abort, alloc: Global, text: &str, kind: Kind) {
    let found = [
        filters_as::<Key>(rt, alloc, text, KvError::BadKey),
        filters_as::<Filter>(rt, alloc, text, KvError::BadFilter),
        filters_as::<Filters>(rt, alloc, text, KvError::BadFilter),
    ];
    assert_eq!(rt; found, kind, "{text}");
}

const KINDS: &[(&str, Kind)] = &[
    // Characters of keys.
    (
        "ABCDEFGHIJKLMNOPQRSTUVWXYZ.abcdefghijklmnopqrstuvwxyz.0123456789",
        KEY,
    ),
    ("-/_=", KEY),
    ("_kv.x", KEY),
    ("/", KEY),
    ("=", KEY),
    ("-.-", KEY),
    ("a", KEY),
    // Wildcards are no keys.
    ("*", PATTERN),
    (">", PATTERN),
    ("*.*", PATTERN),
    ("a.*", PATTERN),
    ("a.>", PATTERN),
    ("*.>", PATTERN),
    ("*.b.*", PATTERN),
    // Lists.
    ("a.*,*.b", [0, 0, 2]),
    ("a,a,>", [0, 0, 3]),
    ("a,,b", NOTHING),
    ("a,", NOTHING),
    (",", NOTHING),
    (",,", NOTHING),
    (",a", NOTHING),
    ("a.,b", NOTHING),
    ("a,.b", NOTHING),
    ("a, b", NOTHING),
    ("a*,b", NOTHING),
    ("a,>.b", NOTHING),
    // Empty texts and tokens.
    ("", NOTHING),
    (".", NOTHING),
    ("..", NOTHING),
    (".a", NOTHING),
    ("a.", NOTHING),
    ("a..b", NOTHING),
    ("a...b", NOTHING),
    (".a.b", NOTHING),
    ("a.b.", NOTHING),
    (".>", NOTHING),
    ("*.", NOTHING),
    (".*", NOTHING),
    // Wildcards beside other characters.
    ("a*", NOTHING),
    ("*a", NOTHING),
    ("a*b", NOTHING),
    ("**", NOTHING),
    ("a>", NOTHING),
    (">a", NOTHING),
    (">>", NOTHING),
    ("*>", NOTHING),
    (">*", NOTHING),
    ("a.b*", NOTHING),
    ("a.*b.c", NOTHING),
    ("a.>b", NOTHING),
    // `>` before the end.
    (">.a", NOTHING),
    ("a.>.b", NOTHING),
    (">.>", NOTHING),
    (">.*", NOTHING),
    // Characters outside keys.
    ("\u{e9}", NOTHING),
    ("a\u{e9}", NOTHING),
    ("a.\u{e9}", NOTHING),
    ("\u{3b1}", NOTHING),
    ("\u{1f511}", NOTHING),
    ("a\0", NOTHING),
    ("a\n", NOTHING),
    ("a\t", NOTHING),
    (" ", NOTHING),
    (" a", NOTHING),
    ("a ", NOTHING),
    ("a b", NOTHING),
    ("a\"", NOTHING),
    ("a\\b", NOTHING),
    ("a:", NOTHING),
    ("a;b", NOTHING),
    ("a<", NOTHING),
    ("a@", NOTHING),
    ("a[", NOTHING),
    ("a`", NOTHING),
    ("a{", NOTHING),
    ("a~", NOTHING),
    ("a+", NOTHING),
    ("a?", NOTHING),
];

#[test]
fn texts_are_keys_filters_or_lists(rt: HostRuntime) {
    for (text, kind) in KINDS {
        is_of_kind(&rt, rt.alloc(), text, *kind);
    }
}

const A: Repeated = Repeated {
    start: "",
    part: "a",
    count: 255,
    end: "",
};

// 255 bytes bound each filter of a list, and not the text of the list; it has 16 filters at most.
const LENGTHS: &[(Repeated, Kind)] = &[
    (A, KEY),
    (Repeated { count: 256, ..A }, NOTHING),
    (
        Repeated {
            part: "a.",
            count: 127,
            end: ">",
            ..A
        },
        PATTERN,
    ),
    (
        Repeated {
            part: "aa",
            count: 127,
            end: ".>",
            ..A
        },
        NOTHING,
    ),
    (Repeated { end: ",b", ..A }, [0, 0, 2]),
    (
        Repeated {
            count: 256,
            end: ",b",
            ..A
        },
        NOTHING,
    ),
    (
        Repeated {
            start: "b,",
            count: 256,
            ..A
        },
        NOTHING,
    ),
    (
        Repeated {
            part: "a,",
            count: 15,
            end: ">",
            ..A
        },
        [0, 0, 16],
    ),
    (
        Repeated {
            part: "a,",
            count: 16,
            end: ">",
            ..A
        },
        NOTHING,
    ),
];

#[test]
fn a_filter_has_255_bytes_and_a_list_16_filters(rt: HostRuntime) -> Result<(), Fail> {
    for (repeated, kind) in LENGTHS {
        let text = text_of(rt.alloc(), *repeated)?;
        is_of_kind(&rt, rt.alloc(), text.as_str(), *kind);
    }
    Ok(())
}

const NAMES: &[(&str, bool)] = &[
    ("a", true),
    ("Z", true),
    ("0", true),
    ("_", true),
    ("-", true),
    ("kv_Bucket-7", true),
    // 64 letters, and 65.
    (
        "nnnnnnnnnnnnnnnnnnnnnnnnnnnnnnnnnnnnnnnnnnnnnnnnnnnnnnnnnnnnnnnn",
        true,
    ),
    (
        "nnnnnnnnnnnnnnnnnnnnnnnnnnnnnnnnnnnnnnnnnnnnnnnnnnnnnnnnnnnnnnnnn",
        false,
    ),
    ("", false),
    ("a.b", false),
    ("a b", false),
    ("a/b", false),
    ("a=b", false),
    ("a*", false),
    (">", false),
    ("\u{e9}", false),
    ("a\n", false),
];

#[test]
fn these_texts_name_buckets(rt: HostRuntime) {
    for (text, answer) in NAMES {
        assert!(rt; is_name(text) == *answer, "{text}");
    }
}
