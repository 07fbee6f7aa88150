//! Answers with entries and keys, by the texts of the script's rules and of worked rows.

use kv_keys::{Key, KvError};
use kv_model::{Op, Write};
use kv_script::{Form, append_entry, append_history, append_keys, append_taken_entry};
use kv_test_tools::once_more;
use std::alloc::{AllocError, Global};
use std::process::Abort;
use std::test::Fail;

// An entry of the key `a.b` that a watch hands out.
#[derive(Clone, Copy)]
struct Taken {
    form: Form,
    watch: u64,
    op: Op,
    revision: u64,
    size: u64,
    // If it is shown.
    value: Option<&'static [u8]>,
}

const IN_BASE64: Taken = Taken {
    form: Form::Base64,
    watch: 1,
    op: Op::Put,
    revision: 7,
    size: 0,
    value: None,
};

const IN_TEXT: Taken = Taken {
    form: Form::Text,
    ..IN_BASE64
};

const TAKEN: &[(Taken, &str)] = &[
    (
        Taken {
            revision: 2,
            size: 1,
            value: Some(b"2"),
            ..IN_BASE64
        },
        "{\"key\":\"a.b\",\"op\":\"PUT\",\"revision\":2,\"size\":1,\"value\":\"Mg==\",\"watch\":1}\n",
    ),
    (
        Taken {
            revision: 3,
            value: Some(b""),
            ..IN_BASE64
        },
        "{\"key\":\"a.b\",\"op\":\"PUT\",\"revision\":3,\"size\":0,\"value\":\"\",\"watch\":1}\n",
    ),
    (
        Taken {
            watch: 2,
            revision: 4,
            size: 3,
            ..IN_BASE64
        },
        "{\"key\":\"a.b\",\"op\":\"PUT\",\"revision\":4,\"size\":3,\"watch\":2}\n",
    ),
    (
        Taken {
            watch: 2,
            op: Op::Delete,
            revision: 5,
            ..IN_BASE64
        },
        "{\"key\":\"a.b\",\"op\":\"DEL\",\"revision\":5,\"size\":0,\"watch\":2}\n",
    ),
    (
        Taken {
            watch: 2,
            op: Op::Purge,
            revision: 6,
            ..IN_BASE64
        },
        "{\"key\":\"a.b\",\"op\":\"PURGE\",\"revision\":6,\"size\":0,\"watch\":2}\n",
    ),
    (
        Taken {
            size: 10,
            value: Some(b"hello, you"),
            ..IN_TEXT
        },
        "{\"key\":\"a.b\",\"op\":\"PUT\",\"revision\":7,\"size\":10,\"value\":\"hello, you\",\"watch\":1}\n",
    ),
    (
        Taken {
            value: Some(b""),
            ..IN_TEXT
        },
        "{\"key\":\"a.b\",\"op\":\"PUT\",\"revision\":7,\"size\":0,\"value\":\"\",\"watch\":1}\n",
    ),
    (
        Taken {
            size: 5,
            value: Some(b"\"\\\n\x01\x7f"),
            ..IN_TEXT
        },
        "{\"key\":\"a.b\",\"op\":\"PUT\",\"revision\":7,\"size\":5,\"value\":\"\\\"\\\\\\n\\u0001\u{7f}\",\"watch\":1}\n",
    ),
    (
        Taken {
            size: 6,
            value: Some(b"\xc3\xa9\xf0\x9f\x98\x80"),
            ..IN_TEXT
        },
        "{\"key\":\"a.b\",\"op\":\"PUT\",\"revision\":7,\"size\":6,\"value\":\"\u{e9}\u{1f600}\",\"watch\":1}\n",
    ),
    (
        Taken {
            size: 2,
            value: Some(b"\xff\x00"),
            ..IN_TEXT
        },
        "{\"base64\":\"/wA=\",\"key\":\"a.b\",\"op\":\"PUT\",\"revision\":7,\"size\":2,\"watch\":1}\n",
    ),
    (
        Taken {
            size: 2,
            value: Some(b"a\xc3"),
            ..IN_TEXT
        },
        "{\"base64\":\"YcM=\",\"key\":\"a.b\",\"op\":\"PUT\",\"revision\":7,\"size\":2,\"watch\":1}\n",
    ),
    (
        Taken {
            watch: 2,
            size: 3,
            ..IN_TEXT
        },
        "{\"key\":\"a.b\",\"op\":\"PUT\",\"revision\":7,\"size\":3,\"watch\":2}\n",
    ),
    (
        Taken {
            watch: 2,
            op: Op::Delete,
            revision: 8,
            ..IN_TEXT
        },
        "{\"key\":\"a.b\",\"op\":\"DEL\",\"revision\":8,\"size\":0,\"watch\":2}\n",
    ),
];

const READ_IN_BASE64: &str = "{\"entries\":[]}\n\
    {\"key\":\"a.b\",\"op\":\"PUT\",\"revision\":1,\"size\":3,\"value\":\"YSBi\"}\n\
    {\"entries\":[{\"key\":\"a.b\",\"op\":\"PUT\",\"revision\":1,\"size\":3,\"value\":\"YSBi\"},{\"key\":\"a.b\",\"op\":\"PUT\",\"revision\":2,\"size\":1,\"value\":\"/g==\"}]}\n";

const READ_IN_TEXT: &str = "{\"entries\":[]}\n\
    {\"key\":\"a.b\",\"op\":\"PUT\",\"revision\":1,\"size\":3,\"value\":\"a b\"}\n\
    {\"entries\":[{\"key\":\"a.b\",\"op\":\"PUT\",\"revision\":1,\"size\":3,\"value\":\"a b\"},{\"base64\":\"/g==\",\"key\":\"a.b\",\"op\":\"PUT\",\"revision\":2,\"size\":1}]}\n";

const KEYS: &str = "{\"keys\":[]}\n{\"keys\":[\"a.b\",\"zinke\"]}\n";

fn key(alloc: Global, text: &str) -> Result<Key, KvError> {
    once_more!(Key::parse(alloc, text))
}

fn put_once(alloc: Global, value: &[u8], revision: u64) -> Result<Write, KvError> {
    let key = Key::parse(alloc, "a.b")?;
    Write::new(alloc, key, Op::Put, value, revision)
}

fn put(alloc: Global, value: &[u8], revision: u64) -> Result<Write, KvError> {
    once_more!(put_once(alloc, value, revision))
}

fn append_taken(
    alloc: Global,
    out: &mut Vec<u8>,
    key: &Key,
    taken: Taken,
) -> Result<(), AllocError> {
    append_taken_entry(
        alloc,
        taken.form,
        out,
        taken.watch,
        key,
        taken.op,
        taken.revision,
        taken.size,
        taken.value,
    )
}

// Appended once more where memory was refused: nothing was appended then.
fn has_text<R: Abort>(
    rt: &R,
    alloc: Global,
    key: &Key,
    taken: Taken,
    text: &str,
) -> Result<(), AllocError> {
    let mut out = Vec::new(alloc);
    once_more!(append_taken(alloc, &mut out, key, taken))?;
    assert!(rt; out.as_slice() == text.as_bytes(), "{text}");
    Ok(())
}

#[test]
fn entries_of_takes_have_these_texts(rt: HostRuntime) -> Result<(), Fail> {
    let key = key(rt.alloc(), "a.b")?;
    for (taken, text) in TAKEN {
        has_text(&rt, rt.alloc(), &key, *taken, text)?;
    }
    Ok(())
}

fn history(
    alloc: Global,
    form: Form,
    out: &mut Vec<u8>,
    writes: &[&Write],
) -> Result<(), AllocError> {
    once_more!(append_history(alloc, form, out, writes))
}

// No history, the first of two entries, and the history of both.
fn reads(alloc: Global, form: Form, first: &Write, second: &Write) -> Result<Vec<u8>, AllocError> {
    let mut out = Vec::new(alloc);
    history(alloc, form, &mut out, &[])?;
    once_more!(append_entry(alloc, form, &mut out, first))?;
    history(alloc, form, &mut out, &[first, second])?;
    Ok(out)
}

#[test]
fn entries_of_reads_have_these_texts(rt: HostRuntime) -> Result<(), Fail> {
    let first = put(rt.alloc(), b"a b", 1)?;
    let second = put(rt.alloc(), b"\xfe", 2)?;
    for (form, text) in [(Form::Base64, READ_IN_BASE64), (Form::Text, READ_IN_TEXT)] {
        let out = reads(rt.alloc(), form, &first, &second)?;
        assert!(rt; out.as_slice() == text.as_bytes(), "{text}");
    }
    Ok(())
}

fn keys(alloc: Global, out: &mut Vec<u8>, keys: &[&Key]) -> Result<(), AllocError> {
    once_more!(append_keys(alloc, out, keys))
}

// No keys, and both of two.
fn none_and_both(alloc: Global, first: &Key, second: &Key) -> Result<Vec<u8>, AllocError> {
    let mut out = Vec::new(alloc);
    keys(alloc, &mut out, &[])?;
    keys(alloc, &mut out, &[first, second])?;
    Ok(out)
}

#[test]
fn keys_have_this_text(rt: HostRuntime) -> Result<(), Fail> {
    let first = key(rt.alloc(), "a.b")?;
    let second = key(rt.alloc(), "zinke")?;
    let out = none_and_both(rt.alloc(), &first, &second)?;
    assert!(rt; out.as_slice() == KEYS.as_bytes());
    Ok(())
}
