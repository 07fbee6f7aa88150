//! Lines by texts from outside: the rules of the script's grammar, and worked rows of scripts.

use kv_keys::KvError;
use kv_model::{Options, Request, Start};
use kv_script::{Command, Form, is_skipped, parse, parse_write};
use kv_test_tools::{LATEST, once_more};
use std::alloc::{AllocError, Global};
use std::process::Abort;
use std::test::Fail;

// Of what a line asks for the name, the key or the filters, the value, and the first number.
type Asked = (&'static str, &'static str, &'static [u8], Option<u64>);

const COMMANDS: &[(Form, &str, Asked)] = &[
    (Form::Base64, "put a MQ==", ("put", "a", b"1", None)),
    (Form::Base64, "put a -", ("put", "a", b"", None)),
    (
        Form::Base64,
        "create b.c TWE=",
        ("create", "b.c", b"Ma", None),
    ),
    (
        Form::Base64,
        "update n 0 TWFu",
        ("update", "n", b"Man", Some(0)),
    ),
    (
        Form::Base64,
        "update n 18446744073709551615 -",
        ("update", "n", b"", Some(u64::MAX)),
    ),
    (Form::Base64, "delete a", ("delete", "a", b"", None)),
    (Form::Base64, "delete a 3", ("delete", "a", b"", Some(3))),
    (Form::Base64, "purge a", ("purge", "a", b"", None)),
    (Form::Base64, "purge a 007", ("purge", "a", b"", Some(7))),
    (Form::Base64, "get a", ("get", "a", b"", None)),
    (
        Form::Base64,
        "get a 00000000000000000001",
        ("get at", "a", b"", Some(1)),
    ),
    (
        Form::Base64,
        "get a 18446744073709551615",
        ("get at", "a", b"", Some(u64::MAX)),
    ),
    (Form::Base64, "history a", ("history", "a", b"", None)),
    (Form::Base64, "keys a.>", ("keys", "a.>", b"", None)),
    (Form::Base64, "keys a,b.*,a", ("keys", "a,b.*,a", b"", None)),
    (Form::Base64, "watch a.*,>", ("watch", "a.*,>", b"", None)),
    (Form::Base64, "take 1 1", ("take", "", b"", Some(1))),
    (Form::Base64, "take 2 1000000", ("take", "", b"", Some(2))),
    (Form::Base64, "stop 3", ("stop", "", b"", Some(3))),
    (Form::Base64, "status", ("status", "", b"", None)),
    (Form::Base64, "seal", ("seal", "", b"", None)),
    (Form::Base64, "compact 7", ("compact", "", b"", Some(7))),
    (Form::Base64, "compact 0", ("compact", "", b"", Some(0))),
    (
        Form::Base64,
        "compact 18446744073709551615",
        ("compact", "", b"", Some(u64::MAX)),
    ),
    (Form::Base64, "place zinke", ("place", "zinke", b"", None)),
    (Form::Base64, "batch 0", ("batch", "", b"", Some(0))),
    (Form::Base64, "batch 002", ("batch", "", b"", Some(2))),
    (
        Form::Base64,
        "batch 18446744073709551615",
        ("batch", "", b"", Some(u64::MAX)),
    ),
    (Form::Text, "put k hello", ("put", "k", b"hello", None)),
    (
        Form::Text,
        "put k hello, you",
        ("put", "k", b"hello, you", None),
    ),
    (Form::Text, "put k  a  b ", ("put", "k", b" a  b ", None)),
    (Form::Text, "put k ", ("put", "k", b"", None)),
    (Form::Text, "put k  ", ("put", "k", b" ", None)),
    (Form::Text, "put k -", ("put", "k", b"-", None)),
    (Form::Text, "put k MQ==", ("put", "k", b"MQ==", None)),
    (
        Form::Text,
        "put k \u{e9}\t\u{1f600}",
        ("put", "k", b"\xc3\xa9\t\xf0\x9f\x98\x80", None),
    ),
    (Form::Text, "put k put k v", ("put", "k", b"put k v", None)),
    (Form::Text, "create k ", ("create", "k", b"", None)),
    (Form::Text, "create k # x", ("create", "k", b"# x", None)),
    (
        Form::Text,
        "update k 7 x y",
        ("update", "k", b"x y", Some(7)),
    ),
    (Form::Text, "update k 007 ", ("update", "k", b"", Some(7))),
    (Form::Text, "update k 7  8", ("update", "k", b" 8", Some(7))),
    (Form::Text, "delete k 7", ("delete", "k", b"", Some(7))),
    (Form::Text, "purge k", ("purge", "k", b"", None)),
    (Form::Text, "get a.b", ("get", "a.b", b"", None)),
    (Form::Text, "get a.b 3", ("get at", "a.b", b"", Some(3))),
    (Form::Text, "keys a.>,b", ("keys", "a.>,b", b"", None)),
    (
        Form::Text,
        "watch a,b.> history",
        ("watch", "a,b.>", b"", None),
    ),
    (Form::Text, "take 1 9", ("take", "", b"", Some(1))),
    (Form::Text, "status", ("status", "", b"", None)),
    (Form::Text, "compact 4", ("compact", "", b"", Some(4))),
    (Form::Text, "batch 4", ("batch", "", b"", Some(4))),
];

// Lines of watches, and their options.
const WATCHES: &[(&str, Options)] = &[
    ("watch >", LATEST),
    (
        "watch > history",
        Options {
            start: Start::History,
            ..LATEST
        },
    ),
    (
        "watch > updates",
        Options {
            start: Start::Updates,
            ..LATEST
        },
    ),
    (
        "watch > from=5",
        Options {
            start: Start::From(5),
            ..LATEST
        },
    ),
    (
        "watch > nodeletes from=0 meta",
        Options {
            start: Start::From(0),
            ignore_deletes: true,
            headers_only: true,
        },
    ),
    (
        "watch > meta history",
        Options {
            start: Start::History,
            headers_only: true,
            ..LATEST
        },
    ),
    (
        "watch > updates nodeletes",
        Options {
            start: Start::Updates,
            ignore_deletes: true,
            ..LATEST
        },
    ),
];

pub(crate) fn parsed(alloc: Global, form: Form, line: &[u8]) -> Result<Command, KvError> {
    once_more!(parse(alloc, form, line))
}

// The name of a write, its key, its value and its revision, if it has one.
fn parts_of_write(request: &Request) -> (&str, &str, &[u8], Option<u64>) {
    match request {
        Request::Put { key, value } => ("put", key.as_str(), value.as_slice(), None),
        Request::Create { key, value } => ("create", key.as_str(), value.as_slice(), None),
        Request::Update { key, value, last } => {
            ("update", key.as_str(), value.as_slice(), Some(*last))
        }
        Request::Delete { key, last } => ("delete", key.as_str(), b"", *last),
        Request::Purge { key, last } => ("purge", key.as_str(), b"", *last),
    }
}

// The name of a command, its key or filters, its value, and its first number.
fn parts(command: &Command) -> (&str, &str, &[u8], Option<u64>) {
    match command {
        Command::Write(request) => parts_of_write(request),
        Command::Get(key) => ("get", key.as_str(), b"", None),
        Command::GetAt(key, revision) => ("get at", key.as_str(), b"", Some(*revision)),
        Command::History(key) => ("history", key.as_str(), b"", None),
        Command::Keys(filters) => ("keys", filters.as_str(), b"", None),
        Command::Watch(filters, _) => ("watch", filters.as_str(), b"", None),
        Command::Take { watch, .. } => ("take", "", b"", Some(*watch)),
        Command::Stop(watch) => ("stop", "", b"", Some(*watch)),
        Command::Status => ("status", "", b"", None),
        Command::Seal => ("seal", "", b"", None),
        Command::Compact(floor) => ("compact", "", b"", Some(*floor)),
        Command::Place(key) => ("place", key.as_str(), b"", None),
        Command::Batch(count) => ("batch", "", b"", Some(*count)),
    }
}

// Whether the line asks for this.
fn asks_for(alloc: Global, form: Form, line: &str, wanted: Asked) -> Result<bool, KvError> {
    let command = parsed(alloc, form, line.as_bytes())?;
    Ok(parts(&command) == wanted)
}

// Whether the line asks for a watch with these options.
fn has_options(alloc: Global, line: &str, options: Options) -> Result<bool, KvError> {
    match parsed(alloc, Form::Base64, line.as_bytes())? {
        Command::Watch(_, found) => Ok(found == options),
        _ => Ok(false),
    }
}

// What a line of a batch asks for, or why it is refused there.
fn asked_in_batch(alloc: Global, line: &str) -> Result<Request, KvError> {
    once_more!(parse_write(alloc, Form::Base64, line.as_bytes()))
}

// Lines of a batch that ask for no write, and what each is refused by.
const NO_WRITES: &[(&str, KvError)] = &[
    ("get a", KvError::BadCommand),
    ("get .a", KvError::BadCommand),
    ("batch 1", KvError::BadCommand),
    ("put", KvError::BadCommand),
    ("puts a -", KvError::BadCommand),
    ("put a MQ", KvError::BadCommand),
    ("purge .a 1", KvError::BadKey),
];

// Whether a line of a batch asks for this write.
fn asks_for_write(alloc: Global, line: &str, wanted: Asked) -> Result<bool, KvError> {
    let request = asked_in_batch(alloc, line)?;
    Ok(parts_of_write(&request) == wanted)
}

// What a line of a batch is refused by, if it is.
fn refusal_in_batch(alloc: Global, line: &str) -> Option<KvError> {
    match asked_in_batch(alloc, line) {
        Ok(_) => None,
        Err(error) => Some(error),
    }
}

#[test]
fn lines_of_a_batch_ask_for_writes(rt: HostRuntime) -> Result<(), Fail> {
    let line = "update n 7 TWFu";
    let wanted: Asked = ("update", "n", b"Man", Some(7));
    holds(&rt, line, asks_for_write(rt.alloc(), line, wanted)?);
    for (line, error) in NO_WRITES {
        holds(
            &rt,
            line,
            refusal_in_batch(rt.alloc(), line) == Some(*error),
        );
    }
    Ok(())
}

#[test]
fn lines_ask_for_these_commands(rt: HostRuntime) -> Result<(), Fail> {
    for (form, line, wanted) in COMMANDS {
        holds(&rt, line, asks_for(rt.alloc(), *form, line, *wanted)?);
    }
    Ok(())
}

#[test]
fn watches_have_these_options(rt: HostRuntime) -> Result<(), Fail> {
    for (line, options) in WATCHES {
        holds(&rt, line, has_options(rt.alloc(), line, *options)?);
    }
    Ok(())
}

// Behind `put abc ` so many characters make the longest line that there may be, and their base64 is a value of so many bytes.
const CHARACTERS: usize = 1_399_992;

const BYTES: usize = 1_049_994;

// More than any line here has.
const ROOM: usize = 1_400_100;

// A line that begins with this text, and then has characters of base64.
fn long_line(alloc: Global, begin: &[u8]) -> Result<Vec<u8>, AllocError> {
    let mut line = Vec::with_capacity(alloc, ROOM)?;
    line.extend_from_slice(begin)?;
    for _ in 0..CHARACTERS {
        line.push(b'A')?;
    }
    Ok(line)
}

// How many bytes the value has that a long line puts, or why the line is refused.
fn long_value(alloc: Global, begin: &[u8]) -> Result<usize, KvError> {
    let line = once_more!(long_line(alloc, begin))?;
    let command = parsed(alloc, Form::Base64, &line)?;
    Ok(parts(&command).2.len())
}

// A line has 1,400,000 bytes at most.
#[test]
fn a_line_has_at_most_1_400_000_bytes(rt: HostRuntime) {
    let alloc = rt.alloc();
    assert!(rt; long_value(alloc, b"put abc ") == Ok(BYTES));
    assert!(rt; long_value(alloc, b"put abcd ") == Err(KvError::BadCommand));
}

#[test]
fn empty_lines_and_comments_are_skipped(rt: HostRuntime) {
    for line in ["", "#", "# put a -"] {
        holds(&rt, line, is_skipped(line.as_bytes()));
    }
    for line in [" ", "get a", " #", "\r"] {
        holds(&rt, line, !is_skipped(line.as_bytes()));
    }
}

// Ends the test where something does not hold of a line, and tells the line.
pub(crate) fn holds<R: Abort>(rt: &R, line: &str, is_so: bool) {
    assert!(rt; is_so, "{line}");
}
