//! A put and a get, by each call that runs a script.

use super::*;
use kv_run::{replay_bounded_in, replay_in};

// The call that runs the script: with values in base64 or in a form, and with a bound on read calls or without.
#[derive(Clone, Copy)]
pub(super) enum By {
    Replay,
    ReplayIn(Form),
    ReplayBounded(u64),
    ReplayBoundedIn(u64, Form),
}

fn run<R: Input, W: Output>(
    alloc: Global,
    by: By,
    reader: &mut R,
    writer: &mut W,
    config: &Config,
) -> Result<(), KvError> {
    match by {
        By::Replay => replay(alloc, reader, writer, config),
        By::ReplayIn(form) => replay_in(alloc, reader, writer, config, form),
        By::ReplayBounded(calls) => replay_bounded(alloc, reader, writer, config, calls),
        By::ReplayBoundedIn(calls, form) => {
            replay_bounded_in(alloc, reader, writer, config, calls, form)
        }
    }
}

const IN_BASE64: &str = "put a MQ==\nget a\n";

const IN_TEXT: &str = "put a 1\nget a\n";

const SHOWN_IN_BASE64: &str = "{\"revision\":1}\n\
    {\"key\":\"a\",\"op\":\"PUT\",\"revision\":1,\"size\":1,\"value\":\"MQ==\"}\n";

const SHOWN_IN_TEXT: &str = "{\"revision\":1}\n\
    {\"key\":\"a\",\"op\":\"PUT\",\"revision\":1,\"size\":1,\"value\":\"1\"}\n";

// What is no base64 is no value, where values stand in that.
const REFUSED: &str = "{\"code\":16,\"error\":\"BadCommand\"}\n\
    {\"code\":12,\"error\":\"KeyNotFound\"}\n";

// More calls than a script makes here.
const CALLS: u64 = 100;

// A call, a script, and the text.
struct Case {
    by: By,
    script: &'static str,
    text: &'static str,
}

const CASES: &[Case] = &[
    Case {
        by: By::Replay,
        script: IN_BASE64,
        text: SHOWN_IN_BASE64,
    },
    Case {
        by: By::Replay,
        script: IN_TEXT,
        text: REFUSED,
    },
    Case {
        by: By::ReplayIn(Form::Base64),
        script: IN_BASE64,
        text: SHOWN_IN_BASE64,
    },
    Case {
        by: By::ReplayIn(Form::Text),
        script: IN_TEXT,
        text: SHOWN_IN_TEXT,
    },
    Case {
        by: By::ReplayBounded(CALLS),
        script: IN_BASE64,
        text: SHOWN_IN_BASE64,
    },
    Case {
        by: By::ReplayBounded(CALLS),
        script: IN_TEXT,
        text: REFUSED,
    },
    Case {
        by: By::ReplayBoundedIn(CALLS, Form::Base64),
        script: IN_BASE64,
        text: SHOWN_IN_BASE64,
    },
    Case {
        by: By::ReplayBoundedIn(CALLS, Form::Text),
        script: IN_TEXT,
        text: SHOWN_IN_TEXT,
    },
];

// Runs what is left of a script, and writes its text.
fn run_left(
    alloc: Global,
    by: By,
    reader: &mut &[u8],
    written: &mut Vec<u8>,
) -> Result<(), KvError> {
    let config = named(alloc)?;
    let mut source = CountedReader::new(reader);
    let mut sink = CountedWriter::new(written);
    run(alloc, by, &mut source, &mut sink, &config)
}

// Runs a script to its end, and tells whether this text was written.
pub(super) fn gives(alloc: Global, by: By, script: &[u8], text: &[u8]) -> Result<bool, KvError> {
    let mut reader = script;
    let mut written = sheet(alloc)?;
    match run_left(alloc, by, &mut reader, &mut written) {
        Ok(()) => Ok(written.as_slice() == text && reader.is_empty()),
        Err(KvError::OutOfMemory) if is_front(&written, text) => Err(KvError::OutOfMemory),
        Err(_) => Ok(false),
    }
}

#[test]
fn each_call_answers_a_put_and_a_get(rt: HostRuntime) {
    for it in CASES {
        let (script, text) = (it.script.as_bytes(), it.text.as_bytes());
        let given = once_more!(gives(rt.alloc(), it.by, script, text));
        equal(&rt, given, Ok(true));
    }
}
