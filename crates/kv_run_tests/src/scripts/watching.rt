//! Watches, line by line: each line is answered by itself, on one bucket, with values in base64. What is answered stands
//! behind what was there.

use super::*;
use kv_run::answer_line;
use kv_single::Bucket;

// A line, and the answers to it.
type Row = (&'static str, &'static str);

// The answers to a line stand behind what was there. After want of memory whole lines of them do.
fn is_answered(
    alloc: Global,
    bucket: &mut Bucket,
    row: Row,
    out: &mut Vec<u8>,
) -> Result<bool, KvError> {
    let before = out.len();
    let answer = answer_line(alloc, bucket, row.0.as_bytes(), out);
    let answers = out.get(before..).unwrap_or(&[]);
    match answer {
        Ok(()) => Ok(answers == row.1.as_bytes()),
        Err(KvError::OutOfMemory) if is_front(answers, row.1.as_bytes()) => {
            Err(KvError::OutOfMemory)
        }
        Err(_) => Ok(false),
    }
}

fn are_answered_once(alloc: Global, config: &Config, rows: &[Row]) -> Result<bool, KvError> {
    let mut bucket = Bucket::open(alloc, config)?;
    let mut out = Vec::new(alloc);
    for row in rows {
        if !is_answered(alloc, &mut bucket, *row, &mut out)? {
            return Ok(false);
        }
    }
    Ok(true)
}

// In a new bucket each line has its answers.
fn are_answered(rt: &impl Abort, alloc: Global, rows: &[Row]) -> Result<(), KvError> {
    let config = named(alloc)?;
    equal(
        rt,
        once_more!(are_answered_once(alloc, &config, rows))?,
        true,
    );
    Ok(())
}

const WATCH_OF_NOTHING: &[Row] = &[
    ("watch >", "{\"watch\":1}\n"),
    (
        "take 1 2",
        "{\"marker\":true,\"watch\":1}\n\
        {\"empty\":true,\"watch\":1}\n",
    ),
];

#[test]
fn a_watch_of_nothing_has_its_marker(rt: HostRuntime) -> Result<(), Fail> {
    are_answered(&rt, rt.alloc(), WATCH_OF_NOTHING)?;
    Ok(())
}

const INITIAL_BY_REVISION: &[Row] = &[
    ("put b MQ==", "{\"revision\":1}\n"),
    ("put a Mg==", "{\"revision\":2}\n"),
    ("put b Mw==", "{\"revision\":3}\n"),
    ("watch >", "{\"watch\":1}\n"),
    (
        "take 1 4",
        "{\"key\":\"a\",\"op\":\"PUT\",\"revision\":2,\"size\":1,\"value\":\"Mg==\",\"watch\":1}\n\
        {\"key\":\"b\",\"op\":\"PUT\",\"revision\":3,\"size\":1,\"value\":\"Mw==\",\"watch\":1}\n\
        {\"marker\":true,\"watch\":1}\n\
        {\"empty\":true,\"watch\":1}\n",
    ),
];

#[test]
fn initial_entries_come_by_revision(rt: HostRuntime) -> Result<(), Fail> {
    are_answered(&rt, rt.alloc(), INITIAL_BY_REVISION)?;
    Ok(())
}
