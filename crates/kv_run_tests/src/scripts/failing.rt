//! Runs over readers and writers that give and take a few bytes a call, and fail.

use super::devices::{Given, is, replayed};
use super::*;

mod readers;
mod writers;

const SCRIPT: &[u8] = b"put b MQ==\nput a Mg==\nput b Mw==\nwatch >\ntake 1 4\n";

const TEXT: &[u8] = b"{\"revision\":1}\n\
    {\"revision\":2}\n\
    {\"revision\":3}\n\
    {\"watch\":1}\n\
    {\"key\":\"a\",\"op\":\"PUT\",\"revision\":2,\"size\":1,\"value\":\"Mg==\",\"watch\":1}\n\
    {\"key\":\"b\",\"op\":\"PUT\",\"revision\":3,\"size\":1,\"value\":\"Mw==\",\"watch\":1}\n\
    {\"marker\":true,\"watch\":1}\n\
    {\"empty\":true,\"watch\":1}\n";

const PLAIN: Given<'static> = Given {
    script: SCRIPT,
    text: TEXT,
    read_most: usize::MAX,
    read_fails_at: 0,
    write_most: usize::MAX,
    write_calls: usize::MAX,
    calls: u64::MAX,
};

const FIRST: Given<'static> = Given {
    script: b"put a MQ==\nget a\n",
    text: FIRST_TEXT,
    ..PLAIN
};

const FIRST_TEXT: &[u8] = b"{\"revision\":1}\n\
    {\"key\":\"a\",\"op\":\"PUT\",\"revision\":1,\"size\":1,\"value\":\"MQ==\"}\n";

#[test]
fn one_byte_a_call_gives_the_text(rt: HostRuntime) -> Result<(), Fail> {
    let given = Given {
        read_most: 1,
        write_most: 1,
        ..PLAIN
    };
    let ran = replayed(rt.alloc(), given)?;
    assert!(rt; is(&ran, Ok(()), TEXT));
    equal(&rt, ran.asked, SCRIPT.len() + 1);
    Ok(())
}
