//! Batches over readers and writers that give and take a byte a call, and fail in the midst of one.

use super::devices::{Given, is, replayed};
use super::*;

const SCRIPT: &[u8] =
    b"batch 2\nput a MQ==\nput b Mg==\nbatch 3\nput a Mw==\nget a\ncreate b -\nput c -\n";

const FIRST: &[u8] = b"{\"revisions\":[1,2]}\n";

const TEXT: &[u8] = b"{\"revisions\":[1,2]}\n\
    {\"at\":2,\"code\":16,\"error\":\"BadCommand\"}\n\
    {\"revision\":3}\n";

const REFUSED: &[u8] = b"{\"revisions\":[1,2]}\n\
    {\"at\":2,\"code\":16,\"error\":\"BadCommand\"}\n";

const PLAIN: Given<'static> = Given {
    script: SCRIPT,
    text: TEXT,
    read_most: 1,
    read_fails_at: 0,
    write_most: 1,
    write_calls: usize::MAX,
    calls: u64::MAX,
};

#[test]
fn one_byte_a_call_gives_the_text_of_batches(rt: HostRuntime) -> Result<(), Fail> {
    assert!(rt; is(&replayed(rt.alloc(), PLAIN)?, Ok(()), TEXT));
    Ok(())
}

// The text of the lines that so many bytes of the script end: of a batch that has not ended there is none.
fn text_of(read: usize) -> &'static [u8] {
    match lines_in(&SCRIPT[..read.min(SCRIPT.len())]) {
        0..=2 => b"",
        3..=6 => FIRST,
        7 => REFUSED,
        _ => TEXT,
    }
}

fn reader_fails_at(alloc: Global, call: usize) -> Result<bool, KvError> {
    let given = Given {
        read_fails_at: call,
        ..PLAIN
    };
    let ran = replayed(alloc, given)?;
    Ok(is(
        &ran,
        Err(KvError::ReadFault),
        text_of(call.saturating_sub(1)),
    ))
}

#[test]
fn a_batch_that_breaks_off_has_no_answer(rt: HostRuntime) -> Result<(), Fail> {
    for call in 1..SCRIPT.len() + 2 {
        assert!(rt; reader_fails_at(rt.alloc(), call)?);
    }
    Ok(())
}

// A script that ends inside a batch.
const CUT: Given<'static> = Given {
    script: b"put a MQ==\nbatch 3\ndelete a\n# none\nput a Mg==",
    text: b"{\"revision\":1}\n{\"at\":3,\"code\":16,\"error\":\"BadCommand\"}\n",
    ..PLAIN
};

#[test]
fn a_batch_that_ends_early_is_refused(rt: HostRuntime) -> Result<(), Fail> {
    assert!(rt; is(&replayed(rt.alloc(), CUT)?, Ok(()), CUT.text));
    Ok(())
}
