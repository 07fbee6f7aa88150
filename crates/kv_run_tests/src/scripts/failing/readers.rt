//! Readers that fail, and how often a reader is asked.

use super::*;

// The beginning of the text that has so many lines.
fn first_lines(lines: usize) -> &'static [u8] {
    let mut left = lines;
    for at in 0..TEXT.len() {
        if left == 0 {
            return &TEXT[..at];
        }
        if TEXT[at] == b'\n' {
            left -= 1;
        }
    }
    TEXT
}

// The text of so many lines of the script: the last of them, a take, has more than one answer.
fn text_of_lines(lines: usize) -> &'static [u8] {
    if lines < 5 { first_lines(lines) } else { TEXT }
}

#[test]
fn nothing_is_read_after_the_end(rt: HostRuntime) -> Result<(), Fail> {
    let ran = replayed(rt.alloc(), PLAIN)?;
    assert!(rt; is(&ran, Ok(()), TEXT));
    equal(&rt, ran.asked, 2);
    Ok(())
}

// The reader fails at this call, in the midst of a script that it gives byte by byte.
fn reader_fails_at(alloc: Global, call: usize) -> Result<bool, KvError> {
    let given = Given {
        read_most: 1,
        read_fails_at: call,
        ..PLAIN
    };
    let ran = replayed(alloc, given)?;
    let read = call.saturating_sub(1).min(SCRIPT.len());
    let text = text_of_lines(lines_in(&SCRIPT[..read]));
    Ok(is(&ran, Err(KvError::ReadFault), text) && ran.asked == call)
}

#[test]
fn a_reader_that_fails_ends_behind_whole_lines(rt: HostRuntime) -> Result<(), Fail> {
    for call in 1..SCRIPT.len() + 2 {
        assert!(rt; reader_fails_at(rt.alloc(), call)?);
    }
    Ok(())
}

#[test]
fn a_reader_that_fails_in_a_line_answers_those_before(rt: HostRuntime) -> Result<(), Fail> {
    let given = Given {
        script: b"put a MQ==\nput b",
        read_fails_at: 2,
        ..FIRST
    };
    let ran = replayed(rt.alloc(), given)?;
    assert!(rt; is(&ran, Err(KvError::ReadFault), b"{\"revision\":1}\n"));
    Ok(())
}

#[test]
fn a_last_line_without_its_end_is_answered(rt: HostRuntime) -> Result<(), Fail> {
    let given = Given {
        script: b"put a MQ==\nget a",
        ..FIRST
    };
    assert!(rt; is(&replayed(rt.alloc(), given)?, Ok(()), FIRST.text));
    Ok(())
}

const SEAL: Given<'static> = Given {
    script: b"seal\n",
    text: b"{\"sealed\":true}\n",
    read_most: 1,
    ..PLAIN
};

// Within this many calls the script ends well, and has its text.
fn calls_suffice(
    rt: &impl Abort,
    alloc: Global,
    calls: u64,
    script: Given<'_>,
) -> Result<(), KvError> {
    let given = Given { calls, ..script };
    assert!(rt; is(&replayed(alloc, given)?, Ok(()), given.text));
    Ok(())
}

// This many calls, all of them made, are too few for the end of the script, and enough for this text.
fn calls_end_at(
    rt: &impl Abort,
    alloc: Global,
    calls: u64,
    script: Given<'_>,
    text: &[u8],
) -> Result<(), KvError> {
    let ran = replayed(alloc, Given { calls, ..script })?;
    assert!(rt; is(&ran, Err(KvError::ReadFault), text));
    equal(rt, ran.asked as u64, calls);
    Ok(())
}

#[test]
fn a_bound_on_read_calls_ends_the_run(rt: HostRuntime) -> Result<(), Fail> {
    calls_suffice(&rt, rt.alloc(), 6, SEAL)?;
    for (calls, text) in [(5, SEAL.text), (4, b""), (0, b"")] {
        calls_end_at(&rt, rt.alloc(), calls, SEAL, text)?;
    }
    calls_suffice(&rt, rt.alloc(), 100, FIRST)?;
    Ok(())
}
