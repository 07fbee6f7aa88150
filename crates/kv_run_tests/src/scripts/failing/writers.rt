//! Writers that fail, as one to a full disk does.

use super::*;

// The writer takes one byte a call, and fails at this call.
fn writer_fails_at(alloc: Global, call: usize) -> Result<bool, KvError> {
    let before = call.saturating_sub(1).min(TEXT.len());
    let given = Given {
        write_most: 1,
        write_calls: before,
        ..PLAIN
    };
    Ok(is(
        &replayed(alloc, given)?,
        Err(KvError::WriteFault),
        &TEXT[..before],
    ))
}

#[test]
fn a_writer_that_fails_has_the_bytes_before(rt: HostRuntime) -> Result<(), Fail> {
    for call in 1..TEXT.len() + 1 {
        assert!(rt; writer_fails_at(rt.alloc(), call)?);
    }
    Ok(())
}

#[test]
fn a_writer_that_fails_has_what_it_took(rt: HostRuntime) -> Result<(), Fail> {
    let given = Given {
        write_most: 4,
        write_calls: 1,
        ..FIRST
    };
    assert!(rt;
        is(
            &replayed(rt.alloc(), given)?,
            Err(KvError::WriteFault),
            b"{\"re"
        )
    );
    Ok(())
}

#[test]
fn a_writer_that_takes_nothing_ends_the_run(rt: HostRuntime) -> Result<(), Fail> {
    let given = Given {
        write_most: 0,
        ..FIRST
    };
    assert!(rt; is(&replayed(rt.alloc(), given)?, Err(KvError::WriteFault), b""));
    Ok(())
}
