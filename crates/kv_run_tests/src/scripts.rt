//! Tests of scripts beside those of tests/scripts, which are run through the program. Each also passes where any one
//! request for memory is refused: then whole lines of the text were written, and the same run, made again, goes on.

use kv_keys::KvError;
use kv_model::Config;
use kv_run::{CountedReader, CountedWriter, Form, Input, Output, program, replay, replay_bounded};
use kv_test_tools::once_more;
use std::alloc::{AllocError, Global};
use std::fmt::Debug;
use std::process::Abort;
use std::test::Fail;

mod adapters;
mod batches;
mod devices;
mod ends_of_lines;
mod failing;
mod first;
mod lines;
mod programs;
mod watching;

// The configuration that is named where no other is.
fn named(alloc: Global) -> Result<Config, KvError> {
    once_more!(Config::named(alloc, "kv"))
}

fn sheet_once(alloc: Global) -> Result<Vec<u8>, AllocError> {
    Ok(Vec::with_capacity(alloc, 16_384)?)
}

// Room for any text of these tests, so that writing takes no memory.
fn sheet(alloc: Global) -> Result<Vec<u8>, AllocError> {
    once_more!(sheet_once(alloc))
}

// Whole lines from the beginning of a text.
fn is_front(written: &[u8], text: &[u8]) -> bool {
    text.starts_with(written) && (written.is_empty() || written.ends_with(b"\n"))
}

// How many lines these bytes end.
fn lines_in(bytes: &[u8]) -> usize {
    let mut count: usize = 0;
    for byte in bytes {
        if *byte == b'\n' {
            count = count.saturating_add(1);
        }
    }
    count
}

// Ends the test where what was found is not what was wanted. A call of it is proved sooner than `assert_eq!` in its place.
fn equal<T: PartialEq + Debug + Drop, R: Abort>(rt: &R, found: T, wanted: T) {
    assert_eq!(rt; found, wanted);
}
