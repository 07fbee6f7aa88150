//! Runs a script of commands on a key-value bucket, from standard input to standard output.
#![tactic(auto)]

use kv_run::{CountedReader, CountedWriter, program};
use std::alloc::Global;
use std::env::{Env, FillError};
use std::io::{ErrorKind, Input, Write};
use std::process::ExitCode;
use std::{io, str};

/// The program's name and its arguments.
fn words(rt: &HostRuntime, alloc: Global) -> io::Result<Vec<String>> {
    let words = std::env::args(rt)?.collect(alloc)?;
    Ok(words)
}

/// The place of the first argument that is not UTF-8, among those of at most 4,096 bytes. The program's name has the
/// place 0.
fn first_that_is_no_text<E: Env>(env: &E) -> Option<usize> {
    let mut buffer = [0u8; 4096];
    for place in 0..usize::MAX {
        match env.arg(place, &mut buffer) {
            Ok(count) if str::from_utf8(&buffer[..count]).is_err() => return Some(place),
            Err(FillError::NotPresent) => return None,
            _ => {}
        }
    }
    None
}

/// Tells why the arguments could not be read, and answers the status: 1 for want of memory, 2 for any other reason.
fn unread<E: Env, F: Write>(env: &E, error: &io::Error, faults: &mut F) -> u8 {
    if error.kind() == ErrorKind::OutOfMemory {
        let _ = writeln!(faults, "kvbucket: OutOfMemory");
        return 1;
    }
    let _ = match first_that_is_no_text(env) {
        Some(place) => writeln!(faults, "kvbucket: argument {place} is not UTF-8"),
        None => writeln!(faults, "kvbucket: {error}"),
    };
    2
}

fn main(rt: HostRuntime) -> ExitCode {
    let alloc = rt.alloc();
    let mut faults = rt.stderr();
    let status = match words(&rt, alloc) {
        Ok(words) => {
            let mut reader = rt.reader();
            let mut writer = rt.stdout();
            program(
                &rt,
                alloc,
                &words,
                &mut CountedReader::new(&mut reader),
                &mut CountedWriter::new(&mut writer),
                &mut CountedWriter::new(&mut faults),
            )
        }
        Err(error) => unread(&rt, &error, &mut faults),
    };
    ExitCode::from(status)
}
