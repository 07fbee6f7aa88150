//! Readers and writers that give and take a few bytes a call, and fail.

use super::*;
use std::io;
use std::io::{ErrorKind, Read, Write};

/// A reader that gives at most so many bytes a call. It fails at one of its calls, if that comes; calls count from 1.
#[derive(Drop)]
pub(super) struct Drip<'a> {
    pub(super) bytes: &'a [u8],
    pub(super) most: usize,
    pub(super) calls: usize,
    pub(super) fails_at: usize,
}

impl Read for Drip<'_> {
    fn read(&mut self, buf: &mut [u8]) -> io::Result<usize> {
        self.calls = self.calls.saturating_add(1);
        if self.calls == self.fails_at {
            return Err(io::Error::from(ErrorKind::BrokenPipe));
        }
        let count = self.most.min(self.bytes.len()).min(buf.len());
        buf[..count].copy_from_slice(&self.bytes[..count]);
        self.bytes = &self.bytes[count..];
        Ok(count)
    }
}

/// A writer that takes at most so many bytes a call, for so many calls, and then fails.
#[derive(Drop)]
pub(super) struct Narrow {
    pub(super) bytes: Vec<u8>,
    pub(super) most: usize,
    pub(super) calls_left: usize,
}

impl Write for Narrow {
    fn write(&mut self, buf: &[u8]) -> io::Result<usize> {
        if self.calls_left == 0 {
            return Err(io::Error::from(ErrorKind::BrokenPipe));
        }
        self.calls_left -= 1;
        let count = self.most.min(buf.len());
        self.bytes.extend_from_slice(&buf[..count])?;
        Ok(count)
    }

    fn flush(&mut self) -> io::Result<()> {
        Ok(())
    }
}

/// What a run is handed: a script and its text, the reader and the writer, and the bound on read calls.
#[derive(Clone, Copy)]
pub(super) struct Given<'a> {
    pub(super) script: &'a [u8],
    pub(super) text: &'a [u8],
    pub(super) read_most: usize,
    pub(super) read_fails_at: usize,
    pub(super) write_most: usize,
    pub(super) write_calls: usize,
    pub(super) calls: u64,
}

/// What it came to: the answer, what was written, and how often the reader was asked.
#[derive(Drop)]
pub(super) struct Ran {
    pub(super) answer: Result<(), KvError>,
    pub(super) written: Vec<u8>,
    pub(super) asked: usize,
}

fn replayed_once(alloc: Global, config: &Config, given: Given<'_>) -> Result<Ran, AllocError> {
    let mut reader = Drip {
        bytes: given.script,
        most: given.read_most,
        calls: 0,
        fails_at: given.read_fails_at,
    };
    let mut writer = Narrow {
        bytes: sheet(alloc)?,
        most: given.write_most,
        calls_left: given.write_calls,
    };
    let mut source = CountedReader::new(&mut reader);
    let mut sink = CountedWriter::new(&mut writer);
    let answer = replay_bounded(alloc, &mut source, &mut sink, config, given.calls);
    Ok(Ran {
        answer,
        written: writer.bytes,
        asked: reader.calls,
    })
}

/// Runs, and runs again where memory was refused and whole lines of the text were written.
pub(super) fn replayed(alloc: Global, given: Given<'_>) -> Result<Ran, KvError> {
    let config = named(alloc)?;
    let first = replayed_once(alloc, &config, given)?;
    match first.answer {
        Err(KvError::OutOfMemory) if is_front(&first.written, given.text) => {
            Ok(replayed_once(alloc, &config, given)?)
        }
        _ => Ok(first),
    }
}

/// Whether the run answered so, and wrote this text.
pub(super) fn is(ran: &Ran, answer: Result<(), KvError>, text: &[u8]) -> bool {
    ran.answer == answer && ran.written.as_slice() == text
}
