//! What the adapters of readers and writers count, at each of their branches but the last number of 64 bits.

use super::devices::{Drip, Narrow};
use super::*;
use kv_run::{Input, Output};

// What a read answers, how often the reader was asked and failed then, and whether it has given its end and was asked behind it.
type Asked = (Result<usize, KvError>, (u64, u64), (bool, bool));

// Of a reader that gives two bytes, one a call, and fails at the second of its calls.
const READS: &[Asked] = &[
    (Ok(1), (1, 0), (false, false)),
    (Err(KvError::ReadFault), (2, 1), (false, false)),
    (Ok(1), (3, 1), (false, false)),
    (Ok(0), (4, 1), (true, false)),
    (Ok(0), (5, 1), (true, true)),
];

fn read(reader: &mut impl Input) -> Result<usize, KvError> {
    let mut buffer = [0u8; 4];
    reader.read(&mut buffer)
}

fn calls_of(reader: &CountedReader<'_, Drip<'_>>) -> (u64, u64) {
    (reader.asked(), reader.failures())
}

fn ends_of(reader: &CountedReader<'_, Drip<'_>>) -> (bool, bool) {
    (reader.has_ended(), reader.was_asked_late())
}

#[test]
fn a_reader_counts_its_calls_and_failures(rt: HostRuntime) -> Result<(), Fail> {
    let mut drip = Drip {
        bytes: b"ab",
        most: 1,
        calls: 0,
        fails_at: 2,
    };
    let mut reader = CountedReader::new(&mut drip);
    for (answer, calls, ends) in READS {
        equal(&rt, read(&mut reader), *answer);
        equal(&rt, calls_of(&reader), *calls);
        equal(&rt, ends_of(&reader), *ends);
    }
    Ok(())
}

// What is written, what the write answers, and how many failures are counted then.
type Written = (&'static [u8], Result<(), KvError>, u64);

// Of a writer that takes two bytes a call, for two calls.
const WRITES: &[Written] = &[
    (b"abc", Ok(()), 0),
    (b"", Ok(()), 0),
    (b"d", Err(KvError::WriteFault), 1),
];

// Of a writer that takes nothing.
const REFUSED: &[Written] = &[
    (b"a", Err(KvError::WriteFault), 1),
    (b"a", Err(KvError::WriteFault), 2),
];

fn narrow(alloc: Global, most: usize, calls_left: usize) -> Result<Narrow, AllocError> {
    let bytes = sheet(alloc)?;
    Ok(Narrow {
        bytes,
        most,
        calls_left,
    })
}

fn write(writer: &mut impl Output, bytes: &[u8]) -> Result<(), KvError> {
    writer.write(bytes)
}

fn failures_are_counted(rt: &impl Abort, narrow: &mut Narrow, writes: &[Written]) {
    let mut writer = CountedWriter::new(narrow);
    for (bytes, answer, failures) in writes {
        equal(rt, write(&mut writer, bytes), *answer);
        equal(rt, writer.failures(), *failures);
    }
}

#[test]
fn a_writer_counts_its_failures(rt: HostRuntime) -> Result<(), Fail> {
    let mut narrow = narrow(rt.alloc(), 2, 2)?;
    failures_are_counted(&rt, &mut narrow, WRITES);
    equal(&rt, narrow.bytes.as_slice(), b"abc".as_slice());
    Ok(())
}

#[test]
fn a_writer_that_takes_nothing_fails(rt: HostRuntime) -> Result<(), Fail> {
    let mut narrow = narrow(rt.alloc(), 0, usize::MAX)?;
    failures_are_counted(&rt, &mut narrow, REFUSED);
    Ok(())
}
