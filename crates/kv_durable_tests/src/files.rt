//! Tests of files that only grow.

use crate::equal::equal;
use crate::steps::{empty, failing_after};
use kv_file::{Appender, JournalFile, MemoryFile, Sync, Torn};
use kv_keys::KvError;
use kv_test_tools::twice;
use std::alloc::Global;
use std::process::Abort;
use std::test::Fail;

// How many bytes are loose after each of six addings of ten bytes.
const LOOSE: &[(Sync, &[usize])] = &[
    (Sync::Each, &[0, 0, 0, 0, 0, 0]),
    (Sync::Every(0), &[0, 0, 0, 0, 0, 0]),
    (Sync::Every(3), &[10, 20, 0, 10, 20, 0]),
    (Sync::Asked, &[10, 20, 30, 40, 50, 60]),
];

// Adds ten bytes, and answers whether that went well.
fn add<F: JournalFile>(appender: &mut Appender<F>) -> bool {
    appender.offset() < 1000 && appender.add(b"ten bytes.").is_ok()
}

fn syncs_as_told(rt: &impl Abort, alloc: Global, sync: Sync, loose: &[usize]) {
    let mut appender = Appender::new(empty(alloc), 0, sync);
    for &bytes in loose {
        let refused = !add(&mut appender);
        assert!(rt; refused || appender.file().loose().len() == bytes);
    }
}

#[test]
fn bytes_are_synced_when_that_is_due(rt: HostRuntime) {
    for &(sync, loose) in LOOSE {
        syncs_as_told(&rt, rt.alloc(), sync, loose);
    }
}

// A file whose calls fail from this one on.
fn failing(alloc: Global, calls: u64) -> Appender<MemoryFile> {
    Appender::new(failing_after(alloc, calls), 0, Sync::Each)
}

#[test]
fn what_failed_once_is_not_usable_again(rt: HostRuntime) {
    for calls in 0..6u64 {
        let mut appender = failing(rt.alloc(), calls);
        let mut added = 0u64;
        for _ in 0..4 {
            if add(&mut appender) {
                added = added.saturating_add(1);
            }
        }
        assert!(rt; added <= calls / 2);
        assert!(rt; !appender.file().is_usable());
        assert!(rt; appender.file().kept().len() >= 10 * added as usize);
    }
}

// What a crash leaves of a file, where so many of its loose bytes are left.
fn leaves(
    rt: &impl Abort,
    alloc: Global,
    file: &MemoryFile,
    loose: usize,
    torn: Torn,
    wanted: &[u8],
) -> Result<(), KvError> {
    equal(rt, file.crashed(alloc, loose, torn)?.as_slice(), wanted);
    Ok(())
}

fn a_crash_leaves_what_was_synced_once(rt: &impl Abort, alloc: Global) -> Result<(), KvError> {
    let mut file = MemoryFile::new(alloc, Vec::from_slice(alloc, b"kept")?);
    if file.append(b"loose").is_err() {
        return Ok(());
    }
    leaves(rt, alloc, &file, 0, Torn::Whole, b"kept")?;
    leaves(rt, alloc, &file, 3, Torn::Whole, b"keptloo")?;
    leaves(rt, alloc, &file, 9, Torn::Zeros, b"kept\0\0\0\0\0")?;
    if let Ok(bytes) = file.read(alloc) {
        equal(rt, bytes.as_slice(), b"keptloose".as_slice());
    }
    if file.cut(6).is_ok() {
        equal(rt, file.kept(), b"keptlo".as_slice());
    }
    Ok(())
}

#[test]
fn a_crash_leaves_what_was_synced(rt: HostRuntime) -> Result<(), Fail> {
    Ok(twice!(a_crash_leaves_what_was_synced_once(&rt, rt.alloc()))?)
}
