//! Tests of files that are replaced as a whole.

use crate::equal::equal;
use kv_file::{JournalFile, MemoryFile, ReplaceFault, ReplaceableFile};
use kv_keys::KvError;
use kv_test_tools::twice;
use std::alloc::Global;
use std::process::Abort;
use std::test::Fail;

// How a file ends up whose calls fail from this one on: what was told, and what it has on the disk and loose.
const ENDS: &[(u64, Result<(), ReplaceFault>, &[u8], &[u8])] = &[
    (0, Err(ReplaceFault::Unchanged), b"kept", b"loose"),
    (1, Err(ReplaceFault::Unknown), b"new", b""),
    (2, Ok(()), b"new", b""),
];

// A file that has bytes on the disk, and others loose.
fn with_loose(alloc: Global) -> Result<MemoryFile, KvError> {
    let mut file = MemoryFile::new(alloc, Vec::from_slice(alloc, b"kept")?);
    if file.append(b"loose").is_err() {
        return Err(KvError::OutOfMemory);
    }
    Ok(file)
}

fn is_replaced_or_stays(
    rt: &impl Abort,
    alloc: Global,
    end: &(u64, Result<(), ReplaceFault>, &[u8], &[u8]),
) -> Result<(), KvError> {
    let (calls, told, kept, loose) = end;
    let mut file = with_loose(alloc)?;
    let new = Vec::from_slice(alloc, b"new")?;
    file.fail_after(*calls);
    assert!(rt; file.replace(&(), new) == *told);
    equal(rt, file.kept(), *kept);
    equal(rt, file.loose(), *loose);
    assert!(rt; file.is_usable() == (*calls != 1));
    Ok(())
}

#[test]
fn a_file_is_replaced_as_a_whole_or_stays(rt: HostRuntime) -> Result<(), Fail> {
    for end in ENDS {
        twice!(is_replaced_or_stays(&rt, rt.alloc(), end))?;
    }
    Ok(())
}
