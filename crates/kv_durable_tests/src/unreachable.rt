//! Tests of checkpoints that no acts lead to: they are damage, and those that differ a little from them are opened.

use crate::equal::equal;
use kv_frames::Framing;
use kv_journal::{ReplayError, Replayed, restore};
use kv_keys::KvError;
use kv_model::Config;
use kv_store::Version;
use kv_test_tools::twice;
use std::alloc::Global;
use std::process::Abort;
use std::test::Fail;

// The first frame of the checkpoint stands at this offset.
const PLACE: u64 = 40;

// A stored write: its revision, its kind (1 is a put, 2 a delete, 3 a purge), and its key, of one letter.
type Stored = (u32, u8, u8);

// The last revision, the number of retained entries, and the floor.
type Numbers = (u64, u64, u64);

fn push_stored(
    alloc: Global,
    out: &mut Vec<u8>,
    framing: &Framing,
    stored: Stored,
) -> Result<(), KvError> {
    let (revision, kind, key) = stored;
    let mut payload = Vec::from_slice(alloc, &[0, 0, 0, 0, 7])?;
    payload.extend_from_slice(&revision.to_be_bytes())?;
    payload.extend_from_slice(&[kind, 1, key])?;
    framing.push_frame(out, PLACE + out.len() as u64, &payload)?;
    Ok(())
}

fn push_numbers(
    alloc: Global,
    out: &mut Vec<u8>,
    framing: &Framing,
    numbers: Numbers,
) -> Result<(), KvError> {
    let (last, values, floor) = numbers;
    let mut payload = Vec::from_slice(alloc, &[0, 0, 0, 0, 8])?;
    payload.extend_from_slice(&last.to_be_bytes())?;
    payload.extend_from_slice(&values.to_be_bytes())?;
    payload.extend_from_slice(&floor.to_be_bytes())?;
    payload.push(0)?;
    framing.push_frame(out, PLACE + out.len() as u64, &payload)?;
    Ok(())
}

fn checkpoint_of(
    alloc: Global,
    framing: &Framing,
    writes: &[Stored],
    numbers: Numbers,
) -> Result<Vec<u8>, KvError> {
    let mut bytes = Vec::new(alloc);
    for stored in writes {
        push_stored(alloc, &mut bytes, framing, *stored)?;
    }
    push_numbers(alloc, &mut bytes, framing, numbers)?;
    Ok(bytes)
}

// What is read of a checkpoint of these writes and numbers, of a bucket that keeps so many writes of a key, and stores at most
// so many.
fn read(
    alloc: Global,
    history: u64,
    write_limit: u64,
    writes: &[Stored],
    numbers: Numbers,
) -> Result<Result<Replayed, ReplayError>, KvError> {
    let mut config = Config::named(alloc, "kv")?;
    config.history = history;
    config.write_limit = write_limit;
    let framing = Framing::new(7);
    let bytes = checkpoint_of(alloc, &framing, writes, numbers)?;
    let empty = Version::empty(alloc, &config)?;
    match restore(alloc, empty, &config, &framing, PLACE, &bytes) {
        Err(ReplayError::OutOfMemory) => Err(KvError::OutOfMemory),
        read => Ok(read),
    }
}

fn is_opened_once(
    rt: &impl Abort,
    alloc: Global,
    history: u64,
    write_limit: u64,
    writes: &[Stored],
    numbers: Numbers,
) -> Result<(), KvError> {
    match read(alloc, history, write_limit, writes, numbers)? {
        Ok(read) => {
            let status = read.version.status();
            equal(rt, status.stored, writes.len() as u64);
            equal(rt, status.last, numbers.0);
            equal(rt, status.values, numbers.1);
            equal(rt, read.version.floor(), numbers.2);
        }
        Err(_) => assert!(rt; false, "acts lead to it"),
    }
    Ok(())
}

fn is_opened(
    rt: &impl Abort,
    alloc: Global,
    history: u64,
    write_limit: u64,
    writes: &[Stored],
    numbers: Numbers,
) -> Result<(), KvError> {
    twice!(is_opened_once(rt, alloc, history, write_limit, writes, numbers))
}

fn is_damage_once(
    rt: &impl Abort,
    alloc: Global,
    history: u64,
    write_limit: u64,
    writes: &[Stored],
    numbers: Numbers,
) -> Result<(), KvError> {
    let read = read(alloc, history, write_limit, writes, numbers)?;
    assert!(rt;
        matches!(read, Err(ReplayError::Damaged { at: PLACE })),
        "no acts lead to it"
    );
    Ok(())
}

fn is_damage(
    rt: &impl Abort,
    alloc: Global,
    history: u64,
    write_limit: u64,
    writes: &[Stored],
    numbers: Numbers,
) -> Result<(), KvError> {
    twice!(is_damage_once(rt, alloc, history, write_limit, writes, numbers))
}

#[test]
fn each_write_above_the_floor_is_stored(rt: HostRuntime) -> Result<(), Fail> {
    let writes: &[Stored] = &[(1, 1, b'a'), (3, 1, b'b')];
    is_damage(&rt, rt.alloc(), 1, 9, writes, (3, 2, 0))?;
    is_damage(&rt, rt.alloc(), 1, 9, writes, (3, 2, 1))?;
    is_opened(&rt, rt.alloc(), 1, 9, writes, (3, 2, 2))?;
    is_opened(&rt, rt.alloc(), 1, 9, writes, (3, 2, 3))?;
    is_damage(&rt, rt.alloc(), 1, 9, writes, (4, 2, 3))?;
    is_opened(&rt, rt.alloc(), 1, 9, writes, (4, 2, 4))?;
    is_damage(&rt, rt.alloc(), 1, 9, writes, (2, 2, 2))?;
    Ok(())
}

#[test]
fn what_is_retained_is_counted(rt: HostRuntime) -> Result<(), Fail> {
    let writes: &[Stored] = &[(1, 1, b'a'), (2, 1, b'a'), (3, 1, b'b')];
    is_opened(&rt, rt.alloc(), 1, 9, writes, (3, 2, 0))?;
    is_damage(&rt, rt.alloc(), 1, 9, writes, (3, 3, 0))?;
    is_opened(&rt, rt.alloc(), 2, 9, writes, (3, 3, 0))?;
    Ok(())
}

// At or below the floor stands what was kept when the last compaction was made.
#[test]
fn what_is_kept_no_more_goes_by_a_compaction(rt: HostRuntime) -> Result<(), Fail> {
    let writes: &[Stored] = &[(1, 1, b'a'), (2, 1, b'a')];
    is_opened(&rt, rt.alloc(), 1, 9, writes, (2, 1, 1))?;
    is_damage(&rt, rt.alloc(), 1, 9, writes, (2, 1, 2))?;
    is_opened(&rt, rt.alloc(), 2, 9, writes, (2, 2, 2))?;
    let purged: &[Stored] = &[(1, 1, b'a'), (2, 3, b'a'), (3, 1, b'a')];
    is_damage(&rt, rt.alloc(), 9, 9, purged, (3, 2, 2))?;
    is_opened(&rt, rt.alloc(), 9, 9, purged, (3, 2, 1))?;
    Ok(())
}

// A compaction clears a key whose last write is a marker at or below its floor.
#[test]
fn a_marker_stays_where_its_key_was_written_again(rt: HostRuntime) -> Result<(), Fail> {
    let last: &[Stored] = &[(1, 1, b'a'), (2, 2, b'a'), (3, 1, b'b')];
    is_damage(&rt, rt.alloc(), 2, 9, last, (3, 3, 2))?;
    is_opened(&rt, rt.alloc(), 2, 9, last, (3, 3, 1))?;
    let again: &[Stored] = &[(1, 1, b'b'), (2, 2, b'a'), (3, 1, b'a')];
    is_opened(&rt, rt.alloc(), 2, 9, again, (3, 3, 2))?;
    // The marker stays, so the compaction was made behind the write that follows it: what b lost until then has gone.
    let torn: &[Stored] = &[(1, 1, b'b'), (2, 2, b'a'), (3, 1, b'b'), (4, 1, b'a')];
    is_opened(&rt, rt.alloc(), 2, 9, torn, (4, 4, 2))?;
    let lost: &[Stored] = &[(1, 1, b'b'), (2, 2, b'a'), (3, 3, b'b'), (4, 1, b'a')];
    is_damage(&rt, rt.alloc(), 2, 9, lost, (4, 3, 2))?;
    Ok(())
}

// What was written and has gone was stored for a while.
#[test]
fn there_was_room_for_each_write(rt: HostRuntime) -> Result<(), Fail> {
    let writes: &[Stored] = &[(1, 1, b'a'), (2, 1, b'b'), (4, 1, b'c')];
    is_opened(&rt, rt.alloc(), 1, 3, writes, (4, 3, 3))?;
    is_damage(&rt, rt.alloc(), 1, 2, writes, (4, 3, 3))?;
    // The last revision has gone, so it was stored beside the three.
    is_damage(&rt, rt.alloc(), 1, 3, writes, (5, 3, 5))?;
    is_opened(&rt, rt.alloc(), 1, 4, writes, (5, 3, 5))?;
    // Revision 3 was stored until 4 was written, behind the marker, which no compaction could pass.
    let marker: &[Stored] = &[(1, 1, b'b'), (2, 2, b'a'), (4, 1, b'a')];
    is_damage(&rt, rt.alloc(), 2, 3, marker, (4, 3, 3))?;
    is_opened(&rt, rt.alloc(), 2, 4, marker, (4, 3, 3))?;
    Ok(())
}
