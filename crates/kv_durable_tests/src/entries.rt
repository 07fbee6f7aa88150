//! Tests of entries, by the sample file.

use crate::equal::equal;
use crate::sample::{FRAMES, HEADER, SEED};
use crate::steps::config;
use kv_frames::Framing;
use kv_journal::{
    BeginningError, ReplayError, Replayed, begin, encode_batch, encode_closed, encode_compaction,
    encode_request, encode_seal, push_beginning, replay, shows_damage,
};
use kv_keys::KvError;
use kv_model::{Config, Request, Status};
use kv_store::Version;
use kv_test_tools::{delete, purge, put, twice};
use std::alloc::{AllocError, Global};
use std::process::Abort;
use std::test::Fail;

// Where the entries begin, and where they end.
const FIRST: usize = 70;

const END: usize = 239;

// The whole sample.
fn sample(alloc: Global) -> Result<Vec<u8>, AllocError> {
    let mut out = Vec::from_slice(alloc, HEADER)?;
    for frame in FRAMES {
        out.extend_from_slice(frame)?;
    }
    Ok(out)
}

// The payload of a write, if there was memory for its request.
fn payload_of(
    alloc: Global,
    loose: u32,
    request: Result<Request, KvError>,
) -> Result<Vec<u8>, KvError> {
    let request = request?;
    if request.value().len() > 100 {
        return Err(KvError::ValueTooLarge);
    }
    Ok(encode_request(alloc, loose, &request)?)
}

fn compaction(alloc: Global, loose: u32, floor: u64) -> Result<Vec<u8>, KvError> {
    Ok(encode_compaction(alloc, loose, floor)?)
}

fn seal(alloc: Global, loose: u32) -> Result<Vec<u8>, KvError> {
    Ok(encode_seal(alloc, loose)?)
}

fn closed(alloc: Global, loose: u32, last: u64) -> Result<Vec<u8>, KvError> {
    Ok(encode_closed(alloc, loose, last)?)
}

// The payload of the entry of this number in the sample.
fn entry(alloc: Global, number: usize) -> Result<Vec<u8>, KvError> {
    match number {
        1 => payload_of(alloc, 0, put(alloc, "app.port", "80")),
        2 => payload_of(alloc, 24, put(alloc, "app.host", "kv")),
        3 => payload_of(alloc, 48, delete(alloc, "app.port", None)),
        4 => payload_of(alloc, 0, purge(alloc, "app.host", None)),
        5 => payload_of(alloc, 0, put(alloc, "app.port", "")),
        6 => compaction(alloc, 22, 3),
        7 => seal(alloc, 43),
        _ => closed(alloc, 0, 5),
    }
}

fn push(framing: &Framing, out: &mut Vec<u8>, payload: &[u8]) -> Result<(), KvError> {
    if payload.is_empty() || payload.len() > 1000 {
        return Err(KvError::ValueTooLarge);
    }
    let at = out.len() as u64;
    framing.push_frame(out, at, payload)?;
    Ok(())
}

// What the sample begins with.
fn beginning(alloc: Global, framing: &Framing) -> Result<Vec<u8>, KvError> {
    let config = config(alloc)?;
    config.check()?;
    let mut out = Vec::new(alloc);
    push_beginning(alloc, &mut out, framing, &config)?;
    Ok(out)
}

fn the_sample_is_written_once(rt: &impl Abort, alloc: Global) -> Result<(), KvError> {
    let framing = Framing::new(SEED);
    let mut out = beginning(alloc, &framing)?;
    for number in 1..9 {
        push(&framing, &mut out, &entry(alloc, number)?)?;
    }
    equal(rt, out, sample(alloc)?);
    Ok(())
}

#[test]
fn the_sample_is_written(rt: HostRuntime) -> Result<(), Fail> {
    Ok(twice!(the_sample_is_written_once(&rt, rt.alloc()))?)
}

fn replayed(alloc: Global, bytes: &[u8]) -> Result<Result<Replayed, ReplayError>, KvError> {
    if bytes.len() < FIRST || bytes.len() > 1000 {
        return Err(KvError::ValueTooLarge);
    }
    let config = config(alloc)?;
    let begun = match begin(alloc, bytes, &config) {
        Ok(begun) => begun,
        Err(_) => return Err(KvError::BadConfig),
    };
    if begun.offset as usize != FIRST {
        return Err(KvError::ValueTooLarge);
    }
    let version = Version::empty(alloc, &config)?;
    Ok(replay(
        alloc,
        version,
        &begun.framing,
        FIRST as u64,
        &bytes[FIRST..],
    ))
}

fn the_sample_is_read_once(rt: &impl Abort, alloc: Global) -> Result<(), KvError> {
    let bytes = sample(alloc)?;
    let Ok(read) = replayed(alloc, &bytes)? else {
        return Err(KvError::ValueTooLarge);
    };
    equal(rt, read.offset, END as u64);
    equal(
        rt,
        read.version.status(),
        Status {
            history: 2,
            last: 5,
            sealed: true,
            stored: 3,
            values: 3,
        },
    );
    equal(rt, read.version.floor(), 3);
    Ok(())
}

#[test]
fn the_sample_is_read(rt: HostRuntime) -> Result<(), Fail> {
    Ok(twice!(the_sample_is_read_once(&rt, rt.alloc()))?)
}

// Where each entry ends.
const ENDS: &[usize] = &[94, 118, 140, 162, 184, 205, 218, 239];

fn whole_end(n: usize) -> usize {
    let mut last = FIRST;
    for &end in ENDS {
        if end <= n {
            last = end;
        }
    }
    last
}

// What is read of the bytes, and whether what stands behind it shows damage.
fn read_of(rt: &impl Abort, alloc: Global, bytes: &[u8]) -> Result<(usize, bool), KvError> {
    let Ok(read) = replayed(alloc, bytes)? else {
        return Err(KvError::ValueTooLarge);
    };
    let end = read.offset as usize;
    assert!(rt; end <= bytes.len() && bytes.len() < 1000);
    let damaged = shows_damage(&Framing::new(SEED), end as u64, &bytes[end..]);
    Ok((end, damaged))
}

// The sample of which so many bytes are left.
fn is_its_whole_entries(rt: &impl Abort, alloc: Global, left: usize) -> Result<(), KvError> {
    let bytes = sample(alloc)?;
    let Some(torn) = bytes.get(..left) else {
        return Err(KvError::ValueTooLarge);
    };
    let (end, damaged) = read_of(rt, alloc, torn)?;
    equal(rt, end, whole_end(left));
    assert!(rt; !damaged);
    Ok(())
}

#[test]
fn a_torn_file_is_its_whole_entries(rt: HostRuntime) -> Result<(), Fail> {
    for left in FIRST..END {
        twice!(is_its_whole_entries(&rt, rt.alloc(), left))?;
    }
    Ok(())
}

// The sample with a bit of the byte at this offset turned.
fn is_damaged_at(rt: &impl Abort, alloc: Global, at: usize) -> Result<(), KvError> {
    let mut bytes = sample(alloc)?;
    let Some(byte) = bytes.get_mut(at) else {
        return Err(KvError::ValueTooLarge);
    };
    *byte ^= 1;
    let (end, damaged) = read_of(rt, alloc, &bytes)?;
    equal(rt, end, whole_end(at));
    // The last frame has nothing behind it; each other one has, with nothing loose before it.
    equal(rt, damaged, at < 218);
    Ok(())
}

#[test]
fn a_turned_bit_in_the_middle_is_damage(rt: HostRuntime) -> Result<(), Fail> {
    for at in FIRST..END {
        twice!(is_damaged_at(&rt, rt.alloc(), at))?;
    }
    Ok(())
}

// Bytes, and why they do not begin a file of this configuration.
fn is_refused(
    rt: &impl Abort,
    alloc: Global,
    bytes: &[u8],
    why: BeginningError,
) -> Result<(), KvError> {
    if bytes.len() > 1000 {
        return Err(KvError::ValueTooLarge);
    }
    match begin(alloc, bytes, &Config::named(alloc, "settings")?) {
        Err(BeginningError::OutOfMemory) => Err(KvError::OutOfMemory),
        told => {
            equal(rt, told.err(), Some(why));
            Ok(())
        }
    }
}

// Without its first byte, or torn in its beginning, the file is none at all.
fn a_file_of_another_bucket_does_not_begin_once(
    rt: &impl Abort,
    alloc: Global,
) -> Result<(), KvError> {
    let bytes = sample(alloc)?;
    let (Some(later), Some(torn)) = (bytes.get(1..), bytes.get(..FIRST - 1)) else {
        return Err(KvError::ValueTooLarge);
    };
    is_refused(rt, alloc, &bytes, BeginningError::OtherBucket)?;
    is_refused(rt, alloc, later, BeginningError::NoJournal)?;
    is_refused(rt, alloc, torn, BeginningError::NoJournal)
}

#[test]
fn a_file_of_another_bucket_does_not_begin(rt: HostRuntime) -> Result<(), Fail> {
    Ok(twice!(a_file_of_another_bucket_does_not_begin_once(&rt, rt.alloc()))?)
}

fn an_entry_of_no_lawful_act_is_refused_with_its_place_once(
    rt: &impl Abort,
    alloc: Global,
) -> Result<(), KvError> {
    let framing = Framing::new(SEED);
    let mut bytes = beginning(alloc, &framing)?;
    push(&framing, &mut bytes, &entry(alloc, 1)?)?;
    push(&framing, &mut bytes, &compaction(alloc, 24, 2)?)?;
    match replayed(alloc, &bytes)? {
        Err(ReplayError::OutOfMemory) => Err(KvError::OutOfMemory),
        other => {
            equal(rt, other.err(), Some(ReplayError::Damaged { at: 94 }));
            Ok(())
        }
    }
}

#[test]
fn an_entry_of_no_lawful_act_is_refused_with_its_place(rt: HostRuntime) -> Result<(), Fail> {
    Ok(twice!(an_entry_of_no_lawful_act_is_refused_with_its_place_once(&rt, rt.alloc()))?)
}

// A batch of a put and a purge, seven bytes loose before it.
const BATCH: &[u8] = b"\0\0\0\x07\x0a\0\0\0\x0c\x01\x08app.port80\0\0\0\x0a\x03\x08app.host";

fn a_batch_is_its_records_once(rt: &impl Abort, alloc: Global) -> Result<(), KvError> {
    let batch = [
        put(alloc, "app.port", "80")?,
        purge(alloc, "app.host", None)?,
    ];
    equal(rt, encode_batch(alloc, 7, &batch)?.as_slice(), BATCH);
    Ok(())
}

#[test]
fn a_batch_is_its_records(rt: HostRuntime) -> Result<(), Fail> {
    Ok(twice!(a_batch_is_its_records_once(&rt, rt.alloc()))?)
}
