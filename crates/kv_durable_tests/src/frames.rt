//! Tests of the checksum and of frames.

use crate::equal::equal;
use kv_frames::{Crc32c, Framing};
use kv_keys::KvError;
use kv_test_tools::twice;
use std::alloc::Global;
use std::process::Abort;
use std::test::Fail;

const SEED: u64 = 0x0123_4567_89AB_CDEF;

const PAYLOADS: &[&[u8]] = &[b"a", b"\0\0\0\0", b"the third payload", &[255; 40]];

// Where the frame of each of them ends.
const ENDS: &[usize] = &[9, 21, 46, 94];

// From RFC 3720, and the check value of the catalogue of checksums.
const SUMS: &[(&[u8], u32)] = &[
    (b"123456789", 0xE306_9283),
    (&[0; 32], 0x8A91_36AA),
    (&[255; 32], 0x62A8_AB43),
    (
        &[
            0, 1, 2, 3, 4, 5, 6, 7, 8, 9, 10, 11, 12, 13, 14, 15, 16, 17, 18, 19, 20, 21, 22, 23,
            24, 25, 26, 27, 28, 29, 30, 31,
        ],
        0x46DD_794E,
    ),
    (b"", 0),
];

#[test]
fn sums_are_those_of_the_standard(rt: HostRuntime) {
    let crc = Crc32c::new();
    for &(bytes, sum) in SUMS {
        equal(&rt, crc.sum(bytes), sum);
    }
}

fn file(alloc: Global, framing: &Framing) -> Result<Vec<u8>, KvError> {
    let mut out = Vec::new(alloc);
    for payload in PAYLOADS {
        let at = out.len() as u64;
        if payload.is_empty() || payload.len() > 100 {
            return Err(KvError::ValueTooLarge);
        }
        framing.push_frame(&mut out, at, payload)?;
    }
    Ok(out)
}

// How many of the frames end in so many bytes.
fn whole_in(n: usize) -> usize {
    for (number, &end) in ENDS.iter().enumerate() {
        if end > n {
            return number;
        }
    }
    ENDS.len()
}

fn each_beginning_has_its_whole_frames_once(rt: &impl Abort, alloc: Global) -> Result<(), KvError> {
    let framing = Framing::new(SEED);
    let bytes = file(alloc, &framing)?;
    equal(rt, bytes.len(), 94);
    for n in 0..bytes.len() {
        let (payloads, rest) = framing.read_frames(alloc, 0, &bytes[..n])?;
        equal(rt, payloads.len(), whole_in(n));
        assert!(rt; rest.len() < 48);
    }
    Ok(())
}

#[test]
fn each_beginning_has_its_whole_frames(rt: HostRuntime) -> Result<(), Fail> {
    Ok(twice!(each_beginning_has_its_whole_frames_once(&rt, rt.alloc()))?)
}

fn a_frame_with_a_turned_bit_is_none_once(rt: &impl Abort, alloc: Global) -> Result<(), KvError> {
    let framing = Framing::new(SEED);
    let mut bytes = file(alloc, &framing)?;
    for at in 0..bytes.len() {
        bytes[at] ^= 16;
        let (payloads, _) = framing.read_frames(alloc, 0, &bytes)?;
        equal(rt, payloads.len(), whole_in(at));
        bytes[at] ^= 16;
    }
    Ok(())
}

#[test]
fn a_frame_with_a_turned_bit_is_none(rt: HostRuntime) -> Result<(), Fail> {
    Ok(twice!(a_frame_with_a_turned_bit_is_none_once(&rt, rt.alloc()))?)
}

fn a_frame_counts_in_its_own_file_and_place_once(
    rt: &impl Abort,
    alloc: Global,
) -> Result<(), KvError> {
    let framing = Framing::new(SEED);
    let bytes = file(alloc, &framing)?;
    assert!(rt; framing.frame_at(0, &bytes).is_some());
    assert!(rt; framing.frame_at(1, &bytes).is_none());
    assert!(rt; Framing::new(SEED + 1).frame_at(0, &bytes).is_none());
    Ok(())
}

#[test]
fn a_frame_counts_in_its_own_file_and_place(rt: HostRuntime) -> Result<(), Fail> {
    Ok(twice!(a_frame_counts_in_its_own_file_and_place_once(&rt, rt.alloc()))?)
}
