//! Keys of one place, as somebody can choose them who knows the hash.

use crate::fault::{Answer, Fault, check};
use crate::keys::{VALUE, index, keys_by, puts};
use crate::plan::Plan;
use crate::reading;
use crate::series::{Name, Series};
use crate::subject::{empty, time_writes, write_all};
use kv_single::{Bucket, Key, Place};
use std::alloc::Global;
use std::rt::Clock;

// Behind the blocks before it each block of a pair leads FNV-1a to the same number. So all texts that take one block of
// each pair, whichever, have one hash: a chain of collisions (Antoine Joux, Multicollisions in Iterated Hash Functions,
// 2004). These make 16,384 keys of 56 bytes.
const PAIRS: &'static [(&'static str, &'static str)] = &[
    ("gwzx", "16cd"),
    ("yyao", "1kia"),
    ("g3zx", "1pad"),
    ("epvu", "33ea"),
    ("zwfo", "2uja"),
    ("g3zx", "1pad"),
    ("epvu", "33ea"),
    ("zwfo", "2uja"),
    ("g3zx", "1pad"),
    ("epvu", "33ea"),
    ("zwfo", "2uja"),
    ("g3zx", "1pad"),
    ("epvu", "33ea"),
    ("zwfo", "2uja"),
];

// The key of a number: its binary digits say which block of each pair is taken.
fn key(alloc: Global, number: usize) -> Result<Key, Fault> {
    let mut text = String::new(alloc);
    let mut digits = number;
    for pair in PAIRS {
        text.push_str(if digits % 2 == 0 { pair.0 } else { pair.1 })?;
        digits /= 2;
    }
    let key = Key::parse(alloc, text.as_str())?;
    Ok(key)
}

// The keys of the numbers from one on, up to another.
fn keys(alloc: Global, from: usize, to: usize) -> Result<Vec<Key>, Fault> {
    keys_by(alloc, from, to, |number| key(alloc, number))
}

// Some of so many keys, spread over them.
fn spread(alloc: Global, count: usize, asked: usize) -> Result<Vec<Key>, Fault> {
    keys_by(alloc, 0, asked, |turn| key(alloc, index(turn, count)))
}

// That they really share a place.
fn check_places(keys: &[Key]) -> Result<(), Fault> {
    let Some(first) = keys.first() else {
        return Ok(());
    };
    let shared = first.place();
    for key in keys {
        check(key.place() == shared, Answer::Place)?;
    }
    Ok(())
}

// A bucket with all but the last tenth of these keys, and the time of a put of each of those.
fn grown<R: Clock>(rt: &R, alloc: Global, count: usize) -> Result<(Bucket, u64), Fault> {
    let first = count - count / 10;
    let there = keys(alloc, 0, first)?;
    check_places(there.as_slice())?;
    let new = keys(alloc, first, count)?;
    let mut bucket = empty(alloc)?;
    write_all(&mut bucket, puts(alloc, there.as_slice())?.as_slice())?;
    let took = time_writes(rt, &mut bucket, puts(alloc, new.as_slice())?.as_slice())?;
    Ok((bucket, took))
}

// What is measured in one round: a put of a new key, a get, and a put of a key that is there.
#[derive(Clone, Copy)]
struct Round {
    new: u64,
    get: u64,
    there: u64,
}

fn measure<R: Clock>(rt: &R, alloc: Global, plan: Plan) -> Result<Round, Fault> {
    let (bucket, new) = grown(rt, alloc, plan.keys)?;
    let mut bucket = bucket;
    let asked = spread(alloc, plan.keys, plan.asked())?;
    let get = reading::gets(rt, bucket.version(), asked.as_slice(), VALUE.len())?;
    let requests = puts(alloc, asked.as_slice())?;
    let there = time_writes(rt, &mut bucket, requests.as_slice())?;
    Ok(Round { new, get, there })
}

fn series(alloc: Global, plan: Plan, what: &'static str) -> Series {
    Series::new(alloc, Name::time("collide", what, ""), plan)
}

/// Measures gets and puts among keys of one place: at most 16,384 of them.
pub fn run<R: Clock + Print>(rt: &R, alloc: Global, plan: Plan) -> Result<(), Fault> {
    let mut new = series(alloc, plan, "put, new key");
    let mut get = series(alloc, plan, "get");
    let mut there = series(alloc, plan, "put, key that is there");
    for _ in 0..plan.rounds {
        let took = measure(rt, alloc, plan)?;
        new.add(took.new)?;
        get.add(took.get)?;
        there.add(took.there)?;
    }
    new.tell(rt)?;
    get.tell(rt)?;
    there.tell(rt)
}
