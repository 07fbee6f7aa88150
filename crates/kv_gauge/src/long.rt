//! Gets and puts of values that are too long to lie beside their revisions, and take a block of their own.

use crate::fault::Fault;
use crate::keys::{key, put_of, requests_of, spread};
use crate::plan::Plan;
use crate::reading;
use crate::series::{Name, Series, measured};
use crate::subject::{empty, time_writes};
use kv_single::{Bucket, Key, Request};
use std::alloc::Global;
use std::rt::Clock;

// 100 bytes.
const LONG: &'static [u8] =
    b"0123456789012345678901234567890123456789012345678901234567890123456789012345678901234567890123456789";

fn puts(alloc: Global, keys: &[Key]) -> Result<Vec<Request>, Fault> {
    requests_of(alloc, keys, |key| put_of(alloc, key, LONG))
}

fn write(alloc: Global, bucket: &mut Bucket, number: usize) -> Result<(), Fault> {
    let key = key(alloc, number)?;
    let request = put_of(alloc, &key, LONG)?;
    bucket.write(&request)?;
    Ok(())
}

fn filled(alloc: Global, keys: usize) -> Result<Bucket, Fault> {
    let mut bucket = empty(alloc)?;
    for number in 0..keys {
        write(alloc, &mut bucket, number)?;
    }
    Ok(bucket)
}

fn tell_gets<R: Clock + Print>(
    rt: &R,
    alloc: Global,
    plan: Plan,
    bucket: &Bucket,
    asked: &[Key],
) -> Result<(), Fault> {
    let name = Name::time("calls", "get, a value of 100 bytes", "");
    let tenths = measured(
        alloc,
        plan.rounds,
        || reading::gets(rt, bucket.version(), asked, LONG.len()),
    )?;
    Series::of(name, plan, tenths).tell(rt)
}

fn tell_puts<R: Clock + Print>(
    rt: &R,
    alloc: Global,
    plan: Plan,
    bucket: &mut Bucket,
    asked: &[Key],
) -> Result<(), Fault> {
    let requests = puts(alloc, asked)?;
    let name = Name::time("calls", "put, key that is there, a value of 100 bytes", "");
    let tenths = measured(
        alloc,
        plan.rounds,
        || time_writes(rt, bucket, requests.as_slice()),
    )?;
    Series::of(name, plan, tenths).tell(rt)
}

/// Measures gets and puts.
pub fn run<R: Clock + Print>(rt: &R, alloc: Global, plan: Plan) -> Result<(), Fault> {
    let mut bucket = filled(alloc, plan.keys)?;
    let asked = spread(alloc, plan.keys, plan.asked())?;
    tell_gets(rt, alloc, plan, &bucket, asked.as_slice())?;
    tell_puts(rt, alloc, plan, &mut bucket, asked.as_slice())
}
