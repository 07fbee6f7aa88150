//! A second life: what is published begins with the acts of the first.

use crate::acts::writes;
use crate::opened::{Shared, Test, empty, run_on};
use crate::readers::{followed, followed_from_empty, gets, popped, see};
use kv_bucket::Start;
use kv_durable_live::{DurableError, LiveName, Reader};
use kv_file::MemoryFile;
use std::alloc::Global;
use std::process::Abort;
use std::sync::Wait;
use std::test::Fail;

// The first life: three writes.
#[derive(Clone, Copy)]
struct First;

impl<R: Wait + Abort> Test<R> for First {
    fn run<N: LiveName>(
        self,
        rt: &R,
        alloc: Global,
        live: &Shared<N>,
        _readers: &mut Vec<Reader<N>>,
    ) -> Result<(), DurableError> {
        writes(rt, alloc, live, "a", 1)?;
        writes(rt, alloc, live, "b", 2)?;
        writes(rt, alloc, live, "c", 3)
    }
}

// The second: each reader sees what was written before, and a feed goes on from the second revision.
#[derive(Clone, Copy)]
struct Second;

fn follow<N: LiveName, R: Abort>(
    rt: &R,
    alloc: Global,
    reader: Reader<N>,
) -> Result<(), DurableError> {
    let mut feed = followed(alloc, reader, Start::From(2))?;
    gets(rt, &mut feed, 2, 4);
    Ok(())
}

// A feed that begins with nothing gets all writes of both lives.
fn follow_all<N: LiveName, R: Abort>(
    rt: &R,
    alloc: Global,
    reader: Reader<N>,
) -> Result<(), DurableError> {
    let mut feed = followed_from_empty(alloc, reader)?;
    feed.refresh()?;
    gets(rt, &mut feed, 1, 4);
    Ok(())
}

impl<R: Wait + Abort> Test<R> for Second {
    fn run<N: LiveName>(
        self,
        rt: &R,
        alloc: Global,
        live: &Shared<N>,
        readers: &mut Vec<Reader<N>>,
    ) -> Result<(), DurableError> {
        see(rt, readers, 3)?;
        writes(rt, alloc, live, "d", 4)?;
        follow(rt, alloc, popped(readers)?)?;
        follow_all(rt, alloc, popped(readers)?)
    }
}

fn goes_on_once<R: Wait + Abort>(rt: &R, alloc: Global) -> Result<(), DurableError> {
    let file = run_on(rt, alloc, empty(alloc), First)?;
    run_on(rt, alloc, file, Second)?;
    Ok(())
}

// A kill leaves a byte of a write that was never answered behind what is on the disk.
fn killed<R: Wait + Abort>(rt: &R, alloc: Global) -> Result<(), DurableError> {
    let file = run_on(rt, alloc, empty(alloc), First)?;
    let mut torn = Vec::from_slice(alloc, file.kept())?;
    torn.extend_from_slice(&[0])?;
    run_on(rt, alloc, MemoryFile::new(alloc, torn), Second)?;
    Ok(())
}

#[test]
fn second_life_goes_on(rt: HostRuntime) -> Result<(), Fail> {
    match goes_on_once(&rt, rt.alloc()) {
        Ok(()) => Ok(()),
        Err(_) => Ok(goes_on_once(&rt, rt.alloc())?),
    }
}

#[test]
fn killed_life_goes_on(rt: HostRuntime) -> Result<(), Fail> {
    match killed(&rt, rt.alloc()) {
        Ok(()) => Ok(()),
        Err(_) => Ok(killed(&rt, rt.alloc())?),
    }
}
