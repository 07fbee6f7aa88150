//! The memory of a live bucket, which keeps versions of its own beside the one that is published.

ghost use Rattle.std.specs.Prelude.{◌≡◌};

use crate::lives::{fill, opened};
use kv_bucket::{Live, LiveName, Opened};
use kv_gauge::fault::Fault;
use kv_gauge::memory::{each, resident, tell};
use kv_gauge::plan::Plan;
use std::alloc::Global;
use std::marker::Brand;
use std::rt::Files;
use std::sync::Wait;

// Tenths of a byte that a write to each key takes.
fn weigh<N: LiveName, R: Wait + Files + AllocGlobal>(
    rt: &R,
    alloc: Global,
    plan: Plan,
    live: &Live<N>,
) -> Result<u64, Fault> {
    let before = resident(rt)?;
    fill(rt, alloc, live, plan.keys)?;
    Ok(each(resident(rt)?, before, plan.keys))
}

fn figures<N: LiveName, R: Wait + Files + AllocGlobal + Print>(
    rt: &R,
    alloc: Global,
    plan: Plan,
    live: &Live<N>,
) -> Result<(), Fault> {
    let first = weigh(rt, alloc, plan, live)?;
    tell(
        rt,
        alloc,
        plan,
        "a key, written once, shared by threads",
        first,
    )?;
    let second = weigh(rt, alloc, plan, live)?;
    tell(
        rt,
        alloc,
        plan,
        "a second write to each key, shared by threads",
        second,
    )
}

fn opened_figures<N: LiveName, R: Wait + Files + AllocGlobal + Print>(
    rt: &R,
    alloc: Global,
    plan: Plan,
    opened: Opened,
) -> Result<(), Fault>
    requires { opened.opening ≡ N.opening }
{
    let (live, readers) = opened.live::<N, R>(rt)?;
    let done = figures(rt, alloc, plan, &live);
    drop(readers);
    live.close(rt);
    done
}

/// Weighs a live bucket after a write to each key, and after a second one.
pub fn run<R: Wait + Files + AllocGlobal + Print>(
    rt: &R,
    alloc: Global,
    plan: Plan,
) -> Result<(), Fault> {
    let opened = opened(alloc, 1)?;
    opened_figures::<Brand, R>(rt, alloc, plan, opened)
}
