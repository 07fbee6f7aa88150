//! A live bucket beside maps under a lock, on one thread: the times of one call.

ghost use Rattle.std.specs.Prelude.{◌≡◌};

use crate::lives::{Reads, Writes, fill, opened, spread_load};
use crate::maps::{Locked, Table, filled, texts};
use crate::sides::{Copies, Gets, Named, Puts, get_all};
use kv_bucket::{Live, LiveName, Opened, Reader};
use kv_gauge::clock::{each, since};
use kv_gauge::fault::{Answer, Fault, check};
use kv_gauge::keys::{VALUE, spread};
use kv_gauge::plan::Plan;
use kv_gauge::series::{Name, Series, measured};
use std::alloc::Global;
use std::collections::{BTreeMap, HashMap};
use std::marker::Brand;
use std::rt::Clock;
use std::sync::{RwLock, Wait};
use std::time::Instant;

const GROUP: &'static str = "beside";

fn gets<G: Gets, R: Wait + Clock>(rt: &R, side: &mut G, count: usize) -> Result<u64, Fault> {
    let start = Instant::now(rt)?;
    let bytes = get_all(rt, side, count)?;
    let took = since(rt, &start)?;
    check(bytes == count.wrapping_mul(VALUE.len()), Answer::Values)?;
    Ok(each(took, count))
}

fn puts<P: Puts, R: Wait + Clock>(rt: &R, side: &mut P, count: usize) -> Result<u64, Fault> {
    let start = Instant::now(rt)?;
    for index in 0..count {
        side.put(rt, index)?;
    }
    Ok(each(since(rt, &start)?, count))
}

fn copies<C: Copies, R: Wait + Clock>(
    rt: &R,
    side: &mut C,
    count: usize,
    least: usize,
) -> Result<u64, Fault> {
    let mut had = 0;
    let start = Instant::now(rt)?;
    for _ in 0..count {
        had = side.copy(rt)?;
    }
    let took = since(rt, &start)?;
    check(had >= least as u64, Answer::Copy)?;
    Ok(each(took, count))
}

fn tell_gets<G: Gets + Named, R: Wait + Clock + Print>(
    rt: &R,
    alloc: Global,
    plan: Plan,
    side: &mut G,
) -> Result<(), Fault> {
    let name = Name::time(GROUP, "get", G::NAME);
    let tenths = measured(alloc, plan.rounds, || gets(rt, side, plan.asked()))?;
    Series::of(name, plan, tenths).tell(rt)
}

fn tell_puts<P: Puts + Named, R: Wait + Clock + Print>(
    rt: &R,
    alloc: Global,
    plan: Plan,
    side: &mut P,
) -> Result<(), Fault> {
    let name = Name::time(GROUP, "put", P::NAME);
    let tenths = measured(alloc, plan.rounds, || puts(rt, side, plan.asked()))?;
    Series::of(name, plan, tenths).tell(rt)
}

// So many copies make a round.
fn tell_copies<C: Copies + Named, R: Wait + Clock + Print>(
    rt: &R,
    alloc: Global,
    plan: Plan,
    side: &mut C,
    copied: usize,
) -> Result<(), Fault> {
    let name = Name::time(GROUP, "copy", C::NAME);
    let tenths = measured(alloc, plan.rounds, || copies(rt, side, copied, plan.keys))?;
    Series::of(name, plan, tenths).tell(rt)
}

/// What a live bucket is asked for.
#[derive(Clone, Copy)]
pub enum Asked {
    /// Reads.
    Reads,
    /// Writes, which it has room for.
    Writes,
}

/// What is measured. Each part is for a process of its own: a bucket behind one that was freed was seen to be slower.
#[derive(Clone, Copy)]
pub enum Part {
    /// A live bucket.
    Live(Asked),
    /// Maps.
    Maps,
}

fn live_reads<N: LiveName, R: Wait + Clock + Print>(
    rt: &R,
    alloc: Global,
    plan: Plan,
    reader: Reader<N>,
) -> Result<(), Fault> {
    let keys = spread(alloc, plan.keys, plan.asked())?;
    let mut reads = Reads::new(reader, keys.as_slice())?;
    tell_gets(rt, alloc, plan, &mut reads)?;
    tell_copies(rt, alloc, plan, &mut reads, plan.asked())
}

fn live_writes<N: LiveName, R: Wait + Clock + Print>(
    rt: &R,
    alloc: Global,
    plan: Plan,
    live: &Live<N>,
) -> Result<(), Fault> {
    let load = spread_load(alloc, plan, plan.asked())?;
    let mut writes = Writes {
        live,
        requests: load.requests.as_slice(),
    };
    tell_puts(rt, alloc, plan, &mut writes)
}

fn live_figures<N: LiveName, R: Wait + Clock + Print>(
    rt: &R,
    alloc: Global,
    plan: Plan,
    asked: Asked,
    live: &Live<N>,
    reader: Reader<N>,
) -> Result<(), Fault> {
    fill(rt, alloc, live, plan.keys)?;
    match asked {
        Asked::Reads => live_reads(rt, alloc, plan, reader),
        Asked::Writes => live_writes(rt, alloc, plan, live),
    }
}

fn opened_figures<N: LiveName, R: Wait + Clock + Print>(
    rt: &R,
    alloc: Global,
    plan: Plan,
    asked: Asked,
    opened: Opened,
) -> Result<(), Fault>
    requires { opened.opening ≡ N.opening }
{
    let (live, readers) = opened.live::<N, R>(rt)?;
    let mut done = Ok(());
    for reader in readers {
        done = live_figures(rt, alloc, plan, asked, &live, reader);
    }
    live.close(rt);
    done
}

fn on_a_live<R: Wait + Clock + Print>(
    rt: &R,
    alloc: Global,
    plan: Plan,
    asked: Asked,
) -> Result<(), Fault> {
    let plan = match asked {
        Asked::Reads => plan,
        Asked::Writes => plan.with_room(),
    };
    let opened = opened(alloc, 1)?;
    opened_figures::<Brand, R>(rt, alloc, plan, asked, opened)
}

fn map_figures<T: Table, R: Wait + Clock + Print>(
    rt: &R,
    alloc: Global,
    plan: Plan,
) -> Result<(), Fault> {
    let lock = RwLock::new(filled::<T>(alloc, plan.keys)?);
    let texts = texts(alloc, plan.keys, plan.asked())?;
    let mut side = Locked {
        alloc,
        lock: &lock,
        texts: texts.as_slice(),
    };
    tell_gets(rt, alloc, plan, &mut side)?;
    tell_puts(rt, alloc, plan, &mut side)?;
    tell_copies(rt, alloc, plan, &mut side, 1)
}

fn both_maps<R: Wait + Clock + Print>(rt: &R, alloc: Global, plan: Plan) -> Result<(), Fault> {
    map_figures::<HashMap<String, Vec<u8>>, R>(rt, alloc, plan)?;
    map_figures::<BTreeMap<String, Vec<u8>>, R>(rt, alloc, plan)
}

/// Measures a get, a put and a copy of a part.
pub fn run<R: Wait + Clock + Print>(
    rt: &R,
    alloc: Global,
    plan: Plan,
    part: Part,
) -> Result<(), Fault> {
    match part {
        Part::Live(asked) => on_a_live(rt, alloc, plan, asked),
        Part::Maps => both_maps(rt, alloc, plan),
    }
}
