//! A ring goes from version to version as `apply`, `compact` and `seal` make them, and each that is held stays as it was.

use super::driving::made;
use super::*;
use crate::same::tell_the_same;
use kv_store::Ring;

const KEYS: [&'static str; 4] = ["a", "b", "c.d", "a.key.of.more.than.twenty.four.bytes"];

// A ring, and the version that it is to be at, which is built apart.
#[derive(Drop)]
struct Twins {
    ring: Ring,
    version: Version,
}

// A version of the ring that is held, beside the one that it is to be.
type Held = Option<(Version, Version)>;

// Numbers that follow no plan, and are the same at each run.
fn later(number: u64) -> u64 {
    number
        .wrapping_mul(6_364_136_223_846_793_005)
        .wrapping_add(1_442_695_040_888_963_407)
}

fn ask_of(pick: u64, last: u64) -> Ask {
    match pick % 16 {
        0 => Ask::Compact(last / 2),
        1 | 2 => Ask::Delete(None),
        3 => Ask::Purge(None),
        4 => Ask::Create("created"),
        5 => Ask::Update("never", u64::MAX),
        6 => Ask::Put("a value that does not lie in the write itself"),
        _ => Ask::Put("short"),
    }
}

fn done(alloc: Global, ring: &mut Ring, text: &str, ask: Ask) -> Result<(), KvError> {
    match ask {
        Ask::Seal => ring.seal(alloc),
        Ask::Compact(floor) => ring.compact(alloc, floor),
        _ => ring.write(alloc, &request(alloc, text, ask)?),
    }
}

// Where memory is refused the ring is at the version that it was at, and the same call goes on.
fn step(
    rt: &impl Abort,
    alloc: Global,
    twins: &mut Twins,
    text: &str,
    ask: Ask,
) -> Result<(), KvError> {
    let next = once_more!(made(alloc, &twins.version, text, ask));
    let done = once_more!(
        done(alloc, &mut twins.ring, text, ask),
        tell_the_same(rt, twins.ring.version(), &twins.version)
    );
    match next {
        Ok(next) => {
            assert!(rt; done.is_ok());
            twins.version = next;
        }
        Err(error) => assert!(rt; done == Err(error)),
    }
    tell_the_same(rt, twins.ring.version(), &twins.version);
    Ok(())
}

fn is_as_it_was(rt: &impl Abort, held: &Held) {
    if let Some((version, twin)) = held {
        tell_the_same(rt, version, twin);
    }
}

// Now and then another version is held, or none.
fn hold(twins: &Twins, held: &mut Held, pick: u64) -> Result<(), KvError> {
    match pick % 8 {
        0 => *held = Some((twins.ring.version().snapshot()?, twins.version.snapshot()?)),
        1 => *held = None,
        _ => (),
    }
    Ok(())
}

fn steps(rt: &impl Abort, alloc: Global, twins: &mut Twins, count: u64) -> Result<(), KvError> {
    let mut number = 1;
    let mut held = None;
    for _ in 0..count {
        number = later(number);
        let pick = number / 4_294_967_296;
        let last = twins.version.revision();
        step(
            rt,
            alloc,
            twins,
            KEYS[(pick % 4) as usize],
            ask_of(pick / 4, last),
        )?;
        is_as_it_was(rt, &held);
        hold(twins, &mut held, pick / 64)?;
    }
    Ok(())
}

// A ring of the version goes on beside it, until both are sealed.
fn goes_on(rt: &impl Abort, alloc: Global, ring: Ring, version: Version) -> Result<(), KvError> {
    let mut twins = Twins { ring, version };
    steps(rt, alloc, &mut twins, 64)?;
    step(rt, alloc, &mut twins, "", Ask::Seal)?;
    step(rt, alloc, &mut twins, "a", Ask::Put("late"))?;
    assert!(rt; twins.ring.version().sealed());
    Ok(())
}

#[test]
fn ring_goes_on_as_versions_are_made(rt: HostRuntime) -> Result<(), Fail> {
    let version = empty(rt.alloc(), keeping(2))?;
    goes_on(&rt, rt.alloc(), Ring::new(version.snapshot()?), version)?;
    Ok(())
}

// It keeps one version before its own, where the other keeps two.
#[test]
fn a_pair_goes_on_as_versions_are_made(rt: HostRuntime) -> Result<(), Fail> {
    let version = empty(rt.alloc(), keeping(2))?;
    goes_on(&rt, rt.alloc(), Ring::pair(version.snapshot()?), version)?;
    Ok(())
}
