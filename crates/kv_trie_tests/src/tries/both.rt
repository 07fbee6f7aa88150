//! Puts into two tries: both change, or neither.

use super::*;
use kv_trie::{Alone, NewPair, put_both};
use std::sync::Arc;

// The names are the keys of the one trie and of the other, in which those of one length have one place. The first and
// the last get new values.
const PUTS: [(&str, u32); 8] = [
    ("k0", 0),
    ("k1", 1),
    ("altarage", 2),
    ("k2", 3),
    ("zinke", 4),
    ("k3", 5),
    ("k0", 80),
    ("zinke", 81),
];

#[derive(Drop)]
struct Both {
    keys: Numbers<Key>,
    shorts: Numbers<Short>,
}

fn put_in_both(alloc: Global, both: &mut Both, text: &str, value: u32) -> Result<(), KvError> {
    let key = Key::named(alloc, text)?;
    let short = Short::named(alloc, text)?;
    if both.keys.len() < MANY && both.shorts.len() < MANY {
        let of_key = NewPair::Owned((key, value));
        let of_short = NewPair::Shared(Arc::new(alloc, (short, value))?);
        put_both(
            alloc,
            &mut both.keys,
            of_key,
            &mut both.shorts,
            of_short,
            &mut Alone,
        )
    } else {
        Err(KvError::JournalFull)
    }
}

// Both tries are those of so many of the puts, built apart.
fn have(rt: &impl Abort, alloc: Global, both: &Both, puts: &[(&str, u32)]) -> Result<(), KvError> {
    are_same(rt, &both.keys, &built(alloc, puts)?);
    are_same(rt, &both.shorts, &built(alloc, puts)?);
    Ok(())
}

// The next put. A refusal leaves both tries as they were.
fn put_next(
    rt: &impl Abort,
    alloc: Global,
    both: &mut Both,
    before: &[(&str, u32)],
    next: (&str, u32),
) -> Result<(), KvError> {
    once_more!(
        put_in_both(alloc, both, next.0, next.1),
        equal(rt, have(rt, alloc, both, before), Ok(()))
    )
}

#[test]
fn both_tries_change_or_neither(rt: HostRuntime) -> Result<(), Fail> {
    let mut both = Both {
        keys: Trie::new(),
        shorts: Trie::new(),
    };
    for at in 0..PUTS.len() {
        put_next(&rt, rt.alloc(), &mut both, &PUTS[..at], PUTS[at])?;
    }
    have(&rt, rt.alloc(), &both, &PUTS)?;
    Ok(())
}

fn built_both(alloc: Global, puts: &[(&str, u32)]) -> Result<Both, KvError> {
    let keys = built(alloc, puts)?;
    let shorts = built(alloc, puts)?;
    Ok(Both { keys, shorts })
}

fn snapshots(both: &Both) -> Result<Both, KvError> {
    let keys = both.keys.snapshot()?;
    let shorts = both.shorts.snapshot()?;
    Ok(Both { keys, shorts })
}

#[test]
fn snapshots_of_both_tries_stay(rt: HostRuntime) -> Result<(), Fail> {
    let mut both = built_both(rt.alloc(), &PUTS[..6])?;
    let held = snapshots(&both)?;
    put_next(&rt, rt.alloc(), &mut both, &PUTS[..6], PUTS[6])?;
    have(&rt, rt.alloc(), &held, &PUTS[..6])?;
    have(&rt, rt.alloc(), &both, &PUTS[..7])?;
    Ok(())
}
