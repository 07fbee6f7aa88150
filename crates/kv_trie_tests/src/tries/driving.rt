//! What drives the rows. Each row makes a trie of its own, and is done to a second trie in place; so each of the two is
//! an equal one, built apart, beside which the other is held.

use super::*;

fn made<K: Named>(alloc: Global, trie: &Numbers<K>, step: Step) -> Result<Numbers<K>, KvError> {
    match step {
        Step::Put(text, value) => inserted(alloc, trie, text, value),
        Step::Remove(text) => removed(alloc, trie, text),
    }
}

fn done_once<K: Named>(alloc: Global, here: &mut Numbers<K>, step: Step) -> Result<(), KvError> {
    match step {
        Step::Put(text, value) => put(alloc, here, text, value),
        Step::Remove(text) => discard(alloc, here, text),
    }
}

// Does the step to the trie itself. A refusal leaves it as its twin is.
fn done<K: Named>(
    rt: &impl Abort,
    alloc: Global,
    here: &mut Numbers<K>,
    twin: &Numbers<K>,
    step: Step,
) -> Result<(), KvError> {
    once_more!(done_once(alloc, here, step), are_same(rt, here, twin))
}

pub(super) fn hold<K: Named>(trie: &Numbers<K>) -> Result<Numbers<K>, KvError> {
    once_more!(trie.snapshot())
}

// Does the step beside a snapshot, which stays as the former trie is.
fn done_beside<K: Named>(
    rt: &impl Abort,
    alloc: Global,
    here: &mut Numbers<K>,
    former: &Numbers<K>,
    step: Step,
) -> Result<(), KvError> {
    let held = hold(here)?;
    done(rt, alloc, here, former, step)?;
    are_same(rt, &held, former);
    Ok(())
}

fn value<K: Named>(alloc: Global, trie: &Numbers<K>, text: &str) -> Result<Option<u32>, KvError> {
    let key = K::named(alloc, text)?;
    Ok(trie.get(&key).copied())
}

fn has_done<K: Named>(
    rt: &impl Abort,
    alloc: Global,
    trie: &Numbers<K>,
    row: Row,
) -> Result<(), KvError> {
    let (text, wanted) = match row.0 {
        Step::Put(text, value) => (text, Some(value)),
        Step::Remove(text) => (text, None),
    };
    equal(rt, once_more!(value(alloc, trie, text))?, wanted);
    equal(rt, trie.len(), row.1);
    Ok(())
}

// Makes the trie behind the step, and does the step to the other one. A refusal leaves each as the other is.
pub(super) fn step<K: Named>(
    rt: &impl Abort,
    alloc: Global,
    trie: &mut Numbers<K>,
    here: &mut Numbers<K>,
    beside: bool,
    row: Row,
) -> Result<(), KvError> {
    let next = once_more!(made(alloc, trie, row.0), are_same(rt, trie, here))?;
    if beside {
        done_beside(rt, alloc, here, trie, row.0)?;
    } else {
        done(rt, alloc, here, trie, row.0)?;
    }
    are_same(rt, here, &next);
    *trie = next;
    has_done(rt, alloc, trie, row)
}
