//! Keys of one place, beside tries that are held.

use super::driving::hold;
use super::*;
use std::alloc::AllocError;

const TEN: [(&str, u32); 10] = [
    ("k0", 0),
    ("k1", 1),
    ("k2", 2),
    ("k3", 3),
    ("k4", 4),
    ("k5", 5),
    ("k6", 6),
    ("k7", 7),
    ("k8", 8),
    ("k9", 9),
];

// The trie is that of these pairs, built apart.
fn is_built(rt: &impl Abort, alloc: Global, trie: &Numbers<Short>, pairs: &[(&str, u32)]) {
    match built(alloc, pairs) {
        Ok(other) => are_same(rt, trie, &other),
        Err(error) => equal(rt, Some(error), None),
    }
}

// The trie of the ten pairs. A refusal of the next one leaves the trie as it was.
fn ten(rt: &impl Abort, alloc: Global) -> Result<Numbers<Short>, KvError> {
    let mut trie = Trie::new();
    for at in 0..TEN.len() {
        let (text, value) = TEN[at];
        trie = once_more!(
            inserted(alloc, &trie, text, value),
            is_built(rt, alloc, &trie, &TEN[..at])
        )?;
    }
    Ok(trie)
}

// The trie of the ten pairs without the last nine. A refusal leaves the trie as it was.
fn without_nine(
    rt: &impl Abort,
    alloc: Global,
    ten: Numbers<Short>,
) -> Result<Numbers<Short>, KvError> {
    let mut trie = ten;
    for at in (1..10).rev() {
        trie = once_more!(
            removed(alloc, &trie, TEN[at].0),
            is_built(rt, alloc, &trie, &TEN[..at + 1])
        )?;
    }
    Ok(trie)
}

// A snapshot of ten keys stays as it is while nine are removed, and what is left has the form of one key alone.
#[test]
fn a_snapshot_stays_beside_nine_removals(rt: HostRuntime) -> Result<(), Fail> {
    let all = ten(&rt, rt.alloc())?;
    let held = hold(&all)?;
    let rest = without_nine(&rt, rt.alloc(), all)?;
    are_same(&rt, &rest, &built(rt.alloc(), &TEN[..1])?);
    equal(&rt, held.len(), 10);
    equal(&rt, walks::counted(&held, 10), (Ok(()), 10, 45));
    Ok(())
}

// The three digits of a number, as a text.
fn digits(alloc: Global, number: u32) -> Result<String, AllocError> {
    Ok(format!(in alloc; "{number:03}")?)
}

// A list with room for each of a thousand, and one more.
fn roomy<T: Drop>(alloc: Global) -> Result<Vec<T>, AllocError> {
    Ok(Vec::with_capacity(alloc, 1001)?)
}

// The texts `000` to `999`.
fn thousand_texts(alloc: Global) -> Result<Vec<String>, AllocError> {
    let mut texts = once_more!(roomy(alloc))?;
    for number in 0..1000 {
        texts.push(once_more!(digits(alloc, number))?)?;
    }
    Ok(texts)
}

// The trie has so many keys, each with the value 1.
fn has(rt: &impl Abort, trie: &Numbers<Short>, count: u64) {
    equal(rt, trie.len(), count);
    equal(rt, walks::sum(trie) as u64, count);
}

fn keep(kept: &mut Vec<Numbers<Short>>, trie: &Numbers<Short>) -> Result<(), KvError> {
    let same = hold(trie)?;
    Ok(kept.push(same)?)
}

// Puts each of the texts in order, and keeps the trie before the first and after each of them. A refusal leaves it as it was.
fn put_each(
    rt: &impl Abort,
    alloc: Global,
    texts: &[String],
    trie: &mut Numbers<Short>,
    kept: &mut Vec<Numbers<Short>>,
) -> Result<(), KvError> {
    let mut count: u64 = 0;
    keep(kept, trie)?;
    for text in texts {
        once_more!(put(alloc, trie, text.as_str(), 1), has(rt, trie, count))?;
        count = count.saturating_add(1);
        keep(kept, trie)?;
    }
    Ok(())
}

// The trie has the form of the one that was kept last, and both have so many keys.
fn is_as_kept(rt: &impl Abort, trie: &Numbers<Short>, kept: &mut Vec<Numbers<Short>>, count: u64) {
    match kept.pop() {
        Some(earlier) => {
            assert!(rt; trie.same_form(&earlier));
            has(rt, trie, count);
            has(rt, &earlier, count);
        }
        None => assert!(rt; false, "kept"),
    }
}

// Removes each of the texts, the last first. Each time the trie is the one that was kept when it had as many. A refusal leaves
// it as it was.
fn discard_each(
    rt: &impl Abort,
    alloc: Global,
    texts: &[String],
    trie: &mut Numbers<Short>,
    kept: &mut Vec<Numbers<Short>>,
) -> Result<(), KvError> {
    let mut left = texts.len() as u64;
    is_as_kept(rt, trie, kept, left);
    for at in (0..texts.len()).rev() {
        let text = texts[at].as_str();
        once_more!(discard(alloc, trie, text), has(rt, trie, left))?;
        left = left.saturating_sub(1);
        is_as_kept(rt, trie, kept, left);
    }
    Ok(())
}

#[test]
fn a_thousand_keys_of_one_place_come_and_go(rt: HostRuntime) -> Result<(), Fail> {
    let texts = thousand_texts(rt.alloc())?;
    let mut kept = once_more!(roomy(rt.alloc()))?;
    let mut trie = Trie::new();
    put_each(&rt, rt.alloc(), &texts, &mut trie, &mut kept)?;
    discard_each(&rt, rt.alloc(), &texts, &mut trie, &mut kept)?;
    assert!(rt; matches!(trie.root(), Node::Empty));
    Ok(())
}
