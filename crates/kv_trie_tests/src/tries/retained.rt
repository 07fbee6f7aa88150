//! Tries of which some entries stay.

ghost use Rattle.std.specs.Prelude.{nat_lt};

use super::steps::HUNDRED;
use super::*;
use std::sync::Arc;

// Wants the values below a limit.
#[derive(Drop)]
struct Below {
    limit: u32,
}

impl<K: Named> Wants<K, u32> for Below {
    ghost wanted = { λ asker key value. nat_lt value asker.limit };

    fn wants(&self, _key: &K, value: &u32) -> bool {
        *value < self.limit
    }
}

fn kept<K: Named>(alloc: Global, trie: &Numbers<K>, limit: u32) -> Result<Numbers<K>, KvError> {
    trie.retain(alloc, &Below { limit })
}

// The names with the values below the limit. A name's value is at its place, or 0 where there are fewer values.
fn made<K: Named>(
    alloc: Global,
    names: &[&str],
    values: &[u32],
    limit: u32,
) -> Result<Numbers<K>, KvError> {
    let mut trie = Trie::new();
    for at in 0..names.len() {
        let value = values.get(at).copied().unwrap_or(0);
        if value < limit {
            once_more!(put(alloc, &mut trie, names[at], value))?;
        }
    }
    Ok(trie)
}

// What stays below the limit is what a trie that is built apart has. A refusal leaves the trie as its twin is.
fn stays<K: Named>(
    rt: &impl Abort,
    alloc: Global,
    all: &Numbers<K>,
    twin: &Numbers<K>,
    apart: &Numbers<K>,
    limit: u32,
) -> Result<(), KvError> {
    let rest = once_more!(kept(alloc, all, limit), are_same(rt, all, twin))?;
    are_same(rt, &rest, apart);
    are_same(rt, all, twin);
    Ok(())
}

fn all_limits<K: Named>(
    rt: &impl Abort,
    alloc: Global,
    names: &[&str],
    values: &[u32],
    limits: &[u32],
) -> Result<(), KvError> {
    let all: Numbers<K> = made(alloc, names, values, 1_000_000)?;
    let twin = made(alloc, names, values, 1_000_000)?;
    for limit in limits {
        let apart = made(alloc, names, values, *limit)?;
        stays(rt, alloc, &all, &twin, &apart, *limit)?;
    }
    Ok(())
}

const WORKED: &[&str] = &["a", "foobar", "altarage", "zinke"];

// The values of the worked keys, and the limits.
const WORKED_VALUES: &[([u32; 4], &[u32])] = &[
    ([0, 1, 2, 3], &[0, 1, 2, 3, 4]),
    ([3, 2, 1, 0], &[0, 1, 2, 3, 4]),
    ([0, 5, 5, 0], &[5]),
    ([5, 0, 5, 0], &[5]),
];

#[test]
fn worked_keys_below_a_limit_are_retained(rt: HostRuntime) -> Result<(), Fail> {
    for (values, limits) in WORKED_VALUES {
        all_limits::<Key>(&rt, rt.alloc(), WORKED, values, limits)?;
    }
    Ok(())
}

// The numbers below 100, each once, in no order.
const NUMBERS: &[u32] = &[
    91, 2, 30, 33, 58, 68, 85, 7, 74, 29, 50, 53, 87, 39, 98, 92, 84, 61, 78, 8, 81, 25, 75, 46,
    28, 5, 41, 77, 15, 51, 42, 22, 36, 38, 37, 63, 96, 21, 4, 65, 80, 57, 26, 72, 76, 19, 24, 54,
    44, 11, 95, 40, 43, 34, 12, 70, 18, 90, 55, 10, 62, 71, 99, 64, 0, 66, 16, 56, 17, 9, 86, 49,
    23, 35, 52, 27, 1, 82, 73, 13, 69, 48, 89, 60, 47, 14, 20, 6, 93, 31, 59, 3, 67, 83, 97, 88,
    45, 94, 32, 79,
];

const LIMITS: &[u32] = &[0, 1, 2, 3, 10, 50, 90, 99, 100];

#[test]
fn a_hundred_keys_below_a_limit_are_retained(rt: HostRuntime) -> Result<(), Fail> {
    all_limits::<Key>(&rt, rt.alloc(), HUNDRED, NUMBERS, LIMITS)?;
    Ok(())
}

#[test]
fn a_hundred_keys_of_one_place_below_a_limit_are_retained(rt: HostRuntime) -> Result<(), Fail> {
    all_limits::<Short>(&rt, rt.alloc(), HUNDRED, NUMBERS, LIMITS)?;
    Ok(())
}

// Whether another node has what this node has.
fn is_shared(node: &Node<Key, u32>) -> bool {
    match node {
        Node::Empty => false,
        Node::Leaf(pair) => Arc::strong_count(pair) > 1,
        Node::Few(few) => Arc::strong_count(few) > 1,
        Node::Branch(children) => Arc::strong_count(children) > 1,
        Node::List(pairs) => Arc::strong_count(pairs) > 1,
    }
}

// How many of these nodes others have too.
fn count_shared(nodes: &[Node<Key, u32>]) -> u64 {
    let mut same: u64 = 0;
    for node in nodes {
        if is_shared(node) {
            same = same.saturating_add(1);
        }
    }
    same
}

// How many children of the root other nodes have too.
fn shared_children(trie: &Numbers<Key>) -> u64 {
    match trie.root() {
        Node::Few(few) => count_shared(&few.children),
        Node::Branch(children) => count_shared(&children.value),
        _ => 0,
    }
}

// How many children of the root are shared, and how many of the root of what stays below the limit.
#[derive(Clone, Copy)]
struct Shared {
    of_all: u64,
    of_the_rest: u64,
}

fn shares(
    rt: &impl Abort,
    alloc: Global,
    all: &Numbers<Key>,
    limit: u32,
    wanted: Shared,
) -> Result<(), KvError> {
    let rest = once_more!(kept(alloc, all, limit))?;
    equal(rt, shared_children(all), wanted.of_all);
    equal(rt, shared_children(&rest), wanted.of_the_rest);
    Ok(())
}

const WITHOUT_ZINKE: Shared = Shared {
    of_all: 2,
    of_the_rest: 3,
};

const WITH_EACH: Shared = Shared {
    of_all: 0,
    of_the_rest: 0,
};

// Where only `zinke` goes the pairs of the others are those of before, and that of `altarage` stands at the root; where
// nothing goes the root is the one of before, and so are its children, which nobody else has.
#[test]
fn what_is_retained_shares_its_parts(rt: HostRuntime) -> Result<(), Fail> {
    let all = made(rt.alloc(), WORKED, &[0, 1, 2, 3], 4)?;
    equal(&rt, shared_children(&all), 0);
    shares(&rt, rt.alloc(), &all, 3, WITHOUT_ZINKE)?;
    shares(&rt, rt.alloc(), &all, 4, WITH_EACH)?;
    Ok(())
}
