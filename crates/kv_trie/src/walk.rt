//! Walks through the pairs of a node: each is shown in turn, or those that have a number are gathered.

ghost use Rattle.std.specs.Prelude.{◌≡◌, ◌++◌, Result, map, ℕ, Option, IfOk};
ghost use Rattle.std.specs.Arc.{arc_value};
ghost use Rattle.std.specs.List.{flat_map};
ghost use Rattle.kv_keys.specs.declared.error.KvError.{KvError};
ghost use Rattle.kv_trie.specs.Form.{node_pairs};
ghost use Rattle.kv_trie.specs.Shown.{Goes};
ghost use Rattle.kv_trie.specs.Stored.{shape_of};
ghost use Rattle.kv_trie.specs.Numbered.{lent, numbered_pair};

use crate::branch::{Few, Padded, fetch_owners, index_count};
use crate::node::{Node, Pair};
use kv_keys::KvError;
use std::alloc::{AllocError, Global};
use std::sync::Arc;

/// What each pair of a map can be shown to, one at a time.
///
/// `shows old key value result new` says what one showing does to the visitor: from `old` to `new`, with this
/// result. It has to say of the parts that steer the visitor that they stay, since it is all that a caller of
/// [`Trie::each`](crate::Trie::each) learns.
pub trait Visit<K, V> {
    ghost shows: { Self → K → V → Result (Unit {0}) KvError → Self → Type 0 };

    /// Takes in one pair. A refusal ends the walk, and the caller of the walk gets it.
    fn pair(&mut self, key: &K, value: &V) -> Result<(), KvError>
        ensures { shows self.old key.now value.now result self.new };
}

// Shows each pair of a list, and stops where one is refused.
fn each_listed<K, V, W: Visit<K, V>>(
    pairs: &[Arc<Pair<K, V>>],
    visitor: &mut W,
) -> Result<(), KvError>
    ensures { Goes W.shows (map arc_value pairs.now) visitor.old result visitor.new }
{
    for pair in pairs {
        match visitor.pair(&pair.0, &pair.1) {
            Ok(()) => {}
            Err(error) => return Err(error),
        }
    }
    Ok(())
}

// Reads how many owners these children have, and those below them, before a walk goes into the first: they lie apart in
// memory, and so come at the same time.
fn fetch_ahead<K, V>(children: &[Node<K, V>]) {
    fetch_owners(children);
    for child in children.iter() {
        match child {
            Node::Few(few) => fetch_owners(&few.children),
            Node::Branch(branch) => fetch_owners(&branch.value),
            Node::Empty => {}
            Node::Leaf(_) => {}
            Node::List(_) => {}
        }
    }
}

// Shows each pair below a node, and stops where one is refused.
pub fn each<K, V, W: Visit<K, V>>(node: &Node<K, V>, visitor: &mut W) -> Result<(), KvError>
    ensures { Goes W.shows (node_pairs (shape_of node.now)) visitor.old result visitor.new }
{
    match node {
        Node::Empty => Ok(()),
        Node::Leaf(pair) => visitor.pair(&pair.0, &pair.1),
        Node::Branch(children) => {
            let children: &Padded<[Node<K, V>; 32]> = children;
            fetch_ahead(&children.value);
            for child in children.value.iter() {
                match each(child, visitor) {
                    Ok(()) => {}
                    Err(refusal) => return Err(refusal),
                }
            }
            Ok(())
        }
        Node::Few(few) => {
            let few: &Few<[Node<K, V>; 4]> = few;
            index_count(few);
            fetch_ahead(&few.children);
            for child in few.children.iter() {
                match each(child, visitor) {
                    Ok(()) => {}
                    Err(refused) => return Err(refused),
                }
            }
            Ok(())
        }
        Node::List(pairs) => each_listed(pairs, visitor),
    }
}

/// What gives pairs of a map a number, or leaves them out. The answer is a function of the asker, the key and the value.
///
/// `number asker key value` is the answer. A caller of [`Trie::numbered`](crate::Trie::numbered) learns by it what is
/// found.
pub trait Numbers<K, V> {
    ghost number: { Self → K → V → Option ℕ };

    /// The number of the pair, none where it is left out.
    fn number(&self, key: &K, value: &V) -> Option<u64>
        ensures { result ≡ number self.now key.now value.now };
}

// Adds the value of a pair behind its number, where it has one.
fn add_pair<'t, K, V, A: Numbers<K, V>>(
    pair: &'t Pair<K, V>,
    asker: &A,
    found: &mut Vec<(u64, &'t V)>,
) -> Result<(), AllocError>
    ensures { IfOk result (λ _. lent found.new.items ≡ lent found.old.items ++ numbered_pair (A.number asker.now) pair.now) }
{
    if let Some(number) = asker.number(&pair.0, &pair.1) {
        found.push((number, &pair.1))?;
    }
    Ok(())
}

// Adds those of a list.
fn add_listed<'t, K, V, A: Numbers<K, V>>(
    pairs: &'t [Arc<Pair<K, V>>],
    asker: &A,
    found: &mut Vec<(u64, &'t V)>,
) -> Result<(), AllocError>
    ensures { IfOk result (λ _. lent found.new.items
        ≡ lent found.old.items ++ flat_map (numbered_pair (A.number asker.now)) (map arc_value pairs.now)) }
{
    for pair in pairs {
        add_pair(pair, asker, found)?;
    }
    Ok(())
}

// Adds those below a node, in the order in which they stand.
pub fn add_numbered<'t, K, V, A: Numbers<K, V>>(
    node: &'t Node<K, V>,
    asker: &A,
    found: &mut Vec<(u64, &'t V)>,
) -> Result<(), AllocError>
    ensures { IfOk result (λ _. lent found.new.items
        ≡ lent found.old.items ++ flat_map (numbered_pair (A.number asker.now)) (node_pairs (shape_of node.now))) }
{
    match node {
        Node::Empty => Ok(()),
        Node::Leaf(pair) => add_pair(pair, asker, found),
        Node::Branch(children) => {
            let children: &Padded<[Node<K, V>; 32]> = children;
            fetch_ahead(&children.value);
            for child in children.value.iter() {
                add_numbered(child, asker, found)?;
            }
            Ok(())
        }
        Node::Few(few) => {
            let few: &Few<[Node<K, V>; 4]> = few;
            index_count(few);
            fetch_ahead(&few.children);
            for child in few.children.iter() {
                add_numbered(child, asker, found)?;
            }
            Ok(())
        }
        Node::List(pairs) => add_listed(pairs, asker, found),
    }
}
