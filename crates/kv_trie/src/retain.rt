//! A node with only the pairs that are wanted, and what says which those are.
//!
//! What may become of a node: `None` where nothing goes, so that the node itself can be shared; else `Some` of what is
//! left of it.

ghost use Rattle.std.specs.Prelude.{◌≡◌, ◌+◌, ◌-◌, ◌<◌, ◌≤◌, ◌^◌, Bool, true, length, map, IfOk, OnOk, MatchOption};
ghost use Rattle.std.specs.Arc.{arc_value};
ghost use Rattle.std.specs.List.{filter};
ghost use Rattle.kv_trie.specs.Form.{Each, child_at, with_or_without, IsForm, IsNode, AreForms, row, listed as node_of, pairs_in, node_pairs, whole};
ghost use Rattle.kv_trie.specs.Retain.{is_wanted, IsUnwantedAt, IsRetained, slots_so_far, stays_at};
ghost use Rattle.kv_trie.specs.Stored.{shape_of, child_slots};
ghost use Rattle.kv_trie.specs.inside.Few.{Rises, has_slots, slots_of};
ghost use Rattle.kv_trie.specs.Trie.{IsRoot, root_pairs};

use crate::branch::{Padded, child_of, spread_of};
use crate::list::take_only;
use crate::node::{Node, Pair};
use crate::remove::take_rest;
use kv_keys::Place;
use std::alloc::{AllocError, Global};
use std::sync::Arc;

/// A question about each pair of a map, whose answer is a function of the asker, the key and the value.
///
/// `wanted asker key value` is the answer. A caller of [`Trie::retain`](crate::Trie::retain) learns by it what stays.
pub trait Wants<K, V> {
    ghost wanted: { Self → K → V → Bool };

    /// Whether the pair is to stay.
    fn wants(&self, key: &K, value: &V) -> bool
        ensures { result ≡ wanted self.now key.now value.now };
}

// Where the first pair is that is not wanted.
fn first_unwanted<K, V, W: Wants<K, V>>(pairs: &[Arc<Pair<K, V>>], wants: &W) -> Option<usize>
    ensures { MatchOption result (Each
        (λ p. is_wanted (W.wanted wants.now) p
        ≡ true) (map arc_value pairs.now)) (IsUnwantedAt (is_wanted (W.wanted wants.now)) (map arc_value pairs.now)) }
{
    for (at, pair) in pairs.iter().enumerate() {
        if !wants.wants(&pair.0, &pair.1) {
            return Some(at);
        }
    }
    None
}

// Whether the pair at a place is wanted, asked only behind the first that is not.
fn stays<K, V, W: Wants<K, V>>(pair: &Pair<K, V>, at: usize, first: usize, wants: &W) -> bool
    ensures { result ≡ stays_at (is_wanted (W.wanted wants.now)) first at pair.now }
{
    at < first || (at > first && wants.wants(&pair.0, &pair.1))
}

// The pairs that are wanted, where the first that is not is known.
fn wanted_pairs<K: Drop, V: Drop, W: Wants<K, V>>(
    alloc: Global,
    pairs: &[Arc<Pair<K, V>>],
    first: usize,
    wants: &W,
) -> Result<Vec<Arc<Pair<K, V>>>, AllocError>
    requires { IsUnwantedAt (is_wanted (W.wanted wants.now)) (map arc_value pairs.now) first }
    ensures { IfOk result
        (λ new. map arc_value new.items ≡ filter (is_wanted (W.wanted wants.now)) (map arc_value pairs.now)) }
{
    let mut kept = Vec::new(alloc);
    for (at, pair) in pairs.iter().enumerate() {
        if stays(pair, at, first, wants) {
            kept.push(Arc::try_clone(pair)?)?;
        }
    }
    Ok(kept)
}

// The node of pairs of one place.
fn listed<K: Drop, V: Drop>(
    alloc: Global,
    pairs: Vec<Arc<Pair<K, V>>>,
) -> Result<Node<K, V>, AllocError>
    ensures { IfOk result (λ node. shape_of node ≡ node_of (map arc_value pairs.items)) }
{
    let mut pairs = pairs;
    if pairs.is_empty() {
        return Ok(Node::Empty);
    }
    match take_only(&mut pairs) {
        Some(pair) => Ok(Node::Leaf(pair)),
        None => Ok(Node::List(Arc::new(alloc, pairs)?)),
    }
}

// What is left of a list.
fn retain_listed<K: Place + Drop, V: Drop, W: Wants<K, V>>(
    alloc: Global,
    pairs: &Vec<Arc<Pair<K, V>>>,
    wants: &W,
    gone: &mut u64,
) -> Result<Option<Node<K, V>>, AllocError>
    requires form { IsForm K.cmp K.place_of 0 (row (map arc_value pairs.now.items)) }
    requires count { gone.old + length pairs.now.items < 2 ^ 64 }
    ensures retained { IfOk result (IsRetained K.cmp K.place_of (is_wanted (W.wanted wants.now)) 0
        (map arc_value pairs.now.items)) }
    ensures count { OnOk result (gone.new + length
        (filter (is_wanted (W.wanted wants.now)) (map arc_value pairs.now.items)) ≡ gone.old + length pairs.now.items) }
{
    let first = match first_unwanted(pairs, wants) {
        Some(first) => first,
        None => return Ok(None),
    };
    let kept = wanted_pairs(alloc, pairs, first, wants)?;
    *gone += (pairs.len() - kept.len()) as u64;
    Ok(Some(listed(alloc, kept)?))
}

// The children of a branch as far as they have changed, with this one at the index. They are copied at the first
// change.
fn changed<K: Drop, V: Drop>(
    rest: Option<[Node<K, V>; 32]>,
    branch: &Node<K, V>,
    index: usize,
    child: Node<K, V>,
) -> Result<[Node<K, V>; 32], AllocError>
    requires index { index < 32 }
    requires indices { Rises 0 (slots_of (shape_of branch.now)) }
    ensures { IfOk result (λ new. child_slots new
        ≡ with_or_without index (shape_of child) (slots_so_far rest (slots_of (shape_of branch.now)))) }
{
    let mut new = match rest {
        Some(new) => new,
        None => spread_of(branch)?,
    };
    new[index] = child;
    Ok(new)
}

// The node of these children.
fn node_of_children<K: Drop, V: Drop>(
    alloc: Global,
    children: [Node<K, V>; 32],
) -> Result<Node<K, V>, AllocError>
    ensures { IfOk result (λ node. shape_of node ≡ whole (child_slots children)) }
{
    let mut children = children;
    match take_rest(alloc, &mut children) {
        Some(node) => Ok(node),
        None => Ok(Node::Branch(Arc::new(alloc, Padded::new(children))?)),
    }
}

// What is left of the child of a branch at an index.
#[cycle(retain)]
fn retain_at<K: Place + Drop, V: Drop, W: Wants<K, V>>(
    alloc: Global,
    branch: &Node<K, V>,
    index: usize,
    left: u32,
    wants: &W,
    gone: &mut u64,
) -> Result<Option<Node<K, V>>, AllocError>
    requires levels { left ≤ 7 }
    requires some { 0 < left }
    requires index { index < 32 }
    requires form { IsNode K.cmp K.place_of (left - 1) (child_at index (slots_of (shape_of branch.now))) }
    requires count { gone.old + length (node_pairs (child_at index (slots_of (shape_of branch.now)))) < 2 ^ 64 }
    ensures retained { IfOk result (IsRetained K.cmp K.place_of (is_wanted (W.wanted wants.now)) (left - 1)
        (node_pairs (child_at index (slots_of (shape_of branch.now))))) }
    ensures count { OnOk result (gone.new + length
        (filter (is_wanted (W.wanted wants.now)) (node_pairs (child_at index (slots_of (shape_of branch.now)))))
        ≡ gone.old + length (node_pairs (child_at index (slots_of (shape_of branch.now))))) }
{
    match child_of(branch, index) {
        Some(child) => retain(alloc, child, left - 1, wants, gone),
        None => Ok(None),
    }
}

// What is left of a branch.
#[cycle(retain)]
fn retain_below<K: Place + Drop, V: Drop, W: Wants<K, V>>(
    alloc: Global,
    branch: &Node<K, V>,
    left: u32,
    wants: &W,
    gone: &mut u64,
) -> Result<Option<Node<K, V>>, AllocError>
    requires levels { left ≤ 7 }
    requires form { IsNode K.cmp K.place_of left (shape_of branch.now) }
    requires branch { has_slots (shape_of branch.now) ≡ true }
    requires count { gone.old + length (node_pairs (shape_of branch.now)) < 2 ^ 64 }
    ensures retained { IfOk result (IsRetained K.cmp K.place_of (is_wanted (W.wanted wants.now)) left
        (node_pairs (shape_of branch.now))) }
    ensures count { OnOk result (gone.new + length
        (filter (is_wanted (W.wanted wants.now)) (node_pairs (shape_of branch.now))) ≡ gone.old + length
        (node_pairs (shape_of branch.now))) }
{
    let mut rest = None;
    for index in 0..32 {
        match retain_at(alloc, branch, index, left, wants, gone)? {
            Some(new) => rest = Some(changed(rest, branch, index, new)?),
            None => {}
        }
    }
    match rest {
        Some(children) => Ok(Some(node_of_children(alloc, children)?)),
        None => Ok(None),
    }
}

// What is left of a node, and how many pairs of it go.
#[cycle(retain)]
pub fn retain<K: Place + Drop, V: Drop, W: Wants<K, V>>(
    alloc: Global,
    node: &Node<K, V>,
    left: u32,
    wants: &W,
    gone: &mut u64,
) -> Result<Option<Node<K, V>>, AllocError>
    requires levels { left ≤ 7 }
    requires form { IsNode K.cmp K.place_of left (shape_of node.now) }
    requires count { gone.old + length (node_pairs (shape_of node.now)) < 2 ^ 64 }
    ensures retained { IfOk result (IsRetained K.cmp K.place_of (is_wanted (W.wanted wants.now)) left
        (node_pairs (shape_of node.now))) }
    ensures count { OnOk result (gone.new + length
        (filter (is_wanted (W.wanted wants.now)) (node_pairs (shape_of node.now))) ≡ gone.old + length
        (node_pairs (shape_of node.now))) }
{
    match node {
        Node::Empty => Ok(None),
        Node::Leaf(pair) => {
            if wants.wants(&pair.0, &pair.1) {
                return Ok(None);
            }
            *gone += 1;
            Ok(Some(Node::Empty))
        }
        Node::Few(_) => retain_below(alloc, node, left, wants, gone),
        Node::Branch(_) => retain_below(alloc, node, left, wants, gone),
        Node::List(pairs) => retain_listed(alloc, pairs, wants, gone),
    }
}

// The root of the pairs that are wanted.
pub fn retain_at_root<K: Place + Drop, V: Drop, W: Wants<K, V>>(
    alloc: Global,
    root: &Node<K, V>,
    wants: &W,
    gone: &mut u64,
) -> Result<Node<K, V>, AllocError>
    requires form { IsRoot K.cmp K.place_of root.now }
    requires count { gone.old + length (root_pairs root.now) < 2 ^ 64 }
    ensures retained { IfOk result
        (λ new. IsRoot K.cmp K.place_of new
        × (root_pairs new ≡ filter (is_wanted (W.wanted wants.now)) (root_pairs root.now))) }
    ensures count { OnOk result (gone.new + length (filter (is_wanted (W.wanted wants.now)) (root_pairs root.now))
        ≡ gone.old + length (root_pairs root.now)) }
{
    match retain(alloc, root, 7, wants, gone)? {
        Some(new) => Ok(new),
        None => root.clone(),
    }
}
