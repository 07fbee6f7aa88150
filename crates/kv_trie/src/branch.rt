//! Branches: the children of a node, few of them in a small block or one at each of 32 indices.

ghost use Rattle.std.specs.Prelude.{◌≡◌, ◌<◌, length, map, true, false, None, IsSome, MatchOption, slice_set, slice_index_or, Some, IfOk, IfSome, OnOk};
ghost use Rattle.std.specs.Arc.{arc_value};
ghost use Rattle.kv_trie.specs.Form.{none, child_at, branch};
ghost use Rattle.kv_trie.specs.Stored.{child_slots, shape_of, few_slots};
ghost use Rattle.kv_trie.specs.inside.Few.{Rises, IsSpot, IsBehind, IsBefore, IsChildAt, HasRoom, IsCopy, slots_of};

use crate::node::{Node, is_empty};
use std::alloc::{AllocError, Global};
use std::mem;
use std::sync::Arc;

/// A value behind padding. In an `Arc` that keeps it away from the count of its owners: who adds an owner takes the
/// count's cache line away from every processor that has it, and would take what it reads of the value too (false
/// sharing). Its six words and the two counts of an `Arc` make 64 bytes, a line of a processor of today: the children begin
/// on the next one, and a branch of 32 fills nine lines, 576 bytes. A small one has no padding ([`Few`](crate::Few)).
#[derive(Drop)]
pub struct Padded<T> {
    padding: [u64; 6],
    pub value: T,
}

impl<T> Padded<T> {
    /// The value, behind padding.
    pub fn new(value: T) -> Padded<T>
        ensures { result.value ≡ value }
    {
        Padded {
            padding: [0; 6],
            value,
        }
    }
}

impl<T: Clone> Clone for Padded<T> {
    ghost is_clone = { λ old new. T.is_clone old.value new.value };

    fn clone(&self) -> Result<Padded<T>, AllocError> {
        Ok(Padded::new(self.value.clone()?))
    }
}

// No children.
pub fn no_children<K, V>() -> [Node<K, V>; 32]
    ensures { child_slots result ≡ none }
{
    [
        Node::Empty,
        Node::Empty,
        Node::Empty,
        Node::Empty,
        Node::Empty,
        Node::Empty,
        Node::Empty,
        Node::Empty,
        Node::Empty,
        Node::Empty,
        Node::Empty,
        Node::Empty,
        Node::Empty,
        Node::Empty,
        Node::Empty,
        Node::Empty,
        Node::Empty,
        Node::Empty,
        Node::Empty,
        Node::Empty,
        Node::Empty,
        Node::Empty,
        Node::Empty,
        Node::Empty,
        Node::Empty,
        Node::Empty,
        Node::Empty,
        Node::Empty,
        Node::Empty,
        Node::Empty,
        Node::Empty,
        Node::Empty,
    ]
}

/// The children of a branch that has four or fewer, in the order of their indices, and the index of each. A child that is
/// none is not there, whatever index stands beside it; such are behind the others.
///
/// In an `Arc` it takes 88 bytes, 96 with what an allocator adds, where a branch of 32 takes 592. No padding keeps it away
/// from the count of its owners, as `Padded` does for a branch of 32: that would take half as much again, and there are
/// many more small branches, each of which fewer readers look at.
#[derive(Drop)]
pub struct Few<T> {
    pub indices: [u8; 4],
    pub children: T,
}

// A branch of no children.
fn no_few<K, V>() -> Few<[Node<K, V>; 4]>
    ensures { few_slots result ≡ none }
{
    Few {
        indices: [0; 4],
        children: [Node::Empty, Node::Empty, Node::Empty, Node::Empty],
    }
}

// How many indices there are. It costs nothing, and tells a proof that each child has one.
pub fn index_count<K, V>(few: &Few<[Node<K, V>; 4]>) -> usize
    ensures all { result ≡ length few.now.indices }
    ensures four { result ≡ 4 }
{
    few.indices.len()
}

// Where the child of an index is.
pub fn spot_of<K, V>(few: &Few<[Node<K, V>; 4]>, at: usize) -> Option<usize>
    ensures { MatchOption result (child_at at (few_slots few.now) ≡ None) (IsChildAt few.now at) }
{
    for spot in 0..4 {
        if few.indices[spot] as usize == at && !is_empty(&few.children[spot]) {
            return Some(spot);
        }
    }
    None
}

// Whether the child at a place belongs behind that of an index. One that is none can stand anywhere.
fn goes_behind<K, V>(few: &Few<[Node<K, V>; 4]>, spot: usize, at: usize) -> bool
    requires { spot < 4 }
    ensures behind { result ≡ true → IsBehind at spot few.now.indices (map shape_of few.now.children) }
    ensures before { result ≡ false → IsBefore at spot few.now.indices (map shape_of few.now.children) }
{
    is_empty(&few.children[spot]) || at < few.indices[spot] as usize
}

// Moves a child to another place, and leaves none where it was.
fn move_child<K: Drop, V: Drop>(few: &mut Few<[Node<K, V>; 4]>, from: usize, to: usize)
    requires from { from < 4 }
    requires to { to < 4 }
    ensures indices { few.new.indices ≡ slice_set few.old.indices to (slice_index_or few.old.indices from 0) }
    ensures children { map shape_of few.new.children
        ≡ slice_set (slice_set (map shape_of few.old.children) from None) to
        (slice_index_or (map shape_of few.old.children) from None) }
{
    few.indices[to] = few.indices[from];
    few.children[to] = mem::replace(&mut few.children[from], Node::Empty);
}

// Makes a place for a child of an index that has none: children of higher indices move by one.
fn make_place<K: Drop, V: Drop>(few: &mut Few<[Node<K, V>; 4]>, at: usize) -> usize
    requires small { at < 32 }
    requires indices { Rises 0 (few_slots few.old) }
    requires absent { child_at at (few_slots few.old) ≡ None }
    requires room { HasRoom few.old }
    ensures slots { few_slots few.new ≡ few_slots few.old }
    ensures spot { IsSpot at result few.new.indices (map shape_of few.new.children) }
    ensures small { result < 4 }
{
    for moved in 0..3 {
        let gap = 3 - moved;
        if !goes_behind(few, gap - 1, at) {
            few.indices[gap] = at as u8;
            return gap;
        }
        move_child(few, gap - 1, gap);
    }
    few.indices[0] = at as u8;
    0
}

// The place of the child of an index, made where there is none.
pub fn open<K: Drop, V: Drop>(few: &mut Few<[Node<K, V>; 4]>, at: usize) -> usize
    requires small { at < 32 }
    requires indices { Rises 0 (few_slots few.old) }
    requires room { child_at at (few_slots few.old) ≡ None → HasRoom few.old }
    ensures slots { few_slots few.new ≡ few_slots few.old }
    ensures spot { IsSpot at result few.new.indices (map shape_of few.new.children) }
    ensures small { result < 4 }
{
    match spot_of(few, at) {
        Some(spot) => spot,
        None => make_place(few, at),
    }
}

// The place of the child of an index that has one.
pub fn spot_in<K, V>(few: &Few<[Node<K, V>; 4]>, at: usize) -> usize
    requires indices { Rises 0 (few_slots few.now) }
    requires there { IsSome (child_at at (few_slots few.now)) }
    ensures spot { IsSpot at result few.now.indices (map shape_of few.now.children) }
    ensures small { result < 4 }
{
    match spot_of(few, at) {
        Some(spot) => spot,
        None => unreachable!(),
    }
}

// Moves the children behind one that is none by one place.
pub fn close<K: Drop, V: Drop>(few: &mut Few<[Node<K, V>; 4]>)
    ensures { few_slots few.new ≡ few_slots few.old }
{
    for to in 0..3 {
        if is_empty(&few.children[to]) {
            move_child(few, to + 1, to);
        }
    }
}

// Whether there is a place for one more child.
fn has_room<K, V>(few: &Few<[Node<K, V>; 4]>) -> bool
    ensures { result ≡ true → HasRoom few.now }
{
    is_empty(&few.children[3])
}

// Whether there is a child of an index, or a place for one.
pub fn has_room_at<K, V>(few: &Few<[Node<K, V>; 4]>, at: usize) -> bool
    ensures { result ≡ true → child_at at (few_slots few.now) ≡ None → HasRoom few.now }
{
    has_room(few) || spot_of(few, at).is_some()
}

impl<K: Drop, V: Drop> Clone for Few<[Node<K, V>; 4]> {
    ghost is_clone = { λ old new. IsCopy old new };

    fn clone(&self) -> Result<Few<[Node<K, V>; 4]>, AllocError> {
        fetch_owners(&self.children);
        Ok(Few {
            indices: self.indices,
            children: self.children.clone()?,
        })
    }
}

// The child of a branch at an index. A node that is no branch has none.
pub fn child_of<K, V>(node: &Node<K, V>, at: usize) -> Option<&Node<K, V>>
    requires { at < 32 }
    ensures { MatchOption result (child_at at (slots_of (shape_of node.now)) ≡ None)
        (λ child. child_at at (slots_of (shape_of node.now)) ≡ shape_of child.now) }
{
    match node {
        Node::Few(few) => match spot_of(few, at) {
            Some(spot) => Some(&few.children[spot]),
            None => None,
        },
        Node::Branch(children) => Some(&children.value[at]),
        Node::Empty => None,
        Node::Leaf(_) => None,
        Node::List(_) => None,
    }
}

// Has 32 children, of which there is none, share what a few have, each at its index.
pub fn spread<K: Drop, V: Drop>(
    children: &mut [Node<K, V>; 32],
    few: &Few<[Node<K, V>; 4]>,
) -> Result<(), AllocError>
    requires none { child_slots children.old ≡ none }
    requires indices { Rises 0 (few_slots few.now) }
    ensures { OnOk result (child_slots children.new ≡ few_slots few.now) }
{
    for done in 0..4 {
        let spot = 3 - done;
        if !is_empty(&few.children[spot]) {
            share_at(children, few.indices[spot] as usize, &few.children[spot])?;
        }
    }
    Ok(())
}

// The children of a branch, shared with it, each at its index. A node that is no branch has none.
pub fn spread_of<K: Drop, V: Drop>(node: &Node<K, V>) -> Result<[Node<K, V>; 32], AllocError>
    requires { Rises 0 (slots_of (shape_of node.now)) }
    ensures { IfOk result (λ children. child_slots children ≡ slots_of (shape_of node.now)) }
{
    match node {
        Node::Few(few) => {
            let mut children = no_children();
            spread(&mut children, few)?;
            Ok(children)
        }
        Node::Branch(from) => {
            let mut children = no_children();
            share(&mut children, &from.value)?;
            Ok(children)
        }
        Node::Empty => Ok(no_children()),
        Node::Leaf(_) => Ok(no_children()),
        Node::List(_) => Ok(no_children()),
    }
}

// The branch of these children in a small block, shared with them, unless there are more than four.
pub fn few_of<K: Drop, V: Drop>(
    alloc: Global,
    children: &[Node<K, V>; 32],
) -> Result<Option<Node<K, V>>, AllocError>
    ensures { IfOk result (λ few. IfSome few (λ node. shape_of node ≡ Some (branch (child_slots children.now)))) }
{
    let mut few = no_few();
    for done in 0..32 {
        let at = 31 - done;
        if !is_empty(&children[at]) {
            if !has_room(&few) {
                return Ok(None);
            }
            let spot = open(&mut few, at);
            share_at(&mut few.children, spot, &children[at])?;
        }
    }
    Ok(Some(Node::Few(Arc::new(alloc, few)?)))
}

// Reads how many owners the children have, before they are copied. A copy adds one to each of these numbers, and such
// additions wait for one another; reads don't, so numbers that lie in slow memory come at the same time.
pub fn fetch_owners<K, V>(children: &[Node<K, V>]) {
    for child in children.iter() {
        let _owners = match child {
            Node::Empty => 0,
            Node::Leaf(pair) => Arc::strong_count(pair),
            Node::Few(few) => Arc::strong_count(few),
            Node::Branch(children) => Arc::strong_count(children),
            Node::List(pairs) => Arc::strong_count(pairs),
        };
    }
}

// Has one of these children share what another node has.
fn share_at<K: Drop, V: Drop>(
    children: &mut [Node<K, V>],
    at: usize,
    node: &Node<K, V>,
) -> Result<(), AllocError>
    requires { at < length children.old }
    ensures { OnOk result (map shape_of children.new ≡ slice_set (map shape_of children.old) at (shape_of node.now)) }
{
    children[at] = node.clone()?;
    Ok(())
}

// Has these children share what those have.
fn share<K: Drop, V: Drop>(
    children: &mut [Node<K, V>; 32],
    others: &[Node<K, V>; 32],
) -> Result<(), AllocError>
    ensures { OnOk result (child_slots children.new ≡ child_slots others.now) }
{
    for at in 0..32 {
        children[at] = others[at].clone()?;
    }
    Ok(())
}

// A copy of a branch. Its children are copied to where they stay: an array's own `clone` would move each of them twice. It
// is not inlined, since the parts of the stack that it uses are cleared first, also where a branch is not copied.
#[inline(never)]
fn copy<K: Drop, V: Drop>(
    alloc: Global,
    branch: &Padded<[Node<K, V>; 32]>,
) -> Result<Arc<Padded<[Node<K, V>; 32]>>, AllocError>
    ensures { IfOk result (λ new. child_slots (arc_value new).value ≡ child_slots branch.now.value) }
{
    fetch_owners(&branch.value);
    let mut new = Arc::new(alloc, Padded::new(no_children()))?;
    let own = Arc::make_mut(&mut new)?;
    share(&mut own.value, &branch.value)?;
    Ok(new)
}

// Puts a copy of a branch in its place where it has other owners, who keep theirs.
pub fn unshare<K: Drop, V: Drop>(
    alloc: Global,
    branch: &mut Arc<Padded<[Node<K, V>; 32]>>,
) -> Result<(), AllocError>
    ensures { child_slots (arc_value branch.new).value ≡ child_slots (arc_value branch.old).value }
{
    if Arc::strong_count(branch) != 1 {
        *branch = copy(alloc, branch)?;
    }
    Ok(())
}
