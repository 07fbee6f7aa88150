//! One more pair in a node, in place where nobody else has it.

ghost use Rattle.std.specs.Prelude.{◌≡◌, ◌⊎◌, ◌≤◌, ◌<◌, ◌-◌, ◌∷◌, true, IfOk, OnErr, OnOk, [], Some, None, is_some};
ghost use Rattle.std.specs.Arc.{arc_value};
ghost use Rattle.std.specs.BTreeMap.{is_at};
ghost use Rattle.std.specs.Map.{lookup};
ghost use Rattle.std.specs.declared.cmp.Ordering.TheVariants.{Equal};
ghost use Rattle.kv_trie.specs.Put.{pair_of};
ghost use Rattle.kv_trie.specs.inside.Change.{IsFormWith, AreFormsWith, IsBranchWith};
ghost use Rattle.kv_trie.specs.inside.Few.{Rises, HasRoom};
ghost use Rattle.kv_trie.specs.Form.{IsNode, AreForms, index_of, child_at, leaf, row, more, none, node_pairs, pairs_in, put_pair};
ghost use Rattle.kv_trie.specs.Stored.{shape_of, child_slots, few_slots};

use crate::both::Companion;
use crate::branch::{Few, Padded, has_room_at, no_children, open, spread, unshare};
use crate::find::index;
use crate::list::put_in_shared;
use crate::node::{Node, Pair};
use kv_keys::Place;
use std::alloc::{AllocError, Global};
use std::marker::Model;
use std::mem;
use std::snapshot::Snapshot;
use std::sync::Arc;

/// A pair that is to be put into a trie.
#[derive(Drop)]
pub enum NewPair<K, V> {
    /// One that nobody else has. In place of a pair that nobody else has either it is written where that lies; else it
    /// gets memory of its own.
    Owned(Pair<K, V>),
    /// One that the trie shares with whoever else has it.
    Shared(Arc<Pair<K, V>>),
}

// A pair on the way down to its place. It is taken out there, once, so that no level above moves it, be it large.
// Contracts see the pair, and whether it is still there.
pub struct Pending<K, V> {
    // The pair; once that was taken out, what it took the place of, or nothing.
    pair: Option<NewPair<K, V>>,
    there: bool,
    what: Snapshot<Pair<K, V>>,
}

// Field by field: a derived drop makes each proof longer that owns one.
impl<K: Drop, V: Drop> Drop for Pending<K, V> {
    fn drop(self) {
        let Self {
            pair: _,
            there: _,
            what: _,
        } = self;
    }
}

impl<K, V> Model for Pending<K, V> {
    ghost use Rattle.kv_trie.specs.inside.Pending.{Pending, IsPending};

    ghost Value = { Pending K V };

    ghost view = { λ p. record { pair = p.what.value; there = p.there } };

    ghost invariant = { λ p. IsPending p.there p.pair p.what.value };
}

impl<K: Drop, V: Drop> Pending<K, V> {
    pub fn new(pair: NewPair<K, V>) -> Pending<K, V>
        ensures { result ≡ record { pair = pair_of pair; there = true } }
    {
        let what = match &pair {
            NewPair::Owned(pair) => Snapshot::of(pair),
            NewPair::Shared(pair) => Snapshot::of(&**pair),
        };
        Pending {
            pair: Some(pair),
            there: true,
            what,
        }
    }

    // Its key.
    pub fn key(&self) -> &K
        requires { self.now.there ≡ true }
        ensures { result.now ≡ self.now.pair.0 }
    {
        match &self.pair {
            Some(NewPair::Owned(pair)) => &pair.0,
            Some(NewPair::Shared(pair)) => &pair.0,
            None => unreachable!(),
        }
    }

    // Takes it out, to lie where nothing lay.
    pub fn take(&mut self, alloc: Global) -> Result<Arc<Pair<K, V>>, AllocError>
        requires { self.old.there ≡ true }
        ensures { IfOk result (λ pair. arc_value pair ≡ self.old.pair) }
    {
        self.there = false;
        match self.pair.take() {
            Some(NewPair::Owned(pair)) => Ok(Arc::new(alloc, pair)?),
            Some(NewPair::Shared(pair)) => Ok(pair),
            None => unreachable!(),
        }
    }

    // Takes it out, to lie in place of another one, and lets the companion happen, or does neither. Where it is one's own
    // and nobody else has the other, the two change places, so that no memory is asked for and the pair is moved once.
    pub fn replace<C: Companion>(
        &mut self,
        alloc: Global,
        old: &mut Arc<Pair<K, V>>,
        companion: &mut C,
    ) -> Result<(), AllocError>
        requires there { self.old.there ≡ true }
        requires ready { C.ready companion.old }
        ensures put { OnOk result (arc_value old.new ≡ self.old.pair) }
        ensures done { OnOk result (C.done companion.old companion.new) }
        ensures unchanged { OnErr result (arc_value old.new ≡ arc_value old.old) }
        ensures kept { OnErr result ((companion.new ≡ companion.old) ⊎ C.kept companion.old companion.new) }
    {
        if let Some(NewPair::Owned(pair)) = &mut self.pair {
            if let Some(place) = Arc::get_mut(old) {
                companion.commit()?;
                mem::swap(place, pair);
                self.there = false;
                return Ok(());
            }
        }
        let pair = self.take(alloc)?;
        companion.commit()?;
        *old = pair;
        Ok(())
    }
}

// The children of a branch over one pair.
fn alone<K: Drop, V: Drop>(pair: Arc<Pair<K, V>>, at: usize) -> Few<[Node<K, V>; 4]>
    requires { at < 32 }
    ensures slots { few_slots result ≡ more at (leaf (arc_value pair)) none }
    ensures room { HasRoom result }
{
    Few {
        indices: [at as u8, 0, 0, 0],
        children: [Node::Leaf(pair), Node::Empty, Node::Empty, Node::Empty],
    }
}

// The same children, with room for more, shared.
fn widened<K: Drop, V: Drop>(
    alloc: Global,
    few: &Few<[Node<K, V>; 4]>,
) -> Result<Arc<Padded<[Node<K, V>; 32]>>, AllocError>
    requires { Rises 0 (few_slots few.now) }
    ensures { IfOk result (λ new. child_slots (arc_value new).value ≡ few_slots few.now) }
{
    let mut new = Arc::new(alloc, Padded::new(no_children()))?;
    let own = Arc::make_mut(&mut new)?;
    spread(&mut own.value, few)?;
    Ok(new)
}

// The node of a pair and another one of its place, and lets the companion happen, or does neither.
fn list_of_two<K: Place + Drop, V: Drop, C: Companion>(
    alloc: Global,
    old: Arc<Pair<K, V>>,
    pending: &mut Pending<K, V>,
    companion: &mut C,
) -> Result<Node<K, V>, AllocError>
    requires there { pending.old.there ≡ true }
    requires ready { C.ready companion.old }
    ensures pairs { IfOk result (λ node. shape_of node
        ≡ Some (row (put_pair K.cmp pending.old.pair (arc_value old ∷ [])))) }
    ensures done { OnOk result (C.done companion.old companion.new) }
    ensures kept { OnErr result ((companion.new ≡ companion.old) ⊎ C.kept companion.old companion.new) }
{
    let mut list = Arc::new(alloc, vec![in alloc; old]?)?;
    put_in_shared(alloc, &mut list, pending, companion)?;
    Ok(Node::List(list))
}

// The node of a pair and another one, whose keys are not equal; and lets the companion happen, or does neither.
#[cycle(put)]
fn put_beside<K: Place + Drop, V: Drop, C: Companion>(
    alloc: Global,
    old: &Arc<Pair<K, V>>,
    left: u32,
    place: u32,
    pending: &mut Pending<K, V>,
    companion: &mut C,
) -> Result<Node<K, V>, AllocError>
    requires levels { left ≤ 7 }
    requires place { place ≡ K.place_of pending.old.pair.0 }
    requires apart { K.cmp pending.old.pair.0 (arc_value old.now).0 ≡ Equal → ⊥ }
    requires there { pending.old.there ≡ true }
    requires ready { C.ready companion.old }
    ensures form { IfOk result (IsFormWith K.cmp K.place_of left pending.old.pair (arc_value old.now ∷ [])) }
    ensures companion { (OnOk result (C.done companion.old companion.new))
        × OnErr result ((companion.new ≡ companion.old) ⊎ C.kept companion.old companion.new) }
{
    let other = Arc::try_clone(old)?;
    if left == 0 {
        return list_of_two(alloc, other, pending, companion);
    }
    let at = index(old.0.place(), left - 1);
    let mut branch = Arc::new(alloc, alone(other, at))?;
    put_in_few(alloc, &mut branch, left, place, pending, companion)?;
    Ok(Node::Few(branch))
}

// Puts the pair below one of the children. It answers whether there was one with an equal key.
#[cycle(put)]
fn put_below<K: Place + Drop, V: Drop, C: Companion>(
    alloc: Global,
    children: &mut [Node<K, V>; 32],
    left: u32,
    place: u32,
    pending: &mut Pending<K, V>,
    companion: &mut C,
) -> Result<bool, AllocError>
    requires levels { left ≤ 7 }
    requires some { 0 < left }
    requires forms { AreForms K.cmp K.place_of (left - 1) 0 (child_slots children.old) }
    requires place { place ≡ K.place_of pending.old.pair.0 }
    requires there { pending.old.there ≡ true }
    requires ready { C.ready companion.old }
    ensures branch { OnOk result (AreFormsWith K.cmp K.place_of left pending.old.pair
        (pairs_in (child_slots children.old)) (child_slots children.new)) }
    ensures found { IfOk result (λ found. found
        ≡ is_some (lookup (is_at (K.cmp pending.old.pair.0)) (pairs_in (child_slots children.old)))) }
    ensures unchanged { OnErr result (child_slots children.new ≡ child_slots children.old) }
    ensures companion { (OnOk result (C.done companion.old companion.new))
        × OnErr result ((companion.new ≡ companion.old) ⊎ C.kept companion.old companion.new) }
{
    let at = index(place, left - 1);
    put(
        alloc,
        &mut children[at],
        left - 1,
        place,
        pending,
        companion,
    )
}

// Puts the pair below a branch. Where others have the branch too, it is a copy that is changed, and they keep theirs. It
// answers whether there was one with an equal key.
#[cycle(put)]
fn put_in_branch<K: Place + Drop, V: Drop, C: Companion>(
    alloc: Global,
    children: &mut Arc<Padded<[Node<K, V>; 32]>>,
    left: u32,
    place: u32,
    pending: &mut Pending<K, V>,
    companion: &mut C,
) -> Result<bool, AllocError>
    requires levels { left ≤ 7 }
    requires some { 0 < left }
    requires forms { AreForms K.cmp K.place_of (left - 1) 0 (child_slots (arc_value children.old).value) }
    requires place { place ≡ K.place_of pending.old.pair.0 }
    requires there { pending.old.there ≡ true }
    requires ready { C.ready companion.old }
    ensures branch { OnOk result (AreFormsWith K.cmp K.place_of left pending.old.pair
        (pairs_in (child_slots (arc_value children.old).value)) (child_slots (arc_value children.new).value)) }
    ensures found { IfOk result (λ found. found
        ≡ is_some (lookup (is_at (K.cmp pending.old.pair.0)) (pairs_in (child_slots (arc_value children.old).value)))) }
    ensures unchanged { OnErr result (child_slots (arc_value children.new).value ≡ child_slots (arc_value children.old).value) }
    ensures companion { (OnOk result (C.done companion.old companion.new))
        × OnErr result ((companion.new ≡ companion.old) ⊎ C.kept companion.old companion.new) }
{
    unshare(alloc, children)?;
    let own = Arc::make_mut(children)?;
    put_below(alloc, &mut own.value, left, place, pending, companion)
}

// Puts the pair below one of the children of a small branch that has room for one more where it has none. It answers
// whether there was one with an equal key.
#[cycle(put)]
fn put_among<K: Place + Drop, V: Drop, C: Companion>(
    alloc: Global,
    few: &mut Few<[Node<K, V>; 4]>,
    left: u32,
    place: u32,
    pending: &mut Pending<K, V>,
    companion: &mut C,
) -> Result<bool, AllocError>
    requires levels { left ≤ 7 }
    requires some { 0 < left }
    requires forms { AreForms K.cmp K.place_of (left - 1) 0 (few_slots few.old) }
    requires room { child_at (index_of (left - 1) place) (few_slots few.old) ≡ None → HasRoom few.old }
    requires place { place ≡ K.place_of pending.old.pair.0 }
    requires there { pending.old.there ≡ true }
    requires ready { C.ready companion.old }
    ensures branch { OnOk result (AreFormsWith K.cmp K.place_of left pending.old.pair
        (pairs_in (few_slots few.old)) (few_slots few.new)) }
    ensures found { IfOk result (λ found. found
        ≡ is_some (lookup (is_at (K.cmp pending.old.pair.0)) (pairs_in (few_slots few.old)))) }
    ensures unchanged { OnErr result (few_slots few.new ≡ few_slots few.old) }
    ensures companion { (OnOk result (C.done companion.old companion.new))
        × OnErr result ((companion.new ≡ companion.old) ⊎ C.kept companion.old companion.new) }
{
    let spot = open(few, index(place, left - 1));
    put(
        alloc,
        &mut few.children[spot],
        left - 1,
        place,
        pending,
        companion,
    )
}

// Puts the pair below a small branch that has room for it, as below another.
#[cycle(put)]
fn put_in_few<K: Place + Drop, V: Drop, C: Companion>(
    alloc: Global,
    few: &mut Arc<Few<[Node<K, V>; 4]>>,
    left: u32,
    place: u32,
    pending: &mut Pending<K, V>,
    companion: &mut C,
) -> Result<bool, AllocError>
    requires levels { left ≤ 7 }
    requires some { 0 < left }
    requires forms { AreForms K.cmp K.place_of (left - 1) 0 (few_slots (arc_value few.old)) }
    requires room { child_at (index_of (left - 1) place) (few_slots (arc_value few.old)) ≡ None
        → HasRoom (arc_value few.old) }
    requires place { place ≡ K.place_of pending.old.pair.0 }
    requires there { pending.old.there ≡ true }
    requires ready { C.ready companion.old }
    ensures branch { OnOk result (AreFormsWith K.cmp K.place_of left pending.old.pair
        (pairs_in (few_slots (arc_value few.old))) (few_slots (arc_value few.new))) }
    ensures found { IfOk result (λ found. found
        ≡ is_some (lookup (is_at (K.cmp pending.old.pair.0)) (pairs_in (few_slots (arc_value few.old))))) }
    ensures unchanged { OnErr result (few_slots (arc_value few.new) ≡ few_slots (arc_value few.old)) }
    ensures companion { (OnOk result (C.done companion.old companion.new))
        × OnErr result ((companion.new ≡ companion.old) ⊎ C.kept companion.old companion.new) }
{
    let own = Arc::make_mut(few)?;
    put_among(alloc, own, left, place, pending, companion)
}

// Puts the pair below the children of a small branch that has no room for it. It gives way to one of 32.
#[cycle(put)]
fn put_widened<K: Place + Drop, V: Drop, C: Companion>(
    alloc: Global,
    few: &Arc<Few<[Node<K, V>; 4]>>,
    left: u32,
    place: u32,
    pending: &mut Pending<K, V>,
    companion: &mut C,
) -> Result<(Node<K, V>, bool), AllocError>
    requires levels { left ≤ 7 }
    requires some { 0 < left }
    requires forms { AreForms K.cmp K.place_of (left - 1) 0 (few_slots (arc_value few.now)) }
    requires place { place ≡ K.place_of pending.old.pair.0 }
    requires there { pending.old.there ≡ true }
    requires ready { C.ready companion.old }
    ensures branch { IfOk result (λ new. IsBranchWith K.cmp K.place_of left pending.old.pair
        (pairs_in (few_slots (arc_value few.now))) new.0) }
    ensures found { IfOk result (λ new. new.1
        ≡ is_some (lookup (is_at (K.cmp pending.old.pair.0)) (pairs_in (few_slots (arc_value few.now))))) }
    ensures companion { (OnOk result (C.done companion.old companion.new))
        × OnErr result ((companion.new ≡ companion.old) ⊎ C.kept companion.old companion.new) }
{
    let mut branch = widened(alloc, few)?;
    let found = put_in_branch(alloc, &mut branch, left, place, pending, companion)?;
    Ok((Node::Branch(branch), found))
}

// Puts the pair into a node in place of any with an equal key, and lets the companion happen, or does neither. Where
// others have the node too, it is a copy that is changed, and they keep theirs. It answers whether there was one with an
// equal key, so that nobody has to look before.
#[cycle(put)]
pub fn put<K: Place + Drop, V: Drop, C: Companion>(
    alloc: Global,
    node: &mut Node<K, V>,
    left: u32,
    place: u32,
    pending: &mut Pending<K, V>,
    companion: &mut C,
) -> Result<bool, AllocError>
    requires levels { left ≤ 7 }
    requires form { IsNode K.cmp K.place_of left (shape_of node.old) }
    requires place { place ≡ K.place_of pending.old.pair.0 }
    requires there { pending.old.there ≡ true }
    requires ready { C.ready companion.old }
    ensures form { OnOk result (IsFormWith K.cmp K.place_of left pending.old.pair (node_pairs (shape_of node.old))
        node.new) }
    ensures found { IfOk result (λ found. found
        ≡ is_some (lookup (is_at (K.cmp pending.old.pair.0)) (node_pairs (shape_of node.old)))) }
    ensures done { OnOk result (C.done companion.old companion.new) }
    ensures unchanged { OnErr result (shape_of node.new ≡ shape_of node.old) }
    ensures kept { OnErr result ((companion.new ≡ companion.old) ⊎ C.kept companion.old companion.new) }
{
    match node {
        Node::Empty => {
            let pair = pending.take(alloc)?;
            companion.commit()?;
            *node = Node::Leaf(pair);
            Ok(false)
        }
        Node::Leaf(old) => {
            let found = pending.key().cmp(&old.0).is_eq();
            if found {
                pending.replace(alloc, old, companion)?;
            } else {
                let new = put_beside(alloc, old, left, place, pending, companion)?;
                *node = new;
            }
            Ok(found)
        }
        Node::Branch(children) => put_in_branch(alloc, children, left, place, pending, companion),
        Node::List(pairs) => put_in_shared(alloc, pairs, pending, companion),
        Node::Few(few) => {
            if has_room_at(few, index(place, left - 1)) {
                return put_in_few(alloc, few, left, place, pending, companion);
            }
            let (new, found) = put_widened(alloc, few, left, place, pending, companion)?;
            *node = new;
            Ok(found)
        }
    }
}
