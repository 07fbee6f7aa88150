//! One change of two maps, and what happens together with a change of one.

ghost use Rattle.std.specs.Prelude.{◌≡◌, ◌⊎◌, ◌<◌, ◌-◌, ◌^◌, IfErr, OnErr, OnOk, length};
ghost use Rattle.kv_keys.specs.declared.error.KvError.TheVariants.{OutOfMemory};
ghost use Rattle.kv_trie.specs.Put.{IsMapWith, pair_of};

use crate::put::{NewPair, Pending};
use crate::trie::Trie;
use kv_keys::{KvError, Place};
use std::alloc::{AllocError, Global};
use std::mem;

/// Something else that is to happen with a change of a map: both do, or neither.
///
/// `ready` says when it can, `done old new` what its happening makes of it, and `kept old new` what a refusal leaves of
/// it. A refusal is told as want of memory is; whoever needs another cause finds it in the companion.
pub trait Companion {
    ghost ready: { Self → Type 0 };

    ghost done: { Self → Self → Type 0 };

    ghost kept: { Self → Self → Type 0 };

    /// Lets it happen. It is called at most once, when the change itself can't be refused any more.
    fn commit(&mut self) -> Result<(), AllocError>
        requires { ready self.old }
        ensures done { OnOk result (done self.old self.new) }
        ensures kept { OnErr result (kept self.old self.new) };
}

/// No companion.
#[derive(Drop)]
pub struct Alone;

impl Companion for Alone {
    ghost ready = { λ companion. Unit {0} };

    ghost done = { λ old new. Unit {0} };

    ghost kept = { λ old new. Unit {0} };

    fn commit(&mut self) -> Result<(), AllocError> {
        Ok(())
    }
}

// A trie, and the pair that is put into it with a change of another one, or not at all.
#[derive(Drop)]
struct Second<K: Place, V> {
    alloc: Global,
    trie: Trie<K, V>,
    pending: Pending<K, V>,
}

// A put into the second trie, and what happens with both.
#[derive(Drop)]
struct Both<'a, 'b, K: Place, V, C: Companion> {
    second: &'a mut Second<K, V>,
    companion: &'b mut C,
}

impl<'a, 'b, K: Place + Drop, V: Drop, C: Companion> Companion for Both<'a, 'b, K, V, C> {
    ghost use Rattle.std.specs.Prelude.{◌≡◌, ◌⊎◌, ◌<◌, ◌-◌, ◌^◌, length, true};
    ghost use Rattle.kv_trie.specs.Put.{IsMapWith};

    ghost ready = { λ both. (both.second.now.pending.there ≡ true)
        × (length both.second.now.trie < 2 ^ 32 - 1) × C.ready both.companion.now };

    ghost done = { λ old new. (new.second.ghost_name ≡ old.second.ghost_name)
        × (new.companion.ghost_name ≡ old.companion.ghost_name)
        × (IsMapWith K.cmp K.place_of old.second.now.pending.pair old.second.now.trie new.second.now.trie)
        × C.done old.companion.now new.companion.now };

    ghost kept = { λ old new. (new.second.ghost_name ≡ old.second.ghost_name)
        × (new.companion.ghost_name ≡ old.companion.ghost_name) × (new.second.now.trie ≡ old.second.now.trie)
        × ((new.companion.now ≡ old.companion.now) ⊎ C.kept old.companion.now new.companion.now) };

    fn commit(&mut self) -> Result<(), AllocError> {
        let Second {
            alloc,
            trie,
            pending,
        } = &mut *self.second;
        trie.put_with(*alloc, pending, self.companion)
    }
}

/// Puts a pair into each of two tries, in place of any with an equal key, and lets the companion happen, or does none of
/// these. Where nobody else has a node of the two paths, that node itself is changed; else a copy of it is, so snapshots
/// and older versions stay as they were. The tries share the pairs with whoever has them else.
pub fn put_both<K1: Place + Drop, V1: Drop, K2: Place + Drop, V2: Drop, C: Companion>(
    alloc: Global,
    first: &mut Trie<K1, V1>,
    first_pair: NewPair<K1, V1>,
    second: &mut Trie<K2, V2>,
    second_pair: NewPair<K2, V2>,
    companion: &mut C,
) -> Result<(), KvError>
    requires first { length first.old < 2 ^ 32 - 1 }
    requires second { length second.old < 2 ^ 32 - 1 }
    requires ready { C.ready companion.old }
    ensures both { OnOk result ((IsMapWith K1.cmp K1.place_of (pair_of first_pair) first.old first.new)
        × (IsMapWith K2.cmp K2.place_of (pair_of second_pair) second.old second.new)) }
    ensures done { OnOk result (C.done companion.old companion.new) }
    ensures neither { IfErr result (λ error.
        (error ≡ OutOfMemory) × (first.new ≡ first.old) × (second.new ≡ second.old)) }
    ensures kept { OnErr result ((companion.new ≡ companion.old) ⊎ C.kept companion.old companion.new) }
{
    let mut put = Second {
        alloc,
        trie: mem::replace(second, Trie::new()),
        pending: Pending::new(second_pair),
    };
    let mut both = Both {
        second: &mut put,
        companion,
    };
    let mut pending = Pending::new(first_pair);
    let done = first.put_with(alloc, &mut pending, &mut both);
    *second = put.trie;
    Ok(done?)
}
