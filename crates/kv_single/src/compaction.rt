//! Compactions of a bucket.

ghost use Rattle.std.specs.Prelude.{◌≡◌, ◌<◌, ◌≤◌, if◌then◌else◌, ℕ, Some, Ok, Err, IfErr, IfOk, OnErr, OnOk, is_some, length, nat_lt};
ghost use Rattle.kv_keys.specs.Outcome.{Refuses};
ghost use Rattle.kv_keys.specs.declared.error.KvError.{KvError as AnError};
ghost use Rattle.kv_model.specs.Acts.{writes_of};
ghost use Rattle.kv_model.specs.declared.call.Call.TheVariants.{Compact};
ghost use Rattle.kv_model.specs.Answers.{Compacted};
ghost use Rattle.kv_model.specs.State.{State, first_behind, may_compact};
ghost use Rattle.kv_single.specs.Held.{Represents};
ghost use Rattle.kv_single.specs.Replies.{answer_of};
ghost use Rattle.kv_single.specs.Stepping.{IsStep};
ghost use Rattle.kv_single.specs.inside.Behind.{behind_at, lesser};

use crate::bucket::{Bucket, index_of};
use crate::reply::{Reply, refusal};
use kv_keys::KvError;
use std::alloc::AllocError;

fn lesser(least: Option<u64>, number: u64) -> u64
    ensures { result ≡ lesser least number }
{
    match least {
        Some(least) => least.min(number),
        None => number,
    }
}

impl Bucket {
    /// Compacts to the floor, as `Version::compact` says. `BadFloor` where its floor is bad; else `WatchBehind` with
    /// the least number of a watch that has still to hand out an entry that came after its opening and is at or below
    /// the floor; and only then want of memory. A refused compaction changes nothing.
    pub fn compact(&mut self, floor: u64) -> Result<(), KvError>
        ensures ok { OnOk result (IsStep self.old (Compact floor) (Compacted floor) self.new) }
        ensures refused { IfErr result
            (λ e. (state : State) → Represents state self.old → Refuses e (may_compact floor state)) }
        ensures unchanged { OnErr result (self.new ≡ self.old) }
    {
        self.may_compact(floor)?;
        self.version.compact_in_place(self.alloc, floor)?;
        Ok(())
    }

    pub(crate) fn compact_reply(&mut self, floor: u64) -> Result<Reply, AllocError>
        ensures ok { IfOk result (λ reply. IsStep self.old (Compact floor) (answer_of reply) self.new) }
        ensures unchanged { OnErr result (self.new ≡ self.old) }
    {
        match self.compact(floor) {
            Ok(()) => Ok(Reply::Compacted(floor)),
            Err(error) => refusal(error),
        }
    }

    /// Whether `compact` to the floor would be refused for another reason than want of memory.
    pub fn may_compact(&self, floor: u64) -> Result<(), KvError>
        ensures ok { OnOk result ((state : State) → Represents state self.now → may_compact floor state ≡ Ok floor) }
        ensures refused { IfErr result
            (λ e. (state : State) → Represents state self.now → may_compact floor state ≡ Err e) }
    {
        if self.version.is_bad_floor(floor) {
            return Err(KvError::BadFloor);
        }
        match self.first_behind(floor) {
            Some(watch) => Err(KvError::WatchBehind { watch }),
            None => Ok(()),
        }
    }

    /// The highest floor that `compact` would not refuse, 0 where there is none: the last revision, or one less than
    /// the first entry that came after its opening and that a watch has still to hand out. So `compact(reach())`
    /// compacts as far as the watches allow.
    pub fn reach(&self) -> u64
        ensures allowed { (state : State) → Represents state self.now → 0 < result →
            may_compact result state ≡ Ok result }
        ensures highest { (state : State) → Represents state self.now → (floor : ℕ) → result < floor →
            (e : AnError) × (may_compact floor state ≡ Err e) }
    {
        self.least_reach()
    }

    // The least of the last revision and of the watches' reaches.
    fn least_reach(&self) -> u64
        ensures within { (state : State) → Represents state self.now → result ≤ length (writes_of state.acts) }
        ensures reach { (state : State) → Represents state self.now → (floor : ℕ) →
            floor ≤ length (writes_of state.acts) →
            is_some (first_behind 1 floor state.config.history state.acts state.watches) ≡ nat_lt result floor }
    {
        let mut reach = self.version.revision();
        for held in &self.watches {
            reach = reach.min(self.reach_at(held.number()));
        }
        reach
    }

    // The highest floor that the open watch of the number is not behind; the last revision where there is none.
    fn reach_at(&self, number: u64) -> u64
        ensures within { (state : State) → Represents state self.now → result ≤ length (writes_of state.acts) }
        ensures reach { (state : State) → Represents state self.now → (floor : ℕ) →
            floor ≤ length (writes_of state.acts) →
            behind_at floor state number ≡ nat_lt result floor }
    {
        let Some(index) = index_of(&self.watches, number) else {
            return self.version.revision();
        };
        let held = &self.watches[index];
        held.watch.reach(&self.version)
    }

    // The least number of an open watch that is behind the floor.
    fn first_behind(&self, floor: u64) -> Option<u64>
        ensures { (state : State) → Represents state self.now →
            result ≡ first_behind 1 floor state.config.history state.acts state.watches }
    {
        let mut first = None;
        for held in &self.watches {
            first = self.least_behind(first, held.number(), floor);
        }
        first
    }

    // The lesser of the least number so far and of this one, if its watch is behind the floor.
    fn least_behind(&self, first: Option<u64>, number: u64, floor: u64) -> Option<u64>
        ensures { (state : State) → Represents state self.now →
            result ≡ (if behind_at floor state number then Some (lesser first number) else first) }
    {
        if self.is_behind(number, floor) {
            return Some(lesser(first, number));
        }
        first
    }

    // Whether the open watch of the number is behind the floor.
    fn is_behind(&self, number: u64, floor: u64) -> bool
        ensures { (state : State) → Represents state self.now → result ≡ behind_at floor state number }
    {
        let Some(index) = index_of(&self.watches, number) else {
            return false;
        };
        let held = &self.watches[index];
        held.watch.behind(&self.version, floor)
    }
}
