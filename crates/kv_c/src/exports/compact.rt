//! The functions that C calls to compact a bucket.

ghost use Rattle.std.specs.Prelude.{◌≡◌, true, Err, Some, IsFalse, IsTrue};
ghost use Rattle.kv_single.specs.Held.{Represents};
ghost use Rattle.kv_single.specs.Stepping.{IsStep};
ghost use Rattle.kv_c.specs.Calling.{IsReach, StandsAt, Steps, holds_bucket};
ghost use Rattle.kv_c.specs.Codes.{accepted, code_by};
ghost use Rattle.kv_c.specs.Making.{Makes, MakesAct, is_filed, stopped_in};
ghost use Rattle.kv_keys.specs.declared.error.KvError.TheVariants.{WatchBehind};
ghost use Rattle.kv_model.specs.Acts.{Compact as ACompaction};
ghost use Rattle.kv_model.specs.Answers.{Compacted};
ghost use Rattle.kv_model.specs.State.{State, may_compact};
ghost use Rattle.kv_model.specs.declared.call.Call.TheVariants.{Compact};

use crate::codes::{CLOSED, FILE_FAULT, MADE, refuse_compaction};
use crate::content::Content;
use crate::handle::Handle;
use crate::ready::ready_compaction;
use crate::ringed::Ringed;
use kv_durable::DurableError;
use std::alloc::Global;

#[tactic(auto, using(crate::proofs::Refusing::code_from, crate::proofs::Refusing::code_memory, crate::proofs::Refusing::compacted_from, crate::proofs::Refusing::no_fault, crate::proofs::Refusing::not_made))]
fn compact(bucket: &mut Ringed, floor: u64, watch: &mut u64) -> u64
    ensures compacted { result ≡ 0 → IsStep bucket.old (Compact floor) (Compacted floor) bucket.new }
    ensures code { (state : State) → Represents state bucket.old → ¬ (result ≡ 1) →
        result ≡ code_by accepted (may_compact floor state) }
    ensures watch { result ≡ 20 → (state : State) → Represents state bucket.old →
        may_compact floor state ≡ Err (WatchBehind watch.new) }
    ensures untold { ¬ (result ≡ 20) → watch.new ≡ watch.old }
    ensures refused { ¬ (result ≡ 0) → bucket.new ≡ bucket.old }
    ensures never { (¬ (result ≡ 22)) × (¬ (result ≡ 38)) }
{
    match bucket.compact(floor) {
        Ok(()) => 0,
        Err(refusal) => refuse_compaction(refusal, watch),
    }
}

// The same of a bucket with a file: the compaction is made, and waits for the shell.
#[tactic(auto, using(crate::proofs::Refusing::code_from, crate::proofs::Refusing::code_memory, crate::proofs::Refusing::no_fault, crate::proofs::Refusing::not_made))]
fn make_compaction(alloc: Global, content: &mut Content, floor: u64, watch: &mut u64) -> u64
    requires { IsTrue (is_filed content.old) }
    ensures made { result ≡ 38 →
        Makes (MakesAct (Compact floor) (Compacted floor) (ACompaction floor)) (Some content.old) (Some content.new) }
    ensures code { (state : State) → StandsAt state (Some content.old) → ¬ (result ≡ 1) → ¬ (result ≡ 22) →
        ¬ (result ≡ 38) → result ≡ code_by accepted (may_compact floor state) }
    ensures watch { result ≡ 20 → (state : State) → StandsAt state (Some content.old) →
        may_compact floor state ≡ Err (WatchBehind watch.new) }
    ensures untold { ¬ (result ≡ 20) → watch.new ≡ watch.old }
    ensures refused { ¬ (result ≡ 38) → content.new ≡ content.old }
    ensures fault { result ≡ 22 → stopped_in (Some content.old) ≡ true }
    ensures stopped { stopped_in (Some content.old) ≡ true → result ≡ 22 }
    ensures never { (¬ (result ≡ 0)) × (¬ (result ≡ 32)) }
{
    let Some((bucket, filed)) = content.with_file() else {
        return CLOSED;
    };
    match ready_compaction(bucket, filed, floor) {
        Ok(ready) => {
            content.make(alloc, ready);
            MADE
        }
        Err(DurableError::Refused(refusal)) => refuse_compaction(refusal, watch),
        Err(_) => FILE_FAULT,
    }
}

fn compact_in(alloc: Global, content: &mut Content, floor: u64, watch: &mut u64) -> u64
    ensures compacted { result ≡ 0 → Steps (Compact floor) (Compacted floor) (Some content.old) (Some content.new) }
    ensures made { result ≡ 38 →
        Makes (MakesAct (Compact floor) (Compacted floor) (ACompaction floor)) (Some content.old) (Some content.new) }
    ensures code { (state : State) → StandsAt state (Some content.old) → ¬ (result ≡ 1) → ¬ (result ≡ 22) →
        ¬ (result ≡ 38) → result ≡ code_by accepted (may_compact floor state) }
    ensures watch { result ≡ 20 → (state : State) → StandsAt state (Some content.old) →
        may_compact floor state ≡ Err (WatchBehind watch.new) }
    ensures untold { ¬ (result ≡ 20) → watch.new ≡ watch.old }
    ensures refused { ¬ (result ≡ 0) → ¬ (result ≡ 38) → content.new ≡ content.old }
    ensures fault { result ≡ 22 → stopped_in (Some content.old) ≡ true }
    ensures stopped { stopped_in (Some content.old) ≡ true → result ≡ 22 }
    ensures closed { IsFalse (holds_bucket (Some content.old)) → result ≡ 32 }
{
    match content {
        Content::Bucket(bucket, None, _) => compact(bucket, floor, watch),
        Content::Bucket(_, Some(_), _) => make_compaction(alloc, content, floor, watch),
        Content::View(..) | Content::Feed(..) | Content::Batch(_) | Content::Made(..) => CLOSED,
    }
}

/// Compacts a bucket to a floor: of the writes at or below it only the retained ones stay stored. Where a watch has
/// still to hand out an entry at or below it that came after its opening, the least number of such a watch is handed
/// out.
#[unsafe(no_mangle)]
pub extern "C" fn kv_make_compaction(
    alloc: Global,
    handle: &mut Handle,
    floor: u64,
    watch: &mut u64,
) -> u64
    ensures compacted { result ≡ 0 →
        Steps (Compact floor) (Compacted floor) handle.old.slot.held handle.new.slot.held }
    ensures made { result ≡ 38 → Makes (MakesAct (Compact floor) (Compacted floor) (ACompaction floor))
        handle.old.slot.held handle.new.slot.held }
    ensures code { (state : State) → StandsAt state handle.old.slot.held → ¬ (result ≡ 1) → ¬ (result ≡ 22) →
        ¬ (result ≡ 38) → result ≡ code_by accepted (may_compact floor state) }
    ensures watch { result ≡ 20 → (state : State) → StandsAt state handle.old.slot.held →
        may_compact floor state ≡ Err (WatchBehind watch.new) }
    ensures untold { ¬ (result ≡ 20) → watch.new ≡ watch.old }
    ensures refused { ¬ (result ≡ 0) → ¬ (result ≡ 38) → handle.new.slot.held ≡ handle.old.slot.held }
    ensures fault { result ≡ 22 → stopped_in handle.old.slot.held ≡ true }
    ensures stopped { stopped_in handle.old.slot.held ≡ true → result ≡ 22 }
    ensures closed { IsFalse (holds_bucket handle.old.slot.held) → result ≡ 32 }
{
    let Some(mut content) = handle.take(alloc) else {
        return CLOSED;
    };
    let done = compact_in(alloc, &mut content, floor, watch);
    handle.put(content);
    done
}

fn reach_of(content: &Content, floor: &mut u64) -> u64
    ensures reach { (state : State) → StandsAt state (Some content.now) → (result ≡ 0) × IsReach state floor.new }
    ensures untold { ¬ (result ≡ 0) → floor.new ≡ floor.old }
    ensures closed { IsFalse (holds_bucket (Some content.now)) → result ≡ 32 }
{
    match content {
        Content::Bucket(bucket, _, _) => {
            *floor = bucket.single().reach();
            0
        }
        Content::View(..) | Content::Feed(..) | Content::Batch(_) | Content::Made(..) => CLOSED,
    }
}

/// Hands out the highest floor to which a bucket can be compacted, 0 where there is none.
#[unsafe(no_mangle)]
pub extern "C" fn kv_reach(alloc: Global, handle: &mut Handle, floor: &mut u64) -> u64
    ensures reach { (state : State) → StandsAt state handle.old.slot.held → (result ≡ 0) × IsReach state floor.new }
    ensures untold { ¬ (result ≡ 0) → floor.new ≡ floor.old }
    ensures unchanged { handle.new.slot.held ≡ handle.old.slot.held }
    ensures closed { IsFalse (holds_bucket handle.old.slot.held) → result ≡ 32 }
{
    let Some(content) = handle.take(alloc) else {
        return CLOSED;
    };
    let done = reach_of(&content, floor);
    handle.put(content);
    done
}
