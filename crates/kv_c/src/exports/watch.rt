//! The functions that C calls for the watches of a bucket.

ghost use Rattle.std.specs.Prelude.{◌≡◌, if◌then◌else◌, nat_lt, Some, IfErr, IfOk, IsFalse, OnErr};
ghost use Rattle.kv_single.specs.Held.{Represents};
ghost use Rattle.kv_single.specs.Stepping.{IsStep};
ghost use Rattle.kv_c.specs.Calling.{StandsAt, Steps, holds_bucket, options_asked};
ghost use Rattle.kv_c.specs.Codes.{answer_code, taken_code, watch_code};
ghost use Rattle.kv_c.specs.Handing.{HasSizes, Wants, told};
ghost use Rattle.kv_keys.specs.Grammar.{parts};
ghost use Rattle.kv_model.specs.Answers.{Ended, Refused, Watching};
ghost use Rattle.kv_model.specs.State.{State, after, answer_to};
ghost use Rattle.kv_model.specs.declared.call.Call.TheVariants.{Stop, Take, Watch};

use crate::codes::{CLOSED, NO_SUCH_START, hand_out};
use crate::content::Content;
use crate::handle::Handle;
use crate::item::{self, Item};
use crate::parse::filters_of;
use crate::request::{Wanted, options_of};
use crate::ringed::Ringed;
use kv_single::{KvError, Options};
use std::alloc::Global;

#[tactic(auto, using(crate::proofs::Refusing::code_from, crate::proofs::Refusing::code_memory))]
fn opened(
    alloc: Global,
    bucket: &mut Ringed,
    filters: &[u8],
    options: Options,
    number: &mut u64,
) -> u64
    ensures opened { result ≡ 0 →
        IsStep bucket.old (Watch (parts filters.now) options) (Watching number.new) bucket.new }
    ensures code { (state : State) → Represents state bucket.old → ¬ (result ≡ 1) →
        result ≡ watch_code filters.now state }
    ensures untold { ¬ (result ≡ 0) → number.new ≡ number.old }
    ensures refused { ¬ (result ≡ 0) → bucket.new ≡ bucket.old }
{
    match filters_of(alloc, filters) {
        Ok(filters) => hand_out(bucket.watch(&filters, options), number),
        Err(refusal) => refusal.code(),
    }
}

fn watch(
    alloc: Global,
    content: &mut Content,
    filters: &[u8],
    wanted: &Wanted,
    number: &mut u64,
) -> u64
    ensures opened { result ≡ 0 →
        Steps (Watch (parts filters.now) (options_asked wanted.now)) (Watching number.new)
        (Some content.old) (Some content.new) }
    ensures code { (state : State) → StandsAt state (Some content.old) → ¬ (result ≡ 1) →
        result ≡ (if nat_lt 3 wanted.now.start then 35 else watch_code filters.now state) }
    ensures untold { ¬ (result ≡ 0) → number.new ≡ number.old }
    ensures refused { ¬ (result ≡ 0) → content.new ≡ content.old }
    ensures closed { IsFalse (holds_bucket (Some content.old)) → result ≡ 32 }
{
    match content {
        Content::Bucket(bucket, _, _) => match options_of(wanted) {
            Some(options) => opened(alloc, bucket, filters, options, number),
            None => NO_SUCH_START,
        },
        Content::View(..) | Content::Feed(..) | Content::Batch(_) | Content::Made(..) => CLOSED,
    }
}

/// Opens a watch, and hands out its number.
#[unsafe(no_mangle)]
pub extern "C" fn kv_watch(
    alloc: Global,
    handle: &mut Handle,
    filters: &[u8],
    wanted: &Wanted,
    number: &mut u64,
) -> u64
    ensures opened { result ≡ 0 →
        Steps (Watch (parts filters.now) (options_asked wanted.now)) (Watching number.new)
        handle.old.slot.held handle.new.slot.held }
    ensures code { (state : State) → StandsAt state handle.old.slot.held → ¬ (result ≡ 1) →
        result ≡ (if nat_lt 3 wanted.now.start then 35 else watch_code filters.now state) }
    ensures untold { ¬ (result ≡ 0) → number.new ≡ number.old }
    ensures refused { ¬ (result ≡ 0) → handle.new.slot.held ≡ handle.old.slot.held }
    ensures closed { IsFalse (holds_bucket handle.old.slot.held) → result ≡ 32 }
{
    let Some(mut content) = handle.take(alloc) else {
        return CLOSED;
    };
    let done = watch(alloc, &mut content, filters, wanted, number);
    handle.put(content);
    done
}

fn take_from(
    bucket: &mut Ringed,
    number: u64,
    keys: &mut [u8],
    values: &mut [u8],
    item: &mut Item,
) -> u64
    ensures taken { result ≡ 0 → (state : State) → Represents state bucket.old →
        (answer_to state (Take number) ≡ told item.new keys.new values.new)
        × Represents (after state (Take number)) bucket.new }
    ensures code { (state : State) → Represents state bucket.old →
        result ≡ taken_code keys.old values.old (answer_to state (Take number)) }
    ensures sizes { result ≡ 0 → (state : State) → Represents state bucket.old →
        HasSizes item.new (answer_to state (Take number)) }
    ensures wants { result ≡ 33 → (state : State) → Represents state bucket.old →
        Wants item.new (answer_to state (Take number)) }
    ensures refused { ¬ (result ≡ 0) → bucket.new ≡ bucket.old }
    ensures room { ¬ (result ≡ 0) → (keys.new ≡ keys.old) × (values.new ≡ values.old) }
    ensures untold { ¬ (result ≡ 0) → ¬ (result ≡ 33) → item.new ≡ item.old }
{
    let done = match bucket.single().peek(number) {
        Ok(taken) => item::hand(&taken, keys, values, item),
        Err(refusal) => refusal.code(),
    };
    if done == 0 {
        bucket.pass(number);
    }
    done
}

fn take(
    content: &mut Content,
    number: u64,
    keys: &mut [u8],
    values: &mut [u8],
    item: &mut Item,
) -> u64
    ensures taken { result ≡ 0 → (state : State) → StandsAt state (Some content.old) →
        (answer_to state (Take number) ≡ told item.new keys.new values.new)
        × StandsAt (after state (Take number)) (Some content.new) }
    ensures code { (state : State) → StandsAt state (Some content.old) →
        result ≡ taken_code keys.old values.old (answer_to state (Take number)) }
    ensures sizes { result ≡ 0 → (state : State) → StandsAt state (Some content.old) →
        HasSizes item.new (answer_to state (Take number)) }
    ensures wants { result ≡ 33 → (state : State) → StandsAt state (Some content.old) →
        Wants item.new (answer_to state (Take number)) }
    ensures refused { ¬ (result ≡ 0) → content.new ≡ content.old }
    ensures room { ¬ (result ≡ 0) → (keys.new ≡ keys.old) × (values.new ≡ values.old) }
    ensures untold { ¬ (result ≡ 0) → ¬ (result ≡ 33) → item.new ≡ item.old }
    ensures closed { IsFalse (holds_bucket (Some content.old)) → result ≡ 32 }
{
    match content {
        Content::Bucket(bucket, _, _) => take_from(bucket, number, keys, values, item),
        Content::View(..) | Content::Feed(..) | Content::Batch(_) | Content::Made(..) => CLOSED,
    }
}

/// Hands out the next item of a watch, with key and value copied. Where there is too little room, nothing moves, and
/// the item tells how much is needed.
#[unsafe(no_mangle)]
pub extern "C" fn kv_take(
    alloc: Global,
    handle: &mut Handle,
    number: u64,
    keys: &mut [u8],
    values: &mut [u8],
    item: &mut Item,
) -> u64
    ensures taken { result ≡ 0 → (state : State) → StandsAt state handle.old.slot.held →
        (answer_to state (Take number) ≡ told item.new keys.new values.new)
        × StandsAt (after state (Take number)) handle.new.slot.held }
    ensures code { (state : State) → StandsAt state handle.old.slot.held →
        result ≡ taken_code keys.old values.old (answer_to state (Take number)) }
    ensures sizes { result ≡ 0 → (state : State) → StandsAt state handle.old.slot.held →
        HasSizes item.new (answer_to state (Take number)) }
    ensures wants { result ≡ 33 → (state : State) → StandsAt state handle.old.slot.held →
        Wants item.new (answer_to state (Take number)) }
    ensures refused { ¬ (result ≡ 0) → handle.new.slot.held ≡ handle.old.slot.held }
    ensures room { ¬ (result ≡ 0) → (keys.new ≡ keys.old) × (values.new ≡ values.old) }
    ensures untold { ¬ (result ≡ 0) → ¬ (result ≡ 33) → item.new ≡ item.old }
    ensures closed { IsFalse (holds_bucket handle.old.slot.held) → result ≡ 32 }
{
    let Some(mut content) = handle.take(alloc) else {
        return CLOSED;
    };
    let done = take(&mut content, number, keys, values, item);
    handle.put(content);
    done
}

fn stop_in(bucket: &mut Ringed, number: u64) -> Result<u64, KvError>
    ensures ok { IfOk result (λ handed. IsStep bucket.old (Stop number) (Ended handed) bucket.new) }
    ensures err { IfErr result (λ e. IsStep bucket.old (Stop number) (Refused e) bucket.new) }
    ensures unchanged { OnErr result (bucket.new ≡ bucket.old) }
{
    let stopped = bucket.stop(number)?;
    Ok(stopped.handed)
}

fn stop(content: &mut Content, number: u64, handed: &mut u64) -> u64
    ensures stopped { result ≡ 0 → Steps (Stop number) (Ended handed.new) (Some content.old) (Some content.new) }
    ensures code { (state : State) → StandsAt state (Some content.old) →
        result ≡ answer_code (answer_to state (Stop number)) }
    ensures untold { ¬ (result ≡ 0) → handed.new ≡ handed.old }
    ensures refused { ¬ (result ≡ 0) → content.new ≡ content.old }
    ensures closed { IsFalse (holds_bucket (Some content.old)) → result ≡ 32 }
{
    match content {
        Content::Bucket(bucket, _, _) => hand_out(stop_in(bucket, number), handed),
        Content::View(..) | Content::Feed(..) | Content::Batch(_) | Content::Made(..) => CLOSED,
    }
}

/// Stops a watch, and hands out how many items it was handed, the end marker counted.
#[unsafe(no_mangle)]
pub extern "C" fn kv_stop(alloc: Global, handle: &mut Handle, number: u64, handed: &mut u64) -> u64
    ensures stopped { result ≡ 0 →
        Steps (Stop number) (Ended handed.new) handle.old.slot.held handle.new.slot.held }
    ensures code { (state : State) → StandsAt state handle.old.slot.held →
        result ≡ answer_code (answer_to state (Stop number)) }
    ensures untold { ¬ (result ≡ 0) → handed.new ≡ handed.old }
    ensures refused { ¬ (result ≡ 0) → handle.new.slot.held ≡ handle.old.slot.held }
    ensures closed { IsFalse (holds_bucket handle.old.slot.held) → result ≡ 32 }
{
    let Some(mut content) = handle.take(alloc) else {
        return CLOSED;
    };
    let done = stop(&mut content, number, handed);
    handle.put(content);
    done
}
