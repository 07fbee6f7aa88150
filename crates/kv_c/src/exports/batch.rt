//! The functions that C calls to gather requests, and to make them in one step.

ghost use Rattle.std.specs.Prelude.{◌≡◌, ◌∷◌, [], true, List, Err, None, Ok, Some, IfErr, IfOk, IsFalse, IsTrue, is_some, length, map};
ghost use Rattle.kv_c.specs.Batching.{AcceptsAll, AreWrites, Gathers, IsRefusedWith, batch_of, count_of, gatherable, gathered};
ghost use Rattle.kv_c.specs.Calling.{IsAsked, StandsAt, holds_bucket, if_given};
ghost use Rattle.kv_c.specs.Codes.{accepted, code_by};
ghost use Rattle.kv_c.specs.Making.{Makes, MakesBatch, MakesGathered, is_filed, stopped_in};
ghost use Rattle.kv_keys.specs.Refusals.{code_of};
ghost use Rattle.kv_keys.specs.declared.error.KvError.TheVariants.{OutOfMemory, WrongLastRevision};
ghost use Rattle.kv_model.specs.Requests.{Asked, asked, create, delete, purge, put, update};
ghost use Rattle.kv_model.specs.State.{State};
ghost use Rattle.kv_single.specs.Held.{Represents};

use crate::batch::Batch;
use crate::codes::{CLOSED, FILE_FAULT, MADE, refuse_write};
use crate::content::Content;
use crate::handle::Handle;
use crate::ready::ready_batch;
use crate::request;
use crate::ringed::Ringed;
use kv_durable::BatchError;
use kv_single::{BatchRefused, KvError, Request};
use std::alloc::Global;

/// The most bytes that a value has in any bucket.
const MOST_VALUE: usize = 1_048_576;

// The request, unless no bucket accepts it.
fn checked(request: Result<Request, KvError>) -> Result<Request, KvError>
    ensures ok { IfOk result (λ r. (what : Asked) → IsAsked what request →
        (asked r ≡ what) × (gatherable what ≡ Ok what)) }
    ensures err { IfErr result (λ e. ¬ (e ≡ OutOfMemory) → (what : Asked) → IsAsked what request →
        gatherable what ≡ Err e) }
{
    let request = request?;
    if request.value().len() > MOST_VALUE {
        return Err(KvError::ValueTooLarge);
    }
    Ok(request)
}

fn add(batch: &mut Batch, request: Result<Request, KvError>) -> u64
    ensures gathered { result ≡ 0 → (what : Asked) → IsAsked what request →
        Gathers what (batch_of batch.old) (batch_of batch.new) }
    ensures code { (what : Asked) → IsAsked what request → ¬ (result ≡ 1) →
        result ≡ code_by accepted (gatherable what) }
    ensures refused { ¬ (result ≡ 0) → batch.new ≡ batch.old }
{
    match checked(request) {
        Ok(request) => match batch.add(request) {
            Ok(()) => 0,
            Err(refusal) => refusal.code(),
        },
        Err(refusal) => refusal.code(),
    }
}

fn gather_in(content: &mut Content, request: Result<Request, KvError>) -> u64
    ensures gathered { result ≡ 0 → (what : Asked) → IsAsked what request →
        Gathers what (Some content.old) (Some content.new) }
    ensures code { IsTrue (is_some (gathered (Some content.old))) → (what : Asked) → IsAsked what request →
        ¬ (result ≡ 1) → result ≡ code_by accepted (gatherable what) }
    ensures refused { ¬ (result ≡ 0) → content.new ≡ content.old }
    ensures closed { IsFalse (is_some (gathered (Some content.old))) → result ≡ 32 }
{
    match content {
        Content::Batch(batch) => add(batch, request),
        Content::Bucket(..) | Content::View(..) | Content::Feed(..) | Content::Made(..) => CLOSED,
    }
}

fn begun(alloc: Global, request: Result<Request, KvError>) -> Result<Box<Content>, KvError>
    ensures ok { IfOk result (λ b. (what : Asked) → IsAsked what request →
        Gathers what None (Some b.value) × (gatherable what ≡ Ok what)) }
    ensures err { IfErr result (λ e. ¬ (e ≡ OutOfMemory) → (what : Asked) → IsAsked what request →
        gatherable what ≡ Err e) }
{
    let batch = Batch::of(alloc, checked(request)?)?;
    Ok(Box::new(alloc, Content::Batch(batch))?)
}

// The first request of a batch.
fn begin(alloc: Global, batch: &mut Handle, request: Result<Request, KvError>) -> u64
    requires { batch.old.slot.held ≡ None }
    ensures gathered { result ≡ 0 → (what : Asked) → IsAsked what request →
        Gathers what None batch.new.slot.held }
    ensures code { (what : Asked) → IsAsked what request → ¬ (result ≡ 1) →
        result ≡ code_by accepted (gatherable what) }
    ensures refused { ¬ (result ≡ 0) → batch.new.slot.held ≡ None }
{
    match begun(alloc, request) {
        Ok(content) => {
            batch.put(content);
            0
        }
        Err(refusal) => refusal.code(),
    }
}

fn gather(alloc: Global, batch: &mut Handle, request: Result<Request, KvError>) -> u64
    ensures gathered { result ≡ 0 → (what : Asked) → IsAsked what request →
        Gathers what batch.old.slot.held batch.new.slot.held }
    ensures code { IsTrue (is_some (gathered batch.old.slot.held)) → (what : Asked) → IsAsked what request →
        ¬ (result ≡ 1) → result ≡ code_by accepted (gatherable what) }
    ensures refused { ¬ (result ≡ 0) → batch.new.slot.held ≡ batch.old.slot.held }
    ensures closed { IsFalse (is_some (gathered batch.old.slot.held)) → result ≡ 32 }
{
    let Some(mut content) = batch.take(alloc) else {
        return begin(alloc, batch, request);
    };
    let done = gather_in(&mut content, request);
    batch.put(content);
    done
}

/// Gathers the request that a key be given a value. The key and the value are copied. What no bucket accepts is refused
/// here: a key that is none, and a value of more than 1,048,576 bytes.
#[unsafe(no_mangle)]
pub extern "C" fn kv_batch_put(alloc: Global, batch: &mut Handle, key: &[u8], value: &[u8]) -> u64
    ensures gathered { result ≡ 0 → Gathers (put key.now value.now) batch.old.slot.held batch.new.slot.held }
    ensures code { IsTrue (is_some (gathered batch.old.slot.held)) → ¬ (result ≡ 1) →
        result ≡ code_by accepted (gatherable (put key.now value.now)) }
    ensures refused { ¬ (result ≡ 0) → batch.new.slot.held ≡ batch.old.slot.held }
    ensures closed { IsFalse (is_some (gathered batch.old.slot.held)) → result ≡ 32 }
{
    gather(alloc, batch, request::put(alloc, key, value))
}

/// The same, where the key has no value.
#[unsafe(no_mangle)]
pub extern "C" fn kv_batch_create(
    alloc: Global,
    batch: &mut Handle,
    key: &[u8],
    value: &[u8],
) -> u64
    ensures gathered { result ≡ 0 → Gathers (create key.now value.now) batch.old.slot.held batch.new.slot.held }
    ensures code { IsTrue (is_some (gathered batch.old.slot.held)) → ¬ (result ≡ 1) →
        result ≡ code_by accepted (gatherable (create key.now value.now)) }
    ensures refused { ¬ (result ≡ 0) → batch.new.slot.held ≡ batch.old.slot.held }
    ensures closed { IsFalse (is_some (gathered batch.old.slot.held)) → result ≡ 32 }
{
    gather(alloc, batch, request::create(alloc, key, value))
}

/// The same, where `last` is the key's last revision, of the writes before it in the batch too.
#[unsafe(no_mangle)]
pub extern "C" fn kv_batch_update(
    alloc: Global,
    batch: &mut Handle,
    key: &[u8],
    value: &[u8],
    last: u64,
) -> u64
    ensures gathered { result ≡ 0 → Gathers (update key.now value.now last) batch.old.slot.held batch.new.slot.held }
    ensures code { IsTrue (is_some (gathered batch.old.slot.held)) → ¬ (result ≡ 1) →
        result ≡ code_by accepted (gatherable (update key.now value.now last)) }
    ensures refused { ¬ (result ≡ 0) → batch.new.slot.held ≡ batch.old.slot.held }
    ensures closed { IsFalse (is_some (gathered batch.old.slot.held)) → result ≡ 32 }
{
    gather(alloc, batch, request::update(alloc, key, value, last))
}

/// Gathers the request that a key's value be ended; with `has_last`, only where `last` is the key's last revision.
#[unsafe(no_mangle)]
pub extern "C" fn kv_batch_delete(
    alloc: Global,
    batch: &mut Handle,
    key: &[u8],
    has_last: bool,
    last: u64,
) -> u64
    ensures gathered { result ≡ 0 → Gathers (delete key.now (if_given has_last last)) batch.old.slot.held batch.new.slot.held }
    ensures code { IsTrue (is_some (gathered batch.old.slot.held)) → ¬ (result ≡ 1) →
        result ≡ code_by accepted (gatherable (delete key.now (if_given has_last last))) }
    ensures refused { ¬ (result ≡ 0) → batch.new.slot.held ≡ batch.old.slot.held }
    ensures closed { IsFalse (is_some (gathered batch.old.slot.held)) → result ≡ 32 }
{
    gather(alloc, batch, request::delete(alloc, key, has_last, last))
}

/// The same, and the key's earlier entries go.
#[unsafe(no_mangle)]
pub extern "C" fn kv_batch_purge(
    alloc: Global,
    batch: &mut Handle,
    key: &[u8],
    has_last: bool,
    last: u64,
) -> u64
    ensures gathered { result ≡ 0 → Gathers (purge key.now (if_given has_last last)) batch.old.slot.held batch.new.slot.held }
    ensures code { IsTrue (is_some (gathered batch.old.slot.held)) → ¬ (result ≡ 1) →
        result ≡ code_by accepted (gatherable (purge key.now (if_given has_last last))) }
    ensures refused { ¬ (result ≡ 0) → batch.new.slot.held ≡ batch.old.slot.held }
    ensures closed { IsFalse (is_some (gathered batch.old.slot.held)) → result ≡ 32 }
{
    gather(alloc, batch, request::purge(alloc, key, has_last, last))
}

fn size_of(content: &Content, size: &mut usize) -> u64
    ensures told { result ≡ 0 → count_of (gathered (Some content.now)) ≡ Some size.new }
    ensures code { IsTrue (is_some (gathered (Some content.now))) → result ≡ 0 }
    ensures untold { ¬ (result ≡ 0) → size.new ≡ size.old }
    ensures closed { IsFalse (is_some (gathered (Some content.now))) → result ≡ 32 }
{
    match content.requests() {
        Some(requests) => {
            *size = requests.len();
            0
        }
        None => CLOSED,
    }
}

/// Tells how many requests are gathered.
#[unsafe(no_mangle)]
pub extern "C" fn kv_batch_size(alloc: Global, batch: &mut Handle, size: &mut usize) -> u64
    ensures told { result ≡ 0 → count_of (gathered batch.old.slot.held) ≡ Some size.new }
    ensures code { IsTrue (is_some (gathered batch.old.slot.held)) → result ≡ 0 }
    ensures untold { ¬ (result ≡ 0) → size.new ≡ size.old }
    ensures unchanged { batch.new.slot.held ≡ batch.old.slot.held }
    ensures closed { IsFalse (is_some (gathered batch.old.slot.held)) → result ≡ 32 }
{
    let Some(content) = batch.take(alloc) else {
        *size = 0;
        return 0;
    };
    let done = size_of(&content, size);
    batch.put(content);
    done
}

// The code of the refusal of a batch. The index of the request that is refused is handed out, and its key's last revision, if
// the refusal tells that.
fn refuse_batch(refused: BatchRefused, revision: &mut u64, at: &mut usize) -> u64
    ensures code { result ≡ code_of refused.error }
    ensures at { at.new ≡ refused.at }
    ensures last { result ≡ 11 → refused.error ≡ WrongLastRevision revision.new }
    ensures untold { ¬ (result ≡ 11) → revision.new ≡ revision.old }
{
    *at = refused.at;
    refuse_write(refused.error, revision)
}

// Does all that is asked, and hands out the revision of the first write; or hands out the index of the one that is refused,
// and where its key's last revision is another one, that.
#[tactic(auto, using(crate::proofs::Refusing::no_fault, crate::proofs::Refusing::not_made))]
fn write_all(bucket: &mut Ringed, requests: &[Request], revision: &mut u64, at: &mut usize) -> u64
    ensures accepted { result ≡ 0 → AreWrites bucket.old (map asked requests.now) revision.new bucket.new }
    ensures why { ¬ (result ≡ 0) → (state : State) → Represents state bucket.old →
        IsRefusedWith state (Some (map asked requests.now)) result at.new revision.new }
    ensures untold { ¬ (result ≡ 0) → ¬ (result ≡ 11) → revision.new ≡ revision.old }
    ensures at { result ≡ 0 → at.new ≡ at.old }
    ensures refused { ¬ (result ≡ 0) → bucket.new ≡ bucket.old }
    ensures open { ¬ (result ≡ 32) }
    ensures never { (¬ (result ≡ 22)) × (¬ (result ≡ 38)) }
{
    match bucket.write_all(requests) {
        Ok(first) => {
            *revision = first;
            0
        }
        Err(refused) => refuse_batch(refused, revision, at),
    }
}

// The same of a bucket with a file, of a first request and the rest: the batch is made, and waits for the shell.
#[tactic(auto, using(crate::proofs::Refusing::no_fault, crate::proofs::Refusing::not_made))]
fn make_some(
    alloc: Global,
    content: &mut Content,
    requests: &[Request],
    first: &Request,
    rest: &[Request],
    revision: &mut u64,
    at: &mut usize,
) -> u64
    requires split { requests.now ≡ first.now ∷ rest.now }
    requires filed { IsTrue (is_filed content.old) }
    ensures made { result ≡ 38 → Makes (MakesBatch requests.now) (Some content.old) (Some content.new) }
    ensures why { ¬ (result ≡ 22) → ¬ (result ≡ 38) → (state : State) → StandsAt state (Some content.old) →
        IsRefusedWith state (Some (map asked requests.now)) result at.new revision.new }
    ensures untold { ¬ (result ≡ 11) → revision.new ≡ revision.old }
    ensures at { result ≡ 38 → at.new ≡ at.old }
    ensures refused { ¬ (result ≡ 38) → content.new ≡ content.old }
    ensures fault { result ≡ 22 → (stopped_in (Some content.old) ≡ true) × (at.new ≡ at.old) }
    ensures stopped { stopped_in (Some content.old) ≡ true → result ≡ 22 }
    ensures never { (¬ (result ≡ 0)) × (¬ (result ≡ 32)) }
{
    let Some((bucket, filed)) = content.with_file() else {
        return CLOSED;
    };
    match ready_batch(bucket, filed, requests, first, rest) {
        Ok(ready) => {
            content.make(alloc, ready);
            MADE
        }
        Err(BatchError::Refused(refused)) => refuse_batch(refused, revision, at),
        Err(BatchError::FileFault) => FILE_FAULT,
    }
}

// Of no request nothing is made.
fn write_none(content: &mut Content, revision: &mut u64, at: &mut usize) -> u64
    requires { IsTrue (is_filed content.old) }
    ensures accepted { result ≡ 0 → AcceptsAll (batch_of []) (Some content.old) revision.new (Some content.new) }
    ensures why { ¬ (result ≡ 0) → (state : State) → StandsAt state (Some content.old) →
        IsRefusedWith state (Some []) result at.new revision.new }
    ensures untold { ¬ (result ≡ 0) → ¬ (result ≡ 11) → revision.new ≡ revision.old }
    ensures at { result ≡ 0 → at.new ≡ at.old }
    ensures refused { ¬ (result ≡ 0) → content.new ≡ content.old }
    ensures never { (¬ (result ≡ 22)) × (¬ (result ≡ 32)) × (¬ (result ≡ 38)) }
{
    match content {
        Content::Bucket(bucket, Some(_), _) => write_all(bucket, &[], revision, at),
        _ => CLOSED,
    }
}

// The same; of no request nothing is made, also where the file has failed.
fn make_all(
    alloc: Global,
    content: &mut Content,
    requests: &[Request],
    revision: &mut u64,
    at: &mut usize,
) -> u64
    requires { IsTrue (is_filed content.old) }
    ensures accepted { result ≡ 0 →
        AcceptsAll (batch_of (map asked requests.now)) (Some content.old) revision.new (Some content.new) }
    ensures made { result ≡ 38 → Makes (MakesBatch requests.now) (Some content.old) (Some content.new) }
    ensures why { ¬ (result ≡ 0) → ¬ (result ≡ 22) → ¬ (result ≡ 38) → (state : State) →
        StandsAt state (Some content.old) →
        IsRefusedWith state (Some (map asked requests.now)) result at.new revision.new }
    ensures untold { ¬ (result ≡ 0) → ¬ (result ≡ 11) → revision.new ≡ revision.old }
    ensures at { result ≡ 0 → at.new ≡ at.old }
    ensures at_made { result ≡ 38 → at.new ≡ at.old }
    ensures refused { ¬ (result ≡ 0) → ¬ (result ≡ 38) → content.new ≡ content.old }
    ensures fault { result ≡ 22 → (stopped_in (Some content.old) ≡ true) × (at.new ≡ at.old) }
    ensures stopped { stopped_in (Some content.old) ≡ true → (requests.now ≡ [] → ⊥) → result ≡ 22 }
    ensures open { ¬ (result ≡ 32) }
{
    match requests.split_first() {
        Some((first, rest)) => make_some(alloc, content, requests, first, rest, revision, at),
        None => write_none(content, revision, at),
    }
}

fn write_all_in(
    alloc: Global,
    content: &mut Content,
    requests: &[Request],
    revision: &mut u64,
    at: &mut usize,
) -> u64
    ensures accepted { result ≡ 0 →
        AcceptsAll (batch_of (map asked requests.now)) (Some content.old) revision.new (Some content.new) }
    ensures made { result ≡ 38 → Makes (MakesBatch requests.now) (Some content.old) (Some content.new) }
    ensures why { ¬ (result ≡ 0) → ¬ (result ≡ 22) → ¬ (result ≡ 38) → (state : State) →
        StandsAt state (Some content.old) →
        IsRefusedWith state (Some (map asked requests.now)) result at.new revision.new }
    ensures untold { ¬ (result ≡ 0) → ¬ (result ≡ 11) → revision.new ≡ revision.old }
    ensures at { result ≡ 0 → at.new ≡ at.old }
    ensures at_made { result ≡ 38 → at.new ≡ at.old }
    ensures refused { ¬ (result ≡ 0) → ¬ (result ≡ 38) → content.new ≡ content.old }
    ensures fault { result ≡ 22 → (stopped_in (Some content.old) ≡ true) × (at.new ≡ at.old) }
    ensures stopped { stopped_in (Some content.old) ≡ true → (requests.now ≡ [] → ⊥) → result ≡ 22 }
    ensures closed { IsFalse (holds_bucket (Some content.old)) → result ≡ 32 }
    ensures closed_untold { result ≡ 32 → at.new ≡ at.old }
{
    match content {
        Content::Bucket(bucket, None, _) => write_all(bucket, requests, revision, at),
        Content::Bucket(_, Some(_), _) => make_all(alloc, content, requests, revision, at),
        Content::View(..) | Content::Feed(..) | Content::Batch(_) | Content::Made(..) => CLOSED,
    }
}

fn write_all_to(
    alloc: Global,
    handle: &mut Handle,
    requests: &[Request],
    revision: &mut u64,
    at: &mut usize,
) -> u64
    ensures accepted { result ≡ 0 →
        AcceptsAll (batch_of (map asked requests.now)) handle.old.slot.held revision.new handle.new.slot.held }
    ensures made { result ≡ 38 → Makes (MakesBatch requests.now) handle.old.slot.held handle.new.slot.held }
    ensures why { ¬ (result ≡ 0) → ¬ (result ≡ 22) → ¬ (result ≡ 38) → (state : State) →
        StandsAt state handle.old.slot.held →
        IsRefusedWith state (Some (map asked requests.now)) result at.new revision.new }
    ensures untold { ¬ (result ≡ 0) → ¬ (result ≡ 11) → revision.new ≡ revision.old }
    ensures at { result ≡ 0 → at.new ≡ at.old }
    ensures at_made { result ≡ 38 → at.new ≡ at.old }
    ensures refused { ¬ (result ≡ 0) → ¬ (result ≡ 38) → handle.new.slot.held ≡ handle.old.slot.held }
    ensures fault { result ≡ 22 → (stopped_in handle.old.slot.held ≡ true) × (at.new ≡ at.old) }
    ensures stopped { stopped_in handle.old.slot.held ≡ true → (requests.now ≡ [] → ⊥) → result ≡ 22 }
    ensures closed { IsFalse (holds_bucket handle.old.slot.held) → result ≡ 32 }
    ensures closed_untold { result ≡ 32 → at.new ≡ at.old }
{
    let Some(mut content) = handle.take(alloc) else {
        return CLOSED;
    };
    let done = write_all_in(alloc, &mut content, requests, revision, at);
    handle.put(content);
    done
}

/// Makes all that is gathered in one step, or nothing of it: each write is judged behind those before it. The revision
/// of the first is handed out, or the last one so far where nothing is gathered, and then the batch is empty. Where a
/// write is refused its index is handed out, from 0, and where its key's last revision is another one, that; the bucket
/// and the batch are as they were. Where the call is made on a bucket with a file, the batch is as it was too.
#[unsafe(no_mangle)]
pub extern "C" fn kv_make_batch(
    alloc: Global,
    handle: &mut Handle,
    batch: &mut Handle,
    revision: &mut u64,
    at: &mut usize,
) -> u64
    ensures accepted { result ≡ 0 →
        AcceptsAll batch.old.slot.held handle.old.slot.held revision.new handle.new.slot.held }
    ensures made { result ≡ 38 → MakesGathered (gathered batch.old.slot.held) handle.old.slot.held handle.new.slot.held }
    ensures emptied { result ≡ 0 → batch.new.slot.held ≡ None }
    ensures why { ¬ (result ≡ 0) → ¬ (result ≡ 22) → ¬ (result ≡ 38) → (state : State) →
        StandsAt state handle.old.slot.held →
        IsRefusedWith state (gathered batch.old.slot.held) result at.new revision.new }
    ensures untold { ¬ (result ≡ 0) → ¬ (result ≡ 11) → revision.new ≡ revision.old }
    ensures at { result ≡ 0 → at.new ≡ at.old }
    ensures at_made { result ≡ 38 → at.new ≡ at.old }
    ensures refused { ¬ (result ≡ 0) → ¬ (result ≡ 38) → handle.new.slot.held ≡ handle.old.slot.held }
    ensures kept { ¬ (result ≡ 0) → batch.new.slot.held ≡ batch.old.slot.held }
    ensures fault { result ≡ 22 → (stopped_in handle.old.slot.held ≡ true) × (at.new ≡ at.old) }
    ensures stopped { stopped_in handle.old.slot.held ≡ true → (whats : List Asked) →
        gathered batch.old.slot.held ≡ Some whats → (whats ≡ [] → ⊥) → result ≡ 22 }
    ensures closed { IsFalse (holds_bucket handle.old.slot.held) → result ≡ 32 }
    ensures no_batch { IsFalse (is_some (gathered batch.old.slot.held)) → result ≡ 32 }
    ensures closed_untold { result ≡ 32 → at.new ≡ at.old }
{
    let Some(content) = batch.take(alloc) else {
        return write_all_to(alloc, handle, &[], revision, at);
    };
    let done = match content.requests() {
        Some(requests) => write_all_to(alloc, handle, requests, revision, at),
        None => CLOSED,
    };
    if done == 0 {
        drop(content);
    } else {
        batch.put(content);
    }
    done
}
