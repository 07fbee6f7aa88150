//! The functions that C calls to write to a bucket.

ghost use Rattle.std.specs.Prelude.{◌≡◌, true, Err, Some, None, IsFalse, IsTrue};
ghost use Rattle.kv_single.specs.Held.{Represents};
ghost use Rattle.kv_single.specs.Stepping.{IsStep};
ghost use Rattle.kv_c.specs.Calling.{Accepts, IsAsked, IsWrite, StandsAt, Steps, holds_bucket, if_given};
ghost use Rattle.kv_c.specs.Codes.{accepted, code_by, outcome, stopped_code};
ghost use Rattle.kv_c.specs.Making.{Makes, MakesAct, MakesAsked, MakesWrite, is_filed, stopped_in};
ghost use Rattle.kv_c.specs.Writing.{Writes};
ghost use Rattle.kv_keys.specs.declared.error.KvError.TheVariants.{WrongLastRevision};
ghost use Rattle.kv_model.specs.Acts.{Seal as ASeal};
ghost use Rattle.kv_model.specs.Answers.{Sealed};
ghost use Rattle.kv_model.specs.Acceptance.{accept};
ghost use Rattle.kv_model.specs.Requests.{Asked, asked, create, delete, purge, put, update};
ghost use Rattle.kv_model.specs.State.{State};
ghost use Rattle.kv_model.specs.declared.call.Call.TheVariants.{Seal};

use crate::codes::{CLOSED, FILE_FAULT, MADE, refuse_write};
use crate::content::Content;
use crate::handle::Handle;
use crate::ready::{ready_seal, ready_write};
use crate::request;
use crate::ringed::Ringed;
use kv_durable::DurableError;
use kv_single::{KvError, Request};
use std::alloc::Global;

// Writes what is asked, and hands out its revision; where the key's last revision is another one, that.
#[tactic(auto, using(crate::proofs::Refusing::code_from, crate::proofs::Refusing::code_memory, crate::proofs::Refusing::no_fault, crate::proofs::Refusing::not_made), unfolding(crate::specs::Codes::outcome))]
fn write_to(bucket: &mut Ringed, request: Result<Request, KvError>, revision: &mut u64) -> u64
    ensures accepted { result ≡ 0 → (what : Asked) → IsAsked what request →
        IsWrite bucket.old what revision.new bucket.new }
    ensures code { (what : Asked) → IsAsked what request → (state : State) → Represents state bucket.old →
        ¬ (result ≡ 1) → result ≡ code_by accepted (outcome what state) }
    ensures last { result ≡ 11 → (what : Asked) → IsAsked what request → (state : State) →
        Represents state bucket.old →
        outcome what state ≡ Err (WrongLastRevision revision.new) }
    ensures untold { ¬ (result ≡ 0) → ¬ (result ≡ 11) → revision.new ≡ revision.old }
    ensures refused { ¬ (result ≡ 0) → bucket.new ≡ bucket.old }
    ensures never { (¬ (result ≡ 22)) × (¬ (result ≡ 38)) }
{
    match request {
        Ok(request) => match bucket.write(&request) {
            Ok(given) => {
                *revision = given;
                0
            }
            Err(refusal) => refuse_write(refusal, revision),
        },
        Err(refusal) => refusal.code(),
    }
}

// The same of a bucket with a file: what is asked is made, and waits for the shell.
#[tactic(auto, using(crate::proofs::Refusing::code_from, crate::proofs::Refusing::code_memory, crate::proofs::Refusing::no_fault, crate::proofs::Refusing::not_made), unfolding(crate::specs::Codes::outcome))]
fn make_write(alloc: Global, content: &mut Content, request: &Request, revision: &mut u64) -> u64
    requires { IsTrue (is_filed content.old) }
    ensures made { result ≡ 38 → Makes (MakesWrite request.now) (Some content.old) (Some content.new) }
    ensures code { (state : State) → StandsAt state (Some content.old) →
        ¬ (result ≡ 1) → ¬ (result ≡ 22) → ¬ (result ≡ 38) → result ≡ code_by accepted (accept state.config (asked request.now) state.acts) }
    ensures last { result ≡ 11 → (state : State) → StandsAt state (Some content.old) →
        accept state.config (asked request.now) state.acts ≡ Err (WrongLastRevision revision.new) }
    ensures untold { ¬ (result ≡ 11) → revision.new ≡ revision.old }
    ensures refused { ¬ (result ≡ 38) → content.new ≡ content.old }
    ensures fault { result ≡ 22 → stopped_in (Some content.old) ≡ true }
    ensures stopped { stopped_in (Some content.old) ≡ true → result ≡ 22 }
    ensures never { (¬ (result ≡ 0)) × (¬ (result ≡ 32)) }
{
    let ready = match content {
        Content::Bucket(bucket, filed, _) => match filed {
            Some(filed) => ready_write(bucket, filed, request),
            None => return CLOSED,
        },
        _ => return CLOSED,
    };
    match ready {
        Ok(ready) => {
            content.make(alloc, ready);
            MADE
        }
        Err(DurableError::Refused(refusal)) => refuse_write(refusal, revision),
        Err(_) => FILE_FAULT,
    }
}

// The same, where the request was read.
#[tactic(auto, using(crate::proofs::Refusing::no_fault, crate::proofs::Refusing::not_made), unfolding(crate::specs::Codes::outcome))]
fn make_asked(
    alloc: Global,
    content: &mut Content,
    request: Result<Request, KvError>,
    revision: &mut u64,
) -> u64
    requires { IsTrue (is_filed content.old) }
    ensures made { result ≡ 38 → (what : Asked) → IsAsked what request →
        Makes (MakesAsked what) (Some content.old) (Some content.new) }
    ensures code { (what : Asked) → IsAsked what request → (state : State) → StandsAt state (Some content.old) →
        ¬ (result ≡ 1) → ¬ (result ≡ 22) → ¬ (result ≡ 38) → result ≡ code_by accepted (outcome what state) }
    ensures last { result ≡ 11 → (what : Asked) → IsAsked what request → (state : State) →
        StandsAt state (Some content.old) → outcome what state ≡ Err (WrongLastRevision revision.new) }
    ensures untold { ¬ (result ≡ 11) → revision.new ≡ revision.old }
    ensures refused { ¬ (result ≡ 38) → content.new ≡ content.old }
    ensures fault { result ≡ 22 → stopped_in (Some content.old) ≡ true }
    ensures stopped { (what : Asked) → IsAsked what request → stopped_in (Some content.old) ≡ true →
        ¬ (result ≡ 1) → result ≡ stopped_code what }
    ensures never { (¬ (result ≡ 0)) × (¬ (result ≡ 32)) }
{
    match request {
        Ok(request) => make_write(alloc, content, &request, revision),
        Err(refusal) => refusal.code(),
    }
}

fn write_in(
    alloc: Global,
    content: &mut Content,
    request: Result<Request, KvError>,
    revision: &mut u64,
) -> u64
    ensures accepted { result ≡ 0 → (what : Asked) → IsAsked what request →
        Accepts what (Some content.old) revision.new (Some content.new) }
    ensures made { result ≡ 38 → (what : Asked) → IsAsked what request →
        Makes (MakesAsked what) (Some content.old) (Some content.new) }
    ensures code { (what : Asked) → IsAsked what request → (state : State) → StandsAt state (Some content.old) →
        ¬ (result ≡ 1) → ¬ (result ≡ 22) → ¬ (result ≡ 38) → result ≡ code_by accepted (outcome what state) }
    ensures last { result ≡ 11 → (what : Asked) → IsAsked what request → (state : State) →
        StandsAt state (Some content.old) → outcome what state ≡ Err (WrongLastRevision revision.new) }
    ensures untold { ¬ (result ≡ 0) → ¬ (result ≡ 11) → revision.new ≡ revision.old }
    ensures refused { ¬ (result ≡ 0) → ¬ (result ≡ 38) → content.new ≡ content.old }
    ensures fault { result ≡ 22 → stopped_in (Some content.old) ≡ true }
    ensures stopped { (what : Asked) → IsAsked what request → stopped_in (Some content.old) ≡ true →
        ¬ (result ≡ 1) → result ≡ stopped_code what }
    ensures closed { IsFalse (holds_bucket (Some content.old)) → result ≡ 32 }
{
    match content {
        Content::Bucket(bucket, None, _) => write_to(bucket, request, revision),
        Content::Bucket(_, Some(_), _) => make_asked(alloc, content, request, revision),
        Content::View(..) | Content::Feed(..) | Content::Batch(_) | Content::Made(..) => CLOSED,
    }
}

fn write(
    alloc: Global,
    handle: &mut Handle,
    request: Result<Request, KvError>,
    revision: &mut u64,
) -> u64
    ensures { (what : Asked) → IsAsked what request →
        Writes what handle.old.slot.held revision.old result revision.new handle.new.slot.held }
{
    let Some(mut content) = handle.take(alloc) else {
        return CLOSED;
    };
    let done = write_in(alloc, &mut content, request, revision);
    handle.put(content);
    done
}

/// Gives a key a value, and hands out the revision of the write.
#[unsafe(no_mangle)]
pub extern "C" fn kv_make_put(
    alloc: Global,
    handle: &mut Handle,
    key: &[u8],
    value: &[u8],
    revision: &mut u64,
) -> u64
    ensures { Writes (put key.now value.now) handle.old.slot.held revision.old result revision.new handle.new.slot.held }
{
    write(alloc, handle, request::put(alloc, key, value), revision)
}

/// The same, where the key has no value.
#[unsafe(no_mangle)]
pub extern "C" fn kv_make_create(
    alloc: Global,
    handle: &mut Handle,
    key: &[u8],
    value: &[u8],
    revision: &mut u64,
) -> u64
    ensures { Writes (create key.now value.now) handle.old.slot.held revision.old result revision.new handle.new.slot.held }
{
    write(alloc, handle, request::create(alloc, key, value), revision)
}

/// The same, where `last` is the key's last revision; where it is not, that one is handed out.
#[unsafe(no_mangle)]
pub extern "C" fn kv_make_update(
    alloc: Global,
    handle: &mut Handle,
    key: &[u8],
    value: &[u8],
    last: u64,
    revision: &mut u64,
) -> u64
    ensures { Writes (update key.now value.now last) handle.old.slot.held revision.old result revision.new handle.new.slot.held }
{
    write(
        alloc,
        handle,
        request::update(alloc, key, value, last),
        revision,
    )
}

/// Ends the value of a key; with `has_last`, only where `last` is the key's last revision.
#[unsafe(no_mangle)]
pub extern "C" fn kv_make_delete(
    alloc: Global,
    handle: &mut Handle,
    key: &[u8],
    has_last: bool,
    last: u64,
    revision: &mut u64,
) -> u64
    ensures { Writes (delete key.now (if_given has_last last)) handle.old.slot.held revision.old result revision.new handle.new.slot.held }
{
    write(
        alloc,
        handle,
        request::delete(alloc, key, has_last, last),
        revision,
    )
}

/// The same, and the key's earlier entries go.
#[unsafe(no_mangle)]
pub extern "C" fn kv_make_purge(
    alloc: Global,
    handle: &mut Handle,
    key: &[u8],
    has_last: bool,
    last: u64,
    revision: &mut u64,
) -> u64
    ensures { Writes (purge key.now (if_given has_last last)) handle.old.slot.held revision.old result revision.new handle.new.slot.held }
{
    write(
        alloc,
        handle,
        request::purge(alloc, key, has_last, last),
        revision,
    )
}

#[tactic(auto, using(crate::proofs::Refusing::no_fault, crate::proofs::Refusing::not_made))]
fn seal(bucket: &mut Ringed) -> u64
    ensures sealed { result ≡ 0 → IsStep bucket.old Seal Sealed bucket.new }
    ensures code { ¬ (result ≡ 1) → result ≡ 0 }
    ensures refused { ¬ (result ≡ 0) → bucket.new ≡ bucket.old }
    ensures never { (¬ (result ≡ 22)) × (¬ (result ≡ 38)) }
{
    match bucket.seal() {
        Ok(()) => 0,
        Err(refusal) => refusal.code(),
    }
}

// The same of a bucket with a file: the seal is made, and waits for the shell.
fn make_seal(alloc: Global, content: &mut Content) -> u64
    requires { IsTrue (is_filed content.old) }
    ensures made { result ≡ 38 → Makes (MakesAct Seal Sealed ASeal) (Some content.old) (Some content.new) }
    ensures code { ¬ (result ≡ 1) → ¬ (result ≡ 22) → result ≡ 38 }
    ensures refused { ¬ (result ≡ 38) → content.new ≡ content.old }
    ensures fault { result ≡ 22 → stopped_in (Some content.old) ≡ true }
    ensures stopped { stopped_in (Some content.old) ≡ true → result ≡ 22 }
{
    let Some((bucket, filed)) = content.with_file() else {
        return CLOSED;
    };
    match ready_seal(bucket, filed) {
        Ok(ready) => {
            content.make(alloc, ready);
            MADE
        }
        Err(DurableError::Refused(refusal)) => refusal.code(),
        Err(_) => FILE_FAULT,
    }
}

fn seal_in(alloc: Global, content: &mut Content) -> u64
    ensures sealed { result ≡ 0 → Steps Seal Sealed (Some content.old) (Some content.new) }
    ensures made { result ≡ 38 → Makes (MakesAct Seal Sealed ASeal) (Some content.old) (Some content.new) }
    ensures code { IsTrue (holds_bucket (Some content.old)) → ¬ (result ≡ 1) → ¬ (result ≡ 22) → ¬ (result ≡ 38) →
        result ≡ 0 }
    ensures refused { ¬ (result ≡ 0) → ¬ (result ≡ 38) → content.new ≡ content.old }
    ensures fault { result ≡ 22 → stopped_in (Some content.old) ≡ true }
    ensures stopped { stopped_in (Some content.old) ≡ true → result ≡ 22 }
    ensures closed { IsFalse (holds_bucket (Some content.old)) → result ≡ 32 }
{
    match content {
        Content::Bucket(bucket, None, _) => seal(bucket),
        Content::Bucket(_, Some(_), _) => make_seal(alloc, content),
        Content::View(..) | Content::Feed(..) | Content::Batch(_) | Content::Made(..) => CLOSED,
    }
}

/// Ends the writes.
#[unsafe(no_mangle)]
pub extern "C" fn kv_make_seal(alloc: Global, handle: &mut Handle) -> u64
    ensures sealed { result ≡ 0 → Steps Seal Sealed handle.old.slot.held handle.new.slot.held }
    ensures made { result ≡ 38 → Makes (MakesAct Seal Sealed ASeal) handle.old.slot.held handle.new.slot.held }
    ensures code { IsTrue (holds_bucket handle.old.slot.held) → ¬ (result ≡ 1) → ¬ (result ≡ 22) → ¬ (result ≡ 38) →
        result ≡ 0 }
    ensures refused { ¬ (result ≡ 0) → ¬ (result ≡ 38) → handle.new.slot.held ≡ handle.old.slot.held }
    ensures fault { result ≡ 22 → stopped_in handle.old.slot.held ≡ true }
    ensures stopped { stopped_in handle.old.slot.held ≡ true → result ≡ 22 }
    ensures closed { IsFalse (holds_bucket handle.old.slot.held) → result ≡ 32 }
{
    let Some(mut content) = handle.take(alloc) else {
        return CLOSED;
    };
    let done = seal_in(alloc, &mut content);
    handle.put(content);
    done
}
