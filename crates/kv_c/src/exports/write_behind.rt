//! The function that C calls to make a write behind calls that wait for the shell, so that all of them are written and synced
//! at once.

ghost use Rattle.std.specs.Prelude.{◌≡◌, true, false, Err, Some};
ghost use Rattle.kv_c.specs.Calling.{IsAsked};
ghost use Rattle.kv_c.specs.Chaining.{AddsAsked, MakesMore, WaitsAt, WritesBehind, asked_by, stopped_behind, takes_more, takes_more_in};
ghost use Rattle.kv_c.specs.Codes.{accepted, code_by, outcome, stopped_code};
ghost use Rattle.kv_c.specs.Filing.{is_stopped};
ghost use Rattle.kv_c.specs.Waiting.{bucket_behind};
ghost use Rattle.kv_keys.specs.declared.error.KvError.TheVariants.{WrongLastRevision};
ghost use Rattle.kv_model.specs.Acceptance.{accept};
ghost use Rattle.kv_model.specs.Requests.{Asked, asked};
ghost use Rattle.kv_model.specs.State.{State};
ghost use Rattle.kv_single.specs.Held.{Represents};

use crate::codes::{CLOSED, FILE_FAULT, MADE, refuse_write};
use crate::content::Content;
use crate::handle::Handle;
use crate::made::Made;
use crate::request;
use kv_durable::DurableError;
use kv_single::{KvError, Request};
use std::alloc::Global;

// The write that C asks for.
fn request_by(
    alloc: Global,
    kind: u32,
    key: &[u8],
    value: &[u8],
    has_last: bool,
    last: u64,
) -> Result<Request, KvError>
    ensures { IsAsked (asked_by kind key.now value.now has_last last) result }
{
    match kind {
        0 => request::put(alloc, key, value),
        1 => request::create(alloc, key, value),
        2 => request::update(alloc, key, value, last),
        3 => request::delete(alloc, key, has_last, last),
        _ => request::purge(alloc, key, has_last, last),
    }
}

// Makes a write behind what waits, and hands out its revision; where the key's last revision is another one, that.
#[tactic(auto, using(crate::proofs::Refusing::code_from, crate::proofs::Refusing::code_memory, crate::proofs::Refusing::no_fault, crate::proofs::Refusing::not_made), unfolding(crate::specs::Codes::outcome))]
fn write_behind(made: &mut Made, request: &Request, revision: &mut u64) -> u64
    requires { takes_more made.old ≡ true }
    ensures made { result ≡ 38 → MakesMore request.now made.old revision.new made.new }
    ensures code { (state : State) → Represents state (bucket_behind made.old) → ¬ (result ≡ 1) → ¬ (result ≡ 22) →
        ¬ (result ≡ 38) → result ≡ code_by accepted (accept state.config (asked request.now) state.acts) }
    ensures last { result ≡ 11 → (state : State) → Represents state (bucket_behind made.old) →
        accept state.config (asked request.now) state.acts ≡ Err (WrongLastRevision revision.new) }
    ensures untold { ¬ (result ≡ 38) → ¬ (result ≡ 11) → revision.new ≡ revision.old }
    ensures refused { ¬ (result ≡ 38) → made.new ≡ made.old }
    ensures fault { result ≡ 22 → is_stopped made.old.filed ≡ true }
    ensures stopped { is_stopped made.old.filed ≡ true → result ≡ 22 }
{
    match made.make_behind(request) {
        Ok(given) => {
            *revision = given;
            MADE
        }
        Err(DurableError::Refused(refusal)) => refuse_write(refusal, revision),
        Err(_) => FILE_FAULT,
    }
}

// The same, where the request was read, and what waits takes writes behind it.
#[tactic(auto, using(crate::proofs::Refusing::no_fault, crate::proofs::Refusing::not_made), unfolding(crate::specs::Codes::outcome))]
fn write_in(content: &mut Content, request: Result<Request, KvError>, revision: &mut u64) -> u64
    ensures made { result ≡ 38 → (what : Asked) → IsAsked what request → AddsAsked what (Some content.old) revision.new (Some content.new) }
    ensures code { (what : Asked) → IsAsked what request → (state : State) → WaitsAt state (Some content.old) →
        takes_more_in (Some content.old) ≡ true → ¬ (result ≡ 1) → ¬ (result ≡ 22) → ¬ (result ≡ 38) →
        result ≡ code_by accepted (outcome what state) }
    ensures last { result ≡ 11 → (what : Asked) → IsAsked what request → (state : State) → WaitsAt state (Some content.old) →
        outcome what state ≡ Err (WrongLastRevision revision.new) }
    ensures untold { ¬ (result ≡ 38) → ¬ (result ≡ 11) → revision.new ≡ revision.old }
    ensures refused { ¬ (result ≡ 38) → content.new ≡ content.old }
    ensures fault { result ≡ 22 → stopped_behind (Some content.old) ≡ true }
    ensures stopped { (what : Asked) → IsAsked what request → stopped_behind (Some content.old) ≡ true →
        takes_more_in (Some content.old) ≡ true → ¬ (result ≡ 1) → result ≡ stopped_code what }
    ensures closed { takes_more_in (Some content.old) ≡ false → result ≡ 32 }
{
    match content {
        Content::Made(made, _) => {
            if !made.takes_more() {
                return CLOSED;
            }
            match request {
                Ok(request) => write_behind(made, &request, revision),
                Err(refusal) => refusal.code(),
            }
        }
        Content::Bucket(..) | Content::View(..) | Content::Feed(..) | Content::Batch(_) => CLOSED,
    }
}

fn write(
    alloc: Global,
    handle: &mut Handle,
    request: Result<Request, KvError>,
    revision: &mut u64,
) -> u64
    ensures { (what : Asked) → IsAsked what request →
        WritesBehind what handle.old.slot.held revision.old result revision.new handle.new.slot.held }
{
    let Some(mut content) = handle.take(alloc) else {
        return CLOSED;
    };
    let done = write_in(&mut content, request, revision);
    handle.put(content);
    done
}

/// Makes a write behind the calls that wait for the shell: a put, where `kind` is 0, 1 a create, 2 an update, 3 a delete, else a
/// purge. It is judged behind them. Its revision is handed out at once, and may be told when all that waits is settled: then
/// each of these writes was done, one behind the other; where it is given up, none of them was.
///
/// What waits takes writes behind it only where it is synced at once, and nothing was loose before it. So the one sync behind
/// them all promises no less than one behind each of them.
#[unsafe(no_mangle)]
pub extern "C" fn kv_make_more(
    alloc: Global,
    handle: &mut Handle,
    kind: u32,
    key: &[u8],
    value: &[u8],
    has_last: bool,
    last: u64,
    revision: &mut u64,
) -> u64
    ensures { WritesBehind (asked_by kind key.now value.now has_last last) handle.old.slot.held revision.old result revision.new handle.new.slot.held }
{
    let request = request_by(alloc, kind, key, value, has_last, last);
    write(alloc, handle, request, revision)
}
