//! The functions by which the shell opens the bucket of a file, and does what a call on one needs.

ghost use Rattle.std.specs.Prelude.{◌≡◌, [], true, Err, Ok, Some, None, IfErr, IfOk, IsFalse, IsTrue, OnOk, is_some, length};
ghost use Rattle.kv_c.specs.Calling.{configured, holds_bucket, opening_of, sync_asked};
ghost use Rattle.kv_c.specs.Codes.{IsOfFile, IsOpeningCode};
ghost use Rattle.kv_c.specs.Making.{AreOfAnother, GivesUp, IsFound, IsLent, IsOpened, Makes, MakesEnd, MakesSync, OpensFile, Settles, ShowDamage, is_filed, number_in, stopped_in, waits_in};
ghost use Rattle.kv_durable.specs.Refusals.{IsDamaged};
ghost use Rattle.kv_durable.specs.declared.error.DurableError.TheVariants.{OtherBucket, Refused};
ghost use Rattle.kv_journal.specs.Header.{beginning};
ghost use Rattle.kv_keys.specs.declared.error.KvError.{KvError as AnError};
ghost use Rattle.kv_keys.specs.declared.error.KvError.TheVariants.{OutOfMemory};
ghost use Rattle.kv_model.specs.Configuration.{IsLegal, configure};

use crate::batch::Batch;
use crate::codes::{CLOSED, FILE_FAULT, MADE, OPEN_ALREADY, refuse_opening};
use crate::content::Content;
use crate::filed::Filed;
use crate::handle::Handle;
use crate::made::{Lent, Made};
use crate::outbox::Outbox;
use crate::ready::ready_end;
use crate::request::{Limits, config_of};
use crate::ringed::Ringed;
use kv_durable::{Durable, DurableError, Opened, Sync};
use kv_frames::Framing;
use kv_journal::push_beginning;
use kv_single::{Config, KvError};
use std::alloc::Global;
use std::mem;

// When what is accepted is brought onto the disk: 0 where it is asked for, 1 each time, else every so many times.
fn sync_of(sync: u64) -> Sync
    ensures { result ≡ sync_asked sync }
{
    match sync {
        0 => Sync::Asked,
        1 => Sync::Each,
        n => Sync::Every(n),
    }
}

// The configuration, where it is legal.
fn legal(alloc: Global, name: &[u8], limits: &Limits) -> Result<Config, KvError>
    ensures ok { IfOk result (λ config. config ≡ configured name.now limits.now) }
    ensures err { IfErr result (λ e. ¬ (e ≡ OutOfMemory) → configure (configured name.now limits.now) ≡ Err e) }
    ensures legal { OnOk result (configure (configured name.now limits.now) ≡ Ok (configured name.now limits.now)) }
{
    let config = config_of(alloc, name, limits)?;
    config.check()?;
    Ok(config)
}

// What the file of a new bucket begins with; of one that has bytes, nothing.
fn first_bytes(
    alloc: Global,
    config: &Config,
    seed: u64,
    found: &[u8],
) -> Result<Vec<u8>, DurableError>
    requires { IsLegal config.now }
    ensures new { IfOk result (λ v. found.now ≡ [] → v.items ≡ beginning seed config.now) }
    ensures old { IfOk result (λ v. (found.now ≡ [] → ⊥) → v.items ≡ []) }
    ensures err { IfErr result (λ e. e ≡ Refused OutOfMemory) }
{
    let mut bytes = Vec::new(alloc);
    if found.is_empty() {
        push_beginning(alloc, &mut bytes, &Framing::new(seed), config)?;
    }
    Ok(bytes)
}

// Opens the bucket of a file that has these bytes.
fn opened_of(
    alloc: Global,
    bytes: &[u8],
    config: &Config,
    seed: u64,
    sync: u64,
) -> Result<Opened<Outbox>, DurableError>
    ensures ok { IfOk result (λ o. IsFound config.now (sync_asked sync) seed bytes.now o) }
    ensures err { IfErr result (λ e. (x : AnError) → e ≡ Refused x → ¬ (x ≡ OutOfMemory) → configure config.now ≡ Err x) }
    ensures damaged { IfErr result (λ e. IsDamaged e → ShowDamage config.now bytes.now) }
    ensures other { IfErr result (λ e. e ≡ OtherBucket → AreOfAnother config.now bytes.now) }
{
    let found = Vec::from_slice(alloc, bytes)?;
    match Durable::open(alloc, config, Outbox::of(found), &(), seed, sync_of(sync)) {
        Ok(opened) => Ok(opened),
        Err(refused) => Err(refused.error),
    }
}

// What waits for the shell when the bucket of a file is opened, and how many bytes of a torn end it cuts off.
fn opening_of_file(
    alloc: Global,
    bytes: &[u8],
    config: &Config,
    seed: u64,
    sync: u64,
    number: u64,
) -> Result<(Made, u64), DurableError>
    requires { IsLegal config.now }
    ensures ok { IfOk result (λ o. IsOpened config.now (sync_asked sync) seed number bytes.now o.1 o.0) }
    ensures err { IfErr result (λ e. (x : AnError) → e ≡ Refused x → ¬ (x ≡ OutOfMemory) → configure config.now ≡ Err x) }
    ensures damaged { IfErr result (λ e. IsDamaged e → ShowDamage config.now bytes.now) }
    ensures other { IfErr result (λ e. e ≡ OtherBucket → AreOfAnother config.now bytes.now) }
{
    let first = first_bytes(alloc, config, seed, bytes)?;
    let opened = opened_of(alloc, bytes, config, seed, sync)?;
    let dropped = opened.dropped;
    let (bucket, journal) = opened.durable.into_parts();
    match Box::new(alloc, journal) {
        Ok(journal) => {
            let filed = Filed {
                journal,
                number,
                has_failed: false,
            };
            Ok((Made::opened(Ringed::new(bucket), filed, first), dropped))
        }
        Err(_) => Err(DurableError::Refused(KvError::OutOfMemory)),
    }
}

// The same, in a box of its own. A configuration that is none is refused first.
fn open_file(
    alloc: Global,
    bytes: &[u8],
    name: &[u8],
    limits: &Limits,
    seed: u64,
    sync: u64,
    number: u64,
    opening: u64,
) -> Result<(Box<Content>, u64), DurableError>
    ensures ok { IfOk result (λ o. OpensFile (configured name.now limits.now) (sync_asked sync) seed number bytes.now o.1 (Some o.0.value)) }
    ensures opening { IfOk result (λ o. opening_of (Some o.0.value) ≡ Some opening) }
    ensures err { IfErr result (λ e. (x : AnError) → e ≡ Refused x → ¬ (x ≡ OutOfMemory) →
        configure (configured name.now limits.now) ≡ Err x) }
    ensures legal { OnOk result (configure (configured name.now limits.now) ≡ Ok (configured name.now limits.now)) }
    ensures touched { IfErr result (λ e. IsOfFile e →
        configure (configured name.now limits.now) ≡ Ok (configured name.now limits.now)) }
    ensures damaged { IfErr result (λ e. IsDamaged e → ShowDamage (configured name.now limits.now) bytes.now) }
    ensures other { IfErr result (λ e. e ≡ OtherBucket → AreOfAnother (configured name.now limits.now) bytes.now) }
{
    let config = legal(alloc, name, limits)?;
    let (made, dropped) = opening_of_file(alloc, bytes, &config, seed, sync, number)?;
    match Box::new(alloc, Content::Made(made, opening)) {
        Ok(content) => Ok((content, dropped)),
        Err(_) => Err(DurableError::Refused(KvError::OutOfMemory)),
    }
}

/// Opens the bucket of a file that has these bytes, under the number of an opening as `kv_open_as` does; of no bytes it is that of
/// a new bucket, with this seed. It waits for the shell: what a new file begins with is to be written, and else what stands behind
/// the offset is to be cut off, which a crash had left: so many bytes are handed out. Where the file is refused as damaged, the
/// offset is handed out up to which its bytes are good.
///
/// With `sync` 1 each act is on the disk when its call answers, with 0 what was accepted when `kv_sync` or `kv_close` does,
/// else each of so many acts.
#[unsafe(no_mangle)]
#[tactic(auto, using(crate::proofs::Refusing::opening_code, crate::proofs::Refusing::opened_code, crate::proofs::Refusing::damaged_code, crate::proofs::Refusing::other_code))]
pub extern "C" fn kv_open_bytes_as(
    alloc: Global,
    handle: &mut Handle,
    bytes: &[u8],
    name: &[u8],
    limits: &Limits,
    seed: u64,
    sync: u64,
    number: u64,
    opening: u64,
    dropped: &mut u64,
    at: &mut u64,
) -> u64
    ensures opened { result ≡ 38 → OpensFile (configured name.now limits.now) (sync_asked sync) seed number bytes.now dropped.new
        handle.new.slot.held }
    ensures opening { result ≡ 38 → opening_of handle.new.slot.held ≡ Some opening }
    ensures code { handle.old.slot.held ≡ None → ¬ (result ≡ 1) →
        IsOpeningCode result (configure (configured name.now limits.now)) }
    ensures refused { ¬ (result ≡ 38) → handle.new.slot.held ≡ handle.old.slot.held }
    ensures untold { ¬ (result ≡ 38) → dropped.new ≡ dropped.old }
    ensures offset_untold { ¬ (result ≡ 23) → at.new ≡ at.old }
    ensures open_already { IsTrue (is_some handle.old.slot.held) → result ≡ 34 }
    ensures damaged { result ≡ 23 → ShowDamage (configured name.now limits.now) bytes.now }
    ensures other { result ≡ 25 → AreOfAnother (configured name.now limits.now) bytes.now }
{
    if handle.is_open() {
        return OPEN_ALREADY;
    }
    match open_file(alloc, bytes, name, limits, seed, sync, number, opening) {
        Ok((content, cut)) => {
            *dropped = cut;
            handle.put(content);
            MADE
        }
        Err(refusal) => refuse_opening(refusal, at),
    }
}

fn lend_from(content: &Content, from: usize, room: &mut [u8], lent: &mut Lent) -> u64
    ensures lent { result ≡ 0 → IsLent (Some content.now) from (length room.old) lent.new room.new }
    ensures code { IsTrue (waits_in (Some content.now)) → result ≡ 0 }
    ensures closed { IsFalse (waits_in (Some content.now)) → result ≡ 32 }
{
    match content {
        Content::Made(made, _) => {
            *lent = made.lent(from, room);
            0
        }
        Content::Bucket(..) | Content::View(..) | Content::Feed(..) | Content::Batch(_) => CLOSED,
    }
}

/// Lends the shell what it is to write for the call that waits: the bytes from this one on are copied, as many as there is room
/// for.
#[unsafe(no_mangle)]
pub extern "C" fn kv_lend(
    alloc: Global,
    handle: &mut Handle,
    from: usize,
    room: &mut [u8],
    lent: &mut Lent,
) -> u64
    ensures lent { result ≡ 0 → IsLent handle.old.slot.held from (length room.old) lent.new room.new }
    ensures unchanged { handle.new.slot.held ≡ handle.old.slot.held }
    ensures code { IsTrue (waits_in handle.old.slot.held) → result ≡ 0 }
    ensures closed { IsFalse (waits_in handle.old.slot.held) → result ≡ 32 }
{
    let Some(content) = handle.take(alloc) else {
        return CLOSED;
    };
    let done = lend_from(&content, from, room, lent);
    handle.put(content);
    done
}

fn settle(alloc: Global, content: &mut Content, number: &mut u64) -> u64
    ensures settled { result ≡ 0 → Settles (Some content.old) number.new (Some content.new) }
    ensures refused { ¬ (result ≡ 0) → content.new ≡ content.old }
    ensures untold { ¬ (result ≡ 0) → number.new ≡ number.old }
    ensures code { IsTrue (waits_in (Some content.old)) → result ≡ 0 }
    ensures closed { IsFalse (waits_in (Some content.old)) → result ≡ 32 }
{
    match mem::replace(content, Content::Batch(Batch::empty(alloc))) {
        Content::Made(made, opening) => {
            let (bucket, filed, told) = made.settle();
            *number = told;
            *content = Content::Bucket(bucket, Some(filed), opening);
            0
        }
        other => {
            *content = other;
            CLOSED
        }
    }
}

/// Settles the call that waits: the shell has written what it was lent, and synced as it was asked to. The bucket is as the call
/// leaves it, and the number is handed out that the call answers.
#[unsafe(no_mangle)]
pub extern "C" fn kv_settle(alloc: Global, handle: &mut Handle, number: &mut u64) -> u64
    ensures settled { result ≡ 0 → Settles handle.old.slot.held number.new handle.new.slot.held }
    ensures refused { ¬ (result ≡ 0) → handle.new.slot.held ≡ handle.old.slot.held }
    ensures untold { ¬ (result ≡ 0) → number.new ≡ number.old }
    ensures code { IsTrue (waits_in handle.old.slot.held) → result ≡ 0 }
    ensures closed { IsFalse (waits_in handle.old.slot.held) → result ≡ 32 }
{
    let Some(mut content) = handle.take(alloc) else {
        return CLOSED;
    };
    let done = settle(alloc, &mut content, number);
    handle.put(content);
    done
}

fn give_up(alloc: Global, content: &mut Content) -> u64
    ensures given_up { result ≡ 0 → GivesUp (Some content.old) (Some content.new) }
    ensures refused { ¬ (result ≡ 0) → content.new ≡ content.old }
    ensures code { IsTrue (waits_in (Some content.old)) → result ≡ 0 }
    ensures closed { IsFalse (waits_in (Some content.old)) → result ≡ 32 }
{
    match mem::replace(content, Content::Batch(Batch::empty(alloc))) {
        Content::Made(made, opening) => {
            let (bucket, filed) = made.give_up();
            *content = Content::Bucket(bucket, Some(filed), opening);
            0
        }
        other => {
            *content = other;
            CLOSED
        }
    }
}

/// Gives the call that waits up: the shell has failed to write what it was lent, or to sync. The bucket is as it was before the
/// call, and nothing more is added to its file: each further write, seal, compaction and sync is refused as a fault of the file.
#[unsafe(no_mangle)]
pub extern "C" fn kv_give_up(alloc: Global, handle: &mut Handle) -> u64
    ensures given_up { result ≡ 0 → GivesUp handle.old.slot.held handle.new.slot.held }
    ensures refused { ¬ (result ≡ 0) → handle.new.slot.held ≡ handle.old.slot.held }
    ensures code { IsTrue (waits_in handle.old.slot.held) → result ≡ 0 }
    ensures closed { IsFalse (waits_in handle.old.slot.held) → result ≡ 32 }
{
    let Some(mut content) = handle.take(alloc) else {
        return CLOSED;
    };
    let done = give_up(alloc, &mut content);
    handle.put(content);
    done
}

fn number_of(content: &Content, number: &mut u64) -> u64
    ensures told { result ≡ 0 → number_in (Some content.now) ≡ Some number.new }
    ensures untold { ¬ (result ≡ 0) → (result ≡ 32) × (number.new ≡ number.old) × (number_in (Some content.now) ≡ None) }
{
    match content {
        Content::Bucket(_, Some(filed), _) => {
            *number = filed.number;
            0
        }
        Content::Made(made, _) => {
            *number = made.number();
            0
        }
        Content::Bucket(_, None, _) | Content::View(..) | Content::Feed(..) | Content::Batch(_) =>
            CLOSED,
    }
}

/// Tells the number that the shell gave the file of a bucket.
#[unsafe(no_mangle)]
pub extern "C" fn kv_file_of(alloc: Global, handle: &mut Handle, number: &mut u64) -> u64
    ensures told { result ≡ 0 → number_in handle.old.slot.held ≡ Some number.new }
    ensures untold { ¬ (result ≡ 0) → (result ≡ 32) × (number.new ≡ number.old) × (number_in handle.old.slot.held ≡ None) }
    ensures unchanged { handle.new.slot.held ≡ handle.old.slot.held }
{
    let Some(content) = handle.take(alloc) else {
        return CLOSED;
    };
    let done = number_of(&content, number);
    handle.put(content);
    done
}

fn sync_in(alloc: Global, content: &mut Content) -> u64
    ensures made { result ≡ 38 → Makes MakesSync (Some content.old) (Some content.new) }
    ensures code { IsTrue (holds_bucket (Some content.old)) → ¬ (result ≡ 22) → ¬ (result ≡ 38) → result ≡ 0 }
    ensures refused { ¬ (result ≡ 38) → content.new ≡ content.old }
    ensures fault { result ≡ 22 → stopped_in (Some content.old) ≡ true }
    ensures stopped { stopped_in (Some content.old) ≡ true → result ≡ 22 }
    ensures closed { IsFalse (holds_bucket (Some content.old)) → result ≡ 32 }
{
    match content {
        Content::Bucket(_, None, _) => 0,
        Content::Bucket(_, Some(filed), _) => match filed.may_add() {
            Ok(()) => {
                content.make_sync(alloc);
                MADE
            }
            Err(_) => FILE_FAULT,
        },
        Content::View(..) | Content::Feed(..) | Content::Batch(_) | Content::Made(..) => CLOSED,
    }
}

/// Has all that a bucket has accepted brought onto the disk, where it has a file.
#[unsafe(no_mangle)]
pub extern "C" fn kv_make_sync(alloc: Global, handle: &mut Handle) -> u64
    ensures made { result ≡ 38 → Makes MakesSync handle.old.slot.held handle.new.slot.held }
    ensures code { IsTrue (holds_bucket handle.old.slot.held) → ¬ (result ≡ 22) → ¬ (result ≡ 38) → result ≡ 0 }
    ensures refused { ¬ (result ≡ 38) → handle.new.slot.held ≡ handle.old.slot.held }
    ensures fault { result ≡ 22 → stopped_in handle.old.slot.held ≡ true }
    ensures stopped { stopped_in handle.old.slot.held ≡ true → result ≡ 22 }
    ensures closed { IsFalse (holds_bucket handle.old.slot.held) → result ≡ 32 }
{
    let Some(mut content) = handle.take(alloc) else {
        return CLOSED;
    };
    let done = sync_in(alloc, &mut content);
    handle.put(content);
    done
}

fn make_end(alloc: Global, content: &mut Content) -> u64
    requires { IsTrue (is_filed content.old) }
    ensures made { result ≡ 38 → Makes MakesEnd (Some content.old) (Some content.new) }
    ensures code { ¬ (result ≡ 1) → ¬ (result ≡ 22) → result ≡ 38 }
    ensures refused { ¬ (result ≡ 38) → content.new ≡ content.old }
    ensures fault { result ≡ 22 → stopped_in (Some content.old) ≡ true }
    ensures stopped { stopped_in (Some content.old) ≡ true → result ≡ 22 }
{
    let Some((bucket, filed)) = content.with_file() else {
        return CLOSED;
    };
    match ready_end(bucket, filed) {
        Ok(frame) => {
            content.make_end(alloc, frame);
            MADE
        }
        Err(DurableError::Refused(refusal)) => refusal.code(),
        Err(_) => FILE_FAULT,
    }
}

fn end_in(alloc: Global, content: &mut Content) -> u64
    ensures made { result ≡ 38 → Makes MakesEnd (Some content.old) (Some content.new) }
    ensures code { IsTrue (holds_bucket (Some content.old)) → ¬ (result ≡ 1) → ¬ (result ≡ 22) → ¬ (result ≡ 38) → result ≡ 0 }
    ensures refused { ¬ (result ≡ 38) → content.new ≡ content.old }
    ensures fault { result ≡ 22 → stopped_in (Some content.old) ≡ true }
    ensures stopped { stopped_in (Some content.old) ≡ true → result ≡ 22 }
    ensures closed { IsFalse (holds_bucket (Some content.old)) → result ≡ 32 }
{
    match content {
        Content::Bucket(_, None, _) => 0,
        Content::Bucket(_, Some(_), _) => make_end(alloc, content),
        Content::View(..) | Content::Feed(..) | Content::Batch(_) | Content::Made(..) => CLOSED,
    }
}

/// Has it written that the file of a bucket ends cleanly, and all brought onto the disk. Behind a clean end a damaged end of
/// the file is told from a torn one.
#[unsafe(no_mangle)]
pub extern "C" fn kv_make_end(alloc: Global, handle: &mut Handle) -> u64
    ensures made { result ≡ 38 → Makes MakesEnd handle.old.slot.held handle.new.slot.held }
    ensures code { IsTrue (holds_bucket handle.old.slot.held) → ¬ (result ≡ 1) → ¬ (result ≡ 22) → ¬ (result ≡ 38) → result ≡ 0 }
    ensures refused { ¬ (result ≡ 38) → handle.new.slot.held ≡ handle.old.slot.held }
    ensures fault { result ≡ 22 → stopped_in handle.old.slot.held ≡ true }
    ensures stopped { stopped_in handle.old.slot.held ≡ true → result ≡ 22 }
    ensures closed { IsFalse (holds_bucket handle.old.slot.held) → result ≡ 32 }
{
    let Some(mut content) = handle.take(alloc) else {
        return CLOSED;
    };
    let done = end_in(alloc, &mut content);
    handle.put(content);
    done
}
