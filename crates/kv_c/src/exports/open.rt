//! The functions that C calls to open and to close what a handle holds.

ghost use Rattle.std.specs.Prelude.{◌≡◌, Err, Some, None, IfErr, IfOk, is_some, IsTrue};
ghost use Rattle.kv_single.specs.Held.{Bucketed, Represents};
ghost use Rattle.kv_c.specs.Calling.{StandsAt, configured, opening_of};
ghost use Rattle.kv_c.specs.Codes.{accepted, code_by};
ghost use Rattle.kv_keys.specs.declared.error.KvError.TheVariants.{OutOfMemory};
ghost use Rattle.kv_model.specs.Configuration.{configure};
ghost use Rattle.kv_model.specs.State.{empty};

use crate::codes::OPEN_ALREADY;
use crate::content::Content;
use crate::handle::Handle;
use crate::request::{Limits, config_of};
use crate::ringed::Ringed;
use kv_single::{Bucket, KvError};
use std::alloc::Global;

// A bucket of this name, in a box of its own.
#[tactic(auto, using(crate::proofs::Refusing::configured_or))]
fn open(alloc: Global, name: &[u8], limits: &Limits, opening: u64) -> Result<Box<Content>, KvError>
    ensures ok { IfOk result (λ b. StandsAt (empty (configured name.now limits.now)) (Some b.value)) }
    ensures opening { IfOk result (λ b. opening_of (Some b.value) ≡ Some opening) }
    ensures err { IfErr result (λ e. ¬ (e ≡ OutOfMemory) → configure (configured name.now limits.now) ≡ Err e) }
    ensures legal { IfOk result (λ b. code_by accepted (configure (configured name.now limits.now)) ≡ 0) }
{
    let config = config_of(alloc, name, limits)?;
    let bucket = Bucket::open(alloc, &config)?;
    Ok(Box::new(alloc, Content::Bucket(Ringed::new(bucket), None, opening))?)
}

/// Opens a bucket with no writes, under a number: those of two openings are to differ.
#[unsafe(no_mangle)]
pub extern "C" fn kv_open_as(
    alloc: Global,
    handle: &mut Handle,
    name: &[u8],
    limits: &Limits,
    opening: u64,
) -> u64
    ensures opened { result ≡ 0 → StandsAt (empty (configured name.now limits.now)) handle.new.slot.held }
    ensures opening { result ≡ 0 → opening_of handle.new.slot.held ≡ Some opening }
    ensures code { handle.old.slot.held ≡ None → ¬ (result ≡ 1) →
        result ≡ code_by accepted (configure (configured name.now limits.now)) }
    ensures refused { ¬ (result ≡ 0) → handle.new.slot.held ≡ handle.old.slot.held }
    ensures open_already { IsTrue (is_some handle.old.slot.held) → result ≡ 34 }
{
    if handle.is_open() {
        return OPEN_ALREADY;
    }
    match open(alloc, name, limits, opening) {
        Ok(bucket) => {
            handle.put(bucket);
            0
        }
        Err(refusal) => refusal.code(),
    }
}

/// Frees what the handle holds, and closes it. A closed handle stays so. The file of a bucket is left as it is.
#[unsafe(no_mangle)]
pub extern "C" fn kv_free(alloc: Global, handle: &mut Handle)
    ensures { handle.new.slot.held ≡ None }
{
    drop(handle.take(alloc));
}
