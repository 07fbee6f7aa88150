//! The functions by which the shell replaces the file of a bucket by one that has a checkpoint.

ghost use Rattle.std.specs.Prelude.{◌≡◌, true, Err, Some, None, IfErr, IfOk, IsErrOf, IsFalse, IsTrue};
ghost use Rattle.kv_c.specs.Calling.{holds_bucket};
ghost use Rattle.kv_c.specs.Checkpointing.{IsReplacement, KeepsFile, MakesCheckpoint, replaces_in};
ghost use Rattle.kv_c.specs.Filing.{is_stopped};
ghost use Rattle.kv_c.specs.Making.{Makes, is_filed, number_in, stopped_in};
ghost use Rattle.kv_durable.specs.Durables.{IsRefusal};
ghost use Rattle.kv_durable.specs.declared.error.DurableError.TheVariants.{FileFault, Refused};
ghost use Rattle.kv_keys.specs.declared.error.KvError.{KvError as AnError};
ghost use Rattle.kv_keys.specs.declared.error.KvError.TheVariants.{OutOfMemory};

use crate::batch::Batch;
use crate::codes::{CLOSED, FILE_FAULT, MADE};
use crate::content::Content;
use crate::filed::Filed;
use crate::handle::Handle;
use crate::outbox::Outbox;
use kv_durable::DurableError;
use kv_single::{Bucket, KvError};
use std::alloc::Global;
use std::mem;

// What takes the place of the file, and its bytes.
fn ready_checkpoint(
    bucket: &Bucket,
    filed: &Filed,
    seed: u64,
) -> Result<(Filed, Vec<u8>), DurableError>
    ensures ok { IfOk result (λ r. IsReplacement seed bucket.now filed.now r.0 r.1.items) }
    ensures refused { IfErr result (λ e. (x : AnError) → e ≡ Refused x → x ≡ OutOfMemory) }
    ensures fault { IsErrOf result FileFault → is_stopped filed.now ≡ true }
    ensures stopped { is_stopped filed.now ≡ true → result ≡ Err FileFault }
    ensures no_other { IfErr result IsRefusal }
{
    filed.may_add()?;
    let alloc = bucket.alloc();
    let (journal, bytes) = filed
        .journal
        .checkpointed(alloc, Outbox::lent(), seed, bucket.version())?;
    match Box::new(alloc, journal) {
        Ok(journal) => Ok((
            Filed {
                journal,
                number: filed.number,
                has_failed: false,
            },
            bytes,
        )),
        Err(_) => Err(DurableError::Refused(KvError::OutOfMemory)),
    }
}

fn make_checkpoint(alloc: Global, content: &mut Content, seed: u64) -> u64
    requires { IsTrue (is_filed content.old) }
    ensures made { result ≡ 38 → Makes (MakesCheckpoint seed) (Some content.old) (Some content.new) }
    ensures code { ¬ (result ≡ 1) → ¬ (result ≡ 22) → result ≡ 38 }
    ensures refused { ¬ (result ≡ 38) → content.new ≡ content.old }
    ensures fault { result ≡ 22 → stopped_in (Some content.old) ≡ true }
    ensures stopped { stopped_in (Some content.old) ≡ true → result ≡ 22 }
{
    let Some((bucket, filed)) = content.with_file() else {
        return CLOSED;
    };
    match ready_checkpoint(bucket, filed, seed) {
        Ok((next, bytes)) => {
            content.make_checkpoint(alloc, next, bytes);
            MADE
        }
        Err(DurableError::Refused(refusal)) => refusal.code(),
        Err(_) => FILE_FAULT,
    }
}

fn checkpoint_in(alloc: Global, content: &mut Content, seed: u64) -> u64
    ensures made { result ≡ 38 → Makes (MakesCheckpoint seed) (Some content.old) (Some content.new) }
    ensures code { IsTrue (holds_bucket (Some content.old)) → ¬ (result ≡ 1) → ¬ (result ≡ 22) → ¬ (result ≡ 38) → result ≡ 0 }
    ensures nothing { result ≡ 0 → number_in (Some content.old) ≡ None }
    ensures refused { ¬ (result ≡ 38) → content.new ≡ content.old }
    ensures fault { result ≡ 22 → stopped_in (Some content.old) ≡ true }
    ensures stopped { stopped_in (Some content.old) ≡ true → result ≡ 22 }
    ensures closed { IsFalse (holds_bucket (Some content.old)) → result ≡ 32 }
{
    match content {
        Content::Bucket(_, None, _) => 0,
        Content::Bucket(_, Some(_), _) => make_checkpoint(alloc, content, seed),
        Content::View(..) | Content::Feed(..) | Content::Batch(_) | Content::Made(..) => CLOSED,
    }
}

/// Makes the checkpoint of a bucket, where it has a file: the bytes of another file, with this seed, that has what the bucket stores
/// in place of the acts that led to it. The shell writes it beside the old one, brings it onto the disk, and puts it in the place of
/// the old one. Then it settles the call, and the bucket goes on with the new file, under the same number. Where the old one is still
/// in its place, `kv_keep` goes on with that; and where it is not known which of the two is, `kv_give_up` stops.
///
/// Choose the seed at random, and another for each file: a disk can leave blocks of the old file in the new one.
#[unsafe(no_mangle)]
pub extern "C" fn kv_make_checkpoint(alloc: Global, handle: &mut Handle, seed: u64) -> u64
    ensures made { result ≡ 38 → Makes (MakesCheckpoint seed) handle.old.slot.held handle.new.slot.held }
    ensures code { IsTrue (holds_bucket handle.old.slot.held) → ¬ (result ≡ 1) → ¬ (result ≡ 22) → ¬ (result ≡ 38) → result ≡ 0 }
    ensures nothing { result ≡ 0 → number_in handle.old.slot.held ≡ None }
    ensures refused { ¬ (result ≡ 38) → handle.new.slot.held ≡ handle.old.slot.held }
    ensures fault { result ≡ 22 → stopped_in handle.old.slot.held ≡ true }
    ensures stopped { stopped_in handle.old.slot.held ≡ true → result ≡ 22 }
    ensures closed { IsFalse (holds_bucket handle.old.slot.held) → result ≡ 32 }
{
    let Some(mut content) = handle.take(alloc) else {
        return CLOSED;
    };
    let done = checkpoint_in(alloc, &mut content, seed);
    handle.put(content);
    done
}

fn keep(alloc: Global, content: &mut Content) -> u64
    ensures kept { result ≡ 0 → KeepsFile (Some content.old) (Some content.new) }
    ensures refused { ¬ (result ≡ 0) → content.new ≡ content.old }
    ensures code { IsTrue (replaces_in (Some content.old)) → result ≡ 0 }
    ensures closed { IsFalse (replaces_in (Some content.old)) → result ≡ 32 }
{
    match mem::replace(content, Content::Batch(Batch::empty(alloc))) {
        Content::Made(made, opening) => match made.keep() {
            Ok((bucket, filed)) => {
                *content = Content::Bucket(bucket, Some(filed), opening);
                0
            }
            Err(made) => {
                *content = Content::Made(made, opening);
                CLOSED
            }
        },
        other => {
            *content = other;
            CLOSED
        }
    }
}

/// Goes back to the former file, where a checkpoint waits: the shell has not put the new one in its place. The bucket and its file
/// are as they were before the checkpoint was made.
#[unsafe(no_mangle)]
pub extern "C" fn kv_keep(alloc: Global, handle: &mut Handle) -> u64
    ensures kept { result ≡ 0 → KeepsFile handle.old.slot.held handle.new.slot.held }
    ensures refused { ¬ (result ≡ 0) → handle.new.slot.held ≡ handle.old.slot.held }
    ensures code { IsTrue (replaces_in handle.old.slot.held) → result ≡ 0 }
    ensures closed { IsFalse (replaces_in handle.old.slot.held) → result ≡ 32 }
{
    let Some(mut content) = handle.take(alloc) else {
        return CLOSED;
    };
    let done = keep(alloc, &mut content);
    handle.put(content);
    done
}
