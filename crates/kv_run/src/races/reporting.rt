//! The text of what a race answers.

ghost use Rattle.std.specs.Prelude.{◌≡◌, ◌++◌, OnOk, IfErr, map};
ghost use Rattle.kv_keys.specs.declared.error.KvError.TheVariants.{OutOfMemory};
ghost use Rattle.kv_single.specs.Replies.{answer_of};
ghost use Rattle.kv_script.specs.Answered.{taken_text};
ghost use Rattle.kv_run.specs.Reporting.{replies_text, reply_text, seen_text};

use kv_keys::KvError;
use kv_script::{
    Form, append_empty, append_marker, append_refusal, append_taken_entry, append_told,
    append_worker_refusal,
};
use kv_single::{Reply, Seen};
use std::alloc::Global;

fn append_reply(
    alloc: Global,
    out: &mut Vec<u8>,
    worker: u64,
    reply: &Result<u64, KvError>,
) -> Result<(), KvError>
    ensures ok { OnOk result (out.new.items ≡ out.old.items ++ reply_text worker reply.now) }
    ensures err { IfErr result (λ e. e ≡ OutOfMemory) }
{
    match reply {
        Ok(revision) => append_told(alloc, out, worker, *revision)?,
        Err(error) => append_worker_refusal(alloc, out, worker, *error)?,
    }
    Ok(())
}

/// Appends the replies to a worker, in order. Workers count from 1. After want of memory some lines were appended.
pub fn append_replies(
    alloc: Global,
    out: &mut Vec<u8>,
    worker: u64,
    replies: &[Result<u64, KvError>],
) -> Result<(), KvError>
    ensures ok { OnOk result (out.new.items ≡ out.old.items ++ replies_text worker replies.now) }
    ensures err { IfErr result (λ e. e ≡ OutOfMemory) }
{
    for n in 0..replies.len() {
        append_reply(alloc, out, worker, &replies[n])?;
    }
    Ok(())
}

fn append_entry(
    alloc: Global,
    form: Form,
    out: &mut Vec<u8>,
    watch: u64,
    seen: &Seen,
) -> Result<(), KvError>
    ensures ok { OnOk result (out.new.items ≡ out.old.items ++ taken_text form watch
        (answer_of (Reply.Entry seen.now))) }
    ensures err { IfErr result (λ e. e ≡ OutOfMemory) }
{
    let value = match &seen.value {
        Some(value) => Some(value.as_slice()),
        None => None,
    };
    append_taken_entry(
        alloc,
        form,
        out,
        watch,
        &seen.key,
        seen.op,
        seen.revision,
        seen.size,
        value,
    )?;
    Ok(())
}

// An answer that is no item has no line.
fn append_item(
    alloc: Global,
    form: Form,
    out: &mut Vec<u8>,
    watch: u64,
    item: &Reply,
) -> Result<(), KvError>
    ensures ok { OnOk result (out.new.items ≡ out.old.items ++ taken_text form watch (answer_of item.now)) }
    ensures err { IfErr result (λ e. e ≡ OutOfMemory) }
{
    match item {
        Reply::Entry(seen) => append_entry(alloc, form, out, watch, seen)?,
        Reply::Marker => append_marker(alloc, out, watch)?,
        Reply::Empty => append_empty(alloc, out, watch)?,
        Reply::Refused(error) => append_refusal(alloc, out, *error)?,
        _ => {}
    }
    Ok(())
}

/// Appends what a watch handed out, in order. Watches count from 1. After want of memory some lines were appended.
pub fn append_seen(
    alloc: Global,
    form: Form,
    out: &mut Vec<u8>,
    watch: u64,
    seen: &[Reply],
) -> Result<(), KvError>
    ensures ok { OnOk result (out.new.items ≡ out.old.items ++ seen_text form watch (map answer_of seen.now)) }
    ensures err { IfErr result (λ e. e ≡ OutOfMemory) }
{
    for n in 0..seen.len() {
        append_item(alloc, form, out, watch, &seen[n])?;
    }
    Ok(())
}
