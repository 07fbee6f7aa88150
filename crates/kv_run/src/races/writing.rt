//! Writes what a race answered.

ghost use Rattle.std.specs.Prelude.{map, OnOk, OnErr, IfErr, IsErrOf};
ghost use Rattle.std.specs.Io.KnownBytes.{Appends};
ghost use Rattle.kv_single.specs.Replies.{answer_of};
ghost use Rattle.kv_run.specs.Reporting.{numbered, replies_text, report_text, seen_text};
ghost use Rattle.kv_replay.specs.Faults.{IsWriteOrMemory};
ghost use Rattle.kv_replay.specs.inside.Written.{Puts};

use crate::races::reporting::{append_replies, append_seen};
use kv_keys::KvError;
use kv_race::Report;
use kv_replay::Output;
use kv_script::Form;
use kv_single::Reply;
use std::alloc::Global;

/// Writes the replies, worker by worker.
fn write_replies<K: Output>(
    alloc: Global,
    replies: &[Vec<Result<u64, KvError>>],
    sink: &mut K,
) -> Result<(), KvError>
    ensures same { K.goes_on sink.old sink.new }
    ensures ok { OnOk result (Appends (K.held sink.old) (K.held sink.new) (numbered replies_text 1 (map
        (λ some. some.items) replies.now))) }
    ensures err { OnErr result (Puts (numbered replies_text 1 (map
        (λ some. some.items) replies.now)) (K.held sink.old) (K.held sink.new)) }
    ensures failed { IsErrOf result KvError.WriteFault → K.failed_between sink.old sink.new }
    ensures fault { IfErr result IsWriteOrMemory }
{
    for n in 0..replies.len() {
        let mut out = Vec::new(alloc);
        append_replies(alloc, &mut out, n as u64 + 1, &replies[n])?;
        sink.write(&out)?;
    }
    Ok(())
}

/// Writes what was handed out, watch by watch.
fn write_seen<K: Output>(
    alloc: Global,
    form: Form,
    seen: &[Vec<Reply>],
    sink: &mut K,
) -> Result<(), KvError>
    ensures same { K.goes_on sink.old sink.new }
    ensures ok { OnOk result (Appends (K.held sink.old) (K.held sink.new) (numbered (seen_text form) 1 (map
        (λ some. map answer_of some.items) seen.now))) }
    ensures err { OnErr result (Puts (numbered (seen_text form) 1 (map
        (λ some. map answer_of some.items) seen.now)) (K.held sink.old) (K.held sink.new)) }
    ensures failed { IsErrOf result KvError.WriteFault → K.failed_between sink.old sink.new }
    ensures fault { IfErr result IsWriteOrMemory }
{
    for n in 0..seen.len() {
        let mut out = Vec::new(alloc);
        append_seen(alloc, form, &mut out, n as u64 + 1, &seen[n])?;
        sink.write(&out)?;
    }
    Ok(())
}

/// Writes what a race answered: the replies, and then what was handed out.
pub(crate) fn write_report<K: Output>(
    alloc: Global,
    form: Form,
    report: &Report,
    sink: &mut K,
) -> Result<(), KvError>
    ensures same { K.goes_on sink.old sink.new }
    ensures ok { OnOk result (Appends (K.held sink.old) (K.held sink.new)
        (report_text form (map (λ some. some.items) report.now.replies.items) (map
        (λ some. map answer_of some.items) report.now.seen.items))) }
    ensures err { OnErr result (Puts (report_text form (map (λ some. some.items) report.now.replies.items) (map
        (λ some. map answer_of some.items) report.now.seen.items))
        (K.held sink.old) (K.held sink.new)) }
    ensures failed { IsErrOf result KvError.WriteFault → K.failed_between sink.old sink.new }
    ensures fault { IfErr result IsWriteOrMemory }
{
    write_replies(alloc, &report.replies, sink)?;
    write_seen(alloc, form, &report.seen, sink)
}
