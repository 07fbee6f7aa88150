//! The lines of a script that stand for records.

ghost use Rattle.std.specs.Prelude.{◌≡◌, ◌<◌, ◌^◌, ◌++◌, ◌∷◌, [], List, ℕ, Some, None, length, map, codes, decimal, if◌then◌else◌, IfErr, OnOk};
ghost use Rattle.std.specs.List.{AllByRecursion, list_all};
ghost use Rattle.kv_keys.specs.declared.error.KvError.TheVariants.{OutOfMemory};
ghost use Rattle.kv_model.specs.Acts.{Act};
ghost use Rattle.kv_model.specs.Requests.{asked, key_of, op_of, value_of};
ghost use Rattle.kv_journal.specs.Entries.{Entry, payload_of};
ghost use Rattle.kv_journal.specs.Records.{Content, act_record, act_records, record_of};
ghost use Rattle.kv_durable_script.specs.Dumps.{act_line, batch_lines, content_lines, is_write, lines_text, value_word, write_line};
ghost use Rattle.kv_durable_script.specs.inside.Dumpable.{CanDump, CanDumpAct, CanDumpEntry, FitsRecord, IsSingle, said_lines};

use base64::engine::general_purpose::STANDARD;
use kv_journal::{Record, batch_of, loose_of, part_of};
use kv_keys::KvError;
use kv_model::{Op, Request};
use std::alloc::{AllocError, Global};

// The word of a value: base64, or a dash for the empty one.
fn push_value(alloc: Global, out: &mut Vec<u8>, value: &[u8]) -> Result<(), AllocError>
    ensures { OnOk result (out.new.items ≡ out.old.items ++ value_word value.now) }
{
    if value.is_empty() {
        return out.extend_from_slice(b"-");
    }
    let word = STANDARD.encode(alloc, value)?;
    out.extend_from_slice(word.as_bytes())
}

// A word, and a key behind it.
fn push_words(out: &mut Vec<u8>, command: &[u8], key: &str) -> Result<(), AllocError>
    ensures { OnOk result (out.new.items ≡ out.old.items ++ (command.now ++ key.now)) }
{
    out.extend_from_slice(command)?;
    out.extend_from_slice(key.as_bytes())
}

// The command of a put.
fn push_put(alloc: Global, out: &mut Vec<u8>, key: &str, value: &[u8]) -> Result<(), AllocError>
    ensures { OnOk result (out.new.items ≡ out.old.items ++ (codes "put " ++ (key.now ++ 32 ∷ value_word value.now))) }
{
    push_words(out, b"put ", key)?;
    out.push(b' ')?;
    push_value(alloc, out, value)
}

// The command of a write.
fn push_command(
    alloc: Global,
    out: &mut Vec<u8>,
    op: Op,
    key: &str,
    value: &[u8],
) -> Result<(), AllocError>
    ensures { OnOk result (out.new.items ≡ out.old.items ++ write_line op key.now value.now) }
{
    match op {
        Op::Put => push_put(alloc, out, key, value),
        Op::Delete => push_words(out, b"delete ", key),
        Op::Purge => push_words(out, b"purge ", key),
    }
}

/// Appends the command of a write, and the end of the line.
pub(crate) fn push_line(
    alloc: Global,
    out: &mut Vec<u8>,
    op: Op,
    key: &str,
    value: &[u8],
) -> Result<(), AllocError>
    ensures { OnOk result (out.new.items ≡ out.old.items ++ lines_text (write_line op key.now value.now ∷ [])) }
{
    push_command(alloc, out, op, key, value)?;
    out.push(b'\n')?;
    Ok(())
}

// A word, a number behind it, and the end of the line.
fn push_number(
    alloc: Global,
    out: &mut Vec<u8>,
    command: &str,
    number: u64,
) -> Result<(), AllocError>
    ensures ok { OnOk result (out.new.items ≡ out.old.items ++ lines_text ((command.now ++ decimal number) ∷ [])) }
    ensures bound { number < 2 ^ 64 }
{
    let line = format!(in alloc; "{command}{number}\n")?;
    out.extend_from_slice(line.as_bytes())
}

// The command of the write that a request asks for, and the end of the line.
fn push_write(alloc: Global, out: &mut Vec<u8>, request: &Request) -> Result<(), AllocError>
    ensures { OnOk result (out.new.items ≡ out.old.items
        ++ lines_text (write_line (op_of (asked request.now)) (key_of (asked request.now)) (value_of (asked request.now)) ∷ [])) }
{
    push_line(
        alloc,
        out,
        request.op(),
        request.key().as_str(),
        request.value(),
    )
}

// The line of a record; a clean end has none.
fn push_record(alloc: Global, out: &mut Vec<u8>, told: &Record) -> Result<(), AllocError>
    ensures ok { OnOk result (out.new.items ≡ out.old.items ++ lines_text (said_lines told.now)) }
    ensures fits { FitsRecord told.now }
{
    match told {
        Record::Write(request) => push_write(alloc, out, request),
        Record::Seal => out.extend_from_slice(b"seal\n"),
        Record::Compact(floor) => push_number(alloc, out, "compact ", *floor),
        Record::Closed(_) => Ok(()),
    }
}

// The line of the act, or of the clean end, of which these bytes are the record.
fn push_one(alloc: Global, out: &mut Vec<u8>, bytes: &[u8]) -> Result<(), KvError>
    ensures ok { OnOk result ((content : Content) → record_of content ≡ bytes.now → IsSingle content → CanDump content →
        out.new.items ≡ out.old.items ++ lines_text (content_lines content)) }
    ensures memory { IfErr result (λ e. e ≡ OutOfMemory) }
{
    match Record::decode(alloc, bytes)? {
        Some(record) => {
            push_record(alloc, out, &record)?;
            Ok(())
        }
        None => Ok(()),
    }
}

// The lines of the acts whose records these are, each behind its length.
fn push_parts(alloc: Global, out: &mut Vec<u8>, bytes: &[u8]) -> Result<(), KvError>
    ensures ok { OnOk result ((acts : List Act) → act_records acts ≡ bytes.now → AllByRecursion CanDumpAct acts →
        out.new.items ≡ out.old.items ++ lines_text (map act_line acts)) }
    ensures memory { IfErr result (λ e. e ≡ OutOfMemory) }
{
    let mut rest = bytes;
    while let Some((part, after)) = part_of(rest) {
        push_one(alloc, out, part)?;
        rest = after;
    }
    Ok(())
}

// Whether a record is that of a write.
fn tells_write(bytes: &[u8]) -> bool
    ensures { (act : Act) → act_record act ≡ bytes.now → result ≡ is_write act }
{
    match bytes.split_first() {
        Some((kind, _)) => *kind < 4,
        None => false,
    }
}

// How many acts have these records, if all are writes.
fn writes_in(bytes: &[u8]) -> Option<u64>
    ensures { (acts : List Act) → act_records acts ≡ bytes.now → AllByRecursion CanDumpAct acts →
        result ≡ (if list_all is_write acts then Some (length acts) else None) }
{
    let mut rest = bytes;
    let mut count = 0;
    while let Some((part, after)) = part_of(rest) {
        if !tells_write(part) {
            return None;
        }
        count += 1;
        rest = after;
    }
    Some(count)
}

// The line that begins a batch of the acts with these records, if all are writes.
fn push_start(alloc: Global, out: &mut Vec<u8>, bytes: &[u8]) -> Result<(), AllocError>
    ensures { OnOk result ((acts : List Act) → act_records acts ≡ bytes.now → AllByRecursion CanDumpAct acts →
        out.new.items ≡ out.old.items ++ lines_text (batch_lines acts)) }
{
    match writes_in(bytes) {
        Some(count) => push_number(alloc, out, "batch ", count),
        None => Ok(()),
    }
}

// That line, and those of the acts.
fn push_batch(alloc: Global, out: &mut Vec<u8>, bytes: &[u8]) -> Result<(), KvError>
    ensures ok { OnOk result ((acts : List Act) → act_records acts ≡ bytes.now → AllByRecursion CanDumpAct acts →
        out.new.items ≡ out.old.items ++ lines_text (batch_lines acts ++ map act_line acts)) }
    ensures memory { IfErr result (λ e. e ≡ OutOfMemory) }
{
    push_start(alloc, out, bytes)?;
    push_parts(alloc, out, bytes)
}

// The lines of what this record tells.
fn push_content(alloc: Global, out: &mut Vec<u8>, bytes: &[u8]) -> Result<(), KvError>
    ensures ok { OnOk result ((content : Content) → record_of content ≡ bytes.now → CanDump content →
        out.new.items ≡ out.old.items ++ lines_text (content_lines content)) }
    ensures memory { IfErr result (λ e. e ≡ OutOfMemory) }
{
    match batch_of(bytes) {
        Some(batch) => push_batch(alloc, out, batch),
        None => push_one(alloc, out, bytes),
    }
}

/// Appends the lines of the entry with this payload.
pub(crate) fn push_entry(alloc: Global, out: &mut Vec<u8>, payload: &[u8]) -> Result<(), KvError>
    ensures ok { OnOk result ((entry : Entry) → payload_of entry ≡ payload.now → CanDumpEntry entry →
        out.new.items ≡ out.old.items ++ lines_text (content_lines entry.content)) }
    ensures memory { IfErr result (λ e. e ≡ OutOfMemory) }
{
    match loose_of(payload) {
        Some((_, record)) => push_content(alloc, out, record),
        None => Ok(()),
    }
}
