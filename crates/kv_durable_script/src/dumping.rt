//! The script of a file.

ghost use Rattle.std.specs.Prelude.{◌≡◌, ◌≢◌, ◌⊎◌, ◌+◌, ◌<◌, ◌≤◌, ◌^◌, ◌++◌, [], List, ℕ, IfErr, IfOk, IsErrOf, OnErr, OnOk, length, take, drop};
ghost use Rattle.std.specs.Io.KnownBytes.{Appends};
ghost use Rattle.std.specs.List.{AllByRecursion};
ghost use Rattle.kv_frames.specs.Frames.{Splits};
ghost use Rattle.std.specs.Io.{StartsWith};
ghost use Rattle.kv_keys.specs.Outcome.{Refuses};
ghost use Rattle.kv_keys.specs.declared.error.KvError.{KvError as AnError};
ghost use Rattle.kv_keys.specs.declared.error.KvError.TheVariants.{WriteFault};
ghost use Rattle.kv_model.specs.Configuration.{IsLegal, configure};
ghost use Rattle.kv_journal.specs.Damage.{ShowsDamage};
ghost use Rattle.kv_journal.specs.Entries.{Entry, payloads_of};
ghost use Rattle.kv_journal.specs.Header.{BeginsWith, configuration_payload};
ghost use Rattle.kv_replay.specs.Faults.{IsWriteOrMemory};
ghost use Rattle.kv_replay.specs.inside.Written.{Pours, Puts};
ghost use Rattle.kv_durable.specs.Bases.{Base, fresh};
ghost use Rattle.kv_durable.specs.Files.{Reads, file_of};
ghost use Rattle.kv_durable.specs.Refusals.{IsDamaged};
ghost use Rattle.kv_durable.specs.declared.error.DurableError.TheVariants.{FileBusy, FileFault, OtherBucket, Refused};
ghost use Rattle.kv_durable_script.specs.Dumps.{dump_text};
ghost use Rattle.kv_durable_script.specs.Scripts.{IsScript};
ghost use Rattle.kv_durable_script.specs.inside.Dumpable.{CanDumpEntry};

use crate::lines::push_entry;
use crate::stored::write_stored;
use kv_durable::{DurableError, recover};
use kv_frames::Framing;
use kv_journal::begin;
use kv_keys::KvError;
use kv_model::Config;
use kv_replay::{Output, pour_many};
use std::alloc::Global;

// Makes the lines of the entries whose frames stand in the bytes, the first of them at this offset, up to the first frame that
// is not whole. They wait, and are written where they are many.
fn pour_entries<K: Output>(
    alloc: Global,
    framing: &Framing,
    at: u64,
    bytes: &[u8],
    out: &mut Vec<u8>,
    sink: &mut K,
) -> Result<(), KvError>
    requires { at + length bytes.now < 2 ^ 64 }
    ensures same { K.goes_on sink.old sink.new }
    ensures ok { OnOk result ((entries : List Entry) (rest : List ℕ) → Splits framing.now.seed at bytes.now (payloads_of entries) rest →
        AllByRecursion CanDumpEntry entries →
        Pours (dump_text entries) (K.held sink.old) out.old.items (K.held sink.new) out.new.items) }
    ensures early { OnErr result ((entries : List Entry) (rest : List ℕ) → Splits framing.now.seed at bytes.now (payloads_of entries) rest →
        AllByRecursion CanDumpEntry entries → Puts (out.old.items ++ dump_text entries) (K.held sink.old) (K.held sink.new)) }
    ensures write_fault { IsErrOf result WriteFault → K.failed_between sink.old sink.new }
    ensures fault { IfErr result IsWriteOrMemory }
{
    let mut offset = at;
    let mut rest = bytes;
    while let Some((payload, after)) = framing.frame_at(offset, rest) {
        push_entry(alloc, out, payload)?;
        pour_many(out, sink)?;
        offset += 8 + payload.len() as u64;
        rest = after;
    }
    Ok(())
}

// Writes the lines of the entries whose frames stand in the bytes.
fn write_entries<K: Output>(
    alloc: Global,
    framing: &Framing,
    at: u64,
    bytes: &[u8],
    sink: &mut K,
) -> Result<(), KvError>
    requires { at + length bytes.now < 2 ^ 64 }
    ensures same { K.goes_on sink.old sink.new }
    ensures ok { OnOk result ((entries : List Entry) (rest : List ℕ) → Splits framing.now.seed at bytes.now (payloads_of entries) rest →
        AllByRecursion CanDumpEntry entries → Appends (K.held sink.old) (K.held sink.new) (dump_text entries)) }
    ensures early { OnErr result ((entries : List Entry) (rest : List ℕ) → Splits framing.now.seed at bytes.now (payloads_of entries) rest →
        AllByRecursion CanDumpEntry entries → Puts (dump_text entries) (K.held sink.old) (K.held sink.new)) }
    ensures write_fault { IsErrOf result WriteFault → K.failed_between sink.old sink.new }
    ensures fault { IfErr result IsWriteOrMemory }
{
    let mut out = Vec::new(alloc);
    pour_entries(alloc, framing, at, bytes, &mut out, sink)?;
    sink.write(&out)
}

// What stands behind this offset.
fn behind(bytes: &[u8], offset: u64) -> &[u8]
    requires { offset ≤ length bytes.now }
    ensures { result.now ≡ drop offset bytes.now }
{
    &bytes[offset as usize..]
}

// Writes the script of bytes that begin with no checkpoint, which was recovered of them.
fn write_plain<K: Output>(
    alloc: Global,
    config: &Config,
    bytes: &[u8],
    sink: &mut K,
) -> Result<(), KvError>
    requires short { length bytes.now < 2 ^ 63 }
    requires legal { IsLegal config.now }
    ensures same { K.goes_on sink.old sink.new }
    ensures ok { OnOk result ((seed : ℕ) (entries : List Entry) (rest : List ℕ) → Reads (fresh config.now) bytes.now seed entries rest →
        Appends (K.held sink.old) (K.held sink.new) (dump_text entries)) }
    ensures early { OnErr result ((seed : ℕ) (entries : List Entry) (rest : List ℕ) → Reads (fresh config.now) bytes.now seed entries rest →
        Puts (dump_text entries) (K.held sink.old) (K.held sink.new)) }
    ensures write_fault { IsErrOf result WriteFault → K.failed_between sink.old sink.new }
    ensures fault { IfErr result IsWriteOrMemory }
{
    let Ok(begun) = begin(alloc, bytes, config) else {
        return Err(KvError::OutOfMemory);
    };
    let entries = behind(bytes, begun.offset);
    write_entries(alloc, &begun.framing, begun.offset, entries, sink)
}

/// Writes the script of the bytes of a file: the commands of its entries, one a line, in order. `put` has its value in base64;
/// of a batch `batch N` stands before its lines. A create and an update stand there as puts. On a new bucket of the same
/// configuration the script leads to the same acts: each entry with its revision, what was freed, and the seal. It answers how
/// many bytes behind the last whole frame it left out.
///
/// No script leads to the acts in whose place a checkpoint stands. So where the bytes begin with one, the script is that of what
/// the bucket stores: a command for each stored write, in the order of revisions, and `seal` at the end if writes have ended. On a
/// new bucket of the same configuration it leads to these writes, and each key has the same history but for the revisions, which
/// begin at 1 there.
///
/// The bytes are read as by [`Durable::open`](crate::Durable), and refused as there.
pub fn dump<K: Output>(
    alloc: Global,
    config: &Config,
    bytes: &[u8],
    sink: &mut K,
) -> Result<u64, DurableError>
    requires { length bytes.now < 2 ^ 63 }
    ensures same { K.goes_on sink.old sink.new }
    // What stands in the bytes was written.
    ensures ok { IfOk result (λ left_out. (text : List ℕ) × (script : IsScript config.now bytes.now text)
        × (left_out ≡ length script.rest) × Appends (K.held sink.old) (K.held sink.new) text) }
    // Or nothing was; or a beginning of it, until the sink failed or memory ran out.
    ensures early { IfErr result (λ e. (sink.new ≡ sink.old) ⊎ (((x : AnError) × (e ≡ Refused x) × IsWriteOrMemory x)
        × ((whole : List ℕ) × IsScript config.now bytes.now whole
        × (text : List ℕ) × StartsWith whole text × Appends (K.held sink.old) (K.held sink.new) text))) }
    // Bytes that show damage are refused, and no others are refused as damaged; as another bucket's only those that name one.
    ensures torn { IfOk result (λ _. (base : Base) (seed : ℕ) (entries : List Entry) (rest : List ℕ) → base.config ≡ config.now →
        Reads base bytes.now seed entries rest → ShowsDamage seed (length (file_of seed base entries)) rest → ⊥) }
    ensures damaged { IfErr result (λ e. IsDamaged e → (base : Base) (seed : ℕ) (entries : List Entry) (rest : List ℕ) →
        base.config ≡ config.now → Reads base bytes.now seed entries rest →
        ShowsDamage seed (length (file_of seed base entries)) rest) }
    ensures other { IsErrOf result OtherBucket → (seed : ℕ) × (payload : List ℕ) × (rest : List ℕ)
        × BeginsWith bytes.now seed payload rest × (payload ≢ configuration_payload config.now) }
    ensures refused { IfErr result (λ e. (x : AnError) → e ≡ Refused x → (x ≡ WriteFault) ⊎ Refuses x (configure config.now)) }
    ensures write_fault { IsErrOf result (Refused WriteFault) → K.failed_between sink.old sink.new }
    ensures no_fault { IfErr result (λ e. (e ≢ FileFault) × (e ≢ FileBusy)) }
{
    config.check()?;
    let recovered = recover(alloc, config, bytes)?;
    if recovered.checkpointed {
        write_stored(alloc, &recovered.version, sink)?;
        return Ok(recovered.dropped);
    }
    write_plain(alloc, config, bytes, sink)?;
    Ok(recovered.dropped)
}
