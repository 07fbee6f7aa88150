//! Answers to reads, which change nothing.

ghost use Rattle.std.specs.Prelude.{◌≡◌, ◌++◌, OnOk, OnErr, IfErr};
ghost use Rattle.kv_single.specs.Held.{Represents};
ghost use Rattle.kv_model.specs.State.{State, answer_to};
ghost use Rattle.kv_model.specs.declared.call.Call.TheVariants.{Get, GetAt, History, Keys, Status};
ghost use Rattle.kv_keys.specs.Places.{fnv32_of};
ghost use Rattle.kv_keys.specs.declared.error.KvError.TheVariants.{OutOfMemory};
ghost use Rattle.kv_script.specs.Answered.{answer_text};
ghost use Rattle.kv_script.specs.Text.{place_text};

use crate::refusals::answer_refusal;
use kv_keys::{Filters, Key, KvError, Place};
use kv_script::{
    Form, append_entry, append_history, append_keys, append_place, append_refusal, append_status,
};
use kv_single::Bucket;
use std::alloc::Global;

/// The latest entry of a key, where it is a put.
pub(crate) fn answer_get(
    alloc: Global,
    form: Form,
    bucket: &Bucket,
    key: &Key,
    out: &mut Vec<u8>,
) -> Result<(), KvError>
    ensures ok { OnOk result ((state : State) → Represents state bucket.now →
        out.new.items ≡ out.old.items ++ answer_text form state.config.bucket (answer_to state (Get key.now))) }
    ensures err { OnErr result (out.new.items ≡ out.old.items) }
    ensures memory { IfErr result (λ e. e ≡ OutOfMemory) }
{
    match bucket.version().get(key) {
        Ok(write) => append_entry(alloc, form, out, write)?,
        Err(error) => append_refusal(alloc, out, error)?,
    }
    Ok(())
}

/// The retained put of a key with this revision.
pub(crate) fn answer_get_at(
    alloc: Global,
    form: Form,
    bucket: &Bucket,
    key: &Key,
    revision: u64,
    out: &mut Vec<u8>,
) -> Result<(), KvError>
    ensures ok { OnOk result ((state : State) → Represents state bucket.now →
        out.new.items ≡ out.old.items ++ answer_text form state.config.bucket
        (answer_to state (GetAt key.now revision))) }
    ensures err { OnErr result (out.new.items ≡ out.old.items) }
    ensures memory { IfErr result (λ e. e ≡ OutOfMemory) }
{
    match bucket.version().get_at(key, revision) {
        Ok(write) => append_entry(alloc, form, out, write)?,
        Err(error) => append_refusal(alloc, out, error)?,
    }
    Ok(())
}

/// The retained entries of a key.
pub(crate) fn answer_history(
    alloc: Global,
    form: Form,
    bucket: &Bucket,
    key: &Key,
    out: &mut Vec<u8>,
) -> Result<(), KvError>
    ensures ok { OnOk result ((state : State) → Represents state bucket.now →
        out.new.items ≡ out.old.items ++ answer_text form state.config.bucket (answer_to state (History key.now))) }
    ensures err { OnErr result (out.new.items ≡ out.old.items) }
    ensures memory { IfErr result (λ e. e ≡ OutOfMemory) }
{
    match bucket.version().history(alloc, key) {
        Ok(writes) => {
            append_history(alloc, form, out, &writes)?;
            Ok(())
        }
        Err(error) => answer_refusal(alloc, error, out),
    }
}

/// The keys that one of the filters matches and that have a value.
pub(crate) fn answer_keys(
    alloc: Global,
    bucket: &Bucket,
    filters: &Filters,
    out: &mut Vec<u8>,
) -> Result<(), KvError>
    ensures ok { OnOk result ((form : Form) (state : State) → Represents state bucket.now →
        out.new.items ≡ out.old.items ++ answer_text form state.config.bucket (answer_to state (Keys filters.now))) }
    ensures err { OnErr result (out.new.items ≡ out.old.items) }
    ensures memory { IfErr result (λ e. e ≡ OutOfMemory) }
{
    let keys = bucket.version().keys_where(alloc, filters)?;
    append_keys(alloc, out, &keys)?;
    Ok(())
}

/// The numbers of the bucket.
pub(crate) fn answer_status(
    alloc: Global,
    bucket: &Bucket,
    out: &mut Vec<u8>,
) -> Result<(), KvError>
    ensures ok { OnOk result ((form : Form) (state : State) → Represents state bucket.now →
        out.new.items ≡ out.old.items ++ answer_text form state.config.bucket (answer_to state Status)) }
    ensures err { OnErr result (out.new.items ≡ out.old.items) }
    ensures memory { IfErr result (λ e. e ≡ OutOfMemory) }
{
    let version = bucket.version();
    append_status(
        alloc,
        out,
        version.bucket(),
        version.status(),
        bucket.watches(),
    )?;
    Ok(())
}

/// The place of a key in a hash trie.
pub(crate) fn answer_place(alloc: Global, key: &Key, out: &mut Vec<u8>) -> Result<(), KvError>
    ensures ok { OnOk result (out.new.items ≡ out.old.items ++ place_text (fnv32_of key.now)) }
    ensures err { OnErr result (out.new.items ≡ out.old.items) }
    ensures memory { IfErr result (λ e. e ≡ OutOfMemory) }
{
    append_place(alloc, out, key.place())?;
    Ok(())
}
