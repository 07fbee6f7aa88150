//! What stands before the entries of a file: a checkpoint, or nothing.

ghost use Rattle.std.specs.Prelude.{◌≡◌, ◌≢◌, ◌+◌, ◌<◌, ◌^◌, ◌++◌, [], ℕ, List, length, IfErr, IfOk};
ghost use Rattle.kv_frames.specs.Frames.{ArePayloads, Splits, frames};
ghost use Rattle.kv_keys.specs.declared.error.KvError.{KvError as AnError};
ghost use Rattle.kv_keys.specs.declared.error.KvError.TheVariants.{OutOfMemory};
ghost use Rattle.kv_journal.specs.Checkpoints.{checkpoint_of, checkpoint_payloads};
ghost use Rattle.kv_journal.specs.Entries.{Entry, payloads_of};
ghost use Rattle.kv_model.specs.Acceptance.{IsLawful};
ghost use Rattle.kv_model.specs.Acts.{Act};
ghost use Rattle.kv_store.specs.Standing.{StandsFor};
ghost use Rattle.kv_durable.specs.Refusals.{IsDamaged};
ghost use Rattle.kv_durable.specs.Starts.{IsStarted};
ghost use Rattle.kv_durable.specs.declared.error.DurableError.TheVariants.{FileBusy, FileFault, OtherBucket, Refused};

use crate::error::DurableError;
use kv_journal::{Begun, ReplayError, begins_checkpoint, restore};
use kv_keys::KvError;
use kv_model::Config;
use kv_store::Version;
use std::alloc::Global;

/// The version before the first entry, where that begins, and whether a checkpoint stands before it.
#[derive(Drop)]
pub(crate) struct Started {
    pub version: Version,
    pub offset: u64,
    pub checkpointed: bool,
}

// What the checkpoint leads to that the bytes begin with.
fn restored_of(
    alloc: Global,
    empty: Version,
    config: &Config,
    begun: &Begun,
    bytes: &[u8],
) -> Result<Started, DurableError>
    requires stands { StandsFor [] empty }
    requires config { empty.config ≡ config.now }
    requires few { begun.now.offset + length bytes.now < 2 ^ 64 }
    requires checkpoint { (entries : List Entry) (rest : List ℕ) →
        Splits begun.now.framing.seed begun.now.offset bytes.now (payloads_of entries) rest → ⊥ }
    ensures ok { IfOk result (λ s. (payloads : List (List ℕ)) × (rest : List ℕ)
        × IsStarted config.now begun.now.framing.seed begun.now.offset bytes.now payloads rest s) }
    ensures damaged { IfErr result (λ e. IsDamaged e → (acts : List Act) (rest : List ℕ) → IsLawful config.now acts →
        ArePayloads (checkpoint_payloads (checkpoint_of config.now acts)) →
        bytes.now ≡ frames begun.now.framing.seed begun.now.offset (checkpoint_payloads (checkpoint_of config.now acts)) ++ rest → ⊥) }
    ensures err { IfErr result (λ e. (e ≢ FileFault) × (e ≢ FileBusy) × (e ≢ OtherBucket) × ((x : AnError) → e ≡ Refused x → x ≡ OutOfMemory)) }
{
    match restore(alloc, empty, config, &begun.framing, begun.offset, bytes) {
        Ok(restored) => Ok(Started {
            version: restored.version,
            offset: restored.offset,
            checkpointed: true,
        }),
        Err(ReplayError::OutOfMemory) => Err(DurableError::Refused(KvError::OutOfMemory)),
        Err(ReplayError::Damaged { at }) => Err(DurableError::FileDamaged { at }),
    }
}

/// What the bytes behind a configuration begin with.
pub(crate) fn started_of(
    alloc: Global,
    empty: Version,
    config: &Config,
    begun: &Begun,
    bytes: &[u8],
) -> Result<Started, DurableError>
    requires stands { StandsFor [] empty }
    requires config { empty.config ≡ config.now }
    requires few { begun.now.offset + length bytes.now < 2 ^ 64 }
    ensures ok { IfOk result (λ s. (payloads : List (List ℕ)) × (rest : List ℕ)
        × IsStarted config.now begun.now.framing.seed begun.now.offset bytes.now payloads rest s) }
    ensures no_checkpoint { IfErr result (λ e. IsDamaged e → (acts : List Act) (rest : List ℕ) → IsLawful config.now acts →
        ArePayloads (checkpoint_payloads (checkpoint_of config.now acts)) →
        bytes.now ≡ frames begun.now.framing.seed begun.now.offset (checkpoint_payloads (checkpoint_of config.now acts)) ++ rest → ⊥) }
    ensures no_entries { IfErr result (λ e. IsDamaged e → (entries : List Entry) (rest : List ℕ) →
        Splits begun.now.framing.seed begun.now.offset bytes.now (payloads_of entries) rest → ⊥) }
    ensures err { IfErr result (λ e. (e ≢ FileFault) × (e ≢ FileBusy) × (e ≢ OtherBucket) × ((x : AnError) → e ≡ Refused x → x ≡ OutOfMemory)) }
{
    if begins_checkpoint(&begun.framing, begun.offset, bytes) {
        return restored_of(alloc, empty, config, begun, bytes);
    }
    Ok(Started {
        version: empty,
        offset: begun.offset,
        checkpointed: false,
    })
}
