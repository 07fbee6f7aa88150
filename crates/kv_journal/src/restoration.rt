//! A version from a checkpoint.

ghost use Rattle.std.specs.Prelude.{◌≡◌, ◌+◌, ◌<◌, ◌^◌, ◌++◌, [], ℕ, List, length, IfErr, IfOk};
ghost use Rattle.kv_frames.specs.Frames.{ArePayloads, frames, offset_after};
ghost use Rattle.kv_model.specs.Acceptance.{IsLawful};
ghost use Rattle.kv_model.specs.Acts.{Act};
ghost use Rattle.kv_store.specs.Standing.{StandsFor};
ghost use Rattle.kv_journal.specs.Checkpoints.{checkpoint_of, checkpoint_payloads};
ghost use Rattle.kv_journal.specs.Replays.{IsDamaged};
ghost use Rattle.kv_journal.specs.Restored.{IsOnly, IsRestored};

use crate::contents::Contents;
use crate::course::reached;
use crate::replays::{ReplayError, Replayed};
use kv_frames::Framing;
use kv_model::Config;
use kv_store::Version;
use std::alloc::Global;

/// The version of the checkpoint whose frames stand at the front of the bytes, the first at this offset, and where they end.
/// There are acts whose checkpoint it is, and it has what they have stored. Bytes that begin with the checkpoint of no acts are
/// damaged: at the first frame that tells nothing of one, or at the front. `empty` is the bucket's empty version.
///
/// It puts back each stored write once, and looks up its key twice more or three times. Beside the version it takes memory for
/// the writes.
pub fn restore(
    alloc: Global,
    empty: Version,
    config: &Config,
    framing: &Framing,
    at: u64,
    bytes: &[u8],
) -> Result<Replayed, ReplayError>
    requires stands { StandsFor [] empty }
    requires config { empty.config ≡ config.now }
    requires few { at + length bytes.now < 2 ^ 64 }
    ensures ok { IfOk result (λ r. (acts : List Act) × (rest : List ℕ) × IsLawful config.now acts
        × ArePayloads (checkpoint_payloads (checkpoint_of config.now acts))
        × (bytes.now ≡ frames framing.now.seed at (checkpoint_payloads (checkpoint_of config.now acts)) ++ rest)
        × IsRestored config.now (checkpoint_of config.now acts) r.version
        × (r.offset ≡ offset_after at (checkpoint_payloads (checkpoint_of config.now acts)))
        × IsOnly config.now framing.now.seed at bytes.now (checkpoint_of config.now acts)) }
    // That of a bucket is not refused as damaged.
    ensures damaged { IfErr result (λ e. IsDamaged e → (acts : List Act) (rest : List ℕ) → IsLawful config.now acts →
        ArePayloads (checkpoint_payloads (checkpoint_of config.now acts)) →
        bytes.now ≡ frames framing.now.seed at (checkpoint_payloads (checkpoint_of config.now acts)) ++ rest → ⊥) }
{
    let contents = match Contents::of(alloc, framing, at, bytes) {
        Ok(contents) => contents,
        Err(error) => return Err(error),
    };
    match reached(alloc, empty, config, &contents) {
        Ok(Some(version)) => Ok(Replayed {
            version,
            offset: contents.offset,
        }),
        Ok(None) => Err(ReplayError::Damaged { at }),
        Err(_) => Err(ReplayError::OutOfMemory),
    }
}
