//! The version that a file stands for.

ghost use Rattle.std.specs.Prelude.{◌≡◌, ◌+◌, ◌<◌, ◌^◌, ℕ, List, length, IfErr, IfOk};
ghost use Rattle.kv_frames.specs.Frames.{Splits, offset_after};
ghost use Rattle.kv_model.specs.Acts.{Act};
ghost use Rattle.kv_store.specs.Standing.{StandsFor};
ghost use Rattle.kv_journal.specs.Entries.{AreLawful, Entry, acts_of, payloads_of};
ghost use Rattle.kv_journal.specs.Replays.{Extends, IsDamaged, TellsWhere};

use crate::entry::redo;
use kv_frames::Framing;
use kv_store::Version;
use std::alloc::{AllocError, AllocFailed, Global};

/// Why the entries of a file were refused.
#[derive(Clone, Copy, Debug, PartialEq, Eq)]
pub enum ReplayError {
    /// A request for memory was refused.
    OutOfMemory,
    /// The frame at this offset has its right checksum, and tells nothing that can stand behind the entries before it.
    Damaged { at: u64 },
}

impl From<AllocError> for ReplayError {
    ghost use Rattle.std.specs.Prelude.{◌≡◌};
    ghost use Rattle.kv_journal.specs.declared.replays.ReplayError.TheVariants.{OutOfMemory};

    ghost from_gives = { λ _ e. e ≡ OutOfMemory };

    fn from(_error: AllocError) -> ReplayError {
        ReplayError::OutOfMemory
    }
}

impl<T: Drop> From<AllocFailed<T>> for ReplayError {
    ghost use Rattle.std.specs.Prelude.{◌≡◌};
    ghost use Rattle.kv_journal.specs.declared.replays.ReplayError.TheVariants.{OutOfMemory};

    ghost from_gives = { λ _ e. e ≡ OutOfMemory };

    fn from(_error: AllocFailed<T>) -> ReplayError {
        ReplayError::OutOfMemory
    }
}

/// The version that a file stands for, and where its last whole frame ends.
#[derive(Drop)]
pub struct Replayed {
    pub version: Version,
    pub offset: u64,
}

/// Does again, from this version on, what the entries tell whose frames stand in the bytes, up to the first frame that is
/// not whole. The first begins at this offset of the file.
pub fn replay(
    alloc: Global,
    version: Version,
    framing: &Framing,
    at: u64,
    bytes: &[u8],
) -> Result<Replayed, ReplayError>
    requires { at + length bytes.now < 2 ^ 64 }
    // The bytes are the frames of these entries, and of no others, and the version goes on by just their acts.
    ensures ok { IfOk result (λ r. (entries : List Entry) × (rest : List ℕ)
        × Splits framing.now.seed at bytes.now (payloads_of entries) rest
        × Extends version (acts_of entries) r.version
        × ((before : List Act) → StandsFor before version → AreLawful version.config before entries)
        × (r.offset ≡ offset_after at (payloads_of entries))) }
    // A file of entries that could be added is not refused as damaged.
    ensures damaged { IfErr result (λ e. IsDamaged e → (before : List Act) (entries : List Entry) (rest : List ℕ) →
        StandsFor before version → AreLawful version.config before entries →
        Splits framing.now.seed at bytes.now (payloads_of entries) rest → ⊥) }
    ensures offset { IfErr result (λ e. TellsWhere framing.now.seed at bytes.now e) }
{
    let mut version = version;
    let mut offset = at;
    let mut rest = bytes;
    while let Some((payload, after)) = framing.frame_at(offset, rest) {
        match redo(alloc, &mut version, payload) {
            Ok(true) => {}
            Ok(false) => return Err(ReplayError::Damaged { at: offset }),
            Err(_) => return Err(ReplayError::OutOfMemory),
        }
        offset += 8 + payload.len() as u64;
        rest = after;
    }
    Ok(Replayed { version, offset })
}
