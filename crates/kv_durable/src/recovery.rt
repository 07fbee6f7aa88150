//! The version that the bytes of a file stand for.

ghost use Rattle.std.specs.Prelude.{◌≡◌, ◌≢◌, ◌+◌, ◌<◌, ◌≤◌, ◌^◌, ℕ, List, drop, length, IfErr, IfOk, IsErrOf};
ghost use Rattle.kv_frames.specs.Frames.{Splits, offset_after};
ghost use Rattle.kv_keys.specs.Outcome.{Refuses};
ghost use Rattle.kv_keys.specs.declared.error.KvError.{KvError as AnError};
ghost use Rattle.kv_keys.specs.declared.error.KvError.TheVariants.{OutOfMemory};
ghost use Rattle.kv_journal.specs.Header.{BeginsWith, beginning, configuration_payload};
ghost use Rattle.kv_journal.specs.Damage.{ShowsDamage};
ghost use Rattle.kv_journal.specs.Entries.{AreLawful, Entry, acts_of, payloads_of};
ghost use Rattle.kv_journal.specs.Replays.{Extends};
ghost use Rattle.kv_model.specs.Acts.{Act};
ghost use Rattle.kv_model.specs.Configuration.{configure};
ghost use Rattle.kv_store.specs.Standing.{StandsFor};
ghost use Rattle.kv_durable.specs.Bases.{Base};
ghost use Rattle.kv_durable.specs.Files.{Reads, file_of};
ghost use Rattle.kv_durable.specs.Openings.{IsRecovered};
ghost use Rattle.kv_durable.specs.Refusals.{IsDamaged};
ghost use Rattle.kv_durable.specs.declared.error.DurableError.TheVariants.{FileBusy, FileFault, OtherBucket, Refused};

use crate::error::DurableError;
use crate::start::started_of;
use kv_frames::Framing;
use kv_journal::{BeginningError, Begun, ReplayError, Replayed, begin, replay, shows_damage};
use kv_keys::KvError;
use kv_model::Config;
use kv_store::Version;
use std::alloc::Global;

/// What the bytes of a file stand for.
#[derive(Drop)]
pub struct Recovered {
    /// The version of all acts that stand in the file.
    pub version: Version,
    /// How its frames are written.
    pub framing: Framing,
    /// Where its last whole frame ends.
    pub offset: u64,
    /// How many bytes stand behind that.
    pub dropped: u64,
    /// Whether it begins with a checkpoint.
    pub checkpointed: bool,
}

// What the bytes begin with.
fn begun_of(alloc: Global, bytes: &[u8], config: &Config) -> Result<Begun, DurableError>
    requires { length bytes.now < 2 ^ 63 }
    ensures ok { IfOk result (λ b. (rest : List ℕ)
        × BeginsWith bytes.now b.framing.seed (configuration_payload config.now) rest
        × (b.offset ≡ length (beginning b.framing.seed config.now))) }
    ensures other { IsErrOf result OtherBucket → (seed : ℕ) × (payload : List ℕ) × (rest : List ℕ)
        × BeginsWith bytes.now seed payload rest × (payload ≢ configuration_payload config.now) }
    ensures damaged { IfErr result (λ e. IsDamaged e → (seed : ℕ) (payload rest : List ℕ) →
        BeginsWith bytes.now seed payload rest → ⊥) }
    ensures err { IfErr result (λ e. (e ≢ FileFault) × (e ≢ FileBusy) × ((x : AnError) → e ≡ Refused x → x ≡ OutOfMemory)) }
{
    match begin(alloc, bytes, config) {
        Ok(begun) => Ok(begun),
        Err(BeginningError::OutOfMemory) => Err(DurableError::Refused(KvError::OutOfMemory)),
        Err(BeginningError::NoJournal) => Err(DurableError::FileDamaged { at: 0 }),
        Err(BeginningError::OtherBucket) => Err(DurableError::OtherBucket),
    }
}

// What stands behind this offset.
fn behind(bytes: &[u8], offset: u64) -> &[u8]
    requires { offset ≤ length bytes.now }
    ensures { result.now ≡ drop offset bytes.now }
{
    &bytes[offset as usize..]
}

// The version that goes on from this one by the entries whose frames stand in the bytes.
fn replayed_of(
    alloc: Global,
    version: Version,
    framing: &Framing,
    at: u64,
    bytes: &[u8],
) -> Result<Replayed, DurableError>
    requires few { at + length bytes.now < 2 ^ 64 }
    ensures ok { IfOk result (λ r. (entries : List Entry) × (rest : List ℕ)
        × Splits framing.now.seed at bytes.now (payloads_of entries) rest
        × Extends version (acts_of entries) r.version
        × ((before : List Act) → StandsFor before version → AreLawful version.config before entries)
        × (r.offset ≡ offset_after at (payloads_of entries))) }
    ensures damaged { IfErr result (λ e. IsDamaged e → (before : List Act) (entries : List Entry) (rest : List ℕ) →
        StandsFor before version → AreLawful version.config before entries →
        Splits framing.now.seed at bytes.now (payloads_of entries) rest → ⊥) }
    ensures err { IfErr result (λ e. (e ≢ FileFault) × (e ≢ FileBusy) × (e ≢ OtherBucket) × ((x : AnError) → e ≡ Refused x → x ≡ OutOfMemory)) }
{
    match replay(alloc, version, framing, at, bytes) {
        Ok(replayed) => Ok(replayed),
        Err(ReplayError::OutOfMemory) => Err(DurableError::Refused(KvError::OutOfMemory)),
        Err(ReplayError::Damaged { at }) => Err(DurableError::FileDamaged { at }),
    }
}

/// The version that the bytes of a file stand for, where they are those of a bucket with this configuration. What stands
/// behind the last whole frame is a torn end, as far as the bytes can tell; where they tell that it was damaged after it had
/// come onto the disk, it is refused with its offset, and so are bytes that begin no journal, a checkpoint that is no
/// bucket's, and an entry that cannot stand behind what is before it. It reads the bytes once, and makes each act again.
///
/// Of a file that begins with a checkpoint the bytes do not tell which acts that stands in place of: whatever lawful acts it
/// is the checkpoint of, and there are some, the version stands for these, and those of the entries behind them.
pub fn recover(alloc: Global, config: &Config, bytes: &[u8]) -> Result<Recovered, DurableError>
    requires { length bytes.now < 2 ^ 63 }
    ensures ok { IfOk result (λ r. (payloads : List (List ℕ)) × (entries : List Entry) × (rest : List ℕ)
        × IsRecovered config.now bytes.now payloads entries rest r) }
    ensures torn { IfOk result (λ r. (base : Base) (seed : ℕ) (entries : List Entry) (rest : List ℕ) → base.config ≡ config.now →
        Reads base bytes.now seed entries rest → ShowsDamage seed (length (file_of seed base entries)) rest → ⊥) }
    ensures damaged { IfErr result (λ e. IsDamaged e → (base : Base) (seed : ℕ) (entries : List Entry) (rest : List ℕ) →
        base.config ≡ config.now → Reads base bytes.now seed entries rest →
        ShowsDamage seed (length (file_of seed base entries)) rest) }
    ensures other { IsErrOf result OtherBucket → (seed : ℕ) × (payload : List ℕ) × (rest : List ℕ)
        × BeginsWith bytes.now seed payload rest × (payload ≢ configuration_payload config.now) }
    ensures refused { IfErr result (λ e. (x : AnError) → e ≡ Refused x → Refuses x (configure config.now)) }
    ensures no_fault { IfErr result (λ e. (e ≢ FileFault) × (e ≢ FileBusy)) }
{
    let empty = Version::empty(alloc, config)?;
    let begun = begun_of(alloc, bytes, config)?;
    let first = behind(bytes, begun.offset);
    let started = started_of(alloc, empty, config, &begun, first)?;
    let start = started.offset;
    let checkpointed = started.checkpointed;
    let entries = behind(bytes, start);
    let replayed = replayed_of(alloc, started.version, &begun.framing, start, entries)?;
    let offset = replayed.offset;
    let rest = behind(bytes, offset);
    if shows_damage(&begun.framing, offset, rest) {
        return Err(DurableError::FileDamaged { at: offset });
    }
    let dropped = rest.len() as u64;
    Ok(Recovered {
        version: replayed.version,
        framing: begun.framing,
        offset,
        dropped,
        checkpointed,
    })
}
