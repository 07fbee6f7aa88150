//! Opening a durable bucket.

ghost use Rattle.std.specs.Prelude.{◌≡◌, ◌≢◌, ◌⊎◌, ◌<◌, ◌≤◌, ◌^◌, ◌++◌, [], ℕ, List, true, false, length, take, drop, IfErr, IfOk, IsErrOf, OnErr, OnOk};
ghost use Rattle.kv_journal.specs.Header.{BeginsWith, beginning, configuration_payload};
ghost use Rattle.kv_journal.specs.Damage.{ShowsDamage};
ghost use Rattle.kv_journal.specs.Entries.{Entry, acts_of};
ghost use Rattle.kv_keys.specs.Outcome.{Refuses};
ghost use Rattle.kv_keys.specs.declared.error.KvError.{KvError as AnError};
ghost use Rattle.kv_keys.specs.declared.error.KvError.TheVariants.{OutOfMemory};
ghost use Rattle.kv_model.specs.Acts.{Act};
ghost use Rattle.kv_model.specs.Configuration.{IsLegal, configure};
ghost use Rattle.kv_model.specs.State.{empty};
ghost use Rattle.kv_single.specs.Held.{Represents};
ghost use Rattle.kv_durable.specs.Durables.{IsAt, IsRefusal, state_of};
ghost use Rattle.kv_frames.specs.Frames.{ArePayloads};
ghost use Rattle.kv_durable.specs.Bases.{Base, IsBaseOf, IsLawfulBase, acts_before, base_payloads, fresh};
ghost use Rattle.kv_durable.specs.Files.{Reads, file_of};
ghost use Rattle.kv_durable.specs.Journals.{CanFollow, Keeps};
ghost use Rattle.kv_durable.specs.Openings.{HasRead, IsFound, IsFoundIn, IsNew, IsReopenedOn, LeavesBytes};
ghost use Rattle.kv_durable.specs.Refusals.{IsDamaged};
ghost use Rattle.kv_durable.specs.declared.error.DurableError.TheVariants.{FileBusy, FileFault, OtherBucket, Refused};

use crate::config::OwnConfig;
use crate::durable::{Durable, NotDone};
use crate::error::DurableError;
use crate::journal::Journal;
use crate::recovery::recover;
use kv_file::{JournalFile, ReadFault, ReplaceFault, ReplaceableFile, Sync};
use kv_frames::Framing;
use kv_journal::push_beginning;
use kv_keys::KvError;
use kv_model::Config;
use kv_single::Bucket;
use std::alloc::Global;

/// A durable bucket that was opened.
#[derive(Drop)]
pub struct Opened<F: JournalFile> {
    pub durable: Durable<F>,
    /// How many bytes behind the last whole frame were cut off: the torn end that a crash left.
    pub dropped: u64,
    /// Whether the file begins with a checkpoint. Then the bytes do not tell which acts that stands in place of.
    pub checkpointed: bool,
}

// The bucket that a file was found to have, and how that goes on.
#[derive(Drop)]
struct Found {
    bucket: Bucket,
    config: OwnConfig,
    framing: Framing,
    offset: u64,
    dropped: u64,
    checkpointed: bool,
}

fn read_all<F: JournalFile>(alloc: Global, file: &mut F) -> Result<Vec<u8>, DurableError>
    ensures bytes { IfOk result (λ v. (kept loose : List ℕ) → F.has file.old kept loose → v.items ≡ kept ++ loose) }
    ensures same { (kept loose : List ℕ) → F.has file.old kept loose → F.has file.new kept loose }
    ensures usable { OnOk result (F.usable file.new ≡ F.usable file.old) }
    ensures faults { F.faults file.old ≤ F.faults file.new }
    ensures err { IfErr result (λ e. (e ≡ Refused OutOfMemory) ⊎ (e ≡ FileFault)) }
    ensures failed { IsErrOf result FileFault → F.usable file.old ≡ true → F.faults file.old < F.faults file.new }
{
    match file.read(alloc) {
        Ok(bytes) => Ok(bytes),
        Err(ReadFault::OutOfMemory) => Err(DurableError::Refused(KvError::OutOfMemory)),
        Err(ReadFault::Failed) => Err(DurableError::FileFault),
    }
}

// What a file of this seed and configuration begins with.
fn beginning_of(alloc: Global, framing: &Framing, config: &Config) -> Result<Vec<u8>, DurableError>
    requires { IsLegal config.now }
    ensures ok { IfOk result (λ v. v.items ≡ beginning framing.now.seed config.now) }
    ensures err { IfErr result (λ e. e ≡ Refused OutOfMemory) }
{
    let mut bytes = Vec::new(alloc);
    push_beginning(alloc, &mut bytes, framing, config)?;
    Ok(bytes)
}

// Puts a file that has these bytes in the place of an empty one. A file that was added to could begin with a part of them behind
// a crash.
fn put_first<F: JournalFile, P>(
    file: &mut F,
    location: &P,
    bytes: Vec<u8>,
) -> Result<(), DurableError>
where
    F: ReplaceableFile<P>,
    ensures ok { OnOk result (F.usable file.old ≡ true → F.has file.old [] [] → F.has file.new bytes.items []) }
    ensures usable { OnOk result (F.usable file.new ≡ F.usable file.old) }
    ensures handed { OnErr result (F.usable file.old ≡ true → F.has file.old [] [] → F.has file.new [] [] ⊎ F.has file.new bytes.items []) }
    ensures err { IfErr result (λ e. e ≡ FileFault) }
    ensures failed { OnErr result (F.usable file.old ≡ true → F.faults file.old < F.faults file.new) }
{
    match file.replace(location, bytes) {
        Ok(()) => Ok(()),
        Err(ReplaceFault::Unchanged | ReplaceFault::Unknown) => Err(DurableError::FileFault),
    }
}

// Makes an empty file that of a new bucket. All memory is asked for before the file is touched.
fn begin_in<F: JournalFile, P>(
    alloc: Global,
    config: &Config,
    file: &mut F,
    location: &P,
    seed: u64,
) -> Result<Found, DurableError>
where
    F: ReplaceableFile<P>,
    requires { IsLegal config.now }
    ensures ok { IfOk result (λ found. Represents (empty config.now) found.bucket × (found.framing.seed ≡ seed)
        × (found.offset ≡ length (beginning seed config.now)) × (found.dropped ≡ 0) × (found.checkpointed ≡ false)
        × (found.config.config ≡ config.now)) }
    ensures file { OnOk result (F.usable file.old ≡ true → F.has file.old [] [] → F.has file.new (beginning seed config.now) []) }
    ensures usable { OnOk result (F.usable file.new ≡ F.usable file.old) }
    ensures refused { IfErr result (λ e. (x : AnError) → e ≡ Refused x → Refuses x (configure config.now)) }
    ensures untouched { IfErr result (λ e. (x : AnError) → e ≡ Refused x → file.new ≡ file.old) }
    ensures handed { OnErr result (F.usable file.old ≡ true → F.has file.old [] [] →
        F.has file.new [] [] ⊎ F.has file.new (beginning seed config.now) []) }
    ensures fault { IsErrOf result FileFault → F.usable file.old ≡ true → F.faults file.old < F.faults file.new }
    ensures no_other { IfErr result IsRefusal }
{
    let bucket = Bucket::open(alloc, config)?;
    let own = OwnConfig::copy_of(alloc, config)?;
    let framing = Framing::new(seed);
    let bytes = beginning_of(alloc, &framing, config)?;
    let end = bytes.len() as u64;
    put_first(file, location, bytes)?;
    Ok(Found {
        bucket,
        config: own,
        framing,
        offset: end,
        dropped: 0,
        checkpointed: false,
    })
}

// Goes on with a file that has these bytes: what stands behind the last whole frame is cut off, and the rest comes onto the
// disk.
fn go_on_in<F: JournalFile>(
    alloc: Global,
    config: &Config,
    file: &mut F,
    bytes: &[u8],
) -> Result<Found, DurableError>
    requires short { length bytes.now < 2 ^ 63 }
    requires legal { IsLegal config.now }
    ensures ok { IfOk result (λ found. (payloads : List (List ℕ)) × (entries : List Entry) × (rest : List ℕ)
        × IsFoundIn config.now bytes.now payloads entries rest found) }
    ensures torn { IfOk result (λ _. (base : Base) (seed : ℕ) (entries : List Entry) (rest : List ℕ) → base.config ≡ config.now →
        Reads base bytes.now seed entries rest → ShowsDamage seed (length (file_of seed base entries)) rest → ⊥) }
    ensures file { IfOk result (λ found. F.usable file.old ≡ true → (kept loose : List ℕ) → F.has file.old kept loose →
        F.has file.new (take found.offset (kept ++ loose)) []) }
    ensures usable { OnOk result (F.usable file.new ≡ F.usable file.old) }
    ensures damaged { IfErr result (λ e. IsDamaged e → (base : Base) (seed : ℕ) (entries : List Entry) (rest : List ℕ) →
        base.config ≡ config.now → Reads base bytes.now seed entries rest →
        ShowsDamage seed (length (file_of seed base entries)) rest) }
    ensures other { IsErrOf result OtherBucket → (seed : ℕ) × (payload : List ℕ) × (rest : List ℕ)
        × BeginsWith bytes.now seed payload rest × (payload ≢ configuration_payload config.now) }
    ensures refused { IfErr result (λ e. (x : AnError) → e ≡ Refused x → Refuses x (configure config.now)) }
    ensures untouched { IfErr result (λ e. e ≢ FileFault → file.new ≡ file.old) }
    ensures handed { OnErr result (F.usable file.old ≡ true → (kept loose : List ℕ) → F.has file.old kept loose →
        (k : List ℕ) × (l : List ℕ) × (k ++ l ≡ kept ++ loose) × F.has file.new k l) }
    ensures fault { IsErrOf result FileFault → F.usable file.old ≡ true → F.faults file.old < F.faults file.new }
    ensures never { IfErr result (λ e. e ≢ FileBusy) }
{
    let own = OwnConfig::copy_of(alloc, config)?;
    let recovered = recover(alloc, config, bytes)?;
    file.cut(recovered.offset)?;
    Ok(Found {
        bucket: Bucket::from_version(alloc, recovered.version),
        config: own,
        framing: recovered.framing,
        offset: recovered.offset,
        dropped: recovered.dropped,
        checkpointed: recovered.checkpointed,
    })
}

fn has_none(bytes: &[u8]) -> bool
    ensures yes { result ≡ true → bytes.now ≡ [] }
    ensures no { result ≡ false → bytes.now ≡ [] → ⊥ }
{
    bytes.is_empty()
}

// Reads a file, and goes on with it; an empty one is made that of a new bucket.
fn found_in<F: JournalFile, P>(
    alloc: Global,
    config: &Config,
    file: &mut F,
    location: &P,
    seed: u64,
) -> Result<Found, DurableError>
where
    F: ReplaceableFile<P>,
    ensures ok { IfOk result (λ found. (bytes : List ℕ) × (payloads : List (List ℕ)) × (entries : List Entry)
        × IsFound config.now seed bytes payloads entries found
        × ((kept loose : List ℕ) → F.has file.old kept loose → bytes ≡ kept ++ loose)
        × (F.usable file.old ≡ true → (kept loose : List ℕ) → F.has file.old kept loose →
        (base : Base) → IsBaseOf config.now payloads base → F.has file.new (file_of found.framing.seed base entries) [])) }
    ensures usable { OnOk result (F.usable file.new ≡ F.usable file.old) }
    ensures seed { IfOk result (λ found. found.framing.seed < 2 ^ 64) }
    ensures torn { IfOk result (λ _. (kept loose : List ℕ) → F.has file.old kept loose →
        (base : Base) (other : ℕ) (entries : List Entry) (rest : List ℕ) → base.config ≡ config.now →
        Reads base (kept ++ loose) other entries rest → ShowsDamage other (length (file_of other base entries)) rest → ⊥) }
    ensures damaged { IfErr result (λ e. IsDamaged e → (kept loose : List ℕ) → F.has file.old kept loose →
        (base : Base) (other : ℕ) (entries : List Entry) (rest : List ℕ) → base.config ≡ config.now →
        Reads base (kept ++ loose) other entries rest → ShowsDamage other (length (file_of other base entries)) rest) }
    ensures other { IsErrOf result OtherBucket → (kept loose : List ℕ) → F.has file.old kept loose →
        (other : ℕ) × (payload : List ℕ) × (rest : List ℕ)
        × BeginsWith (kept ++ loose) other payload rest × (payload ≢ configuration_payload config.now) }
    ensures refused { IfErr result (λ e. (x : AnError) → e ≡ Refused x → Refuses x (configure config.now)) }
    ensures untouched { IfErr result (λ e. e ≢ FileFault → (kept loose : List ℕ) → F.has file.old kept loose → F.has file.new kept loose) }
    ensures handed { OnErr result (F.usable file.old ≡ true → (kept loose : List ℕ) → F.has file.old kept loose →
        LeavesBytes F.has config.now seed kept loose file.new) }
    ensures fault { IsErrOf result FileFault → F.usable file.old ≡ true → F.faults file.old < F.faults file.new }
    ensures empty { IfErr result (λ e. F.has file.old [] [] → IsRefusal e) }
    ensures never { IfErr result (λ e. e ≢ FileBusy) }
{
    config.check()?;
    let bytes = read_all(alloc, file)?;
    let text = bytes.as_slice();
    if has_none(text) {
        return begin_in(alloc, config, file, location, seed);
    }
    go_on_in(alloc, config, file, text)
}

// The bucket that was found, with its file.
fn opened_of<F: JournalFile>(file: F, found: Found, sync: Sync) -> Opened<F>
    ensures parts { (result.durable.bucket ≡ found.bucket) × (result.dropped ≡ found.dropped)
        × (result.checkpointed ≡ found.checkpointed) }
    ensures journal { (result.durable.journal.framing ≡ found.framing) × (result.durable.journal.appender.file ≡ file)
        × (result.durable.journal.appender.sync ≡ sync) }
    ensures keeps { (base : Base) (entries : List Entry) → found.framing.seed < 2 ^ 64 → found.config.config ≡ base.config →
        ArePayloads (base_payloads base) → IsLawfulBase base → CanFollow base [] entries → F.usable file ≡ true →
        F.has file (file_of found.framing.seed base entries) [] → found.offset ≡ length (file_of found.framing.seed base entries) →
        Keeps F.has F.usable base entries [] result.durable.journal }
{
    let Found {
        bucket,
        config,
        framing,
        offset,
        dropped,
        checkpointed,
    } = found;
    let journal = Journal::new(file, framing, config, offset, sync);
    Opened {
        durable: Durable::from_parts(bucket, journal),
        dropped,
        checkpointed,
    }
}

impl<F: JournalFile> Durable<F> {
    /// Opens the bucket of a file. An empty file, where it lies at such a location, is replaced by that of a new bucket, with this
    /// seed: choose it at random, and another for each file. A crash meanwhile leaves the empty file, or all that a new one begins
    /// with. Of any other file the seed and the location are not asked for; it has to be that of a bucket with this configuration.
    /// What a crash left behind the last whole frame is cut off, and told; damage is refused with its offset, and changes
    /// nothing. The bucket has no watches, and all that it has is on the disk.
    ///
    /// Of a file that begins with a checkpoint the bytes do not tell which acts that stands in place of: the bucket is at the
    /// state of whatever lawful acts it is the checkpoint of, with those of the entries behind them. A checkpoint that no acts lead
    /// to is damage.
    ///
    /// It reads the file once, into memory, makes each act again, and puts back each write of a checkpoint, for which it takes
    /// memory until the call has answered. Nothing else is to write the file meanwhile.
    pub fn open<P>(
        alloc: Global,
        config: &Config,
        file: F,
        location: &P,
        seed: u64,
        sync: Sync,
    ) -> Result<Opened<F>, NotDone<F>>
    where
        F: ReplaceableFile<P>,
        ensures represents { IfOk result (λ o. (acts : List Act) × Represents (state_of config.now acts) o.durable.bucket) }
        ensures restored { IfOk result (λ o. (payloads : List (List ℕ)) × (entries : List Entry) × ((base : Base) →
            IsBaseOf config.now payloads base → Represents (state_of config.now (acts_before base ++ acts_of entries)) o.durable.bucket)) }
        ensures new { IfOk result (λ o. F.usable file ≡ true → F.has file [] [] →
            (o.checkpointed ≡ false) × IsNew F.has F.usable config.now seed o.durable o.dropped) }
        ensures reopened { IfOk result (λ o. F.usable file ≡ true → (kept loose : List ℕ) → F.has file kept loose →
            (kept ++ loose ≡ [] → ⊥) →
            IsReopenedOn F.has F.usable config.now (kept ++ loose) o.durable o.dropped o.checkpointed) }
        ensures read { IfOk result (λ o. (base : Base) × (entries : List Entry) × (base.config ≡ config.now)
            × (o.checkpointed ≡ false → base ≡ fresh config.now)
            × HasRead F.has F.usable base file entries o.durable o.dropped) }
        ensures torn { IfOk result (λ _. (kept loose : List ℕ) → F.has file kept loose →
            (base : Base) (other : ℕ) (entries : List Entry) (rest : List ℕ) → base.config ≡ config.now →
            Reads base (kept ++ loose) other entries rest → ShowsDamage other (length (file_of other base entries)) rest → ⊥) }
        ensures sync { IfOk result (λ o. o.durable.journal.appender.sync ≡ sync) }
        ensures usable { IfOk result (λ o. F.usable o.durable.journal.appender.file ≡ F.usable file) }
        ensures damaged { IfErr result (λ r. IsDamaged r.error → (kept loose : List ℕ) → F.has file kept loose →
            (base : Base) (other : ℕ) (entries : List Entry) (rest : List ℕ) → base.config ≡ config.now →
            Reads base (kept ++ loose) other entries rest → ShowsDamage other (length (file_of other base entries)) rest) }
        ensures other { IfErr result (λ r. r.error ≡ OtherBucket → (kept loose : List ℕ) → F.has file kept loose →
            (other : ℕ) × (payload : List ℕ) × (rest : List ℕ)
            × BeginsWith (kept ++ loose) other payload rest × (payload ≢ configuration_payload config.now)) }
        ensures refused { IfErr result (λ r. (x : AnError) → r.error ≡ Refused x → Refuses x (configure config.now)) }
        ensures untouched { IfErr result (λ r. r.error ≢ FileFault → (kept loose : List ℕ) → F.has file kept loose →
            F.has r.file kept loose) }
        ensures handed { IfErr result (λ r. F.usable file ≡ true → (kept loose : List ℕ) → F.has file kept loose →
            LeavesBytes F.has config.now seed kept loose r.file) }
        ensures fault { IfErr result (λ r. r.error ≡ FileFault → F.usable file ≡ true → F.faults file < F.faults r.file) }
        ensures empty { IfErr result (λ r. F.has file [] [] → IsRefusal r.error) }
        ensures never { IfErr result (λ r. r.error ≢ FileBusy) }
    {
        let mut file = file;
        match found_in(alloc, config, &mut file, location, seed) {
            Ok(found) => Ok(opened_of(file, found, sync)),
            Err(error) => Err(NotDone { error, file }),
        }
    }
}
