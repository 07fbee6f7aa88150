//! Opening a durable bucket that threads share.

ghost use Rattle.std.specs.Prelude.{◌≡◌, ◌≢◌, ◌<◌, ◌++◌, ℕ, List, [], Ok, All, length, true, IfErr, IfOk};
ghost use Rattle.kv_keys.specs.Outcome.{Refuses};
ghost use Rattle.kv_keys.specs.declared.error.KvError.{KvError as AnError};
ghost use Rattle.kv_bucket.specs.Keeping.{may_open};
ghost use Rattle.kv_bucket.specs.ReaderState.{IsUnread};
ghost use Rattle.kv_durable.specs.Bases.{Base, acts_before, fresh};
ghost use Rattle.kv_durable.specs.Durables.{IsRefusal, state_of};
ghost use Rattle.kv_durable.specs.Files.{Reads, file_of};
ghost use Rattle.kv_durable.specs.Journals.{Keeps};
ghost use Rattle.kv_durable.specs.Refusals.{IsDamaged};
ghost use Rattle.kv_durable.specs.declared.error.DurableError.TheVariants.{FileBusy, FileFault, OtherBucket, Refused};
ghost use Rattle.kv_durable_live.specs.Openings.{GoesOnFrom, IsRead, IsRefusedBy, LeavesFile};
ghost use Rattle.kv_durable_live.specs.Sharing.{IsAt};
ghost use Rattle.kv_journal.specs.Damage.{ShowsDamage};
ghost use Rattle.kv_journal.specs.Entries.{Entry, acts_of};
ghost use Rattle.kv_journal.specs.Header.{BeginsWith, configuration_payload};
ghost use Rattle.kv_single.specs.Held.{Represents};

use crate::keeper::DurableKeeper;
use crate::live::DurableLive;
use kv_bucket::{Began, Bucket, ChosenActs, Config, KvError, Live, LiveName, Notifier, Reader};
use kv_durable::{Durable, DurableError, Journal, JournalFile, NotDone, ReplaceableFile, Sync};
use std::alloc::Global;
use std::marker::Brand;
use std::snapshot::Snapshot;
use std::sync::{Mutex, Wait};

/// An opening that has no name yet, and its file.
pub struct Opened<F: JournalFile> {
    pub(crate) opened: kv_bucket::Opened,
    pub(crate) journal: Journal<F>,
}

// The bucket of an opening, of which what is published begins with these acts.
fn opened_from<B: Began>(
    alloc: Global,
    config: &Config,
    bucket: &Bucket,
    readers: usize,
) -> Result<kv_bucket::Opened, KvError>
    requires may { may_open config.now readers ≡ Ok config.now }
    requires represents { Represents (state_of config.now B.acts) bucket.now }
    ensures ok { IfOk result (λ o. (may_open config.now readers ≡ Ok config.now) × (o.opening.config ≡ config.now)
        × (o.readers ≡ readers)) }
    ensures began { IfOk result (λ o. o.opening.book.began ≡ B.acts) }
    ensures refused { IfErr result (λ e. Refuses e (may_open config.now readers)) }
{
    let version = bucket.version().snapshot()?;
    Live::open_from::<B>(alloc, config, version, readers)
}

// The opening whose acts are these.
fn named<B: Began, F: JournalFile>(
    alloc: Global,
    config: &Config,
    acts: &ChosenActs,
    durable: Durable<F>,
    readers: usize,
) -> Result<Opened<F>, NotDone<F>>
    requires may { may_open config.now readers ≡ Ok config.now }
    requires acts { B.acts ≡ acts.now }
    requires represents { Represents (state_of config.now B.acts) durable.bucket }
    ensures ok { IfOk result (λ o. (may_open config.now readers ≡ Ok config.now)
        × (o.opened.opening.config ≡ config.now) × (o.opened.readers ≡ readers)) }
    ensures began { IfOk result (λ o. o.opened.opening.book.began ≡ acts.now) }
    ensures journal { IfOk result (λ o. o.journal ≡ durable.journal) }
    ensures refused { IfErr result (λ r. IsRefusedBy (may_open config.now readers) r.error) }
    ensures file { IfErr result (λ r. r.file ≡ durable.journal.appender.file) }
{
    let (bucket, journal) = durable.into_parts();
    match opened_from::<B>(alloc, config, &bucket, readers) {
        Ok(opened) => Ok(Opened { opened, journal }),
        Err(error) => Err(NotDone {
            error: DurableError::Refused(error),
            file: journal.into_file(),
        }),
    }
}

// The opening of what was read of a file.
fn of_read<F: JournalFile>(
    alloc: Global,
    config: &Config,
    before: &Snapshot<F>,
    read: kv_durable::Opened<F>,
    readers: usize,
) -> Result<Opened<F>, NotDone<F>>
    requires may { may_open config.now readers ≡ Ok config.now }
    requires read { (base : Base) × (entries : List Entry)
        × IsRead F.has F.usable config.now before.now.value base entries read.durable read.dropped }
    ensures ok { IfOk result (λ o. (may_open config.now readers ≡ Ok config.now)
        × (o.opened.opening.config ≡ config.now) × (o.opened.readers ≡ readers)) }
    ensures from { IfOk result (λ o.
        GoesOnFrom F.has F.usable config.now before.now.value o.journal o.opened.opening.book.began) }
    ensures journal { IfOk result (λ o. o.journal ≡ read.durable.journal) }
    ensures refused { IfErr result (λ r. IsRefusedBy (may_open config.now readers) r.error) }
    ensures file { IfErr result (λ r. r.file ≡ read.durable.journal.appender.file) }
{
    let about = (config, before, &read);
    let acts = ChosenActs::of::<Brand, _>(&about);
    named::<Brand, F>(alloc, config, &acts, read.durable, readers)
}

impl<F: JournalFile> DurableLive<Brand, F> {
    /// Opens the bucket of a file, for 1 to 32 readers. An empty file, where it lies at such a location, is replaced by that of a new
    /// bucket, with this seed, and any other goes on, as `Durable::open` does it: what is published begins with the acts that the
    /// file has. The configuration and the number of readers are checked before the file is touched.
    ///
    /// Of a file that begins with a checkpoint, what is published begins with acts in whose place that can stand: all that is read
    /// of the bucket is the same whichever they are.
    pub fn open<P>(
        alloc: Global,
        config: &Config,
        file: F,
        location: &P,
        seed: u64,
        sync: Sync,
        readers: usize,
    ) -> Result<Opened<F>, NotDone<F>>
    where
        F: ReplaceableFile<P>,
        ensures ok { IfOk result (λ o. (may_open config.now readers ≡ Ok config.now)
            × (o.opened.opening.config ≡ config.now) × (o.opened.readers ≡ readers)) }
        ensures new { IfOk result (λ o. F.usable file ≡ true → F.has file [] [] →
            Keeps F.has F.usable (fresh config.now) [] [] o.journal × (o.opened.opening.book.began ≡ [])) }
        ensures seed { IfOk result (λ o. F.usable file ≡ true → F.has file [] [] → o.journal.framing.seed ≡ seed) }
        ensures from { IfOk result (λ o.
            GoesOnFrom F.has F.usable config.now file o.journal o.opened.opening.book.began) }
        ensures sync { IfOk result (λ o. o.journal.appender.sync ≡ sync) }
        // The file of a bucket is not refused as damaged, unless it shows damage behind its entries.
        ensures damaged { IfErr result (λ r. IsDamaged r.error → (kept loose : List ℕ) → F.has file kept loose →
            (base : Base) (other : ℕ) (entries : List Entry) (rest : List ℕ) → base.config ≡ config.now →
            Reads base (kept ++ loose) other entries rest → ShowsDamage other (length (file_of other base entries)) rest) }
        ensures other { IfErr result (λ r. r.error ≡ OtherBucket → (kept loose : List ℕ) → F.has file kept loose →
            (other : ℕ) × (payload : List ℕ) × (rest : List ℕ)
            × BeginsWith (kept ++ loose) other payload rest × (payload ≢ configuration_payload config.now)) }
        ensures refused { IfErr result (λ r. (x : AnError) → r.error ≡ Refused x → Refuses x (may_open config.now readers)) }
        ensures left { IfErr result (λ r. F.usable file ≡ true → (kept loose : List ℕ) → F.has file kept loose →
            LeavesFile F.has config.now seed kept loose r.file) }
        ensures fault { IfErr result (λ r. r.error ≡ FileFault → F.usable file ≡ true → F.faults file < F.faults r.file) }
        ensures empty { IfErr result (λ r. F.has file [] [] → IsRefusal r.error) }
        ensures never { IfErr result (λ r. r.error ≢ FileBusy) }
    {
        if let Err(error) = Live::check(config, readers) {
            return Err(NotDone {
                error: DurableError::Refused(error),
                file,
            });
        }
        let before = Snapshot::of(&file);
        match Durable::open(alloc, config, file, location, seed, sync) {
            Ok(read) => of_read(alloc, config, &before, read, readers),
            Err(refused) => Err(refused),
        }
    }
}

impl<F: JournalFile> Opened<F> {
    /// What lies under the lock, under a name, what tells its readers, and these, which have seen nothing and are told of the acts
    /// that the file had. Where it is refused the opening ends, and the file is as it was opened.
    pub(crate) fn keeper<N: LiveName, R: Wait>(
        self,
        rt: &R,
    ) -> Result<(DurableKeeper<N, F>, Notifier<N>, Vec<Reader<N>>), NotDone<F>>
        requires { self.opened.opening ≡ N.opening }
        ensures at { IfOk result (λ r. (base : Base) (entries : List Entry) → base.config ≡ N.opening.config →
            N.opening.book.began ≡ acts_before base ++ acts_of entries → Keeps F.has F.usable base entries [] self.journal →
            (at : IsAt F.has F.usable (state_of N.opening.config N.opening.book.began) entries [] r.0.keeper r.0.journal)
            × (at.durable.base ≡ base)) }
        ensures ok { IfOk result
            (λ r. (r.0.journal ≡ self.journal) × (length r.2.items ≡ self.opened.readers)
            × All (λ reader. (reader.seen ≡ []) × (reader.told ≡ N.opening.book.began)) r.2.items) }
        ensures refused { IfErr result
            (λ r. ((x : AnError) × (r.error ≡ Refused x) × IsUnread x) × (r.file ≡ self.journal.appender.file)) }
    {
        let Opened { opened, journal } = self;
        match opened.keeper::<N, R>(rt) {
            Ok((keeper, notifier, readers)) => Ok((
                DurableKeeper { keeper, journal },
                notifier,
                readers,
            )),
            Err(error) => Err(NotDone {
                error: DurableError::Refused(error),
                file: journal.into_file(),
            }),
        }
    }

    /// The bucket under a name, and its readers, which have seen nothing and are told of the acts that the file had: all that they
    /// see begins with these. Where it is refused the opening ends, and the file is as it was opened.
    pub fn live<N: LiveName, R: Wait>(
        self,
        rt: &R,
    ) -> Result<(DurableLive<N, F>, Vec<Reader<N>>), NotDone<F>>
        requires { self.opened.opening ≡ N.opening }
        ensures ok { IfOk result
            (λ r. (length r.1.items ≡ self.opened.readers)
            × All (λ reader. (reader.seen ≡ []) × (reader.told ≡ N.opening.book.began)) r.1.items) }
        ensures refused { IfErr result
            (λ r. ((x : AnError) × (r.error ≡ Refused x) × IsUnread x) × (r.file ≡ self.journal.appender.file)) }
    {
        let (keeper, notifier, readers) = self.keeper::<N, R>(rt)?;
        let live = DurableLive {
            keeper: Mutex::new(keeper),
            notifier,
        };
        Ok((live, readers))
    }
}
