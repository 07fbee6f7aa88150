//! A write of a durable bucket. Its record is added to the file at the moment when nothing else of the write can be refused
//! any more, so the bucket is changed where its nodes lie.

ghost use Rattle.std.specs.Prelude.{◌≡◌, ◌⊎◌, ◌<◌, ◌≤◌, ◌^◌, ℕ, true, false, Err, length, map, IfErr, IfOk, IsErrOf, OnErr, OnOk};
ghost use Rattle.kv_keys.specs.Outcome.{Refuses};
ghost use Rattle.kv_keys.specs.declared.error.KvError.{KvError as AnError};
ghost use Rattle.kv_keys.specs.declared.error.KvError.TheVariants.{OutOfMemory};
ghost use Rattle.kv_journal.specs.Records.{did};
ghost use Rattle.kv_model.specs.Acceptance.{accept};
ghost use Rattle.kv_model.specs.Answers.{Revision};
ghost use Rattle.kv_model.specs.Requests.{asked, value_of};
ghost use Rattle.kv_model.specs.State.{State, after};
ghost use Rattle.kv_model.specs.declared.call.Call.TheVariants.{Write};
ghost use Rattle.kv_single.specs.Held.{Represents};
ghost use Rattle.kv_single.specs.Stepping.{IsStep};
ghost use Rattle.kv_file.specs.declared.appender.Sync.TheVariants.{Every};
ghost use Rattle.kv_durable.specs.Durables.{IsHanded, IsRecorded, IsRefusal, act_of};
ghost use Rattle.kv_durable.specs.Journals.{AddsWrite, LeavesWrite, is_stopped};
ghost use Rattle.kv_durable.specs.declared.error.DurableError.TheVariants.{FileFault, Refused};

use crate::durable::Durable;
use crate::error::DurableError;
use crate::journal::Journal;
use kv_file::JournalFile;
use kv_keys::KvError;
use kv_model::Request;
use kv_single::Bucket;
use kv_trie::Companion;
use std::alloc::{AllocError, Global};

// No bucket takes a longer value.
const MOST_VALUE: usize = 1_048_576;

// The record of a write, which is added to the file together with the write.
#[derive(Drop)]
struct Recording<'a, F: JournalFile> {
    journal: &'a mut Journal<F>,
    alloc: Global,
    request: &'a Request,
}

impl<'a, F: JournalFile> Companion for Recording<'a, F> {
    ghost use Rattle.std.specs.Prelude.{◌≡◌, ◌⊎◌, ◌<◌, ◌^◌, false, length};
    ghost use Rattle.kv_durable.specs.Journals.{AddsWrite, LeavesWrite, is_stopped};
    ghost use Rattle.kv_model.specs.Requests.{asked, value_of};

    ghost ready = { λ r. (is_stopped F.usable r.journal.now ≡ false)
        × (length (value_of (asked r.request.now)) < 2 ^ 31) };

    ghost done = { λ old new. (new.journal.ghost_name ≡ old.journal.ghost_name)
        × AddsWrite F.has F.usable old.request.now old.journal.now new.journal.now };

    ghost kept = { λ old new. (new.journal.ghost_name ≡ old.journal.ghost_name)
        × ((new.journal.now ≡ old.journal.now)
        ⊎ LeavesWrite F.has F.usable F.faults old.request.now old.journal.now new.journal.now) };

    fn commit(&mut self) -> Result<(), AllocError> {
        self.journal.add_write(self.alloc, self.request)
    }
}

// Writes what is asked, and adds its record to the file, or does neither. Where the file fails, that is told as want of memory,
// and the journal is stopped.
fn write_recorded<F: JournalFile>(
    bucket: &mut Bucket,
    journal: &mut Journal<F>,
    request: &Request,
) -> Result<u64, KvError>
    requires goes { is_stopped F.usable journal.old ≡ false }
    requires short { length (value_of (asked request.now)) < 2 ^ 31 }
    ensures ok { IfOk result (λ revision. IsStep bucket.old (Write request.now) (Revision revision) bucket.new) }
    ensures added { OnOk result (AddsWrite F.has F.usable request.now journal.old journal.new) }
    ensures refused { IfErr result (λ e. (state : State) → Represents state bucket.old →
        Refuses e (accept state.config (asked request.now) state.acts)) }
    ensures unchanged { OnErr result (bucket.new ≡ bucket.old) }
    ensures left { IfErr result (λ e. (journal.new ≡ journal.old)
        ⊎ ((e ≡ OutOfMemory) × LeavesWrite F.has F.usable F.faults request.now journal.old journal.new)) }
{
    let alloc = bucket.alloc();
    let mut recording = Recording {
        journal,
        alloc,
        request,
    };
    bucket.write_with(request, &mut recording)
}

impl<F: JournalFile> Durable<F> {
    /// Does what is asked, and answers the revision of the write: its record is in the file then, and on the disk where
    /// that is due. A refused request changes nothing, uses no revision, and is not in the file.
    pub fn write(&mut self, request: &Request) -> Result<u64, DurableError>
        ensures ok { IfOk result
            (λ revision. IsStep self.old.bucket (Write request.now) (Revision revision) self.new.bucket) }
        ensures recorded { OnOk result (IsRecorded F.has F.usable (λ state. after state (Write request.now))
            (λ state. map did (act_of (accept state.config (asked request.now) state.acts))) self.old self.new) }
        ensures every { OnOk result ((n : ℕ) → self.old.journal.appender.sync ≡ Every n → 0 < n →
            self.new.journal.appender.waiting < n) }
        ensures refused { IfErr result (λ e. (x : AnError) → e ≡ Refused x → (state : State) →
            Represents state self.old.bucket → Refuses x (accept state.config (asked request.now) state.acts)) }
        ensures untouched { IfErr result (λ e. (x : AnError) → e ≡ Refused x → self.new ≡ self.old) }
        ensures unchanged { OnErr result (self.new.bucket ≡ self.old.bucket) }
        ensures handed { OnErr result (IsHanded F.has F.usable
            (λ state. map did (act_of (accept state.config (asked request.now) state.acts))) self.old self.new) }
        ensures fault { IsErrOf result FileFault → (is_stopped F.usable self.old.journal ≡ true)
            ⊎ (F.faults self.old.journal.appender.file < F.faults self.new.journal.appender.file) }
        ensures stops { IsErrOf result FileFault → is_stopped F.usable self.new.journal ≡ true }
        ensures stopped { is_stopped F.usable self.old.journal ≡ true → (result ≡ Err FileFault) × (self.new ≡ self.old) }
        ensures no_other { IfErr result IsRefusal }
        ensures same { (self.new.journal.framing ≡ self.old.journal.framing)
            × (self.new.journal.appender.sync ≡ self.old.journal.appender.sync) }
    {
        self.journal.may_add()?;
        if request.value().len() > MOST_VALUE {
            return Err(DurableError::Refused(KvError::ValueTooLarge));
        }
        let Durable { bucket, journal } = self;
        match write_recorded(bucket, journal, request) {
            Ok(revision) => Ok(revision),
            Err(_) if journal.is_stopped() => Err(DurableError::FileFault),
            Err(refusal) => Err(DurableError::Refused(refusal)),
        }
    }
}
