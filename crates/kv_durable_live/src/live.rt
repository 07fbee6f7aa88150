//! The bucket that threads share by reference, and its opening on a file.

ghost use Rattle.std.specs.Prelude.{◌≡◌, [], List, IfErr, IfOk, IsOk, OnOk, map, true};
ghost use Rattle.std.specs.Sync.Mutex.{mutex_guard_value};
ghost use Rattle.kv_bucket.specs.Batches.{RefusedAllSomewhere, WritesAllSomewhere};
ghost use Rattle.kv_bucket.specs.Histories.{IsPublishedHistory};
ghost use Rattle.kv_bucket.specs.Keeping.{CompactsSomewhere, IsSomewhere, PublishesWrite, RefusedSomewhere, UncompactedSomewhere, WritesSomewhere};
ghost use Rattle.kv_durable.specs.Durables.{IsRefusal};
ghost use Rattle.kv_durable.specs.declared.error.BatchError.TheVariants as batches;
ghost use Rattle.kv_durable.specs.declared.error.DurableError.TheVariants.{Refused};
ghost use Rattle.kv_keys.specs.declared.error.KvError.{KvError as AnError};
ghost use Rattle.kv_model.specs.Acceptance.{IsLawful};
ghost use Rattle.kv_model.specs.Acts.{Act};
ghost use Rattle.kv_model.specs.Requests.{asked};
ghost use Rattle.kv_model.specs.declared.batch.BatchRefused.{BatchRefused as ARefusal};

use crate::keeper::DurableKeeper;
use kv_bucket::{LiveName, Notifier, Receipt};
use kv_durable::{BatchError, DurableError, JournalFile, NotDone};
use kv_model::Request;
use std::sync::{Mutex, MutexGuard, Wait};

/// The durable bucket of the opening N. Threads share it by reference. It has the calls of a `Live`; what concerns its file alone, as
/// checkpoints and syncs, are calls of its keeper, for which `lock` waits. It is not `Drop`: end it by `close`.
pub struct DurableLive<N: LiveName, F: JournalFile> {
    pub(crate) keeper: Mutex<DurableKeeper<N, F>>,
    /// It tells the readers that sleep.
    pub(crate) notifier: Notifier<N>,
}

// Writes. What is answered is what the rules give after the acts that were published before, which are lawful.
fn write_on<N: LiveName, F: JournalFile, R: Wait>(
    rt: &R,
    keeper: &mut DurableKeeper<N, F>,
    request: &Request,
) -> Result<u64, DurableError>
    ensures ok { IfOk result
        (λ revision. (later : List Act) × WritesSomewhere N.opening.config (asked request.now) revision later) }
    ensures refused { IfErr result (λ e. (x : AnError) → e ≡ Refused x →
        RefusedSomewhere N.opening.config (asked request.now) x) }
    ensures no_other { IfErr result IsRefusal }
{
    keeper.keeper();
    keeper.write(rt, request)
}

// Writes, and tells of it.
fn write_and_tell<N: LiveName, F: JournalFile, R: Wait>(
    rt: &R,
    keeper: &mut DurableKeeper<N, F>,
    request: &Request,
) -> Result<(u64, Receipt<N>), DurableError>
    ensures ok { IfOk result (λ r. PublishesWrite N.opening.config (asked request.now) r.0 keeper.old.keeper.published r.1) }
    ensures lawful { IfOk result (λ r. IsLawful N.opening.config r.1) }
    ensures refused { IfErr result (λ e. (x : AnError) → e ≡ Refused x →
        RefusedSomewhere N.opening.config (asked request.now) x) }
    ensures no_other { IfErr result IsRefusal }
{
    keeper.keeper();
    let told = keeper.write_told(rt, request)?;
    keeper.keeper();
    Ok(told)
}

// Writes all. What is answered is what the rules give after the acts that were published before, which are lawful.
fn write_all_on<N: LiveName, F: JournalFile, R: Wait>(
    rt: &R,
    keeper: &mut DurableKeeper<N, F>,
    requests: &[Request],
) -> Result<u64, BatchError>
    ensures ok { IfOk result (λ first. (requests.now ≡ [] → ⊥) →
        (later : List Act) × WritesAllSomewhere N.opening.config (map asked requests.now) first later) }
    ensures none { requests.now ≡ [] → IsOk result }
    ensures refused { IfErr result (λ e. (x : ARefusal) → e ≡ batches.Refused x →
        RefusedAllSomewhere N.opening.config (map asked requests.now) x) }
{
    keeper.keeper();
    keeper.write_all(rt, requests)
}

// Compacts. What is answered is what the rules give at a state of the acts that were published before, which are lawful.
fn compact_on<N: LiveName, F: JournalFile, R: Wait>(
    rt: &R,
    keeper: &mut DurableKeeper<N, F>,
    floor: u64,
) -> Result<(), DurableError>
    ensures ok { OnOk result (CompactsSomewhere N.opening.config floor) }
    ensures refused { IfErr result (λ e. (x : AnError) → e ≡ Refused x →
        UncompactedSomewhere N.opening.config floor x) }
    ensures no_other { IfErr result IsRefusal }
{
    keeper.keeper();
    keeper.compact(rt, floor)
}

impl<N: LiveName, F: JournalFile> DurableLive<N, F> {
    /// The keeper, for several calls in a row, at a state of the model, whose acts are those that are published: one history, of
    /// which all that anybody has seen or was told is a beginning. It waits until the lock is free.
    pub fn lock<R: Wait>(&self, rt: &R) -> MutexGuard<'_, DurableKeeper<N, F>>
        ensures state { IsSomewhere N.opening.config (mutex_guard_value result).keeper }
        ensures history { IsPublishedHistory N.opening (mutex_guard_value result).keeper.published }
    {
        let keeper = self.keeper.lock(rt);
        keeper.keeper();
        keeper
    }

    /// Does what is asked, and answers the revision of the write, as `DurableKeeper::write` does.
    pub fn write<R: Wait>(&self, rt: &R, request: &Request) -> Result<u64, DurableError>
        ensures ok { IfOk result
            (λ revision. (later : List Act) × WritesSomewhere N.opening.config (asked request.now) revision later) }
        ensures refused { IfErr result (λ e. (x : AnError) → e ≡ Refused x →
            RefusedSomewhere N.opening.config (asked request.now) x) }
        ensures no_other { IfErr result IsRefusal }
    {
        let mut keeper = self.keeper.lock(rt);
        write_on(rt, &mut *keeper, request)
    }

    /// The same, with a receipt: readers that learn it see the write from then on. The receipt tells all acts up to the write,
    /// which is its last.
    pub fn write_told<R: Wait>(
        &self,
        rt: &R,
        request: &Request,
    ) -> Result<(u64, Receipt<N>), DurableError>
        ensures ok { IfOk result
            (λ r. (before : List Act) × PublishesWrite N.opening.config (asked request.now) r.0 before r.1) }
        ensures lawful { IfOk result (λ r. IsLawful N.opening.config r.1) }
        ensures refused { IfErr result (λ e. (x : AnError) → e ≡ Refused x →
            RefusedSomewhere N.opening.config (asked request.now) x) }
        ensures no_other { IfErr result IsRefusal }
    {
        let mut keeper = self.keeper.lock(rt);
        write_and_tell(rt, &mut *keeper, request)
    }

    /// Does all that is asked in one step, or nothing, as `DurableKeeper::write_all` does.
    pub fn write_all<R: Wait>(&self, rt: &R, requests: &[Request]) -> Result<u64, BatchError>
        ensures ok { IfOk result (λ first. (requests.now ≡ [] → ⊥) →
            (later : List Act) × WritesAllSomewhere N.opening.config (map asked requests.now) first later) }
        ensures none { requests.now ≡ [] → IsOk result }
        ensures refused { IfErr result (λ e. (x : ARefusal) → e ≡ batches.Refused x →
            RefusedAllSomewhere N.opening.config (map asked requests.now) x) }
    {
        let mut keeper = self.keeper.lock(rt);
        write_all_on(rt, &mut *keeper, requests)
    }

    /// Ends writes, as `DurableKeeper::seal` does.
    pub fn seal<R: Wait>(&self, rt: &R) -> Result<(), DurableError>
        ensures no_other { IfErr result IsRefusal }
    {
        self.keeper.lock(rt).seal(rt)
    }

    /// Compacts to the floor, as `DurableKeeper::compact` does.
    pub fn compact<R: Wait>(&self, rt: &R, floor: u64) -> Result<(), DurableError>
        ensures ok { OnOk result (CompactsSomewhere N.opening.config floor) }
        ensures refused { IfErr result (λ e. (x : AnError) → e ≡ Refused x →
            UncompactedSomewhere N.opening.config floor x) }
        ensures no_other { IfErr result IsRefusal }
    {
        let mut keeper = self.keeper.lock(rt);
        compact_on(rt, &mut *keeper, floor)
    }

    /// Tells those who wait, and those who will, that no write comes any more: their waits end once they have seen all that was
    /// published. It takes no lock, and changes nothing else; a write that comes all the same is published.
    pub fn finish(&self) {
        self.notifier.close();
    }

    /// Ends the bucket's writer: adds to the file that it ends cleanly, brings all onto the disk, and gives the file back.
    /// Readers and feeds go on, to the last version that was published. It waits for the readers that are reading.
    pub fn close<R: Wait>(self, rt: &R) -> Result<F, NotDone<F>>
        ensures usable { IfOk result (λ file. F.usable file ≡ true) }
        ensures no_other { IfErr result (λ r. IsRefusal r.error) }
    {
        let DurableLive {
            keeper,
            notifier: _,
        } = self;
        keeper.into_inner().close(rt)
    }
}
