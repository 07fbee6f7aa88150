//! A durable bucket that a script runs on.

ghost use Rattle.std.specs.Prelude.{◌≡◌};
ghost use Rattle.kv_durable_script.specs.Keeping.{batch_told_as, told_as};

use crate::shrinking::Compacts;
use kv_durable::{BatchError, Durable, DurableError};
use kv_file::JournalFile;
use kv_keys::{Filters, KvError};
use kv_model::{BatchRefused, Options, Request, Stopped};
use kv_replay::Target;
use kv_single::Bucket;

/// A durable bucket that a script runs on. A call that its file refuses is answered as one that could not be made;
/// whether the file has failed its journal tells.
#[derive(Drop)]
pub struct OnDurable<F: JournalFile, C> {
    durable: Durable<F>,
    compaction: C,
}

impl<F: JournalFile, C: Drop> OnDurable<F, C> {
    /// The bucket, to run a script on that is compacted so.
    pub fn new(durable: Durable<F>, compaction: C) -> OnDurable<F, C>
        ensures { result.durable ≡ durable }
    {
        OnDurable {
            durable,
            compaction,
        }
    }

    /// The bucket.
    pub fn durable(&self) -> &Durable<F>
        ensures { result.now ≡ self.now.durable }
    {
        &self.durable
    }

    /// The bucket, which no script runs on any more.
    pub fn into_durable(self) -> Durable<F>
        ensures { result ≡ self.durable }
    {
        let OnDurable {
            durable,
            compaction: _,
        } = self;
        durable
    }
}

// A refusal of the rules is told as it is; every other says that the call could not be made.
fn refusal_of(error: DurableError) -> KvError
    ensures { result ≡ told_as error }
{
    match error {
        DurableError::Refused(error) => error,
        _ => KvError::OutOfMemory,
    }
}

// The same of a batch.
fn batch_refusal_of(error: BatchError) -> BatchRefused
    ensures { result ≡ batch_told_as error }
{
    match error {
        BatchError::Refused(refused) => refused,
        BatchError::FileFault => BatchRefused {
            at: 0,
            error: KvError::OutOfMemory,
        },
    }
}

impl<F: JournalFile, C: Compacts<F> + Drop> Target for OnDurable<F, C> {
    ghost use Rattle.kv_durable_script.specs.Keeping.{KeepsOn, keeps_on_itself, keeps_on_later};

    ghost bucket = { λ k. k.durable.bucket };

    ghost goes_on = { λ a b. KeepsOn F.has F.usable a.durable b.durable };

    fn as_bucket(&self) -> &Bucket {
        self.durable.bucket()
    }

    fn write(&mut self, request: &Request) -> Result<u64, KvError> {
        match self.durable.write(request) {
            Ok(revision) => Ok(revision),
            Err(error) => Err(refusal_of(error)),
        }
    }

    fn write_all(&mut self, requests: &[Request]) -> Result<u64, BatchRefused> {
        match self.durable.write_all(requests) {
            Ok(first) => Ok(first),
            Err(error) => Err(batch_refusal_of(error)),
        }
    }

    fn seal(&mut self) -> Result<(), KvError> {
        match self.durable.seal() {
            Ok(()) => Ok(()),
            Err(error) => Err(refusal_of(error)),
        }
    }

    fn compact(&mut self, floor: u64) -> Result<(), KvError> {
        match self.compaction.compact(&mut self.durable, floor) {
            Ok(()) => Ok(()),
            Err(error) => Err(refusal_of(error)),
        }
    }

    fn watch(&mut self, filters: &Filters, options: Options) -> Result<u64, KvError> {
        self.durable.watch(filters, options)
    }

    fn pass(&mut self, number: u64) {
        self.durable.pass(number);
    }

    fn stop(&mut self, number: u64) -> Result<Stopped, KvError> {
        self.durable.stop(number)
    }

    ghost goes_on_itself = { λ a. keeps_on_itself F.has F.usable a.durable };

    ghost goes_on_later = { λ a b c ab bc. keeps_on_later F.has F.usable a.durable b.durable c.durable ab bc };
}
