//! How the compactions of a script on a file are made.

ghost use Rattle.std.specs.Prelude.{◌≡◌, ◌⊎◌, ◌<◌, true, IfErr, IsErrOf, OnErr, OnOk};
ghost use Rattle.kv_keys.specs.Outcome.{Refuses};
ghost use Rattle.kv_keys.specs.declared.error.KvError.{KvError as AnError};
ghost use Rattle.kv_model.specs.Answers.{Compacted};
ghost use Rattle.kv_model.specs.State.{State, may_compact};
ghost use Rattle.kv_model.specs.declared.call.Call.TheVariants.{Compact};
ghost use Rattle.kv_single.specs.Held.{Represents};
ghost use Rattle.kv_single.specs.Stepping.{IsStep};
ghost use Rattle.kv_durable.specs.Durables.{IsRefusal};
ghost use Rattle.kv_durable.specs.Journals.{is_stopped};
ghost use Rattle.kv_durable.specs.declared.error.DurableError.TheVariants.{FileFault, Refused};
ghost use Rattle.kv_durable_script.specs.Keeping.{KeepsOn};

use kv_durable::{Durable, DurableError};
use kv_file::{JournalFile, ReplaceableFile};
use std::random::RandomSource;

/// How compactions of a bucket in a file are made: whether they can replace the file.
pub trait Compacts<F: JournalFile> {
    /// Compacts to the floor, as `Durable::compact`. What comes of the file behind a compaction that was made is no error of
    /// it: the compaction is in the file, and a file that has failed is told by its journal.
    fn compact(&self, durable: &mut Durable<F>, floor: u64) -> Result<(), DurableError>
        ensures same { KeepsOn F.has F.usable durable.old durable.new }
        ensures ok { OnOk result (IsStep durable.old.bucket (Compact floor) (Compacted floor) durable.new.bucket) }
        ensures refused { IfErr result (λ e. (x : AnError) → e ≡ Refused x → (state : State) →
            Represents state durable.old.bucket → Refuses x (may_compact floor state)) }
        ensures unchanged { OnErr result (durable.new.bucket ≡ durable.old.bucket) }
        ensures fault { IsErrOf result FileFault → (is_stopped F.usable durable.old.journal ≡ true)
            ⊎ (F.faults durable.old.journal.appender.file < F.faults durable.new.journal.appender.file) }
        ensures no_other { IfErr result IsRefusal };
}

/// Compactions that leave the file, as one that cannot be replaced wants.
#[derive(Clone, Copy, Debug, PartialEq, Eq)]
pub struct InPlace;

impl<F: JournalFile> Compacts<F> for InPlace {
    fn compact(&self, durable: &mut Durable<F>, floor: u64) -> Result<(), DurableError> {
        durable.compact(floor)
    }
}

/// Compactions behind which a file that lies at this location is replaced by a checkpoint, where it has more than twice the bytes
/// of the new one.
#[derive(Drop)]
pub struct Replacing<'a, P, S> {
    pub location: &'a P,
    /// Each new file has a number from here.
    pub seeds: &'a S,
}

impl<'a, P, S: RandomSource> Replacing<'a, P, S> {
    // A number for a new file, by chance.
    fn seed(&self) -> Option<u64> {
        let mut bytes = [0u8; 8];
        match self.seeds.fill_bytes(&mut bytes) {
            Ok(()) => Some(u64::from_be_bytes(bytes)),
            Err(_) => None,
        }
    }
}

impl<'a, P, S: RandomSource, F: JournalFile> Compacts<F> for Replacing<'a, P, S>
where
    F: ReplaceableFile<P>,
{
    // Where there is no number for a new file, the old one is left.
    fn compact(&self, durable: &mut Durable<F>, floor: u64) -> Result<(), DurableError> {
        let Some(seed) = self.seed() else {
            return InPlace.compact(durable, floor);
        };
        durable.compact_and_checkpoint(floor, self.location, seed)?;
        Ok(())
    }
}
