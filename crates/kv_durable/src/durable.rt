//! A bucket and its file.

ghost use Rattle.std.specs.Prelude.{◌≡◌};

use crate::error::DurableError;
use crate::journal::Journal;
use kv_file::JournalFile;
use kv_single::Bucket;

/// A bucket that survives its process: each act is in its file before it is answered. It is read as the bucket that it is
/// (`bucket`), and has watches as that does; these end with the process.
///
/// What the rules or memory refuse is refused before the file is touched. Where the file fails, the bucket stays as it was,
/// and nothing more is written, sealed, compacted or synced: each such call is a FileFault, and does not touch the file.
/// Reads and watches go on. The act whose call failed may be in the file, or not: an opening tells.
#[derive(Drop)]
pub struct Durable<F: JournalFile> {
    pub(crate) bucket: Bucket,
    pub(crate) journal: Journal<F>,
}

/// An opening or a closing that was refused, with the file.
#[derive(Drop)]
pub struct NotDone<F> {
    pub error: DurableError,
    pub file: F,
}

impl<F: JournalFile> Durable<F> {
    /// The bucket, for reads.
    pub fn bucket(&self) -> &Bucket
        ensures { result.now ≡ self.now.bucket }
    {
        &self.bucket
    }

    /// The journal, which tells of the file.
    pub fn journal(&self) -> &Journal<F>
        ensures { result.now ≡ self.now.journal }
    {
        &self.journal
    }

    /// A bucket with its journal.
    pub fn from_parts(bucket: Bucket, journal: Journal<F>) -> Durable<F>
        ensures { (result.bucket ≡ bucket) × (result.journal ≡ journal) }
    {
        Durable { bucket, journal }
    }

    /// The bucket, and its journal.
    pub fn into_parts(self) -> (Bucket, Journal<F>)
        ensures { (result.0 ≡ self.bucket) × (result.1 ≡ self.journal) }
    {
        let Durable { bucket, journal } = self;
        (bucket, journal)
    }
}
