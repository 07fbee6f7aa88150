//! The numbers of a bucket, as C sees them.

ghost use Rattle.std.specs.Prelude.{◌≡◌, List};
ghost use Rattle.kv_c.specs.Handing.{numbers_told};
ghost use Rattle.kv_model.specs.Acts.{Act};
ghost use Rattle.kv_model.specs.Answers.{Numbers as Told};
ghost use Rattle.kv_model.specs.Reads.{status_of};
ghost use Rattle.kv_store.specs.Standing.{StandsFor};

use kv_single::Version;

/// How much a bucket holds.
#[repr(C)]
#[derive(Drop)]
pub struct Numbers {
    /// How many entries of each key are kept.
    pub history: u64,
    /// The last revision.
    pub last: u64,
    /// How many writes are stored.
    pub stored: u64,
    /// How many entries are retained, markers included.
    pub values: u64,
    /// How many watches are open; none of a view.
    pub watches: u64,
    /// Whether writes have ended.
    pub sealed: bool,
}

/// The numbers of a version, with those of watches.
pub(crate) fn numbers_of(version: &Version, watches: u64) -> Numbers
    ensures { (acts : List Act) → StandsFor acts version.now →
        numbers_told result ≡ Told (status_of version.now.config.history acts) watches }
{
    let status = version.status();
    Numbers {
        history: status.history,
        last: status.last,
        stored: status.stored,
        values: status.values,
        watches,
        sealed: status.sealed,
    }
}
