//! Receipts for what was written, and marks behind what is published.

ghost use Rattle.std.specs.Prelude.{◌≡◌};
ghost use Rattle.kv_bucket.specs.Receipts.{EndsAt};

use kv_publish::{LiveName, Prefix};
use std::marker::Model;

/// Tells how far what is published goes, to any number of readers of the same opening. Contracts see it as the acts that
/// it tells.
#[derive(Drop)]
pub struct Mark<N: LiveName> {
    prefix: Prefix<N>,
}

impl<N: LiveName> Model for Mark<N> {
    ghost use Rattle.std.specs.Prelude.{List};
    ghost use Rattle.kv_model.specs.Acts.{Act};

    ghost Value = { List Act };

    ghost view = { λ m. m.prefix };
}

impl<N: LiveName> Mark<N> {
    pub(crate) fn new(prefix: Prefix<N>) -> Mark<N>
        ensures { result ≡ prefix }
    {
        Mark { prefix }
    }

    pub(crate) fn prefix(&self) -> &Prefix<N>
        ensures { result.now ≡ self.now }
    {
        &self.prefix
    }
}

/// Tells that a write was accepted, to any number of readers of the same opening. Contracts see it as the acts that it
/// tells, of which the write is the last.
#[derive(Drop)]
pub struct Receipt<N: LiveName> {
    mark: Mark<N>,
    revision: u64,
}

impl<N: LiveName> Model for Receipt<N> {
    ghost use Rattle.std.specs.Prelude.{List};
    ghost use Rattle.kv_model.specs.Acts.{Act};
    ghost use Rattle.kv_bucket.specs.Receipts.{EndsAt};

    ghost Value = { List Act };

    ghost view = { λ r. r.mark };

    ghost invariant = { λ r. EndsAt r.revision r.mark };
}

impl<N: LiveName> Receipt<N> {
    pub(crate) fn new(mark: Mark<N>, revision: u64) -> Receipt<N>
        requires { EndsAt revision mark }
        ensures { result ≡ mark }
    {
        Receipt { mark, revision }
    }

    /// The revision of the write, which is the last act that it tells.
    pub fn revision(&self) -> u64
        ensures { EndsAt result self.now }
    {
        self.revision
    }

    /// The same acts, as a mark.
    pub fn mark(&self) -> &Mark<N>
        ensures { result.now ≡ self.now }
    {
        &self.mark
    }
}
