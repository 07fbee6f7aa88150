//! What is published.

ghost use Rattle.std.specs.Prelude.{◌≡◌, IfOk, IfErr};
ghost use Rattle.kv_keys.specs.declared.error.KvError.TheVariants.{OutOfMemory};
ghost use Rattle.kv_publish.specs.Beginnings.{count_of};
ghost use Rattle.kv_store.specs.Standing.{StandsFor};

use crate::prefix::RawPrefix;
use kv_keys::KvError;
use kv_store::Version;
use std::marker::Model;

/// A version, and a prefix of the history: the version stands for its acts.
pub struct Publication {
    version: Version,
    raw_prefix: RawPrefix,
}

// Field by field: a derived drop makes each proof longer that owns one.
impl Drop for Publication {
    fn drop(self) {
        let Self {
            version: _,
            raw_prefix: _,
        } = self;
    }
}

impl Model for Publication {
    ghost use Rattle.kv_store.specs.Standing.{StandsFor};
    ghost use Rattle.kv_publish.specs.Publications.{Published};

    ghost Value = { Published };

    ghost view = { λ s. record { version = s.version; raw_prefix = s.raw_prefix } };

    ghost invariant = { λ s. StandsFor s.raw_prefix.acts s.version };
}

impl Publication {
    /// A version, with the beginning of the history that it stands for.
    pub fn new(version: Version, raw_prefix: RawPrefix) -> Publication
        requires { StandsFor raw_prefix.acts version }
        ensures { result ≡ record { version = version; raw_prefix = raw_prefix } }
    {
        Publication {
            version,
            raw_prefix,
        }
    }

    /// The version.
    pub fn version(&self) -> &Version
        ensures value { result.now ≡ self.now.version }
        ensures stands { StandsFor self.now.raw_prefix.acts self.now.version }
    {
        &self.version
    }

    /// The beginning of the history that the version stands for.
    pub fn raw_prefix(&self) -> &RawPrefix
        ensures { result.now ≡ self.now.raw_prefix }
    {
        &self.raw_prefix
    }

    /// How far that beginning is.
    pub fn acts(&self) -> u64
        ensures { result ≡ count_of self.now.raw_prefix.book.began self.now.raw_prefix.acts }
    {
        self.raw_prefix.len()
    }

    /// The version, which leaves the rest behind.
    pub fn into_version(self) -> Version
        ensures value { result ≡ self.version }
        ensures stands { StandsFor self.raw_prefix.acts self.version }
    {
        let Publication {
            version,
            raw_prefix: _,
        } = self;
        version
    }

    /// An equal publication: one snapshot of the version.
    pub fn try_clone(&self) -> Result<Publication, KvError>
        ensures ok { IfOk result (λ s. (s.version ≡ self.now.version) × (s.raw_prefix ≡ self.now.raw_prefix)) }
        ensures stands { IfOk result (λ s. StandsFor self.now.raw_prefix.acts s.version) }
        ensures err { IfErr result (λ e. e ≡ OutOfMemory) }
    {
        let version = self.version.snapshot()?;
        Ok(Publication {
            version,
            raw_prefix: self.raw_prefix.copy(),
        })
    }
}
