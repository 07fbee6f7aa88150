//! The configuration of a bucket.

ghost use Rattle.std.specs.Prelude.{◌≡◌, Ok, Err, OnOk, IfErr, IfOk};
ghost use Rattle.kv_keys.specs.Outcome.{Refuses};
ghost use Rattle.kv_model.specs.Configuration.{IsLegal, configure, has_legal_numbers};

use kv_keys::{KvError, is_name};
use std::alloc::Global;
use std::marker::Model;

const MOST_HISTORY: u64 = 64;

const MOST_VALUE: u64 = 1_048_576;

const MOST_WRITES: u64 = 1_000_000;

const MOST_REVISIONS: u64 = 4_294_967_295;

/// A bucket's name and its limits. `check` and `Version::empty` check them.
#[derive(Drop)]
pub struct Config {
    /// The name: 1 to 64 ASCII letters, digits, `_` and `-`.
    pub bucket: String,
    /// How many entries of each key are kept: 1 to 64.
    pub history: u64,
    /// How many bytes a value may have: 0 to 1,048,576.
    pub value_limit: u64,
    /// How many writes may be stored: 1 to 1,000,000.
    pub write_limit: u64,
    /// The last revision that may be given: 1 to 4,294,967,295.
    pub revision_limit: u64,
}

impl Model for Config {
    ghost use Rattle.std.specs.Prelude.{string_bytes};
    ghost use Rattle.kv_model.specs.Configuration.{Configuration};

    ghost Value = { Configuration };

    ghost view = { λ c. record {
      bucket = string_bytes c.bucket;
      history = c.history;
      value_limit = c.value_limit;
      write_limit = c.write_limit;
      revision_limit = c.revision_limit;
    } };
}

impl Config {
    ghost use Rattle.kv_keys.specs.declared.error.KvError.TheVariants.{OutOfMemory};

    /// The configuration of a bucket with this name: one entry of each key is kept, and the limits are the largest. The
    /// name isn't checked.
    pub fn named(alloc: Global, bucket: &str) -> Result<Config, KvError>
        ensures ok { IfOk result (λ config. config ≡ record {
          bucket = bucket.now;
          history = 1;
          value_limit = 1048576;
          write_limit = 1000000;
          revision_limit = 4294967295;
        }) }
        ensures err { IfErr result (λ e. e ≡ OutOfMemory) }
    {
        Ok(Config {
            bucket: String::from_str(alloc, bucket)?,
            history: 1,
            value_limit: MOST_VALUE,
            write_limit: MOST_WRITES,
            revision_limit: MOST_REVISIONS,
        })
    }

    /// Whether each number is within its limits.
    fn has_legal_numbers(&self) -> bool
        ensures { result ≡ has_legal_numbers self.now }
    {
        (1 <= self.history && self.history <= MOST_HISTORY)
            && self.value_limit <= MOST_VALUE
            && (1 <= self.write_limit && self.write_limit <= MOST_WRITES)
            && (1 <= self.revision_limit && self.revision_limit <= MOST_REVISIONS)
    }

    /// Refuses a configuration that is not legal: for its name first, then for its numbers. It takes no memory.
    pub fn check(&self) -> Result<(), KvError>
        ensures ok { OnOk result (IsLegal self.now × (configure self.now ≡ Ok self.now)) }
        ensures refused { IfErr result (λ e. (configure self.now ≡ Err e) × Refuses e (configure self.now)) }
    {
        if !is_name(self.bucket.as_str()) {
            return Err(KvError::BadBucket);
        }
        if !self.has_legal_numbers() {
            return Err(KvError::BadConfig);
        }
        Ok(())
    }
}
