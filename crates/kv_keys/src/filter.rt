//! Filters: which keys a watch or a listing asks for.

ghost use Rattle.std.specs.Prelude.{◌≡◌, if◌then◌else◌, IfOk, IfErr, IsTrue};
ghost use Rattle.kv_keys.specs.Grammar.{is_filter};
ghost use Rattle.kv_keys.specs.Matching.{matches};

use crate::error::KvError;
use crate::key::Key;
use crate::{grammar, matching};
use std::alloc::Global;
use std::marker::Model;

/// A filter: tokens with a dot between two, 1 to 255 bytes. A token is a literal of one or more characters of keys, or
/// `*` for any one token, or at the end `>` for one or more tokens (NATS ADR-8). So `a.>` doesn't match `a`.
///
/// Contracts see a filter as its bytes.
#[derive(Debug, Drop)]
pub struct Filter {
    text: String,
}

impl Model for Filter {
    ghost use Rattle.std.specs.Prelude.{ℕ, List, IsTrue, string_bytes};
    ghost use Rattle.kv_keys.specs.Grammar.{is_filter};

    ghost Value = { List ℕ };

    ghost view = { λ filter. string_bytes filter.text };

    ghost invariant = { λ filter. IsTrue (is_filter (string_bytes filter.text)) };
}

impl Filter {
    ghost use Rattle.kv_keys.specs.declared.error.KvError.TheVariants.{OutOfMemory, BadFilter};

    /// Reads a filter, with one request for memory. A text that is no filter is refused before that.
    pub fn parse(alloc: Global, text: &str) -> Result<Filter, KvError>
        ensures ok { IfOk result (λ filter. (filter ≡ text.now) × IsTrue (is_filter text.now)) }
        ensures err { IfErr result (λ e. e ≡ (if is_filter text.now then OutOfMemory else BadFilter)) }
    {
        if !grammar::is_filter(text) {
            return Err(KvError::BadFilter);
        }
        let text = String::from_str(alloc, text)?;
        Ok(Filter { text })
    }

    /// The text that was read.
    pub fn as_str(&self) -> &str
        ensures value { result.now ≡ self.now }
        ensures filter { IsTrue (is_filter self.now) }
    {
        self.text.as_str()
    }

    /// Whether it matches the key. It takes no memory, and reads each byte of both a fixed number of times.
    pub fn matches(&self, key: &Key) -> bool
        ensures { result ≡ matches self.now key.now }
    {
        matching::matches(self.as_str(), key.as_str())
    }

    /// An equal filter, in memory of its own.
    pub fn copy(&self, alloc: Global) -> Result<Filter, KvError>
        ensures ok { IfOk result (λ filter. filter ≡ self.now) }
        ensures err { IfErr result (λ e. e ≡ OutOfMemory) }
    {
        let text = String::from_str(alloc, self.as_str())?;
        Ok(Filter { text })
    }
}
