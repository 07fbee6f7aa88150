//! Which keys are asked for. A filter without a wildcard is a key, by the grammars of both, and matches that key
//! alone.

ghost use Rattle.std.specs.Prelude.{◌≡◌, ◌++◌, ◌∷◌, if◌then◌else◌, ℕ, Bool, List, IfErr, IfOk, IfSome, [], IsTrue, OnOk};
ghost use Rattle.std.specs.List.{list_any};
ghost use Rattle.std.specs.Str.{bytes_eq};
ghost use Rattle.kv_keys.specs.declared.error.KvError.TheVariants.{OutOfMemory};
ghost use Rattle.kv_keys.specs.Matching.{matches, any_matches};
ghost use Rattle.kv_keys.specs.Grammar.{is_key, parts};
ghost use Rattle.kv_store.specs.Asked.{AreAsked};

use kv_keys::{Filter, Filters, Key, KvError};
use std::alloc::{AllocError, Global};

/// A test of keys.
pub trait Wanted {
    ghost wants_key: { Self → List ℕ → Bool };

    /// Whether the key is asked for.
    fn wants(&self, key: &Key) -> bool
        ensures { result ≡ wants_key self.now key.now };

    /// The keys that are asked for, each once, where each is asked for by its name; `None` tells nothing of them. They
    /// are made by the call.
    fn literals(&self, alloc: Global) -> Result<Option<Vec<Key>>, KvError>
        ensures asked { IfOk result (λ keys. IfSome keys (λ keys. AreAsked (wants_key self.now) keys.items)) }
        ensures err { IfErr result (λ error. error ≡ OutOfMemory) };
}

impl Wanted for Filter {
    ghost wants_key = { λ filter. matches filter };

    fn wants(&self, key: &Key) -> bool {
        Filter::matches(self, key)
    }

    fn literals(&self, alloc: Global) -> Result<Option<Vec<Key>>, KvError> {
        Ok(literals(alloc, self.as_str())?)
    }
}

impl Wanted for Filters {
    ghost wants_key = { λ filters. any_matches filters };

    fn wants(&self, key: &Key) -> bool {
        Filters::matches(self, key)
    }

    fn literals(&self, alloc: Global) -> Result<Option<Vec<Key>>, KvError> {
        Ok(literals(alloc, self.as_str())?)
    }
}

// The filter as a key, where it is one. One with a wildcard takes no memory.
fn literal(alloc: Global, filter: &str) -> Result<Option<Key>, AllocError>
    ensures { IfOk result (λ key. IfSome key (λ key. (key ≡ filter.now) × IsTrue (is_key filter.now))) }
{
    match Key::parse(alloc, filter) {
        Ok(key) => Ok(Some(key)),
        Err(KvError::BadKey) => Ok(None),
        Err(_) => Err(AllocError),
    }
}

// Adds the key, unless it is there.
fn add_once(keys: &mut Vec<Key>, key: Key) -> Result<(), AllocError>
    ensures { OnOk result (keys.new.items
        ≡ (if list_any (λ k. bytes_eq k key) keys.old.items then keys.old.items else keys.old.items ++ key ∷ [])) }
{
    if !keys.contains(&key) {
        keys.push(key)?;
    }
    Ok(())
}

// The keys that a list of filters asks for, each once, where no filter of it has a wildcard.
fn literals(alloc: Global, filters: &str) -> Result<Option<Vec<Key>>, AllocError>
    ensures { IfOk result (λ keys. IfSome keys (λ keys. AreAsked (any_matches (parts filters.now)) keys.items)) }
{
    let mut keys = Vec::new(alloc);
    for filter in filters.split(',') {
        match literal(alloc, filter)? {
            Some(key) => add_once(&mut keys, key)?,
            None => return Ok(None),
        }
    }
    Ok(Some(keys))
}
