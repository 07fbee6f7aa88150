//! Lists of filters.

ghost use Rattle.std.specs.Prelude.{◌≡◌, [], ◌∷◌, length, if◌then◌else◌, IfOk, IfErr, IsTrue};
ghost use Rattle.std.specs.List.{join_with_byte, list_all};
ghost use Rattle.kv_keys.specs.Grammar.{parts, is_filter, are_filters};
ghost use Rattle.kv_keys.specs.Matching.{any_matches};

use crate::error::KvError;
use crate::filter::Filter;
use crate::key::Key;
use crate::{grammar, matching};
use std::alloc::Global;
use std::marker::Model;

const MOST_FILTERS: usize = 16;

/// A list of 1 to 16 filters, which matches a key where one of them does. Some may be equal. In its text a comma stands
/// between two.
///
/// Contracts see the list of the filters.
#[derive(Debug, Drop)]
pub struct Filters {
    text: String,
}

impl Model for Filters {
    ghost use Rattle.std.specs.Prelude.{ℕ, List, IsTrue, string_bytes};
    ghost use Rattle.kv_keys.specs.Grammar.{parts, are_filters};

    ghost Value = { List (List ℕ) };

    ghost view = { λ filters. parts (string_bytes filters.text) };

    ghost invariant = { λ filters. IsTrue (are_filters (parts (string_bytes filters.text))) };
}

fn count_of(text: &str) -> usize
    ensures { result ≡ length (parts text.now) }
{
    text.split(',').count()
}

fn all_filters(text: &str) -> bool
    ensures { result ≡ list_all is_filter (parts text.now) }
{
    text.split(',').all(|part| grammar::is_filter(part))
}

#[tactic(auto, using(crate::proofs::Parts::parts_some), unfolding(crate::specs::Grammar::are_filters))]
fn are_filters(text: &str) -> bool
    ensures { result ≡ are_filters (parts text.now) }
{
    count_of(text) <= MOST_FILTERS && all_filters(text)
}

fn any_matches(text: &str, key: &str) -> bool
    ensures { result ≡ any_matches (parts text.now) key.now }
{
    text.split(',').any(|filter| matching::matches(filter, key))
}

impl Filters {
    ghost use Rattle.kv_keys.specs.declared.error.KvError.TheVariants.{OutOfMemory, BadFilter};

    /// Reads a list of filters, with one request for memory. A text that is no list of filters is refused before that.
    pub fn parse(alloc: Global, text: &str) -> Result<Filters, KvError>
        ensures ok { IfOk result (λ filters. (filters ≡ parts text.now) × IsTrue (are_filters (parts text.now))) }
        ensures err { IfErr result (λ e. e ≡ (if are_filters (parts text.now) then OutOfMemory else BadFilter)) }
    {
        if !are_filters(text) {
            return Err(KvError::BadFilter);
        }
        let text = String::from_str(alloc, text)?;
        Ok(Filters { text })
    }

    /// The list of one filter.
    #[tactic(auto, using(crate::proofs::Parts::parts_one, crate::proofs::Parts::are_filters_one))]
    pub fn one(alloc: Global, filter: &Filter) -> Result<Filters, KvError>
        ensures ok { IfOk result (λ filters. filters ≡ filter.now ∷ []) }
        ensures err { IfErr result (λ e. e ≡ OutOfMemory) }
    {
        let text = String::from_str(alloc, filter.as_str())?;
        Ok(Filters { text })
    }

    /// The filters with a comma between two.
    pub fn as_str(&self) -> &str
        ensures value { result.now ≡ join_with_byte 44 self.now }
        ensures parts { parts result.now ≡ self.now }
        ensures filters { IsTrue (are_filters self.now) }
    {
        self.text.as_str()
    }

    /// How many filters the list has.
    pub fn count(&self) -> u64
        ensures { result ≡ length self.now }
    {
        count_of(self.as_str()) as u64
    }

    /// Whether one of the filters matches the key. It takes no memory, and reads each byte a fixed number of times for
    /// each filter.
    pub fn matches(&self, key: &Key) -> bool
        ensures { result ≡ any_matches self.now key.now }
    {
        any_matches(self.as_str(), key.as_str())
    }

    /// An equal list, in memory of its own.
    pub fn copy(&self, alloc: Global) -> Result<Filters, KvError>
        ensures ok { IfOk result (λ filters. filters ≡ self.now) }
        ensures err { IfErr result (λ e. e ≡ OutOfMemory) }
    {
        let text = String::from_str(alloc, self.as_str())?;
        Ok(Filters { text })
    }
}
