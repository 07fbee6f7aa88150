//! The stored writes, in the order of their revisions.

ghost use Rattle.std.specs.Prelude.{◌≡◌, List, map, IfOk, IsPermutation};
ghost use Rattle.std.specs.List.Sorted.{IsNonDecreasingBy};
ghost use Rattle.std.specs.Ordering.{nat_cmp};
ghost use Rattle.kv_model.specs.Acts.{Act};
ghost use Rattle.kv_model.specs.Compaction.{stored_writes};
ghost use Rattle.kv_trie.specs.Form.{Ascends, order};
ghost use Rattle.kv_trie.specs.Numbered.{lent};
ghost use Rattle.kv_store.specs.Places.{place_of_revision};
ghost use Rattle.kv_store.specs.Standing.{StandsFor};

use crate::rev::Rev;
use crate::version::Version;
use kv_model::Write;
use kv_trie::{Numbers, Trie};
use std::alloc::{AllocError, Global};

// Asks of a write for its revision.
#[derive(Drop)]
struct Revision;

impl Numbers<Rev, Write> for Revision {
    ghost use Rattle.std.specs.Prelude.{Some};

    ghost number = { λ asker revision write. Some revision };

    fn number(&self, revision: &Rev, _write: &Write) -> Option<u64> {
        Some(u64::from(revision.number()))
    }
}

// The writes behind their revisions, in order. Where there is none, nothing is asked for.
fn sorted(alloc: Global, by_revision: &Trie<Rev, Write>) -> Result<Vec<(u64, &Write)>, AllocError>
    ensures keys { Ascends (order nat_cmp place_of_revision 7) by_revision.now }
    ensures same { IfOk result (λ found. IsPermutation by_revision.now (lent found.items)) }
    ensures sorted { IfOk result (λ found. IsNonDecreasingBy (λ f. f.0) found.items) }
{
    if by_revision.len() == 0 {
        return Ok(Vec::new(alloc));
    }
    let mut found = by_revision.numbered(alloc, &Revision)?;
    found.sort_unstable_by_key(|f| f.0);
    Ok(found)
}

impl Version {
    /// The stored writes, each behind its revision, in the order of these. It looks at each once, and sorts them.
    pub fn stored_writes(&self, alloc: Global) -> Result<Vec<(u64, &Write)>, AllocError>
        ensures { IfOk result (λ found. (acts : List Act) → StandsFor acts self.now →
            map (λ f. f.1.now) found.items ≡ stored_writes self.now.config.history acts) }
    {
        sorted(alloc, self.by_revision())
    }
}
