//! What is stored of a key, and which revisions of it are kept after one more write.

ghost use Rattle.std.specs.Prelude.{◌≡◌, ◌==◌, ◌<◌, ◌∷◌, ◌++◌, [], unwrap_or, IfOk};
ghost use Rattle.std.specs.Option.{option_copied, option_map};
ghost use Rattle.std.specs.Arc.{arc_value};
ghost use Rattle.std.specs.List.{list_any};
ghost use Rattle.kv_model.specs.Retained.{last_n};
ghost use Rattle.kv_store.specs.inside.Compacted.{kept_in};
ghost use Rattle.kv_store.specs.inside.Fields.{kept_entries};
ghost use Rattle.kv_store.specs.inside.Next.{next_kept};

use crate::rev::Rev;
use kv_keys::Key;
use kv_model::{Op, Write};
use kv_trie::Trie;
use smallvec::SmallVec;
use std::alloc::{AllocError, Global};
use std::marker::Model;
use std::sync::Arc;

/// Revisions of a key. Five lie in what is stored of the key, and more in memory of their own.
pub type Revisions = SmallVec<u64, 5>;

/// What is stored of a key: the revisions that are kept of it, in order, and its last write. The entry of that write is
/// the one that the trie of revisions has, so who asks for the last write of a key looks into one trie.
pub struct KeyHistory {
    // It lies before the revisions, and so beside the key: a look-up of the last write looks at both.
    last: Arc<(Rev, Write)>,
    revisions: Revisions,
}

// Field by field: a derived drop makes each proof longer that owns one.
impl Drop for KeyHistory {
    fn drop(self) {
        let Self {
            last: _,
            revisions: _,
        } = self;
    }
}

impl Model for KeyHistory {
    ghost use Rattle.std.specs.Arc.{arc_value};
    ghost use Rattle.kv_store.specs.Stored.{KeyHistory};

    ghost Value = { KeyHistory };

    ghost view = { λ kept. record { revisions = kept.revisions.items; last = (arc_value kept.last).1 } };
}

impl KeyHistory {
    /// These revisions and this write.
    pub(crate) fn new(revisions: Revisions, last: Arc<(Rev, Write)>) -> KeyHistory
        ensures { result ≡ record { revisions = revisions.items; last = (arc_value last).1 } }
    {
        KeyHistory { last, revisions }
    }

    /// The revisions that are kept, in order.
    pub fn revisions(&self) -> &[u64]
        ensures { result.now ≡ self.now.revisions }
    {
        self.revisions.as_slice()
    }

    /// The last write.
    pub fn last(&self) -> &Write
        ensures { result.now ≡ self.now.last }
    {
        &self.last.1
    }
}

/// The last write of a key of which this is stored, none where nothing is.
pub fn last_of(kept: Option<&KeyHistory>) -> Option<&Write>
    ensures { option_copied result ≡ option_map (λ k. k.last) (option_copied kept.entry) }
{
    match kept {
        Some(kept) => Some(kept.last()),
        None => None,
    }
}

/// The revisions that are kept of a key of which this is stored, none where nothing is.
pub fn revisions_of(kept: Option<&KeyHistory>) -> &[u64]
    ensures { result.now ≡ unwrap_or (option_map (λ k. k.revisions) (option_copied kept.entry)) [] }
{
    match kept {
        Some(kept) => kept.revisions(),
        None => &[],
    }
}

/// The revisions that are kept of the key, none where it has no entry.
pub fn kept_of<'t>(by_key: &'t Trie<Key, KeyHistory>, key: &Key) -> &'t [u64]
    ensures { result.now ≡ kept_in key.now (kept_entries by_key.now) }
{
    revisions_of(by_key.get(key))
}

/// Whether the revision is among those that are kept of the key.
pub fn is_kept_of(by_key: &Trie<Key, KeyHistory>, key: &Key, revision: u64) -> bool
    ensures { result ≡ list_any (λ r. r == revision) (kept_in key.now (kept_entries by_key.now)) }
{
    kept_of(by_key, key).iter().any(|kept| *kept == revision)
}

// The last of these revisions and one more, as many as are kept.
fn last_with(
    alloc: Global,
    history: u64,
    before: &[u64],
    revision: u64,
) -> Result<Revisions, AllocError>
    requires { 0 < history }
    ensures { IfOk result (λ kept. kept.items ≡ last_n history (before.now ++ revision ∷ [])) }
{
    let surplus = (before.len() + 1).saturating_sub(history as usize);
    let mut kept = Revisions::with_capacity(alloc, before.len() + 1 - surplus)?;
    kept.extend_from_slice(&before[surplus..])?;
    kept.push(revision)?;
    Ok(kept)
}

/// The kept revisions of a key after one more write of it: a purge removes those before it. There are at most as many
/// as the history, so at most 64 numbers are copied.
pub fn next_kept(
    alloc: Global,
    history: u64,
    op: Op,
    revision: u64,
    before: &[u64],
) -> Result<Revisions, AllocError>
    requires { 0 < history }
    ensures { IfOk result (λ kept. kept.items ≡ next_kept history op revision before.now) }
{
    if op.is_purge() {
        return last_with(alloc, history, &[], revision);
    }
    last_with(alloc, history, before, revision)
}
