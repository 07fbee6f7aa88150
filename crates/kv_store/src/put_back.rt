//! Versions that are made of stored writes.

ghost use Rattle.std.specs.Prelude.{◌≡◌, ◌<◌, ◌≤◌, OnErr, OnOk};
ghost use Rattle.kv_store.specs.PuttingBack.{PutsBack};

use crate::key_history::{next_kept, revisions_of};
use crate::version::Version;
use crate::write::{Accepted, put_pairs};
use kv_model::Write;
use kv_trie::{Alone, NewPair};
use std::alloc::{AllocError, Global};
use std::sync::Arc;

impl Version {
    /// Puts back a write that was stored, behind those that were put back before: its revision is above the last one.
    /// What is kept of its key is what a write would leave. Or it changes nothing.
    pub fn put_back(&mut self, alloc: Global, write: Write) -> Result<(), AllocError>
        requires later { self.old.last < write.revision }
        requires within { write.revision ≤ self.old.config.revision_limit }
        ensures ok { OnOk result (PutsBack write self.old self.new) }
        ensures unchanged { OnErr result (self.new ≡ self.old) }
    {
        let before = revisions_of(self.of_key(write.key()));
        let kept = next_kept(
            alloc,
            self.inner.history,
            write.op(),
            write.revision(),
            before,
        )?;
        let values = (self.inner.values + kept.len() as u64).saturating_sub(before.len() as u64);
        let accepted = Accepted {
            write,
            kept,
            values,
        };
        let (of_key, of_revision) = accepted.pairs(alloc)?;
        let inner = Arc::make_mut(&mut self.inner)?;
        put_pairs(
            alloc,
            inner,
            NewPair::Owned(of_key),
            of_revision,
            values,
            &mut Alone,
        )
    }

    /// Gives a version these numbers: its last revision, how many entries are retained, its floor, and whether it is
    /// sealed. Or it changes nothing.
    pub fn settle(
        &mut self,
        last: u64,
        values: u64,
        floor: u64,
        sealed: bool,
    ) -> Result<(), AllocError>
        requires later { self.old.last ≤ last }
        requires within { last ≤ self.old.config.revision_limit }
        requires few { values ≤ last }
        ensures ok { OnOk result (self.new ≡ record self.old {
          last = last;
          values = values;
          floor = floor;
          sealed = sealed;
        }) }
        ensures unchanged { OnErr result (self.new ≡ self.old) }
    {
        let inner = Arc::make_mut(&mut self.inner)?;
        inner.last = last;
        inner.values = values;
        inner.floor = floor;
        inner.sealed = sealed;
        Ok(())
    }
}
