//! Which requests a version accepts.

ghost use Rattle.std.specs.Prelude.{◌≡◌, ℕ, ◌<◌, List, false, if◌then◌else◌, IfErr, OnOk};
ghost use Rattle.std.specs.Option.{option_copied, option_map_or};
ghost use Rattle.kv_keys.specs.Outcome.{Refuses};
ghost use Rattle.kv_keys.specs.declared.error.KvError.TheVariants.{KeyExists};
ghost use Rattle.kv_model.specs.Acceptance.{accept, has_value, is_full, next_write, objection, unless_last, unless_last_or_none};
ghost use Rattle.kv_model.specs.Acts.{Act, is_put};
ghost use Rattle.kv_model.specs.Requests.{asked, key_of};
ghost use Rattle.kv_model.specs.Retained.{last_revision, last_write};
ghost use Rattle.kv_store.specs.Standing.{StandsFor};

use crate::version::Version;
use kv_keys::{Key, KvError};
use kv_model::{Request, Write};

fn revision_of(last: Option<&Write>) -> u64
    ensures { result ≡ option_map_or (λ w. w.revision) (option_copied last.entry) 0 }
{
    match last {
        Some(write) => write.revision(),
        None => 0,
    }
}

fn is_value(last: Option<&Write>) -> bool
    ensures { result ≡ option_map_or (λ w. is_put w.op) (option_copied last.entry) false }
{
    match last {
        Some(write) => write.op().is_put(),
        None => false,
    }
}

fn unless_value(last: Option<&Write>) -> Option<KvError>
    ensures { (key : List ℕ) (acts : List Act) → option_copied last.entry ≡ last_write key acts →
        result ≡ (if has_value key acts then Some KeyExists else None) }
{
    if is_value(last) {
        Some(KvError::KeyExists)
    } else {
        None
    }
}

fn unless_last(revision: u64, last: Option<&Write>) -> Option<KvError>
    ensures { (key : List ℕ) (acts : List Act) → option_copied last.entry ≡ last_write key acts →
        result ≡ unless_last revision key acts }
{
    let last = revision_of(last);
    if revision == last {
        None
    } else {
        Some(KvError::WrongLastRevision { last })
    }
}

fn unless_last_or_none(revision: Option<u64>, last: Option<&Write>) -> Option<KvError>
    ensures { (key : List ℕ) (acts : List Act) → option_copied last.entry ≡ last_write key acts →
        result ≡ unless_last_or_none revision key acts }
{
    match revision {
        Some(revision) => unless_last(revision, last),
        None => None,
    }
}

// Why the key, which has this last write, does not allow the request.
fn objection(request: &Request, last: Option<&Write>) -> Option<KvError>
    ensures { (acts : List Act) → option_copied last.entry ≡ last_write (key_of (asked request.now)) acts →
        result ≡ objection (asked request.now) acts }
{
    match request {
        Request::Put { .. } => None,
        Request::Create { .. } => unless_value(last),
        Request::Update { last: revision, .. } => unless_last(*revision, last),
        Request::Delete { last: revision, .. } => unless_last_or_none(*revision, last),
        Request::Purge { last: revision, .. } => unless_last_or_none(*revision, last),
    }
}

impl Version {
    /// The last revision of the key, 0 where it was never written. It takes no memory.
    pub fn last_revision(&self, key: &Key) -> u64
        ensures { (acts : List Act) → StandsFor acts self.now → result ≡ last_revision key.now acts }
    {
        revision_of(self.last_write(key))
    }

    // The stored writes fill the journal, or the accepted ones have used up its revisions.
    fn is_full(&self) -> bool
        ensures full { (acts : List Act) → StandsFor acts self.now → result ≡ is_full self.now.config acts }
        ensures room { result ≡ false → self.now.last < self.now.config.revision_limit }
    {
        self.stored() >= self.inner.write_limit || self.inner.last >= self.inner.revision_limit
    }

    // Whether the request is accepted, or the first reason that it isn't: the size of the value, the seal, the
    // journal's room, and then what its key, which has this last write, allows.
    pub(crate) fn accept(&self, request: &Request, last: Option<&Write>) -> Result<(), KvError>
        ensures room { OnOk result (self.now.last < self.now.config.revision_limit) }
        ensures ok { OnOk result ((acts : List Act) → StandsFor acts self.now →
            option_copied last.entry ≡ last_write (key_of (asked request.now)) acts →
            accept self.now.config (asked request.now) acts ≡ Ok (next_write (asked request.now) acts)) }
        ensures refused { IfErr result (λ e. (acts : List Act) → StandsFor acts self.now →
            option_copied last.entry ≡ last_write (key_of (asked request.now)) acts →
            Refuses e (accept self.now.config (asked request.now) acts)) }
    {
        if request.value().len() as u64 > self.inner.value_limit {
            return Err(KvError::ValueTooLarge);
        }
        if self.inner.sealed {
            return Err(KvError::Sealed);
        }
        if self.is_full() {
            return Err(KvError::JournalFull);
        }
        match objection(request, last) {
            Some(error) => Err(error),
            None => Ok(()),
        }
    }
}
