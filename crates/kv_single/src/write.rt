//! Writes to a bucket, one or several in one step.

ghost use Rattle.std.specs.Prelude.{◌≡◌, ◌⊎◌, IfErr, IfOk, OnErr, OnOk, List, map};
ghost use Rattle.kv_keys.specs.Outcome.{Refuses};
ghost use Rattle.kv_keys.specs.declared.error.KvError.TheVariants.{OutOfMemory};
ghost use Rattle.kv_model.specs.Acceptance.{accept};
ghost use Rattle.kv_model.specs.Requests.{asked};
ghost use Rattle.kv_model.specs.declared.call.Call.TheVariants.{Write, Seal};
ghost use Rattle.kv_model.specs.Answers.{Revision, Sealed};
ghost use Rattle.kv_model.specs.State.{State};
ghost use Rattle.kv_model.specs.Batches.{IsRefusedAt};
ghost use Rattle.kv_model.specs.declared.call.Call.{Call as ACall};
ghost use Rattle.kv_single.specs.Held.{Represents};
ghost use Rattle.kv_single.specs.Stepping.{IsStep};
ghost use Rattle.kv_single.specs.Batches.{IsBatch, LeadThere};

use crate::bucket::Bucket;
use kv_keys::KvError;
use kv_model::{BatchRefused, Request};
use kv_store::Version;
use kv_trie::{Alone, Companion};

impl Bucket {
    /// Does what is asked, and answers the revision of the write. A refused request changes nothing and uses no
    /// revision; the first reason that fits is answered, want of memory last. Nodes that no watch's
    /// snapshot has are changed where they lie.
    pub fn write(&mut self, request: &Request) -> Result<u64, KvError>
        ensures ok { IfOk result (λ revision. IsStep self.old (Write request.now) (Revision revision) self.new) }
        ensures refused { IfErr result (λ e. (state : State) → Represents state self.old →
            Refuses e (accept state.config (asked request.now) state.acts)) }
        ensures unchanged { OnErr result (self.new ≡ self.old) }
    {
        self.write_with(request, &mut Alone)
    }

    /// As `write`, and lets the companion happen, or does neither: it happens once the write is accepted and has all its
    /// memory, so nothing can be refused behind it. Where the companion is refused, want of memory is answered.
    pub fn write_with<C: Companion>(
        &mut self,
        request: &Request,
        companion: &mut C,
    ) -> Result<u64, KvError>
        requires ready { C.ready companion.old }
        ensures ok { IfOk result (λ revision. IsStep self.old (Write request.now) (Revision revision) self.new) }
        ensures done { OnOk result (C.done companion.old companion.new) }
        ensures refused { IfErr result (λ e. (state : State) → Represents state self.old →
            Refuses e (accept state.config (asked request.now) state.acts)) }
        ensures unchanged { OnErr result (self.new ≡ self.old) }
        ensures kept { IfErr result (λ e. (companion.new ≡ companion.old)
            ⊎ ((e ≡ OutOfMemory) × C.kept companion.old companion.new)) }
    {
        self.version.write_with(self.alloc, request, companion)?;
        Ok(self.version.revision())
    }

    /// Ends writes. A bucket that is sealed already is so again; reads, takes, stops and new watches go on.
    pub fn seal(&mut self) -> Result<(), KvError>
        ensures ok { OnOk result (IsStep self.old Seal Sealed self.new) }
        ensures err { IfErr result (λ e. e ≡ OutOfMemory) }
        ensures unchanged { OnErr result (self.new ≡ self.old) }
    {
        let next = self.version.seal(self.alloc)?;
        self.version = next;
        Ok(())
    }

    /// Does all that is asked in one step, or nothing: each request is judged behind those before it. It answers the
    /// revision of the first write; the others have those from there on. Of no requests nothing is done, and the last
    /// revision is answered.
    ///
    /// Where one is refused the answer is its index and what it is refused with behind those before it, the first
    /// reason that fits, want of memory last. Then nothing has changed, no revision is used, and each watch is as it
    /// was. Want of memory is told at the request during which memory was refused: this one, and those before it, would
    /// have been accepted.
    ///
    /// The writes are made on a snapshot, which costs the nodes of their paths once, however many share them; so a
    /// batch of one write costs more than `write`, which changes them where they lie.
    pub fn write_all(&mut self, requests: &[Request]) -> Result<u64, BatchRefused>
        ensures ok { IfOk result (λ first. IsBatch self.old requests.now first self.new) }
        ensures refused { IfErr result (λ refused. (state : State) → Represents state self.old →
            IsRefusedAt state.config (map asked requests.now) state.acts refused) }
        ensures unchanged { OnErr result (self.new ≡ self.old) }
    {
        let Some((first, rest)) = requests.split_first() else {
            return Ok(self.version.revision());
        };
        let (next, revision) = self.version.apply_all(self.alloc, first, rest)?;
        self.version = next;
        Ok(revision)
    }

    /// As `go_on_to`, for a version that several steps of the model lead to: what some calls do in a row, from every
    /// state that the bucket represents.
    pub fn go_on_through(&mut self, next: Version)
        requires steps { (calls : List ACall) × LeadThere calls self.old (record self.old { version = next }) }
        ensures { self.new ≡ record self.old { version = next } }
    {
        self.version = next;
    }
}
