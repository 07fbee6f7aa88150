//! Accepted writes: what is stored with each, and how it is put into both tries, of a new version or of a version
//! itself.

ghost use Rattle.std.specs.Prelude.{◌≡◌, ◌+◌, ◌<◌, ◌^◌, ◌-◌, ◌≤◌, if◌then◌else◌, ◌∷◌, ◌++◌, ◌⊎◌, List, IsTrue, IfErr, IfOk, OnErr, OnOk, ℕ, length, Some, [], map};
ghost use Rattle.std.specs.Arc.{arc_value};
ghost use Rattle.std.specs.Map.{lookup};
ghost use Rattle.std.specs.Str.{bytes_eq};
ghost use Rattle.kv_keys.specs.Grammar.{is_key};
ghost use Rattle.kv_keys.specs.Outcome.{Refuses};
ghost use Rattle.kv_keys.specs.declared.error.KvError.TheVariants.{OutOfMemory};
ghost use Rattle.kv_model.specs.Acceptance.{accept, next_write};
ghost use Rattle.kv_model.specs.Acts.{Act, Wrote, Write as AWrite, writes_of};
ghost use Rattle.kv_model.specs.Requests.{asked, write_for};
ghost use Rattle.kv_model.specs.Batches.{IsRefusedAt};
ghost use Rattle.kv_trie.specs.Put.{pair_of};
ghost use Rattle.kv_store.specs.Standing.{StandsFor};
ghost use Rattle.kv_store.specs.inside.Next.{HasOneMore, kept_after, values_after};
ghost use Rattle.kv_store.specs.inside.Fields.{kept_entries, last_entries};
ghost use Rattle.kv_store.specs.inside.Putting.{HasPut};
ghost use Rattle.kv_store.specs.Batches.{Leaves, LeavesEach};
ghost use Rattle.kv_store.specs.inside.Batches.{LeavesOne};

use crate::key_history::{KeyHistory, Revisions, last_of, next_kept, revisions_of};
use crate::rev::Rev;
use crate::version::{Inner, Version};
use kv_keys::{Key, KvError};
use kv_model::{BatchRefused, Request, Write};
use kv_trie::{Alone, Companion, NewPair, put_both};
use std::alloc::{AllocError, Global};
use std::sync::Arc;

/// A write that is accepted, the revisions that are kept of its key with it, and how many entries there are then.
#[derive(Drop)]
pub struct Accepted {
    pub write: Write,
    pub kept: Revisions,
    pub values: u64,
}

impl Accepted {
    // The pair that is put of its key, and that of its revision. Both have the write in common.
    pub(crate) fn pairs(
        self,
        alloc: Global,
    ) -> Result<((Key, KeyHistory), Arc<(Rev, Write)>), AllocError>
        requires { self.write.revision < 2 ^ 32 }
        ensures key { IfOk result (λ r. r.0.0 ≡ self.write.key) }
        ensures kept { IfOk result (λ r. r.0.1 ≡ record { revisions = self.kept.items; last = self.write }) }
        ensures revision { IfOk result (λ r. arc_value r.1 ≡ (self.write.revision, self.write)) }
    {
        let Accepted {
            write,
            kept,
            values: _,
        } = self;
        let key = write.key().copy(alloc).map_err(|_| AllocError)?;
        let number = Rev::new(write.revision() as u32);
        let of_revision = Arc::new(alloc, (number, write))?;
        let last = Arc::try_clone(&of_revision)?;
        Ok(((key, KeyHistory::new(kept, last)), of_revision))
    }
}

impl Version {
    // The write that is asked for, where it is accepted, or the first reason that it isn't; and only then want of
    // memory. The key is looked up once. The number of entries goes up by those that are kept of the key with the
    // write, and down by those that were.
    pub(crate) fn accepted(&self, alloc: Global, request: &Request) -> Result<Accepted, KvError>
        ensures room { IfOk result (λ a. self.now.last < self.now.config.revision_limit) }
        ensures write { IfOk result (λ a. a.write ≡ write_for (asked request.now) (self.now.last + 1)) }
        ensures small { IfOk result (λ a. a.write.revision < 2 ^ 32) }
        ensures key { IfOk result (λ a. IsTrue (is_key a.write.key)) }
        ensures kept { IfOk result (λ a. a.kept.items ≡ kept_after a.write self.now) }
        ensures values { IfOk result (λ a. a.values ≡ values_after a.write self.now) }
        ensures ok { IfOk result (λ a. (acts : List Act) → StandsFor acts self.now →
            accept self.now.config (asked request.now) acts ≡ Ok (next_write (asked request.now) acts)) }
        ensures refused { IfErr result (λ e. (acts : List Act) → StandsFor acts self.now →
            Refuses e (accept self.now.config (asked request.now) acts)) }
    {
        let found = self.of_key(request.key());
        self.accept(request, last_of(found))?;
        let revision = self.inner.last + 1;
        let before = revisions_of(found);
        let kept = next_kept(alloc, self.inner.history, request.op(), revision, before)?;
        let values = (self.inner.values + kept.len() as u64).saturating_sub(before.len() as u64);
        let write = request.write(alloc, revision)?;
        Ok(Accepted {
            write,
            kept,
            values,
        })
    }

    // Adds the write that is accepted, and lets the companion happen, or does neither.
    fn add<C: Companion>(
        &mut self,
        alloc: Global,
        accepted: Accepted,
        companion: &mut C,
    ) -> Result<(), AllocError>
        requires room { self.old.last < self.old.config.revision_limit }
        requires small { accepted.write.revision < 2 ^ 32 }
        requires revision { accepted.write.revision ≡ self.old.last + 1 }
        requires kept { accepted.kept.items ≡ kept_after accepted.write self.old }
        requires values { accepted.values ≡ values_after accepted.write self.old }
        requires ready { C.ready companion.old }
        ensures ok { OnOk result (HasOneMore accepted.write self.old self.new) }
        ensures done { OnOk result (C.done companion.old companion.new) }
        ensures unchanged { OnErr result (self.new ≡ self.old) }
        ensures kept { OnErr result ((companion.new ≡ companion.old) ⊎ C.kept companion.old companion.new) }
    {
        let values = accepted.values;
        let (of_key, of_revision) = accepted.pairs(alloc)?;
        self.put(
            alloc,
            NewPair::Owned(of_key),
            of_revision,
            values,
            companion,
        )
    }

    // Adds the write of this pair of its revision, with this pair of its key and so many entries, and lets the companion
    // happen, or does neither.
    pub(crate) fn put<C: Companion>(
        &mut self,
        alloc: Global,
        of_key: NewPair<Key, KeyHistory>,
        of_revision: Arc<(Rev, Write)>,
        values: u64,
        companion: &mut C,
    ) -> Result<(), AllocError>
        requires room { self.old.last < self.old.config.revision_limit }
        requires number { (arc_value of_revision).0 ≡ (arc_value of_revision).1.revision }
        requires revision { (arc_value of_revision).1.revision ≡ self.old.last + 1 }
        requires key { (pair_of of_key).0 ≡ (arc_value of_revision).1.key }
        requires kept { (pair_of of_key).1.revisions ≡ kept_after (arc_value of_revision).1 self.old }
        requires last { (pair_of of_key).1.last ≡ (arc_value of_revision).1 }
        requires values { values ≡ values_after (arc_value of_revision).1 self.old }
        requires ready { C.ready companion.old }
        ensures ok { OnOk result (HasOneMore (arc_value of_revision).1 self.old self.new) }
        ensures done { OnOk result (C.done companion.old companion.new) }
        ensures unchanged { OnErr result (self.new ≡ self.old) }
        ensures kept { OnErr result ((companion.new ≡ companion.old) ⊎ C.kept companion.old companion.new) }
    {
        let inner = Arc::make_mut(&mut self.inner)?;
        put_pairs(alloc, inner, of_key, of_revision, values, companion)
    }

    // An equal version, whose parts nobody else has: they are changed where they lie. A snapshot would add an owner to
    // parts that all readers count on, and take it off again as soon as its own are copied.
    pub(crate) fn with_own_inner(&self, alloc: Global) -> Result<Version, AllocError>
        ensures { IfOk result (λ version. version ≡ self.now) }
    {
        let inner = (*self.inner).clone()?;
        Version::of(alloc, inner)
    }

    // Whether somebody else has its parts too.
    pub(crate) fn is_shared(&self) -> bool {
        Arc::strong_count(&self.inner) != 1
    }

    /// The next version, with the write that is asked for, or why it is refused, the first reason that fits: its value
    /// is longer than the value limit, the bucket is sealed, the journal is full, the key to be created has a value or
    /// the revision that is asked for is not the key's last (NATS ADR-8); and only then want of memory.
    ///
    /// It looks the key up once, makes the nodes of one path of either trie anew, copies the key twice and the value
    /// once, and shares the rest with `self`.
    pub fn apply(&self, alloc: Global, request: &Request) -> Result<Version, KvError>
        ensures config { IfOk result (λ next. next.config ≡ self.now.config) }
        ensures ok { IfOk result (λ next. (acts : List Act) → StandsFor acts self.now →
            (w : AWrite)
            × ((accept self.now.config (asked request.now) acts ≡ Ok w) × StandsFor (acts ++ Wrote w ∷ []) next)) }
        ensures refused { IfErr result (λ e. (acts : List Act) → StandsFor acts self.now →
            Refuses e (accept self.now.config (asked request.now) acts)) }
    {
        let accepted: Accepted = self.accepted(alloc, request)?;
        let mut next = self.with_own_inner(alloc)?;
        next.add(alloc, accepted, &mut Alone)?;
        Ok(next)
    }

    /// Does to this version what `apply` answers in a new one, or changes nothing and answers why. What nobody else has
    /// of the paths of the two tries is changed where it lies, so a version that has no snapshot copies the key twice,
    /// the value once, and no node; what a snapshot has too is made anew, and the snapshot stays as it was.
    pub fn write(&mut self, alloc: Global, request: &Request) -> Result<(), KvError>
        ensures config { OnOk result (self.new.config ≡ self.old.config) }
        ensures ok { OnOk result ((acts : List Act) → StandsFor acts self.old →
            (w : AWrite)
            × ((accept self.old.config (asked request.now) acts ≡ Ok w) × StandsFor (acts ++ Wrote w ∷ []) self.new)) }
        ensures refused { IfErr result (λ e. (acts : List Act) → StandsFor acts self.old →
            Refuses e (accept self.old.config (asked request.now) acts)) }
        ensures unchanged { OnErr result (self.new ≡ self.old) }
    {
        self.write_with(alloc, request, &mut Alone)
    }

    /// As `write`, and lets the companion happen, or does neither. It happens once all that can be refused is done: the
    /// write is accepted, and has its memory. Where the companion is refused, want of memory is answered.
    pub fn write_with<C: Companion>(
        &mut self,
        alloc: Global,
        request: &Request,
        companion: &mut C,
    ) -> Result<(), KvError>
        requires ready { C.ready companion.old }
        ensures config { OnOk result (self.new.config ≡ self.old.config) }
        ensures ok { OnOk result ((acts : List Act) → StandsFor acts self.old →
            (w : AWrite)
            × ((accept self.old.config (asked request.now) acts ≡ Ok w) × StandsFor (acts ++ Wrote w ∷ []) self.new)) }
        ensures done { OnOk result (C.done companion.old companion.new) }
        ensures refused { IfErr result (λ e. (acts : List Act) → StandsFor acts self.old →
            Refuses e (accept self.old.config (asked request.now) acts)) }
        ensures unchanged { OnErr result (self.new ≡ self.old) }
        ensures kept { IfErr result (λ e. (companion.new ≡ companion.old)
            ⊎ ((e ≡ OutOfMemory) × C.kept companion.old companion.new)) }
    {
        let accepted = self.accepted(alloc, request)?;
        self.add(alloc, accepted, companion)?;
        Ok(())
    }

    // The next version, with the first write of a batch.
    fn apply_first(&self, alloc: Global, request: &Request) -> Result<Version, BatchRefused>
        ensures config { IfOk result (λ next. next.config ≡ self.now.config) }
        ensures ok { IfOk result (λ next. LeavesOne (asked request.now) self.now next) }
        ensures place { IfErr result (λ refused. refused.at ≡ 0) }
        ensures refused { IfErr result (λ refused. (acts : List Act) → StandsFor acts self.now →
            Refuses refused.error (accept self.now.config (asked request.now) acts)) }
    {
        match self.apply(alloc, request) {
            Ok(next) => Ok(next),
            Err(error) => Err(BatchRefused { at: 0, error }),
        }
    }

    // Does the write that has this place in a batch.
    fn write_at_place(
        &mut self,
        alloc: Global,
        request: &Request,
        at: usize,
    ) -> Result<(), BatchRefused>
        ensures config { OnOk result (self.new.config ≡ self.old.config) }
        ensures ok { OnOk result (LeavesOne (asked request.now) self.old self.new) }
        ensures place { IfErr result (λ refused. refused.at ≡ at) }
        ensures refused { IfErr result (λ refused. (acts : List Act) → StandsFor acts self.old →
            Refuses refused.error (accept self.old.config (asked request.now) acts)) }
    {
        match self.write(alloc, request) {
            Ok(()) => Ok(()),
            Err(error) => Err(BatchRefused { at, error }),
        }
    }

    /// The next version, with the writes of several requests, of which there is a first, and the revision of that: each
    /// is judged behind those before it. Or the place of the one that is refused, and why, as `apply` refuses it behind
    /// those before it, want of memory last; then none of them was made.
    ///
    /// The first write makes the nodes of its paths anew, as `apply` does; a later one only those that no earlier one
    /// has made.
    pub fn apply_all(
        &self,
        alloc: Global,
        first: &Request,
        rest: &[Request],
    ) -> Result<(Version, u64), BatchRefused>
        ensures config { IfOk result (λ r. r.0.config ≡ self.now.config) }
        ensures ok { IfOk result (λ r. Leaves (asked first.now ∷ map asked rest.now) self.now r.0) }
        ensures first { IfOk result (λ r. (acts : List Act) → StandsFor acts self.now →
            r.1 ≡ length (writes_of acts) + 1) }
        ensures small { IfOk result (λ r. r.1 < 2 ^ 32) }
        ensures each { OnOk result
            (LeavesEach (asked first.now ∷ map asked rest.now) (length rest.now + 1) self.now) }
        ensures refused { IfErr result (λ refused. (acts : List Act) → StandsFor acts self.now →
            IsRefusedAt self.now.config (asked first.now ∷ map asked rest.now) acts refused) }
    {
        let mut next = self.apply_first(alloc, first)?;
        let revision = next.revision();
        let mut at = 1;
        for request in rest {
            next.write_at_place(alloc, request, at)?;
            at += 1;
        }
        Ok((next, revision))
    }
}

// Puts the write into the trie of revisions, and into that of keys what is stored of its key then; it is the last of all
// then, and there are so many entries. The companion happens with it. Or it does neither.
pub(crate) fn put_pairs<C: Companion>(
    alloc: Global,
    inner: &mut Inner,
    of_key: NewPair<Key, KeyHistory>,
    of_revision: Arc<(Rev, Write)>,
    values: u64,
    companion: &mut C,
) -> Result<(), AllocError>
    requires keys { length inner.old.by_key < 2 ^ 32 - 1 }
    requires writes { length inner.old.by_revision < 2 ^ 32 - 1 }
    requires number { (arc_value of_revision).0 ≡ (arc_value of_revision).1.revision }
    requires ready { C.ready companion.old }
    ensures found { OnOk result ((q : List ℕ) → lookup (λ k. bytes_eq q k) (kept_entries inner.new.by_key) ≡
        (if bytes_eq (pair_of of_key).0 q then Some (pair_of of_key).1.revisions else
        lookup (λ k. bytes_eq q k) (kept_entries inner.old.by_key))) }
    ensures last { OnOk result ((q : List ℕ) → lookup (λ k. bytes_eq q k) (last_entries inner.new.by_key) ≡
        (if bytes_eq (pair_of of_key).0 q then Some (pair_of of_key).1.last else
        lookup (λ k. bytes_eq q k) (last_entries inner.old.by_key))) }
    ensures len { OnOk result (length (kept_entries inner.new.by_key) ≤ length (kept_entries inner.old.by_key) + 1) }
    ensures put { OnOk result (HasPut (arc_value of_revision).1 inner.old.by_revision inner.new.by_revision) }
    ensures same { OnOk result (inner.new ≡ record inner.old {
      by_key = inner.new.by_key;
      by_revision = inner.new.by_revision;
      last = (arc_value of_revision).1.revision;
      values = values;
    }) }
    ensures done { OnOk result (C.done companion.old companion.new) }
    ensures unchanged { OnErr result (inner.new ≡ inner.old) }
    ensures kept { OnErr result ((companion.new ≡ companion.old) ⊎ C.kept companion.old companion.new) }
{
    let revision = of_revision.1.revision();
    put_both(
        alloc,
        &mut inner.by_key,
        of_key,
        &mut inner.by_revision,
        NewPair::Shared(of_revision),
        companion,
    )
    .map_err(|_| AllocError)?;
    inner.last = revision;
    inner.values = values;
    Ok(())
}
