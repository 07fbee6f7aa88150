//! Writes: made apart, added to the file, and only then published.

ghost use Rattle.std.specs.Prelude.{◌≡◌, ◌⊎◌, ◌<◌, ◌≤◌, ◌^◌, ◌++◌, ◌∷◌, [], ℕ, List, true, false, Ok, Err, length, map, IfErr, IfOk, IsErrOf, OnErr, OnOk};
ghost use Rattle.kv_bucket.specs.Keeping.{ComesNext, IsAt, IsKeptStep, PublishesWrite, kept_with};
ghost use Rattle.kv_durable.specs.Durables.{IsHanded, IsRecorded, IsRefusal, act_of};
ghost use Rattle.kv_durable.specs.Journals.{IsFrameOf, is_stopped};
ghost use Rattle.kv_durable.specs.declared.error.DurableError.TheVariants.{FileFault, Refused};
ghost use Rattle.kv_durable_live.specs.Sharing.{durable_of};
ghost use Rattle.kv_file.specs.declared.appender.Sync.TheVariants.{Every};
ghost use Rattle.kv_journal.specs.Records.{did};
ghost use Rattle.kv_keys.specs.Outcome.{Refuses};
ghost use Rattle.kv_keys.specs.declared.error.KvError.{KvError as AnError};
ghost use Rattle.kv_model.specs.Acceptance.{accept};
ghost use Rattle.kv_model.specs.Acts.{Act, Wrote, Write as AWrite};
ghost use Rattle.kv_model.specs.Answers.{Revision};
ghost use Rattle.kv_model.specs.Requests.{asked, value_of, write_for};
ghost use Rattle.kv_model.specs.State.{State, after};
ghost use Rattle.kv_model.specs.declared.call.Call.TheVariants.{Write};
ghost use Rattle.kv_store.specs.Standing.{StandsFor};

use crate::acceptance::Framed;
use crate::keeper::DurableKeeper;
use kv_bucket::{Keeper, LiveName, Prepared, Receipt};
use kv_durable::{DurableError, JournalFile};
use kv_keys::KvError;
use kv_model::Request;
use std::sync::Wait;

// No bucket takes a longer value.
const MOST_VALUE: usize = 1_048_576;

// What is asked, made apart. What no bucket takes is refused first, as the rules do.
fn next_of<N: LiveName>(keeper: &mut Keeper<N>, request: &Request) -> Result<Prepared, KvError>
    ensures ok { IfOk result (λ p. IsKeptStep keeper.old (Write request.now) (Revision p.version.last)
        (kept_with keeper.old (p.act ∷ []) p.version)) }
    ensures published { IfOk result
        (λ p. PublishesWrite N.opening.config (asked request.now) p.version.last keeper.old.published
        (keeper.old.published ++ p.act ∷ [])) }
    ensures next { IfOk result (λ p. ComesNext N.opening.config keeper.old p) }
    ensures config { IfOk result (λ p. p.version.config ≡ keeper.old.bucket.version.config) }
    ensures accepts { IfOk result (λ p. (acts : List Act) → StandsFor acts keeper.old.bucket.version →
        (w : AWrite)
        × ((accept keeper.old.bucket.version.config (asked request.now) acts ≡ Ok w) × StandsFor (acts ++ Wrote w ∷ []) p.version)) }
    ensures short { OnOk result (length (value_of (asked request.now)) ≤ 1048576) }
    ensures refused { IfErr result (λ e. (state : State) → IsAt state keeper.old →
        Refuses e (accept state.config (asked request.now) state.acts)) }
    ensures same { keeper.new ≡ keeper.old }
{
    if request.value().len() > MOST_VALUE {
        return Err(KvError::ValueTooLarge);
    }
    keeper.next(request)
}

impl<N: LiveName, F: JournalFile> DurableKeeper<N, F> {
    // What is asked, and the frame that tells it.
    fn framed_write(&mut self, request: &Request) -> Result<Framed, DurableError>
        ensures goes { OnOk result (is_stopped F.usable self.old.journal ≡ false) }
        ensures ok { IfOk result (λ f. IsKeptStep self.old.keeper (Write request.now) (Revision f.next.version.last)
            (kept_with self.old.keeper (f.next.act ∷ []) f.next.version)) }
        ensures published { IfOk result
            (λ f. PublishesWrite N.opening.config (asked request.now) f.next.version.last self.old.keeper.published
            (self.old.keeper.published ++ f.next.act ∷ [])) }
        ensures next { IfOk result (λ f. ComesNext N.opening.config self.old.keeper f.next) }
        ensures config { IfOk result (λ f. f.next.version.config ≡ self.old.keeper.bucket.version.config) }
        ensures accepts { IfOk result (λ f. (acts : List Act) → StandsFor acts self.old.keeper.bucket.version →
            (w : AWrite)
            × ((accept self.old.keeper.bucket.version.config (asked request.now) acts ≡ Ok w) × StandsFor (acts ++ Wrote w ∷ []) f.next.version)) }
        ensures frame { IfOk result (λ f. (revision : ℕ) →
            IsFrameOf self.old.journal (did (Wrote (write_for (asked request.now) revision))) f.frame.items) }
        ensures short { IfOk result (λ f. length f.frame.items < 2 ^ 33) }
        ensures refused { IfErr result (λ e. (x : AnError) → e ≡ Refused x → (state : State) →
            IsAt state self.old.keeper → Refuses x (accept state.config (asked request.now) state.acts)) }
        ensures fault { IsErrOf result FileFault → is_stopped F.usable self.old.journal ≡ true }
        ensures stopped { is_stopped F.usable self.old.journal ≡ true → result ≡ Err FileFault }
        ensures no_other { IfErr result IsRefusal }
        ensures same { self.new ≡ self.old }
    {
        self.journal.may_add()?;
        let next = next_of(&mut self.keeper, request)?;
        let frame = self
            .journal
            .frame_of_write(self.keeper.bucket().alloc(), request)?;
        Ok(Framed { next, frame })
    }

    /// Does what is asked, and answers the revision of the write: its record is in the file then, and on the disk where that is
    /// due, and then it is published. A refused request changes nothing, publishes nothing, uses no revision, and is not in the
    /// file. It waits for the file, and for readers that are inside the copy that is to change.
    pub fn write<R: Wait>(&mut self, rt: &R, request: &Request) -> Result<u64, DurableError>
        ensures ok { IfOk result
            (λ revision. IsKeptStep self.old.keeper (Write request.now) (Revision revision) self.new.keeper) }
        ensures published { IfOk result
            (λ revision. PublishesWrite N.opening.config (asked request.now) revision self.old.keeper.published
            self.new.keeper.published) }
        ensures recorded { OnOk result (IsRecorded F.has F.usable (λ state. after state (Write request.now))
            (λ state. map did (act_of (accept state.config (asked request.now) state.acts)))
            (durable_of self.old.keeper self.old.journal) (durable_of self.new.keeper self.new.journal)) }
        ensures every { OnOk result ((n : ℕ) → self.old.journal.appender.sync ≡ Every n → 0 < n →
            self.new.journal.appender.waiting < n) }
        ensures refused { IfErr result (λ e. (x : AnError) → e ≡ Refused x → (state : State) →
            IsAt state self.old.keeper → Refuses x (accept state.config (asked request.now) state.acts)) }
        ensures untouched { IfErr result (λ e. (x : AnError) → e ≡ Refused x → self.new ≡ self.old) }
        ensures unchanged { OnErr result (self.new.keeper ≡ self.old.keeper) }
        ensures handed { OnErr result (IsHanded F.has F.usable
            (λ state. map did (act_of (accept state.config (asked request.now) state.acts)))
            (durable_of self.old.keeper self.old.journal) (durable_of self.new.keeper self.new.journal)) }
        ensures fault { IsErrOf result FileFault → (is_stopped F.usable self.old.journal ≡ true)
            ⊎ (F.faults self.old.journal.appender.file < F.faults self.new.journal.appender.file) }
        ensures stops { IsErrOf result FileFault → is_stopped F.usable self.new.journal ≡ true }
        ensures stopped { is_stopped F.usable self.old.journal ≡ true → (result ≡ Err FileFault) × (self.new ≡ self.old) }
        ensures no_other { IfErr result IsRefusal }
        ensures same { (self.new.journal.framing ≡ self.old.journal.framing)
            × (self.new.journal.appender.sync ≡ self.old.journal.appender.sync) }
    {
        let framed = self.framed_write(request)?;
        let revision = framed.next.version().revision();
        self.keep(rt, framed)?;
        Ok(revision)
    }

    /// As `write` does, with a receipt for it.
    pub fn write_told<R: Wait>(
        &mut self,
        rt: &R,
        request: &Request,
    ) -> Result<(u64, Receipt<N>), DurableError>
        ensures ok { IfOk result
            (λ r. IsKeptStep self.old.keeper (Write request.now) (Revision r.0) self.new.keeper) }
        ensures published { IfOk result
            (λ r. PublishesWrite N.opening.config (asked request.now) r.0 self.old.keeper.published
            self.new.keeper.published) }
        ensures told { IfOk result (λ r. r.1 ≡ self.new.keeper.published) }
        ensures recorded { OnOk result (IsRecorded F.has F.usable (λ state. after state (Write request.now))
            (λ state. map did (act_of (accept state.config (asked request.now) state.acts)))
            (durable_of self.old.keeper self.old.journal) (durable_of self.new.keeper self.new.journal)) }
        ensures every { OnOk result ((n : ℕ) → self.old.journal.appender.sync ≡ Every n → 0 < n →
            self.new.journal.appender.waiting < n) }
        ensures refused { IfErr result (λ e. (x : AnError) → e ≡ Refused x → (state : State) →
            IsAt state self.old.keeper → Refuses x (accept state.config (asked request.now) state.acts)) }
        ensures untouched { IfErr result (λ e. (x : AnError) → e ≡ Refused x → self.new ≡ self.old) }
        ensures unchanged { OnErr result (self.new.keeper ≡ self.old.keeper) }
        ensures handed { OnErr result (IsHanded F.has F.usable
            (λ state. map did (act_of (accept state.config (asked request.now) state.acts)))
            (durable_of self.old.keeper self.old.journal) (durable_of self.new.keeper self.new.journal)) }
        ensures fault { IsErrOf result FileFault → (is_stopped F.usable self.old.journal ≡ true)
            ⊎ (F.faults self.old.journal.appender.file < F.faults self.new.journal.appender.file) }
        ensures stops { IsErrOf result FileFault → is_stopped F.usable self.new.journal ≡ true }
        ensures stopped { is_stopped F.usable self.old.journal ≡ true → (result ≡ Err FileFault) × (self.new ≡ self.old) }
        ensures no_other { IfErr result IsRefusal }
        ensures same { (self.new.journal.framing ≡ self.old.journal.framing)
            × (self.new.journal.appender.sync ≡ self.old.journal.appender.sync) }
    {
        let revision = self.write(rt, request)?;
        Ok((revision, self.keeper.receipt(revision)))
    }
}
