//! Watches of a durable bucket: they are those of its bucket, and end with the process.

ghost use Rattle.std.specs.Prelude.{◌≡◌, ◌<◌, ⊤, ℕ, Ok, Err, IfErr, IfOk, OnErr, MatchResult};
ghost use Rattle.std.specs.Borrow.{sem, follows_so};
ghost use mathlib.Core.Option.{none};
ghost use Rattle.kv_keys.specs.Outcome.{Refuses};
ghost use Rattle.kv_keys.specs.declared.error.KvError.{KvError as AnError};
ghost use Rattle.kv_keys.specs.declared.error.KvError.TheVariants.{NoSuchWatch};
ghost use Rattle.kv_watch.specs.Taking.{item_taken};
ghost use Rattle.kv_model.specs.declared.call.Call.TheVariants as calls;
ghost use Rattle.kv_model.specs.declared.call.Call.TheVariants.{Take, Stop};
ghost use Rattle.kv_model.specs.Answers.{Watching, Ended, Refused, answer_item};
ghost use Rattle.kv_model.specs.State.{State, after, answer_to, may_compact, next_number};
ghost use Rattle.kv_single.specs.Held.{Represents};
ghost use Rattle.kv_single.specs.Stepping.{IsStep};

use crate::durable::Durable;
use kv_file::JournalFile;
use kv_keys::{Filters, KvError};
use kv_model::{Options, Stopped};
use kv_watch::Taken;

impl<F: JournalFile> Durable<F> {
    ghost use Rattle.kv_durable.specs.contracts.durable.Durable.{the_row};

    /// Opens a watch that begins now, as `Bucket::watch` does.
    pub fn watch(&mut self, filters: &Filters, options: Options) -> Result<u64, KvError>
        ensures ok { IfOk result
            (λ number. IsStep self.old.bucket (calls.Watch filters.now options) (Watching number) self.new.bucket) }
        ensures refused { IfErr result
            (λ e. (state : State) → Represents state self.old.bucket → Refuses e (next_number state)) }
        ensures unchanged { OnErr result (self.new ≡ self.old) }
        ensures journal { self.new.journal ≡ self.old.journal }
    {
        self.bucket.watch(filters, options)
    }

    /// What `take` would hand out.
    pub fn peek(&self, number: u64) -> Result<Taken<'_>, KvError>
        ensures ok { IfOk result (λ taken. (state : State) → Represents state self.now.bucket →
            answer_item (item_taken taken) ≡ answer_to state (Take number)) }
        ensures refused { IfErr result (λ e. (e ≡ NoSuchWatch) × ((state : State) → Represents state self.now.bucket →
            Refused e ≡ answer_to state (Take number))) }
    {
        self.bucket.peek(number)
    }

    /// Hands out the next item of a watch, lent from the bucket, and moves the watch on behind it, as `Bucket::take` does.
    /// Nothing of it is in the file.
    pub fn take(&mut self, number: u64) -> Result<Taken<'_>, KvError>
        ensures* after { sem 𝓛 (follows_so (the_row F.row) (the_row F.row)
            self.entry.ghost_name none (λ _ _. ⊤)
            (λ left. (left.journal ≡ self.old.journal) × MatchResult result
            (λ taken. IsStep self.old.bucket (Take number) (answer_item (item_taken taken)) left.bucket)
            (λ e. left.bucket ≡ self.old.bucket))) }
        ensures ok { IfOk result (λ taken. (state : State) → Represents state self.old.bucket →
            answer_item (item_taken taken) ≡ answer_to state (Take number)) }
        ensures refused { IfErr result (λ e. (e ≡ NoSuchWatch) × ((state : State) → Represents state self.old.bucket →
            Refused e ≡ answer_to state (Take number))) }
    {
        self.bucket.take(number)
    }

    /// Moves a watch on behind its next item, as `take` does, and lends nothing.
    pub fn pass(&mut self, number: u64)
        ensures step { (state : State) → Represents state self.old.bucket → Represents (after state (Take number)) self.new.bucket }
        ensures journal { self.new.journal ≡ self.old.journal }
    {
        self.bucket.pass(number);
    }

    /// Stops a watch, and answers how many items it was handed. Its number is never used again.
    pub fn stop(&mut self, number: u64) -> Result<Stopped, KvError>
        ensures ok { IfOk result (λ stopped. IsStep self.old.bucket (Stop number) (Ended stopped.handed) self.new.bucket) }
        ensures refused { IfErr result (λ e. (e ≡ NoSuchWatch) × IsStep self.old.bucket (Stop number) (Refused e) self.new.bucket) }
        ensures unchanged { OnErr result (self.new ≡ self.old) }
        ensures journal { self.new.journal ≡ self.old.journal }
    {
        self.bucket.stop(number)
    }

    /// The highest floor that `compact` would not refuse by the rules, 0 where there is none, as `Bucket::reach` answers.
    pub fn reach(&self) -> u64
        ensures allowed { (state : State) → Represents state self.now.bucket → 0 < result →
            may_compact result state ≡ Ok result }
        ensures highest { (state : State) → Represents state self.now.bucket → (floor : ℕ) → result < floor →
            (e : AnError) × (may_compact floor state ≡ Err e) }
    {
        self.bucket.reach()
    }
}
