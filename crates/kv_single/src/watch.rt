//! Watches of a bucket.

ghost use Rattle.std.specs.Prelude.{◌≡◌, ◌<◌, ⊤, IfErr, IfOk, OnErr, IsTrue, MatchResult};
ghost use Rattle.std.specs.Borrow.{sem, follows_so};
ghost use mathlib.Core.Option.{none};
ghost use Rattle.kv_keys.specs.Outcome.{Refuses};
ghost use Rattle.kv_keys.specs.declared.error.KvError.TheVariants.{NoSuchWatch};
ghost use Rattle.kv_model.specs.declared.call.Call.TheVariants as calls;
ghost use Rattle.kv_model.specs.declared.call.Call.TheVariants.{Take, Stop};
ghost use Rattle.kv_model.specs.Answers.{Watching, Ended, Refused, answer_item};
ghost use Rattle.kv_model.specs.State.{State, after, answer_to, has_room, next_number};
ghost use Rattle.kv_watch.specs.Taking.{item_taken};
ghost use Rattle.kv_single.specs.Held.{Represents};
ghost use Rattle.kv_single.specs.Stepping.{IsStep};

use crate::bucket::{Bucket, Held, index_of};
use kv_keys::{Filters, KvError};
use kv_model::{Options, Stopped};
use kv_watch::{Taken, Watch};

/// How many watches may be open at a time.
const MOST_OPEN: usize = 64;

/// The last number of a watch.
const LAST_NUMBER: u64 = 4_294_967_295;

impl Bucket {
    ghost use Rattle.kv_single.specs.contracts.bucket.Bucket.{the_row};

    /// Whether one watch more may be opened.
    fn has_room(&self) -> bool
        ensures room { (state : State) → Represents state self.now → result ≡ has_room state }
        ensures below { IsTrue result → self.now.opened < 4294967295 }
    {
        self.watches.len() < MOST_OPEN && self.opened < LAST_NUMBER
    }

    /// Opens a watch that begins now, and answers its number: 1 for the first, and never one that was given before. At
    /// most 64 watches are open at a time.
    ///
    /// It costs what opening a cursor does, and a snapshot of the version, which is held until the initial entries were
    /// handed out.
    pub fn watch(&mut self, filters: &Filters, options: Options) -> Result<u64, KvError>
        ensures ok { IfOk result (λ number. IsStep self.old (calls.Watch filters.now options) (Watching number) self.new) }
        ensures refused { IfErr result
            (λ e. (state : State) → Represents state self.old → Refuses e (next_number state)) }
        ensures unchanged { OnErr result (self.new ≡ self.old) }
        ensures version { self.new.version ≡ self.old.version }
    {
        if !self.has_room() {
            return Err(KvError::TooManyWatches);
        }
        let watch = Watch::open(self.alloc, &self.version, filters, options)?;
        let number = self.opened + 1;
        self.watches.push(Held::new(number, watch))?;
        self.opened = number;
        Ok(number)
    }

    /// What `take` would hand out.
    pub fn peek(&self, number: u64) -> Result<Taken<'_>, KvError>
        ensures ok { IfOk result (λ taken. (state : State) → Represents state self.now →
            answer_item (item_taken taken) ≡ answer_to state (Take number)) }
        ensures refused { IfErr result (λ e. (e ≡ NoSuchWatch) × ((state : State) → Represents state self.now →
            Refused e ≡ answer_to state (Take number))) }
    {
        let Some(index) = index_of(&self.watches, number) else {
            return Err(KvError::NoSuchWatch);
        };
        let held = &self.watches[index];
        Ok(held.watch.peek(&self.version))
    }

    /// Hands out the next item of a watch, lent from the bucket, and moves the watch on behind it. Where there is none
    /// it is `Empty`: then all that the watch is given by now was handed out. It takes no memory.
    pub fn take(&mut self, number: u64) -> Result<Taken<'_>, KvError>
        ensures* after { sem 𝓛 (follows_so the_row the_row self.entry.ghost_name none (λ _ _. ⊤)
            (λ left. MatchResult result
            (λ taken. IsStep self.old (Take number) (answer_item (item_taken taken)) left)
            (λ e. left ≡ self.old))) }
        ensures ok { IfOk result (λ taken. (state : State) → Represents state self.old →
            answer_item (item_taken taken) ≡ answer_to state (Take number)) }
        ensures refused { IfErr result (λ e. (e ≡ NoSuchWatch) × ((state : State) → Represents state self.old →
            Refused e ≡ answer_to state (Take number))) }
    {
        let Some(index) = index_of(&self.watches, number) else {
            return Err(KvError::NoSuchWatch);
        };
        let held = &mut self.watches[index];
        Ok(held.watch.take(&self.version))
    }

    /// Moves a watch on behind its next item, as `take` does, and lends nothing: so that what was peeked can be copied
    /// first, and want of memory loses no item. Where there is none, or no watch of the number is open, nothing is handed
    /// out.
    pub fn pass(&mut self, number: u64)
        ensures step { (state : State) → Represents state self.old → Represents (after state (Take number)) self.new }
        ensures version { self.new.version ≡ self.old.version }
    {
        if let Some(index) = index_of(&self.watches, number) {
            let held = &mut self.watches[index];
            held.watch.pass(&self.version);
        }
    }

    /// Stops a watch, and answers how many items it was handed. Its number is never used again.
    pub fn stop(&mut self, number: u64) -> Result<Stopped, KvError>
        ensures ok { IfOk result (λ stopped. IsStep self.old (Stop number) (Ended stopped.handed) self.new) }
        ensures refused { IfErr result (λ e. (e ≡ NoSuchWatch) × IsStep self.old (Stop number) (Refused e) self.new) }
        ensures unchanged { OnErr result (self.new ≡ self.old) }
        ensures version { self.new.version ≡ self.old.version }
    {
        let Some(index) = index_of(&self.watches, number) else {
            return Err(KvError::NoSuchWatch);
        };
        let handed = self.watches[index].watch.handed();
        self.watches.retain(|held| held.number() != number);
        Ok(Stopped { handed })
    }
}
