//! Watches in progress.

ghost use Rattle.std.specs.Prelude.{◌≡◌, ℕ, ⊤, false, List, [], IfOk, IfErr, is_some, length, nat_lt, ◌≤◌};
ghost use Rattle.std.specs.Borrow.{sem, follows_so};
ghost use mathlib.Core.Option.{none};
ghost use Rattle.kv_keys.specs.declared.error.KvError.TheVariants.{OutOfMemory};
ghost use Rattle.kv_model.specs.Acts.{Act, writes_of};
ghost use Rattle.kv_model.specs.Given.{is_behind};
ghost use Rattle.kv_store.specs.Standing.{StandsFor};
ghost use Rattle.kv_watch.specs.Taking.{item_taken};
ghost use Rattle.kv_watch.specs.Watching.{HasHanded, MovesOn, all_given, item_behind};

use crate::cursor::Cursor;
use crate::item::Taken;
use kv_keys::{Filters, KvError};
use kv_model::Options;
use kv_store::Version;
use std::alloc::Global;
use std::marker::Model;
use std::snapshot::Snapshot;

/// A watch in progress: how far it has come, and the version that it was opened on, which it keeps as long as it owes an
/// initial entry. Each call is handed the present version of the bucket. It answers exactly where that has all that the
/// watch has still to hand out: the version of the opening, and each later one whose floor the watch is not behind.
pub struct Watch {
    // The version of the opening, as contracts see it. It has no bytes.
    opening: Snapshot<Version>,
    // That version, as long as an initial entry is owed, or the last one is lent from it.
    kept: Option<Version>,
    cursor: Cursor,
}

// What is dropped is named field by field: a derived drop makes each proof longer that owns a watch.
impl Drop for Watch {
    fn drop(self) {
        let Self {
            opening: _,
            kept: _,
            cursor: _,
        } = self;
    }
}

impl Model for Watch {
    ghost use Rattle.std.specs.Prelude.{is_some};
    ghost use Rattle.kv_watch.specs.Following.{IsOpening};
    ghost use Rattle.kv_watch.specs.Watching.{Watching};

    ghost Value = { Watching };

    ghost view = { λ w. record { opening = w.opening.value; keeps = is_some w.kept; cursor = w.cursor } };

    ghost invariant = { λ w. IsOpening w.kept w.opening.value w.cursor };
}

impl Watch {
    ghost use Rattle.kv_watch.specs.contracts.watch.Watch.{the_row};

    /// A watch that begins at this version, before its first item. It costs the keys, which are looked at once, what it
    /// will hand out, and a snapshot, which is kept as long as it owes an initial entry, or lends the last one.
    pub fn open(
        alloc: Global,
        version: &Version,
        filters: &Filters,
        options: Options,
    ) -> Result<Watch, KvError>
        ensures opening { IfOk result (λ watch. watch.opening ≡ version.now) }
        ensures filters { IfOk result (λ watch. watch.cursor.filters ≡ filters.now) }
        ensures options { IfOk result (λ watch. watch.cursor.options ≡ options) }
        ensures handed { IfOk result (λ watch. (acts : List Act) → StandsFor acts version.now →
            HasHanded acts acts 0 version.now watch) }
        ensures lets_go { IfOk result (λ watch. watch.cursor.owed ≡ [] → watch.keeps ≡ false) }
        ensures err { IfErr result (λ e. e ≡ OutOfMemory) }
    {
        let base = version.snapshot()?;
        let cursor = Cursor::open(alloc, version, filters, options)?;
        let kept = cursor.keep(base);
        Ok(Watch {
            opening: Snapshot::of(version),
            kept,
            cursor,
        })
    }

    /// What `take` would hand out.
    pub fn peek<'a>(&'a self, now: &'a Version) -> Taken<'a>
        ensures { (n : ℕ) (began acts : List Act) → HasHanded began acts n now.now self.now →
            item_taken result ≡ item_behind began acts n self.now }
    {
        self.cursor.peek(self.kept.as_ref(), now)
    }

    /// Hands out the next item, lent from the versions, and moves on behind it. Where there is none it is `Empty`: then
    /// all that the watch is given by now was handed out. It notes how far it looked, so that what was looked at in vain
    /// is not looked at again. The first take behind the initial entries lets the version of the opening go.
    pub fn take<'a>(&'a mut self, now: &'a Version) -> Taken<'a>
        ensures* after { sem 𝓛 (follows_so the_row the_row self.entry.ghost_name none (λ _ _. ⊤)
            (λ left. MovesOn now.now self.old left × (self.old.cursor.owed ≡ [] → left.keeps ≡ false))) }
        ensures next { (n : ℕ) (began acts : List Act) → HasHanded began acts n now.now self.old →
            item_taken result ≡ item_behind began acts n self.old }
    {
        self.cursor.let_go(&mut self.kept);
        self.cursor.take_settled(self.kept.as_ref(), now)
    }

    /// Moves on behind the next item, as `take` does, and lends nothing: so that what was peeked can be copied first, and
    /// want of memory loses no item. Of an item that came after the opening it looks at the write once more.
    pub fn pass(&mut self, now: &Version)
        ensures moves { MovesOn now.now self.old self.new }
        ensures lets_go { self.new.cursor.owed ≡ [] → self.new.keeps ≡ false }
    {
        self.cursor.pass(now);
        self.cursor.let_go(&mut self.kept);
    }

    /// Looks for the next item, says whether there is one, and notes how far it looked in vain: a later take finds its
    /// item at once. It hands out nothing.
    pub fn settle(&mut self, now: &Version) -> bool
        ensures same { self.new ≡ record self.old {
          cursor = record self.old.cursor { seen = self.new.cursor.seen };
        } }
        ensures handed { (n : ℕ) (began acts : List Act) → HasHanded began acts n now.now self.old →
            HasHanded began acts n now.now self.new }
        ensures found { (n : ℕ) (began acts : List Act) → HasHanded began acts n now.now self.old →
            result ≡ is_some (item_behind began acts n self.old) }
    {
        self.cursor.settle(now)
    }

    /// Whether an entry that came after the opening, at or below the floor, is still to be handed out, so that the
    /// version must not be compacted to that floor. It looks at the writes up to the next one that is shown.
    pub fn behind(&self, now: &Version, floor: u64) -> bool
        ensures { (n : ℕ) (began acts : List Act) → HasHanded began acts n now.now self.now →
            result ≡ is_behind floor n self.now.opening.config.history began acts self.now.cursor.filters
            self.now.cursor.options }
    {
        self.cursor.behind(now, floor)
    }

    /// The highest floor, up to the last revision, that the watch is not behind.
    pub fn reach(&self, now: &Version) -> u64
        ensures within { (acts : List Act) → StandsFor acts now.now → result ≤ length (writes_of acts) }
        ensures reach { (n : ℕ) (began acts : List Act) → HasHanded began acts n now.now self.now → (floor : ℕ) →
            floor ≤ length (writes_of acts) →
            is_behind floor n self.now.opening.config.history began acts self.now.cursor.filters
            self.now.cursor.options ≡ nat_lt result floor }
    {
        self.cursor.reach(now)
    }

    /// How many items were handed out, the end marker counted.
    pub fn handed(&self) -> u64
        ensures value { result ≡ self.now.cursor.handed }
    {
        self.cursor.handed()
    }

    /// The cursor.
    pub fn cursor(&self) -> &Cursor
        ensures { result.now ≡ self.now.cursor }
    {
        &self.cursor
    }
}
