//! Cursors: how far a watch has come in what it is given, and the next live write behind that.

ghost use Rattle.std.specs.Prelude.{◌≡◌, ◌+◌, ◌≤◌, ◌↔◌, ◌<◌, ◌-◌, ◌∷◌, ℕ, List, [], Some, None, IfOk, IfErr, is_some, length, nat_lt, slice_get, IsNone, max, MatchOption};
ghost use Rattle.std.specs.Option.{option_copied, option_len, option_map, IfSome};
ghost use Rattle.kv_keys.specs.declared.error.KvError.TheVariants.{OutOfMemory};
ghost use Rattle.kv_model.specs.Acts.{Act, writes_of};
ghost use Rattle.kv_model.specs.further.Events.{event_of};
ghost use Rattle.kv_model.specs.Given.{is_behind, AnEntry, entry_of};
ghost use Rattle.kv_store.specs.Standing.{StandsFor};
ghost use Rattle.kv_store.specs.Stored.{Stored, write_at};
ghost use Rattle.kv_watch.specs.Following.{given_to, behind, next_behind, InPlace, InReach, IsOpening, shown_behind};
ghost use Rattle.kv_watch.specs.Taking.{entry_item, item_taken};

use crate::item::{Shown, Taken, is_shown};
use crate::opening::{owed_at_opening, owes_marker};
use kv_keys::{Filters, KvError};
use kv_model::{Event, Options, Write};
use kv_store::Version;
use std::alloc::Global;
use std::marker::Model;

/// How far a watch has come in what it is given. It keeps no version: each call is handed the present one, and the one
/// that it was opened on, which may be left out once all initial entries were handed out. It is exact where the cursor
/// is in reach for these two: in place, with no live entry at or below the floor of the present one still to be handed
/// out. It is so at its opening, stays so behind each item, and for every later version of the bucket whose floor it is
/// not behind (see `laws::in_reach_later`).
///
/// It owes its initial entries as a list of revisions, made when it is opened: a take of one is a single look-up. Of
/// live writes it remembers how far it has looked.
pub struct Cursor {
    filters: Filters,
    options: Options,
    // the revisions of the initial entries that are still owed, the next one last
    owed: Vec<u64>,
    marker: bool,
    seen: u64,
    next: u64,
    handed: u64,
}

// Field by field: a derived drop makes each proof longer that owns one.
impl Drop for Cursor {
    fn drop(self) {
        let Self {
            filters: _,
            options: _,
            owed: _,
            marker: _,
            seen: _,
            next: _,
            handed: _,
        } = self;
    }
}

impl Model for Cursor {
    ghost use Rattle.std.specs.Prelude.{reverse};
    ghost use Rattle.kv_watch.specs.Following.{Following};

    ghost Value = { Following };

    ghost view = { λ c. record {
      filters = c.filters;
      options = c.options;
      owed = reverse c.owed.items;
      marker = c.marker;
      seen = c.seen;
      next = c.next;
      handed = c.handed;
    } };
}

impl Cursor {
    /// A cursor before the first item of a watch that begins at this version. It costs the keys, which are looked at
    /// once, and what it will hand out.
    pub fn open(
        alloc: Global,
        base: &Version,
        filters: &Filters,
        options: Options,
    ) -> Result<Cursor, KvError>
        ensures filters { IfOk result (λ cursor. cursor.filters ≡ filters.now) }
        ensures options { IfOk result (λ cursor. cursor.options ≡ options) }
        ensures in_reach { IfOk result (λ cursor. (acts : List Act) → StandsFor acts base.now →
            InReach acts acts 0 base.now base.now cursor) }
        ensures err { IfErr result (λ e. e ≡ OutOfMemory) }
    {
        let owed = owed_at_opening(alloc, base, filters, options)?;
        let filters = filters.copy(alloc)?;
        let seen = base.revision();
        Ok(Cursor {
            filters,
            options,
            owed,
            marker: owes_marker(options.start),
            seen,
            next: seen.saturating_add(1),
            handed: 0,
        })
    }

    /// Lets the version of the opening go once all initial entries were handed out: who keeps it for the cursor has no
    /// need of it any more.
    pub fn let_go(&self, kept: &mut Option<Version>)
        ensures opening { (base : Stored) → IsOpening kept.old base self.now → IsOpening kept.new base self.now }
        ensures lets_go { self.now.owed ≡ [] → kept.new ≡ None }
    {
        if self.owed.is_empty() {
            *kept = None;
        }
    }

    /// What has to be kept for the cursor of the version that it was opened on.
    pub fn keep(&self, base: Version) -> Option<Version>
        ensures opening { IsOpening result base self.now }
        ensures lets_go { self.now.owed ≡ [] → result ≡ None }
    {
        let mut kept = Some(base);
        self.let_go(&mut kept);
        kept
    }

    /// What `take` would hand out.
    pub fn peek<'a>(&self, base: Option<&'a Version>, now: &'a Version) -> Taken<'a>
        ensures { (n : ℕ) (began acts : List Act) (opening : Stored) →
            IsOpening (option_copied base.entry) opening self.now → InReach began acts n opening now.now self.now →
            item_taken result ≡ slice_get (given_to opening.config.history began acts self.now) n }
    {
        if let Some(revision) = self.owed.last() {
            return initial_at(base, *revision, self.options.headers_only);
        }
        if self.marker {
            return Taken::Marker;
        }
        match next_live(now, &self.filters, self.options, self.seen) {
            Some(write) => Taken::Entry(Shown::new(write, self.options.headers_only)),
            None => Taken::Empty,
        }
    }

    /// Hands out the next item, lent from the versions, and moves on behind it. Where there is none it is `Empty`, and
    /// the cursor stays as it is.
    pub fn take<'a>(&mut self, base: Option<&'a Version>, now: &'a Version) -> Taken<'a>
        ensures filters { self.new.filters ≡ self.old.filters }
        ensures options { self.new.options ≡ self.old.options }
        // It is the next item of what the watch is given, or there is none.
        ensures next { (n : ℕ) (began acts : List Act) (opening : Stored) →
            IsOpening (option_copied base.entry) opening self.old → InReach began acts n opening now.now self.old →
            item_taken result ≡ slice_get (given_to opening.config.history began acts self.old) n }
        // It is empty exactly where all that the watch is given was handed out.
        ensures end { (n : ℕ) (began acts : List Act) (opening : Stored) →
            IsOpening (option_copied base.entry) opening self.old → InReach began acts n opening now.now self.old →
            (item_taken result ≡ None) ↔ (n ≡ length (given_to opening.config.history began acts self.old)) }
        ensures in_reach { (n : ℕ) (began acts : List Act) (opening : Stored) →
            IsOpening (option_copied base.entry) opening self.old → InReach began acts n opening now.now self.old →
            InReach began acts (n + option_len (item_taken result)) opening now.now self.new }
        ensures none { item_taken result ≡ None → self.new ≡ self.old }
    {
        let taken = self.peek(base, now);
        if let Some(event) = taken.event() {
            self.step(event);
        }
        taken
    }

    // Moves on behind the item that was the next one. No bucket has so many writes that a number would end: the sums
    // stop there so that they need no condition.
    fn step(&mut self, next: Event)
        ensures { self.new ≡ behind next self.old }
    {
        match next {
            Event::Marker => self.marker = false,
            Event::Entry { revision } => {
                if self.owed.pop().is_none() {
                    self.seen = revision;
                    self.next = revision.saturating_add(1);
                }
            }
        }
        self.handed = self.handed.saturating_add(1);
    }

    // Moves on behind the next item, of which this is the event. Where there is none all live writes were looked at, which
    // it notes: later takes begin behind those writes.
    fn step_behind(&mut self, next: Option<Event>, now: &Version)
        ensures filters { self.new.filters ≡ self.old.filters }
        ensures options { self.new.options ≡ self.old.options }
        ensures in_reach { (n : ℕ) (began acts : List Act) (base : Stored) →
            InReach began acts n base now.now self.old →
            next ≡ option_map event_of (slice_get (given_to base.config.history began acts self.old) n) →
            InReach began acts (n + option_len next) base now.now self.new }
        ensures none { next ≡ None → self.new ≡ record self.old { seen = now.now.last } }
        ensures owes { self.old.owed ≡ [] → self.new.owed ≡ [] }
    {
        match next {
            Some(event) => self.step(event),
            None => self.seen = now.revision(),
        }
    }

    // The event of the next item. That of an initial entry needs no version.
    fn next_event(&self, now: &Version) -> Option<Event>
        ensures { (n : ℕ) (began acts : List Act) (base : Stored) → InReach began acts n base now.now self.now →
            result ≡ option_map event_of (slice_get (given_to base.config.history began acts self.now) n) }
    {
        if let Some(revision) = self.owed.last() {
            return Some(Event::Entry {
                revision: *revision,
            });
        }
        if self.marker {
            return Some(Event::Marker);
        }
        match next_live(now, &self.filters, self.options, self.seen) {
            Some(write) => Some(Event::Entry {
                revision: write.revision(),
            }),
            None => None,
        }
    }

    /// Moves on behind the next item, as `take` does, and lends nothing: so that what was peeked can be copied first, and
    /// want of memory loses no item. Where there is none it notes how far it looked. It needs no version of the opening:
    /// of an initial entry it looks nothing up, of a live one it looks at the write once more.
    pub fn pass(&mut self, now: &Version)
        ensures filters { self.new.filters ≡ self.old.filters }
        ensures options { self.new.options ≡ self.old.options }
        ensures in_reach { (n : ℕ) (began acts : List Act) (base : Stored) →
            InReach began acts n base now.now self.old →
            InReach began acts (n + option_len (slice_get (given_to base.config.history began acts self.old) n)) base
            now.now self.new }
        ensures owes { self.old.owed ≡ [] → self.new.owed ≡ [] }
    {
        let next = self.next_event(now);
        self.step_behind(next, now);
    }

    /// Looks for the next item, says whether there is one, and notes how far it looked in vain: up to just before the
    /// item's write, or to the last where nothing is left. No later answer changes by it: a later take finds its item
    /// at once.
    pub fn settle(&mut self, now: &Version) -> bool
        ensures same { self.new ≡ record self.old { seen = self.new.seen } }
        ensures in_reach { (n : ℕ) (began acts : List Act) (base : Stored) →
            InReach began acts n base now.now self.old →
            InReach began acts n base now.now self.new }
        ensures found { (n : ℕ) (began acts : List Act) (base : Stored) → InReach began acts n base now.now self.old →
            result ≡ is_some (slice_get (given_to base.config.history began acts self.old) n) }
        ensures looked { (n : ℕ) (began acts : List Act) (base : Stored) → InReach began acts n base now.now self.old →
            n ≡ length (given_to base.config.history began acts self.old) → self.new.seen ≡ now.now.last }
    {
        if let Some(_) = self.owed.last() {
            return true;
        }
        if self.marker {
            return true;
        }
        match next_live(now, &self.filters, self.options, self.seen) {
            Some(write) => {
                self.seen = write.revision().saturating_sub(1);
                true
            }
            None => {
                self.seen = now.revision();
                false
            }
        }
    }

    /// As `take` does. Where there is none it notes how far it looked, as `settle` does, so that what was looked at in
    /// vain is not looked at again. It looks once.
    pub fn take_settled<'a>(&mut self, base: Option<&'a Version>, now: &'a Version) -> Taken<'a>
        ensures filters { self.new.filters ≡ self.old.filters }
        ensures options { self.new.options ≡ self.old.options }
        ensures next { (n : ℕ) (began acts : List Act) (opening : Stored) →
            IsOpening (option_copied base.entry) opening self.old → InReach began acts n opening now.now self.old →
            item_taken result ≡ slice_get (given_to opening.config.history began acts self.old) n }
        ensures in_reach { (n : ℕ) (began acts : List Act) (opening : Stored) →
            IsOpening (option_copied base.entry) opening self.old → InReach began acts n opening now.now self.old →
            InReach began acts (n + option_len (item_taken result)) opening now.now self.new }
        // Where there was none, nothing but how far it has looked changes, and it has looked at all.
        ensures none { item_taken result ≡ None → self.new ≡ record self.old { seen = self.new.seen } }
        ensures looked { item_taken result ≡ None → (n : ℕ) (began acts : List Act) (opening : Stored) →
            IsOpening (option_copied base.entry) opening self.old → InReach began acts n opening now.now self.old →
            self.new.seen ≡ now.now.last }
        // A cursor that owed no initial entry owes none afterwards.
        ensures owes { self.old.owed ≡ [] → self.new.owed ≡ [] }
    {
        let taken = self.peek(base, now);
        self.step_behind(taken.event(), now);
        taken
    }

    /// Whether a live entry at or below the floor is still to be handed out, so that the version must not be compacted
    /// to that floor. It looks at the live writes up to the next one that is shown.
    pub fn behind(&self, now: &Version, floor: u64) -> bool
        ensures { (n : ℕ) (began acts : List Act) (base : Stored) → InReach began acts n base now.now self.now →
            result ≡ is_behind floor n base.config.history began acts self.now.filters self.now.options }
    {
        match next_live(now, &self.filters, self.options, self.seen) {
            Some(write) => write.revision() <= floor,
            None => false,
        }
    }

    /// The highest floor, up to the last revision, to which the version may be compacted: no live entry at or below it
    /// is still to be handed out. It looks as far as `behind` does.
    pub fn reach(&self, now: &Version) -> u64
        ensures within { (acts : List Act) → StandsFor acts now.now → result ≤ length (writes_of acts) }
        ensures reach { (n : ℕ) (began acts : List Act) (base : Stored) → InReach began acts n base now.now self.now →
            (floor : ℕ) → floor ≤ length (writes_of acts) →
            is_behind floor n base.config.history began acts self.now.filters self.now.options ≡ nat_lt result floor }
    {
        match next_live(now, &self.filters, self.options, self.seen) {
            Some(write) => write.revision().saturating_sub(1).min(now.revision()),
            None => now.revision(),
        }
    }

    /// What its watch begins with, and how it shows writes.
    pub fn options(&self) -> Options
        ensures { result ≡ self.now.options }
    {
        self.options
    }

    /// How many items were handed out, the end marker counted.
    pub fn handed(&self) -> u64
        ensures value { result ≡ self.now.handed }
        ensures given { (n : ℕ) (began acts : List Act) (base now : Stored) → InPlace began acts n base now self.now →
            result ≡ n }
    {
        self.handed
    }

    /// One more than the revision of the last live entry that was handed out; where there was none, one more than the
    /// last revision at the opening.
    pub fn next(&self) -> u64
        ensures value { result ≡ self.now.next }
        ensures given { (n : ℕ) (began acts : List Act) (base now : Stored) → InPlace began acts n base now self.now →
            result ≡ next_behind base.config.history began acts n self.now }
    {
        self.next
    }
}

// The entry of an initial write, by its revision.
fn initial_at<'a>(base: Option<&'a Version>, revision: u64, headers_only: bool) -> Taken<'a>
    ensures { (opening : Stored) → option_copied base.entry ≡ Some opening →
        item_taken result ≡ entry_item headers_only (write_at revision opening) }
{
    match base {
        Some(base) => entry_at(base, revision, headers_only),
        None => Taken::Empty,
    }
}

// The entry of the write that is stored of a revision.
fn entry_at<'a>(base: &'a Version, revision: u64, headers_only: bool) -> Taken<'a>
    ensures { item_taken result ≡ entry_item headers_only (write_at revision base.now) }
{
    match base.write_at(revision) {
        Some(write) => Taken::Entry(Shown::new(write, headers_only)),
        None => Taken::Empty,
    }
}

// The first write behind a revision, and above the floor, that a watch with these filters and options shows. It looks
// at each write up to that one: above the floor each is stored.
fn next_live<'a>(
    now: &'a Version,
    filters: &Filters,
    options: Options,
    seen: u64,
) -> Option<&'a Write>
    ensures first { (acts : List Act) → StandsFor acts now.now → MatchOption result
        (shown_behind (max seen now.now.floor) acts filters.now options ≡ [])
        (λ write. shown_behind (max seen now.now.floor) acts filters.now options
        ≡ AnEntry (entry_of options.headers_only write.now) ∷ shown_behind write.now.revision acts filters.now
        options) }
    // Nothing before it is shown.
    ensures skipped { (acts : List Act) → StandsFor acts now.now → IfSome result (λ write.
        (shown_behind (write.now.revision - 1) acts filters.now options
        ≡ shown_behind (max seen now.now.floor) acts filters.now options)
        × (seen < write.now.revision) × (write.now.revision ≤ length (writes_of acts))) }
{
    for place in seen.max(now.floor())..now.revision() {
        let Some(write) = now.write_at(place + 1) else {
            return None;
        };
        if is_shown(filters, options, write) {
            return Some(write);
        }
    }
    None
}
