//! Feeds: watches that go on from view to view, and so apart from their bucket.

ghost use Rattle.std.specs.Prelude.{◌≡◌, ◌⊎◌, ℕ, List, IfErr, IfOk, OnErr, OnOk, nat_le, true};
ghost use Rattle.kv_c.specs.Codes.{taken_code};
ghost use Rattle.kv_c.specs.Handing.{HasSizes, Wants};
ghost use Rattle.kv_c.specs.Feeding.{HandsNext, HasHanded, IsRefreshed, Opens, lags, next_of};
ghost use Rattle.kv_keys.specs.declared.error.KvError.TheVariants.{Lagged, OutOfMemory};
ghost use Rattle.kv_model.specs.Acts.{Act};
ghost use Rattle.kv_model.specs.Answers.{answer_item};

use crate::item::{self, Item};
use kv_single::{Filters, KvError, Options, Version};
use kv_watch::Watch;
use std::alloc::Global;
use std::marker::Model;

/// A watch, and the version that it has gone on to.
pub struct Feed {
    present: Version,
    watch: Watch,
}

// Field by field: a derived drop makes each proof longer that owns a feed.
impl Drop for Feed {
    fn drop(self) {
        let Self {
            present: _,
            watch: _,
        } = self;
    }
}

impl Model for Feed {
    ghost use Rattle.kv_c.specs.Feeding.{Fed};

    ghost Value = { Fed };

    ghost view = { λ f. record { present = f.present; watch = f.watch } };
}

impl Feed {
    /// A feed that begins with a version.
    pub(crate) fn open(
        alloc: Global,
        version: &Version,
        filters: &Filters,
        options: Options,
    ) -> Result<Feed, KvError>
        ensures ok { IfOk result (λ feed. Opens version.now filters.now options feed) }
        ensures err { IfErr result (λ e. e ≡ OutOfMemory) }
    {
        let present = version.snapshot()?;
        let watch = Watch::open(alloc, version, filters, options)?;
        Ok(Feed { present, watch })
    }

    /// Whether a version has no fewer writes than the one that it has gone on to.
    pub(crate) fn may_go_on_to(&self, version: &Version) -> bool
        ensures { result ≡ nat_le self.now.present.last version.now.last }
    {
        self.present.revision() <= version.revision()
    }

    // Whether it lags behind a floor: that is above its version's last revision, or it has still to hand out an entry
    // at or below it that came after its opening. Such an entry may be gone from the versions that have that floor.
    fn lags_behind(&self, floor: u64) -> bool
        ensures { (began acts : List Act) (n : ℕ) → HasHanded began acts n self.now →
            result ≡ lags floor began acts n self.now }
    {
        if self.present.revision() < floor {
            return true;
        }
        self.watch.behind(&self.present, floor)
    }

    /// Goes on to a version, unless it lags behind that one's floor.
    pub(crate) fn refresh(&mut self, version: &Version) -> Result<(), KvError>
        ensures ok { OnOk result (IsRefreshed version.now self.old self.new) }
        ensures err { IfErr result (λ e. (e ≡ OutOfMemory) ⊎ (e ≡ Lagged version.now.floor)) }
        ensures lags { IfErr result (λ e. ¬ (e ≡ OutOfMemory) → (began acts : List Act) (n : ℕ) →
            HasHanded began acts n self.old → lags version.now.floor began acts n self.old ≡ true) }
        ensures unchanged { OnErr result (self.new ≡ self.old) }
    {
        let floor = version.floor();
        if self.lags_behind(floor) {
            return Err(KvError::Lagged { floor });
        }
        self.present = version.snapshot()?;
        Ok(())
    }

    /// Hands out its next item. Where there is too little room, it stays where it is, nothing is copied, and the item
    /// tells how much is needed.
    pub(crate) fn take(&mut self, keys: &mut [u8], values: &mut [u8], item: &mut Item) -> u64
        ensures taken { result ≡ 0 → HandsNext self.old item.new keys.new values.new self.new }
        ensures code { (began acts : List Act) (n : ℕ) → HasHanded began acts n self.old →
            result ≡ taken_code keys.old values.old (answer_item (next_of began acts n self.old)) }
        ensures sizes { result ≡ 0 → (began acts : List Act) (n : ℕ) → HasHanded began acts n self.old →
            HasSizes item.new (answer_item (next_of began acts n self.old)) }
        ensures wants { result ≡ 33 → (began acts : List Act) (n : ℕ) → HasHanded began acts n self.old →
            Wants item.new (answer_item (next_of began acts n self.old)) }
        ensures unchanged { ¬ (result ≡ 0) → self.new ≡ self.old }
        ensures room { ¬ (result ≡ 0) → (keys.new ≡ keys.old) × (values.new ≡ values.old) }
        ensures untold { ¬ (result ≡ 0) → ¬ (result ≡ 33) → item.new ≡ item.old }
    {
        let taken = self.watch.peek(&self.present);
        let done = item::hand(&taken, keys, values, item);
        if done == 0 {
            self.watch.pass(&self.present);
        }
        done
    }
}
