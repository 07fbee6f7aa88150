//! Laws of cursors, over every list of accepted acts.

ghost use Rattle.std.specs.Prelude.{◌≡◌, ℕ, ◌≤◌, false, List, length};
ghost use Rattle.kv_model.specs.Acts.{Act, IsPrefix, writes_of};
ghost use Rattle.kv_store.specs.Standing.{StandsFor};
ghost use Rattle.kv_store.specs.Stored.{Stored};
ghost use Rattle.kv_watch.specs.Following.{Following, InPlace, InReach};
ghost use Rattle.kv_model.specs.Given.{is_behind};
ghost use Rattle.kv_model.specs.declared.options.Options.{Options};

pub use kv_model::laws::watches::{given_goes_on, one_kept_is_latest, revisions_rise};

/// A cursor that is in place stays so for each later version of the bucket, with nothing done to it.
pub fn in_place_later()
    ensures { (n : ℕ) (began acts later : List Act) (base now newer : Stored) (cursor : Following) →
        InPlace began acts n base now cursor → StandsFor later newer → newer.config ≡ now.config → IsPrefix acts later →
        InPlace began later n base newer cursor }
{}

/// It is in reach of a later version where it is not behind its floor, and this is not above the last revision of the
/// present one: each later version before the next compaction, and the one that this makes where it is not refused.
pub fn in_reach_later()
    ensures { (n : ℕ) (began acts later : List Act) (base now newer : Stored) (cursor : Following) →
        InPlace began acts n base now cursor → StandsFor later newer → newer.config ≡ now.config → IsPrefix acts later →
        newer.floor ≤ length (writes_of acts) →
        is_behind newer.floor n base.config.history began acts cursor.filters cursor.options ≡ false →
        InReach began later n base newer cursor }
{}

/// So it stays in reach as long as the floor stays.
pub fn in_reach_while_the_floor_stays()
    ensures { (n : ℕ) (began acts later : List Act) (base now newer : Stored) (cursor : Following) →
        InReach began acts n base now cursor → StandsFor later newer → newer.config ≡ now.config → IsPrefix acts later →
        newer.floor ≡ now.floor → InReach began later n base newer cursor }
{}

/// What is not behind a floor is not so either once more was handed out.
pub fn ahead_goes_on()
    ensures { (floor n more h : ℕ) (began acts : List Act) (filters : List (List ℕ)) (options : Options) →
        n ≤ more → is_behind floor n h began acts filters options ≡ false →
        is_behind floor more h began acts filters options ≡ false }
{}
