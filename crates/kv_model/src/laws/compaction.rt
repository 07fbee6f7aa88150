//! Laws of compaction: which writes are stored, and what a compaction leaves of a key. They are over acts alone.

ghost use Rattle.std.specs.Prelude.{◌≡◌, ◌<◌, ◌≤◌, ℕ, true, false, List, [], ◌∷◌, ◌++◌, Some, None, Ok, Err, filter, length};
ghost use Rattle.std.specs.List.{Contains};
ghost use Rattle.std.specs.Str.{bytes_eq};
ghost use Rattle.kv_keys.specs.declared.error.KvError.TheVariants.{WatchBehind};
ghost use Rattle.kv_model.specs.Acceptance.{IsAccepted, IsLawful, objection};
ghost use Rattle.kv_model.specs.Acts.{Act, Compact, Write, writes_of, floor_of};
ghost use Rattle.kv_model.specs.Compaction.{is_bad_floor, stored_writes};
ghost use Rattle.kv_model.specs.further.OneByOne.{stored_after, left_one_by_one};
ghost use Rattle.kv_model.specs.Configuration.{Configuration};
ghost use Rattle.kv_model.specs.declared.options.Options.{Options};
ghost use Rattle.kv_model.specs.Given.{given};
ghost use Rattle.kv_model.specs.Requests.{create};
ghost use Rattle.kv_model.specs.Retained.{is_cleared, writes_of_key, last_write, last_revision, kept, retained};
ghost use Rattle.kv_model.specs.State.{State, Watch, watch_at, watch_behind, may_compact};

/// A kept write is stored: what is retained is never removed.
pub fn kept_is_stored()
    ensures retained { (config : Configuration) (h : ℕ) (acts : List Act) (w : Write) →
        IsLawful config acts → Contains (retained h acts) w → Contains (stored_writes h acts) w }
    ensures of_key { (config : Configuration) (h : ℕ) (key : List ℕ) (acts : List Act) (w : Write) →
        IsLawful config acts → Contains (kept h key acts) w → Contains (stored_writes h acts) w }
{}

/// A write above the floor is stored, and the floor is never above the last revision.
pub fn above_the_floor_is_stored()
    ensures above { (h : ℕ) (acts : List Act) (w : Write) →
        Contains (writes_of acts) w → floor_of acts < w.revision → Contains (stored_writes h acts) w }
    ensures floor { (config : Configuration) (acts : List Act) → IsLawful config acts →
        floor_of acts ≤ length (writes_of acts) }
{}

/// As long as there is no floor every write is stored.
pub fn all_are_stored()
    ensures { (config : Configuration) (h : ℕ) (acts : List Act) →
        IsLawful config acts → floor_of acts ≡ 0 → stored_writes h acts ≡ writes_of acts }
{}

/// The stored writes are what the acts leave one by one: an accepted write comes behind them, and a compaction removes
/// those at or below its floor that are then not kept.
pub fn stored_are_left_one_by_one()
    ensures whole { (config : Configuration) (h : ℕ) (acts : List Act) →
        IsLawful config acts → stored_writes h acts ≡ left_one_by_one h [] [] acts }
    ensures step { (config : Configuration) (h : ℕ) (acts : List Act) (act : Act) →
        IsLawful config acts → IsAccepted config acts act →
        stored_writes h (acts ++ act ∷ []) ≡ stored_after h acts (stored_writes h acts) act }
{}

/// A floor never falls.
pub fn floors_never_fall()
    ensures { (config : Configuration) (acts : List Act) (act : Act) →
        IsAccepted config acts act → floor_of acts ≤ floor_of (acts ++ act ∷ []) }
{}

/// A key that a compaction clears is as one that was never written.
pub fn cleared_is_as_never_written()
    ensures writes { (key : List ℕ) (acts : List Act) (floor : ℕ) →
        is_cleared floor (writes_of_key key acts) ≡ true → writes_of_key key (acts ++ Compact floor ∷ []) ≡ [] }
    ensures last { (key : List ℕ) (acts : List Act) (floor : ℕ) →
        is_cleared floor (writes_of_key key acts) ≡ true → last_revision key (acts ++ Compact floor ∷ []) ≡ 0 }
    ensures kept { (h : ℕ) (key : List ℕ) (acts : List Act) (floor : ℕ) →
        is_cleared floor (writes_of_key key acts) ≡ true → kept h key (acts ++ Compact floor ∷ []) ≡ [] }
    ensures create { (key value : List ℕ) (acts : List Act) (floor : ℕ) →
        is_cleared floor (writes_of_key key acts) ≡ true → objection (create key value) (acts ++ Compact floor ∷ [])
        ≡ None }
{}

/// Of a key that it doesn't clear a compaction leaves the last write, its revision, and what is kept and retained.
pub fn others_are_kept()
    ensures last { (key : List ℕ) (acts : List Act) (floor : ℕ) →
        is_cleared floor (writes_of_key key acts) ≡ false →
        last_write key (acts ++ Compact floor ∷ []) ≡ last_write key acts }
    ensures revision { (key : List ℕ) (acts : List Act) (floor : ℕ) →
        is_cleared floor (writes_of_key key acts) ≡ false →
        last_revision key (acts ++ Compact floor ∷ []) ≡ last_revision key acts }
    ensures kept { (h : ℕ) (key : List ℕ) (acts : List Act) (floor : ℕ) →
        is_cleared floor (writes_of_key key acts) ≡ false → kept h key (acts ++ Compact floor ∷ []) ≡ kept h key acts }
    ensures retained { (h : ℕ) (key : List ℕ) (acts : List Act) (floor : ℕ) →
        is_cleared floor (writes_of_key key acts) ≡ false →
        filter (λ w. bytes_eq w.key key) (retained h (acts ++ Compact floor ∷ []))
        ≡ filter (λ w. bytes_eq w.key key) (retained h acts) }
{}

/// A compaction leaves what a watch is given.
pub fn given_stays()
    ensures { (h : ℕ) (began acts : List Act) (floor : ℕ) (filters : List (List ℕ)) (options : Options) →
        given h began (acts ++ Compact floor ∷ []) filters options ≡ given h began acts filters options }
{}

/// A compaction is made to the floor that is asked for, where this is not bad and no open watch is behind it.
pub fn none_is_behind_a_floor()
    ensures { (state : State) (floor made : ℕ) → may_compact floor state ≡ Ok made →
        (made ≡ floor) × (is_bad_floor floor state.acts ≡ false)
        × ((number : ℕ) (watch : Watch) → watch_at number state.watches ≡ Some watch →
        watch_behind floor state.config.history state.acts watch ≡ false) }
{}

/// A compaction is refused for the open watch with the least number of those that are behind its floor.
pub fn refused_for_the_least()
    ensures { (state : State) (floor number : ℕ) → may_compact floor state ≡ Err (WatchBehind number) →
        (is_bad_floor floor state.acts ≡ false)
        × ((watch : Watch) × (watch_at number state.watches ≡ Some watch)
        × (watch_behind floor state.config.history state.acts watch ≡ true))
        × ((lesser : ℕ) (watch : Watch) → lesser < number → watch_at lesser state.watches ≡ Some watch →
        watch_behind floor state.config.history state.acts watch ≡ false) }
{}
