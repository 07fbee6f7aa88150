//! Laws of checkpoints.

ghost use Rattle.std.specs.Prelude.{◌≡◌, ◌<◌, ◌∷◌, ◌++◌, [], ℕ, List};
ghost use Rattle.std.specs.List.{Contains};
ghost use Rattle.kv_model.specs.Acceptance.{IsLawful};
ghost use Rattle.kv_model.specs.Acts.{Act, Write};
ghost use Rattle.kv_model.specs.Compaction.{stored_writes};
ghost use Rattle.kv_model.specs.Configuration.{Configuration, IsLegal};
ghost use Rattle.kv_model.specs.Retained.{kept, last_n, since_purge};
ghost use Rattle.kv_store.specs.PuttingBack.{PutsBack};
ghost use Rattle.kv_store.specs.Standing.{StandsFor};
ghost use Rattle.kv_store.specs.Stored.{Stored};
ghost use Rattle.kv_journal.specs.Checkpoints.{checkpoint_of};
ghost use Rattle.kv_journal.specs.Restored.{HasPutBack, IsRestored, those_of};

/// What is kept of a key are, of its stored writes, those from the last purge on, and of these the last ones.
pub fn kept_is_of_stored()
    ensures { (config : Configuration) (h : ℕ) (key : List ℕ) (acts : List Act) → IsLawful config acts → 0 < h →
        kept h key acts ≡ last_n h (since_purge (those_of key (stored_writes h acts))) }
{}

/// A checkpoint loses nothing: a version that is made of that behind these acts stands for them.
pub fn a_checkpoint_stands()
    ensures { (config : Configuration) (acts : List Act) (version : Stored) → IsLegal config → IsLawful config acts →
        IsRestored config (checkpoint_of config acts) version → StandsFor acts version }
{}

/// A version that is made of stored writes, and one more that is put back behind them, is made of those and it.
pub fn one_more_is_put_back()
    ensures { (ws : List Write) (w : Write) (old new : Stored) → 0 < old.config.history → HasPutBack ws old →
        ((v : Write) → Contains ws v → v.revision < w.revision) → PutsBack w old new → HasPutBack (ws ++ w ∷ []) new }
{}
