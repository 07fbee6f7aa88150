//! Laws of races, over every list of accepted acts.

ghost use Rattle.std.specs.Prelude.{◌≡◌, ℕ, [], List, Some, filter};
ghost use Rattle.kv_bucket.specs.Keeping.{PublishesWrite};
ghost use Rattle.kv_race.specs.Racing.{accepted_at, is_at, shown_alone, written_by};
ghost use Rattle.kv_model.specs.Acceptance.{IsLawful};
ghost use Rattle.kv_model.specs.Acts.{Act, IsPrefix};
ghost use Rattle.kv_model.specs.Configuration.{Configuration};
ghost use Rattle.kv_model.specs.Requests.{Asked};
ghost use Rattle.kv_model.specs.Given.{given};
ghost use Rattle.kv_model.specs.declared.options.Options.{Options};

/// Whoever goes on to lawful acts that begin with those of a receipt is given, on a watch from the empty bucket,
/// exactly what it shows of the request's own write at the revision that was answered: one entry or none.
pub fn told_write_is_seen_once()
    ensures { (config : Configuration) (request : Asked) (revision : ℕ) (before told acts : List Act)
        (filters : List (List ℕ)) (options : Options) →
        PublishesWrite config request revision before told → IsPrefix told acts → IsLawful config acts →
        filter (is_at revision) (given config.history [] acts filters options)
        ≡ shown_alone filters options (written_by request revision) }
{}

/// The write of that revision is the request's own.
pub fn told_write_stands()
    ensures { (config : Configuration) (request : Asked) (revision : ℕ) (before told acts : List Act) →
        PublishesWrite config request revision before told → IsPrefix told acts → IsLawful config acts →
        accepted_at revision acts ≡ Some (written_by request revision) }
{}
