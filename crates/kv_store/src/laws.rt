//! A law of the places of revisions.

ghost use Rattle.std.specs.Prelude.{◌≡◌, ℕ};
ghost use Rattle.kv_store.specs.Places.{place_of_revision};

/// No two revisions share a place.
pub fn revisions_have_places_of_their_own()
    ensures { (m n : ℕ) → place_of_revision m ≡ place_of_revision n → m ≡ n }
{}
