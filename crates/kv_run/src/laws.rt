//! Laws of the arguments.

ghost use Rattle.std.specs.Prelude.{◌≡◌, ◌++◌, ℕ, List, [], ◌∷◌, Some, codes};
ghost use Rattle.kv_run.specs.Arguments.{alone, defaults, faults_of, number_of, number_or, wanted_of};

use kv_script::Form;

/// With no options the configuration is the one that is named `kv`, there is no race, values stand in base64, and the
/// words are fine.
pub fn no_option_leaves_the_defaults()
    ensures wanted { (program : List ℕ) → wanted_of (program ∷ []) ≡ alone defaults }
    ensures fine { (program : List ℕ) → faults_of (program ∷ []) ≡ [] }
{}

/// Each option sets its part, and nothing else.
pub fn each_option_sets_its_part()
    ensures bucket { (program value : List ℕ) →
        wanted_of (program ∷ (codes "--bucket=" ++ value) ∷ []) ≡ alone (record defaults { bucket = value }) }
    ensures history { (program value : List ℕ) →
        wanted_of (program ∷ (codes "--history=" ++ value) ∷ [])
        ≡ alone (record defaults { history = number_or 1 value }) }
    ensures value_limit { (program value : List ℕ) →
        wanted_of (program ∷ (codes "--value-limit=" ++ value) ∷ [])
        ≡ alone (record defaults { value_limit = number_or 1048576 value }) }
    ensures write_limit { (program value : List ℕ) →
        wanted_of (program ∷ (codes "--write-limit=" ++ value) ∷ [])
        ≡ alone (record defaults { write_limit = number_or 1000000 value }) }
    ensures revision_limit { (program value : List ℕ) →
        wanted_of (program ∷ (codes "--revision-limit=" ++ value) ∷ [])
        ≡ alone (record defaults { revision_limit = number_or 4294967295 value }) }
    ensures race { (program value : List ℕ) →
        wanted_of (program ∷ (codes "--race=" ++ value) ∷ [])
        ≡ record (alone defaults) { race = number_of value } }
    ensures text { (program : List ℕ) →
        wanted_of (program ∷ codes "--text" ∷ [])
        ≡ record (alone defaults) { form = Form.Text } }
    ensures journal { (program value : List ℕ) →
        wanted_of (program ∷ (codes "--journal=" ++ value) ∷ [])
        ≡ record (alone defaults) { journal = Some value } }
    ensures sync { (program value : List ℕ) →
        wanted_of (program ∷ (codes "--sync=" ++ value) ∷ [])
        ≡ record (alone defaults) { sync = Some value } }
    ensures dump { (program value : List ℕ) →
        wanted_of (program ∷ (codes "--dump=" ++ value) ∷ [])
        ≡ record (alone defaults) { dump = Some value } }
{}
