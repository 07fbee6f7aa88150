//! Laws of what a watch is given, over every list of accepted acts.

ghost use Rattle.std.specs.Prelude.{◌≡◌, ℕ, ◌≤◌, Bool, List};
ghost use Rattle.std.specs.List.Sorted.{IsStrictlyIncreasing};
ghost use Rattle.kv_model.specs.Acceptance.{IsLawful};
ghost use Rattle.kv_model.specs.Acts.{Act, IsPrefix};
ghost use Rattle.kv_model.specs.Configuration.{Configuration};
ghost use Rattle.kv_model.specs.Retained.{retained, latest};
ghost use Rattle.kv_model.specs.Given.{given, item_revisions};
ghost use Rattle.kv_model.specs.declared.options.Options.{Options};
ghost use Rattle.kv_model.specs.declared.options.Start.TheVariants as starts;

/// The revisions of the entries that a watch is given rise strictly: so no entry comes twice, also where several of its
/// filters match it.
pub fn revisions_rise()
    ensures { (config : Configuration) (h : ℕ) (began acts : List Act) (filters : List (List ℕ)) (options : Options) →
        IsLawful config acts → IsPrefix began acts →
        IsStrictlyIncreasing (item_revisions (given h began acts filters options)) }
{}

/// What a watch is given only grows: whatever is accepted later comes behind it.
pub fn given_goes_on()
    ensures { (h : ℕ) (began acts later : List Act) (filters : List (List ℕ)) (options : Options) →
        IsPrefix began acts → IsPrefix acts later →
        IsPrefix (given h began acts filters options) (given h began later filters options) }
{}

/// Where one entry of each key is kept, the retained entries are the latest ones.
pub fn one_kept_is_latest()
    ensures { (acts : List Act) → retained 1 acts ≡ latest acts }
{}

/// A start from revision 0 or 1 gives what a start from history gives.
pub fn from_first_is_history()
    ensures { (config : Configuration) (h revision : ℕ) (began acts : List Act) (filters : List (List ℕ))
        (ignore_deletes headers_only : Bool) →
        IsLawful config began → revision ≤ 1 →
        given h began acts filters (record {
          start = starts.From revision;
          ignore_deletes = ignore_deletes;
          headers_only = headers_only;
        })
        ≡ given h began acts filters (record {
          start = starts.History;
          ignore_deletes = ignore_deletes;
          headers_only = headers_only;
        }) }
{}
