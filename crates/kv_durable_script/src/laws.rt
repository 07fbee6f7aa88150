//! What a dump leads to.

ghost use Rattle.std.specs.Prelude.{◌≡◌, [], List, ℕ};
ghost use Rattle.std.specs.List.{AllByRecursion};
ghost use Rattle.kv_journal.specs.Entries.{AreLawful, Entry, acts_of};
ghost use Rattle.kv_model.specs.Acceptance.{IsLawful};
ghost use Rattle.kv_model.specs.Acts.{Act, is_sealed};
ghost use Rattle.kv_model.specs.Configuration.{Configuration, IsLegal};
ghost use Rattle.kv_model.specs.Retained.{kept, retained};
ghost use Rattle.kv_replay.specs.Sessions.{fresh, state_behind};
ghost use Rattle.kv_script.specs.declared.form.Form.TheVariants.{Base64};
ghost use Rattle.kv_durable_script.specs.Dumps.{IsOfBytes, dump_text};
ghost use Rattle.kv_durable_script.specs.Stored.{AreSameButRevisions, stored_anew, stored_text};

/// The script of a file leads a new bucket of the same configuration to the acts of the file's entries, one for one: each
/// write with its revision, each compaction, and the seal.
pub fn a_dump_leads_to_the_same_acts()
    ensures { (config : Configuration) (entries : List Entry) → IsLegal config → AreLawful config [] entries →
        AllByRecursion IsOfBytes (acts_of entries) →
        (state_behind Base64 (fresh config) (dump_text entries)).acts ≡ acts_of entries }
{}

/// The script of a file that begins with a checkpoint leads a new bucket of the same configuration to what the file's bucket
/// stores: the stored writes in the order of their revisions, which are 1, 2, 3 .. here, and the seal if writes have ended. The
/// entries that are kept of each key are the same but for their revisions, and so are all retained ones, in one order.
pub fn a_dump_of_a_checkpoint_leads_to_what_is_kept()
    ensures acts { (config : Configuration) (acts : List Act) → IsLegal config → IsLawful config acts → AllByRecursion IsOfBytes acts →
        (state_behind Base64 (fresh config) (stored_text config.history acts)).acts ≡ stored_anew config.history acts }
    ensures kept { (config : Configuration) (acts : List Act) → IsLegal config → IsLawful config acts → (key : List ℕ) →
        AreSameButRevisions (kept config.history key (stored_anew config.history acts)) (kept config.history key acts) }
    ensures retained { (config : Configuration) (acts : List Act) → IsLegal config → IsLawful config acts →
        AreSameButRevisions (retained config.history (stored_anew config.history acts)) (retained config.history acts) }
    ensures sealed { (config : Configuration) (acts : List Act) →
        is_sealed (stored_anew config.history acts) ≡ is_sealed acts }
{}
