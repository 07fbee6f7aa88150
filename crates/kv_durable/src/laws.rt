//! What a crash leaves of a durable bucket. These laws are over what is read of a file (`Reads`), which is what an opening
//! goes on with (`recover`), and over bytes between two lists of entries (`IsBetween`), which each call leaves, whether it was
//! answered or the file failed, and at each moment before.

ghost use Rattle.std.specs.Prelude.{◌≡◌, ◌⊎◌, ◌<◌, ◌≤◌, ◌^◌, ◌++◌, ◌∷◌, [], ℕ, Bool, List, Ok, false, length, map, true};
ghost use Rattle.std.specs.List.Sorted.{IsStrictlyIncreasing};
ghost use Rattle.kv_file.specs.File.{MayLeave};
ghost use Rattle.kv_file.specs.declared.appender.Sync.TheVariants.{Every};
ghost use Rattle.kv_frames.specs.Frames.{ArePayloads};
ghost use Rattle.kv_keys.specs.Matching.{any_matches};
ghost use Rattle.kv_model.specs.Acceptance.{IsLawful};
ghost use Rattle.kv_model.specs.Acts.{Act, IsPrefix, Wrote, Write, floor_of, writes_of};
ghost use Rattle.kv_model.specs.Batches.{accept_all, after_all, after_batch};
ghost use Rattle.kv_model.specs.Configuration.{Configuration, IsLegal};
ghost use Rattle.kv_model.specs.Given.{given, item_revisions};
ghost use Rattle.kv_journal.specs.Damage.{ShowsDamage};
ghost use Rattle.kv_journal.specs.Entries.{AreLawful, Entry, acts_of, payloads_of};
ghost use Rattle.kv_journal.specs.Header.{BeginsWith, beginning, configuration_payload};
ghost use Rattle.kv_model.specs.Requests.{asked};
ghost use Rattle.kv_model.specs.State.{State, empty};
ghost use Rattle.kv_model.specs.declared.request.Request.{Request};
ghost use Rattle.kv_single.specs.Held.{Represents};
ghost use Rattle.kv_journal.specs.Records.{Content, did_all};
ghost use Rattle.kv_durable.specs.Bases.{Base, IsLawfulBase, acts_before, replaced_by};
ghost use Rattle.kv_durable.specs.Durables.{IsAt, IsRecorded, batch_of, state_of};
ghost use Rattle.kv_durable.specs.Files.{HasForgery, IsBeginning, IsBetween, Reads, file_of};
ghost use Rattle.kv_durable.specs.Journals.{told_next};
ghost use Rattle.kv_durable.specs.Lives.{ComesBack, Follows, GoesOn, IsAllOrNone, Lives, lived};
ghost use Rattle.kv_durable.specs.Openings.{IsNew, IsReopened, IsReopenedOn};
ghost use Rattle.kv_durable.specs.Resuming.{entry_got, from_behind, known_by};
ghost use Rattle.kv_durable.specs.declared.durable.Durable.{Durable};

use kv_file::JournalFile;

/// A file is read as one list of entries.
pub fn one_reading()
    ensures { (base : Base) (bytes : List ℕ) (seed other : ℕ) (xs ys : List Entry) (rest left : List ℕ) →
        IsLegal base.config → Reads base bytes seed xs rest → Reads base bytes other ys left →
        (seed ≡ other) × (xs ≡ ys) × (rest ≡ left) }
{}

/// Whatever a crash leaves is read as all entries that were on the disk, and of those that may have been handed over since a
/// beginning; or a frame with its right checksum stands there that was never written there.
pub fn a_crash_leaves_a_beginning()
    ensures { (seed other : ℕ) (base : Base) (kept maybe entries : List Entry) (disk loose left rest : List ℕ) →
        IsLegal base.config → seed < 2 ^ 64 → AreLawful base.config (acts_before base) (kept ++ maybe) →
        ArePayloads (payloads_of kept) → IsBetween seed base kept maybe disk loose → MayLeave disk loose left →
        Reads base left other entries rest → IsBeginning kept maybe entries ⊎ HasForgery seed base kept maybe left }
{}

/// The acts of such a beginning: all that were on the disk, and a beginning of all.
pub fn a_beginning_is_of_the_acts()
    ensures { (kept maybe entries : List Entry) → IsBeginning kept maybe entries →
        IsPrefix (acts_of kept) (acts_of entries) × IsPrefix (acts_of entries) (acts_of (kept ++ maybe)) }
{}

/// A file only grows: at a moment between two, where nothing has gone since the first and nothing is there that is not at the
/// second, its bytes are between the same entries.
pub fn at_any_moment()
    ensures { (seed : ℕ) (base : Base) (kept maybe : List Entry)
        (disk loose later_disk later_loose last_disk last_loose : List ℕ) →
        IsBetween seed base kept maybe disk loose → IsPrefix disk later_disk →
        IsPrefix (later_disk ++ later_loose) (last_disk ++ last_loose) →
        IsBetween seed base kept maybe last_disk last_loose → IsBetween seed base kept maybe later_disk later_loose }
{}

/// Calls that were answered, one after the other, lead to the state that the model comes to by them, and to the entries of the
/// file behind: nothing that was on the disk has gone, and nothing was taken back.
pub fn a_life_goes_on<F: JournalFile>()
    ensures { (calls : List (State → State)) (first last : Durable F) (state : State) (kept loose : List Entry) →
        Lives F.has F.usable calls first last → (at : IsAt F.has F.usable state kept loose first) →
        (k : List Entry) × (l : List Entry) × (next : IsAt F.has F.usable (lived calls state) k l last)
        × Follows at.base kept loose next.base k l }
{}

/// A life ends by a crash in a call that may have handed over what it tells, or none of it, and an opening of what the crash
/// leaves answers a bucket. That has come back: with all acts that were on the disk, and of the others with a beginning. Or a
/// frame with its right checksum stands there that was never written there.
pub fn a_second_life<F: JournalFile>()
    ensures { (state : State) (kept loose told entries : List Entry) (first second : Durable F) (dropped : ℕ) (disk more left rest : List ℕ) →
        (at : IsAt F.has F.usable state kept loose first) → AreLawful state.config state.acts told →
        IsBetween first.journal.framing.seed at.base kept (loose ++ told) disk more → MayLeave disk more left →
        IsReopened F.has F.usable at.base left entries rest second dropped →
        ComesBack at.base kept (loose ++ told) (acts_before at.base ++ acts_of entries) second
        ⊎ HasForgery first.journal.framing.seed at.base kept (loose ++ told) left }
{}

/// The same of a whole life, from an empty file on. Where nothing is loose, as under `Sync::Each`, all acts are there that were
/// answered.
pub fn a_life_and_the_next<F: JournalFile>()
    ensures { (config : Configuration) (seed : ℕ) (calls : List (State → State)) (new last second : Durable F) (none dropped : ℕ) →
        IsNew F.has F.usable config seed new none → Lives F.has F.usable calls new last →
        (kept : List Entry) × (loose : List Entry) × (at : IsAt F.has F.usable (lived calls (empty config)) kept loose last)
        × ((told entries : List Entry) (disk more left rest : List ℕ) →
        AreLawful (lived calls (empty config)).config (lived calls (empty config)).acts told →
        IsBetween last.journal.framing.seed at.base kept (loose ++ told) disk more → MayLeave disk more left →
        IsReopened F.has F.usable at.base left entries rest second dropped →
        ComesBack at.base kept (loose ++ told) (acts_before at.base ++ acts_of entries) second
        ⊎ HasForgery last.journal.framing.seed at.base kept (loose ++ told) left) }
{}

/// Of a batch all writes come back, or none. It was answered, other calls behind it too, and then came the crash; or the crash
/// came in its call, which may have handed over a beginning of what it tells.
pub fn a_batch_comes_back_whole<F: JournalFile>()
    ensures answered { (requests : List Request) (ws : List Write) (calls : List (State → State)) (old new last second : Durable F)
        (state : State) (kept loose : List Entry) (dropped : ℕ) →
        IsAt F.has F.usable state kept loose old → accept_all state.config (map asked requests) state.acts ≡ Ok ws →
        IsRecorded F.has F.usable (λ s. after_batch s (accept_all s.config (map asked requests) s.acts))
        (λ s. batch_of (accept_all s.config (map asked requests) s.acts)) old new →
        Lives F.has F.usable calls new last →
        (k : List Entry) × (l : List Entry) × (next : IsAt F.has F.usable (lived calls (after_batch state (Ok ws))) k l last)
        × ((told entries : List Entry) (disk more left rest : List ℕ) →
        AreLawful (lived calls (after_batch state (Ok ws))).config (lived calls (after_batch state (Ok ws))).acts told →
        IsBetween last.journal.framing.seed next.base k (l ++ told) disk more → MayLeave disk more left →
        IsReopened F.has F.usable next.base left entries rest second dropped →
        IsAllOrNone state.acts (after_all state.acts ws) (acts_before next.base ++ acts_of entries)
        ⊎ HasForgery last.journal.framing.seed next.base k (l ++ told) left) }
    ensures cut_off { (ws : List Write) (state : State) (kept loose entries : List Entry) (first second : Durable F) (dropped : ℕ)
        (disk more left rest : List ℕ) →
        (at : IsAt F.has F.usable state kept loose first) →
        AreLawful state.config state.acts (told_next first.journal (did_all (map Wrote ws) ∷ [])) →
        IsBetween first.journal.framing.seed at.base kept (loose ++ told_next first.journal (did_all (map Wrote ws) ∷ [])) disk more →
        MayLeave disk more left → IsReopened F.has F.usable at.base left entries rest second dropped →
        IsAllOrNone state.acts (after_all state.acts ws) (acts_before at.base ++ acts_of entries)
        ⊎ HasForgery first.journal.framing.seed at.base kept (loose ++ told_next first.journal (did_all (map Wrote ws) ∷ [])) left }
{}

/// A crash in a checkpoint leaves the old file or the new one. An opening of the new one answers the same bucket, and so does one
/// of the old one where nothing was loose, as under `Sync::Each`; where something was, `a_second_life` says what comes back. Neither
/// is refused as damaged: what an opening tells by that is not so of a file that ends behind its last entry.
pub fn a_crash_in_a_checkpoint<F: JournalFile>()
    ensures new_file { (state : State) (seed : ℕ) (entries : List Entry) (second : Durable F) (dropped : ℕ) (rest : List ℕ) →
        seed < 2 ^ 64 →
        IsReopened F.has F.usable (replaced_by state.config state.acts) (file_of seed (replaced_by state.config state.acts) []) entries rest second dropped →
        Represents (state_of state.config state.acts) second.bucket × (entries ≡ []) × (dropped ≡ 0) }
    ensures old_file { (state : State) (kept entries : List Entry) (first second : Durable F) (dropped : ℕ) (rest : List ℕ) →
        (at : IsAt F.has F.usable state kept [] first) →
        IsReopened F.has F.usable at.base (file_of first.journal.framing.seed at.base kept) entries rest second dropped →
        Represents (state_of state.config state.acts) second.bucket × (entries ≡ kept) × (dropped ≡ 0) }
    ensures not_damaged { (state : State) (kept : List Entry) (first : Durable F) →
        (at : IsAt F.has F.usable state kept [] first) →
        ((base : Base) (other : ℕ) (entries : List Entry) (rest : List ℕ) → base.config ≡ at.base.config →
        Reads base (file_of first.journal.framing.seed at.base kept) other entries rest →
        ShowsDamage other (length (file_of other base entries)) rest) → ⊥ }
{}

/// An opening that makes a file leaves an empty one, or all that a new one begins with (`handed` of `Durable::open`), and so does a
/// crash in it, since a file is replaced as a whole. An empty file is never refused as damaged (`empty`); nor is the other, whose
/// opening answers the new bucket, and drops nothing.
pub fn a_crash_while_a_file_is_made<F: JournalFile>()
    ensures begun { (config : Configuration) (seed : ℕ) (second : Durable F) (dropped : ℕ) (checkpointed : Bool) →
        IsLegal config → seed < 2 ^ 64 →
        IsReopenedOn F.has F.usable config (beginning seed config) second dropped checkpointed →
        Represents (empty config) second.bucket × (dropped ≡ 0) × (checkpointed ≡ false) }
    ensures not_damaged { (config : Configuration) (seed : ℕ) → seed < 2 ^ 64 →
        ((base : Base) (other : ℕ) (entries : List Entry) (rest : List ℕ) → base.config ≡ config →
        Reads base (beginning seed config) other entries rest →
        ShowsDamage other (length (file_of other base entries)) rest) → ⊥ }
    ensures not_of_another { (config : Configuration) (seed other : ℕ) (payload rest : List ℕ) → IsLegal config → seed < 2 ^ 64 →
        BeginsWith (beginning seed config) other payload rest → payload ≡ configuration_payload config }
{}

/// Under `Sync::Every(n)` fewer than n entries are loose, so a crash takes fewer than n answered acts back; a batch is one entry.
pub fn few_are_loose<F: JournalFile>()
    ensures { (state : State) (kept loose : List Entry) (durable : Durable F) (n : ℕ) →
        IsAt F.has F.usable state kept loose durable → durable.journal.appender.sync ≡ Every n → 0 < n →
        length loose < n }
{}

/// Each call that is answered goes on: one that was recorded, as a write, a batch, a seal and a compaction; a sync; a checkpoint,
/// also one that left the old file in use; and one that leaves the acts and the journal as they are, as those of watches, and
/// what was refused.
pub fn each_call_goes_on<F: JournalFile>()
    ensures recorded { (later : State → State) (told : State → List Content) (old new : Durable F) →
        IsRecorded F.has F.usable later told old new → GoesOn F.has F.usable later old new }
    ensures synced { (old new : Durable F) →
        ((state : State) (kept loose : List Entry) (at : IsAt F.has F.usable state kept loose old) →
        (next : IsAt F.has F.usable state (kept ++ loose) [] new) × (next.base ≡ at.base)) →
        GoesOn F.has F.usable (λ state. state) old new }
    ensures replaced { (old new : Durable F) →
        ((state : State) (kept loose : List Entry) → IsAt F.has F.usable state kept loose old →
        (next : IsAt F.has F.usable state [] [] new) × (next.base ≡ replaced_by state.config state.acts)) →
        GoesOn F.has F.usable (λ state. state) old new }
    ensures not_replaced { (old new : Durable F) →
        ((state : State) (kept loose : List Entry) (at : IsAt F.has F.usable state kept loose old) →
        (next : IsAt F.has F.usable state kept loose new) × (next.base ≡ at.base)) →
        GoesOn F.has F.usable (λ state. state) old new }
    ensures others { (later : State → State) (old new : Durable F) → ((state : State) → Represents state old.bucket →
        Represents (later state) new.bucket × ((later state).acts ≡ state.acts) × ((later state).config ≡ state.config)) →
        new.journal ≡ old.journal → GoesOn F.has F.usable later old new }
{}

/// A client goes on from where it was. It was handed all up to a revision, the last of the acts that it has seen, and watches
/// from the next one on: in the same life, or in a later one whose acts begin with these. Nothing comes twice. And where the
/// floor is not above that revision when the watch is opened, the client knows of each key what a get answers, by what it knew
/// and what it is handed.
pub fn a_client_goes_on()
    ensures nothing_twice { (config : Configuration) (h : ℕ) (seen began acts : List Act) (filters : List (List ℕ)) (headers_only : Bool) →
        IsLawful config acts → IsPrefix seen began → IsPrefix began acts →
        IsStrictlyIncreasing (length (writes_of seen)
        ∷ item_revisions (given h began acts filters (from_behind (length (writes_of seen)) headers_only))) }
    ensures knows { (config : Configuration) (seen began acts : List Act) (filters : List (List ℕ)) (headers_only : Bool) (key : List ℕ) →
        IsLegal config → IsLawful config acts → IsPrefix seen began → IsPrefix began acts →
        floor_of began ≤ length (writes_of seen) → any_matches filters key ≡ true →
        known_by key (entry_got headers_only key seen)
        (given config.history began acts filters (from_behind (length (writes_of seen)) headers_only))
        ≡ entry_got headers_only key acts }
{}
