//! What a crash takes back of a durable bucket that threads share: under `Sync::Each`, nothing that anybody saw.

ghost use Rattle.std.specs.Prelude.{◌≡◌, ◌⊎◌, ◌<◌, ◌^◌, ◌++◌, [], ℕ, List, map};
ghost use Rattle.kv_bucket.specs.Batches.{IsKeptBatch};
ghost use Rattle.kv_bucket.specs.Keeping.{IsKeptStep};
ghost use Rattle.kv_durable.specs.Bases.{acts_before};
ghost use Rattle.kv_durable.specs.Durables.{IsRecorded, IsReplaced, batch_of, checkpoint_at, state_of};
ghost use Rattle.kv_durable.specs.Files.{HasForgery, IsBetween, file_of};
ghost use Rattle.kv_durable.specs.Openings.{IsReopened};
ghost use Rattle.kv_durable.specs.declared.durable.Durable.{Durable};
ghost use Rattle.kv_durable_live.specs.Lives.{GoesOn, Lives, Shared};
ghost use Rattle.kv_durable_live.specs.Sharing.{IsAt, durable_of};
ghost use Rattle.kv_file.specs.File.{MayLeave};
ghost use Rattle.kv_file.specs.declared.appender.Sync.TheVariants.{Each};
ghost use Rattle.kv_journal.specs.Entries.{AreLawful, Entry, acts_of};
ghost use Rattle.kv_journal.specs.Records.{Content};
ghost use Rattle.kv_model.specs.Acts.{Act, IsPrefix};
ghost use Rattle.kv_model.specs.Answers.{Answer, Compacted};
ghost use Rattle.kv_model.specs.Batches.{accept_all, after_batch};
ghost use Rattle.kv_model.specs.Requests.{asked};
ghost use Rattle.kv_model.specs.State.{State, after};
ghost use Rattle.kv_model.specs.declared.call.Call.{Call};
ghost use Rattle.kv_model.specs.declared.call.Call.TheVariants.{Compact};
ghost use Rattle.kv_model.specs.declared.request.Request.{Request};
ghost use Rattle.kv_single.specs.Held.{Represents};

use kv_durable::JournalFile;

/// What is published is what the file has: all acts of its base and of its entries, on the disk and loose, and no other.
pub fn published_is_in_the_file<F: JournalFile>()
    ensures { (state : State) (entries loose : List Entry) (shared : Shared F) →
        (at : IsAt F.has F.usable state entries loose shared.kept shared.journal) →
        shared.kept.published ≡ acts_before at.durable.base ++ acts_of (entries ++ loose) }
{}

/// Each call that is answered goes on: one that was recorded, as a write, a seal and a compaction; a batch; a sync; a
/// checkpoint, also one that left the old file in use; and a compaction with a checkpoint behind it.
pub fn each_call_goes_on<F: JournalFile>()
    ensures recorded { (call : Call) (answer : Answer) (told : State → List Content) (old new : Shared F) →
        IsKeptStep old.kept call answer new.kept →
        IsRecorded F.has F.usable (λ state. after state call) told (durable_of old.kept old.journal) (durable_of new.kept new.journal) →
        new.journal.appender.sync ≡ old.journal.appender.sync → GoesOn F.has F.usable old new }
    ensures batched { (requests : List Request) (first : ℕ) (old new : Shared F) →
        IsKeptBatch old.kept requests first new.kept →
        IsRecorded F.has F.usable (λ state. after_batch state (accept_all state.config (map asked requests) state.acts))
        (λ state. batch_of (accept_all state.config (map asked requests) state.acts))
        (durable_of old.kept old.journal) (durable_of new.kept new.journal) →
        new.journal.appender.sync ≡ old.journal.appender.sync → GoesOn F.has F.usable old new }
    ensures synced { (old new : Shared F) → ((state : State) (entries loose : List Entry)
        (at : IsAt F.has F.usable state entries loose old.kept old.journal) →
        (next : IsAt F.has F.usable state (entries ++ loose) [] new.kept new.journal) × (next.durable.base ≡ at.durable.base)) →
        new.kept ≡ old.kept → new.journal.appender.sync ≡ old.journal.appender.sync → GoesOn F.has F.usable old new }
    ensures replaced { (old new : Shared F) →
        IsReplaced F.has F.usable (λ state. state) (durable_of old.kept old.journal) (durable_of new.kept new.journal) →
        new.kept ≡ old.kept → new.journal.appender.sync ≡ old.journal.appender.sync → GoesOn F.has F.usable old new }
    ensures compacted { (floor : ℕ) (old new : Shared F) → IsKeptStep old.kept (Compact floor) (Compacted floor) new.kept →
        IsReplaced F.has F.usable (λ state. after state (Compact floor)) (durable_of old.kept old.journal) (durable_of new.kept new.journal) →
        new.journal.appender.sync ≡ old.journal.appender.sync → GoesOn F.has F.usable old new }
    ensures not_replaced { (old new : Shared F) → ((state : State) (entries loose : List Entry)
        (at : IsAt F.has F.usable state entries loose old.kept old.journal) →
        (next : IsAt F.has F.usable state entries loose new.kept new.journal) × (next.durable.base ≡ at.durable.base)) →
        new.kept ≡ old.kept → new.journal.appender.sync ≡ old.journal.appender.sync → GoesOn F.has F.usable old new }
{}

/// What anybody saw of a life, or was told of it, is a beginning of what is published (`is_seen_by`, `is_followed_by`,
/// `is_told_by`). Calls that were answered lead on from there, each act synced, then comes a crash in a call that may have handed
/// over what it tells, and an opening of what the crash leaves. All that was seen has come back: the bucket is at a state whose
/// acts begin with it, those in whose place a checkpoint stands among them. Or a frame with its right checksum stands there that
/// was never written there.
pub fn what_was_seen_comes_back<F: JournalFile>()
    ensures { (calls : List (Shared F)) (first last : Shared F) (state : State) (entries : List Entry) (seen : List Act) →
        first.journal.appender.sync ≡ Each → IsAt F.has F.usable state entries [] first.kept first.journal →
        IsPrefix seen first.kept.published → Lives F.has F.usable calls first last →
        (later : State) × (kept : List Entry) × (at : IsAt F.has F.usable later kept [] last.kept last.journal)
        × ((told found : List Entry) (second : Durable F) (dropped : ℕ) (disk more left rest : List ℕ) →
        AreLawful later.config later.acts told →
        IsBetween last.journal.framing.seed at.durable.base kept told disk more → MayLeave disk more left →
        IsReopened F.has F.usable at.durable.base left found rest second dropped →
        IsPrefix seen (acts_before at.durable.base ++ acts_of found)
        ⊎ HasForgery last.journal.framing.seed at.durable.base kept told left) }
{}

/// A crash in a checkpoint leaves the old file or the new one. An opening of the new one answers a bucket at the state of all acts
/// that are published, and so does one of the old one where nothing was loose, as under `Sync::Each`.
pub fn a_crash_in_a_checkpoint<F: JournalFile>()
    ensures new_file { (shared : Shared F) (state : State) (entries loose found : List Entry) (seed : ℕ)
        (second : Durable F) (dropped : ℕ) (rest : List ℕ) →
        IsAt F.has F.usable state entries loose shared.kept shared.journal → seed < 2 ^ 64 →
        IsReopened F.has F.usable (checkpoint_at state) (file_of seed (checkpoint_at state) []) found rest second dropped →
        Represents (state_of state.config shared.kept.published) second.bucket }
    ensures old_file { (shared : Shared F) (state : State) (entries found : List Entry)
        (second : Durable F) (dropped : ℕ) (rest : List ℕ) →
        (at : IsAt F.has F.usable state entries [] shared.kept shared.journal) →
        IsReopened F.has F.usable at.durable.base (file_of shared.journal.framing.seed at.durable.base entries) found rest second dropped →
        Represents (state_of state.config shared.kept.published) second.bucket }
{}
