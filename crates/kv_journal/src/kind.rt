//! What stands in front of a file's entries.

ghost use Rattle.std.specs.Prelude.{◌≡◌, ◌++◌, ◌==◌, ◌||◌, ℕ, List, true, false, get_or};
ghost use Rattle.kv_frames.specs.Frames.{ArePayloads, Splits, frames};
ghost use Rattle.kv_journal.specs.Checkpoints.{Checkpoint, checkpoint_payloads};
ghost use Rattle.kv_journal.specs.Entries.{Entry, payloads_of};

use kv_frames::Framing;

// Whether the record of a payload is of a kind that stands in checkpoints.
fn tells_checkpoint(payload: &[u8]) -> bool
    ensures { result ≡ (get_or payload.now 4 0 == 7 || get_or payload.now 4 0 == 8) }
{
    let [_, _, _, _, kind, ..] = payload else {
        return false;
    };
    *kind == 7 || *kind == 8
}

/// Whether the bytes, which lie at this offset of a file, begin with a checkpoint, or else with entries or with nothing whole.
pub fn begins_checkpoint(framing: &Framing, at: u64, bytes: &[u8]) -> bool
    ensures yes { result ≡ true → (entries : List Entry) (rest : List ℕ) →
        Splits framing.now.seed at bytes.now (payloads_of entries) rest → ⊥ }
    ensures no { result ≡ false → (c : Checkpoint) (rest : List ℕ) → ArePayloads (checkpoint_payloads c) →
        bytes.now ≡ frames framing.now.seed at (checkpoint_payloads c) ++ rest → ⊥ }
{
    match framing.frame_at(at, bytes) {
        Some((payload, _)) => tells_checkpoint(payload),
        None => false,
    }
}
