//! Damage in the middle of a file.

ghost use Rattle.std.specs.Prelude.{◌≡◌, ◌+◌, ◌<◌, ◌≤◌, ◌^◌, ℕ, List, true, false, length, take, drop};
ghost use Rattle.kv_journal.specs.Damage.{IsOnDiskBy, IsOnDiskNear, IsOnDiskNext, ShowsDamage, longest_frame, loose_in};

use crate::loose::{loose_of, number_of};
use kv_frames::Framing;

const LONGEST_FRAME: usize = 1_048_845;

const SEARCH_LENGTH: usize = 2_097_152;

// Whether an entry says that less than so many bytes before it were loose.
fn says_less(payload: &[u8], n: usize) -> bool
    ensures yes { result ≡ true → (4 ≤ length payload.now) × (loose_in payload.now < n) }
    ensures no { result ≡ false → 4 ≤ length payload.now → loose_in payload.now < n → ⊥ }
{
    match loose_of(payload) {
        Some((loose, _)) => (loose as usize) < n,
        None => false,
    }
}

// The bytes from so far on, no more than the longest frame has.
fn window(bytes: &[u8], n: usize) -> &[u8]
    requires { n ≤ length bytes.now }
    ensures { result.now ≡ take longest_frame (drop n bytes.now) }
{
    let rest = &bytes[n..];
    if rest.len() < LONGEST_FRAME {
        return rest;
    }
    &rest[..LONGEST_FRAME]
}

// Whether the frame of an entry so far on, at the front of what is seen there, says that the beginning was on the disk.
fn is_on_disk_by(framing: &Framing, at: u64, bytes: &[u8], seen: &[u8], n: usize) -> bool
    requires room { at + length bytes.now < 2 ^ 64 }
    requires behind { 0 < n }
    requires within { n < length bytes.now }
    requires short { n + length seen.now ≤ length bytes.now }
    ensures yes { result ≡ true → (payload : List ℕ) × (rest : List ℕ)
        × IsOnDiskBy framing.now.seed at bytes.now seen.now n payload rest }
    ensures no { result ≡ false → (payload rest : List ℕ) →
        IsOnDiskBy framing.now.seed at bytes.now seen.now n payload rest → ⊥ }
{
    match framing.frame_at(at + n as u64, seen) {
        Some((payload, _)) => says_less(payload, n),
        None => false,
    }
}

// Whether a frame says so that is near, and no longer than that of one act.
fn is_shown_near(framing: &Framing, at: u64, bytes: &[u8]) -> bool
    requires { at + length bytes.now < 2 ^ 64 }
    ensures yes { result ≡ true → (n : ℕ) × (payload : List ℕ) × (rest : List ℕ)
        × IsOnDiskNear framing.now.seed at bytes.now n payload rest }
    ensures no { result ≡ false → (n : ℕ) (payload rest : List ℕ) →
        IsOnDiskNear framing.now.seed at bytes.now n payload rest → ⊥ }
{
    let end = bytes.len().min(SEARCH_LENGTH);
    for n in 1..end {
        if is_on_disk_by(framing, at, bytes, window(bytes, n), n) {
            return true;
        }
    }
    false
}

// Whether a frame says so that stands where the one before it ends, by its length.
fn is_shown_next(framing: &Framing, at: u64, bytes: &[u8]) -> bool
    requires { at + length bytes.now < 2 ^ 64 }
    ensures yes { result ≡ true → (payload : List ℕ) × (rest : List ℕ)
        × IsOnDiskNext framing.now.seed at bytes.now payload rest }
    ensures no { result ≡ false → (payload rest : List ℕ) →
        IsOnDiskNext framing.now.seed at bytes.now payload rest → ⊥ }
{
    let Some((len, _)) = number_of(bytes) else {
        return false;
    };
    let n = 8 + len as usize;
    if n >= bytes.len() {
        return false;
    }
    is_on_disk_by(framing, at, bytes, &bytes[n..], n)
}

/// Whether the bytes, at whose beginning no whole frame stands, were damaged after they had come onto the disk: whether a
/// whole frame stands further on that says so of the offset where they begin. It looks at the offset where the frame before it
/// ends by its length, and else at most two mebibytes ahead.
pub fn shows_damage(framing: &Framing, at: u64, bytes: &[u8]) -> bool
    requires { at + length bytes.now < 2 ^ 64 }
    ensures yes { result ≡ true → ShowsDamage framing.now.seed at bytes.now }
    ensures no { result ≡ false → ShowsDamage framing.now.seed at bytes.now → ⊥ }
{
    if is_shown_next(framing, at, bytes) {
        return true;
    }
    is_shown_near(framing, at, bytes)
}
