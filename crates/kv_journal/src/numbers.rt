//! The numbers of a checkpoint.

ghost use Rattle.std.specs.Prelude.{if◌then◌else◌, ◌≡◌, ◌≢◌, ◌∷◌, ℕ, Bool, List, length, MatchOption};
ghost use Rattle.kv_journal.specs.Checkpoints.{numbers_bytes, numbers_record, settled_payload};

use crate::header::long_number_of;

/// The numbers of a checkpoint.
#[derive(Clone, Copy)]
pub(crate) struct Numbers {
    pub last: u64,
    pub values: u64,
    pub floor: u64,
    pub sealed: bool,
}

// What stands behind the kind of a record before which nothing is loose.
pub(crate) fn behind_kind(payload: &[u8], kind: u8) -> Option<&[u8]>
    ensures { MatchOption result ((rest : List ℕ) → payload.now ≢ settled_payload (kind ∷ rest))
        (λ rest. payload.now ≡ settled_payload (kind ∷ rest.now)) }
{
    let [a, b, c, d, first, rest @ ..] = payload else {
        return None;
    };
    if *a != 0 || *b != 0 || *c != 0 || *d != 0 || *first != kind {
        return None;
    }
    Some(rest)
}

fn flag_of(byte: u8) -> Option<bool>
    ensures { MatchOption result ((flag : Bool) → byte ≢ (if flag then 1 else 0)) (λ flag. byte ≡ (if flag then 1 else 0)) }
{
    match byte {
        0 => Some(false),
        1 => Some(true),
        _ => None,
    }
}

// The numbers in so many bytes.
fn numbers_of(bytes: &[u8]) -> Option<Numbers>
    requires { length bytes.now ≡ 25 }
    ensures { MatchOption result
        ((last values floor : ℕ) (sealed : Bool) → bytes.now ≢ numbers_bytes last values floor sealed)
        (λ n. bytes.now ≡ numbers_bytes n.last n.values n.floor n.sealed) }
{
    let Some((last, rest)) = long_number_of(bytes) else {
        return None;
    };
    let Some((values, rest)) = long_number_of(rest) else {
        return None;
    };
    let Some((floor, rest)) = long_number_of(rest) else {
        return None;
    };
    let [byte] = rest else {
        return None;
    };
    let Some(sealed) = flag_of(*byte) else {
        return None;
    };
    Some(Numbers {
        last,
        values,
        floor,
        sealed,
    })
}

// The numbers that a payload tells.
pub(crate) fn numbers_in(payload: &[u8]) -> Option<Numbers>
    ensures { MatchOption result
        ((last values floor : ℕ) (sealed : Bool) → payload.now ≢ settled_payload (numbers_record last values floor sealed))
        (λ n. payload.now ≡ settled_payload (numbers_record n.last n.values n.floor n.sealed)) }
{
    let Some(rest) = behind_kind(payload, 8) else {
        return None;
    };
    if rest.len() != 25 {
        return None;
    }
    numbers_of(rest)
}
