//! The names of codes.

ghost use Rattle.std.specs.Prelude.{◌≡◌, ℕ, List, MatchOption, None, Some};
ghost use Rattle.kv_c.specs.Codes.{IsNamed, own_name};
ghost use Rattle.kv_keys.specs.Refusals.{code_of, name_of};
ghost use Rattle.kv_keys.specs.declared.error.KvError.{KvError as AnError};

use crate::codes::{NO_SUCH_CODE, own_name};
use crate::item::copy_sized;
use kv_single::KvError;

// The refusal of the rules that has a code. What it tells is of no matter here.
#[tactic(auto, using(crate::proofs::Named::no_refusal))]
fn refusal_of(code: u64) -> Option<KvError>
    ensures { MatchOption result ((e : AnError) → ¬ (code_of e ≡ code)) (λ e. code_of e ≡ code) }
{
    match code {
        1 => Some(KvError::OutOfMemory),
        2 => Some(KvError::BadBucket),
        3 => Some(KvError::BadConfig),
        4 => Some(KvError::BadKey),
        5 => Some(KvError::BadFilter),
        6 => Some(KvError::OptionsClash),
        7 => Some(KvError::ValueTooLarge),
        8 => Some(KvError::Sealed),
        9 => Some(KvError::JournalFull),
        10 => Some(KvError::KeyExists),
        11 => Some(KvError::WrongLastRevision { last: 0 }),
        12 => Some(KvError::KeyNotFound),
        13 => Some(KvError::NoSuchWatch),
        14 => Some(KvError::TooManyWatches),
        15 => Some(KvError::NoReader),
        16 => Some(KvError::BadCommand),
        17 => Some(KvError::ReadFault),
        18 => Some(KvError::WriteFault),
        19 => Some(KvError::BadFloor),
        20 => Some(KvError::WatchBehind { watch: 0 }),
        21 => Some(KvError::Lagged { floor: 0 }),
        _ => None,
    }
}

fn copy_own(code: u64, room: &mut [u8], size: &mut usize) -> u64
    ensures own { (name : List ℕ) → own_name code ≡ Some name → IsNamed name room.old result size.new room.new }
    ensures none { own_name code ≡ None → result ≡ 37 }
    ensures room { ¬ (result ≡ 0) → room.new ≡ room.old }
    ensures untold { ¬ (result ≡ 0) → ¬ (result ≡ 33) → size.new ≡ size.old }
{
    match own_name(code) {
        Some(name) => copy_sized(room, name.as_bytes(), size),
        None => NO_SUCH_CODE,
    }
}

/// Copies the name of a code: of a refusal of the rules, or of one of C's own.
#[unsafe(no_mangle)]
#[tactic(auto, using(crate::proofs::Named::same_name, crate::proofs::Named::not_own))]
pub extern "C" fn kv_code_name(code: u64, room: &mut [u8], size: &mut usize) -> u64
    ensures rules { (e : AnError) → code_of e ≡ code → IsNamed (name_of e) room.old result size.new room.new }
    ensures own { (name : List ℕ) → own_name code ≡ Some name → IsNamed name room.old result size.new room.new }
    ensures none { ((e : AnError) → ¬ (code_of e ≡ code)) → own_name code ≡ None → result ≡ 37 }
    ensures room { ¬ (result ≡ 0) → room.new ≡ room.old }
    ensures untold { ¬ (result ≡ 0) → ¬ (result ≡ 33) → size.new ≡ size.old }
{
    match refusal_of(code) {
        Some(refusal) => copy_sized(room, refusal.name().as_bytes(), size),
        None => copy_own(code, room, size),
    }
}
