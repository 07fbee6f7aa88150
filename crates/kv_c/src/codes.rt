//! The numbers that calls answer: 0, those of the rules, and C's own.

ghost use Rattle.std.specs.Prelude.{◌≡◌, MatchResult};
ghost use Rattle.std.specs.Option.{option_copied};
ghost use Rattle.kv_c.specs.Codes.{own_name};
ghost use Rattle.kv_durable.specs.Refusals.{durable_code};
ghost use Rattle.kv_durable.specs.declared.error.DurableError.TheVariants.{FileDamaged};
ghost use Rattle.kv_keys.specs.Refusals.{code_of};
ghost use Rattle.kv_keys.specs.declared.error.KvError.TheVariants.{Lagged, WatchBehind, WrongLastRevision};

use kv_durable::DurableError;
use kv_single::KvError;

/// Nothing more is added to the file of the bucket.
pub(crate) const FILE_FAULT: u64 = 22;

/// The view is of another bucket than the feed.
pub(crate) const OTHER_BUCKET: u64 = 25;

/// The handle is not open, or on something else.
pub(crate) const CLOSED: u64 = 32;

/// There is too little room for what is copied.
pub(crate) const TOO_LITTLE_ROOM: u64 = 33;

/// The handle is open already.
pub(crate) const OPEN_ALREADY: u64 = 34;

/// There is no such start of a watch.
pub(crate) const NO_SUCH_START: u64 = 35;

/// The view is older than the one that the feed has gone on to.
pub(crate) const OLDER_VIEW: u64 = 36;

/// No refusal has this code.
pub(crate) const NO_SUCH_CODE: u64 = 37;

/// The call is made, and waits for the shell, which alone is told this.
pub(crate) const MADE: u64 = 38;

/// The name of one of C's own codes.
pub(crate) fn own_name(code: u64) -> Option<&'static str>
    ensures { option_copied result ≡ own_name code }
{
    match code {
        22 => Some("FileFault"),
        23 => Some("FileDamaged"),
        24 => Some("FileBusy"),
        25 => Some("OtherBucket"),
        32 => Some("Closed"),
        33 => Some("TooLittleRoom"),
        34 => Some("OpenAlready"),
        35 => Some("NoSuchStart"),
        36 => Some("OlderView"),
        37 => Some("NoSuchCode"),
        _ => None,
    }
}

/// The code of the refusal of a write. The key's last revision, if it tells that, is handed out.
pub(crate) fn refuse_write(refusal: KvError, last: &mut u64) -> u64
    ensures code { result ≡ code_of refusal }
    ensures last { result ≡ 11 → refusal ≡ WrongLastRevision last.new }
    ensures untold { ¬ (result ≡ 11) → last.new ≡ last.old }
{
    if let KvError::WrongLastRevision { last: told } = refusal {
        *last = told;
    }
    refusal.code()
}

/// The code of the refusal of a compaction. The watch that is behind, if it tells one, is handed out.
pub(crate) fn refuse_compaction(refusal: KvError, watch: &mut u64) -> u64
    ensures code { result ≡ code_of refusal }
    ensures watch { result ≡ 20 → refusal ≡ WatchBehind watch.new }
    ensures untold { ¬ (result ≡ 20) → watch.new ≡ watch.old }
{
    if let KvError::WatchBehind { watch: told } = refusal {
        *watch = told;
    }
    refusal.code()
}

/// The code of a feed's refusal to go on. The floor that it lags behind, if it tells one, is handed out.
pub(crate) fn refuse_refresh(refusal: KvError, floor: &mut u64) -> u64
    ensures code { result ≡ code_of refusal }
    ensures floor { result ≡ 21 → refusal ≡ Lagged floor.new }
    ensures untold { ¬ (result ≡ 21) → floor.new ≡ floor.old }
{
    if let KvError::Lagged { floor: told } = refusal {
        *floor = told;
    }
    refusal.code()
}

/// The code of the refusal of an opening. The offset up to which a damaged file is good is handed out.
pub(crate) fn refuse_opening(refusal: DurableError, at: &mut u64) -> u64
    ensures code { result ≡ durable_code refusal }
    ensures offset { result ≡ 23 → refusal ≡ FileDamaged at.new }
    ensures untold { ¬ (result ≡ 23) → at.new ≡ at.old }
{
    if let DurableError::FileDamaged { at: told } = refusal {
        *at = told;
    }
    refusal.code()
}

/// Hands out the number that a call gave. Where it was refused, the number stays.
pub(crate) fn hand_out(done: Result<u64, KvError>, number: &mut u64) -> u64
    ensures { MatchResult done
        (λ n. (result ≡ 0) × (number.new ≡ n))
        (λ e. (result ≡ code_of e) × (number.new ≡ number.old)) }
{
    match done {
        Ok(given) => {
            *number = given;
            0
        }
        Err(refusal) => refusal.code(),
    }
}
