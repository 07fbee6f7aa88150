//! What each journal file begins with.

ghost use Rattle.std.specs.Prelude.{◌≡◌, ◌≢◌, ◌<◌, ◌^◌, ◌++◌, ℕ, List, true, false, length, IfOk, IsErrOf, MatchOption, OnOk};
ghost use Rattle.std.specs.Int.{w64, to_be_bytes};
ghost use Rattle.kv_frames.specs.Frames.{IsPayload};
ghost use Rattle.kv_journal.specs.Header.{BeginsWith, beginning, configuration_payload, header, magic};
ghost use Rattle.kv_journal.specs.declared.header.BeginningError.TheVariants.{NoJournal, OtherBucket};
ghost use Rattle.kv_model.specs.Configuration.{IsLegal};

use kv_frames::Framing;
use kv_model::Config;
use std::alloc::{AllocError, Global};

/// Why a file does not go on.
#[derive(Clone, Copy, Debug, PartialEq, Eq)]
pub enum BeginningError {
    /// A request for memory was refused.
    OutOfMemory,
    /// No header and whole first frame stand there.
    NoJournal,
    /// The first frame is not that of this configuration.
    OtherBucket,
}

/// How the frames of a file are read, and where its entries begin.
#[derive(Drop)]
pub struct Begun {
    pub framing: Framing,
    pub offset: u64,
}

const MAGIC: &[u8] = b"vilgoued\x01";

// The payload of the first frame.
fn configuration_payload(alloc: Global, config: &Config) -> Result<Vec<u8>, AllocError>
    ensures { IfOk result (λ v. v.items ≡ configuration_payload config.now) }
{
    let mut bytes = Vec::new(alloc);
    bytes.extend_from_slice(&[0, 0, 0, 0, 6])?;
    bytes.extend_from_slice(&config.history.to_be_bytes())?;
    bytes.extend_from_slice(&config.value_limit.to_be_bytes())?;
    bytes.extend_from_slice(&config.write_limit.to_be_bytes())?;
    bytes.extend_from_slice(&config.revision_limit.to_be_bytes())?;
    bytes.extend_from_slice(config.bucket.as_bytes())?;
    Ok(bytes)
}

/// Adds what a file of this configuration begins with.
pub fn push_beginning(
    alloc: Global,
    out: &mut Vec<u8>,
    framing: &Framing,
    config: &Config,
) -> Result<(), AllocError>
    requires { IsLegal config.now }
    ensures { OnOk result (out.new.items ≡ out.old.items ++ beginning framing.now.seed config.now) }
{
    let payload = configuration_payload(alloc, config)?;
    out.extend_from_slice(MAGIC)?;
    out.extend_from_slice(&framing.seed.to_be_bytes())?;
    framing.push_frame(out, 17, &payload)
}

// What stands behind the magic bytes.
fn behind_magic(bytes: &[u8]) -> Option<&[u8]>
    ensures { MatchOption result ((rest : List ℕ) → bytes.now ≢ magic ++ rest)
        (λ rest. bytes.now ≡ magic ++ rest.now) }
{
    if bytes.len() < 9 {
        return None;
    }
    let (front, rest) = bytes.split_at(9);
    if front != MAGIC {
        return None;
    }
    Some(rest)
}

// The number in the first eight bytes, and what stands behind it.
pub(crate) fn long_number_of(bytes: &[u8]) -> Option<(u64, &[u8])>
    ensures { MatchOption result (length bytes.now < 8)
        (λ n. (n.0 < 2 ^ 64) × (bytes.now ≡ to_be_bytes w64 n.0 ++ n.1.now)) }
{
    let [a, b, c, d, e, f, g, h, rest @ ..] = bytes else {
        return None;
    };
    let number = u64::from_be_bytes([*a, *b, *c, *d, *e, *f, *g, *h]);
    Some((number, rest))
}

// The seed of a header, and what stands behind it.
fn seed_of(bytes: &[u8]) -> Option<(u64, &[u8])>
    ensures { MatchOption result ((seed : ℕ) (rest : List ℕ) → bytes.now ≢ header seed ++ rest)
        (λ s. (s.0 < 2 ^ 64) × (bytes.now ≡ header s.0 ++ s.1.now)) }
{
    let rest = behind_magic(bytes)?;
    long_number_of(rest)
}

fn is_same(payload: &[u8], wanted: &[u8]) -> bool
    ensures yes { result ≡ true → payload.now ≡ wanted.now }
    ensures no { result ≡ false → payload.now ≢ wanted.now }
{
    payload == wanted
}

/// Reads what a file begins with: a header, and the whole frame of this configuration.
pub fn begin(alloc: Global, bytes: &[u8], config: &Config) -> Result<Begun, BeginningError>
    requires { length bytes.now < 2 ^ 63 }
    ensures ok { IfOk result (λ b. (rest : List ℕ)
        × BeginsWith bytes.now b.framing.seed (configuration_payload config.now) rest
        × (b.offset ≡ length (beginning b.framing.seed config.now))) }
    ensures other { IsErrOf result OtherBucket → (seed : ℕ) × (payload : List ℕ) × (rest : List ℕ)
        × BeginsWith bytes.now seed payload rest × (payload ≢ configuration_payload config.now) }
    ensures none { IsErrOf result NoJournal → (seed : ℕ) (payload rest : List ℕ) →
        BeginsWith bytes.now seed payload rest → ⊥ }
{
    let Some((seed, rest)) = seed_of(bytes) else {
        return Err(BeginningError::NoJournal);
    };
    let framing = Framing::new(seed);
    let Some((payload, _)) = framing.frame_at(17, rest) else {
        return Err(BeginningError::NoJournal);
    };
    let Ok(wanted) = configuration_payload(alloc, config) else {
        return Err(BeginningError::OutOfMemory);
    };
    if is_same(payload, wanted.as_slice()) {
        let offset = 17 + 8 + payload.len() as u64;
        return Ok(Begun { framing, offset });
    }
    Err(BeginningError::OtherBucket)
}
