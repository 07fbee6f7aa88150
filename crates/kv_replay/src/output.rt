//! Where the answers go.

ghost use Rattle.std.specs.Prelude.{◌≡◌, ◌≤◌, ℕ, take, List, Option, IfErr, OnOk, OnErr};
ghost use Rattle.std.specs.Io.KnownBytes.{Appends};
ghost use Rattle.kv_keys.specs.declared.error.KvError.TheVariants.{WriteFault};
ghost use Rattle.kv_replay.specs.Failures.{HasRisen};

use crate::failures::one_more;
use kv_keys::KvError;
use std::io::Write;

/// A sink of bytes that tells when it fails.
pub trait Output {
    /// The bytes that it has taken, where they are known.
    ghost held: { Self → Option (List ℕ) };

    /// The second is the first, later.
    ghost goes_on: { Self → Self → Type 0 };

    /// It failed, or took no byte, between the first and the second.
    ghost failed_between: { Self → Self → Type 0 };

    /// Writes all the bytes. After a refusal a beginning of them was written.
    fn write(&mut self, bytes: &[u8]) -> Result<(), KvError>
        ensures same { goes_on self.old self.new }
        ensures ok { OnOk result (Appends (held self.old) (held self.new) bytes.now) }
        ensures err { OnErr result ((n : ℕ) × Appends (held self.old) (held self.new) (take n bytes.now)) }
        ensures fault { IfErr result (λ e. e ≡ WriteFault) }
        ensures failed { OnErr result (failed_between self.old self.new) }
        ensures unfailed { OnOk result (failed_between self.old self.new → ⊥) };

    ghost goes_on_itself: { (a : Self) → goes_on a a };

    ghost goes_on_later: { (a b c : Self) → goes_on a b → goes_on b c → goes_on a c };

    ghost failed_earlier: { (a b c : Self) → failed_between a b → goes_on b c → failed_between a c };

    ghost failed_later: { (a b c : Self) → goes_on a b → failed_between b c → failed_between a c };
}

/// A writer that is handed whole texts, and notes how often it fails. It counts as one that fails after 2^64 − 1
/// failures.
#[derive(Drop)]
pub struct CountedWriter<'w, W> {
    writer: &'w mut W,
    failures: u64,
}

impl<'w, W> CountedWriter<'w, W> {
    /// The writer, which has not failed yet.
    pub fn new(writer: &'w mut W) -> Self
        ensures same { result.writer.ghost_name ≡ writer.entry.ghost_name }
        ensures writer { result.writer.now ≡ writer.old }
        ensures fresh { result.failures ≡ 0 }
    {
        CountedWriter {
            writer,
            failures: 0,
        }
    }

    /// How often it failed, or took no byte.
    pub fn failures(&self) -> u64
        ensures { result ≡ self.now.failures }
    {
        self.failures
    }
}

/// Writes all the bytes. After a refusal a beginning of them was written.
fn write_all<W: Write>(writer: &mut W, bytes: &[u8]) -> Result<(), KvError>
    ensures ok { OnOk result (Appends (W.contents writer.old) (W.contents writer.new) bytes.now) }
    ensures err { OnErr result ((n : ℕ) × Appends (W.contents writer.old) (W.contents writer.new) (take n bytes.now)) }
    ensures fault { IfErr result (λ e. e ≡ WriteFault) }
{
    let mut at = 0;
    while at < bytes.len() {
        match writer.write(&bytes[at..]) {
            Ok(0) | Err(_) => return Err(KvError::WriteFault),
            Ok(count) => at += count,
        }
    }
    Ok(())
}

impl<'w, W: Write> Output for CountedWriter<'w, W> {
    ghost use Rattle.std.proofs.Common.{refl, ◌∙◌, arith};
    ghost use Rattle.kv_replay.specs.Failures.{risen_earlier, risen_later};

    ghost held = { λ s. W.contents s.writer.now };

    ghost goes_on = { λ a b. (b.writer.ghost_name ≡ a.writer.ghost_name) × (a.failures ≤ b.failures) };

    ghost failed_between = { λ a b. HasRisen a.failures b.failures };

    fn write(&mut self, bytes: &[u8]) -> Result<(), KvError> {
        if self.failures == u64::MAX {
            return Err(KvError::WriteFault);
        }
        match write_all(self.writer, bytes) {
            Ok(()) => Ok(()),
            Err(error) => {
                self.failures = one_more(self.failures);
                Err(error)
            }
        }
    }

    ghost goes_on_itself = { λ a. (refl, omega arith) };

    ghost goes_on_later = { λ a b c ab bc. (bc.0 ∙ ab.0, omega (arith, ab.1, bc.1)) };

    ghost failed_earlier = { λ a b c ab bc. risen_earlier _ _ _ ab bc.1 };

    ghost failed_later = { λ a b c ab bc. risen_later _ _ _ ab.1 bc };
}
