//! Readers that tell when they fail.

ghost use Rattle.std.specs.Prelude.{◌≡◌, ◌+◌, ◌≤◌, ◌||◌, ◌==◌, ℕ, List, Bool, false, length, Option, IfOk, IfErr, OnOk, OnErr};
ghost use Rattle.std.specs.Io.KnownBytes.{ReadConsumes};
ghost use Rattle.kv_keys.specs.declared.error.KvError.TheVariants.{ReadFault};
ghost use Rattle.kv_replay.specs.Failures.{HasRisen};

use crate::failures::one_more;
use kv_keys::KvError;
use std::io::Read;

/// A reader of bytes that tells when it fails.
pub trait Input {
    /// The bytes that it still gives, where they are known.
    ghost left: { Self → Option (List ℕ) };

    /// How often it was asked.
    ghost asked: { Self → ℕ };

    /// It has given its end.
    ghost has_ended: { Self → Bool };

    /// It was asked after its end.
    ghost was_asked_late: { Self → Bool };

    /// The second is the first, later.
    ghost goes_on: { Self → Self → Type 0 };

    /// It failed between the first and the second.
    ghost failed_between: { Self → Self → Type 0 };

    /// Fills a beginning of the buffer, whose length it answers: 0 at the end.
    fn read(&mut self, buffer: &mut [u8]) -> Result<usize, KvError>
        ensures same { goes_on self.old self.new }
        ensures count { IfOk result (λ n. n ≤ length buffer.new) }
        ensures bytes { ReadConsumes (left self.old) (left self.new) result buffer.new }
        ensures fault { IfErr result (λ e. e ≡ ReadFault) }
        ensures failed { OnErr result (failed_between self.old self.new) }
        ensures unfailed { OnOk result (failed_between self.old self.new → ⊥) }
        ensures at_most_one { asked self.new ≤ asked self.old + 1 }
        ensures one { OnOk result (asked self.new ≡ asked self.old + 1) }
        ensures ended { IfOk result (λ n. has_ended self.new ≡ (has_ended self.old || (n == 0))) }
        ensures late { was_asked_late self.new ≡ (was_asked_late self.old || has_ended self.old) };

    ghost goes_on_itself: { (a : Self) → goes_on a a };

    ghost goes_on_later: { (a b c : Self) → goes_on a b → goes_on b c → goes_on a c };

    ghost failed_earlier: { (a b c : Self) → failed_between a b → goes_on b c → failed_between a c };

    ghost failed_later: { (a b c : Self) → goes_on a b → failed_between b c → failed_between a c };
}

/// A reader of std that notes how often it is asked, how often it fails, and where it is asked after its end. It counts
/// as one that fails where it is asked for the 2^64th time, and where it is asked after 2^64 − 1 failures.
#[derive(Drop)]
pub struct CountedReader<'r, R> {
    reader: &'r mut R,
    failures: u64,
    asked: u64,
    has_ended: bool,
    was_asked_late: bool,
}

impl<'r, R> CountedReader<'r, R> {
    /// The reader, which was not asked yet.
    pub fn new(reader: &'r mut R) -> Self
        ensures same { result.reader.ghost_name ≡ reader.entry.ghost_name }
        ensures reader { result.reader.now ≡ reader.old }
        ensures fresh { result.failures ≡ 0 }
        ensures unasked { result.asked ≡ 0 }
        ensures begun { (result.has_ended ≡ false) × (result.was_asked_late ≡ false) }
    {
        CountedReader {
            reader,
            failures: 0,
            asked: 0,
            has_ended: false,
            was_asked_late: false,
        }
    }

    /// How often it failed.
    pub fn failures(&self) -> u64
        ensures { result ≡ self.now.failures }
    {
        self.failures
    }

    /// How often it was asked.
    pub fn asked(&self) -> u64
        ensures { result ≡ self.now.asked }
    {
        self.asked
    }

    /// Whether it has given its end.
    pub fn has_ended(&self) -> bool
        ensures { result ≡ self.now.has_ended }
    {
        self.has_ended
    }

    /// Whether it was asked after its end.
    pub fn was_asked_late(&self) -> bool
        ensures { result ≡ self.now.was_asked_late }
    {
        self.was_asked_late
    }
}

impl<'r, R: Read> Input for CountedReader<'r, R> {
    ghost use Rattle.std.proofs.Common.{refl, ◌∙◌, arith};
    ghost use Rattle.kv_replay.specs.Failures.{risen_earlier, risen_later};

    ghost left = { λ s. R.remaining s.reader.now };

    ghost asked = { λ s. s.asked };

    ghost has_ended = { λ s. s.has_ended };

    ghost was_asked_late = { λ s. s.was_asked_late };

    ghost goes_on = { λ a b. (b.reader.ghost_name ≡ a.reader.ghost_name) × (a.failures ≤ b.failures) };

    ghost failed_between = { λ a b. HasRisen a.failures b.failures };

    fn read(&mut self, buffer: &mut [u8]) -> Result<usize, KvError> {
        self.was_asked_late = self.was_asked_late | self.has_ended;
        if self.asked < u64::MAX && self.failures < u64::MAX {
            self.asked += 1;
            if let Ok(count) = self.reader.read(buffer) {
                self.has_ended = self.has_ended | (count == 0);
                return Ok(count);
            }
        }
        self.failures = one_more(self.failures);
        Err(KvError::ReadFault)
    }

    ghost goes_on_itself = { λ a. (refl, omega arith) };

    ghost goes_on_later = { λ a b c ab bc. (bc.0 ∙ ab.0, omega (arith, ab.1, bc.1)) };

    ghost failed_earlier = { λ a b c ab bc. risen_earlier _ _ _ ab bc.1 };

    ghost failed_later = { λ a b c ab bc. risen_later _ _ _ ab.1 bc };
}
