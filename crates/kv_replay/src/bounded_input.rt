//! Where a script comes from.

ghost use Rattle.std.specs.Prelude.{◌≡◌, ◌+◌, ◌≤◌, ◌⊎◌, ◌||◌, ◌==◌, ℕ, List, Bool, false, length, Option, ◌<◌, IfOk, IfErr, OnOk, OnErr};
ghost use Rattle.std.specs.Io.KnownBytes.{ReadConsumes};
ghost use Rattle.kv_keys.specs.declared.error.KvError.TheVariants.{ReadFault};
ghost use Rattle.kv_replay.specs.Bounds.{Counts};

use crate::input::Input;
use kv_keys::KvError;

/// A source of bytes that tells when it fails, and that is asked so many times at the most.
pub trait BoundedInput {
    /// The bytes that it still gives, where they are known.
    ghost left: { Self → Option (List ℕ) };

    /// How often it may still be asked.
    ghost calls_left: { Self → ℕ };

    /// It has given its end.
    ghost has_ended: { Self → Bool };

    /// It was asked after its end.
    ghost was_asked_late: { Self → Bool };

    /// The second is the first, later.
    ghost goes_on: { Self → Self → Type 0 };

    /// It failed between the first and the second, or then may not be asked again.
    ghost failed_between: { Self → Self → Type 0 };

    /// Fills a beginning of the buffer, whose length it answers: 0 at the end.
    fn read(&mut self, buffer: &mut [u8]) -> Result<usize, KvError>
        ensures same { goes_on self.old self.new }
        ensures count { IfOk result (λ n. n ≤ length buffer.new) }
        ensures bytes { ReadConsumes (left self.old) (left self.new) result buffer.new }
        ensures spends { OnOk result (calls_left self.new < calls_left self.old) }
        ensures fault { IfErr result (λ e. e ≡ ReadFault) }
        ensures failed { OnErr result (failed_between self.old self.new) }
        ensures ended { IfOk result (λ n. has_ended self.new ≡ (has_ended self.old || (n == 0))) }
        ensures late { has_ended self.old ≡ false → was_asked_late self.new ≡ was_asked_late self.old };

    ghost goes_on_itself: { (a : Self) → goes_on a a };

    ghost goes_on_later: { (a b c : Self) → goes_on a b → goes_on b c → goes_on a c };

    ghost failed_later: { (a b c : Self) → goes_on a b → failed_between b c → failed_between a c };
}

/// A reader that is asked so many times at the most.
#[derive(Drop)]
pub struct Bounded<'r, R> {
    reader: &'r mut R,
    calls: u64,
}

impl<'r, R> Bounded<'r, R> {
    /// The reader, to be asked so many times.
    pub fn new(reader: &'r mut R, calls: u64) -> Self
        ensures same { result.reader.ghost_name ≡ reader.entry.ghost_name }
        ensures reader { result.reader.now ≡ reader.old }
        ensures calls { result.calls ≡ calls }
    {
        Bounded { reader, calls }
    }
}

impl<'r, R: Input> BoundedInput for Bounded<'r, R> {
    ghost use Rattle.std.proofs.Common.{refl, ◌∙◌, arith, inr};
    ghost use Rattle.kv_replay.specs.Bounds.{counts_later, failed_or_spent};

    ghost left = { λ s. R.left s.reader.now };

    ghost calls_left = { λ s. s.calls };

    ghost has_ended = { λ s. R.has_ended s.reader.now };

    ghost was_asked_late = { λ s. R.was_asked_late s.reader.now };

    ghost goes_on = { λ a b. (b.reader.ghost_name ≡ a.reader.ghost_name) × (R.goes_on a.reader.now b.reader.now
        × Counts (R.failed_between a.reader.now b.reader.now) (R.asked a.reader.now + a.calls)
        (R.asked b.reader.now + b.calls)) };

    ghost failed_between = { λ a b. R.failed_between a.reader.now b.reader.now ⊎ (b.calls ≡ 0) };

    fn read(&mut self, buffer: &mut [u8]) -> Result<usize, KvError> {
        if self.calls == 0 {
            return Err(KvError::ReadFault);
        }
        self.calls -= 1;
        self.reader.read(buffer)
    }

    ghost goes_on_itself = { λ a. (
      refl,
      (
        R.goes_on_itself a.reader.now,
        record { at_most = omega arith; exact = inr refl },
      ),
    ) };

    ghost goes_on_later = { λ a b c ab bc. (
      bc.0 ∙ ab.0,
      (
        R.goes_on_later _ _ _ ab.1.0 bc.1.0,
        counts_later _ _ _ (λ failed. R.failed_earlier _ _ _ failed bc.1.0)
            (λ failed. R.failed_later _ _ _ ab.1.0 failed) ab.1.1 bc.1.1,
      ),
    ) };

    ghost failed_later = { λ a b c ab bc. failed_or_spent (λ failed. R.failed_later _ _ _ ab.1.0 failed) bc };
}
