//! Revisions as keys.

ghost use Rattle.std.specs.Prelude.{◌≡◌, ◌<◌, ◌/◌, ◌%◌};
ghost use Rattle.kv_store.specs.Places.{place_of_revision};

use kv_keys::Place;
use std::cmp::Ordering;
use std::marker::Model;

/// A revision as a key of a trie. Its place is its number with the five lowest of its digits of five bits turned, the
/// highest of them first: so writes that follow one another stand side by side, and who walks the trie meets them in the
/// order in which their memory was taken. A bucket stores a million writes at most, so the digits above part few. No two
/// revisions share a place.
///
/// Contracts see it as its number.
#[derive(Debug, Drop)]
pub struct Rev(u32);

impl Model for Rev {
    ghost use Rattle.std.specs.Prelude.{ℕ};

    ghost Value = { ℕ };

    ghost view = { λ rev. rev.0 };
}

impl Rev {
    /// The revision with this number.
    pub fn new(number: u32) -> Rev
        ensures { result ≡ number }
    {
        Rev(number)
    }

    /// Its number.
    pub fn number(&self) -> u32
        ensures { result ≡ self.now }
    {
        let Rev(revision) = self;
        *revision
    }
}

impl PartialEq for Rev {
    ghost use Rattle.std.specs.Prelude.{nat_eq};
    ghost use Rattle.std.specs.Cmp.{partial_equiv_from_equiv};
    ghost use Rattle.std.proofs.lemmas.Cmp.{nat_eq_equiv};

    ghost eq = { nat_eq };

    ghost laws = { partial_equiv_from_equiv nat_eq_equiv };

    fn eq(&self, other: &Rev) -> bool {
        self.0 == other.0
    }
}

impl Eq for Rev {
    ghost use Rattle.std.proofs.lemmas.Cmp.{nat_eq_equiv};

    ghost laws = { nat_eq_equiv };
}

impl PartialOrd for Rev {
    ghost use Rattle.std.specs.Prelude.{Some};
    ghost use Rattle.std.specs.Ordering.{nat_cmp};
    ghost use Rattle.std.specs.Cmp.Rules.{comparing};
    ghost use Rattle.std.proofs.Common.{rules};

    ghost partial_cmp = { λ x y. Some (nat_cmp x y) };

    ghost laws = { Prim.search (comparing, rules) };

    fn partial_cmp(&self, other: &Rev) -> Option<Ordering> {
        Some(self.cmp(other))
    }
}

impl Ord for Rev {
    ghost use Rattle.std.specs.Ordering.{nat_cmp};
    ghost use Rattle.std.proofs.Common.{rules};
    ghost use Rattle.std.proofs.lemmas.Cmp.{nat_cmp_total};

    ghost cmp = { nat_cmp };

    ghost total = { nat_cmp_total };

    ghost matches_partial_cmp = { Prim.search rules };

    ghost matches_eq = { Prim.search rules };

    fn cmp(&self, other: &Rev) -> Ordering {
        self.0.cmp(&other.0)
    }
}

// A digit of five bits, where the digits below it count to this number.
fn digit(number: u32, below: u32) -> u32
    requires { 0 < below }
    ensures value { result ≡ number / below % 32 }
    ensures small { result < 32 }
{
    number / below % 32
}

#[tactic(auto, unfolding(crate::specs::Places::place_of_revision))]
fn place_of(number: u32) -> u32
    ensures { result ≡ place_of_revision number }
{
    digit(number, 1) * 1_048_576
        + (digit(number, 32) * 32_768
            + (digit(number, 1_024) * 1_024
                + (digit(number, 32_768) * 32
                    + (digit(number, 1_048_576) + number / 33_554_432 * 33_554_432))))
}

impl Place for Rev {
    ghost use Rattle.std.proofs.Common.{ap};
    ghost use Rattle.std.specs.FinMap.{nat_cmp-IsAntisymmetric};

    ghost place_of = { place_of_revision };

    fn place(&self) -> u32 {
        place_of(self.0)
    }

    ghost respects_equal = { λ a b same. ap place_of_revision (nat_cmp-IsAntisymmetric a b same) };
}
