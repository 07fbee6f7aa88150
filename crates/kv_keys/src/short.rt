//! Keys of which many share a place.

use crate::key::Key;
use crate::place::Place;

/// A key whose place is its length in bytes, for tests of equal places. It is ordered as its key.
#[derive(Debug, Drop, PartialEq, Eq, PartialOrd, Ord)]
pub struct Short(pub Key);

impl Place for Short {
    ghost use Rattle.std.specs.Prelude.{length};
    ghost use Rattle.std.proofs.Common.{ap};
    ghost use Rattle.std.specs.FinMap.{slice_cmp-IsAntisymmetric, nat_cmp-IsAntisymmetric};

    ghost place_of = { λ short. length short.0 };

    /// The key's length in bytes.
    #[tactic(auto, using(crate::proofs::Keys::key_length))]
    fn place(&self) -> u32 {
        self.0.as_str().len() as u32
    }

    ghost respects_equal = { λ a b same. ap length (slice_cmp-IsAntisymmetric nat_cmp-IsAntisymmetric a.0 b.0 same) };
}
