//! Places: where a key stands in a hash trie.

ghost use Rattle.std.specs.Prelude.{◌≡◌, ℕ};
ghost use Rattle.std.specs.declared.cmp.Ordering.TheVariants.{Equal};
ghost use Rattle.kv_keys.specs.Places.{fnv32_of};

const OFFSET: u32 = 2166136261;

const PRIME: u32 = 16777619;

/// A key with a place of 32 bits. Keys that are equal have the same place; keys of one place need not be equal.
pub trait Place: Ord {
    ghost place_of: { Self → ℕ };

    fn place(&self) -> u32
        ensures { result ≡ place_of self.now };

    ghost respects_equal: { (a b : Self) → Self.cmp a b ≡ Equal → place_of a ≡ place_of b };
}

/// The hash FNV-1a with 32 bits (Fowler, Noll and Vo) of these bytes.
#[tactic(auto, unfolding(crate::specs::Places::fnv32_of))]
pub fn fnv32(bytes: &[u8]) -> u32
    ensures { result ≡ fnv32_of bytes.now }
{
    bytes.iter().fold(
        OFFSET,
        |hash, byte| (hash ^ u32::from(*byte)).wrapping_mul(PRIME),
    )
}
