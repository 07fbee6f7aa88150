//! CRC-32C bit by bit.

ghost use Rattle.std.specs.Prelude.{◌≡◌};
ghost use Rattle.kv_frames.specs.Checksum.{shifted, shifted_by};

const POLYNOMIAL: u32 = 0x82F6_3B78;

#[tactic(auto, unfolding(crate::specs::Checksum::shifted))]
fn shifted(n: u32) -> u32
    ensures { result ≡ shifted n }
{
    if n % 2 == 1 {
        n / 2 ^ POLYNOMIAL
    } else {
        n / 2
    }
}

// Shifts eight bits out.
pub(crate) fn shifted_by_eight(n: u32) -> u32
    ensures { result ≡ shifted_by 8 n }
{
    let mut n = n;
    for _ in 0..8u32 {
        n = shifted(n);
    }
    n
}
