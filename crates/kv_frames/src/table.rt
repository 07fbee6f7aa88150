//! CRC-32C by a table of 256 entries.

ghost use Rattle.std.specs.Prelude.{◌≡◌, ◌<◌, ℕ, fold, slice_index};
ghost use Rattle.kv_frames.specs.Checksum.{checksum, crc32c, shifted_by, with_byte};

use crate::crc::shifted_by_eight;

/// CRC-32C (Castagnoli), as RFC 3720 has it, by a table of one kibibyte: of each byte what is left when its eight bits are
/// shifted out.
#[derive(Drop)]
pub struct Crc32c {
    entries: [u32; 256],
    ghost filled: { (k : ℕ) → k < 256 → slice_index entries k ≡ shifted_by 8 k },
}

impl Crc32c {
    /// Fills the table: 2,048 shifts.
    pub fn new() -> Crc32c {
        let mut entries = [0u32; 256];
        for i in 0..256usize {
            entries[i] = shifted_by_eight(i as u32);
        }
        Crc32c { entries }
    }

    // One more byte.
    fn with_byte(&self, crc: u32, byte: u8) -> u32
        ensures { result ≡ with_byte crc byte }
    {
        let low = (crc ^ u32::from(byte)) % 256;
        (crc / 256) ^ self.entries[low as usize]
    }

    fn with_bytes(&self, crc: u32, bytes: &[u8]) -> u32
        ensures { result ≡ fold with_byte crc bytes.now }
    {
        let mut crc = crc;
        for byte in bytes {
            crc = self.with_byte(crc, *byte);
        }
        crc
    }

    /// The checksum of bytes.
    pub fn sum(&self, bytes: &[u8]) -> u32
        ensures { result ≡ crc32c bytes.now }
    {
        self.with_bytes(u32::MAX, bytes) ^ u32::MAX
    }

    /// The checksum of a payload whose frame begins at this offset of the file with this seed.
    #[tactic(auto, unfolding(crate::specs::Checksum::checksum))]
    pub(crate) fn checksum(&self, seed: u64, at: u64, payload: &[u8]) -> u32
        ensures { result ≡ checksum seed at payload.now }
    {
        let crc = self.with_bytes(u32::MAX, &seed.to_be_bytes());
        let crc = self.with_bytes(crc, &at.to_be_bytes());
        self.with_bytes(crc, payload) ^ u32::MAX
    }
}
