//! One frame.

ghost use Rattle.std.specs.Prelude.{◌≡◌, ◌<◌, ◌++◌, length, IfNone, IfSome, MatchOption, OnOk};
ghost use Rattle.std.specs.Int.{w32, to_be_bytes};
ghost use Rattle.kv_frames.specs.Frames.{BeginsWhole, IsPayload, frame};

use crate::table::Crc32c;
use std::alloc::AllocError;

/// How the frames of one file are written and read: by the file's seed, with a checksum.
#[derive(Drop)]
pub struct Framing {
    /// The seed of the file: a number chosen at random when it was made.
    pub seed: u64,
    crc: Crc32c,
}

// The length and the checksum at the front, and what stands behind them.
fn header_of(bytes: &[u8]) -> Option<(u32, u32, &[u8])>
    ensures { MatchOption result (length bytes.now < 8)
        (λ h. bytes.now ≡ to_be_bytes w32 h.0 ++ (to_be_bytes w32 h.1 ++ h.2.now)) }
{
    let [a, b, c, d, e, f, g, h, rest @ ..] = bytes else {
        return None;
    };
    let len = u32::from_be_bytes([*a, *b, *c, *d]);
    let sum = u32::from_be_bytes([*e, *f, *g, *h]);
    Some((len, sum, rest))
}

impl Framing {
    /// The frames of the file with this seed.
    pub fn new(seed: u64) -> Framing
        ensures { result.seed ≡ seed }
    {
        Framing {
            seed,
            crc: Crc32c::new(),
        }
    }

    /// Adds the frame of a payload that begins at this offset of the file.
    pub fn push_frame(&self, out: &mut Vec<u8>, at: u64, payload: &[u8]) -> Result<(), AllocError>
        requires { IsPayload payload.now }
        ensures { OnOk result (out.new.items ≡ out.old.items ++ frame self.now.seed at payload.now) }
    {
        out.extend_from_slice(&(payload.len() as u32).to_be_bytes())?;
        out.extend_from_slice(&self.crc.checksum(self.seed, at, payload).to_be_bytes())?;
        out.extend_from_slice(payload)?;
        Ok(())
    }

    /// The payload of the whole frame at the front, which begins at this offset of the file, and what stands behind it;
    /// none where no whole frame stands there: too few bytes, no payload, or another checksum.
    pub fn frame_at<'a>(&self, at: u64, bytes: &'a [u8]) -> Option<(&'a [u8], &'a [u8])>
        ensures some { IfSome result
            (λ f. IsPayload f.0.now × (bytes.now ≡ frame self.now.seed at f.0.now ++ f.1.now)) }
        ensures none { IfNone result (BeginsWhole self.now.seed at bytes.now → ⊥) }
    {
        let (len, sum, rest) = header_of(bytes)?;
        let len = len as usize;
        if len == 0 || rest.len() < len {
            return None;
        }
        let (payload, after) = rest.split_at(len);
        if sum != self.crc.checksum(self.seed, at, payload) {
            return None;
        }
        Some((payload, after))
    }
}
