//! All frames of a file.

ghost use Rattle.std.specs.Prelude.{◌≡◌, ◌+◌, ◌^◌, ◌<◌, map, length, IfOk};
ghost use Rattle.kv_frames.specs.Frames.{Splits};

use crate::frame::Framing;
use std::alloc::{AllocError, Global};

impl Framing {
    /// The payloads of the whole frames from the front on, where the first begins at this offset of the file, and the rest,
    /// at whose front no whole frame stands.
    pub fn read_frames<'a>(
        &self,
        alloc: Global,
        at: u64,
        bytes: &'a [u8],
    ) -> Result<(Vec<Vec<u8>>, &'a [u8]), AllocError>
        requires { at + length bytes.now < 2 ^ 64 }
        ensures { IfOk result (λ r. Splits self.now.seed at bytes.now (map (λ p. p.items) r.0.items) r.1.now) }
    {
        let mut payloads = Vec::new(alloc);
        let mut offset = at;
        let mut rest = bytes;
        while let Some((payload, after)) = self.frame_at(offset, rest) {
            payloads.push(Vec::from_slice(alloc, payload)?)?;
            offset += 8 + payload.len() as u64;
            rest = after;
        }
        Ok((payloads, rest))
    }
}
