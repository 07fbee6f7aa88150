//! Numbers at the front of bytes, such as the first field of an entry.

ghost use Rattle.std.specs.Prelude.{◌≡◌, ◌<◌, ◌^◌, ◌++◌, length, MatchOption};
ghost use Rattle.std.specs.Int.{w32, to_be_bytes};

// The number in the first four bytes, and what stands behind them.
pub(crate) fn number_of(bytes: &[u8]) -> Option<(u32, &[u8])>
    ensures { MatchOption result (length bytes.now < 4)
        (λ n. (n.0 < 2 ^ 32) × (bytes.now ≡ to_be_bytes w32 n.0 ++ n.1.now)) }
{
    let [a, b, c, d, rest @ ..] = bytes else {
        return None;
    };
    let number = u32::from_be_bytes([*a, *b, *c, *d]);
    Some((number, rest))
}

/// How many bytes before its frame an entry with this payload says were loose, and its record.
pub fn loose_of(payload: &[u8]) -> Option<(u32, &[u8])>
    ensures { MatchOption result (length payload.now < 4)
        (λ l. (l.0 < 2 ^ 32) × (payload.now ≡ to_be_bytes w32 l.0 ++ l.1.now)) }
{
    number_of(payload)
}
