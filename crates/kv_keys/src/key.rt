//! Keys of a bucket.

ghost use Rattle.std.specs.Prelude.{◌≡◌, if◌then◌else◌, IfOk, IfErr, IsTrue};
ghost use Rattle.kv_keys.specs.Grammar.{is_key};

use crate::error::KvError;
use crate::grammar;
use crate::place::{Place, fnv32};
use crate::text::Text;
use std::alloc::Global;
use std::cmp::Ordering;
use std::marker::Model;

/// A key: 1 to 255 ASCII letters, digits, `-`, `/`, `_`, `=` and `.`, with no empty token between dots (NATS ADR-8).
///
/// Contracts see a key as its bytes. Equality and order are those of the bytes.
#[derive(Debug, Drop)]
pub struct Key {
    text: Text,
}

impl Model for Key {
    ghost use Rattle.std.specs.Prelude.{ℕ, List, IsTrue};
    ghost use Rattle.kv_keys.specs.Grammar.{is_key};
    ghost use Rattle.kv_keys.specs.inside.Text.{bytes_of};

    ghost Value = { List ℕ };

    ghost view = { λ key. bytes_of key.text };

    ghost invariant = { λ key. IsTrue (is_key (bytes_of key.text)) };
}

impl Key {
    ghost use Rattle.kv_keys.specs.declared.error.KvError.TheVariants.{OutOfMemory, BadKey};

    /// Reads a key. It asks for memory once where the key has more than 24 bytes, and else not at all. A text that is no
    /// key is refused before that.
    pub fn parse(alloc: Global, text: &str) -> Result<Key, KvError>
        ensures ok { IfOk result (λ key. (key ≡ text.now) × IsTrue (is_key text.now)) }
        ensures err { IfErr result (λ e. e ≡ (if is_key text.now then OutOfMemory else BadKey)) }
    {
        if !grammar::is_key(text) {
            return Err(KvError::BadKey);
        }
        let text = Text::of(alloc, text)?;
        Ok(Key { text })
    }

    /// The text that was read.
    pub fn as_str(&self) -> &str
        ensures value { result.now ≡ self.now }
        ensures key { IsTrue (is_key self.now) }
    {
        self.text.as_str()
    }

    /// An equal key, which has nothing in common with this one. It asks for memory as `parse` does.
    pub fn copy(&self, alloc: Global) -> Result<Key, KvError>
        ensures ok { IfOk result (λ key. key ≡ self.now) }
        ensures key { IsTrue (is_key self.now) }
        ensures err { IfErr result (λ e. e ≡ OutOfMemory) }
    {
        let text = Text::of(alloc, self.as_str())?;
        Ok(Key { text })
    }
}

impl PartialEq for Key {
    ghost use Rattle.std.specs.Str.{bytes_eq};
    ghost use Rattle.std.specs.Cmp.{partial_equiv_from_equiv};
    ghost use Rattle.std.specs.Cmp.Lexicographic.{nat_list_eq_equiv};

    ghost eq = { bytes_eq };

    ghost laws = { partial_equiv_from_equiv nat_list_eq_equiv };

    fn eq(&self, other: &Key) -> bool {
        self.as_str() == other.as_str()
    }
}

impl Eq for Key {
    ghost use Rattle.std.specs.Cmp.Lexicographic.{nat_list_eq_equiv};

    ghost laws = { nat_list_eq_equiv };
}

impl PartialOrd for Key {
    ghost use Rattle.std.specs.Prelude.{Some};
    ghost use Rattle.std.specs.Ordering.{nat_cmp};
    ghost use Rattle.std.specs.Cmp.Lexicographic.{slice_cmp, texts_po};

    ghost partial_cmp = { λ x y. Some (slice_cmp nat_cmp x y) };

    ghost laws = { texts_po };

    fn partial_cmp(&self, other: &Key) -> Option<Ordering> {
        Some(self.cmp(other))
    }
}

impl Ord for Key {
    ghost use Rattle.std.specs.Prelude.{refl};
    ghost use Rattle.std.specs.Ordering.{nat_cmp};
    ghost use Rattle.std.specs.Cmp.Lexicographic.{slice_cmp, nat_list_cmp_total, texts_ties};

    ghost cmp = { slice_cmp nat_cmp };

    ghost total = { nat_list_cmp_total };

    ghost matches_partial_cmp = { λ x y. refl };

    ghost matches_eq = { λ x y. texts_ties x y };

    fn cmp(&self, other: &Key) -> Ordering {
        self.as_str().cmp(other.as_str())
    }
}

impl Place for Key {
    ghost use Rattle.std.proofs.Common.{ap};
    ghost use Rattle.std.specs.FinMap.{slice_cmp-IsAntisymmetric, nat_cmp-IsAntisymmetric};
    ghost use Rattle.kv_keys.specs.Places.{fnv32_of};

    ghost place_of = { fnv32_of };

    /// The hash FNV-1a of the key's bytes.
    fn place(&self) -> u32 {
        fnv32(self.as_str().as_bytes())
    }

    ghost respects_equal = { λ a b same. ap fnv32_of (slice_cmp-IsAntisymmetric nat_cmp-IsAntisymmetric a b same) };
}
