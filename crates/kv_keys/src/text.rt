//! Texts that lie in the value that has them, as long as they are short.

ghost use Rattle.std.specs.Prelude.{◌≡◌, IfOk};
ghost use Rattle.kv_keys.specs.inside.Text.{bytes_of};

use arrayvec::ArrayString;
use std::alloc::{AllocError, Global};
use std::fmt;

/// How many bytes lie in the value itself.
const MOST_INSIDE: usize = 24;

/// A text. A short one, as most keys are, takes no memory of its own, so who copies one asks for none, and who compares two
/// looks nowhere else.
#[derive(Drop)]
pub enum Text {
    /// In the value itself.
    Inside(ArrayString<MOST_INSIDE>),
    /// In memory of its own.
    Apart(String),
}

impl Text {
    /// A copy of a text. It asks for memory only where that has more than 24 bytes.
    pub fn of(alloc: Global, text: &str) -> Result<Text, AllocError>
        ensures { IfOk result (λ copy. bytes_of copy ≡ text.now) }
    {
        match ArrayString::from(text) {
            Ok(inside) => Ok(Text::Inside(inside)),
            Err(_) => Ok(Text::Apart(String::from_str(alloc, text)?)),
        }
    }

    /// The text.
    pub fn as_str(&self) -> &str
        ensures { result.now ≡ bytes_of self.now }
    {
        match self {
            Text::Inside(text) => text.as_str(),
            Text::Apart(text) => text.as_str(),
        }
    }
}

impl fmt::Debug for Text {
    fn fmt<W: fmt::Write>(&self, f: &mut fmt::Formatter<W>) -> fmt::Result {
        fmt::Debug::fmt(&self.as_str(), f)
    }
}
