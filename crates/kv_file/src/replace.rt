//! Files that are replaced as a whole.

ghost use Rattle.std.specs.Prelude.{◌≡◌, ◌⊎◌, ◌<◌, ◌≤◌, [], ℕ, true, false, List, IsErrOf, OnErr, OnOk};
ghost use Rattle.kv_file.specs.declared.replace.ReplaceFault.TheVariants.{Unchanged, Unknown};

use crate::file::JournalFile;

/// Why a file was not replaced.
#[derive(Clone, Copy, Debug, PartialEq, Eq)]
pub enum ReplaceFault {
    /// It has what it had, and goes on.
    Unchanged,
    /// It has what it had, or what was to be in its place: a crash leaves the one or the other. The file has failed.
    Unknown,
}

/// A file that can be replaced as a whole, where it lies at such a location.
pub trait ReplaceableFile<P>: JournalFile {
    /// Puts these bytes in the place of all that the file has, and brings them onto the disk. Whatever a crash leaves
    /// meanwhile, it leaves of what the file had, or it leaves all of these bytes.
    fn replace(&mut self, location: &P, bytes: Vec<u8>) -> Result<(), ReplaceFault>
        ensures ok { OnOk result (Self.usable self.old ≡ true → (kept loose : List ℕ) → Self.has self.old kept loose →
            Self.has self.new bytes.items []) }
        ensures unchanged { IsErrOf result Unchanged → (kept loose : List ℕ) → Self.has self.old kept loose →
            Self.has self.new kept loose }
        ensures unknown { IsErrOf result Unknown → Self.usable self.old ≡ true → (kept loose : List ℕ) →
            Self.has self.old kept loose → Self.has self.new kept loose ⊎ Self.has self.new bytes.items [] }
        ensures goes_on { OnOk result (Self.usable self.new ≡ Self.usable self.old) }
        ensures stays { IsErrOf result Unchanged → Self.usable self.new ≡ Self.usable self.old }
        ensures stops { IsErrOf result Unknown → Self.usable self.new ≡ false }
        ensures count { Self.faults self.old ≤ Self.faults self.new }
        ensures failed { OnErr result (Self.usable self.old ≡ true → Self.faults self.old < Self.faults self.new) };
}
