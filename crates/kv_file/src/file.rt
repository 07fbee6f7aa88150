//! A file that only grows: what is asked of it, and the premise of all that is promised of what is kept in it.

ghost use Rattle.std.specs.Prelude.{◌≡◌, ◌<◌, ◌≤◌, ◌++◌, ◌&&◌, [], ℕ, take, drop, Bool, true, is_ok, List, IfOk, IsErrOf, OnErr, OnOk};
ghost use Rattle.kv_file.specs.declared.file.ReadFault.TheVariants.{Failed};

use std::alloc::Global;

/// A call of the file has failed. What a later call of it does is not known.
#[derive(Clone, Copy, Debug, PartialEq, Eq)]
pub struct FileFault;

/// Why a file was not read.
#[derive(Clone, Copy, Debug, PartialEq, Eq)]
pub enum ReadFault {
    /// A request for memory was refused.
    OutOfMemory,
    /// The file has failed.
    Failed,
}

/// A file that is open for adding to it, and that nobody else writes.
pub trait JournalFile {
    /// The file has the first bytes on the disk for certain, and behind them the others, which were handed over since the
    /// last sync. Of a real file nothing is known to a proof: then it is never so.
    ghost has: { Self → List ℕ → List ℕ → Type 0 };

    /// No call has failed.
    ghost usable: { Self → Bool };

    /// How many calls have failed.
    ghost faults: { Self → ℕ };

    /// Whether no call has failed.
    fn is_usable(&self) -> bool
        ensures { result ≡ usable self.now };

    /// All bytes of the file.
    fn read(&mut self, alloc: Global) -> Result<Vec<u8>, ReadFault>
        ensures bytes { IfOk result (λ v. (kept loose : List ℕ) → has self.old kept loose → v.items ≡ kept ++ loose) }
        ensures same { (kept loose : List ℕ) → has self.old kept loose → has self.new kept loose }
        ensures usable { OnOk result (usable self.new ≡ usable self.old) }
        ensures count { faults self.old ≤ faults self.new }
        ensures failed { IsErrOf result Failed → usable self.old ≡ true → faults self.old < faults self.new };

    /// Adds bytes at the end.
    fn append(&mut self, bytes: &[u8]) -> Result<(), FileFault>
        ensures ok { OnOk result (usable self.old ≡ true → (kept loose : List ℕ) → has self.old kept loose →
            has self.new kept (loose ++ bytes.now)) }
        ensures err { OnErr result (usable self.old ≡ true → (kept loose : List ℕ) → has self.old kept loose →
            (n : ℕ) × has self.new kept (loose ++ take n bytes.now)) }
        ensures usable { usable self.new ≡ (usable self.old && is_ok result) }
        ensures count { faults self.old ≤ faults self.new }
        ensures failed { OnErr result (usable self.old ≡ true → faults self.old < faults self.new) };

    /// Brings all of it onto the disk.
    fn sync(&mut self) -> Result<(), FileFault>
        ensures ok { OnOk result (usable self.old ≡ true → (kept loose : List ℕ) → has self.old kept loose →
            has self.new (kept ++ loose) []) }
        ensures err { OnErr result (usable self.old ≡ true → (kept loose : List ℕ) → has self.old kept loose →
            has self.new kept loose) }
        ensures usable { usable self.new ≡ (usable self.old && is_ok result) }
        ensures count { faults self.old ≤ faults self.new }
        ensures failed { OnErr result (usable self.old ≡ true → faults self.old < faults self.new) };

    /// Cuts off what stands behind so many bytes, and brings the rest onto the disk.
    fn cut(&mut self, len: u64) -> Result<(), FileFault>
        ensures ok { OnOk result (usable self.old ≡ true → (kept loose : List ℕ) → has self.old kept loose →
            has self.new (take len (kept ++ loose)) []) }
        ensures err { OnErr result (usable self.old ≡ true → (kept loose : List ℕ) → has self.old kept loose →
            (m : ℕ) × (len ≤ m) × has self.new (take m kept) (drop m kept ++ loose)) }
        ensures usable { usable self.new ≡ (usable self.old && is_ok result) }
        ensures count { faults self.old ≤ faults self.new }
        ensures failed { OnErr result (usable self.old ≡ true → faults self.old < faults self.new) };
}
