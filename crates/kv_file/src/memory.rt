//! A file in memory, which can fail, and of which a crash may lose what was not synced.

ghost use Rattle.std.specs.Prelude.{◌≡◌, ◌≤◌, ◌+◌, ◌++◌, [], ℕ, true, false, if◌then◌else◌, not, length, take, IfOk, OnOk};
ghost use Rattle.kv_file.specs.File.{MayLeave};
ghost use Rattle.kv_file.specs.declared.replace.ReplaceFault.TheVariants.{Unchanged, Unknown};

use crate::file::{FileFault, JournalFile, ReadFault};
use crate::replace::{ReplaceFault, ReplaceableFile};
use std::alloc::{AllocError, Global};

/// A file in memory. It fails where a request for memory is refused, and after as many calls as it was told; from then on
/// each call fails.
#[derive(Drop)]
pub struct MemoryFile {
    kept: Vec<u8>,
    loose: Vec<u8>,
    calls: u64,
    broken: bool,
    // How often it was not replaced, and went on.
    refused: u64,
}

/// What a crash leaves of the bytes that were not synced.
#[derive(Clone, Copy, Debug, PartialEq, Eq)]
pub enum Torn {
    /// Themselves.
    Whole,
    /// Zeros.
    Zeros,
    /// Each with all its bits turned.
    Noise,
}

impl MemoryFile {
    /// A file that has these bytes, all of them on the disk.
    pub fn new(alloc: Global, bytes: Vec<u8>) -> MemoryFile
        ensures kept { result.kept.items ≡ bytes.items }
        ensures loose { result.loose.items ≡ [] }
        ensures whole { result.broken ≡ false }
    {
        MemoryFile {
            kept: bytes,
            loose: Vec::new(alloc),
            calls: u64::MAX,
            broken: false,
            refused: 0,
        }
    }

    /// From now on so many calls of `append`, `sync` and `cut` go well, and the next one fails. To replace the file is two
    /// calls: the first writes the new bytes, the second brings their name onto the disk.
    pub fn fail_after(&mut self, calls: u64) {
        self.calls = calls;
    }

    /// The bytes that are on the disk.
    pub fn kept(&self) -> &[u8]
        ensures { result.now ≡ self.now.kept.items }
    {
        &self.kept
    }

    /// The bytes behind them.
    pub fn loose(&self) -> &[u8]
        ensures { result.now ≡ self.now.loose.items }
    {
        &self.loose
    }

    /// What a crash leaves of it where so many bytes of those that were not synced are left, in this state.
    pub fn crashed(&self, alloc: Global, bytes: usize, torn: Torn) -> Result<Vec<u8>, AllocError>
        ensures { IfOk result (λ v. MayLeave self.now.kept.items self.now.loose.items v.items) }
    {
        let mut left = Vec::from_slice(alloc, &self.kept)?;
        let tail = tail_of(alloc, &self.loose, bytes, torn)?;
        left.extend_from_slice(&tail)?;
        Ok(left)
    }

    // Whether this call is to fail.
    fn is_over(&mut self) -> bool
        ensures kept { self.new.kept ≡ self.old.kept }
        ensures loose { self.new.loose ≡ self.old.loose }
        ensures broken { self.new.broken ≡ self.old.broken }
        ensures refused { self.new.refused ≡ self.old.refused }
        ensures over { self.old.broken ≡ true → result ≡ true }
    {
        if self.broken || self.calls == 0 {
            return true;
        }
        self.calls -= 1;
        false
    }

    // The call has failed.
    fn fail(&mut self) -> Result<(), FileFault>
        ensures kept { self.new.kept ≡ self.old.kept }
        ensures loose { self.new.loose ≡ self.old.loose }
        ensures broken { self.new.broken ≡ true }
        ensures refused { self.new.refused ≡ self.old.refused }
        ensures err { OnOk result ⊥ }
    {
        self.broken = true;
        Err(FileFault)
    }

    // It is not replaced, and goes on; where that can no longer be counted, it fails.
    fn stay(&mut self) -> ReplaceFault
        ensures kept { self.new.kept ≡ self.old.kept }
        ensures loose { self.new.loose ≡ self.old.loose }
        ensures stays { result ≡ Unchanged → (self.new.broken ≡ self.old.broken) × (self.new.refused ≡ self.old.refused + 1) }
        ensures stops { result ≡ Unknown → (self.new.broken ≡ true) × (self.new.refused ≡ self.old.refused) }
    {
        if self.refused == u64::MAX {
            self.broken = true;
            return ReplaceFault::Unknown;
        }
        self.refused += 1;
        ReplaceFault::Unchanged
    }

    // The half of the bytes is added, if there is memory.
    fn add_half(&mut self, bytes: &[u8])
        ensures kept { self.new.kept ≡ self.old.kept }
        ensures loose { (n : ℕ) × (self.new.loose.items ≡ self.old.loose.items ++ take n bytes.now) }
        ensures broken { self.new.broken ≡ self.old.broken }
        ensures refused { self.new.refused ≡ self.old.refused }
    {
        let half = &bytes[..bytes.len() / 2];
        let _ = self.loose.extend_from_slice(half);
    }
}

// So many bytes at the front, or all where there are fewer.
fn front(bytes: &[u8], n: usize) -> &[u8]
    ensures { result.now ≡ take n bytes.now }
{
    if n < bytes.len() {
        return &bytes[..n];
    }
    bytes
}

fn byte_of(byte: u8, torn: Torn) -> u8 {
    match torn {
        Torn::Whole => byte,
        Torn::Zeros => 0,
        Torn::Noise => byte ^ 255,
    }
}

fn tail_of(alloc: Global, loose: &[u8], bytes: usize, torn: Torn) -> Result<Vec<u8>, AllocError>
    ensures { IfOk result (λ v. length v.items ≤ length loose.now) }
{
    let mut tail = Vec::new(alloc);
    for byte in front(loose, bytes) {
        tail.push(byte_of(*byte, torn))?;
    }
    Ok(tail)
}

impl JournalFile for MemoryFile {
    ghost has = { λ f kept loose. (kept ≡ f.kept.items) × (loose ≡ f.loose.items) };

    ghost usable = { λ f. not f.broken };

    ghost faults = { λ f. f.refused + (if f.broken then 1 else 0) };

    fn is_usable(&self) -> bool {
        !self.broken
    }

    fn read(&mut self, alloc: Global) -> Result<Vec<u8>, ReadFault> {
        let Ok(mut bytes) = Vec::from_slice(alloc, &self.kept) else {
            return Err(ReadFault::OutOfMemory);
        };
        if bytes.extend_from_slice(&self.loose).is_err() {
            return Err(ReadFault::OutOfMemory);
        }
        Ok(bytes)
    }

    fn append(&mut self, bytes: &[u8]) -> Result<(), FileFault> {
        if self.is_over() {
            self.add_half(bytes);
            return self.fail();
        }
        if self.loose.extend_from_slice(bytes).is_err() {
            return self.fail();
        }
        Ok(())
    }

    fn sync(&mut self) -> Result<(), FileFault> {
        if self.is_over() || self.kept.extend_from_slice(&self.loose).is_err() {
            return self.fail();
        }
        self.loose.clear();
        Ok(())
    }

    fn cut(&mut self, len: u64) -> Result<(), FileFault> {
        let len = len as usize;
        if self.is_over() {
            return self.fail();
        }
        if len <= self.kept.len() {
            self.kept.truncate(len);
            self.loose.clear();
            return Ok(());
        }
        let more = front(&self.loose, len - self.kept.len());
        match self.kept.extend_from_slice(more) {
            Ok(()) => {}
            Err(_) => return self.fail(),
        }
        self.loose.clear();
        Ok(())
    }
}

impl<P> ReplaceableFile<P> for MemoryFile {
    fn replace(&mut self, _place: &P, bytes: Vec<u8>) -> Result<(), ReplaceFault> {
        if self.broken {
            return Err(ReplaceFault::Unknown);
        }
        if self.is_over() {
            return Err(self.stay());
        }
        self.kept = bytes;
        self.loose.clear();
        if self.is_over() {
            self.broken = true;
            return Err(ReplaceFault::Unknown);
        }
        Ok(())
    }
}
