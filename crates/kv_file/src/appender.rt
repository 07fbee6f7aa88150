//! What adds to a file, and brings it onto the disk when that is due.

ghost use Rattle.std.specs.Prelude.{◌≡◌, ◌⊎◌, ◌<◌, ◌≤◌, ◌+◌, ◌^◌, ◌++◌, ◌&&◌, [], ℕ, true, false, is_ok, if◌then◌else◌, nat_lt, List, length, take, IsErrOf, OnErr, OnOk};
ghost use Rattle.kv_file.specs.Adding.{Adds, AddsOne, Fails};
ghost use Rattle.kv_file.specs.Bytes.{Has};
ghost use Rattle.kv_file.specs.declared.appender.Sync.TheVariants.{Each, Every};
ghost use Rattle.kv_file.specs.declared.replace.ReplaceFault.TheVariants.{Unchanged, Unknown};

use crate::file::{FileFault, JournalFile};
use crate::replace::{ReplaceFault, ReplaceableFile};

// So many bytes may be loose when more is added. A journal's frame tells their number in four bytes.
const MOST_LOOSE: u64 = 1_073_741_824;

/// When what is added is brought onto the disk.
#[derive(Clone, Copy, Debug, PartialEq, Eq)]
pub enum Sync {
    /// Each time, before the call answers.
    Each,
    /// Every so many times, before the last of these calls answers.
    Every(u64),
    /// Where `flush` is called, and where a gibibyte is loose.
    Asked,
}

/// A file that is added to. Its last bytes are loose: handed over, and not yet known to be on the disk.
#[derive(Drop)]
pub struct Appender<F: JournalFile> {
    file: F,
    sync: Sync,
    // Where the file ends.
    offset: u64,
    loose: u64,
    // How often it was added to since the last sync.
    waiting: u64,
}

impl<F: JournalFile> Appender<F> {
    /// What adds to a file that ends at this offset, all of it on the disk.
    pub fn new(file: F, offset: u64, sync: Sync) -> Appender<F>
        ensures has { (kept : List ℕ) → F.usable file ≡ true → F.has file kept [] → offset ≡ length kept →
            Has F.has F.usable kept [] result }
        ensures sync { result.sync ≡ sync }
        ensures file { result.file ≡ file }
        ensures none { result.waiting ≡ 0 }
    {
        Appender {
            file,
            sync,
            offset,
            loose: 0,
            waiting: 0,
        }
    }

    /// The file.
    pub fn file(&self) -> &F
        ensures { result.now ≡ self.now.file }
    {
        &self.file
    }

    /// The file, which is added to no more.
    pub fn into_file(self) -> F
        ensures { result ≡ self.file }
    {
        let Appender {
            file,
            sync: _,
            offset: _,
            loose: _,
            waiting: _,
        } = self;
        file
    }

    /// When what is added is brought onto the disk.
    pub fn mode(&self) -> Sync
        ensures { result ≡ self.now.sync }
    {
        self.sync
    }

    /// Where the file ends.
    pub fn offset(&self) -> u64
        ensures { result ≡ self.now.offset }
    {
        self.offset
    }

    // Whether what was added has to be on the disk now.
    fn is_due(&self) -> bool
        ensures each { self.now.sync ≡ Each → result ≡ true }
        ensures every { (n : ℕ) → self.now.sync ≡ Every n → n ≤ self.now.waiting → result ≡ true }
        ensures fits { (n : ℕ) → self.now.sync ≡ Every n → n < 2 ^ 64 }
    {
        match self.sync {
            Sync::Each => true,
            Sync::Every(n) => n <= self.waiting,
            Sync::Asked => false,
        }
    }

    /// How many bytes will be loose before those that are added next: none where there are more than a gibibyte, since these
    /// are then brought onto the disk first.
    pub fn loose_ahead(&self) -> u32
        ensures { result ≡ (if nat_lt 1073741824 self.now.loose then 0 else self.now.loose) }
    {
        if self.loose > MOST_LOOSE {
            return 0;
        }
        self.loose as u32
    }

    /// Brings all onto the disk.
    pub fn flush(&mut self) -> Result<(), FileFault>
        ensures ok { OnOk result ((kept loose : List ℕ) → Has F.has F.usable kept loose self.old →
            Has F.has F.usable (kept ++ loose) [] self.new) }
        ensures count { OnOk result ((self.new.loose ≡ 0) × (self.new.waiting ≡ 0)) }
        ensures err { OnErr result ((kept loose : List ℕ) → Has F.has F.usable kept loose self.old →
            F.has self.new.file kept loose) }
        ensures offset { self.new.offset ≡ self.old.offset }
        ensures same { self.new.sync ≡ self.old.sync }
        ensures usable { F.usable self.new.file ≡ (F.usable self.old.file && is_ok result) }
        ensures faults { F.faults self.old.file ≤ F.faults self.new.file }
        ensures failed { OnErr result (F.usable self.old.file ≡ true →
            F.faults self.old.file < F.faults self.new.file) }
    {
        self.file.sync()?;
        self.loose = 0;
        self.waiting = 0;
        Ok(())
    }

    // Brings all onto the disk where more is loose than may be.
    fn make_room(&mut self) -> Result<(), FileFault>
        ensures ok { OnOk result ((kept loose : List ℕ) → Has F.has F.usable kept loose self.old →
            (Has F.has F.usable kept loose self.new × (self.new.waiting ≡ self.old.waiting))
            ⊎ (Has F.has F.usable (kept ++ loose) [] self.new × (self.new.waiting ≡ 0))) }
        ensures few { OnOk result (self.new.loose ≤ 1073741824) }
        ensures err { OnErr result ((kept loose : List ℕ) → Has F.has F.usable kept loose self.old →
            F.has self.new.file kept loose) }
        ensures offset { self.new.offset ≡ self.old.offset }
        ensures same { self.new.sync ≡ self.old.sync }
        ensures usable { F.usable self.new.file ≡ (F.usable self.old.file && is_ok result) }
        ensures faults { F.faults self.old.file ≤ F.faults self.new.file }
        ensures failed { OnErr result (F.usable self.old.file ≡ true →
            F.faults self.old.file < F.faults self.new.file) }
    {
        if self.loose > MOST_LOOSE {
            return self.flush();
        }
        Ok(())
    }

    // Adds bytes, and leaves them loose.
    fn append(&mut self, bytes: &[u8]) -> Result<(), FileFault>
        requires room { self.old.offset < 2 ^ 62 }
        requires few { self.old.loose ≤ 1073741824 }
        requires short { length bytes.now < 2 ^ 33 }
        ensures ok { OnOk result ((kept loose : List ℕ) → Has F.has F.usable kept loose self.old →
            Has F.has F.usable kept (loose ++ bytes.now) self.new) }
        ensures err { OnErr result ((kept loose : List ℕ) → Has F.has F.usable kept loose self.old →
            (n : ℕ) × F.has self.new.file kept (loose ++ take n bytes.now)) }
        ensures count { OnOk result (self.old.waiting < u64.MAX → self.new.waiting ≡ self.old.waiting + 1) }
        ensures same { self.new.sync ≡ self.old.sync }
        ensures usable { F.usable self.new.file ≡ (F.usable self.old.file && is_ok result) }
        ensures faults { F.faults self.old.file ≤ F.faults self.new.file }
        ensures failed { OnErr result (F.usable self.old.file ≡ true →
            F.faults self.old.file < F.faults self.new.file) }
    {
        self.file.append(bytes)?;
        self.offset += bytes.len() as u64;
        self.loose += bytes.len() as u64;
        self.waiting = self.waiting.saturating_add(1);
        Ok(())
    }

    /// Adds bytes at the end, and brings all onto the disk where that is due. It asks for fewer than 2^33 bytes, and for a
    /// file of fewer than 2^62.
    pub fn add(&mut self, bytes: &[u8]) -> Result<(), FileFault>
        requires room { self.old.offset < 2 ^ 62 }
        requires short { length bytes.now < 2 ^ 33 }
        ensures ok { OnOk result ((kept loose : List ℕ) → Has F.has F.usable kept loose self.old →
            (k : List ℕ) × (l : List ℕ) × Adds kept loose bytes.now k l × Has F.has F.usable k l self.new
            × ((n : ℕ) → self.old.sync ≡ Every n → self.old.waiting < n →
            AddsOne self.old.waiting self.new.waiting kept loose bytes.now k l)) }
        ensures each { OnOk result (self.old.sync ≡ Each → self.new.loose ≡ 0) }
        ensures every { OnOk result ((n : ℕ) → self.old.sync ≡ Every n → 0 < n → self.new.waiting < n) }
        ensures err { OnErr result ((kept loose : List ℕ) → Has F.has F.usable kept loose self.old →
            (k : List ℕ) × (l : List ℕ) × Fails kept loose bytes.now k l × F.has self.new.file k l) }
        ensures same { self.new.sync ≡ self.old.sync }
        ensures usable { F.usable self.new.file ≡ (F.usable self.old.file && is_ok result) }
        ensures faults { F.faults self.old.file ≤ F.faults self.new.file }
        ensures failed { OnErr result (F.usable self.old.file ≡ true →
            F.faults self.old.file < F.faults self.new.file) }
    {
        self.make_room()?;
        self.append(bytes)?;
        if self.is_due() {
            return self.flush();
        }
        Ok(())
    }

    /// Puts these bytes in the place of all that the file has, all of them on the disk.
    pub fn replace<P>(&mut self, location: &P, bytes: Vec<u8>) -> Result<(), ReplaceFault>
    where
        F: ReplaceableFile<P>,
        ensures ok { OnOk result ((kept loose : List ℕ) → Has F.has F.usable kept loose self.old →
            Has F.has F.usable bytes.items [] self.new) }
        ensures none { OnOk result ((self.new.loose ≡ 0) × (self.new.waiting ≡ 0)) }
        ensures unchanged { IsErrOf result Unchanged → (kept loose : List ℕ) → Has F.has F.usable kept loose self.old →
            Has F.has F.usable kept loose self.new }
        ensures unknown { IsErrOf result Unknown → (kept loose : List ℕ) → Has F.has F.usable kept loose self.old →
            F.has self.new.file kept loose ⊎ F.has self.new.file bytes.items [] }
        ensures stays { IsErrOf result Unchanged → F.usable self.new.file ≡ F.usable self.old.file }
        ensures stops { IsErrOf result Unknown → F.usable self.new.file ≡ false }
        ensures offset { OnErr result (self.new.offset ≡ self.old.offset) }
        ensures count { OnErr result (self.new.waiting ≡ self.old.waiting) }
        ensures same { self.new.sync ≡ self.old.sync }
        ensures faults { F.faults self.old.file ≤ F.faults self.new.file }
        ensures failed { OnErr result (F.usable self.old.file ≡ true →
            F.faults self.old.file < F.faults self.new.file) }
    {
        let len = bytes.len() as u64;
        self.file.replace(location, bytes)?;
        self.offset = len;
        self.loose = 0;
        self.waiting = 0;
        Ok(())
    }
}
