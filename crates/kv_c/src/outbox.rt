//! What stands for a file that the shell writes.

ghost use Rattle.std.specs.Prelude.{◌≡◌, [], false, true};

use kv_file::{FileFault, JournalFile, ReadFault, ReplaceFault, ReplaceableFile};
use std::alloc::Global;

/// A file as Rattle sees it: the shell has read what it had, and writes what it is lent. So no call of this one fails, and
/// none keeps the bytes. What is added, cut and synced is noted, for the shell to do.
#[derive(Drop)]
pub struct Outbox {
    // What the file had, until it is read.
    found: Option<Vec<u8>>,
    // All that was added has been asked onto the disk.
    is_clean: bool,
    // The same, before what was added last.
    was_clean: bool,
}

impl Outbox {
    ghost use Rattle.std.specs.Prelude.{None, Some};

    /// A file that had these bytes, all of them on the disk.
    pub(crate) fn of(found: Vec<u8>) -> Outbox
        ensures { (result.found ≡ Some found) × (result.is_clean ≡ true) }
    {
        Outbox {
            found: Some(found),
            is_clean: true,
            was_clean: true,
        }
    }

    /// A file that the shell is lent the whole of, and brings onto the disk.
    pub(crate) fn lent() -> Outbox
        ensures { (result.found ≡ None) × (result.is_clean ≡ true) }
    {
        Outbox {
            found: None,
            is_clean: true,
            was_clean: true,
        }
    }

    /// Whether a sync was asked for behind all that was added.
    pub(crate) fn is_clean(&self) -> bool
        ensures { result ≡ self.now.is_clean }
    {
        self.is_clean
    }

    /// Whether one was asked for behind all that had been added before.
    pub(crate) fn was_clean(&self) -> bool {
        self.was_clean
    }
}

fn has_none(bytes: &[u8]) -> bool
    ensures yes { result ≡ true → bytes.now ≡ [] }
    ensures no { result ≡ false → bytes.now ≡ [] → ⊥ }
{
    bytes.is_empty()
}

impl JournalFile for Outbox {
    ghost use Rattle.kv_c.specs.Lending.{lends, never_fails, no_faults};

    ghost has = { lends };

    ghost usable = { never_fails };

    ghost faults = { no_faults };

    fn is_usable(&self) -> bool {
        true
    }

    // It is read once, where a bucket is opened.
    fn read(&mut self, _alloc: Global) -> Result<Vec<u8>, ReadFault> {
        match self.found.take() {
            Some(bytes) => Ok(bytes),
            None => Err(ReadFault::OutOfMemory),
        }
    }

    fn append(&mut self, bytes: &[u8]) -> Result<(), FileFault> {
        self.found = None;
        if has_none(bytes) {
            return Ok(());
        }
        self.was_clean = self.is_clean;
        self.is_clean = false;
        Ok(())
    }

    fn sync(&mut self) -> Result<(), FileFault> {
        self.found = None;
        self.is_clean = true;
        Ok(())
    }

    fn cut(&mut self, _len: u64) -> Result<(), FileFault> {
        self.found = None;
        self.is_clean = true;
        Ok(())
    }
}

// The shell puts what it is lent of a new file in the place of the empty one.
impl ReplaceableFile<()> for Outbox {
    fn replace(&mut self, _location: &(), _bytes: Vec<u8>) -> Result<(), ReplaceFault> {
        self.found = None;
        self.is_clean = true;
        Ok(())
    }
}
