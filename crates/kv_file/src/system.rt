//! A file of the system.
//!
//! Nothing can be proved of what the system keeps: what is promised of a file rests on the calls below being these.

ghost use Rattle.std.specs.Prelude.{◌≡◌, ◌+◌, true, false, is_ok, not, if◌then◌else◌, IfOk};
ghost use Rattle.kv_file.specs.declared.replace.ReplaceFault.TheVariants.{Unchanged, Unknown};

use crate::file::{FileFault, JournalFile, ReadFault};
use crate::replace::{ReplaceFault, ReplaceableFile};
use std::alloc::Global;
use std::fs::{self, File, Files, OpenOptions, TryLockError};
use std::io::{self, ErrorKind, Read, Seek, SeekFrom, Write};
use std::os::unix::fs::MetadataExt;
use std::path::Path;

/// Why a file of the system was not opened.
#[derive(Clone, Copy, Debug, PartialEq, Eq)]
pub enum OpenFault {
    /// Another opening has the file, in this process or another.
    Busy,
    /// The system refused a call, or the path names something else than a file.
    Failed,
}

impl From<io::Error> for OpenFault {
    ghost use Rattle.std.specs.Prelude.{◌≡◌};
    ghost use Rattle.kv_file.specs.declared.system.OpenFault.TheVariants.{Failed};

    ghost from_gives = { λ _ fault. fault ≡ Failed };

    fn from(_error: io::Error) -> OpenFault {
        OpenFault::Failed
    }
}

impl From<TryLockError> for OpenFault {
    ghost use Rattle.std.specs.Prelude.{◌≡◌};
    ghost use Rattle.kv_file.specs.Locking.{lock_fault};

    ghost from_gives = { λ error fault. fault ≡ lock_fault error };

    fn from(error: TryLockError) -> OpenFault {
        match error {
            TryLockError::WouldBlock => OpenFault::Busy,
            TryLockError::Error(_) => OpenFault::Failed,
        }
    }
}

/// A file of the system, locked until it is dropped. Where a call has failed each later one does, and does not reach the
/// system: a second sync can succeed though the first one lost bytes.
#[derive(Drop)]
pub struct SystemFile {
    file: File,
    broken: bool,
    // How often it was not replaced, and went on.
    refused: u64,
}

/// Where a file of the system lies.
#[derive(Drop)]
pub struct SystemLocation<'a, R> {
    pub rt: &'a R,
    /// The path that it was opened with.
    pub path: &'a str,
    /// The path of the file that takes its place, in the same folder. What is there is overwritten.
    pub next: &'a str,
}

// Brings the name of a new file onto the disk. Only its folder has it.
fn sync_folder<R: Files<File = File>>(rt: &R, path: &str) -> io::Result<()> {
    let folder = match Path::new(path).parent() {
        Some(folder) => folder.to_string_lossy(),
        None => "",
    };
    let folder = if folder.is_empty() { "." } else { folder };
    File::open(rt, folder)?.sync_all()
}

// All bytes, from the front.
fn read_all(alloc: Global, file: &mut File) -> io::Result<Vec<u8>> {
    let mut bytes = Vec::new(alloc);
    file.seek(SeekFrom::Start(0))?;
    file.read_to_end(&mut bytes)?;
    Ok(bytes)
}

// Cuts off what stands behind so many bytes, and brings the rest onto the disk.
fn shorten(file: &File, len: u64) -> io::Result<()> {
    file.set_len(len)?;
    file.sync_data()
}

// Whether the path still names this file.
fn is_there<R: Files<File = File>>(rt: &R, path: &str, file: &File) -> io::Result<bool> {
    let own = file.metadata()?;
    let found = File::open(rt, path)?.metadata()?;
    Ok(found.dev() == own.dev() && found.ino() == own.ino())
}

// A file of this path with these bytes, and with the permissions of the old one, on the disk, and locked.
fn written<R: Files<File = File>>(
    rt: &R,
    path: &str,
    old: &File,
    bytes: &[u8],
) -> Result<File, OpenFault> {
    let mut file = OpenOptions::new()
        .read(true)
        .append(true)
        .create(true)
        .open(rt, path)?;
    file.try_lock()?;
    file.set_len(0)?;
    file.set_permissions(old.metadata()?.permissions())?;
    file.write_all(bytes)?;
    file.sync_all()?;
    Ok(file)
}

// A file with these bytes in the place of the one that lies there. It is locked before it has that name.
fn put_in_place<R: Files<File = File>>(
    location: &SystemLocation<'_, R>,
    file: &File,
    bytes: &[u8],
) -> Result<File, OpenFault> {
    if !is_there(location.rt, location.path, file)? {
        return Err(OpenFault::Failed);
    }
    let next = written(location.rt, location.next, file, bytes)?;
    fs::rename(location.rt, location.next, location.path)?;
    Ok(next)
}

impl SystemFile {
    /// Opens the file of this path, or makes an empty one, and locks it: no other opening succeeds until this one is
    /// dropped. The system drops the lock with the process, however that ends, so a crash leaves none. The lock
    /// (`flock`) keeps out only who asks for it: nothing stops another program from writing the file.
    ///
    /// An empty file's folder is brought onto the disk, so that a crash does not take its name away. A file that was
    /// replaced between its opening and its locking is busy: try again.
    pub fn open<R: Files<File = File>>(rt: &R, path: &str) -> Result<SystemFile, OpenFault>
        ensures { IfOk result (λ f. f.broken ≡ false) }
    {
        let file = OpenOptions::new()
            .read(true)
            .append(true)
            .create(true)
            .open(rt, path)?;
        file.try_lock()?;
        let found = file.metadata()?;
        if !found.is_file() {
            return Err(OpenFault::Failed);
        }
        if !is_there(rt, path, &file)? {
            return Err(OpenFault::Busy);
        }
        if found.len() == 0 {
            sync_folder(rt, path)?;
        }
        Ok(SystemFile {
            file,
            broken: false,
            refused: 0,
        })
    }

    // Refused where a call has failed.
    fn may_call(&self) -> Result<(), FileFault>
        ensures { is_ok result ≡ not self.now.broken }
    {
        if self.broken {
            return Err(FileFault);
        }
        Ok(())
    }

    // How a call of the system has ended. Where it failed, the file is broken.
    fn ended(&mut self, done: io::Result<()>) -> Result<(), FileFault>
        ensures broken { self.new.broken ≡ (if is_ok result then self.old.broken else true) }
        ensures refused { self.new.refused ≡ self.old.refused }
    {
        if done.is_err() {
            self.broken = true;
            return Err(FileFault);
        }
        Ok(())
    }

    // It is not replaced, and goes on; where that can no longer be counted, it fails.
    fn stay(&mut self) -> ReplaceFault
        ensures stays { result ≡ Unchanged → (self.new.broken ≡ self.old.broken) × (self.new.refused ≡ self.old.refused + 1) }
        ensures stops { result ≡ Unknown → (self.new.broken ≡ true) × (self.new.refused ≡ self.old.refused) }
    {
        if self.refused == u64::MAX {
            self.broken = true;
            return ReplaceFault::Unknown;
        }
        self.refused += 1;
        ReplaceFault::Unchanged
    }
}

impl JournalFile for SystemFile {
    // What the system has is not known to a proof.
    ghost has = { λ _ _ _. ⊥ };

    ghost usable = { λ f. not f.broken };

    ghost faults = { λ f. f.refused + (if f.broken then 1 else 0) };

    fn is_usable(&self) -> bool {
        !self.broken
    }

    fn read(&mut self, alloc: Global) -> Result<Vec<u8>, ReadFault> {
        match read_all(alloc, &mut self.file) {
            Ok(bytes) => Ok(bytes),
            Err(error) if error.kind() == ErrorKind::OutOfMemory => Err(ReadFault::OutOfMemory),
            Err(_) => {
                self.broken = true;
                Err(ReadFault::Failed)
            }
        }
    }

    fn append(&mut self, bytes: &[u8]) -> Result<(), FileFault> {
        self.may_call()?;
        let done = self.file.write_all(bytes);
        self.ended(done)
    }

    fn sync(&mut self) -> Result<(), FileFault> {
        self.may_call()?;
        let done = self.file.sync_data();
        self.ended(done)
    }

    fn cut(&mut self, len: u64) -> Result<(), FileFault> {
        self.may_call()?;
        let done = shorten(&self.file, len);
        self.ended(done)
    }
}

// The new file is written, synced and locked before it takes the name of the old one, whose lock goes behind that.
impl<'a, R: Files<File = File>> ReplaceableFile<SystemLocation<'a, R>> for SystemFile {
    fn replace(
        &mut self,
        location: &SystemLocation<'a, R>,
        bytes: Vec<u8>,
    ) -> Result<(), ReplaceFault> {
        if self.broken {
            return Err(ReplaceFault::Unknown);
        }
        let Ok(next) = put_in_place(location, &self.file, &bytes) else {
            return Err(self.stay());
        };
        self.file = next;
        if sync_folder(location.rt, location.path).is_err() {
            self.broken = true;
            return Err(ReplaceFault::Unknown);
        }
        Ok(())
    }
}
