//! The file of a bucket, as Rattle has it.

ghost use Rattle.std.specs.Prelude.{◌≡◌, ◌<◌, ◌^◌, ◌++◌, [], List, true, false, length, OnErr, OnOk};
ghost use Rattle.kv_c.specs.Filing.{is_stopped};
ghost use Rattle.kv_c.specs.Lending.{lends, never_fails};
ghost use Rattle.kv_durable.specs.Bases.{Base};
ghost use Rattle.kv_durable.specs.Journals.{AddsFrames, Keeps};
ghost use Rattle.kv_file.specs.declared.appender.Sync.TheVariants.{Each};
ghost use Rattle.kv_journal.specs.Entries.{Entry};

use crate::outbox::Outbox;
use kv_durable::Journal;
use kv_file::FileFault;

/// The file of a bucket: its journal, and the number by which the shell knows it.
#[derive(Drop)]
pub struct Filed {
    pub(crate) journal: Box<Journal<Outbox>>,
    pub(crate) number: u64,
    /// The shell has failed to write what it was lent.
    pub(crate) has_failed: bool,
}

/// When the shell brings the file onto the disk.
#[derive(Clone, Copy)]
pub struct Syncs {
    /// Before it writes what it is lent.
    pub before: bool,
    /// When it has written that.
    pub behind: bool,
}

impl Filed {
    /// Refused where nothing more is added: the file has failed, or is full.
    pub(crate) fn may_add(&self) -> Result<(), FileFault>
        ensures ok { OnOk result (is_stopped self.now ≡ false) }
        ensures err { OnErr result (is_stopped self.now ≡ true) }
    {
        if self.has_failed {
            return Err(FileFault);
        }
        self.journal.may_add()
    }

    /// Whether a sync was asked for behind all that was added.
    pub(crate) fn is_clean(&self) -> bool
        ensures { result ≡ self.now.journal.value.appender.file.is_clean }
    {
        self.journal.file().is_clean()
    }

    /// Adds frames to the journal, and tells when they are synced.
    pub(crate) fn add(&mut self, frames: &[u8]) -> Syncs
        requires goes { is_stopped self.old ≡ false }
        requires short { length frames.now < 2 ^ 33 }
        ensures added { AddsFrames lends never_fails frames.now self.old.journal.value self.new.journal.value }
        ensures each { self.old.journal.value.appender.sync ≡ Each → self.new.journal.value.appender.loose ≡ 0 }
        ensures behind { result.behind ≡ self.new.journal.value.appender.file.is_clean }
        ensures framing { self.new.journal.value.framing ≡ self.old.journal.value.framing }
        ensures sync { self.new.journal.value.appender.sync ≡ self.old.journal.value.appender.sync }
        ensures same { (self.new.number ≡ self.old.number) × (self.new.has_failed ≡ self.old.has_failed) }
    {
        let was_clean = self.journal.file().is_clean();
        match self.journal.add(frames) {
            Ok(()) => {}
            Err(_) => unreachable!(),
        }
        let file = self.journal.file();
        Syncs {
            before: file.was_clean() && !was_clean,
            behind: file.is_clean(),
        }
    }

    /// Has all of the journal brought onto the disk.
    pub(crate) fn flush(&mut self)
        ensures flushed { (base : Base) (kept loose : List Entry) →
            Keeps lends never_fails base kept loose self.old.journal.value →
            Keeps lends never_fails base (kept ++ loose) [] self.new.journal.value }
        ensures framing { self.new.journal.value.framing ≡ self.old.journal.value.framing }
        ensures sync { self.new.journal.value.appender.sync ≡ self.old.journal.value.appender.sync }
        ensures offset { self.new.journal.value.appender.offset ≡ self.old.journal.value.appender.offset }
        ensures same { (self.new.number ≡ self.old.number) × (self.new.has_failed ≡ self.old.has_failed) }
    {
        match self.journal.flush() {
            Ok(()) => {}
            Err(_) => unreachable!(),
        }
    }
}
