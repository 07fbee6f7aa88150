//! The end of the two copies that publishes.

ghost use Rattle.std.specs.Prelude.{◌≡◌, ◌<◌, ◌^◌, ◌++◌, ◌∷◌, [], IfSome, IfErr, MatchResult, drop};
ghost use Rattle.kv_keys.specs.declared.error.KvError.TheVariants.{OutOfMemory, NoReader};
ghost use Rattle.kv_publish.specs.Publications.{IsOf};
ghost use Rattle.kv_publish.specs.inside.Waiting.{waiting};

use crate::protocol::LiveName;
use crate::publication::Publication;
use crate::rule::{PublishRule, Shows};
use crate::side::{Right, Side};
use kv_keys::KvError;
use left_right::reader::Reader as Slot;
use left_right::writer::Writer;
use std::alloc::Global;
use std::marker::Model;
use std::mem::ManuallyDrop;
use std::sync::Wait;

/// The store of the opening N: it takes both rights of a copy, so there is one for a name. Contracts see it as the acts
/// that are published. It is not `Drop`: end it by `close`. The writer lies in a `ManuallyDrop`, since a lock asks how to
/// drop what it holds, and no code can drop a writer.
pub struct DoubleBuffer<N: LiveName> {
    writer: ManuallyDrop<Writer<Side, Publication, (), PublishRule<N>>>,
}

impl<N: LiveName> Model for DoubleBuffer<N> {
    ghost use Rattle.std.specs.Prelude.{List};
    ghost use Rattle.std.specs.Mem.{manually_drop_value};
    ghost use Rattle.kv_model.specs.Acts.{Act};

    ghost Value = { List Act };

    ghost view = { λ p. (manually_drop_value p.writer).desk.shown.value.publication.raw_prefix.acts };
}

// A writer that shows two copies of a publication.
fn writer_on<N: LiveName>(
    alloc: Global,
    first: Right<N>,
    second: Right<N>,
    publication: &Publication,
    readers: usize,
) -> Result<Writer<Side, Publication, (), PublishRule<N>>, KvError>
    requires of { IsOf N.opening publication.now }
    requires readers { (0 < readers) × (readers < 2 ^ 32) }
    ensures { MatchResult result (λ w. w.desk.shown.value.publication.raw_prefix.acts ≡ publication.now.raw_prefix.acts)
        (λ e. e ≡ OutOfMemory) }
{
    let first = Side::new(publication.try_clone()?, first);
    let second = Side::new(publication.try_clone()?, second);
    Ok(Writer::new(alloc, first, second, readers)?)
}

// Appends a publication, if there is one, to what is pending. It answers the publication where that is refused.
fn append<N: LiveName>(
    writer: &mut Writer<Side, Publication, (), PublishRule<N>>,
    publication: Option<Publication>,
) -> Option<Publication>
    ensures shown { writer.new.desk.shown.value ≡ writer.old.desk.shown.value }
    ensures pending { drop writer.new.behind writer.new.log.items ++ waiting result
        ≡ drop writer.old.behind writer.old.log.items ++ waiting publication }
{
    match publication {
        Some(publication) => writer.append(publication).err(),
        None => None,
    }
}

// Shows a publication, however often that is refused. It never is: what is pending has its room since the beginning, and no
// version is shared as often as can be counted. But no clause of the store says so, and behind the history's entry there
// is no way back: what the history has has to be shown. So this is tried until it is done, as a call that waits may.
fn show<N: LiveName, R: Wait>(
    rt: &R,
    writer: Writer<Side, Publication, (), PublishRule<N>>,
    publication: Publication,
) -> DoubleBuffer<N>
    requires { IsOf N.opening publication }
    ensures { result ≡ publication.raw_prefix.acts }
{
    let mut writer = writer;
    let mut offered = Some(publication);
    for _ in rt.forever() {
        offered = append(&mut writer, offered);
        if offered.is_some() {
            continue;
        }
        let (left, shown) = writer.publish_as::<Shows, R>(rt);
        if shown.is_ok() {
            return DoubleBuffer::of(left);
        }
        writer = left;
    }
    unreachable!()
}

impl<N: LiveName> DoubleBuffer<N> {
    fn of(writer: Writer<Side, Publication, (), PublishRule<N>>) -> DoubleBuffer<N>
        ensures { result ≡ writer.desk.shown.value.publication.raw_prefix.acts }
    {
        // `close` and `publish` take it out again.
        let writer = unsafe { ManuallyDrop::new_unchecked(writer) };
        DoubleBuffer { writer }
    }

    /// Two copies of a publication, with room for so many readers. The third is the first that is pending: it makes the room
    /// in which all later ones find a place.
    pub fn new<R: Wait>(
        rt: &R,
        alloc: Global,
        first: Right<N>,
        second: Right<N>,
        publication: &Publication,
        readers: usize,
    ) -> Result<DoubleBuffer<N>, KvError>
        requires of { IsOf N.opening publication.now }
        requires readers { (0 < readers) × (readers < 2 ^ 32) }
        ensures { MatchResult result (λ p. p ≡ publication.now.raw_prefix.acts) (λ e. e ≡ OutOfMemory) }
    {
        let third = publication.try_clone()?;
        let writer = writer_on(alloc, first, second, publication, readers)?;
        DoubleBuffer::pending(rt, writer, third).ok_or(KvError::OutOfMemory)
    }

    // The copies with a publication that is pending. Where it is refused they have ended.
    fn pending<R: Wait>(
        rt: &R,
        mut writer: Writer<Side, Publication, (), PublishRule<N>>,
        publication: Publication,
    ) -> Option<DoubleBuffer<N>>
        ensures { IfSome result (λ p. p ≡ writer.desk.shown.value.publication.raw_prefix.acts) }
    {
        let refused = writer.append(publication).is_err();
        let buffer = DoubleBuffer::of(writer);
        if refused {
            buffer.close(rt);
            return None;
        }
        Some(buffer)
    }

    /// A new place for a reader.
    pub fn slot(&self) -> Result<Slot<Side, (), PublishRule<N>>, KvError>
        ensures { IfErr result (λ e. e ≡ NoReader) }
    {
        match self.writer.factory().reader() {
            Ok(slot) => Ok(slot),
            Err(_) => Err(KvError::NoReader),
        }
    }

    /// Publishes a publication. What is pending is replaced by it. It waits for those that read the other copy, and, where the
    /// store refuses it, until it doesn't. It never refuses it.
    pub fn publish<R: Wait>(self, rt: &R, publication: Publication) -> DoubleBuffer<N>
        requires { IsOf N.opening publication }
        ensures { result ≡ publication.raw_prefix.acts }
    {
        let DoubleBuffer { writer } = self;
        show(rt, ManuallyDrop::into_inner(writer), publication)
    }

    /// Ends it. It waits for the readers that are reading.
    pub fn close<R: Wait>(self, rt: &R) {
        let DoubleBuffer { writer } = self;
        drop(ManuallyDrop::into_inner(writer).take(rt));
    }
}
