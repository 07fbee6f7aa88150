//! What a take hands out, and a write as a watch shows it.

ghost use Rattle.std.specs.Prelude.{◌≡◌};
ghost use Rattle.std.specs.Option.{option_map, option_copied};
ghost use Rattle.kv_model.specs.further.Events.{event_of};
ghost use Rattle.kv_model.specs.Given.{entry_of};
ghost use Rattle.kv_model.specs.further.Showing.{is_shown};
ghost use Rattle.kv_watch.specs.Taking.{item_taken, entry_shown};

use kv_keys::{Filters, Key};
use kv_model::{Event, Op, Options, Write};

/// What a take hands out.
#[derive(Drop)]
pub enum Taken<'a> {
    /// An entry, initial or live.
    Entry(Shown<'a>),
    /// The end of the initial entries.
    Marker,
    /// All that the watch is given by now was handed out.
    Empty,
}

impl<'a> Taken<'a> {
    /// The item by its revision alone, which lends nothing; none where all was handed out.
    pub fn event(&self) -> Option<Event>
        ensures { result ≡ option_map event_of (item_taken self.now) }
    {
        match self {
            Taken::Entry(shown) => Some(Event::Entry {
                revision: shown.revision(),
            }),
            Taken::Marker => Some(Event::Marker),
            Taken::Empty => None,
        }
    }
}

/// A write as a watch shows it, lent from the version: nothing is copied.
///
/// Contracts see the entry that it shows as `entry_shown`. It has no model of its own, since a call that lends it from
/// what it changes can then say what is left behind.
#[derive(Drop)]
pub struct Shown<'a> {
    write: &'a Write,
    headers_only: bool,
}

impl<'a> Shown<'a> {
    /// A write with its value or, where only headers are shown, without. A marker has none.
    pub fn new(write: &'a Write, headers_only: bool) -> Shown<'a>
        ensures { entry_shown result ≡ entry_of headers_only write.now }
    {
        Shown {
            write,
            headers_only,
        }
    }

    /// The key that was written.
    pub fn key(&self) -> &'a Key
        ensures { result.now ≡ (entry_shown self.now).key }
    {
        self.write.key()
    }

    /// What the write did.
    pub fn op(&self) -> Op
        ensures { result ≡ (entry_shown self.now).op }
    {
        self.write.op()
    }

    /// The revision of the write.
    pub fn revision(&self) -> u64
        ensures { result ≡ (entry_shown self.now).revision }
    {
        self.write.revision()
    }

    /// How many bytes the value has, also where it isn't shown; 0 for a marker.
    pub fn size(&self) -> u64
        ensures { result ≡ (entry_shown self.now).size }
    {
        self.write.value().len() as u64
    }

    /// The value. There is none for a marker, and where the watch asked for no values.
    pub fn value(&self) -> Option<&'a [u8]>
        ensures { option_copied result ≡ (entry_shown self.now).value }
    {
        if self.write.op().is_put() && !self.headers_only {
            return Some(self.write.value());
        }
        None
    }
}

/// Whether a watch with these filters and options shows a write.
pub(crate) fn is_shown(filters: &Filters, options: Options, write: &Write) -> bool
    ensures { result ≡ is_shown filters.now options write.now }
{
    filters.matches(write.key()) && !(options.ignore_deletes && !write.op().is_put())
}
