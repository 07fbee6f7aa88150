//! The lines of a batch that has begun.

ghost use Rattle.std.specs.Prelude.{◌≡◌, ◌-◌, [], Ok, Err, OnOk, IfErr, IfOk, map};
ghost use Rattle.kv_keys.specs.declared.error.KvError.TheVariants.{OutOfMemory};
ghost use Rattle.kv_model.specs.Requests.{asked};
ghost use Rattle.kv_script.specs.Commands.{line_write};
ghost use Rattle.kv_replay.specs.Faults.{IsRefusal};
ghost use Rattle.kv_replay.specs.inside.Gathering.{asked_more, asked_so_far};

use kv_keys::KvError;
use kv_script::{Form, parse_write};
use kv_single::Request;
use std::alloc::Global;
use std::marker::Model;

/// A batch that has begun: how many of its lines are still to come, and what those that came ask for, up to the first
/// that asks for no write, and why that one doesn't.
pub(crate) struct Batch {
    awaited: u64,
    requests: Vec<Request>,
    refused: Option<KvError>,
}

// Field by field: a derived drop makes each proof longer that owns one.
impl Drop for Batch {
    fn drop(self) {
        let Self {
            awaited: _,
            requests: _,
            refused: _,
        } = self;
    }
}

impl Model for Batch {
    ghost use Rattle.std.specs.Prelude.{map};
    ghost use Rattle.kv_model.specs.Requests.{asked};
    ghost use Rattle.kv_replay.specs.inside.Gathering.{Gathered, asked_so_far};

    ghost Value = { Gathered };

    ghost view = { λ b. record {
      awaited = b.awaited;
      asked = asked_so_far (map asked b.requests.items) b.refused;
    } };
}

/// A refusal that is none of memory.
fn refusal_of(error: KvError) -> Result<KvError, KvError>
    ensures ok { IfOk result (λ e. (e ≡ error) × IsRefusal error) }
    ensures memory { IfErr result (λ e. e ≡ OutOfMemory) }
{
    match error {
        KvError::OutOfMemory => Err(KvError::OutOfMemory),
        other => Ok(other),
    }
}

impl Batch {
    /// Before its first line.
    pub(crate) fn new(alloc: Global, count: u64) -> Batch
        ensures awaited { result.awaited ≡ count }
        ensures asked { result.asked ≡ Ok [] }
    {
        Batch {
            awaited: count,
            requests: Vec::new(alloc),
            refused: None,
        }
    }

    /// How many lines are still to come.
    pub(crate) fn awaited(&self) -> u64
        ensures { result ≡ self.now.awaited }
    {
        self.awaited
    }

    /// The requests of its lines, in order; or of those before the first that asks for no write, and why that one
    /// doesn't.
    pub(crate) fn asked(&self) -> (&[Request], Option<KvError>)
        ensures { asked_so_far (map asked result.0.now) result.1 ≡ self.now.asked }
    {
        (&self.requests, self.refused)
    }

    /// Notes that the next line asks for no write, unless one before it didn't.
    pub(crate) fn refuse(&mut self, error: KvError)
        ensures { self.new ≡ record self.old { asked = asked_more self.old.asked (Err error) } }
    {
        if self.refused.is_none() {
            self.refused = Some(error);
        }
    }

    fn add(&mut self, request: Request) -> Result<(), KvError>
        ensures ok { OnOk result (self.new ≡ record self.old {
          asked = asked_more self.old.asked (Ok (asked request));
        }) }
        ensures err { IfErr result (λ e. e ≡ OutOfMemory) }
    {
        if self.refused.is_none() {
            self.requests.push(request)?;
        }
        Ok(())
    }

    /// Takes its next line, without its end. After want of memory nothing is known of the batch.
    pub(crate) fn take_line(
        &mut self,
        alloc: Global,
        form: Form,
        line: &[u8],
    ) -> Result<(), KvError>
        ensures ok { OnOk result (self.new ≡ record {
          awaited = self.old.awaited - 1;
          asked = asked_more self.old.asked (line_write form line.now);
        }) }
        ensures err { IfErr result (λ e. e ≡ OutOfMemory) }
    {
        self.awaited = self.awaited.saturating_sub(1);
        match parse_write(alloc, form, line) {
            Ok(request) => self.add(request),
            Err(error) => {
                let error = refusal_of(error)?;
                self.refuse(error);
                Ok(())
            }
        }
    }
}
