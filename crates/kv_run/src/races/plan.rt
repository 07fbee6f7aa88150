//! What the lines of a script ask for, where many workers race.

ghost use Rattle.std.specs.Prelude.{◌≡◌, ◌≢◌, OnOk, IfErr, map};
ghost use Rattle.kv_keys.specs.declared.error.KvError.TheVariants.{OutOfMemory};
ghost use Rattle.kv_model.specs.Requests.{asked};
ghost use Rattle.kv_script.specs.Commands.{meaning_of};
ghost use Rattle.kv_run.specs.Planning.{add, add_request, add_watch, after_command, after_line, nothing, refuse, takes_part};

use kv_keys::{Filters, KvError};
use kv_model::{Options, Request};
use kv_script::{Command, Form, append_refusal, is_skipped, parse, without_return};
use std::alloc::Global;
use std::marker::Model;

/// The most watches of a race.
const MOST_WATCHES: usize = 32;

/// What the lines of a script ask for, where many workers race: writes and watches. It also has the answers to the
/// lines that are refused, which take no part.
pub struct Plan {
    refused: Vec<u8>,
    requests: Vec<Request>,
    watches: Vec<(Filters, Options)>,
}

// Field by field: a derived drop makes each proof longer that owns one.
impl Drop for Plan {
    fn drop(self) {
        let Self {
            refused: _,
            requests: _,
            watches: _,
        } = self;
    }
}

impl Model for Plan {
    ghost use Rattle.std.specs.Prelude.{map};
    ghost use Rattle.kv_model.specs.Requests.{asked};
    ghost use Rattle.kv_run.specs.Planning.{Planned};

    ghost Value = { Planned };

    ghost view = { λ p. record {
      refused = p.refused.items;
      requests = map asked p.requests.items;
      watches = p.watches.items;
    } };
}

/// Whether a line begins with the word of a command that takes part in a race, and a space.
fn takes_part(line: &[u8]) -> bool
    ensures { result ≡ takes_part line.now }
{
    line.starts_with(b"put ")
        || line.starts_with(b"create ")
        || line.starts_with(b"update ")
        || line.starts_with(b"delete ")
        || line.starts_with(b"purge ")
        || line.starts_with(b"watch ")
}

impl Plan {
    /// Before the first line.
    pub fn new(alloc: Global) -> Plan
        ensures { result ≡ nothing }
    {
        Plan {
            refused: Vec::new(alloc),
            requests: Vec::new(alloc),
            watches: Vec::new(alloc),
        }
    }

    /// The answers to the refused lines, the writes and the watches, each in the order of the lines.
    pub fn parts(self) -> (Vec<u8>, Vec<Request>, Vec<(Filters, Options)>)
        ensures refused { result.0.items ≡ self.refused }
        ensures requests { map asked result.1.items ≡ self.requests }
        ensures watches { result.2.items ≡ self.watches }
    {
        let Self {
            refused,
            requests,
            watches,
        } = self;
        (refused, requests, watches)
    }

    fn refuse(&mut self, alloc: Global, error: KvError) -> Result<(), KvError>
        ensures ok { OnOk result (self.new ≡ refuse self.old error) }
        ensures err { IfErr result (λ e. e ≡ OutOfMemory) }
    {
        append_refusal(alloc, &mut self.refused, error)?;
        Ok(())
    }

    fn add_request(&mut self, request: Request) -> Result<(), KvError>
        ensures ok { OnOk result (self.new ≡ add_request self.old (asked request)) }
        ensures err { IfErr result (λ e. e ≡ OutOfMemory) }
    {
        self.requests.push(request)?;
        Ok(())
    }

    fn add_watch(
        &mut self,
        alloc: Global,
        filters: Filters,
        options: Options,
    ) -> Result<(), KvError>
        ensures ok { OnOk result (self.new ≡ add_watch self.old (filters, options)) }
        ensures err { IfErr result (λ e. e ≡ OutOfMemory) }
    {
        if self.watches.len() >= MOST_WATCHES {
            return self.refuse(alloc, KvError::NoReader);
        }
        self.watches.push((filters, options))?;
        Ok(())
    }

    fn add(&mut self, alloc: Global, command: Command) -> Result<(), KvError>
        ensures ok { OnOk result (self.new ≡ add self.old (meaning_of command)) }
        ensures err { IfErr result (λ e. e ≡ OutOfMemory) }
    {
        match command {
            Command::Write(request) => self.add_request(request),
            Command::Watch(filters, options) => self.add_watch(alloc, filters, options),
            _ => self.refuse(alloc, KvError::BadCommand),
        }
    }

    /// A line that is refused is answered, unless memory ran out.
    fn refuse_line(&mut self, alloc: Global, error: KvError) -> Result<(), KvError>
        ensures cause { OnOk result (error ≢ OutOfMemory) }
        ensures ok { OnOk result (self.new ≡ refuse self.old error) }
        ensures err { IfErr result (λ e. e ≡ OutOfMemory) }
    {
        match error {
            KvError::OutOfMemory => Err(KvError::OutOfMemory),
            other => self.refuse(alloc, other),
        }
    }

    /// Takes a line without its end, and without the carriage return before that.
    fn take_command(&mut self, alloc: Global, form: Form, line: &[u8]) -> Result<(), KvError>
        ensures ok { OnOk result (self.new ≡ after_command form self.old line.now) }
        ensures err { IfErr result (λ e. e ≡ OutOfMemory) }
    {
        if is_skipped(line) {
            return Ok(());
        }
        if !takes_part(line) {
            return self.refuse(alloc, KvError::BadCommand);
        }
        match parse(alloc, form, line) {
            Ok(command) => self.add(alloc, command),
            Err(error) => self.refuse_line(alloc, error),
        }
    }

    /// Takes the next line, as it was read, without its line feed. After want of memory nothing is known of the plan.
    #[tactic(auto, unfolding(crate::specs::Planning::after_line))]
    pub fn take_line(&mut self, alloc: Global, form: Form, line: &[u8]) -> Result<(), KvError>
        ensures ok { OnOk result (self.new ≡ after_line form self.old line.now) }
        ensures err { IfErr result (λ e. e ≡ OutOfMemory) }
    {
        self.take_command(alloc, form, without_return(line))
    }
}
