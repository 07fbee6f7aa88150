//! A script that is being read for a race: what its lines ask for so far, and the line that has begun.

ghost use Rattle.std.specs.Prelude.{◌≡◌, OnOk, IfErr};
ghost use Rattle.kv_keys.specs.declared.error.KvError.TheVariants.{OutOfMemory};
ghost use Rattle.kv_run.specs.Planning.{after_line, nothing};
ghost use Rattle.kv_run.specs.Races.{no_text};
ghost use Rattle.kv_replay.specs.inside.Reading.{after_bytes, beginning, line_ended, step};

use crate::races::plan::Plan;
use kv_keys::KvError;
use kv_replay::KEPT_BYTES;
use kv_script::Form;
use std::alloc::Global;
use std::marker::Model;

/// A script that is being read for a race.
pub(crate) struct Notes {
    plan: Plan,
    line: Vec<u8>,
}

// Field by field: a derived drop makes each proof longer that owns one.
impl Drop for Notes {
    fn drop(self) {
        let Self { plan: _, line: _ } = self;
    }
}

impl Model for Notes {
    ghost use Rattle.kv_run.specs.Planning.{Planned};
    ghost use Rattle.kv_replay.specs.inside.Reading.{Reading};

    ghost Value = { Reading Planned };

    ghost view = { λ n. record { state = n.plan; line = n.line.items } };
}

impl Notes {
    ghost use Rattle.kv_replay.specs.declared.lines.TheConstants.{KEPT_BYTES};

    /// Before the first line.
    pub(crate) fn new(alloc: Global) -> Notes
        ensures { result ≡ beginning nothing }
    {
        Notes {
            plan: Plan::new(alloc),
            line: Vec::new(alloc),
        }
    }

    /// What the lines that have ended ask for.
    pub(crate) fn plan(self) -> Plan
        ensures { result ≡ self.state }
    {
        let Self { plan, line: _ } = self;
        plan
    }

    /// Takes in the line that has begun.
    pub(crate) fn end_line(&mut self, alloc: Global, form: Form) -> Result<(), KvError>
        ensures ok { OnOk result (self.new ≡ line_ended KEPT_BYTES no_text (after_line form) self.old) }
        ensures err { IfErr result (λ e. e ≡ OutOfMemory) }
    {
        self.plan.take_line(alloc, form, &self.line)?;
        self.line.clear();
        Ok(())
    }

    /// Takes one byte: a line feed ends the line.
    fn take_byte(&mut self, alloc: Global, form: Form, byte: u8) -> Result<(), KvError>
        ensures ok { OnOk result (self.new ≡ step KEPT_BYTES no_text (after_line form) self.old byte) }
        ensures err { IfErr result (λ e. e ≡ OutOfMemory) }
    {
        if byte == b'\n' {
            return self.end_line(alloc, form);
        }
        if self.line.len() <= KEPT_BYTES {
            self.line.push(byte)?;
        }
        Ok(())
    }

    /// Takes the next bytes.
    pub(crate) fn take_bytes(
        &mut self,
        alloc: Global,
        form: Form,
        bytes: &[u8],
    ) -> Result<(), KvError>
        ensures ok { OnOk result (self.new ≡ after_bytes KEPT_BYTES no_text (after_line form) self.old bytes.now) }
        ensures err { IfErr result (λ e. e ≡ OutOfMemory) }
    {
        for byte in bytes {
            self.take_byte(alloc, form, *byte)?;
        }
        Ok(())
    }
}
