//! What the lines of a script have come to: what it runs on, and the batch that has begun.

ghost use Rattle.std.specs.Prelude.{◌≡◌, ◌++◌, [], None, Some, Ok, OnOk, OnErr, IfErr, IsErrOf};
ghost use Rattle.kv_single.specs.Held.{Represents};
ghost use Rattle.kv_model.specs.State.{State};
ghost use Rattle.kv_script.specs.Commands.{line_command, meaning_of};
ghost use Rattle.kv_replay.specs.Batches.{Asks, all_asked};
ghost use Rattle.kv_replay.specs.Faults.{IsWriteOrMemory};
ghost use Rattle.kv_replay.specs.Replaying.{HasActs};
ghost use Rattle.kv_replay.specs.Sessions.{Begun, Session, batch_goes_on, batch_size, counted_turn, end_text, turn};
ghost use Rattle.kv_replay.specs.inside.Gathering.{gathered};
ghost use Rattle.kv_replay.specs.inside.Leaving.{LeavesLine};
ghost use Rattle.kv_replay.specs.inside.Scripted.{Stands, held};
ghost use Rattle.kv_replay.specs.inside.Written.{Pours, PoursFront, Puts};

use crate::answer::{pour_command, pour_refusal};
use crate::batch::Batch;
use crate::batches::pour_batch;
use crate::output::Output;
use crate::target::Target;
use kv_keys::KvError;
use kv_script::{Command, Form, is_skipped, parse};
use std::alloc::Global;

/// What the lines of a script have come to: what it runs on, and the batch that has begun, if one has.
#[derive(Drop)]
pub(crate) struct Interpreter<T: Target> {
    pub(crate) target: T,
    pub(crate) batch: Option<Batch>,
}

/// How many lines a batch has that a command begins.
fn batch_size(command: &Command) -> Option<u64>
    ensures { result ≡ batch_size (Ok (meaning_of command.now)) }
{
    match command {
        Command::Batch(count) => Some(*count),
        _ => None,
    }
}

impl<T: Target> Interpreter<T> {
    /// Before the first line.
    pub(crate) fn new(target: T) -> Interpreter<T>
        ensures target { result.target ≡ target }
        ensures batch { result.batch ≡ None }
    {
        Interpreter {
            target,
            batch: None,
        }
    }

    /// Ends a batch, unless lines of it are still to come.
    fn go_on<K: Output>(
        &mut self,
        alloc: Global,
        batch: Batch,
        out: &mut Vec<u8>,
        sink: &mut K,
    ) -> Result<(), KvError>
        ensures same { K.goes_on sink.old sink.new }
        ensures kept { T.goes_on self.old.target self.new.target }
        ensures ok { OnOk result ((s : State) (asks : Asks) → Represents s (T.bucket self.old.target) → batch.asked ≡ all_asked asks →
            Pours (batch_goes_on s batch.awaited asks).0 (K.held sink.old) out.old.items
            (K.held sink.new) out.new.items
            × Stands (batch_goes_on s batch.awaited asks).1 (held T.bucket self.new)) }
        ensures write_fault { IsErrOf result KvError.WriteFault →
            K.failed_between sink.old sink.new × ((s : State) (asks : Asks) → Represents s (T.bucket self.old.target) →
            batch.asked ≡ all_asked asks →
            Puts (out.old.items ++ (batch_goes_on s batch.awaited asks).0) (K.held sink.old) (K.held sink.new)) }
        ensures memory { IsErrOf result KvError.OutOfMemory →
            Pours [] (K.held sink.old) out.old.items (K.held sink.new) out.new.items }
        ensures left { OnErr result ((s : State) (asks : Asks) → Represents s (T.bucket self.old.target) → batch.asked ≡ all_asked asks →
            LeavesLine s.acts (batch_goes_on s batch.awaited asks).1.state.acts (T.bucket self.new.target)
            (K.held sink.old) out.old.items (K.held sink.new) out.new.items) }
        ensures fault { IfErr result IsWriteOrMemory }
    {
        if batch.awaited() == 0 {
            self.batch = None;
            return pour_batch(alloc, &mut self.target, &batch, out, sink);
        }
        self.batch = Some(batch);
        Ok(())
    }

    /// Takes a line of the batch that has begun.
    fn take_in_batch<K: Output>(
        &mut self,
        alloc: Global,
        form: Form,
        begun: Batch,
        line: &[u8],
        out: &mut Vec<u8>,
        sink: &mut K,
    ) -> Result<(), KvError>
        ensures same { K.goes_on sink.old sink.new }
        ensures kept { T.goes_on self.old.target self.new.target }
        ensures ok { OnOk result ((s : State) (b : Begun) → Represents s (T.bucket self.old.target) → begun ≡ gathered b →
            Pours (counted_turn form s (Some b) line.now).0 (K.held sink.old) out.old.items
            (K.held sink.new) out.new.items
            × Stands (counted_turn form s (Some b) line.now).1 (held T.bucket self.new)) }
        ensures write_fault { IsErrOf result KvError.WriteFault →
            K.failed_between sink.old sink.new × ((s : State) (b : Begun) → Represents s (T.bucket self.old.target) →
            begun ≡ gathered b →
            Puts (out.old.items ++ (counted_turn form s (Some b) line.now).0) (K.held sink.old) (K.held sink.new)) }
        ensures memory { IsErrOf result KvError.OutOfMemory →
            Pours [] (K.held sink.old) out.old.items (K.held sink.new) out.new.items }
        ensures left { OnErr result ((s : State) (b : Begun) → Represents s (T.bucket self.old.target) → begun ≡ gathered b →
            LeavesLine s.acts (counted_turn form s (Some b) line.now).1.state.acts (T.bucket self.new.target)
            (K.held sink.old) out.old.items (K.held sink.new) out.new.items) }
        ensures fault { IfErr result IsWriteOrMemory }
    {
        let mut batch = begun;
        batch.take_line(alloc, form, line)?;
        self.go_on(alloc, batch, out, sink)
    }

    /// Takes a line where no batch has begun.
    fn take_outside<K: Output>(
        &mut self,
        alloc: Global,
        form: Form,
        line: &[u8],
        out: &mut Vec<u8>,
        sink: &mut K,
    ) -> Result<(), KvError>
        ensures same { K.goes_on sink.old sink.new }
        ensures kept { T.goes_on self.old.target self.new.target }
        ensures ok { OnOk result ((s : State) → Represents s (T.bucket self.old.target) → self.old.batch ≡ None →
            Pours (counted_turn form s None line.now).0 (K.held sink.old) out.old.items
            (K.held sink.new) out.new.items
            × Stands (counted_turn form s None line.now).1 (held T.bucket self.new)) }
        ensures write_fault { IsErrOf result KvError.WriteFault →
            K.failed_between sink.old sink.new × ((s : State) → Represents s (T.bucket self.old.target) →
            Puts (out.old.items ++ (counted_turn form s None line.now).0) (K.held sink.old) (K.held sink.new)) }
        ensures memory { IsErrOf result KvError.OutOfMemory → (s : State) → Represents s (T.bucket self.old.target) →
            PoursFront (counted_turn form s None line.now).0
            (K.held sink.old) out.old.items (K.held sink.new) out.new.items }
        ensures left { OnErr result ((s : State) → Represents s (T.bucket self.old.target) →
            LeavesLine s.acts (counted_turn form s None line.now).1.state.acts (T.bucket self.new.target)
            (K.held sink.old) out.old.items (K.held sink.new) out.new.items) }
        ensures fault { IfErr result IsWriteOrMemory }
    {
        match parse(alloc, form, line) {
            Ok(command) => match batch_size(&command) {
                Some(count) => self.go_on(alloc, Batch::new(alloc, count), out, sink),
                None => pour_command(alloc, form, &mut self.target, &command, out, sink),
            },
            Err(error) => pour_refusal(alloc, error, out, sink),
        }
    }

    /// Takes a line without its end, and without the carriage return before that. Its answers wait behind others, and
    /// are written where they are many: so they are no more at a time than 64 KiB and one answer.
    pub(crate) fn take_line<K: Output>(
        &mut self,
        alloc: Global,
        form: Form,
        line: &[u8],
        out: &mut Vec<u8>,
        sink: &mut K,
    ) -> Result<(), KvError>
        ensures same { K.goes_on sink.old sink.new }
        ensures kept { T.goes_on self.old.target self.new.target }
        ensures ok { OnOk result ((s : Session) → Stands s (held T.bucket self.old) →
            Pours (turn form s line.now).0 (K.held sink.old) out.old.items (K.held sink.new) out.new.items
            × Stands (turn form s line.now).1 (held T.bucket self.new)) }
        ensures write_fault { IsErrOf result KvError.WriteFault →
            K.failed_between sink.old sink.new × ((s : Session) → Stands s (held T.bucket self.old) →
            Puts (out.old.items ++ (turn form s line.now).0) (K.held sink.old) (K.held sink.new)) }
        ensures memory { IsErrOf result KvError.OutOfMemory → (s : Session) → Stands s (held T.bucket self.old) →
            PoursFront (turn form s line.now).0
            (K.held sink.old) out.old.items (K.held sink.new) out.new.items }
        ensures left { OnErr result ((s : Session) → Stands s (held T.bucket self.old) →
            LeavesLine s.state.acts (turn form s line.now).1.state.acts (T.bucket self.new.target)
            (K.held sink.old) out.old.items (K.held sink.new) out.new.items) }
        ensures fault { IfErr result IsWriteOrMemory }
    {
        if is_skipped(line) {
            return Ok(());
        }
        match self.batch.take() {
            Some(begun) => self.take_in_batch(alloc, form, begun, line, out, sink),
            None => self.take_outside(alloc, form, line, out, sink),
        }
    }

    /// Ends the batch that has begun, if one has, at the end of the input: its next line is missing.
    pub(crate) fn end<K: Output>(
        &mut self,
        alloc: Global,
        out: &mut Vec<u8>,
        sink: &mut K,
    ) -> Result<(), KvError>
        ensures same { K.goes_on sink.old sink.new }
        ensures kept { T.goes_on self.old.target self.new.target }
        ensures ok { OnOk result ((s : Session) → Stands s (held T.bucket self.old) →
            Pours (end_text s) (K.held sink.old) out.old.items (K.held sink.new) out.new.items) }
        ensures write_fault { IsErrOf result KvError.WriteFault →
            K.failed_between sink.old sink.new × ((s : Session) → Stands s (held T.bucket self.old) →
            Puts (out.old.items ++ end_text s) (K.held sink.old) (K.held sink.new)) }
        ensures memory { IsErrOf result KvError.OutOfMemory →
            Pours [] (K.held sink.old) out.old.items (K.held sink.new) out.new.items }
        ensures stands { OnOk result ((s : Session) → Stands s (held T.bucket self.old) →
            Represents s.state (T.bucket self.new.target)) }
        // A batch that is refused is no act.
        ensures left { OnErr result ((s : Session) → Stands s (held T.bucket self.old) →
            HasActs s.state.acts (T.bucket self.new.target)) }
        ensures fault { IfErr result IsWriteOrMemory }
    {
        match self.batch.take() {
            Some(begun) => {
                let mut batch = begun;
                batch.refuse(KvError::BadCommand);
                pour_batch(alloc, &mut self.target, &batch, out, sink)
            }
            None => Ok(()),
        }
    }
}
