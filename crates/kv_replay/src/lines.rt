//! A script that is being read: the session so far, and the line that has begun.

ghost use Rattle.std.specs.Prelude.{◌≡◌, ◌++◌, [], OnOk, OnErr, IfErr, IsErrOf};
ghost use Rattle.kv_single.specs.Held.{Represents};
ghost use Rattle.kv_replay.specs.Faults.{IsWriteOrMemory};
ghost use Rattle.kv_replay.specs.inside.Leaving.{LeavesBytes, LeavesLine};
ghost use Rattle.kv_replay.specs.inside.Reading.{Reading, after_bytes, closed, ended, grown, line_ended, said, within};
ghost use Rattle.kv_replay.specs.inside.Scripted.{Holds, Stands, held, scripted};
ghost use Rattle.kv_replay.specs.Sessions.{Session, end_text, line_text, line_next};
ghost use Rattle.kv_replay.specs.inside.Written.{Pours, PoursFront, Puts};

use crate::interpreter::Interpreter;
use crate::output::Output;
use crate::target::Target;
use kv_keys::KvError;
use kv_script::{Form, without_return};
use memchr::memchr;
use std::alloc::{AllocError, Global};

/// How many bytes of a line are looked at. A longer one is no command, with or without a carriage return at its end.
pub const KEPT_BYTES: usize = 1_400_001;

/// A script that is being read.
#[derive(Drop)]
pub(crate) struct Script<T: Target> {
    pub(crate) session: Interpreter<T>,
    pub(crate) line: Vec<u8>,
}

impl<T: Target> Script<T> {
    /// Before the first line.
    pub(crate) fn new(alloc: Global, session: Interpreter<T>) -> Script<T>
        ensures session { result.session ≡ session }
        ensures line { result.line.items ≡ [] }
    {
        Script {
            session,
            line: Vec::new(alloc),
        }
    }

    /// What it ran on.
    pub(crate) fn into_target(self) -> T
        ensures { result ≡ self.session.target }
    {
        let Script { session, line: _ } = self;
        let Interpreter { target, batch: _ } = session;
        target
    }

    /// Answers the line that has begun. Its answers wait behind others, and are written where they are many.
    #[tactic(auto, unfolding(crate::specs::Sessions::line_text, crate::specs::Sessions::line_next))]
    pub(crate) fn end_line<K: Output>(
        &mut self,
        alloc: Global,
        form: Form,
        out: &mut Vec<u8>,
        sink: &mut K,
    ) -> Result<(), KvError>
        ensures same { K.goes_on sink.old sink.new }
        ensures kept { T.goes_on self.old.session.target self.new.session.target }
        ensures ok { OnOk result ((r : Reading Session) → Holds r (scripted T.bucket self.old) →
            Pours (ended KEPT_BYTES (line_text form) (line_next form) r)
            (K.held sink.old) out.old.items (K.held sink.new) out.new.items
            × Holds (line_ended KEPT_BYTES (line_text form) (line_next form) r) (scripted T.bucket self.new)) }
        ensures write_fault { IsErrOf result KvError.WriteFault →
            K.failed_between sink.old sink.new × ((r : Reading Session) → Holds r (scripted T.bucket self.old) →
            Puts (out.old.items ++ ended KEPT_BYTES (line_text form) (line_next form) r) (K.held sink.old)
            (K.held sink.new)) }
        ensures memory { IsErrOf result KvError.OutOfMemory → (r : Reading Session) → Holds r (scripted T.bucket self.old) →
            PoursFront (ended KEPT_BYTES (line_text form) (line_next form) r)
            (K.held sink.old) out.old.items (K.held sink.new) out.new.items }
        ensures left { OnErr result ((r : Reading Session) → Holds r (scripted T.bucket self.old) →
            LeavesLine r.state.state.acts (line_next form r.state r.line).state.acts (T.bucket self.new.session.target)
            (K.held sink.old) out.old.items (K.held sink.new) out.new.items) }
        ensures fault { IfErr result IsWriteOrMemory }
    {
        self.session
            .take_line(alloc, form, without_return(&self.line), out, sink)?;
        self.line.clear();
        Ok(())
    }

    /// Answers the line that the end of the input ends, and then the batch that has begun, if one has.
    pub(crate) fn end_input<K: Output>(
        &mut self,
        alloc: Global,
        form: Form,
        out: &mut Vec<u8>,
        sink: &mut K,
    ) -> Result<(), KvError>
        ensures same { K.goes_on sink.old sink.new }
        ensures kept { T.goes_on self.old.session.target self.new.session.target }
        ensures ok { OnOk result ((r : Reading Session) → Holds r (scripted T.bucket self.old) →
            Pours (closed KEPT_BYTES (line_text form) (line_next form) end_text r)
            (K.held sink.old) out.old.items (K.held sink.new) out.new.items) }
        ensures write_fault { IsErrOf result KvError.WriteFault →
            K.failed_between sink.old sink.new × ((r : Reading Session) → Holds r (scripted T.bucket self.old) →
            Puts (out.old.items ++ closed KEPT_BYTES (line_text form) (line_next form) end_text r) (K.held sink.old)
            (K.held sink.new)) }
        ensures memory { IsErrOf result KvError.OutOfMemory → (r : Reading Session) → Holds r (scripted T.bucket self.old) →
            PoursFront (closed KEPT_BYTES (line_text form) (line_next form) end_text r)
            (K.held sink.old) out.old.items (K.held sink.new) out.new.items }
        ensures stands { OnOk result ((r : Reading Session) → Holds r (scripted T.bucket self.old) →
            Represents (line_next form r.state r.line).state (T.bucket self.new.session.target)) }
        ensures left { OnErr result ((r : Reading Session) → Holds r (scripted T.bucket self.old) →
            LeavesLine r.state.state.acts (line_next form r.state r.line).state.acts (T.bucket self.new.session.target)
            (K.held sink.old) out.old.items (K.held sink.new) out.new.items) }
        ensures fault { IfErr result IsWriteOrMemory }
    {
        self.end_line(alloc, form, out, sink)?;
        self.session.end(alloc, out, sink)
    }

    /// Answers a line that lies whole in what was read, where none has begun.
    #[tactic(auto, unfolding(crate::specs::Sessions::line_text, crate::specs::Sessions::line_next))]
    fn answer_whole<K: Output>(
        &mut self,
        alloc: Global,
        form: Form,
        line: &[u8],
        out: &mut Vec<u8>,
        sink: &mut K,
    ) -> Result<(), KvError>
        ensures same { K.goes_on sink.old sink.new }
        ensures kept { T.goes_on self.old.session.target self.new.session.target }
        ensures ok { OnOk result ((s : Session) → Stands s (held T.bucket self.old.session) →
            Pours (line_text form s line.now) (K.held sink.old) out.old.items (K.held sink.new) out.new.items
            × (Stands (line_next form s line.now) (held T.bucket self.new.session) × (self.new.line.items ≡ self.old.line.items))) }
        ensures write_fault { IsErrOf result KvError.WriteFault →
            K.failed_between sink.old sink.new × ((s : Session) → Stands s (held T.bucket self.old.session) →
            Puts (out.old.items ++ line_text form s line.now) (K.held sink.old) (K.held sink.new)) }
        ensures memory { IsErrOf result KvError.OutOfMemory → (s : Session) → Stands s (held T.bucket self.old.session) →
            PoursFront (line_text form s line.now)
            (K.held sink.old) out.old.items (K.held sink.new) out.new.items }
        ensures left { OnErr result ((s : Session) → Stands s (held T.bucket self.old.session) →
            LeavesLine s.state.acts (line_next form s line.now).state.acts (T.bucket self.new.session.target)
            (K.held sink.old) out.old.items (K.held sink.new) out.new.items) }
        ensures fault { IfErr result IsWriteOrMemory }
    {
        self.session
            .take_line(alloc, form, without_return(line), out, sink)
    }

    /// Takes bytes of the line that has begun. No more are kept than show that it is too long.
    fn take_part(&mut self, part: &[u8]) -> Result<(), AllocError>
        ensures line { OnOk result (scripted T.bucket self.new
            ≡ record (scripted T.bucket self.old) { line = grown KEPT_BYTES self.old.line.items part.now }) }
        ensures session { self.new.session ≡ self.old.session }
    {
        let room = (KEPT_BYTES + 1).saturating_sub(self.line.len());
        if part.len() <= room {
            self.line.extend_from_slice(part)
        } else {
            self.line.extend_from_slice(&part[..room])
        }
    }

    /// Takes the rest of the line that has begun, and answers it.
    fn take_line<K: Output>(
        &mut self,
        alloc: Global,
        form: Form,
        rest: &[u8],
        out: &mut Vec<u8>,
        sink: &mut K,
    ) -> Result<(), KvError>
        ensures same { K.goes_on sink.old sink.new }
        ensures kept { T.goes_on self.old.session.target self.new.session.target }
        ensures ok { OnOk result ((r : Reading Session) → Holds r (scripted T.bucket self.old) →
            Pours (ended KEPT_BYTES (line_text form) (line_next form) (within KEPT_BYTES r rest.now))
            (K.held sink.old) out.old.items (K.held sink.new) out.new.items
            × Holds (line_ended KEPT_BYTES (line_text form) (line_next form) (within KEPT_BYTES r rest.now)) (scripted T.bucket self.new)) }
        ensures write_fault { IsErrOf result KvError.WriteFault →
            K.failed_between sink.old sink.new × ((r : Reading Session) → Holds r (scripted T.bucket self.old) →
            Puts (out.old.items ++ ended KEPT_BYTES (line_text form) (line_next form) (within KEPT_BYTES r rest.now))
            (K.held sink.old) (K.held sink.new)) }
        ensures memory { IsErrOf result KvError.OutOfMemory → (r : Reading Session) → Holds r (scripted T.bucket self.old) →
            PoursFront (ended KEPT_BYTES (line_text form) (line_next form) (within KEPT_BYTES r rest.now))
            (K.held sink.old) out.old.items (K.held sink.new) out.new.items }
        ensures left { OnErr result ((r : Reading Session) → Holds r (scripted T.bucket self.old) →
            LeavesLine r.state.state.acts (line_next form r.state (grown KEPT_BYTES r.line rest.now)).state.acts
            (T.bucket self.new.session.target) (K.held sink.old) out.old.items (K.held sink.new) out.new.items) }
        ensures fault { IfErr result IsWriteOrMemory }
    {
        if self.line.is_empty() && rest.len() <= KEPT_BYTES {
            return self.answer_whole(alloc, form, rest, out, sink);
        }
        self.take_part(rest)?;
        self.end_line(alloc, form, out, sink)
    }

    /// Takes the next bytes, and answers the lines that they end.
    pub(crate) fn take_bytes<K: Output>(
        &mut self,
        alloc: Global,
        form: Form,
        bytes: &[u8],
        out: &mut Vec<u8>,
        sink: &mut K,
    ) -> Result<(), KvError>
        ensures same { K.goes_on sink.old sink.new }
        ensures kept { T.goes_on self.old.session.target self.new.session.target }
        ensures ok { OnOk result ((r : Reading Session) → Holds r (scripted T.bucket self.old) →
            Pours (said KEPT_BYTES (line_text form) (line_next form) r bytes.now)
            (K.held sink.old) out.old.items (K.held sink.new) out.new.items
            × Holds (after_bytes KEPT_BYTES (line_text form) (line_next form) r bytes.now) (scripted T.bucket self.new)) }
        ensures write_fault { IsErrOf result KvError.WriteFault →
            K.failed_between sink.old sink.new × ((r : Reading Session) → Holds r (scripted T.bucket self.old) →
            Puts (out.old.items ++ said KEPT_BYTES (line_text form) (line_next form) r bytes.now)
            (K.held sink.old) (K.held sink.new)) }
        ensures memory { IsErrOf result KvError.OutOfMemory → (r : Reading Session) → Holds r (scripted T.bucket self.old) →
            PoursFront (said KEPT_BYTES (line_text form) (line_next form) r bytes.now)
            (K.held sink.old) out.old.items (K.held sink.new) out.new.items }
        ensures left { OnErr result ((r : Reading Session) → Holds r (scripted T.bucket self.old) →
            LeavesBytes form r bytes.now (IsErrOf result KvError.WriteFault) (IsErrOf result KvError.OutOfMemory)
            (K.held sink.old) out.old.items (K.held sink.new) out.new.items (T.bucket self.new.session.target)) }
        ensures fault { IfErr result IsWriteOrMemory }
    {
        let mut left = bytes;
        'lines: loop {
            let Some(at) = memchr(b'\n', left) else {
                self.take_part(left)?;
                return Ok(());
            };
            self.take_line(alloc, form, &left[..at], out, sink)?;
            left = &left[at + 1..];
        }
    }
}
