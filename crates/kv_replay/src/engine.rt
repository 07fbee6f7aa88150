//! A whole script, from a source to a sink.

ghost use Rattle.std.specs.Prelude.{◌≡◌, ◌<◌, length, false, OnOk, OnErr, IfOk, IfErr, IsErrOf};
ghost use Rattle.kv_keys.specs.declared.error.KvError.TheVariants.{OutOfMemory};
ghost use Rattle.std.specs.Io.KnownBytes.{Appends};
ghost use Rattle.kv_replay.specs.Faults.{IsBadConfiguration, IsRunFault, IsWriteOrMemory};
ghost use Rattle.kv_replay.specs.Outcome.{Replays, Breaks, Stops, StopsWhole};
ghost use Rattle.kv_replay.specs.inside.Leaving.{LeftAtEnd, LeftInBytes};
ghost use Rattle.kv_replay.specs.inside.Reading.{Reading, beginning, after_bytes, said, closed};
ghost use Rattle.kv_replay.specs.Replaying.{EndsAt, LeftAt, Ran, RanFrom};
ghost use Rattle.kv_replay.specs.inside.Scripted.{Holds, scripted};
ghost use Rattle.kv_replay.specs.Sessions.{Session, end_text, line_text, line_next, outside, text_from, whole_from};
ghost use Rattle.kv_replay.specs.inside.Written.{Puts, PutsWhole};
ghost use Rattle.kv_replay.specs.declared.lines.TheConstants.{KEPT_BYTES};
ghost use Rattle.kv_model.specs.State.{State};
ghost use Rattle.kv_single.specs.Held.{Represents};

use crate::bounded_input::BoundedInput;
use crate::interpreter::Interpreter;
use crate::lines::Script;
use crate::output::Output;
use crate::target::Target;
use kv_keys::KvError;
use kv_model::Config;
use kv_script::Form;
use kv_single::Bucket;
use std::alloc::Global;

/// How many bytes are asked for at a time.
pub const BUFFER_BYTES: usize = 65_536;

/// Writes the answers to the lines that these bytes end, as they are made. Where memory runs out, those that were made
/// before are written.
fn answer_bytes<T: Target, K: Output>(
    script: &mut Script<T>,
    alloc: Global,
    form: Form,
    bytes: &[u8],
    sink: &mut K,
) -> Result<(), KvError>
    ensures same { K.goes_on sink.old sink.new }
    ensures kept { T.goes_on script.old.session.target script.new.session.target }
    ensures ok { OnOk result ((r : Reading Session) → Holds r (scripted T.bucket script.old) →
        Appends (K.held sink.old) (K.held sink.new) (said KEPT_BYTES (line_text form) (line_next form) r bytes.now)
        × Holds (after_bytes KEPT_BYTES (line_text form) (line_next form) r bytes.now) (scripted T.bucket script.new)) }
    ensures write_fault { IsErrOf result KvError.WriteFault →
        K.failed_between sink.old sink.new × ((r : Reading Session) → Holds r (scripted T.bucket script.old) →
        Puts (said KEPT_BYTES (line_text form) (line_next form) r bytes.now) (K.held sink.old) (K.held sink.new)) }
    ensures memory { IsErrOf result KvError.OutOfMemory → (r : Reading Session) → Holds r (scripted T.bucket script.old) →
        PutsWhole (said KEPT_BYTES (line_text form) (line_next form) r bytes.now) (K.held sink.old) (K.held sink.new) }
    ensures left { OnErr result ((r : Reading Session) → Holds r (scripted T.bucket script.old) →
        LeftInBytes form r bytes.now (K.held sink.old) (K.held sink.new) (T.bucket script.new.session.target)) }
    ensures fault { IfErr result IsWriteOrMemory }
{
    let mut out = Vec::new(alloc);
    match script.take_bytes(alloc, form, bytes, &mut out, sink) {
        Ok(()) => sink.write(&out),
        Err(KvError::OutOfMemory) => {
            sink.write(&out)?;
            Err(KvError::OutOfMemory)
        }
        Err(error) => Err(error),
    }
}

/// Writes the answer to the line that the end of the input ends, and that to a batch whose lines are not all there.
fn answer_end<T: Target, K: Output>(
    script: &mut Script<T>,
    alloc: Global,
    form: Form,
    sink: &mut K,
) -> Result<(), KvError>
    ensures same { K.goes_on sink.old sink.new }
    ensures kept { T.goes_on script.old.session.target script.new.session.target }
    ensures ok { OnOk result ((r : Reading Session) → Holds r (scripted T.bucket script.old) →
        Appends (K.held sink.old) (K.held sink.new) (closed KEPT_BYTES (line_text form) (line_next form) end_text r)) }
    ensures write_fault { IsErrOf result KvError.WriteFault →
        K.failed_between sink.old sink.new × ((r : Reading Session) → Holds r (scripted T.bucket script.old) →
        Puts (closed KEPT_BYTES (line_text form) (line_next form) end_text r) (K.held sink.old) (K.held sink.new)) }
    ensures memory { IsErrOf result KvError.OutOfMemory → (r : Reading Session) → Holds r (scripted T.bucket script.old) →
        PutsWhole (closed KEPT_BYTES (line_text form) (line_next form) end_text r) (K.held sink.old) (K.held sink.new) }
    ensures stands { OnOk result ((r : Reading Session) → Holds r (scripted T.bucket script.old) →
        Represents (line_next form r.state r.line).state (T.bucket script.new.session.target)) }
    ensures left { (r : Reading Session) → Holds r (scripted T.bucket script.old) →
        LeftAtEnd form r (K.held sink.old) (K.held sink.new) (T.bucket script.new.session.target) }
    ensures fault { IfErr result IsWriteOrMemory }
{
    let mut out = Vec::new(alloc);
    match script.end_input(alloc, form, &mut out, sink) {
        Ok(()) => sink.write(&out),
        Err(KvError::OutOfMemory) => {
            sink.write(&out)?;
            Err(KvError::OutOfMemory)
        }
        Err(error) => Err(error),
    }
}

/// Answers the lines of the source until its end.
fn answer_lines<T: Target, S: BoundedInput, K: Output>(
    script: &mut Script<T>,
    alloc: Global,
    form: Form,
    buffer: &mut [u8],
    source: &mut S,
    sink: &mut K,
) -> Result<(), KvError>
    requires { 0 < length buffer.old }
    ensures same_source { S.goes_on source.old source.new }
    ensures same_sink { K.goes_on sink.old sink.new }
    ensures kept { T.goes_on script.old.session.target script.new.session.target }
    ensures in_time { S.has_ended source.old ≡ false → S.was_asked_late source.new ≡ S.was_asked_late source.old }
    ensures ok { OnOk result ((session : Session) → Holds (beginning session) (scripted T.bucket script.old) →
        Replays (text_from form session) (whole_from form session) (S.left source.old) (S.left source.new)
        (K.held sink.old) (K.held sink.new)) }
    ensures read_fault { IsErrOf result KvError.ReadFault →
        S.failed_between source.old source.new
        × ((session : Session) → Holds (beginning session) (scripted T.bucket script.old) →
        Breaks (text_from form session) (whole_from form session) (S.left source.old) (S.left source.new)
        (K.held sink.old) (K.held sink.new)) }
    ensures write_fault { IsErrOf result KvError.WriteFault →
        K.failed_between sink.old sink.new × ((session : Session) → Holds (beginning session) (scripted T.bucket script.old) →
        Stops (text_from form session) (whole_from form session) (S.left source.old) (S.left source.new)
        (K.held sink.old) (K.held sink.new)) }
    ensures memory { IsErrOf result KvError.OutOfMemory → (session : Session) →
        Holds (beginning session) (scripted T.bucket script.old) →
        StopsWhole (text_from form session) (whole_from form session) (S.left source.old) (S.left source.new)
        (K.held sink.old) (K.held sink.new) }
    ensures stands { OnOk result ((session : Session) → Holds (beginning session) (scripted T.bucket script.old) →
        EndsAt form session (S.left source.old) (S.left source.new) (T.bucket script.new.session.target)) }
    ensures left { (session : Session) → Holds (beginning session) (scripted T.bucket script.old) →
        LeftAt form session (S.left source.old) (S.left source.new) (K.held sink.old) (K.held sink.new)
        (T.bucket script.new.session.target) }
    ensures fault { IfErr result IsRunFault }
{
    'reads: loop {
        let count = source.read(buffer)?;
        if count == 0 {
            return answer_end(script, alloc, form, sink);
        }
        answer_bytes(script, alloc, form, &buffer[..count], sink)?;
    }
}

/// So many bytes to read into.
pub fn new_buffer(alloc: Global, bytes: usize) -> Result<Vec<u8>, KvError>
    ensures ok { IfOk result (λ buffer. length buffer.items ≡ bytes) }
    ensures err { IfErr result (λ e. e ≡ OutOfMemory) }
{
    let buffer = vec![in alloc; 0u8; bytes]?;
    Ok(buffer)
}

/// Answers the script of the source, of which nothing was read.
fn answer_script<T: Target, S: BoundedInput, K: Output>(
    script: &mut Script<T>,
    alloc: Global,
    form: Form,
    source: &mut S,
    sink: &mut K,
) -> Result<(), KvError>
    ensures same_source { S.goes_on source.old source.new }
    ensures same_sink { K.goes_on sink.old sink.new }
    ensures kept { T.goes_on script.old.session.target script.new.session.target }
    ensures ran { (session : Session) → Holds (beginning session) (scripted T.bucket script.old) → RanFrom form session
        (S.left source.old) (S.left source.new) (K.held sink.old) (K.held sink.new) result }
    ensures stands { OnOk result ((session : Session) → Holds (beginning session) (scripted T.bucket script.old) →
        EndsAt form session (S.left source.old) (S.left source.new) (T.bucket script.new.session.target)) }
    ensures left { (session : Session) → Holds (beginning session) (scripted T.bucket script.old) →
        LeftAt form session (S.left source.old) (S.left source.new) (K.held sink.old) (K.held sink.new)
        (T.bucket script.new.session.target) }
    ensures in_time { S.has_ended source.old ≡ false → S.was_asked_late source.new ≡ S.was_asked_late source.old }
    ensures read_fault { IsErrOf result KvError.ReadFault → S.failed_between source.old source.new }
    ensures write_fault { IsErrOf result KvError.WriteFault → K.failed_between sink.old sink.new }
    ensures fault { IfErr result IsRunFault }
{
    let mut buffer = new_buffer(alloc, BUFFER_BYTES)?;
    answer_lines(script, alloc, form, &mut buffer, source, sink)
}

/// What a script ran on, and how it ended.
#[derive(Drop)]
pub struct Ended<T> {
    pub target: T,
    pub result: Result<(), KvError>,
}

/// Runs the script of a source on a target, which it gives back, and writes its answers to a sink. Values stand in both in
/// this form.
///
/// The answers to all lines that are known so far are written before more is asked for, and no more than 64 KiB of
/// them and one answer wait at a time. Where memory runs out in the midst of a line, or what keeps the target fails, the
/// answer lines that were made before are written. Nothing is asked for after the end.
pub fn run_on<T: Target, S: BoundedInput, K: Output>(
    alloc: Global,
    target: T,
    source: &mut S,
    sink: &mut K,
    form: Form,
) -> Ended<T>
    ensures same_source { S.goes_on source.old source.new }
    ensures same_sink { K.goes_on sink.old sink.new }
    ensures kept { T.goes_on target result.target }
    ensures ran { (state : State) → Represents state (T.bucket target) → RanFrom form (outside state)
        (S.left source.old) (S.left source.new) (K.held sink.old) (K.held sink.new) result.result }
    // What it ran on is at the state that the script leads to.
    ensures stands { OnOk result.result ((state : State) → Represents state (T.bucket target) →
        EndsAt form (outside state) (S.left source.old) (S.left source.new) (T.bucket result.target)) }
    // What was answered was done, also where it ended early.
    ensures left { (state : State) → Represents state (T.bucket target) →
        LeftAt form (outside state) (S.left source.old) (S.left source.new) (K.held sink.old) (K.held sink.new)
        (T.bucket result.target) }
    ensures in_time { S.has_ended source.old ≡ false → S.was_asked_late source.new ≡ S.was_asked_late source.old }
    ensures read_fault { IsErrOf result.result KvError.ReadFault → S.failed_between source.old source.new }
    ensures write_fault { IsErrOf result.result KvError.WriteFault → K.failed_between sink.old sink.new }
    ensures fault { IfErr result.result IsRunFault }
{
    let mut script = Script::new(alloc, Interpreter::new(target));
    let result = answer_script(&mut script, alloc, form, source, sink);
    Ended {
        target: script.into_target(),
        result,
    }
}

/// Runs the script of a source on a new bucket, and writes its answers to a sink. Values stand in both in this form.
///
/// Where memory runs out in the midst of a line, the answer lines that were made before are written. It asks and writes as
/// [`run_on`] does.
pub fn run_script<S: BoundedInput, K: Output>(
    alloc: Global,
    source: &mut S,
    sink: &mut K,
    config: &Config,
    form: Form,
) -> Result<(), KvError>
    ensures same_source { S.goes_on source.old source.new }
    ensures same_sink { K.goes_on sink.old sink.new }
    ensures ran { Ran form config.now (S.left source.old) (S.left source.new) (K.held sink.old)
        (K.held sink.new) result }
    // The source is not asked after its end.
    ensures in_time { S.has_ended source.old ≡ false → S.was_asked_late source.new ≡ S.was_asked_late source.old }
    // A fault of a device comes only where that device failed in this call.
    ensures read_fault { IsErrOf result KvError.ReadFault → S.failed_between source.old source.new }
    ensures write_fault { IsErrOf result KvError.WriteFault → K.failed_between sink.old sink.new }
    // Where the configuration is refused, nothing was read or written.
    ensures refused { IfErr result (λ e. IsBadConfiguration e → (source.new ≡ source.old) × (sink.new ≡ sink.old)) }
{
    let bucket = Bucket::open(alloc, config)?;
    run_on(alloc, bucket, source, sink, form).result
}
