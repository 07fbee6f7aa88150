//! Scripts from readers to writers.

ghost use Rattle.std.specs.Prelude.{◌≡◌, ◌+◌, ◌≤◌, ◌⊎◌, false, IfErr, IsErrOf};
ghost use Rattle.kv_replay.specs.Faults.{IsBadConfiguration};
ghost use Rattle.kv_replay.specs.Replaying.{Ran};
ghost use Rattle.kv_script.specs.declared.form.Form.TheVariants.{Base64};
ghost use Rattle.kv_replay.specs.declared.streams.TheConstants.{READ_CALLS};

use crate::bounded_input::Bounded;
use crate::engine::run_script;
use crate::input::Input;
use crate::output::Output;
use kv_keys::KvError;
use kv_model::Config;
use kv_script::Form;
use std::alloc::Global;

/// How often a reader is asked by [`replay`], at the most.
pub const READ_CALLS: u64 = 1_099_511_627_776;

/// Runs the script of a reader on a new bucket, and writes its answers. Values stand in both in base64. The readers
/// and writers of std are handed in as [`CountedReader`](crate::CountedReader) and
/// [`CountedWriter`](crate::CountedWriter), which note where they fail.
///
/// The reader has to give the end of its input within 1,099,511,627,776 calls, else the answer is ReadFault.
pub fn replay<R: Input, K: Output>(
    alloc: Global,
    reader: &mut R,
    sink: &mut K,
    config: &Config,
) -> Result<(), KvError>
    ensures same_reader { R.goes_on reader.old reader.new }
    ensures same_sink { K.goes_on sink.old sink.new }
    ensures ran { Ran Base64 config.now (R.left reader.old) (R.left reader.new) (K.held sink.old)
        (K.held sink.new) result }
    // The reader is not asked after its end.
    ensures in_time { R.has_ended reader.old ≡ false → R.was_asked_late reader.new ≡ R.was_asked_late reader.old }
    // It is asked so often at the most. A fault of the reader comes only where it failed in this call, or was asked so
    // often in it and gave no end; one of the writer only where that failed in this call.
    ensures at_most { R.asked reader.new ≤ R.asked reader.old + READ_CALLS }
    ensures read_fault { IsErrOf result KvError.ReadFault →
        (R.failed_between reader.old reader.new ⊎ (R.asked reader.new ≡ R.asked reader.old + READ_CALLS)) }
    ensures write_fault { IsErrOf result KvError.WriteFault → K.failed_between sink.old sink.new }
    // Where the configuration is refused, nothing was read or written.
    ensures refused { IfErr result (λ e. IsBadConfiguration e → (reader.new ≡ reader.old) × (sink.new ≡ sink.old)) }
{
    replay_in(alloc, reader, sink, config, Form::Base64)
}

/// The same, where values stand in the script and in its answers in this form. The configuration knows nothing of it.
pub fn replay_in<R: Input, K: Output>(
    alloc: Global,
    reader: &mut R,
    sink: &mut K,
    config: &Config,
    form: Form,
) -> Result<(), KvError>
    ensures same_reader { R.goes_on reader.old reader.new }
    ensures same_sink { K.goes_on sink.old sink.new }
    ensures ran { Ran form config.now (R.left reader.old) (R.left reader.new) (K.held sink.old)
        (K.held sink.new) result }
    ensures in_time { R.has_ended reader.old ≡ false → R.was_asked_late reader.new ≡ R.was_asked_late reader.old }
    ensures at_most { R.asked reader.new ≤ R.asked reader.old + READ_CALLS }
    ensures read_fault { IsErrOf result KvError.ReadFault →
        (R.failed_between reader.old reader.new ⊎ (R.asked reader.new ≡ R.asked reader.old + READ_CALLS)) }
    ensures write_fault { IsErrOf result KvError.WriteFault → K.failed_between sink.old sink.new }
    ensures refused { IfErr result (λ e. IsBadConfiguration e → (reader.new ≡ reader.old) × (sink.new ≡ sink.old)) }
{
    replay_bounded_in(alloc, reader, sink, config, READ_CALLS, form)
}

/// [`replay`], where the reader is asked so many times at the most. The call that gives the end counts.
pub fn replay_bounded<R: Input, K: Output>(
    alloc: Global,
    reader: &mut R,
    sink: &mut K,
    config: &Config,
    calls: u64,
) -> Result<(), KvError>
    ensures same_reader { R.goes_on reader.old reader.new }
    ensures same_sink { K.goes_on sink.old sink.new }
    ensures ran { Ran Base64 config.now (R.left reader.old) (R.left reader.new) (K.held sink.old)
        (K.held sink.new) result }
    ensures in_time { R.has_ended reader.old ≡ false → R.was_asked_late reader.new ≡ R.was_asked_late reader.old }
    ensures at_most { R.asked reader.new ≤ R.asked reader.old + calls }
    ensures read_fault { IsErrOf result KvError.ReadFault →
        (R.failed_between reader.old reader.new ⊎ (R.asked reader.new ≡ R.asked reader.old + calls)) }
    ensures write_fault { IsErrOf result KvError.WriteFault → K.failed_between sink.old sink.new }
    ensures refused { IfErr result (λ e. IsBadConfiguration e → (reader.new ≡ reader.old) × (sink.new ≡ sink.old)) }
{
    replay_bounded_in(alloc, reader, sink, config, calls, Form::Base64)
}

/// [`replay_in`], where the reader is asked so many times at the most. The call that gives the end counts.
pub fn replay_bounded_in<R: Input, K: Output>(
    alloc: Global,
    reader: &mut R,
    sink: &mut K,
    config: &Config,
    calls: u64,
    form: Form,
) -> Result<(), KvError>
    ensures same_reader { R.goes_on reader.old reader.new }
    ensures same_sink { K.goes_on sink.old sink.new }
    ensures ran { Ran form config.now (R.left reader.old) (R.left reader.new) (K.held sink.old)
        (K.held sink.new) result }
    ensures in_time { R.has_ended reader.old ≡ false → R.was_asked_late reader.new ≡ R.was_asked_late reader.old }
    ensures at_most { R.asked reader.new ≤ R.asked reader.old + calls }
    ensures read_fault { IsErrOf result KvError.ReadFault →
        (R.failed_between reader.old reader.new ⊎ (R.asked reader.new ≡ R.asked reader.old + calls)) }
    ensures write_fault { IsErrOf result KvError.WriteFault → K.failed_between sink.old sink.new }
    ensures refused { IfErr result (λ e. IsBadConfiguration e → (reader.new ≡ reader.old) × (sink.new ≡ sink.old)) }
{
    let mut source = Bounded::new(reader, calls);
    run_script(alloc, &mut source, sink, config, form)
}
