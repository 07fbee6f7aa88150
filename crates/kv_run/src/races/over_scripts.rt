//! A race of many workers over one script.

ghost use Rattle.std.specs.Prelude.{◌≡◌, ◌<◌, ◌+◌, ◌≤◌, ◌⊎◌, Ok, OnOk, IfErr, IsErrOf, false};
ghost use Rattle.kv_keys.specs.Outcome.{Refuses};
ghost use Rattle.kv_race.specs.Openings.{may_race};
ghost use Rattle.kv_replay.specs.Faults.{IsBadConfiguration};
ghost use Rattle.kv_replay.specs.declared.streams.TheConstants.{READ_CALLS};
ghost use Rattle.kv_run.specs.Races.{RanRace};

use crate::races::dealing::deal;
use crate::races::reading::read_plan;
use crate::races::writing::write_report;
use kv_keys::KvError;
use kv_model::Config;
use kv_race::{NoGate, race};
use kv_replay::{Bounded, BoundedInput, Input, Output, READ_CALLS};
use kv_script::Form;
use std::alloc::Global;
use std::sync::Wait;
use std::thread::Threads;

/// The most workers of a race.
const MOST_WORKERS: usize = 16;

/// Checks the configuration, and then the number of workers.
fn check(config: &Config, workers: usize) -> Result<(), KvError>
    ensures ok { OnOk result ((may_race config.now workers 0 ≡ Ok config.now) × (0 < workers)) }
    ensures refused { IfErr result (λ e. Refuses e (may_race config.now workers 0)) }
{
    config.check()?;
    if workers == 0 || workers > MOST_WORKERS {
        return Err(KvError::BadConfig);
    }
    Ok(())
}

/// Reads the script of a source to its end, races 1 to 16 workers over it on a new bucket, and writes what they were
/// answered and what each watch handed out to a sink. Values stand in both in this form.
///
/// The script has writes, which are dealt to the workers in turn, and at most 32 watches. Every write takes part, and is
/// kept until the race has ended. Other lines are refused: the answers to them come first. Then come the replies,
/// worker by worker, and then the items, watch by watch. Nothing is written before all was read. The configuration is
/// refused before anything is read, and so is the number of workers (BadConfig).
pub fn race_script<R: Threads + Wait + Sync, S: BoundedInput, K: Output>(
    rt: &R,
    alloc: Global,
    source: &mut S,
    sink: &mut K,
    config: &Config,
    form: Form,
    workers: usize,
) -> Result<(), KvError>
    ensures same_source { S.goes_on source.old source.new }
    ensures same_sink { K.goes_on sink.old sink.new }
    ensures ran { RanRace form config.now workers (S.left source.old) (S.left source.new) (K.held sink.old)
        (K.held sink.new) result }
    // The source is not asked after its end.
    ensures in_time { S.has_ended source.old ≡ false → S.was_asked_late source.new ≡ S.was_asked_late source.old }
    // A fault of a device comes only where that device failed in this call.
    ensures read_fault { IsErrOf result KvError.ReadFault → S.failed_between source.old source.new }
    ensures write_fault { IsErrOf result KvError.WriteFault → K.failed_between sink.old sink.new }
    // Where the configuration is refused, nothing was read or written.
    ensures refused { IfErr result (λ e. IsBadConfiguration e → (source.new ≡ source.old) × (sink.new ≡ sink.old)) }
{
    check(config, workers)?;
    let plan = read_plan(alloc, form, source)?;
    let (refused, requests, watches) = plan.parts();
    let scripts = deal(alloc, requests, workers)?;
    sink.write(&refused)?;
    let report = race(rt, alloc, config, &scripts, &watches, &NoGate)?;
    write_report(alloc, form, &report, sink)
}

/// Reads the script of a reader to its end, races 1 to 16 workers over it on a new bucket, and writes what they were
/// answered and what each watch handed out, as [`race_script`] does.
///
/// The reader has to give the end of its input within 1,099,511,627,776 calls, else the answer is ReadFault.
pub fn replay_race<T: Threads + Wait + Sync, R: Input, K: Output>(
    rt: &T,
    alloc: Global,
    reader: &mut R,
    sink: &mut K,
    config: &Config,
    form: Form,
    workers: usize,
) -> Result<(), KvError>
    ensures same_reader { R.goes_on reader.old reader.new }
    ensures same_sink { K.goes_on sink.old sink.new }
    ensures ran { RanRace form config.now workers (R.left reader.old) (R.left reader.new) (K.held sink.old)
        (K.held sink.new) result }
    ensures in_time { R.has_ended reader.old ≡ false → R.was_asked_late reader.new ≡ R.was_asked_late reader.old }
    ensures at_most { R.asked reader.new ≤ R.asked reader.old + READ_CALLS }
    ensures read_fault { IsErrOf result KvError.ReadFault →
        (R.failed_between reader.old reader.new ⊎ (R.asked reader.new ≡ R.asked reader.old + READ_CALLS)) }
    ensures write_fault { IsErrOf result KvError.WriteFault → K.failed_between sink.old sink.new }
    ensures refused { IfErr result (λ e. IsBadConfiguration e → (reader.new ≡ reader.old) × (sink.new ≡ sink.old)) }
{
    let mut source = Bounded::new(reader, READ_CALLS);
    race_script(rt, alloc, &mut source, sink, config, form, workers)
}
