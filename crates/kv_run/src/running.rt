//! The program, over the words, the reader and the writers that it is handed.

ghost use Rattle.std.specs.Prelude.{◌≡◌, ◌≤◌, ◌+◌, ◌⊎◌, ℕ, take, map, string_bytes, OnOk, OnErr, IfErr, IsErrOf, List, [], None, Some, false};
ghost use Rattle.std.specs.Io.KnownBytes.{Appends};
ghost use Rattle.clap.specs.Kinds.{HasKind, Kinds};
ghost use Rattle.kv_keys.specs.declared.error.KvError.TheVariants.{OutOfMemory};
ghost use Rattle.kv_run.specs.Arguments.{AreInMemory, config_of, faults_of, form_of, is_in_memory, race_of, wanted_of};
ghost use Rattle.kv_run.specs.Clashes.{clash_of, clash_text};
ghost use Rattle.kv_durable.specs.declared.error.DurableError.{DurableError as AFault};
ghost use Rattle.kv_replay.specs.Faults.{IsBadConfiguration};
ghost use Rattle.kv_run.specs.Files.{EndsOnFile, IsDumped, IsFileRefused, IsRunOn};
ghost use Rattle.kv_run.specs.Programs.{fault_text, status_of, AreWrong, EndsBy, IsRefusedBy, IsRun, IsShown, RanAs, ShowingEnds};
ghost use Rattle.kv_run.specs.Telling.{TellsBehind, TellsTorn, file_fault_text, file_status};
ghost use Rattle.kv_replay.specs.declared.streams.TheConstants.{READ_CALLS};

use crate::arguments::Arguments;
use crate::files::with_file;
use crate::help::{HELP, VERSION};
use crate::races::over_scripts::replay_race;
use clap::Error;
use clap::error::ErrorKind;
use kv_keys::KvError;
use kv_replay::{Input, Output, replay_in};
use std::alloc::Global;
use std::fs::{File, Files};
use std::random::RandomSource;
use std::sync::Wait;
use std::thread::Threads;

/// Runs the script of the reader under the arguments, or a race over it.
fn run<T: Threads + Wait + Sync, R: Input, W: Output>(
    rt: &T,
    alloc: Global,
    arguments: &Arguments<'_>,
    reader: &mut R,
    writer: &mut W,
) -> Result<(), KvError>
    ensures ran { RanAs arguments.now.form arguments.now.race arguments.now.config
        (R.left reader.old) (R.left reader.new) (W.held writer.old) (W.held writer.new) result
        ⊎ (IsErrOf result OutOfMemory × ((reader.new ≡ reader.old) × (writer.new ≡ writer.old))) }
    ensures read_fault { IsErrOf result KvError.ReadFault →
        (R.failed_between reader.old reader.new ⊎ (R.asked reader.new ≡ R.asked reader.old + READ_CALLS)) }
    ensures write_fault { IsErrOf result KvError.WriteFault → W.failed_between writer.old writer.new }
    ensures refused { IfErr result (λ e. IsBadConfiguration e → (reader.new ≡ reader.old) × (writer.new ≡ writer.old)) }
{
    let config = arguments.config(alloc)?;
    let form = arguments.form();
    match arguments.race() {
        Some(workers) => replay_race(rt, alloc, reader, writer, &config, form, workers as usize),
        None => replay_in(alloc, reader, writer, &config, form),
    }
}

/// Writes the line that names a refusal.
fn tell<F: Output>(error: KvError, faults: &mut F) -> Result<(), KvError>
    ensures told { OnOk result (Appends (F.held faults.old) (F.held faults.new) (fault_text error)) }
    ensures failed { OnErr result (F.failed_between faults.old faults.new) }
{
    faults.write(b"kvbucket: ")?;
    faults.write(error.name().as_bytes())?;
    faults.write(b"\n")
}

/// Names on `faults` the refusal that ended the run, and answers its status.
fn fail<F: Output>(error: KvError, faults: &mut F) -> u8
    ensures status { result ≡ status_of error }
    ensures told { Appends (F.held faults.old) (F.held faults.new) (fault_text error)
        ⊎ F.failed_between faults.old faults.new }
{
    let _ = tell(error, faults);
    match error {
        KvError::BadBucket | KvError::BadConfig => 2,
        _ => 1,
    }
}

/// Shows a text that the words ask for.
fn show<W: Output, F: Output>(text: &str, writer: &mut W, faults: &mut F) -> u8
    ensures status { result ≤ 1 }
    ensures done { result ≡ 0 → (faults.new ≡ faults.old) × Appends (W.held writer.old) (W.held writer.new) text.now }
    ensures stopped { result ≡ 1 → ((n : ℕ) × Appends (W.held writer.old) (W.held writer.new) (take n text.now))
        × (W.failed_between writer.old writer.new
        × (Appends (F.held faults.old) (F.held faults.new) (fault_text KvError.WriteFault)
        ⊎ F.failed_between faults.old faults.new)) }
{
    match writer.write(text.as_bytes()) {
        Ok(()) => 0,
        Err(error) => fail(error, faults),
    }
}

/// Tells what is wrong with the words.
fn accuse<F: Output>(alloc: Global, error: &Error, faults: &mut F) -> u8
    ensures status { (result ≡ 2) ⊎ (result ≡ 1) }
    ensures stopped { result ≡ 1 →
        Appends (F.held faults.old) (F.held faults.new) (fault_text KvError.OutOfMemory)
        ⊎ F.failed_between faults.old faults.new }
{
    let Ok(text) = format!(in alloc; "{error}") else {
        return fail(KvError::OutOfMemory, faults);
    };
    let _ = faults.write(text.as_bytes());
    2
}

/// Shows what the words ask for, or tells what is wrong with them.
fn refuse<W: Output, F: Output>(alloc: Global, error: &Error, writer: &mut W, faults: &mut F) -> u8
    ensures status { result ≤ 2 }
    ensures done { result ≡ 0 → (faults.new ≡ faults.old) × ((kinds : Kinds) → HasKind kinds error.now →
        IsShown kinds (W.held writer.old) (W.held writer.new)) }
    ensures stopped { result ≡ 1 → (kinds : Kinds) → HasKind kinds error.now → (cause : KvError) ×
        ((Appends (F.held faults.old) (F.held faults.new) (fault_text cause) ⊎ F.failed_between faults.old faults.new)
        × ((ShowingEnds kinds (W.held writer.old) (W.held writer.new) cause × W.failed_between writer.old writer.new)
        ⊎ ((cause ≡ OutOfMemory) × (writer.new ≡ writer.old)))) }
    ensures wrong { result ≡ 2 → (writer.new ≡ writer.old) × ((kinds : Kinds) → HasKind kinds error.now →
        AreWrong kinds) }
{
    match error.kind() {
        ErrorKind::OutOfMemory => fail(KvError::OutOfMemory, faults),
        ErrorKind::DisplayHelp => show(HELP, writer, faults),
        ErrorKind::DisplayVersion => show(VERSION, writer, faults),
        _ => accuse(alloc, error, faults),
    }
}

/// Does what the words ask for: the first is the program's name, the others are its arguments.
///
/// The status is 0 where the script was run to its end, or help or the version was shown; 1 where the run ended for
/// want of memory, as a device failed, or as a race ended early; 2 for a fault in the arguments or a configuration that
/// is not legal. What went wrong is told on `faults`; that this fails changes no status.
///
/// With the option for a race the script is read to its end first, and workers race over it: their threads are those of
/// `rt`. Memory goes to the bucket, to one line, and to 64 KiB and one answer.
///
/// With the option for a journal the bucket is that of a file of the system, which [`run_durable`](kv_durable_script::run_durable)
/// keeps in step with the answers, and with the option for a dump the script of such a file is written.
pub fn program<
    T: Threads + Wait + Sync + Files<File = File> + RandomSource,
    R: Input,
    W: Output,
    F: Output,
>(rt: &T, alloc: Global, words: &[String], reader: &mut R, writer: &mut W, faults: &mut F) -> u8
    ensures status { result ≤ 2 }
    // All was read, and its text under the configuration of the words, which is legal, was written; or the words ask
    // for a text, which was written. Nothing is told of faults.
    ensures done { AreInMemory (map string_bytes words.now) → result ≡ 0 → (faults.new ≡ faults.old)
        × (IsRun (faults_of (map string_bytes words.now)) (form_of (map string_bytes words.now))
        (race_of (map string_bytes words.now))
        (config_of (map string_bytes words.now))
        (R.left reader.old) (R.left reader.new) (W.held writer.old) (W.held writer.new)
        ⊎ (IsShown (faults_of (map string_bytes words.now)) (W.held writer.old) (W.held writer.new)
        × (reader.new ≡ reader.old))) }
    // The run ended by a refusal, which is told unless `faults` failed, and what it says of the bytes holds.
    ensures stopped { AreInMemory (map string_bytes words.now) → result ≡ 1 → (error : KvError) ×
        ((Appends (F.held faults.old) (F.held faults.new) (fault_text error) ⊎ F.failed_between faults.old faults.new)
        × EndsBy (faults_of (map string_bytes words.now)) (form_of (map string_bytes words.now))
        (race_of (map string_bytes words.now))
        (config_of (map string_bytes words.now))
        (R.left reader.old) (R.left reader.new) (W.held writer.old) (W.held writer.new)
        (R.failed_between reader.old reader.new ⊎ (R.asked reader.new ≡ R.asked reader.old + READ_CALLS))
        (W.failed_between writer.old writer.new) error) }
    // The words are wrong, or the configuration that they ask for is refused, which is told; then nothing was read or
    // written. So where the words are fine and the configuration is legal, the status is 0 or 1.
    ensures refused { AreInMemory (map string_bytes words.now) → result ≡ 2 → ((reader.new ≡ reader.old) × (writer.new ≡ writer.old))
        × (AreWrong (faults_of (map string_bytes words.now)) ⊎ ((error : KvError) ×
        (IsRefusedBy (faults_of (map string_bytes words.now)) (race_of (map string_bytes words.now))
        (config_of (map string_bytes words.now)) error
        × (Appends (F.held faults.old) (F.held faults.new) (fault_text error)
        ⊎ F.failed_between faults.old faults.new)))) }
    // Words that name a journal: all was read, and its text on a bucket of some acts was written, or the status is not 0.
    ensures kept { result ≡ 0 → faults_of (map string_bytes words.now) ≡ [] → (path : List ℕ) →
        (wanted_of (map string_bytes words.now)).journal ≡ Some path →
        IsRunOn (form_of (map string_bytes words.now)) (config_of (map string_bytes words.now))
        (R.left reader.old) (R.left reader.new) (W.held writer.old) (W.held writer.new) }
    // And those that ask for a dump: the commands of entries were written.
    ensures dumped { result ≡ 0 → faults_of (map string_bytes words.now) ≡ [] → (path : List ℕ) →
        (wanted_of (map string_bytes words.now)).journal ≡ None → (wanted_of (map string_bytes words.now)).dump ≡ Some path →
        IsDumped (config_of (map string_bytes words.now)) (W.held writer.old) (W.held writer.new) }
    // Words that speak of a file, and clash: the first clash is told, unless memory ran out before, and nothing was read or written.
    ensures clashes { faults_of (map string_bytes words.now) ≡ [] → (clash : List ℕ) →
        clash_of (wanted_of (map string_bytes words.now)) ≡ Some clash → ((reader.new ≡ reader.old) × (writer.new ≡ writer.old))
        × (((result ≡ 2) × (Appends (F.held faults.old) (F.held faults.new) (clash_text clash)
        ⊎ F.failed_between faults.old faults.new))
        ⊎ ((result ≡ 1) × (Appends (F.held faults.old) (F.held faults.new) (fault_text KvError.OutOfMemory)
        ⊎ F.failed_between faults.old faults.new))) }
    // And others: their configuration is refused, which is told, and nothing was read or written. So where nothing clashes and the
    // configuration is legal, the status is 0 or 1.
    ensures file_refused { faults_of (map string_bytes words.now) ≡ [] →
        is_in_memory (wanted_of (map string_bytes words.now)) ≡ false → result ≡ 2 →
        clash_of (wanted_of (map string_bytes words.now)) ≡ None →
        ((reader.new ≡ reader.old) × (writer.new ≡ writer.old))
        × IsFileRefused (config_of (map string_bytes words.now)) (F.held faults.old) (F.held faults.new)
        (F.failed_between faults.old faults.new) }
    // They ended by an error, which is told, alone or behind the line on the torn end of the file, and what it says of the bytes
    // holds. Where the run or the dump was not begun, nothing was read or written.
    ensures file_stopped { faults_of (map string_bytes words.now) ≡ [] →
        is_in_memory (wanted_of (map string_bytes words.now)) ≡ false → result ≡ 1 → (error : AFault) × ((file_status error ≡ 1)
        × EndsOnFile (wanted_of (map string_bytes words.now))
        (R.left reader.old) (R.left reader.new) (W.held writer.old) (W.held writer.new)
        ((reader.new ≡ reader.old) × (writer.new ≡ writer.old))
        (R.failed_between reader.old reader.new ⊎ (R.asked reader.new ≡ R.asked reader.old + READ_CALLS))
        (W.failed_between writer.old writer.new)
        (Appends (F.held faults.old) (F.held faults.new) (file_fault_text error) ⊎ F.failed_between faults.old faults.new)
        (TellsBehind (wanted_of (map string_bytes words.now)) (F.held faults.old) (F.held faults.new)
        (F.failed_between faults.old faults.new) (file_fault_text error))
        error) }
    // And where they came to their end, nothing was told but the line on the torn end of the file, if it has one.
    ensures file_done { faults_of (map string_bytes words.now) ≡ [] →
        is_in_memory (wanted_of (map string_bytes words.now)) ≡ false → result ≡ 0 →
        TellsTorn (wanted_of (map string_bytes words.now)) (F.held faults.old) (F.held faults.new)
        (F.failed_between faults.old faults.new) }
{
    match Arguments::parse(alloc, words) {
        Ok(arguments) if !arguments.is_in_memory() => {
            with_file(rt, alloc, &arguments, reader, writer, faults)
        }
        Ok(arguments) => match run(rt, alloc, &arguments, reader, writer) {
            Ok(()) => 0,
            Err(error) => fail(error, faults),
        },
        Err(error) => refuse(alloc, &error, writer, faults),
    }
}
