//! The program on a bucket in a file, and the script of a file.

ghost use Rattle.std.specs.Prelude.{◌≡◌, ◌⊎◌, ◌≤◌, ◌<◌, ◌+◌, ◌^◌, ℕ, List, true, None, Some, Ok, IfErr, IfOk, OnErr, OnOk, codes, length};
ghost use Rattle.std.specs.Io.KnownBytes.{Appends};
ghost use Rattle.kv_keys.specs.declared.error.KvError.TheVariants.{OutOfMemory};
ghost use Rattle.kv_model.specs.Acts.{Act};
ghost use Rattle.kv_model.specs.Configuration.{Configuration, IsLegal, configure};
ghost use Rattle.kv_single.specs.Held.{Represents};
ghost use Rattle.kv_replay.specs.declared.streams.TheConstants.{READ_CALLS};
ghost use Rattle.kv_durable.specs.Durables.{state_of};
ghost use Rattle.kv_durable.specs.declared.error.DurableError.{DurableError as AFault};
ghost use Rattle.kv_durable.specs.declared.error.DurableError.TheVariants.{FileFault, Refused};
ghost use Rattle.kv_run.specs.Clashes.{clash_of, clash_text};
ghost use Rattle.kv_run.specs.Files.{DumpEndsBy, EndsOnFile, IsDumped, IsFileRefused, IsRunOn, IsUnbegun, RunEndsBy};
ghost use Rattle.kv_run.specs.Telling.{TellsBehind, TellsTorn, file_fault_text, file_status, torn_text};

use crate::arguments::Arguments;
use crate::clashes::{accuse, clash, when_of};
use crate::telling::{fail, tell_torn};
use kv_durable_script::{
    Durable, DurableError, Finished, Opened, Replacing, Sync as When, SystemFile, SystemLocation,
    dump, run_durable,
};
use kv_keys::KvError;
use kv_model::Config;
use kv_replay::{Bounded, Input, Output, READ_CALLS};
use std::alloc::Global;
use std::fs::{File, Files};
use std::io::{self, ErrorKind, Read};
use std::random::RandomSource;

/// The configuration that the words ask for, where it is legal.
fn legal_config(alloc: Global, arguments: &Arguments<'_>) -> Result<Config, DurableError>
    ensures ok { IfOk result (λ config. config ≡ arguments.now.config) }
    ensures legal { OnOk result (IsLegal arguments.now.config × (configure arguments.now.config ≡ Ok arguments.now.config)) }
    ensures err { IfErr result (λ e. IsUnbegun arguments.now.config e) }
{
    let config = arguments.config(alloc)?;
    config.check()?;
    Ok(config)
}

/// A number for a new file, by chance.
fn seed<T: RandomSource>(rt: &T) -> Result<u64, DurableError>
    ensures { IfErr result (λ e. e ≡ FileFault) }
{
    let mut bytes = [0u8; 8];
    match rt.fill_bytes(&mut bytes) {
        Ok(()) => Ok(u64::from_be_bytes(bytes)),
        Err(_) => Err(DurableError::FileFault),
    }
}

/// The file of a path, which is made if it isn't there, and its path behind all links: what takes the place of the file is not to
/// take that of a link.
fn file_of<T: Files<File = File>>(
    rt: &T,
    alloc: Global,
    path: &str,
) -> Result<(SystemFile, String), DurableError>
    ensures { IfErr result (λ e. (config : Configuration) → IsLegal config → IsUnbegun config e) }
{
    let file = SystemFile::open(rt, path)?;
    match rt.canonicalize(alloc, path) {
        Ok(path) => Ok((file, path.into_string())),
        Err(error) if error.kind() == ErrorKind::OutOfMemory => {
            Err(DurableError::Refused(KvError::OutOfMemory))
        }
        Err(_) => Err(DurableError::FileFault),
    }
}

/// Opens the bucket of a file that lies at this location.
fn open<T: Files<File = File> + RandomSource>(
    alloc: Global,
    config: &Config,
    file: SystemFile,
    location: &SystemLocation<'_, T>,
    when: When,
) -> Result<Opened<SystemFile>, DurableError>
    requires legal { IsLegal config.now × (configure config.now ≡ Ok config.now) }
    ensures ok { IfOk result (λ o. (acts : List Act) × Represents (state_of config.now acts) o.durable.bucket) }
    ensures err { IfErr result (λ e. IsUnbegun config.now e) }
{
    let seed = seed(location.rt)?;
    match Durable::open(alloc, config, file, location, seed, when) {
        Ok(opened) => Ok(opened),
        Err(refused) => Err(refused.error),
    }
}

/// The path of the file that takes the place of the one of a path: beside that, as from C.
fn path_beside(alloc: Global, path: &str) -> Result<String, DurableError>
    ensures { IfErr result (λ e. (config : Configuration) → IsUnbegun config e) }
{
    let next = format!(in alloc; "{path}.checkpoint")?;
    Ok(next)
}

/// Runs the script of the reader on the bucket of a file. A compaction that makes the file much smaller replaces it.
fn run<T: Files<File = File> + RandomSource, R: Input, W: Output, F: Output>(
    rt: &T,
    alloc: Global,
    arguments: &Arguments<'_>,
    path: &str,
    reader: &mut R,
    writer: &mut W,
    faults: &mut F,
) -> Result<(), DurableError>
    ensures ok { OnOk result (IsRunOn arguments.now.form arguments.now.config
        (R.left reader.old) (R.left reader.new) (W.held writer.old) (W.held writer.new)) }
    ensures err { IfErr result (λ e.
        (IsUnbegun arguments.now.config e × (((reader.new ≡ reader.old) × (writer.new ≡ writer.old)) × (faults.new ≡ faults.old)))
        ⊎ RunEndsBy arguments.now.form arguments.now.config
        (R.left reader.old) (R.left reader.new) (W.held writer.old) (W.held writer.new)
        (R.failed_between reader.old reader.new ⊎ (R.asked reader.new ≡ R.asked reader.old + READ_CALLS))
        (W.failed_between writer.old writer.new) e) }
    ensures same { F.goes_on faults.old faults.new }
    ensures told { ((torn : ℕ) × Appends (F.held faults.old) (F.held faults.new) (torn_text (codes "dropped") torn path.now))
        ⊎ F.failed_between faults.old faults.new }
{
    let config = legal_config(alloc, arguments)?;
    let when = when_of(arguments.sync()).unwrap_or(When::Each);
    let (file, real) = file_of(rt, alloc, path)?;
    let next = path_beside(alloc, real.as_str())?;
    let location = SystemLocation {
        rt,
        path: real.as_str(),
        next: next.as_str(),
    };
    let Opened {
        durable,
        dropped,
        ..
    } = open(alloc, &config, file, &location, when)?;
    tell_torn(alloc, dropped, "dropped", path, faults)?;
    let mut source = Bounded::new(reader, READ_CALLS);
    let replacing = Replacing {
        location: &location,
        seeds: rt,
    };
    let Finished { file: _, result } = run_durable(
        alloc,
        durable,
        replacing,
        &mut source,
        writer,
        arguments.form(),
    );
    result
}

fn read_into<T: Files<File = File>>(rt: &T, path: &str, bytes: &mut Vec<u8>) -> io::Result<()> {
    let mut file = File::open(rt, path)?;
    file.read_to_end(bytes)?;
    Ok(())
}

/// All bytes of a file that is there.
fn read<T: Files<File = File>>(rt: &T, alloc: Global, path: &str) -> Result<Vec<u8>, DurableError>
    ensures { IfErr result (λ e. (e ≡ Refused OutOfMemory) ⊎ (e ≡ FileFault)) }
{
    let mut bytes = Vec::new(alloc);
    match read_into(rt, path, &mut bytes) {
        Ok(()) => Ok(bytes),
        Err(error) if error.kind() == ErrorKind::OutOfMemory => {
            Err(DurableError::Refused(KvError::OutOfMemory))
        }
        Err(_) => Err(DurableError::FileFault),
    }
}

/// Writes the script of a file. It takes no lock: what the file has at this moment counts.
fn show<T: Files<File = File>, W: Output, F: Output>(
    rt: &T,
    alloc: Global,
    arguments: &Arguments<'_>,
    path: &str,
    writer: &mut W,
    faults: &mut F,
) -> Result<(), DurableError>
    ensures ok { OnOk result (IsDumped arguments.now.config (W.held writer.old) (W.held writer.new)) }
    ensures err { IfErr result (λ e. (IsUnbegun arguments.now.config e × (writer.new ≡ writer.old))
        ⊎ DumpEndsBy arguments.now.config (W.held writer.old) (W.held writer.new) (W.failed_between writer.old writer.new) e) }
    ensures untold { OnErr result (faults.new ≡ faults.old) }
    ensures same { F.goes_on faults.old faults.new }
    ensures told { OnOk result (((torn : ℕ) × Appends (F.held faults.old) (F.held faults.new) (torn_text (codes "left out") torn path.now))
        ⊎ F.failed_between faults.old faults.new) }
{
    let config = legal_config(alloc, arguments)?;
    let bytes = read(rt, alloc, path)?;
    let left_out = dump(alloc, &config, bytes.as_slice(), writer)?;
    tell_torn(alloc, left_out, "left out", path, faults)
}

/// Does what words ask for that speak of a file.
fn answer<T: Files<File = File> + RandomSource, R: Input, W: Output, F: Output>(
    rt: &T,
    alloc: Global,
    arguments: &Arguments<'_>,
    reader: &mut R,
    writer: &mut W,
    faults: &mut F,
) -> Result<(), DurableError>
    ensures kept { OnOk result ((path : List ℕ) → arguments.now.journal ≡ Some path → IsRunOn arguments.now.form arguments.now.config
        (R.left reader.old) (R.left reader.new) (W.held writer.old) (W.held writer.new)) }
    ensures dumped { OnOk result ((path : List ℕ) → arguments.now.journal ≡ None → arguments.now.dump ≡ Some path →
        IsDumped arguments.now.config (W.held writer.old) (W.held writer.new)) }
    ensures err { IfErr result (λ e. EndsOnFile arguments.now (R.left reader.old) (R.left reader.new) (W.held writer.old) (W.held writer.new)
        ((reader.new ≡ reader.old) × (writer.new ≡ writer.old))
        (R.failed_between reader.old reader.new ⊎ (R.asked reader.new ≡ R.asked reader.old + READ_CALLS))
        (W.failed_between writer.old writer.new)
        (faults.new ≡ faults.old)
        (TellsTorn arguments.now (F.held faults.old) (F.held faults.new) (F.failed_between faults.old faults.new)) e) }
    ensures same { F.goes_on faults.old faults.new }
    ensures told { OnOk result (TellsTorn arguments.now (F.held faults.old) (F.held faults.new) (F.failed_between faults.old faults.new)) }
{
    match arguments.journal() {
        Some(path) => run(rt, alloc, arguments, path, reader, writer, faults),
        None => match arguments.dump() {
            Some(path) => show(rt, alloc, arguments, path, writer, faults),
            None => Ok(()),
        },
    }
}

/// Does what words ask for that speak of a file, and answers the status.
pub(crate) fn with_file<T: Files<File = File> + RandomSource, R: Input, W: Output, F: Output>(
    rt: &T,
    alloc: Global,
    arguments: &Arguments<'_>,
    reader: &mut R,
    writer: &mut W,
    faults: &mut F,
) -> u8
    ensures status { result ≤ 2 }
    ensures kept { result ≡ 0 → (path : List ℕ) → arguments.now.journal ≡ Some path → IsRunOn arguments.now.form arguments.now.config
        (R.left reader.old) (R.left reader.new) (W.held writer.old) (W.held writer.new) }
    ensures dumped { result ≡ 0 → (path : List ℕ) → arguments.now.journal ≡ None → arguments.now.dump ≡ Some path →
        IsDumped arguments.now.config (W.held writer.old) (W.held writer.new) }
    ensures done { result ≡ 0 →
        TellsTorn arguments.now (F.held faults.old) (F.held faults.new) (F.failed_between faults.old faults.new) }
    ensures clashes { (clash : List ℕ) → clash_of arguments.now ≡ Some clash → (result ≡ 2)
        × (((reader.new ≡ reader.old) × (writer.new ≡ writer.old))
        × (Appends (F.held faults.old) (F.held faults.new) (clash_text clash) ⊎ F.failed_between faults.old faults.new)) }
    ensures refused { result ≡ 2 → clash_of arguments.now ≡ None → ((reader.new ≡ reader.old) × (writer.new ≡ writer.old))
        × IsFileRefused arguments.now.config (F.held faults.old) (F.held faults.new) (F.failed_between faults.old faults.new) }
    ensures stopped { result ≡ 1 → (error : AFault) × ((file_status error ≡ 1)
        × EndsOnFile arguments.now (R.left reader.old) (R.left reader.new) (W.held writer.old) (W.held writer.new)
        ((reader.new ≡ reader.old) × (writer.new ≡ writer.old))
        (R.failed_between reader.old reader.new ⊎ (R.asked reader.new ≡ R.asked reader.old + READ_CALLS))
        (W.failed_between writer.old writer.new)
        (Appends (F.held faults.old) (F.held faults.new) (file_fault_text error) ⊎ F.failed_between faults.old faults.new)
        (TellsBehind arguments.now (F.held faults.old) (F.held faults.new) (F.failed_between faults.old faults.new)
        (file_fault_text error))
        error) }
{
    if let Some(fault) = clash(arguments) {
        return accuse(fault, faults);
    }
    match answer(rt, alloc, arguments, reader, writer, faults) {
        Ok(()) => 0,
        Err(error) => fail(alloc, error, faults),
    }
}
