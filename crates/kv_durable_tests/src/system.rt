//! Tests of durable buckets over files of the system.

use crate::acts::put_in;
use crate::equal::equal;
use kv_durable::{Durable, DurableError, OpenFault, Opened, Sync, SystemFile};
use kv_file::{JournalFile, ReplaceFault, ReplaceableFile, SystemLocation};
use kv_model::Config;
use kv_test_tools::twice;
use std::alloc::Global;
use std::hash::{BuildHasher, RandomState};
use std::process::Abort;
use std::test::Fail;
use std::{env, fs};

// What the system answers. A test ends where it refuses a call, as where the file of a bucket fails.
fn of_system<T, E: Drop>(answer: Result<T, E>) -> Result<T, DurableError> {
    match answer {
        Ok(value) => Ok(value),
        Err(_) => Err(DurableError::FileFault),
    }
}

// A name that no file has, in the folder for such files.
fn new_path(rt: &HostRuntime) -> Result<String, DurableError> {
    let folder = of_system(env::temp_dir(rt))?;
    let number = of_system(RandomState::new(rt))?.hash_one(&0u8);
    Ok(format!(in rt.alloc(); "{}/kv-{number}.journal", folder.as_str())?)
}

// The bucket of a file that lies at this location.
fn opened_in(
    alloc: Global,
    file: SystemFile,
    location: &SystemLocation<HostRuntime>,
) -> Result<Opened<SystemFile>, DurableError> {
    let config = Config::named(alloc, "settings")?;
    match Durable::open(alloc, &config, file, location, 7, Sync::Each) {
        Ok(opened) => Ok(opened),
        Err(refused) => Err(refused.error),
    }
}

fn opened(rt: &HostRuntime, alloc: Global, path: &str) -> Result<Opened<SystemFile>, DurableError> {
    let next = format!(in alloc; "{path}.next")?;
    let location = SystemLocation {
        rt,
        path,
        next: next.as_str(),
    };
    let file = SystemFile::open(rt, path)?;
    opened_in(alloc, file, &location)
}

// Writes twice, and answers where the file ends.
fn write_twice(rt: &HostRuntime, alloc: Global, path: &str) -> Result<u64, DurableError> {
    let mut bucket = opened(rt, alloc, path)?.durable;
    put_in(alloc, &mut bucket, "app.port", "80")?;
    put_in(alloc, &mut bucket, "app.host", "kv")?;
    Ok(bucket.journal().offset())
}

// What was written is there again, once nothing has the file any more.
fn is_there_again(
    rt: &HostRuntime,
    test: &impl Abort,
    alloc: Global,
    path: &str,
) -> Result<(), DurableError> {
    let end = write_twice(rt, alloc, path)?;
    equal(test, of_system(fs::metadata(rt, path))?.len(), end);
    let again = opened(rt, alloc, path)?;
    equal(test, again.dropped, 0);
    equal(test, again.durable.bucket().version().revision(), 2);
    drop(of_system(again.durable.close())?);
    Ok(())
}

fn is_busy(rt: &HostRuntime, test: &impl Abort, path: &str) {
    let opened = SystemFile::open(rt, path);
    assert!(test; matches!(opened, Err(OpenFault::Busy)));
}

// A file that is open is busy, and one that was let go is not.
fn is_busy_while_open(rt: &HostRuntime, test: &impl Abort, path: &str) -> Result<(), DurableError> {
    let file = SystemFile::open(rt, path)?;
    is_busy(rt, test, path);
    drop(file);
    let third = SystemFile::open(rt, path)?;
    assert!(test; third.is_usable());
    Ok(())
}

fn add(file: &mut SystemFile, bytes: &[u8]) -> Result<(), DurableError> {
    file.append(bytes)?;
    Ok(())
}

// The file has these bytes, and no others.
fn has(
    test: &impl Abort,
    alloc: Global,
    file: &mut SystemFile,
    bytes: &[u8],
) -> Result<(), DurableError> {
    equal(test, of_system(file.read(alloc))?.as_slice(), bytes);
    Ok(())
}

// What is asked of a file is done: what is added stands behind what is there, and what is cut off is gone.
fn is_as_asked(
    rt: &HostRuntime,
    test: &impl Abort,
    alloc: Global,
    path: &str,
) -> Result<(), DurableError> {
    let mut file = SystemFile::open(rt, path)?;
    add(&mut file, b"abc")?;
    has(test, alloc, &mut file, b"abc")?;
    add(&mut file, b"def")?;
    file.sync()?;
    has(test, alloc, &mut file, b"abcdef")?;
    file.cut(4)?;
    add(&mut file, b"x")?;
    has(test, alloc, &mut file, b"abcdx")
}

// What is told where a file is replaced by a new one, which is made at another path first.
fn replaced(
    rt: &HostRuntime,
    alloc: Global,
    file: &mut SystemFile,
    path: &str,
    next: &str,
) -> Result<Result<(), ReplaceFault>, DurableError> {
    let location = SystemLocation { rt, path, next };
    let new = Vec::from_slice(alloc, b"new")?;
    Ok(file.replace(&location, new))
}

// The file at this path has these bytes, whoever has it open.
fn lies_at(
    rt: &HostRuntime,
    test: &impl Abort,
    path: &str,
    bytes: &[u8],
) -> Result<(), DurableError> {
    equal(test, of_system(fs::read(rt, path))?.as_slice(), bytes);
    Ok(())
}

// A file that was replaced has the new bytes alone, goes on behind them, and is busy still.
fn is_replaced(
    rt: &HostRuntime,
    test: &impl Abort,
    alloc: Global,
    path: &str,
) -> Result<(), DurableError> {
    let next = format!(in alloc; "{path}.new")?;
    let next = next.as_str();
    let mut file = SystemFile::open(rt, path)?;
    add(&mut file, b"old")?;
    of_system(fs::write(rt, next, b"left over"))?;
    of_system(replaced(rt, alloc, &mut file, path, next)?)?;
    add(&mut file, b"er")?;
    file.sync()?;
    lies_at(rt, test, path, b"newer")?;
    has(test, alloc, &mut file, b"newer")?;
    assert!(test; fs::metadata(rt, next).is_err());
    is_busy(rt, test, path);
    Ok(())
}

// A file that cannot be replaced stays, and goes on.
fn stays(
    rt: &HostRuntime,
    test: &impl Abort,
    alloc: Global,
    path: &str,
) -> Result<(), DurableError> {
    let mut file = SystemFile::open(rt, path)?;
    add(&mut file, b"old")?;
    let told = replaced(rt, alloc, &mut file, path, "no/such/folder/x")?;
    equal(test, told, Err(ReplaceFault::Unchanged));
    add(&mut file, b"er")?;
    has(test, alloc, &mut file, b"older")
}

// What is shown of a file.
#[derive(Drop)]
enum Shown {
    IsThereAgain,
    IsBusy,
    IsAsAsked,
    IsReplaced,
    Stays,
}

fn show(
    rt: &HostRuntime,
    test: &impl Abort,
    alloc: Global,
    path: &str,
    shown: Shown,
) -> Result<(), DurableError> {
    match shown {
        Shown::IsThereAgain => is_there_again(rt, test, alloc, path),
        Shown::IsBusy => is_busy_while_open(rt, test, path),
        Shown::IsAsAsked => is_as_asked(rt, test, alloc, path),
        Shown::IsReplaced => is_replaced(rt, test, alloc, path),
        Shown::Stays => stays(rt, test, alloc, path),
    }
}

// Shows this of a file of its own, which is gone then.
fn on_new_file(
    rt: &HostRuntime,
    test: &impl Abort,
    alloc: Global,
    shown: Shown,
) -> Result<(), DurableError> {
    let path = new_path(rt)?;
    let path = path.as_str();
    let ended = show(rt, test, alloc, path, shown);
    of_system(fs::remove_file(rt, path))?;
    ended
}

#[test]
fn what_was_written_is_there_again(rt: HostRuntime) -> Result<(), Fail> {
    Ok(twice!(on_new_file(&rt, &rt, rt.alloc(), Shown::IsThereAgain))?)
}

#[test]
fn a_file_is_busy_while_it_is_open(rt: HostRuntime) -> Result<(), Fail> {
    Ok(twice!(on_new_file(&rt, &rt, rt.alloc(), Shown::IsBusy))?)
}

#[test]
fn a_file_does_as_it_is_asked(rt: HostRuntime) -> Result<(), Fail> {
    Ok(twice!(on_new_file(&rt, &rt, rt.alloc(), Shown::IsAsAsked))?)
}

#[test]
fn what_is_no_file_is_not_opened(rt: HostRuntime) {
    for path in ["/", "/dev/null", "no/such/folder/x", "/dev/full"] {
        let opened = SystemFile::open(&rt, path);
        assert!(rt; matches!(opened, Err(OpenFault::Failed)));
    }
}

#[test]
fn a_file_of_the_system_is_replaced(rt: HostRuntime) -> Result<(), Fail> {
    Ok(twice!(on_new_file(&rt, &rt, rt.alloc(), Shown::IsReplaced))?)
}

#[test]
fn a_file_that_cannot_be_replaced_stays(rt: HostRuntime) -> Result<(), Fail> {
    Ok(twice!(on_new_file(&rt, &rt, rt.alloc(), Shown::Stays))?)
}
