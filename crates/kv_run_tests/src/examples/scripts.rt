//! A script, as a library runs it.

use super::*;
use kv_keys::KvError;
use kv_model::Config;
use kv_run::{CountedReader, CountedWriter, Form, replay_in};

fn run_script(rt: &impl Abort, alloc: Global) -> Result<(), KvError> {
    let config = Config::named(alloc, "settings")?;
    let mut script: &[u8] = b"put app.port 80\nget app.port\nput app..port 80\n";
    let mut answers: Vec<u8> = Vec::new(alloc);
    replay_in(
        alloc,
        &mut CountedReader::new(&mut script),
        &mut CountedWriter::new(&mut answers),
        &config,
        Form::Text,
    )?;

    let text = concat!(
        "{\"revision\":1}\n",
        "{\"key\":\"app.port\",\"op\":\"PUT\",\"revision\":1,\"size\":2,\"value\":\"80\"}\n",
        "{\"code\":4,\"error\":\"BadKey\"}\n",
    );
    assert_eq!(rt; answers.as_slice(), text.as_bytes());
    Ok(())
}

#[test]
fn replay_answers_each_line_of_a_script(rt: HostRuntime) -> Result<(), Fail> {
    match run_script(&rt, rt.alloc()) {
        // (a vector that finds no memory for what is written to it is a device that takes no more)
        Err(KvError::OutOfMemory) | Err(KvError::WriteFault) => Ok(run_script(&rt, rt.alloc())?),
        done => Ok(done?),
    }
}
