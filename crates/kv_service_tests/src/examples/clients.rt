//! Many clients of one reader: each has a cursor of its own, and all of them are served from the versions that the
//! reader shows.

use super::*;
use kv_bucket::{
    Config, Filters, KvError, Live, LiveName, Options, Reader, Service, Start, Taken, Version,
};
use kv_test_tools::put;
use kv_watch::Cursor;
use std::sync::Wait;

const UPDATES: Options = Options {
    start: Start::Updates,
    ignore_deletes: false,
    headers_only: false,
};

const CLIENTS: usize = 100;

// A client: where it is in what it is given. It begins with updates, so that it needs no version of its own.
#[derive(Drop)]
struct Client {
    cursor: Cursor,
}

fn come(alloc: Global, now: &Version, filters: &Filters) -> Result<Client, KvError> {
    let cursor = Cursor::open(alloc, now, filters, UPDATES)?;
    Ok(Client { cursor })
}

// Hands a client what is next for it in this version, if anything is.
fn serve<'a>(client: &'a mut Client, now: &'a Version) -> Taken<'a> {
    client.cursor.take_settled(None, now)
}

fn all_come(alloc: Global, now: &Version, count: usize) -> Result<Vec<Client>, KvError> {
    let filters = Filters::parse(alloc, "app.>")?;
    let mut clients = Vec::new(alloc);
    for _ in 0..count {
        clients.push(come(alloc, now, &filters)?)?;
    }
    Ok(clients)
}

// How many clients are handed an entry next.
fn serve_all(clients: &mut Vec<Client>, now: &Version) -> u64 {
    let mut entries = 0_u64;
    for n in 0..clients.len() {
        if let Taken::Entry(_) = serve(&mut clients[n], now) {
            entries = entries.saturating_add(1);
        }
    }
    entries
}

// What a hundred clients of one reader are handed by one write.
fn one_write_for_all<N: LiveName, R: Wait>(
    rt: &R,
    alloc: Global,
    live: &Live<N>,
    reader: &mut Reader<N>,
) -> Result<u64, KvError> {
    let mut clients = all_come(alloc, &reader.version()?, CLIENTS)?;
    live.write(rt, &put(alloc, "app.port", "80")?)?;
    let now = reader.version()?;
    let markers = serve_all(&mut clients, &now);
    Ok(markers.saturating_add(serve_all(&mut clients, &now)))
}

#[derive(Drop)]
struct HundredClients {
    alloc: Global,
}

impl<R: Wait> Service<R> for HundredClients {
    type Answer = Result<u64, KvError>;

    fn run<N: LiveName>(
        self,
        rt: &R,
        live: &Live<N>,
        mut readers: Vec<Reader<N>>,
    ) -> Result<u64, KvError> {
        match readers.pop() {
            Some(mut reader) => one_write_for_all(rt, self.alloc, live, &mut reader),
            None => Err(KvError::NoReader),
        }
    }
}

fn hundred_clients<R: Wait>(rt: &R, alloc: Global) -> Result<u64, KvError> {
    let config = Config::named(alloc, "settings")?;
    Live::serve(rt, alloc, &config, 1, HundredClients { alloc })?
}

#[test]
fn each_of_a_hundred_clients_is_served_by_one_reader(rt: HostRuntime) -> Result<(), Fail> {
    let entries = once_more!(hundred_clients(&rt, rt.alloc()))?;
    assert_eq!(rt; entries, CLIENTS as u64);
    Ok(())
}
