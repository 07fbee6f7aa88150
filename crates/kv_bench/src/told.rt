//! Figures of rounds of threads: a writer beside readers or followers.

use crate::round::{Done, Task};
use kv_gauge::clock::{a_second, each};
use kv_gauge::fault::{Answer, Fault, check};
use kv_gauge::plan::Plan;
use kv_gauge::series::{Name, Series};
use std::alloc::Global;

// How many threads there are beside the writer.
const READERS: &'static [usize] = &[0, 1, 2, 3, 4];

const READERS_OF_ALL: &'static [usize] = &[0, 1, 4];

const FEEDS: &'static [usize] = &[1, 8, 31];

const SLEEPERS: &'static [usize] = &[1, 2, 3];

/// Over what rounds of threads take place.
#[derive(Clone, Copy)]
pub enum Over {
    /// A live bucket, with a feed to each follower.
    Live,
    /// A map under a lock, with a channel to each follower.
    Map,
}

fn numbers(task: Task) -> &'static [usize] {
    match task {
        Task::Read => READERS,
        Task::ReadAll => READERS_OF_ALL,
        Task::Follow | Task::Nap => FEEDS,
        Task::Delay => SLEEPERS,
    }
}

/// The most threads beside the writer.
pub fn most(task: Task) -> usize {
    numbers(task).last().copied().unwrap_or(0)
}

/// What rounds with so many beside the writer gave: what these did, and the writer's writes and its processor time.
pub struct Told {
    /// How many there are beside the writer.
    pub number: usize,
    others: Series,
    writes: Series,
    busy: Series,
}

// Field by field: a derived drop makes each proof longer that owns one.
impl Drop for Told {
    fn drop(self) {
        let Self {
            number: _,
            others: _,
            writes: _,
            busy: _,
        } = self;
    }
}

fn of(over: Over, task: Task) -> &'static str {
    match (over, task) {
        (Over::Live, _) => "Vilgoued",
        (Over::Map, Task::Read | Task::ReadAll) => "HashMap under RwLock",
        (Over::Map, _) => "HashMap under RwLock and channels",
    }
}

fn named(over: Over, task: Task, others: usize) -> Name {
    let (group, what, unit) = match task {
        Task::Read => ("threads", "reads", "a second"),
        Task::ReadAll => ("threads-all", "reads", "a second"),
        Task::Follow => ("feeds", "items", "a second"),
        Task::Nap => ("naps", "items", "a second"),
        Task::Delay => ("delay", "delay", "ns"),
    };
    let of = of(over, task);
    Name {
        group,
        what,
        of,
        others,
        unit,
    }
}

// What readers did a second, each by its own time.
fn sum_of_rates(done: &[Done]) -> u64 {
    let mut rates = 0_u64;
    for one in done {
        rates = rates.saturating_add(a_second(one.count as u64, one.nanos));
    }
    rates
}

// The items that followers were handed a second, up to the end of the last.
fn items_a_second(done: &[Done]) -> u64 {
    let mut items = 0_usize;
    let mut nanos = 0_u64;
    for one in done {
        items = items.saturating_add(one.count);
        nanos = nanos.max(one.nanos);
    }
    a_second(items as u64, nanos)
}

// The times from the writes' returns to their items.
fn add_delays(series: &mut Series, written: &[u64], handed: &[u64]) -> Result<(), Fault> {
    check(written.len() == handed.len(), Answer::Items)?;
    for (from, to) in written.iter().zip(handed.iter()) {
        series.add(to.saturating_sub(*from).saturating_mul(10))?;
    }
    Ok(())
}

impl Told {
    /// No rounds yet.
    fn new(alloc: Global, plan: Plan, task: Task, over: Over, number: usize) -> Told {
        let name = named(over, task, number);
        let writes = Name {
            what: "writes",
            unit: "a second",
            ..name
        };
        let busy = Name {
            what: "processor time of a write",
            unit: "ns",
            ..name
        };
        Told {
            number,
            others: Series::new(alloc, name, plan),
            writes: Series::new(alloc, writes, plan),
            busy: Series::new(alloc, busy, plan),
        }
    }

    fn add_writes(&mut self, writer: &Done) -> Result<(), Fault> {
        self.writes
            .add(a_second(writer.count as u64, writer.nanos))?;
        self.busy.add(each(writer.busy, writer.count))
    }

    fn add(&mut self, task: Task, writer: &Done, others: &[Done]) -> Result<(), Fault> {
        match task {
            Task::Read | Task::ReadAll => {
                if !others.is_empty() {
                    self.others.add(sum_of_rates(others))?;
                }
                self.add_writes(writer)
            }
            Task::Follow | Task::Nap => {
                self.others.add(items_a_second(others))?;
                self.add_writes(writer)
            }
            Task::Delay => {
                for one in others {
                    add_delays(
                        &mut self.others,
                        writer.moments.as_slice(),
                        one.moments.as_slice(),
                    )?;
                }
                Ok(())
            }
        }
    }

    /// Adds what a round gave.
    pub fn add_round(&mut self, task: Task, done: &[Done]) -> Result<(), Fault> {
        match done {
            [writer, others @ ..] => self.add(task, writer, others),
            [] => Ok(()),
        }
    }

    // Tells the figures. Of delays the most is that which 99 of 100 are not above.
    fn tell<R: Print>(&mut self, rt: &R, task: Task) -> Result<(), Fault> {
        let percent = if let Task::Delay = task { 99 } else { 100 };
        self.others.tell_up_to(rt, percent)?;
        self.writes.tell(rt)?;
        self.busy.tell(rt)
    }
}

/// No rounds yet, for each number of threads beside the writer.
pub fn untold(alloc: Global, plan: Plan, task: Task, over: Over) -> Result<Vec<Told>, Fault> {
    let mut all = Vec::new(alloc);
    for number in numbers(task) {
        all.push(Told::new(alloc, plan, task, over, *number))?;
    }
    Ok(all)
}

/// Tells the figures of all.
pub fn tell_all<R: Print>(rt: &R, task: Task, all: &mut Vec<Told>) -> Result<(), Fault> {
    for told in all.iter_mut() {
        told.tell(rt, task)?;
    }
    Ok(())
}
