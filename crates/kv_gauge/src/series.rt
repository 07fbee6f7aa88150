//! What the rounds of one measurement gave, and its line of output.

use crate::fault::Fault;
use crate::plan::Plan;
use std::alloc::Global;

/// The name of a figure, and its unit.
#[derive(Clone, Copy)]
pub struct Name {
    pub group: &'static str,
    pub what: &'static str,
    /// Whose figure it is, where several are set side by side.
    pub of: &'static str,
    /// How many threads there are beside the writer.
    pub others: usize,
    pub unit: &'static str,
}

impl Name {
    /// The name of a time, of one thread.
    pub const fn time(group: &'static str, what: &'static str, of: &'static str) -> Name {
        Name {
            group,
            what,
            of,
            others: 0,
            unit: "ns",
        }
    }
}

/// The rounds of one measurement, each in tenths of the unit.
#[derive(Drop)]
pub struct Series {
    name: Name,
    plan: Plan,
    tenths: Vec<u64>,
}

// The value that so many percent of all are not above.
fn at(tenths: &[u64], percent: usize) -> u64 {
    let index = tenths.len().saturating_mul(percent) / 100;
    match tenths.get(index) {
        Some(found) => *found,
        None => tenths.last().copied().unwrap_or(0),
    }
}

impl Series {
    /// No rounds yet.
    pub fn new(alloc: Global, name: Name, plan: Plan) -> Series {
        Series {
            name,
            plan,
            tenths: Vec::new(alloc),
        }
    }

    /// The series of what its rounds gave.
    pub fn of(name: Name, plan: Plan, tenths: Vec<u64>) -> Series {
        Series { name, plan, tenths }
    }

    /// Adds what a round gave.
    pub fn add(&mut self, tenths: u64) -> Result<(), Fault> {
        self.tenths.push(tenths)?;
        Ok(())
    }

    /// Writes the line, with tabs between its parts: group, what, of what, threads beside the writer, keys, the median,
    /// the least and the most in tenths of the unit, the unit.
    pub fn tell<R: Print>(&mut self, rt: &R) -> Result<(), Fault> {
        self.tell_up_to(rt, 100)
    }

    /// The same, where the most is that which so many percent are not above.
    pub fn tell_up_to<R: Print>(&mut self, rt: &R, percent: usize) -> Result<(), Fault> {
        self.tenths.sort_unstable();
        if self.plan.quiet || self.tenths.is_empty() {
            return Ok(());
        }
        let tenths = self.tenths.as_slice();
        write_name(rt, self.name, self.plan.keys)?;
        write_values(
            rt,
            at(tenths, 50),
            at(tenths, 0),
            at(tenths, percent),
            self.name.unit,
        )
    }
}

/// What so many rounds gave.
pub fn measured<F: FnMut() -> Result<u64, Fault>>(
    alloc: Global,
    rounds: usize,
    round: F,
) -> Result<Vec<u64>, Fault>
    requires { F.IsAlwaysCallable round }
{
    let mut round = round;
    let mut tenths = Vec::new(alloc);
    for _ in 0..rounds {
        tenths.push(round()?)?;
    }
    Ok(tenths)
}

fn write_name<R: Print>(rt: &R, name: Name, keys: usize) -> Result<(), Fault> {
    let group = name.group;
    let what = name.what;
    let of = name.of;
    let others = name.others;
    print!(rt; "{group}\t{what}\t{of}\t{others}\t{keys}\t")?;
    Ok(())
}

fn write_values<R: Print>(
    rt: &R,
    median: u64,
    least: u64,
    most: u64,
    unit: &str,
) -> Result<(), Fault> {
    println!(rt; "{median}\t{least}\t{most}\t{unit}")?;
    Ok(())
}
