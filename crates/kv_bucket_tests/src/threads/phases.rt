//! A test of a feed that stops in each of its phases.

use super::*;

// The latest entries are those of revisions 2 and 3.
const THREE_WRITES: &[(Call, Answer)] = &[
    (Call::Put("a"), Answer::Number(1)),
    (Call::Put("b"), Answer::Number(2)),
    (Call::Guarded(Step::Delete("a")), Answer::Number(3)),
];

const ITEMS: &[(Move, Answer)] = &[
    (Move::Take, Answer::Entry(2)),
    (Move::Take, Answer::Entry(3)),
    (Move::Take, Answer::Marker),
    (Move::Take, Answer::Empty),
];

#[test]
fn a_feed_stops_in_each_phase(rt: HostRuntime) -> Result<(), Fail> {
    Ok(run(&rt, rt.alloc(), EachPhase)?)
}

#[derive(Clone, Copy)]
struct EachPhase;

impl<R: Wait + Abort> Test<R> for EachPhase {
    fn run<N: LiveName>(
        self,
        rt: &R,
        alloc: Global,
        live: &Live<N>,
        readers: &mut Vec<Reader<N>>,
    ) -> Result<(), KvError> {
        equal(rt, calls(rt, alloc, live, THREE_WRITES), None);
        let reader = last(readers)?;
        stopped_in_each_phase(rt, alloc, reader)
    }
}

fn stopped_in_each_phase<N: LiveName, R: Abort>(
    rt: &R,
    alloc: Global,
    reader: Reader<N>,
) -> Result<(), KvError> {
    let mut reader = reader;
    for takes in 0..HANDED.len() {
        reader = stopped_in(rt, alloc, reader, takes, HANDED[takes])?;
    }
    Ok(())
}

// How many items a feed has handed out behind so many takes, from none on. The fourth take finds nothing.
const HANDED: &[u64] = &[0, 1, 2, 3, 3];

fn stopped_in<N: LiveName, R: Abort>(
    rt: &R,
    alloc: Global,
    reader: Reader<N>,
    takes: usize,
    handed: u64,
) -> Result<Reader<N>, KvError> {
    let mut feed = feed_of(alloc, reader)?;
    equal(rt, moves(&mut feed, &ITEMS[..takes.min(ITEMS.len())]), None);
    let (reader, counted) = stop(feed);
    equal(rt, counted, (handed, handed));
    Ok(reader)
}
