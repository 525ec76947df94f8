// Lists of functions that need nothing but a record: each stands in a table with what it comes to there. A program that keeps something
// from record to record has a match on a record's number beside its list. Tried: a table whose functions are lent what is kept, but the
// check states no struct with a function pointer whose type names a parameter.
ghost use Rattle.std.specs.Prelude.{◌≡◌};

use crate::Tally;
use replay::function::Function;
use replay::outcome::{Outcome, nowhere};
use replay::record::Record;
use replay::{record, report};
use std::alloc::Global;
use std::io;
use std::io::{Read, Write};

// A function, and what it comes to at a record. Its number is its place in the table, counted from 1.
#[derive(Clone, Copy)]
pub struct Entry {
    pub function: Function,
    pub outcome: fn(&Record) -> Outcome,
    ghost callable: { IsAlwaysCallable outcome },
}

impl Entry {
    // A function's name, how many arguments each of its records has, and what it comes to.
    pub fn new(name: &'static str, arguments: u8, outcome: fn(&Record) -> Outcome) -> Entry
        requires { IsAlwaysCallable outcome }
        ensures name { result.function.name.now ≡ name.now }
        ensures arguments { result.function.arguments ≡ arguments }
        ensures outcome { result.outcome ≡ outcome }
    {
        Entry {
            function: Function::new(name, arguments),
            outcome,
        }
    }
}

// What a record's function comes to. No record is read whose number no entry has.
fn outcome_of(table: &[Entry], record: &Record) -> Outcome {
    let place = usize::from(record.head.number).wrapping_sub(1);
    match table.get(place) {
        Some(entry) => (entry.outcome)(record),
        None => nowhere(),
    }
}

// Replays a list, as `Tally::run` does: compares what each record's function comes to with the stored outcome. The loop is its own:
// tried, but a closure that holds the table gets no proof where it is handed on beside the functions' names.
pub fn run<R: Read, W: Write>(
    alloc: Global,
    from: &mut R,
    to: &mut W,
    table: &[Entry],
) -> io::Result<()> {
    let functions: Vec<Function> = table.iter().map(|entry| entry.function).collect(alloc)?;
    let mut tally = Tally::new(&functions);
    for _ in 0..u32::MAX {
        let Some(record) = record::read(from, to, &functions)? else {
            return tally.report(to, None);
        };
        tally.compare(to, &record, outcome_of(table, &record))?;
    }
    report::too_long(to)?;
    tally.report(to, None)
}
