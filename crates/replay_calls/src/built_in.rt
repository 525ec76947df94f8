// The list of forward, inverse, place and unplace on a set, and of open, which makes the set new.
use crate::set_calls::called;
use nearest::origins::BuiltIn;
use replay::function::Function;
use replay::outcome::{Outcome, done};
use replay::record::Record;
use replay_sets::noted::Set;
use replay_sets::places::DEFINED_AT;
use replay_sets::run::{Kinds, run};
use std::alloc::Global;
use std::io;
use std::io::{Read, Write};

// What the set should hold, and then what the Rust has for an opened set with every slot filled.
const NOTES: usize = 2 * DEFINED_AT;

// The number that the comparisons of the set are counted under. No record has it.
const BUFFERS: u8 = 7;

// The outcome of a record; none where a place that it names is not there. The numbers are those of the list below. A table of functions
// would be no plainer: the calls have one arm, and `called` tells them by their numbers, one of which is an argument of a `lent` record.
fn outcome(set: &mut Set, record: &Record) -> Option<Outcome> {
    match record.head.number {
        0..=BUFFERS => called(BuiltIn, set, Some(DEFINED_AT), record),
        8 => set.note(record).map(done),
        9 => set.fill_all(record).map(done),
        10 => set.put(record).map(done),
        _ => set.keep(record).map(done),
    }
}

// Runs the list, and reports.
pub(crate) fn run_list<R: Read, W: Write>(
    alloc: Global,
    from: &mut R,
    to: &mut W,
) -> io::Result<()> {
    let functions = [
        Function::new("forward", 3),
        Function::new("inverse", 3),
        Function::new("place", 2),
        Function::new("unplace", 3),
        Function::new("open", 3),
        Function::new("lent", 7),
        Function::new("buffers", 0),
        Function::new("note", 4),
        Function::new("fill", 3),
        Function::new("put", 4),
        Function::new("keep", 3),
    ];
    let kinds = Kinds {
        functions: &functions,
        buffers: BUFFERS,
        last: BUFFERS,
    };
    let mut set = Set::new(alloc, NOTES)?;
    run(from, to, kinds, &mut set, outcome)
}
