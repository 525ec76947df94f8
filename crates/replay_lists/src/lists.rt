// Lists of positions (Paper 1): each is placed by one call on a set, with a table or without one, and the call's
// status, every result, the result behind those that are lent and the whole set are compared with the stored ones.
mod ask;
mod room;

use crate::lists::room::Lists;
use replay::function::Function;
use replay::outcome::{Outcome, done};
use replay::record::Record;
use replay_positions::{BUFFERS, NOTES, put_position};
use replay_sets::noted::Set;
use replay_sets::run::{Kinds, run};
use std::alloc::Global;
use std::io;
use std::io::{Read, Write};

// A result's number, the last that is counted in the report.
const RESULT: u8 = 5;

// The outcome of a record; none where a place that it names is not there. The numbers are those of the list below, and no table as in
// `replay_tally::table`, whose functions can't be lent the set and the lists.
fn outcome(set: &mut Set, lists: &mut Lists, record: &Record) -> Option<Outcome> {
    match record.head.number {
        0..=BUFFERS => ask::called(set, lists, record),
        RESULT => lists.result(record),
        6 => put_position(lists.positions.as_mut_slice(), record).map(done),
        7 => set.note(record).map(done),
        8 => set.fill_all(record).map(done),
        9 => set.put(record).map(done),
        _ => set.keep(record).map(done),
    }
}

// Runs the list, and reports.
pub(crate) fn run_list<R: Read, W: Write>(
    alloc: Global,
    from: &mut R,
    to: &mut W,
) -> io::Result<()> {
    let functions = [
        Function::new("place_list", 5),
        Function::new("open", 3),
        Function::new("place_list_with", 6),
        Function::new("buffers", 0),
        Function::new("result", 1),
        Function::new("position", 3),
        Function::new("note", 4),
        Function::new("fill", 3),
        Function::new("put", 4),
        Function::new("keep", 3),
    ];
    let kinds = Kinds {
        functions: &functions,
        buffers: BUFFERS,
        last: RESULT,
    };
    let mut set = Set::new(alloc, NOTES)?;
    let mut lists = Lists::new(alloc)?;
    run(from, to, kinds, &mut set, |set, record| {
        outcome(set, &mut lists, record)
    })
}
