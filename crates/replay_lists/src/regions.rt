// Regions (Paper 4): each is one call on a set, with a table or without one, and the call's status and origin,
// every point, the point behind those that are lent, the box and the whole set are compared with the stored ones.
mod ask;
mod outline;

use crate::regions::outline::Outline;
use replay::function::Function;
use replay::outcome::{Outcome, done};
use replay::record::Record;
use replay_positions::{BUFFERS, NOTES, put_position};
use replay_sets::noted::Set;
use replay_sets::run::{Kinds, run};
use std::alloc::Global;
use std::io;
use std::io::{Read, Write};

// The number of half of a box, the last that is counted in the report.
const BOX: u8 = 6;

// The outcome of a record; none where a place that it names is not there. The numbers are those of the list below, and no table as in
// `replay_tally::table`, whose functions can't be lent the set and the outline.
fn outcome(set: &mut Set, outline: &mut Outline, record: &Record) -> Option<Outcome> {
    match record.head.number {
        0..=BUFFERS => ask::called(set, outline, record),
        5 => outline.point(record),
        BOX => outline.half(record),
        7 => put_position(outline.positions.as_mut_slice(), record).map(done),
        8 => set.note(record).map(done),
        9 => set.fill_all(record).map(done),
        10 => set.put(record).map(done),
        _ => set.keep(record).map(done),
    }
}

// Runs the list, and reports.
pub(crate) fn run_list<R: Read, W: Write>(
    alloc: Global,
    from: &mut R,
    to: &mut W,
) -> io::Result<()> {
    let functions = [
        Function::new("region", 5),
        Function::new("open_for_region", 3),
        Function::new("region_with", 6),
        Function::new("buffers_of_region", 0),
        Function::new("point", 1),
        Function::new("box", 1),
        Function::new("position", 3),
        Function::new("note", 4),
        Function::new("fill", 3),
        Function::new("put", 4),
        Function::new("keep", 3),
    ];
    let kinds = Kinds {
        functions: &functions,
        buffers: BUFFERS,
        last: BOX,
    };
    let mut set = Set::new(alloc, NOTES)?;
    let mut outline = Outline::new(alloc)?;
    run(from, to, kinds, &mut set, |set, record| {
        outcome(set, &mut outline, record)
    })
}
