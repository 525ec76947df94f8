// The list of the calls with a table: open, forward, inverse, place and unplace on a set, and nearest.
mod notes;

use crate::set_calls::called;
use crate::with_tables::notes::{NOTES, frame_at, table};
use nearest::call::nearest;
use replay::function::Function;
use replay::outcome::{Outcome, done, told, whole};
use replay::record::Record;
use replay_arguments::spherical;
use replay_sets::noted::Set;
use replay_sets::run::{Kinds, run};
use std::alloc::Global;
use std::io;
use std::io::{Read, Write};

// The number of nearest, which takes no set.
const NEAREST: u8 = 7;

// The number that the comparisons of the set are counted under. No record has it.
const BUFFERS: u8 = 8;

// A call with a table, whose number is the record's last argument.
fn ask(set: &mut Set, record: &Record) -> Option<Outcome> {
    let number = record.word(usize::from(record.head.arguments.saturating_sub(1)));
    let rows = table(&set.notes, number);
    if record.head.number == NEAREST {
        return Some(told(nearest(rows, spherical(record, 0)), |id| {
            whole(u64::from(id))
        }));
    }
    called(rows, set, frame_at(number), record)
}

// The outcome of a record; none where a place that it names is not there. The numbers are those of the list below; why they
// stand in a match, `built_in` says.
fn outcome(set: &mut Set, record: &Record) -> Option<Outcome> {
    match record.head.number {
        0..=BUFFERS => ask(set, record),
        9 => set.note(record).map(done),
        10 => set.fill_all(record).map(done),
        11 => set.put(record).map(done),
        _ => set.keep_faces(record).map(done),
    }
}

// Runs the list, and reports.
pub(crate) fn run_list<R: Read, W: Write>(
    alloc: Global,
    from: &mut R,
    to: &mut W,
) -> io::Result<()> {
    let functions = [
        Function::new("forward_with", 4),
        Function::new("inverse_with", 4),
        Function::new("place_with", 3),
        Function::new("unplace_with", 4),
        Function::new("open_with", 4),
        Function::new("lent_with", 8),
        Function::new("nearest_with", 3),
        Function::new("buffers_with", 0),
        Function::new("note", 4),
        Function::new("fill", 3),
        Function::new("put", 4),
        Function::new("keep", 2),
    ];
    let kinds = Kinds {
        functions: &functions,
        buffers: BUFFERS,
        last: BUFFERS,
    };
    let mut set = Set::new(alloc, NOTES)?;
    run(from, to, kinds, &mut set, outcome)
}
