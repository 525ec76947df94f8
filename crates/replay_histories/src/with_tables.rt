// Long lists of calls with a table on one set, drawn from a fixed seed, refused ones among them: opens bring tables, some
// of which are refused, and every other call takes that of the last open that answered. Each of them is made on a set newly opened
// with that table too, and must come to the same there, bit for bit, with every result, point and byte that it leaves. Two stores
// gather what those calls have written there since the last open that answered: after each call the set's stores must equal them in
// every number, and its frame that open's.
mod counts;
mod due;
mod lists;
mod tables;

use crate::with_tables::lists::History;
use replay::function::Function;
use std::io;
use std::io::Write;

// Runs the lists, and reports. What is counted stands in the order of its numbers. None has records.
pub(crate) fn run<W: Write>(to: &mut W) -> io::Result<()> {
    let functions = [
        Function::new("set_with", 0),
        Function::new("open_with", 0),
        Function::new("open_with_refused", 0),
        Function::new("forward_with", 0),
        Function::new("inverse_with", 0),
        Function::new("place_with", 0),
        Function::new("unplace_with", 0),
        Function::new("list_with", 0),
        Function::new("region_with", 0),
        Function::new("step_with", 0),
        Function::new("show", 0),
        Function::new("companion", 0),
        Function::new("companion_refused", 0),
    ];
    let mut history = History::new(&functions);
    history.run();
    history.tally.report(to, None)
}
