// The calls on a set: a list of positions, with a table too, and open.
use crate::lists::room::Lists;
use list_calls::place_list;
use nearest::origins::{BuiltIn, Origins};
use replay::outcome::{Outcome, done, told};
use replay::record::Record;
use replay_lent::lists::BLANK;
use replay_positions::{OPEN, TABLES_AT, WITH, opened};
use replay_sets::asked::lengths;
use replay_sets::noted::Set;
use replay_sets::tables::table;

// A list has how many positions and results are lent, and the three lengths. Every result holds the same before; where there are not so
// many, or a buffer has fewer numbers, they stay as they were.
fn placed<O: Origins>(
    origins: O,
    set: &mut Set,
    lists: &mut Lists,
    record: &Record,
) -> Option<Outcome> {
    let mut lent = set.lend_set(lengths(record, 2))?;
    let positions = lists.positions.as_slice().get(..record.word(0) as usize)?;
    let (results, others) = lists
        .results
        .as_mut_slice()
        .split_at_mut_checked(record.word(1) as usize)?;
    results.fill(BLANK);
    others.fill(BLANK);
    Some(told(place_list(origins, &mut lent, positions, results), done))
}

// The call of a record. A list with a table has the number of that behind its other arguments. Alike for
// regions: a trait for the one call between, and a type over both sorts of room, is longer than both.
pub fn called(set: &mut Set, lists: &mut Lists, record: &Record) -> Option<Outcome> {
    match record.head.number {
        OPEN => opened(set, record),
        WITH => {
            let rows = table(&set.notes, TABLES_AT, record.word(5));
            placed(rows, set, lists, record)
        }
        _ => placed(BuiltIn, set, lists, record),
    }
}
