// The calls on a set: a region, with a table too, and open.
use crate::regions::outline::Outline;
use list_calls::region::region;
use nearest::origins::{BuiltIn, Origins};
use replay::outcome::{Outcome, told, whole};
use replay::record::Record;
use replay_lent::regions::BLANK;
use replay_positions::{OPEN, TABLES_AT, WITH, opened};
use replay_sets::asked::lengths;
use replay_sets::noted::Set;
use replay_sets::tables::table;

// A region has how many positions and points are lent, and the three lengths. Every point holds the same before; where there are not so
// many, or a buffer has fewer numbers, they stay as they were. An answer's origin is told, and its box is left beside the points.
fn outlined<O: Origins>(
    origins: O,
    set: &mut Set,
    outline: &mut Outline,
    record: &Record,
) -> Option<Outcome> {
    let mut lent = set.lend_set(lengths(record, 2))?;
    let positions = outline.positions.as_slice().get(..record.word(0) as usize)?;
    let (points, others) = outline
        .points
        .as_mut_slice()
        .split_at_mut_checked(record.word(1) as usize)?;
    points.fill(BLANK);
    others.fill(BLANK);
    let given = region(origins, &mut lent, positions, points);
    if let Ok(answer) = given {
        outline.bounds = answer.bounds;
    }
    Some(told(given, |answer| whole(u64::from(answer.origin))))
}

// The call of a record. A region with a table has the number of that behind its other arguments. Alike for
// lists, which has the reason.
pub fn called(set: &mut Set, outline: &mut Outline, record: &Record) -> Option<Outcome> {
    match record.head.number {
        OPEN => opened(set, record),
        WITH => {
            let rows = table(&set.notes, TABLES_AT, record.word(5));
            outlined(rows, set, outline, record)
        }
        _ => outlined(BuiltIn, set, outline, record),
    }
}
