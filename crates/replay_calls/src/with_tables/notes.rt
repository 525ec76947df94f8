// What the notes have behind the set: a set of which the face slots alone are noted, the frames of the tables that open one, and all
// tables. A table is told by its number.
use replay_sets::places::{DEFINED_AT, SPHERE_AT};
use replay_sets::tables;
use replay_sets::tables::TABLES;
use set::sizes::FRAME;

// How many tables open a set.
const OPENING: usize = 11;

const FRAMES_AT: usize = DEFINED_AT + SPHERE_AT;

const TABLES_AT: usize = FRAMES_AT + OPENING * FRAME;

pub const NOTES: usize = TABLES_AT + TABLES;

// Where the frame of a table stands. None where no frame is noted of it.
pub fn frame_at(table: u64) -> Option<usize> {
    if table >= OPENING as u64 {
        return None;
    }
    Some(FRAMES_AT + (table as usize) * FRAME)
}

// A table; zeros, which every call refuses, where there is none.
pub fn table(notes: &[f64], number: u64) -> [f64; 84] {
    tables::table(notes, TABLES_AT, number)
}
