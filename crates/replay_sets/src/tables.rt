// The tables of the lists of calls that take one: they stand in the notes, and a record has a table's number.

// How many there are, and of how many numbers.
const COUNT: usize = 29;

pub const TABLES: usize = COUNT * 84;

// The table with a number, where the first of them stands from a place on.
fn numbered(notes: &[f64], from: usize, number: u64) -> Option<[f64; 84]> {
    let tables = notes.get(from..)?.get(..TABLES)?.as_chunks::<84>().0;
    tables.get(number as usize).copied()
}

// The same; zeros, which every call refuses, where there is none.
pub fn table(notes: &[f64], from: usize, number: u64) -> [f64; 84] {
    numbered(notes, from, number).unwrap_or([0.0; 84])
}
