// The list of table files: each is loaded into a table that holds 0.25 in every place, and the status and the bits of all 84 numbers are
// compared: a refused file must leave the table. A table that is loaded is saved again, and must give the same bytes.
ghost use Rattle.std.specs.Prelude.{◌<◌};

use answer::bits;
use replay::function::Function;
use replay::record::read_full;
use replay_tally::lines;
use replay_tally::lines::Replayed;
use std::io;
use std::io::{Read, Write};

// The longest file that a record may have.
const ROOM: usize = 800;

// What every place of the table holds before.
const BEFORE: f64 = 0.25;

// Whether the table's numbers have the stored bits.
fn has_bits(table: &[f64; 84], stored: &[u8; 672]) -> bool {
    let stored = stored.as_chunks::<8>().0;
    table
        .iter()
        .zip(stored)
        .all(|(x, bytes)| bits(*x) == u64::from_be_bytes(*bytes))
}

// Whether the table is as it was before.
fn is_untouched(table: &[f64; 84]) -> bool {
    table.iter().all(|x| bits(*x) == bits(BEFORE))
}

// Whether the table is saved as the file.
fn saves(table: [f64; 84], file: &[u8]) -> bool {
    let mut back = [0u8; 677];
    table_file::save(table, &mut back).is_ok() && back.as_slice() == file
}

// Loads a file, and says whether the status and the table are then the stored ones.
fn agrees(file: &[u8], status: u8, stored: &[u8; 672]) -> bool {
    let mut table = [BEFORE; 84];
    match table_file::load(file, &mut table) {
        Ok(()) => status == 0 && has_bits(&table, stored) && saves(table, file),
        Err(refusal) => refusal.number() == status && is_untouched(&table),
    }
}

// The line of a status, by its number as the list stores it: loaded, refused with 20, 21, 22, in the order of the list below. A table of numbers
// and names would have to be searched, and have no line for a status that is not in it: a match is plainer.
fn line(status: u8) -> usize
    ensures { result < 32 }
{
    match status {
        0 => 1,
        20 => 2,
        21 => 3,
        _ => 4,
    }
}

// Whether as many bytes follow.
fn fill<R: Read>(from: &mut R, room: &mut [u8]) -> io::Result<bool> {
    Ok(read_full(from, room)? == room.len())
}

// Reads one record and replays it: the file's length, the status, the file, and the table's bits where it is loaded.
fn replay_next<R: Read>(from: &mut R) -> io::Result<Replayed> {
    let mut head = [0u8; 3];
    let mut room = [0u8; ROOM];
    let mut stored = [0u8; 672];
    let size = read_full(from, &mut head)?;
    if size == 0 {
        return Ok(Replayed::Ended);
    }
    let [high, low, status] = head;
    let length = usize::from(u16::from_be_bytes([high, low]));
    if size < head.len() || length > ROOM {
        return Ok(Replayed::CutOff);
    }
    let file = &mut room[..length];
    if !fill(from, file)? || status == 0 && !fill(from, &mut stored)? {
        return Ok(Replayed::CutOff);
    }
    Ok(Replayed::Compared {
        line: line(status),
        agrees: agrees(file, status, &stored),
    })
}

// Runs the list, and reports.
pub(crate) fn run_list<R: Read, W: Write>(from: &mut R, to: &mut W) -> io::Result<()> {
    // A line for each stored status.
    let lines = [
        Function::new("loaded", 0),
        Function::new("refused_20", 0),
        Function::new("refused_21", 0),
        Function::new("refused_22", 0),
    ];
    lines::run(from, to, &lines, |from| { replay_next(from) })
}
