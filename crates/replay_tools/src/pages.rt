// The list of windows and their pages: each is printed from its counts, and what the call gives is compared, and every byte of the room
// that the page is a part of. How many were compared and how many differ is written, each that differs, and whether the list is malformed.
use replay::record::read_full;
use replay_tally::Count;
use replay_tally::lines::Replayed;
use std::io;
use std::io::{Read, Write};

// A record's head: twelve counts of four bytes, how many bytes of the room are lent, and the status that is due.
const HEAD: usize = 51;

// All bytes of the room follow, as they should be after the call. A page is a few less.
const ROOM: usize = 4864;

// The twelve counts at a record's start, each of four bytes, the highest first.
fn counts_of(head: &[u8; HEAD]) -> [u32; 12] {
    let mut counts = [0u32; 12];
    for (count, bytes) in counts.iter_mut().zip(head.as_chunks::<4>().0) {
        *count = u32::from_be_bytes(*bytes);
    }
    counts
}

// Prints on the first bytes of the room, as many as the record says, and answers the status. Where the room has fewer it is 255, which no
// print gives, and nothing is printed.
fn print(head: &[u8; HEAD], room: &mut [u8; ROOM]) -> u8 {
    let lent = usize::from(u16::from_be_bytes([head[48], head[49]]));
    match room.get_mut(..lent) {
        Some(page) => answer::status(sheet::print(counts_of(head), page)),
        None => 255,
    }
}

// Prints the next record, if there is one, and compares.
fn replay_next<R: Read>(from: &mut R) -> io::Result<Replayed> {
    let mut head = [0u8; HEAD];
    let mut wanted = [0u8; ROOM];
    let mut room = [b'#'; ROOM];
    let size = read_full(from, &mut head)?;
    if size == 0 {
        return Ok(Replayed::Ended);
    }
    if size < HEAD || read_full(from, &mut wanted)? < ROOM {
        return Ok(Replayed::CutOff);
    }
    let given = print(&head, &mut room);
    Ok(Replayed::Compared {
        line: 1,
        agrees: given == head[50] && room == wanted,
    })
}

// Runs the list, and reports. By itself, and not by `replay_tally::lines::run`, which begins its last line with a name, and numbers the
// records from 0: here the first page is 1. Nothing says that the input ends, so no more than so many records are read.
pub(crate) fn run_list<R: Read, W: Write>(from: &mut R, to: &mut W) -> io::Result<()> {
    let mut count = Count::NONE;
    for _ in 0..u32::MAX {
        match replay_next(from)? {
            Replayed::Ended => break,
            Replayed::CutOff => {
                writeln!(to, "malformed list")?;
                break;
            }
            Replayed::Compared { agrees, .. } => {
                count = count.and(agrees);
                if !agrees {
                    let page = count.compared;
                    writeln!(to, "differs: page {page}")?;
                }
            }
        }
    }
    let Count { compared, differ } = count;
    writeln!(to, "{compared} pages compared, {differ} differ")
}
