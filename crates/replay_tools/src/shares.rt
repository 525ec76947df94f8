// The list of turns: each is handed out, and the status and all places for grants are compared, also those that were not lent.
ghost use Rattle.std.specs.Prelude.{◌<◌};

use fair_turns::fair_turns;
use replay::function::Function;
use replay::record::read_full;
use replay_tally::lines;
use replay_tally::lines::Replayed;
use std::io;
use std::io::{Read, Write};

// A record's bytes: how many wishes and how many places are lent, the status that is due, and three runs of numbers.
const HEAD: usize = 3;

const NUMBERS: usize = 20;

const RUN: usize = 2 * NUMBERS;

const SIZE: usize = HEAD + 3 * RUN;

// The numbers of a run, each of two bytes, the highest first.
fn numbers(run: &[u8]) -> [u16; NUMBERS] {
    let mut numbers = [0u16; NUMBERS];
    for (number, bytes) in numbers.iter_mut().zip(run.as_chunks::<2>().0) {
        *number = u16::from_be_bytes(*bytes);
    }
    numbers
}

// Hands out a record's turn, and says whether the status and all places are then the stored ones.
fn agrees(record: &[u8; SIZE]) -> bool {
    let wishes = numbers(&record[HEAD..HEAD + RUN]);
    let mut grants = numbers(&record[HEAD + RUN..HEAD + 2 * RUN]);
    let after = numbers(&record[HEAD + 2 * RUN..]);
    let n = usize::from(record[0]);
    let m = usize::from(record[1]);
    if n > NUMBERS || m > NUMBERS {
        return false;
    }
    let given = answer::status(fair_turns(&wishes[..n], &mut grants[..m]));
    given == record[2] && grants == after
}

// The line of a status, by its number as the list stores it: answered, refused with 24, 25, in the order of the list below. A match, as in
// `files`.
fn line(status: u8) -> usize
    ensures { result < 32 }
{
    match status {
        0 => 1,
        24 => 2,
        _ => 3,
    }
}

// Reads one record and replays it.
fn replay_next<R: Read>(from: &mut R) -> io::Result<Replayed> {
    let mut record = [0u8; SIZE];
    Ok(match read_full(from, &mut record)? {
        0 => Replayed::Ended,
        SIZE => Replayed::Compared {
            line: line(record[2]),
            agrees: agrees(&record),
        },
        _ => Replayed::CutOff,
    })
}

// Runs the list, and reports.
pub(crate) fn run_list<R: Read, W: Write>(from: &mut R, to: &mut W) -> io::Result<()> {
    // A line for each stored status: answered, refused with 24, refused with 25.
    let lines = [
        Function::new("granted", 0),
        Function::new("refused_24", 0),
        Function::new("refused_25", 0),
    ];
    lines::run(from, to, &lines, |from| { replay_next(from) })
}
