// Reads the oracle's tables and steps of the caption panel (oracle/README.md) from standard input, carries each step out on one
// set, which it opens first and again with a table where a record says so, and compares the status and all bytes of the block,
// also those that were not lent. It writes how many were compared and how many differ, by what was asked and the stored
// status, names each record that differs, and says so where the list is malformed.
#![tactic(auto)]

ghost use Rattle.std.specs.Prelude.{◌<◌, ◌≤◌};

use answer::Refusal;
use answer::big_endian::value;
use nearest::origins::BuiltIn;
use panel_step::step;
use replay::function::Function;
use replay::record::read_full;
use replay_sets::noted::{Lent, Set};
use replay_sets::tables;
use replay_sets::tables::TABLES;
use replay_tally::lines;
use replay_tally::lines::Replayed;
use set::open::open;
use set::sizes::{FACE_STORE, FRAME, SPHERE_STORE};
use std::io;
use std::io::Read;

// A record's bytes: what is asked, the table's number, which buffers are lent without their last number, how many bytes of the
// block are lent, the status that is due, the block, and the block as it should be afterwards.
const BLOCK_AT: usize = 5;

const AFTER_AT: usize = BLOCK_AT + 34;

const SIZE: usize = AFTER_AT + 34;

// What a record asks, by its first byte: 0 is a step, 1 a step with a table, and every other that the set is opened with a table. A
// match shows each byte beside what it asks.
enum Asked {
    Step,
    StepWith,
    OpenWith,
}

impl From<u8> for Asked {
    fn from(byte: u8) -> Self {
        match byte {
            0 => Asked::Step,
            1 => Asked::StepWith,
            _ => Asked::OpenWith,
        }
    }
}

// The next number of a table; 0.0 where the list has ended, and then no record follows.
fn number<R: Read>(from: &mut R) -> io::Result<f64> {
    let mut bytes = [0u8; 8];
    if read_full(from, &mut bytes)? < bytes.len() {
        return Ok(0.0);
    }
    Ok(value(u64::from_be_bytes(bytes)))
}

// The numbers of all tables.
fn read<R: Read>(from: &mut R, tables: &mut [f64]) -> io::Result<()> {
    for x in tables {
        *x = number(from)?;
    }
    Ok(())
}

// How many numbers of a buffer are lent: all, or where its bit is set all but the last.
fn lent(count: usize, short: u8, bit: u8) -> u64
    requires { 0 < count }
    ensures { result ≤ count }
{
    let numbers = if short & bit == 0 { count } else { count - 1 };
    numbers as u64
}

// Opens the set. Where it is not opened, the records differ.
fn open_set(set: &mut Set) {
    if let Some(
        Lent {
            frame,
            face,
            sphere,
        },
    ) = set.lend([FRAME as u64, FACE_STORE as u64, SPHERE_STORE as u64])
    {
        let _given = open(BuiltIn, frame, face, sphere);
    }
}

// Does what is asked, on the bytes of the block that are lent. A table that there is not is zeros, which every call refuses. None
// where the set is not there.
fn ask(
    set: &mut Set,
    asked: Asked,
    table: u8,
    short: u8,
    block: &mut [u8],
) -> Option<Result<(), Refusal>> {
    let rows = tables::table(&set.notes, 0, u64::from(table));
    let lengths = [
        lent(FRAME, short, 1),
        lent(FACE_STORE, short, 2),
        lent(SPHERE_STORE, short, 4),
    ];
    Some(match asked {
        Asked::Step => step(BuiltIn, &mut set.lend_set(lengths)?, block),
        Asked::StepWith => step(rows, &mut set.lend_set(lengths)?, block),
        Asked::OpenWith => {
            let Lent {
                frame,
                face,
                sphere,
            } = set.lend(lengths)?;
            open(rows, frame, face, sphere)
        }
    })
}

// Does what a record asks where the block stands in it, and says whether the status and the block are then the stored ones.
fn agrees(set: &mut Set, record: [u8; SIZE]) -> bool {
    let mut record = record;
    let [asked, table, short, count, due, ..] = record;
    let end = BLOCK_AT + usize::from(count);
    if end > AFTER_AT {
        return false;
    }
    let given = ask(
        set,
        Asked::from(asked),
        table,
        short,
        &mut record[BLOCK_AT..end],
    );
    given.is_some_and(|outcome| answer::status(outcome) == due)
        && record[BLOCK_AT..AFTER_AT] == record[AFTER_AT..]
}

// The line of what was asked and its stored status: carried out, and then refused, in the order of main's list.
fn line(asked: Asked, due: u8) -> usize
    ensures { result < 32 }
{
    let carried_out = match asked {
        Asked::Step => 1,
        Asked::StepWith => 3,
        Asked::OpenWith => 5,
    };
    if due == 0 {
        carried_out
    } else {
        carried_out + 1
    }
}

// Reads one record and replays it.
fn replay_next<R: Read>(from: &mut R, set: &mut Set) -> io::Result<Replayed> {
    let mut record = [0u8; SIZE];
    Ok(match read_full(from, &mut record)? {
        0 => Replayed::Ended,
        SIZE => Replayed::Compared {
            line: line(Asked::from(record[0]), record[4]),
            agrees: agrees(set, record),
        },
        _ => Replayed::CutOff,
    })
}

fn main(rt: HostRuntime) -> io::Result<()> {
    let lines = [
        Function::new("carried_out", 0),
        Function::new("refused", 0),
        Function::new("carried_out_with", 0),
        Function::new("refused_with", 0),
        Function::new("open_with", 0),
        Function::new("open_with_refused", 0),
    ];
    let mut input = rt.stdin();
    // The tables stand in the set's notes.
    let mut set = Set::new(rt.alloc(), TABLES)?;
    read(&mut input, &mut set.notes)?;
    open_set(&mut set);
    lines::run(&mut input, &mut rt.stdout(), &lines, |from| {
        replay_next(from, &mut set)
    })
}
