// A record of a list: a head of four bytes, then a word of eight bytes, big-endian, for each argument and each answer.
ghost use Rattle.std.specs.Prelude.{◌≡◌, true, from_bits, take, IfOk, IfSome};
ghost use Rattle.std.specs.Float.{binary64};
ghost use Rattle.std.specs.Io.{ReadsAtMost};
ghost use Rattle.std.specs.Io.KnownBytes.{Consumes};
ghost use Rattle.replay.specs.Record.{word_at, WellFormed};

use crate::function::{Function, numbered};
use crate::report;
use answer::big_endian::value;
use std::io;
use std::io::{Read, Write};

// The four bytes that a record begins with, as they are stored: the function's number, 0 or the number of its refusal, and how many
// words are arguments and answers.
#[derive(Clone, Copy)]
pub struct Head {
    pub number: u8,
    pub status: u8,
    pub arguments: u8,
    pub answers: u8,
}

// A head, and room for twelve words: those of the arguments, and those of the answers behind them. The others are 0.
// An array with how many count in the head: a vector would bring a failed allocation into each reading.
#[derive(Clone, Copy)]
pub struct Record {
    pub head: Head,
    pub words: [[u8; 8]; 12],
}

impl Record {
    // The word at a place, counted from 0; beyond the twelve it is 0.
    pub fn word(&self, place: usize) -> u64
        ensures { result ≡ word_at self.now.words place }
    {
        match self.words.get(place) {
            Some(bytes) => u64::from_be_bytes(*bytes),
            None => 0,
        }
    }

    // The argument at a place.
    pub fn argument(&self, place: usize) -> f64
        ensures { result ≡ from_bits binary64 (word_at self.now.words place) }
    {
        value(self.word(place))
    }
}

// Whether there is a function of this number with so many arguments, and room for the words.
fn is_known(head: Head, functions: &[Function]) -> bool
    ensures { result ≡ true → WellFormed head }
{
    let Some(function) = numbered(functions, head.number) else {
        return false;
    };
    head.number < 32
        && head.arguments == function.arguments
        && (1..=9).contains(&head.arguments)
        && head.answers <= 3
}

// Reads until the room is full or the input ends, and answers how many bytes there are. They are the reader's next.
pub fn read_full<R: Read>(from: &mut R, room: &mut [u8]) -> io::Result<usize>
    ensures bound { ReadsAtMost result room.new }
    ensures bytes { IfOk result (λ n. Consumes (R.remaining from.old) (R.remaining from.new) (take n room.new)) }
{
    let mut done: usize = 0;
    while done < room.len() {
        let n = from.read(&mut room[done..])?;
        if n == 0 {
            break;
        }
        done += n;
    }
    Ok(done)
}

// Reads a record. None where none follows: the list has ended, or is malformed, which is then said.
pub fn read<R: Read, W: Write>(
    from: &mut R,
    to: &mut W,
    functions: &[Function],
) -> io::Result<Option<Record>>
    ensures { IfOk result (λ next. IfSome next (λ r. WellFormed r.head)) }
{
    let mut bytes = [0u8; 4];
    let size = read_full(from, &mut bytes)?;
    if size == 0 {
        return Ok(None);
    }
    if size < bytes.len() {
        report::cut_off(to)?;
        return Ok(None);
    }
    let [number, status, arguments, answers] = bytes;
    let head = Head {
        number,
        status,
        arguments,
        answers,
    };
    if !is_known(head, functions) {
        report::unknown(to, head)?;
        return Ok(None);
    }
    let mut words = [[0u8; 8]; 12];
    let room = &mut words.as_flattened_mut()[..8 * usize::from(arguments + answers)];
    if read_full(from, room)? < room.len() {
        report::cut_off(to)?;
        return Ok(None);
    }
    Ok(Some(Record { head, words }))
}
