// Reads the oracle's sessions (oracle/README.md) from standard input, runs each through the library
// in pieces of 1, 3 and 10 bytes and whole, and compares the lines byte for byte. It writes how many
// sessions were compared and how many runs differ, names each run that differs, and says so where
// the list is malformed.
#![tactic(auto)]

ghost use Rattle.std.specs.Prelude.{◌≡◌, ◌≤◌, length, IfOk, IfSome};
ghost use Rattle.set.specs.Lent.{SameBuffers};

use replay::record::read_full;
use set::set::Set;
use set::sizes::{FACE_STORE, FRAME, SPHERE_STORE};
use std::alloc::Global;
use std::io;
use std::io::{Read, Write};
use strike_session::feed::feed;
use strike_session::session::{Fed, begin, finish};

// The longest part of the list, and room for a session's lines.
const ROOM: usize = 4096;

// The pieces of the input's runs are of one byte and so many more.
const MORE: [usize; 4] = [0, 2, 9, ROOM - 1];

// Says that the list is malformed.
fn malformed<W: Write>(to: &mut W) -> io::Result<()> {
    writeln!(to, "malformed list")
}

// Reads a part: its length in two bytes, and so many bytes, no more than there is room for. None where the list has ended, or is malformed,
// which is then said; of a part that is too long no more than its length is read.
fn read_part<R: Read, W: Write>(
    alloc: Global,
    from: &mut R,
    to: &mut W,
) -> io::Result<Option<Vec<u8>>>
    ensures { IfOk result (λ part. IfSome part (λ bytes. length bytes.items ≤ 4096)) }
{
    let mut size = [0u8; 2];
    let read = read_full(from, &mut size)?;
    if read == 0 {
        return Ok(None);
    }
    let count = usize::from(u16::from_be_bytes(size));
    if read < size.len() || count > ROOM {
        malformed(to)?;
        return Ok(None);
    }
    let mut part = vec![in alloc; 0u8; count]?;
    if read_full(from, part.as_mut_slice())? < count {
        malformed(to)?;
        return Ok(None);
    }
    Ok(Some(part))
}

// Feeds what has arrived by now and was not taken. That the place written to lies within the lines is asked, as an index's bound: a struct of
// the lines and the place would have to be said to keep their length.
fn step(at: Fed, set: &mut Set<'_>, arrived: &[u8], lines: &mut [u8]) -> Fed
    requires { (at.taken ≤ length arrived.now) × (at.written ≤ length lines.old) }
    ensures same { SameBuffers set.old set.new }
    ensures within { (result.taken ≤ length arrived.now) × (result.written ≤ length lines.new) }
{
    let fed = feed(
        at.stage,
        set,
        &arrived[at.taken..],
        &mut lines[at.written..],
    );
    Fed {
        stage: fed.stage,
        taken: at.taken + fed.taken,
        written: at.written + fed.written,
    }
}

// The input's end. Returns how many bytes were written in all.
fn end(at: Fed, arrived: usize, lines: &mut [u8]) -> usize
    requires { (at.taken ≤ arrived) × (at.written ≤ length lines.old) }
    ensures { result ≤ length lines.new }
{
    at.written + finish(at.stage, arrived - at.taken, &mut lines[at.written..])
}

// The input in pieces of one byte and so many more, and its end. Returns how many bytes were written. A session is fed all that
// has arrived and was not taken, so the loop goes over where the pieces end, and not over the pieces.
fn answer(at: Fed, set: &mut Set<'_>, input: &[u8], more: usize, lines: &mut [u8]) -> usize
    requires { (at.taken ≡ 0) × (at.written ≤ length lines.old) }
    ensures same { SameBuffers set.old set.new }
    ensures within { result ≤ length lines.new }
{
    let mut standing = at;
    let mut arrived: usize = 0;
    while arrived < input.len() {
        arrived += more.min(input.len() - arrived - 1) + 1;
        standing = step(standing, set, &input[..arrived], lines);
    }
    end(standing, arrived, lines)
}

fn run_session(input: &[u8], more: usize, lines: &mut [u8]) -> usize
    ensures { result ≤ length lines.new }
{
    let mut frame = [0.0; FRAME];
    let mut face = [0.0; FACE_STORE];
    let mut sphere = [0.0; SPHERE_STORE];
    let begun = begin(&mut frame, &mut face, &mut sphere, lines);
    let at = Fed {
        stage: begun.stage,
        taken: 0,
        written: begun.written,
    };
    let mut set = Set {
        frame: &frame,
        face_store: &mut face,
        sphere_store: &mut sphere,
    };
    answer(at, &mut set, input, more, lines)
}

// Whether the lines of a run are the stored ones.
fn agrees(input: &[u8], stored: &[u8], more: usize) -> bool {
    let mut lines = [0u8; ROOM];
    let written = run_session(input, more, &mut lines);
    &lines[..written] == stored
}

// How many of a session's four runs differ; none where there is no session more. Both parts are read, also where the first is not there, and
// what is malformed is said of each.
fn replay_next<R: Read, W: Write>(
    alloc: Global,
    from: &mut R,
    to: &mut W,
    number: u32,
) -> io::Result<Option<u64>>
    ensures { IfOk result (λ session. IfSome session (λ differ. differ ≤ 4)) }
{
    let input = read_part(alloc, from, to)?;
    let stored = read_part(alloc, from, to)?;
    let (Some(input), Some(stored)) = (input, stored) else {
        return Ok(None);
    };
    let mut differ: u64 = 0;
    for more in MORE {
        if !agrees(&input, &stored, more) {
            differ += 1;
            writeln!(
                to,
                "session {number} differs in pieces of 1 byte and {more} more"
            )?;
        }
    }
    Ok(Some(differ))
}

// By itself, and not by `replay_tally::lines::run`, where a record agrees or not: of a session up to four runs differ. Nothing says that
// the list ends, so no more than so many sessions are read.
fn run<R: Read, W: Write>(alloc: Global, from: &mut R, to: &mut W) -> io::Result<()> {
    let mut compared: u32 = 0;
    let mut differ: u64 = 0;
    for number in 0..u32::MAX {
        let Some(runs) = replay_next(alloc, from, to, number)? else {
            break;
        };
        compared = number + 1;
        differ = differ.wrapping_add(runs);
    }
    writeln!(
        to,
        "{compared} sessions compared, each cut in 4 ways; {differ} runs differ"
    )
}

fn main(rt: HostRuntime) -> io::Result<()> {
    run(rt.alloc(), &mut rt.stdin(), &mut rt.stdout())
}
