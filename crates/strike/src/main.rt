// The strike program: reads a session from standard input and writes its lines to standard output.
// A write that fails ends the program.
#![tactic(auto)]

ghost use Rattle.std.specs.Prelude.{◌≡◌, ◌≤◌, false, length};
ghost use Rattle.std.specs.Io.KnownBytes.{Appends};
ghost use Rattle.arithmetic.specs.Arith.{ieee};
ghost use Rattle.origin.specs.Origins.{ORIGINS};
ghost use Rattle.set.specs.Outcome.{lent_mut};
ghost use Rattle.set.specs.Lent.{SameBuffers, held};
ghost use Rattle.strike_session.specs.Steps.{Begins, RoomyBuffers, state_of, begun, Ended, Passes, bytes_of, lines_of};
ghost use Rattle.strike_session.specs.Session.{program};

use set::set::Set;
use set::sizes::{FACE_STORE, FRAME, SPHERE_STORE};
use std::io::{Read, Write};
use strike_session::input::read_all;
use strike_session::session::{Stage, begin, finish};
use strike_session::step::loses;

// A session behind all its reads: where it stands, how many bytes of the buffer were not taken, how
// many bytes its last line has, and whether lines are lost because a write failed.
#[derive(Clone, Copy)]
struct Last {
    stage: Stage,
    kept: usize,
    written: usize,
    lost: bool,
}

// All reads, and behind them the last line, if there is one. The buffers are lent one by one, as a step takes them (see there).
fn answer_all<R: Read, W: Write>(
    from: &mut R,
    to: &mut W,
    stage: Stage,
    set: &mut Set<'_>,
    buffer: &mut [u8],
    out: &mut [u8],
) -> Last
    requires { Begins stage × RoomyBuffers buffer.old out.old }
    ensures same { SameBuffers set.old set.new }
    ensures ends { (e : Ended (length buffer.old) (length out.old)
        (state_of stage 0 (held set.old) buffer.old)
        (state_of result.stage result.kept (held set.new) buffer.new)
        result.written out.new)
        × Passes (R.remaining from.old) (R.remaining from.new) (W.contents to.old) (W.contents to.new)
        (bytes_of e.read) (lines_of e.read) result.lost }
    ensures held { result.written ≤ length out.new }
{
    let at = read_all(from, to, stage, set, buffer, out);
    let last = at.stage;
    let written = finish(last, at.kept, out);
    Last {
        stage: last,
        kept: at.kept,
        written,
        lost: at.lost,
    }
}

// Writes the last line, where no lines before it are lost. Whether any are lost then.
fn ends_lost<W: Write>(to: &mut W, lost: bool, line: &[u8]) -> bool
    ensures before { result ≡ false → lost ≡ false }
    ensures line { result ≡ false → Appends (W.contents to.old) (W.contents to.new) line.now }
{
    lost || loses(to, line)
}

// A whole session on any set. However its bytes arrive, its lines are those of a session with all of them in a row, if none are
// lost. Where open refuses there is one line, and the session is over: so it does not matter whether that line is written. After
// a write that failed nothing more is written. The set's buffers are lent one by one, as open takes them, and are one set
// from then on.
fn run<R: Read, W: Write>(
    from: &mut R,
    to: &mut W,
    frame: &mut [f64],
    face_store: &mut [f64],
    sphere_store: &mut [f64],
    buffer: &mut [u8],
    out: &mut [u8],
) -> Last
    requires { RoomyBuffers buffer.old out.old }
    ensures { (e : Ended (length buffer.old) (length out.old)
        (begun (lent_mut frame face_store sphere_store).entry)
        (state_of result.stage result.kept (lent_mut frame face_store sphere_store).exit buffer.new)
        result.written out.new)
        × Passes (R.remaining from.old) (R.remaining from.new) (W.contents to.old) (W.contents to.new)
        (bytes_of e.read) (program ieee ORIGINS (lent_mut frame face_store sphere_store).entry (bytes_of e.read)) result.lost }
{
    let begun = begin(frame, face_store, sphere_store, out);
    let stage = begun.stage;
    let unbegun = loses(to, &out[..begun.written]);
    let mut set = Set {
        frame,
        face_store,
        sphere_store,
    };
    let last = answer_all(from, to, stage, &mut set, buffer, out);
    let unended = ends_lost(to, last.lost, &out[..last.written]);
    Last {
        stage: last.stage,
        kept: last.kept,
        written: last.written,
        lost: unbegun | unended,
    }
}

fn main(rt: HostRuntime) {
    let mut frame = [0.0; FRAME];
    let mut face_store = [0.0; FACE_STORE];
    let mut sphere_store = [0.0; SPHERE_STORE];
    // as many bytes as one read brings at most: 6,553 whole records, and room for 6,554 lines
    let mut buffer = [0; 65536];
    let mut out = [0; 262160];
    run(
        &mut rt.stdin(),
        &mut rt.stdout(),
        &mut frame,
        &mut face_store,
        &mut sphere_store,
        &mut buffer,
        &mut out,
    );
}
