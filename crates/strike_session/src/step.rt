// A step of the strike program: a read brings bytes of the session, and the lines of what has arrived then are written. A write
// that fails ends the session.
ghost use Rattle.std.specs.Prelude.{◌≡◌, false, ◌≤◌, ◌<◌, length};
ghost use Rattle.set.specs.Lent.{SameBuffers, held};
ghost use Rattle.std.specs.Io.KnownBytes.{Appends};
ghost use Rattle.strike_session.specs.Steps.{state_of, Stepped, Passes, step_bytes, step_lines};
ghost use Rattle.strike_session.specs.Pieces.{over};

use crate::buffer::feed_buffer;
use crate::reads::read_behind;
use crate::session::{Stage, is_over};
use set::set::Set;
use std::io::{Read, Write};

// Between two reads: where the session stands, how many bytes of the buffer were not taken, whether
// nothing more is read, and whether lines are lost because a write failed. `ended` is true of all reads together:
// that it is, in their contract, rules out that the count of reads ends a session.
#[derive(Clone, Copy)]
pub struct Standing {
    pub stage: Stage,
    pub kept: usize,
    pub ended: bool,
    pub lost: bool,
}

// Writes lines. Whether the write failed, and lines are lost: a bool, here and in what the program's steps hand back, and no `Err`, since a
// step whose write failed says still where it stands, with its set and its bytes, which an `Err` would not carry.
pub fn loses<W: Write>(to: &mut W, lines: &[u8]) -> bool
    ensures { result ≡ false → Appends (W.contents to.old) (W.contents to.new) lines.now }
{
    to.write_all(lines).is_err()
}

// One read, and the lines of what has arrived then. The buffers are lent one by one: a slice keeps its length by itself, while
// of two slices in a struct that is lent each contract has to say it, and a step would ask for their room, which it does not need.
pub fn step<R: Read, W: Write>(
    from: &mut R,
    to: &mut W,
    at: Standing,
    set: &mut Set<'_>,
    buffer: &mut [u8],
    out: &mut [u8],
) -> Standing
    requires { (over at.stage ≡ false → at.kept < length buffer.old) × (at.kept ≤ length buffer.old) }
    ensures same { SameBuffers set.old set.new }
    ensures stepped { (p : Stepped (length buffer.old)
        (state_of at.stage at.kept (held set.old) buffer.old)
        (state_of result.stage result.kept (held set.new) buffer.new)
        out.old out.new result.ended result.lost)
        × Passes (R.remaining from.old) (R.remaining from.new) (W.contents to.old) (W.contents to.new)
        (step_bytes p) (step_lines p) result.lost }
    ensures held { result.kept ≤ length buffer.new }
{
    let stage = at.stage;
    let kept = at.kept;
    if is_over(stage) {
        return Standing {
            ended: true,
            lost: false,
            ..at
        };
    }
    let n = read_behind(from, buffer, kept);
    if n == 0 {
        return Standing {
            ended: true,
            lost: false,
            ..at
        };
    }
    let turn = feed_buffer(stage, set, buffer, kept + n, out);
    let lost = loses(to, &out[..turn.written]);
    let next = turn.stage;
    Standing {
        stage: next,
        kept: turn.kept,
        ended: lost,
        lost,
    }
}
