// The strike program's input, read to its end step by step.
ghost use Rattle.std.specs.Prelude.{◌≡◌, true, ◌≤◌, length};
ghost use Rattle.set.specs.Lent.{SameBuffers, held};
ghost use Rattle.strike_session.specs.Steps.{Begins, RoomyBuffers, state_of, Read, Passes, bytes_of, lines_of};

use crate::session::Stage;
use crate::step::{Standing, step};
use set::set::Set;
use std::io::{Read, Write};

// More reads than a session can have: the most records and the header have 42,949,672,955 bytes, of which each
// read brings one at least.
const READS: u64 = 42_949_672_960;

// All reads of a session. A loop has to end, and nothing says that the input does, so the reads are counted. The
// count never ends a session: all reads end by a step that ends the program. The buffers' room is asked for here, and is no fact
// of a struct that lends them: such a struct would have to be said to keep both lengths (see `step`).
pub fn read_all<R: Read, W: Write>(
    from: &mut R,
    to: &mut W,
    stage: Stage,
    set: &mut Set<'_>,
    buffer: &mut [u8],
    out: &mut [u8],
) -> Standing
    requires { Begins stage × RoomyBuffers buffer.old out.old }
    ensures same { SameBuffers set.old set.new }
    ensures ended { result.ended ≡ true }
    ensures read { (r : Read (length buffer.old) (length out.old)
        (state_of stage 0 (held set.old) buffer.old)
        (state_of result.stage result.kept (held set.new) buffer.new))
        × Passes (R.remaining from.old) (R.remaining from.new) (W.contents to.old) (W.contents to.new)
        (bytes_of r) (lines_of r) result.lost }
    ensures held { result.kept ≤ length buffer.new }
{
    let mut at = Standing {
        stage,
        kept: 0,
        ended: false,
        lost: false,
    };
    for _read in 0..READS {
        at = step(from, to, at, set, buffer, out);
        if at.ended {
            return at;
        }
    }
    at
}
