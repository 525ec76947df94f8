// The strike program's feeding from a buffer: the bytes that are not taken yet move to its start.
ghost use Rattle.set.specs.Lent.{SameBuffers, between};
ghost use Rattle.strike_records.specs.Writes.{lent_bytes};
ghost use Rattle.strike_session.specs.Results.{FeedsBuffer};

use crate::feed::feed;
use crate::session::{FedBuffer, Stage};
use set::set::Set;

// Feeds a session from a buffer that holds the bytes that were not taken, first those that were kept and then
// those that have just arrived. Those that are still not taken are at its start afterwards.
// Cut here: a slice cut by the caller would take `filled` out of `FeedsBuffer`, and leave those bytes to the caller to move.
pub fn feed_buffer(
    stage: Stage,
    set: &mut Set<'_>,
    buffer: &mut [u8],
    filled: usize,
    out: &mut [u8],
) -> FedBuffer
    ensures same { SameBuffers set.old set.new }
    ensures fed { FeedsBuffer stage (between set.old set.new) (lent_bytes buffer) filled (lent_bytes out) result }
{
    let end = filled.min(buffer.len());
    let fed = feed(stage, set, &buffer[..end], out);
    let taken = fed.taken;
    let next = fed.stage;
    buffer.copy_within(taken..end, 0);
    FedBuffer {
        stage: next,
        kept: end - taken,
        written: fed.written,
    }
}
