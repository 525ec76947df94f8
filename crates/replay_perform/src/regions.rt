// A region of positions near one.
ghost use Rattle.std.specs.Prelude.{take};
ghost use Rattle.arithmetic.specs.Arith.{ieee};
ghost use Rattle.set.specs.Lent.{SameBuffers, between};
ghost use Rattle.set.specs.Outcome.{Becomes};
ghost use Rattle.histories.specs.Lists.{regions};
ghost use Rattle.replay_call.specs.Made.{nearby};
ghost use Rattle.replay_call.specs.Left.{leaves};

use nearest::origins::Origins;
use replay::outcome::Outcome;
use replay_call::nearby::{Nearby, positions};
use replay_call::regions::{blank, of_outlined};
use replay_lend_regions::lend;
use set::set::Set;

// The region, with its answer and every point.
pub(crate) fn outlined<O: Origins>(origins: O, set: &mut Set<'_>, near: Nearby) -> Outcome
    ensures same { SameBuffers set.old set.new }
    ensures becomes { Becomes (between set.old set.new)
        (λ s. leaves (O.table origins) s (regions (take near.count (nearby ieee 300 near.start near.stride)) near.room)) }
{
    let outline = positions(near.start, near.stride);
    let n = usize::from(near.count);
    let m = usize::from(near.room);
    of_outlined(&lend(origins, set, &outline, n, blank(), m))
}
