// A list of positions near one.
ghost use Rattle.std.specs.Prelude.{take};
ghost use Rattle.arithmetic.specs.Arith.{ieee};
ghost use Rattle.set.specs.Lent.{SameBuffers, between};
ghost use Rattle.set.specs.Outcome.{Becomes};
ghost use Rattle.histories.specs.Lists.{lists};
ghost use Rattle.replay_call.specs.Made.{nearby};
ghost use Rattle.replay_call.specs.Left.{leaves};

use nearest::origins::Origins;
use replay::outcome::Outcome;
use replay_call::lists::{blank, of_listed};
use replay_call::nearby::{Nearby, positions};
use replay_lend_lists::lend;
use set::set::Set;

// The list, with its status and every result.
pub(crate) fn listed<O: Origins>(origins: O, set: &mut Set<'_>, near: Nearby) -> Outcome
    ensures same { SameBuffers set.old set.new }
    ensures becomes { Becomes (between set.old set.new)
        (λ s. leaves (O.table origins) s (lists (take near.count (nearby ieee 400 near.start near.stride)) near.room)) }
{
    let list = positions(near.start, near.stride);
    let n = usize::from(near.count);
    let m = usize::from(near.room);
    of_listed(&lend(origins, set, &list, n, blank(), m))
}
