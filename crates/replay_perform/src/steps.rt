// A step of the caption panel, on a block that is made of a call's numbers.
ghost use Rattle.set.specs.Lent.{SameBuffers, between};
ghost use Rattle.set.specs.Outcome.{Becomes};
ghost use Rattle.histories.specs.Lists.{steps};
ghost use Rattle.replay_call.specs.Made.{block_of};
ghost use Rattle.replay_call.specs.Left.{leaves};

use nearest::origins::Origins;
use panel_step::step;
use replay::outcome::Outcome;
use replay_call::steps::{Registers, block, of_block};
use set::set::Set;

// The step, and what it leaves of the block.
pub(crate) fn stepped<O: Origins>(origins: O, set: &mut Set<'_>, registers: Registers) -> Outcome
    ensures same { SameBuffers set.old set.new }
    ensures becomes { Becomes (between set.old set.new) (λ s. leaves (O.table origins) s (steps (block_of registers))) }
{
    let mut bytes = block(registers);
    let answer = step(origins, set, &mut bytes);
    of_block(answer, &bytes)
}
