// How a call ends, with a table and without one: what it worked out is its answer, and the empty slots that it used are
// written; a refusal writes nothing.
ghost use Rattle.answer.specs.Answer.{given};
ghost use Rattle.arithmetic.specs.Arith.{ieee};
ghost use Rattle.set.specs.Lent.{LeavesSet};
ghost use Rattle.dodecahedron.specs.Work.{outcome_if_there};

use answer::Refusal;
use dodecahedron::work::Work;
use set::set::Set;
use stores::used_slots::write_used;

// The answer of what was worked out, its slots written.
pub fn leave<T: Drop>(set: &mut Set<'_>, work: Result<Work<T>, Refusal>) -> Result<T, Refusal>
    ensures { LeavesSet set.old set.new (given result) (λ s. outcome_if_there ieee s (given work)) }
{
    let Work { answer, used } = work?;
    write_used(set, used);
    Ok(answer)
}
