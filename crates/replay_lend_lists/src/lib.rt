// Positions and results lent to `place_list`: the first of each array.
#![tactic(auto)]

ghost use Rattle.std.specs.Prelude.{◌≡◌, ◌≤◌};
ghost use Rattle.answer.specs.Answer.{given};
ghost use Rattle.arithmetic.specs.Arith.{ieee};
ghost use Rattle.set.specs.Lent.{held, SameBuffers};
ghost use Rattle.place_list.specs.Lists.{called};
ghost use Rattle.replay_lent.specs.Lists.{placed_first};

use coordinates::lonlat::LonLat;
use list_calls::place_list;
use nearest::origins::Origins;
use place_list::PlaceResult;
use replay_lent::lists::{Listed, MOST};
use set::set::Set;

// Lends the first n positions and the first m results. The other results stay. Both are cut here: a slice cut by the caller would take
// n out of `placed_first`, and put it into the caller's proof, which has the array and n as it is.
pub fn lend<O: Origins>(
    origins: O,
    set: &mut Set<'_>,
    positions: &[LonLat; MOST],
    n: usize,
    results: [PlaceResult; MOST],
    m: usize,
) -> Listed
    requires { (n ≤ 400) × (m ≤ 400) }
    ensures same { SameBuffers set.old set.new }
    ensures listed { called (given result.answer) result.results (held set.new)
        ≡ placed_first ieee (O.table origins) (held set.old) positions.now n results m }
{
    let mut results = results;
    let answer = place_list(origins, set, &positions[..n], &mut results[..m]);
    Listed { answer, results }
}
