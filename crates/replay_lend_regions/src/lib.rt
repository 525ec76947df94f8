// Positions and points lent to `region`: the first of each array.
#![tactic(auto)]

ghost use Rattle.std.specs.Prelude.{◌≡◌, ◌≤◌};
ghost use Rattle.answer.specs.Answer.{given};
ghost use Rattle.arithmetic.specs.Arith.{ieee};
ghost use Rattle.set.specs.Lent.{held, SameBuffers};
ghost use Rattle.region_work.specs.Region.{region_called};
ghost use Rattle.replay_lent.specs.Regions.{region_first};

use coordinates::coords::Face;
use coordinates::lonlat::LonLat;
use list_calls::region::region;
use nearest::origins::Origins;
use replay_lent::regions::{MOST, Outlined};
use set::set::Set;

// Lends the first n positions and the first m points. The other points stay. Both are cut here: a slice cut by the caller would take
// n out of `region_first`, and put it into the caller's proof, which has the array and n as it is.
pub fn lend<O: Origins>(
    origins: O,
    set: &mut Set<'_>,
    positions: &[LonLat; MOST],
    n: usize,
    points: [Face; MOST],
    m: usize,
) -> Outlined
    requires { (n ≤ 300) × (m ≤ 300) }
    ensures same { SameBuffers set.old set.new }
    ensures outlined { region_called (given result.answer) result.points (held set.new)
        ≡ region_first ieee (O.table origins) (held set.old) positions.now n points m }
{
    let mut points = points;
    let answer = region(origins, set, &positions[..n], &mut points[..m]);
    Outlined { answer, points }
}
