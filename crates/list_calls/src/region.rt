// A region on one face (document 02, Paper 4), on lent slices: `work` works the region out, and `copies` copies the points out.
ghost use Rattle.std.specs.Prelude.{◌≡◌};
ghost use Rattle.arithmetic.specs.Arith.{ieee};
ghost use Rattle.set.specs.Lent.{held, SameBuffers};
ghost use Rattle.answer.specs.Answer.{given};
ghost use Rattle.region_work.specs.Region.{region_called, region_on};

use crate::copies::write_out;
use crate::work::work;
use answer::Refusal;
use coordinates::coords::Face;
use coordinates::lonlat::LonLat;
use nearest::origins::Origins;
use region_work::region::Region;
use set::set::Set;

// An outline of 1 to 256 positions on one face: the origin that is nearest to all of them, the box round their face points, and
// the face points, which go to the places lent for them; the set is left as after placing the positions in turn. Refused with
// 1, 2, 3, 21, 22, 15, 14, the number of the first position that place refuses, or 16 where two origins differ; then nothing is
// written.
pub fn region<O: Origins>(
    origins: O,
    set: &mut Set<'_>,
    positions: &[LonLat],
    points: &mut [Face],
) -> Result<Region, Refusal>
    ensures same { SameBuffers set.old set.new }
    ensures outlined { region_called (given result) points.new (held set.new)
        ≡ region_on ieee (O.table origins) (held set.old) positions.now points.old }
{
    let done = work(&origins, set, positions, points.len())?;
    write_out(points, done.points, positions.len());
    Ok(done.region)
}
