// A list of positions placed, as C is told of it.
ghost use Rattle.std.specs.Prelude.{◌≡◌};
ghost use Rattle.arithmetic.specs.Arith.{ieee};
ghost use Rattle.set.specs.Lent.{SameBuffers, held};
ghost use Rattle.place_list.specs.Lists.{place_list_on};
ghost use Rattle.exports_lists.specs.Lists.{returned, in_c};

use coordinates::lonlat::LonLat;
use list_calls::place_list;
use nearest::origins::Origins;
use place_list::PlaceResult;
use set::set::Set;

// The number of the call's check; a result for each position goes to results.
pub(crate) fn listed<O: Origins>(
    origins: O,
    set: &mut Set<'_>,
    positions: &[LonLat],
    results: &mut [PlaceResult],
) -> u8
    ensures same { SameBuffers set.old set.new }
    ensures listed { returned result results.new (held set.new)
        ≡ in_c (place_list_on ieee (O.table origins) (held set.old) positions.now results.old) }
{
    answer::status(place_list(origins, set, positions, results))
}
