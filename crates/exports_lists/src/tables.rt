// A list of positions with a table, as a C function. A table is a pointer and a length in C, as in crate exports.
ghost use Rattle.std.specs.Prelude.{◌≡◌};
ghost use Rattle.arithmetic.specs.Arith.{ieee};
ghost use Rattle.set.specs.Outcome.{lent};
ghost use Rattle.exports_lists.specs.Lists.{returned, in_c, list_with};

use crate::call::listed;
use border::rows::rows_or_20;
use coordinates::lonlat::LonLat;
use place_list::PlaceResult;
use set::set::Set;

// Place a list with a table: a table that isn't 84 numbers long is refused with 20 before anything else is tried.
#[unsafe(no_mangle)]
pub extern "C" fn a5_place_list_with(
    table: &[f64],
    frame: &[f64],
    face_store: &mut [f64],
    sphere_store: &mut [f64],
    positions: &[LonLat],
    results: &mut [PlaceResult],
) -> u8
    ensures { returned result results.new (lent frame face_store sphere_store).exit
        ≡ in_c (list_with ieee table.now (lent frame face_store sphere_store).entry positions.now results.old) }
{
    let rows = match rows_or_20(table) {
        Ok(rows) => rows,
        Err(refusal) => return refusal.number(),
    };
    let mut set = Set {
        frame,
        face_store,
        sphere_store,
    };
    listed(rows, &mut set, positions, results)
}
