// A list of positions placed in one call, as C functions. What crate exports says of pointers and lengths holds here too;
// all go into one library. A position and a result are the structs that
// bindings/a5.h has as a5_position and a5_result. C has a function for each table, and the three buffers one by one: its
// interface is fixed.
#![tactic(auto, using(crate::proofs::TableLength::c_functions))]

mod call;
pub mod tables;

ghost use Rattle.std.specs.Prelude.{◌≡◌};
ghost use Rattle.arithmetic.specs.Arith.{ieee};
ghost use Rattle.origin.specs.Origins.{ORIGINS};
ghost use Rattle.set.specs.Outcome.{lent};
ghost use Rattle.place_list.specs.Lists.{place_list_on};
ghost use Rattle.exports_lists.specs.Lists.{returned, in_c};

use crate::call::listed;
use coordinates::lonlat::LonLat;
use nearest::origins::BuiltIn;
use place_list::PlaceResult;
use set::set::Set;

// Place a list: a result for each position goes to results.
#[unsafe(no_mangle)]
pub extern "C" fn a5_place_list(
    frame: &[f64],
    face_store: &mut [f64],
    sphere_store: &mut [f64],
    positions: &[LonLat],
    results: &mut [PlaceResult],
) -> u8
    ensures { returned result results.new (lent frame face_store sphere_store).exit
        ≡ in_c (place_list_on ieee ORIGINS (lent frame face_store sphere_store).entry positions.now results.old) }
{
    let mut set = Set {
        frame,
        face_store,
        sphere_store,
    };
    listed(BuiltIn, &mut set, positions, results)
}
