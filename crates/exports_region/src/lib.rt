// A region on one face as C functions: with the built-in table, and with a table, which is a pointer and a length in C. What crate
// exports says of pointers, lengths and tables holds here too; all go into one library. A position, a point and a box are the structs
// that bindings/a5.h has as a5_position, a5_point and a5_box. C has a function for each table, and the three buffers one by one: its
// interface is fixed.
#![tactic(auto, using(region_border::proofs::Told::c_functions))]

ghost use Rattle.std.specs.Prelude.{◌≡◌};
ghost use Rattle.arithmetic.specs.Arith.{ieee};
ghost use Rattle.origin.specs.Origins.{ORIGINS};
ghost use Rattle.set.specs.Outcome.{lent};
ghost use Rattle.set.specs.Lent.{SameBuffers, held};
ghost use Rattle.region_work.specs.Region.{region_on};
ghost use Rattle.region_border.specs.Regions.{returned, in_c, region_with};

use border::rows::rows_or_20;
use caption_box::CaptionBox;
use coordinates::coords::Face;
use coordinates::lonlat::LonLat;
use list_calls::region::region;
use nearest::origins::{BuiltIn, Origins};
use region_border::put_region;
use set::set::Set;

// A region, as C is told of it: its points go to points, its origin to origin, and its box to caption.
fn outlined<O: Origins>(
    origins: O,
    set: &mut Set<'_>,
    positions: &[LonLat],
    points: &mut [Face],
    origin: &mut u8,
    caption: &mut CaptionBox,
) -> u8
    ensures same { SameBuffers set.old set.new }
    ensures outlined { returned result points.new origin.new caption.new (held set.new)
        ≡ in_c (region_on ieee (O.table origins) (held set.old) positions.now points.old)
        origin.old caption.old }
{
    put_region(region(origins, set, positions, points), origin, caption)
}

// A region: its points go to points, its origin to origin, and its box to caption.
#[unsafe(no_mangle)]
pub extern "C" fn a5_region(
    frame: &[f64],
    face_store: &mut [f64],
    sphere_store: &mut [f64],
    positions: &[LonLat],
    points: &mut [Face],
    origin: &mut u8,
    caption: &mut CaptionBox,
) -> u8
    ensures { returned result points.new origin.new caption.new (lent frame face_store sphere_store).exit
        ≡ in_c (region_on ieee ORIGINS (lent frame face_store sphere_store).entry positions.now points.old)
        origin.old caption.old }
{
    let mut set = Set {
        frame,
        face_store,
        sphere_store,
    };
    outlined(BuiltIn, &mut set, positions, points, origin, caption)
}

// A region with a table: a table that isn't 84 numbers long is refused with 20 before anything else is tried.
#[unsafe(no_mangle)]
pub extern "C" fn a5_region_with(
    table: &[f64],
    frame: &[f64],
    face_store: &mut [f64],
    sphere_store: &mut [f64],
    positions: &[LonLat],
    points: &mut [Face],
    origin: &mut u8,
    caption: &mut CaptionBox,
) -> u8
    ensures { returned result points.new origin.new caption.new (lent frame face_store sphere_store).exit
        ≡ in_c (region_with ieee table.now (lent frame face_store sphere_store).entry positions.now points.old)
        origin.old caption.old }
{
    let rows = match rows_or_20(table) {
        Ok(rows) => rows,
        Err(refusal) => return refusal.number(),
    };
    let mut set = Set {
        frame,
        face_store,
        sphere_store,
    };
    outlined(rows, &mut set, positions, points, origin, caption)
}
