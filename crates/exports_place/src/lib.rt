// Place and unplace on a set as C functions, with the built-in table and with a table that is lent. What crate exports says
// of pointers, lengths, answers and tables holds here too. C has a function for each table, and the three
// buffers one by one: its interface is fixed.
#![tactic(auto, using(border::proofs::Tables::tables))]

ghost use Rattle.arithmetic.specs.Arith.{ieee};
ghost use Rattle.coordinates.specs.CoordinateTransforms.{face};
ghost use Rattle.origin.specs.Origins.{ORIGINS};
ghost use Rattle.set.specs.Outcome.{lent};
ghost use Rattle.set.specs.Lent.{SameBuffers, between};
ghost use Rattle.dodecahedron.specs.Calls.{place_on, unplace_on};
ghost use Rattle.border.specs.Returns.{ReturnsOn, contents, contents_of};
ghost use Rattle.border.specs.Calls.{lon_lat, degrees, id_and_point};
ghost use Rattle.border.specs.Tables.{with_table_on};

use border::answers::{put, put_place};
use border::arguments;
use border::rows::rows_or_20;
use coordinates::coords::Face;
use coordinates::vec2::Vec2;
use nearest::origins::{BuiltIn, Origins};
use set::set::Set;

// Place over any origins, and what C is told of it.
fn place<O: Origins>(
    origins: O,
    set: &mut Set<'_>,
    longitude: f64,
    latitude: f64,
    id: &mut u8,
    to: &mut [f64; 2],
) -> u8
    ensures same { SameBuffers set.old set.new }
    ensures returns { ReturnsOn (between set.old set.new) result (contents_of id to) id_and_point
        (λ s. place_on ieee (O.table origins) s (lon_lat longitude latitude)) }
{
    let position = arguments::lon_lat(longitude, latitude);
    let place = calls::place(origins, set, position);
    put_place(place, id, to)
}

// Unplace over any origins, and what C is told of it.
fn unplace<O: Origins>(
    origins: O,
    set: &mut Set<'_>,
    x: f64,
    y: f64,
    origin: u8,
    to: &mut [f64; 2],
) -> u8
    ensures same { SameBuffers set.old set.new }
    ensures returns { ReturnsOn (between set.old set.new) result (contents to) degrees
        (λ s. unplace_on ieee (O.table origins) s (face x y) origin) }
{
    let point = Face(Vec2 { x, y });
    let position = calls::unplace(origins, set, point, origin);
    put(position, to)
}

// Place: the number of the nearest origin, and the face point on its face, of a position in degrees.
#[unsafe(no_mangle)]
pub extern "C" fn a5_place(
    frame: &[f64],
    face_store: &mut [f64],
    sphere_store: &mut [f64],
    longitude: f64,
    latitude: f64,
    id: &mut u8,
    to: &mut [f64; 2],
) -> u8
    ensures { ReturnsOn (lent frame face_store sphere_store) result (contents_of id to) id_and_point
        (λ s. place_on ieee ORIGINS s (lon_lat longitude latitude)) }
{
    let mut set = Set {
        frame,
        face_store,
        sphere_store,
    };
    place(BuiltIn, &mut set, longitude, latitude, id, to)
}

// Place with a table: the number of its nearest origin, and the face point on its face, of a position in degrees.
#[unsafe(no_mangle)]
pub extern "C" fn a5_place_with(
    table: &[f64],
    frame: &[f64],
    face_store: &mut [f64],
    sphere_store: &mut [f64],
    longitude: f64,
    latitude: f64,
    id: &mut u8,
    to: &mut [f64; 2],
) -> u8
    ensures { ReturnsOn (lent frame face_store sphere_store) result (contents_of id to) id_and_point
        (with_table_on (λ t s. place_on ieee t s (lon_lat longitude latitude)) table.now) }
{
    let rows = match rows_or_20(table) {
        Ok(rows) => rows,
        Err(refusal) => return refusal.number(),
    };
    let mut set = Set {
        frame,
        face_store,
        sphere_store,
    };
    place(rows, &mut set, longitude, latitude, id, to)
}

// Unplace: longitude and latitude, in degrees, of a face point on the face of an origin.
#[unsafe(no_mangle)]
pub extern "C" fn a5_unplace(
    frame: &[f64],
    face_store: &mut [f64],
    sphere_store: &mut [f64],
    x: f64,
    y: f64,
    origin: u8,
    to: &mut [f64; 2],
) -> u8
    ensures { ReturnsOn (lent frame face_store sphere_store) result (contents to) degrees
        (λ s. unplace_on ieee ORIGINS s (face x y) origin) }
{
    let mut set = Set {
        frame,
        face_store,
        sphere_store,
    };
    unplace(BuiltIn, &mut set, x, y, origin, to)
}

// Unplace with a table: longitude and latitude, in degrees, of a face point on the face of one of its origins.
#[unsafe(no_mangle)]
pub extern "C" fn a5_unplace_with(
    table: &[f64],
    frame: &[f64],
    face_store: &mut [f64],
    sphere_store: &mut [f64],
    x: f64,
    y: f64,
    origin: u8,
    to: &mut [f64; 2],
) -> u8
    ensures { ReturnsOn (lent frame face_store sphere_store) result (contents to) degrees
        (with_table_on (λ t s. unplace_on ieee t s (face x y) origin) table.now) }
{
    let rows = match rows_or_20(table) {
        Ok(rows) => rows,
        Err(refusal) => return refusal.number(),
    };
    let mut set = Set {
        frame,
        face_store,
        sphere_store,
    };
    unplace(rows, &mut set, x, y, origin, to)
}
