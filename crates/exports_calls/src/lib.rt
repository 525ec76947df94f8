// Forward and inverse on a set as C functions, with the built-in table and with a table that is lent. What crate exports says
// of pointers, lengths, answers and tables holds here too. C has a function for each table, and the three
// buffers one by one: its interface is fixed.
#![tactic(auto, using(border::proofs::Tables::tables))]

ghost use Rattle.arithmetic.specs.Arith.{ieee};
ghost use Rattle.coordinates.specs.CoordinateTransforms.{face};
ghost use Rattle.origin.specs.Origins.{ORIGINS};
ghost use Rattle.set.specs.Outcome.{lent};
ghost use Rattle.set.specs.Lent.{SameBuffers, between};
ghost use Rattle.dodecahedron.specs.Calls.{forward_on, inverse_on};
ghost use Rattle.border.specs.Returns.{ReturnsOn, contents};
ghost use Rattle.border.specs.Calls.{spherical, angles, point};
ghost use Rattle.border.specs.Tables.{with_table_on};

use border::answers::put;
use border::arguments;
use border::rows::rows_or_20;
use coordinates::coords::Face;
use coordinates::vec2::Vec2;
use nearest::origins::{BuiltIn, Origins};
use set::set::Set;

// Forward over any origins, and what C is told of it.
fn forward<O: Origins>(
    origins: O,
    set: &mut Set<'_>,
    theta: f64,
    phi: f64,
    origin: u8,
    to: &mut [f64; 2],
) -> u8
    ensures same { SameBuffers set.old set.new }
    ensures returns { ReturnsOn (between set.old set.new) result (contents to) point
        (λ s. forward_on ieee (O.table origins) s (spherical theta phi) origin) }
{
    let position = arguments::spherical(theta, phi);
    let point = calls::forward(origins, set, position, origin);
    put(point, to)
}

// Inverse over any origins, and what C is told of it.
fn inverse<O: Origins>(
    origins: O,
    set: &mut Set<'_>,
    x: f64,
    y: f64,
    origin: u8,
    to: &mut [f64; 2],
) -> u8
    ensures same { SameBuffers set.old set.new }
    ensures returns { ReturnsOn (between set.old set.new) result (contents to) angles
        (λ s. inverse_on ieee (O.table origins) s (face x y) origin) }
{
    let point = Face(Vec2 { x, y });
    let position = calls::inverse(origins, set, point, origin);
    put(position, to)
}

// Forward: the face point, x and y, of a position, in radians, on the face of an origin.
#[unsafe(no_mangle)]
pub extern "C" fn a5_forward(
    frame: &[f64],
    face_store: &mut [f64],
    sphere_store: &mut [f64],
    theta: f64,
    phi: f64,
    origin: u8,
    to: &mut [f64; 2],
) -> u8
    ensures { ReturnsOn (lent frame face_store sphere_store) result (contents to) point
        (λ s. forward_on ieee ORIGINS s (spherical theta phi) origin) }
{
    let mut set = Set {
        frame,
        face_store,
        sphere_store,
    };
    forward(BuiltIn, &mut set, theta, phi, origin, to)
}

// Forward with a table: the face point, x and y, of a position, in radians, on the face of one of its origins.
#[unsafe(no_mangle)]
pub extern "C" fn a5_forward_with(
    table: &[f64],
    frame: &[f64],
    face_store: &mut [f64],
    sphere_store: &mut [f64],
    theta: f64,
    phi: f64,
    origin: u8,
    to: &mut [f64; 2],
) -> u8
    ensures { ReturnsOn (lent frame face_store sphere_store) result (contents to) point
        (with_table_on (λ t s. forward_on ieee t s (spherical theta phi) origin) table.now) }
{
    let rows = match rows_or_20(table) {
        Ok(rows) => rows,
        Err(refusal) => return refusal.number(),
    };
    let mut set = Set {
        frame,
        face_store,
        sphere_store,
    };
    forward(rows, &mut set, theta, phi, origin, to)
}

// Inverse: theta and phi, in radians, of a face point on the face of an origin.
#[unsafe(no_mangle)]
pub extern "C" fn a5_inverse(
    frame: &[f64],
    face_store: &mut [f64],
    sphere_store: &mut [f64],
    x: f64,
    y: f64,
    origin: u8,
    to: &mut [f64; 2],
) -> u8
    ensures { ReturnsOn (lent frame face_store sphere_store) result (contents to) angles
        (λ s. inverse_on ieee ORIGINS s (face x y) origin) }
{
    let mut set = Set {
        frame,
        face_store,
        sphere_store,
    };
    inverse(BuiltIn, &mut set, x, y, origin, to)
}

// Inverse with a table: theta and phi, in radians, of a face point on the face of one of its origins.
#[unsafe(no_mangle)]
pub extern "C" fn a5_inverse_with(
    table: &[f64],
    frame: &[f64],
    face_store: &mut [f64],
    sphere_store: &mut [f64],
    x: f64,
    y: f64,
    origin: u8,
    to: &mut [f64; 2],
) -> u8
    ensures { ReturnsOn (lent frame face_store sphere_store) result (contents to) angles
        (with_table_on (λ t s. inverse_on ieee t s (face x y) origin) table.now) }
{
    let rows = match rows_or_20(table) {
        Ok(rows) => rows,
        Err(refusal) => return refusal.number(),
    };
    let mut set = Set {
        frame,
        face_store,
        sphere_store,
    };
    inverse(rows, &mut set, x, y, origin, to)
}
