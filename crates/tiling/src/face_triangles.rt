// The face triangles: base, reflected and squashed.
ghost use Rattle.std.specs.Prelude.{◌≡◌};
ghost use Rattle.arithmetic.specs.Arith.{ieee};
ghost use Rattle.tiling.specs.FaceTriangles.{midpoint, get_base_face_triangle, scale_of, beyond, get_reflected_face_triangle, face_triangle};

use crate::tiling::get_quintant_vertices;
use coordinates::coords::{Face, FaceTriangle};
use coordinates::vec2::Vec2;

// The point halfway between two.
fn midpoint(p: Face, q: Face) -> Face
    ensures { result ≡ midpoint ieee p q }
{
    Face(Vec2 {
        x: (p.0.x + q.0.x) / 2.0,
        y: (p.0.y + q.0.y) / 2.0,
    })
}

// The base triangle with an index 0 to 9, half of a quintant: centre, edge midpoint and first corner for
// an even index, centre, second corner and edge midpoint for an odd one.
pub fn get_base_face_triangle(index: usize) -> FaceTriangle
    ensures { result ≡ get_base_face_triangle ieee index }
{
    let v = get_quintant_vertices((index / 2 + index % 2) % 5);
    let center = v.center;
    let corner1 = v.corner1;
    let corner2 = v.corner2;
    let edge_midpoint = midpoint(corner1, corner2);
    if index % 2 == 0 {
        FaceTriangle {
            a: center,
            b: edge_midpoint,
            c: corner1,
        }
    } else {
        FaceTriangle {
            a: center,
            b: corner2,
            c: edge_midpoint,
        }
    }
}

// 1.0 + 1.0 / cos(INTERHEDRAL_ANGLE).
const SQUASHED: f64 = 3.2360679774997894;

// How far the reflected centre lies beyond the edge, as a multiple of the midpoint.
fn scale_of(squashed: bool) -> f64
    ensures { result ≡ scale_of ieee squashed }
{
    if squashed { SQUASHED } else { 2.0 }
}

// The centre a beyond the edge with that midpoint.
fn beyond(a: Face, midpoint: Face, scale: f64) -> Face
    ensures { result ≡ beyond ieee a midpoint scale }
{
    Face(Vec2 {
        x: -a.0.x + midpoint.0.x * scale,
        y: -a.0.y + midpoint.0.y * scale,
    })
}

// The base triangle with its centre reflected beyond the edge, squashed or not.
pub fn get_reflected_face_triangle(index: usize, squashed: bool) -> FaceTriangle
    ensures { result ≡ get_reflected_face_triangle ieee index squashed }
{
    let base = get_base_face_triangle(index);
    let a = base.a;
    let b = base.b;
    let c = base.c;
    let scale = scale_of(squashed);
    // midpoint and corner change places, so that the order stays
    if index % 2 == 0 {
        FaceTriangle {
            a: beyond(a, b, scale),
            b: c,
            c: b,
        }
    } else {
        FaceTriangle {
            a: beyond(a, c, scale),
            b: c,
            c: b,
        }
    }
}

// The triangle of a face slot: 0 to 9 base, 10 to 19 reflected, 20 to 29 reflected and squashed.
pub fn face_triangle(slot: usize) -> FaceTriangle
    ensures { result ≡ face_triangle ieee slot }
{
    if slot < 10 {
        get_base_face_triangle(slot)
    } else if slot < 20 {
        get_reflected_face_triangle(slot % 10, false)
    } else {
        get_reflected_face_triangle(slot % 10, true)
    }
}
