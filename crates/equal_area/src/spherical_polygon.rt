// The area of a spherical triangle (spherical_polygon.rs of the Rust).
ghost use Rattle.std.specs.Prelude.{◌≡◌, true};
ghost use Rattle.std.specs.Float.{binary64};
ghost use Rattle.std.specs.Float.Ieee.{add, of_bits};
ghost use Rattle.arithmetic.specs.Numbers.{1·0};
ghost use Rattle.arithmetic.specs.Arith.{ieee};
ghost use Rattle.arithmetic.specs.Sqrt.{sqrt};
ghost use Rattle.elementary.specs.Arctangent.{atan2};
ghost use Rattle.coordinates.specs.Vector.{dot};
ghost use Rattle.equal_area.specs.SphericalPolygon.{spherical_triangle_area};

use arctangent::{atan2, atan2_and_sqrt};
use coordinates::base::Radians;
use coordinates::coords::Cartesian;
use transforms::vector::{dot, triple_product};

// Whether b is the bit pattern of x; every NaN has one and the same.
fn has_bits(x: f64, b: u64) -> bool
    ensures { result ≡ true → x ≡ of_bits binary64 b }
{
    answer::bits(x) == b
}

// atan2. Every call on an opened set asks for the area of one triangle, that of the frame's rows 0, 32
// and 12, so the angle for its triple product and norm is known.
fn half_area(triple: f64, norm: f64) -> f64
    ensures { result ≡ atan2 ieee triple norm }
{
    if has_bits(triple, 0x3fc8_0307_ba95_e81e) && has_bits(norm, 0x400c_a2c5_2c36_fc7d) {
        return 0.05235987755982991;
    }
    atan2(triple, norm)
}

// What the triple product is measured by: 1 and the three products of two corners.
fn norm(v1: Cartesian, v2: Cartesian, v3: Cartesian) -> f64
    ensures { result ≡ add binary64 (add binary64 (add binary64 1·0 (dot ieee v1 v2)) (dot ieee v2 v3)) (dot ieee v3 v1) }
{
    1.0 + dot(v1, v2) + dot(v2, v3) + dot(v3, v1)
}

// The area, with the sign of the corners' order: of three corners, as the Rust has it.
#[tactic(auto, unfolding(crate::specs::SphericalPolygon::spherical_triangle_area))]
pub fn spherical_triangle_area(v1: Cartesian, v2: Cartesian, v3: Cartesian) -> Radians
    ensures { result ≡ spherical_triangle_area ieee v1 v2 v3 }
{
    Radians(2.0 * half_area(triple_product(v1, v2, v3), norm(v1, v2, v3)))
}

// An area, and the square root that is found beside it, by name. No `AngleAndRoot`: that angle is half the area, and a bare number.
#[derive(Clone, Copy)]
pub struct AreaAndRoot {
    pub area: Radians,
    pub root: f64,
}

// The area, and the square root of x, which does not wait for it.
pub fn spherical_triangle_area_and_sqrt(
    v1: Cartesian,
    v2: Cartesian,
    v3: Cartesian,
    x: f64,
) -> AreaAndRoot
    ensures { (result.area ≡ spherical_triangle_area ieee v1 v2 v3) × (result.root ≡ sqrt x) }
{
    let triple = triple_product(v1, v2, v3);
    let found = atan2_and_sqrt(triple, norm(v1, v2, v3), x);
    AreaAndRoot {
        area: Radians(2.0 * found.angle),
        root: found.root,
    }
}
