// The equal-area map from the sphere to the face, and the constants of the canonical triangle
// (equal_area.rs of the Rust).
ghost use Rattle.std.specs.Prelude.{◌≡◌};
ghost use Rattle.arithmetic.specs.Arith.{ieee};
ghost use Rattle.equal_area.specs.EqualArea.{compute_constants, one_over, forward};

use crate::equal_area::{AlphaTransform, TriangleConstants};
use crate::spherical_polygon::{spherical_triangle_area, spherical_triangle_area_and_sqrt};
use coordinates::coords::{Barycentric, Cartesian, Face, FaceTriangle, SphericalTriangle};
use elementary::signs::max_zero;
use transforms::plane::barycentric_to_face;
use transforms::vector::{cross, dot, length, scale, scale_and_add};

// The constants of a canonical triangle.
pub fn compute_constants(triangle: SphericalTriangle) -> TriangleConstants
    ensures { result ≡ compute_constants ieee triangle }
{
    let a = triangle.a;
    let b = triangle.b;
    let c = triangle.c;
    let bxc = cross(b, c);
    let a_dot_b = dot(a, b);
    let a_dot_c = dot(a, c);
    let b_dot_c = dot(b, c);

    let v = dot(a, bxc);
    let p = a_dot_c + b_dot_c;
    let q = a_dot_b + 1.0;
    let r = a_dot_b * b_dot_c - a_dot_c;
    let f = p * p - q * q;
    let g = 2.0 * q * r;
    let area = spherical_triangle_area(a, b, c);

    TriangleConstants {
        a_dot_b,
        a_dot_c,
        alpha_transform: AlphaTransform {
            c1c: v * v - f,
            c2c: -g,
            c1s: -2.0 * v * p,
            c2s: 2.0 * v * q,
            c1o: v * v + f,
            c2o: g,
        },
        area_abc: area.0,
        volume_abc: v,
    }
}

// 1 / d, or 1 where d is not above 0.
#[tactic(auto, unfolding(crate::specs::EqualArea::one_over))]
fn one_over(d: f64) -> f64
    ensures { result ≡ one_over ieee d }
{
    if d > 0.0 { 1.0 / d } else { 1.0 }
}

// From the sphere to the face. bxc is B × C of the spherical triangle, whose type is the Rust's and has none.
pub fn forward(
    constants: TriangleConstants,
    v: Cartesian,
    spherical_triangle: SphericalTriangle,
    bxc: Cartesian,
    face_triangle: FaceTriangle,
) -> Face
    ensures { result ≡ forward ieee constants v spherical_triangle bxc face_triangle }
{
    let a = spherical_triangle.a;
    let b = spherical_triangle.b;
    let area_abc = constants.area_abc;
    let volume_abc = constants.volume_abc;

    let volume_vbc = dot(v, bxc);
    let p = scale_and_add(scale(v, volume_abc), a, -volume_vbc);
    let d = length(p);
    let p = scale(p, one_over(d));

    // the area's arc tangent and rho's root do not wait for each other, and are found together
    let ratio = (1.0 + dot(a, p)) / (1.0 + dot(a, v));
    let found = spherical_triangle_area_and_sqrt(a, b, p, ratio);
    let area_abp = max_zero(found.area.0);
    let alpha = area_abp / area_abc;
    let rho = (d / volume_abc) * found.root;

    let b_coords = Barycentric {
        u: 1.0 - rho,
        v: rho * (1.0 - alpha),
        w: rho * alpha,
    };
    barycentric_to_face(b_coords, face_triangle)
}
