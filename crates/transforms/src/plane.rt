// Changes of coordinates in the plane of a face, polar and barycentric, with the Rust's order of operations.
ghost use Rattle.std.specs.Prelude.{◌≡◌, false};
ghost use Rattle.arithmetic.specs.Arith.{ieee};
ghost use Rattle.elementary.specs.Sine.{outside};
ghost use Rattle.coordinates.specs.CoordinateTransforms.{to_polar, to_face, face_to_barycentric, barycentric_to_face};

use arctangent::atan2_and_sqrt;
use coordinates::base::Radians;
use coordinates::coords::{Barycentric, Face, FaceTriangle};
use coordinates::polar::Polar;
use coordinates::vec2::Vec2;
use sine::inside::sin_cos_inside;

// A face point by its distance from the origin and its angle. Root and arc tangent do not wait for
// each other, and are found together.
pub fn to_polar(face: Face) -> Polar
    ensures { result ≡ to_polar ieee face }
{
    let x = face.0.x;
    let y = face.0.y;
    let found = atan2_and_sqrt(y, x, x * x + y * y);
    Polar {
        rho: found.root,
        gamma: Radians(found.angle),
    }
}

// The face point at a distance and an angle.
pub fn to_face(polar: Polar) -> Face
    requires { outside polar.gamma.0 ≡ false }
    ensures { result ≡ to_face ieee polar }
{
    let rho = polar.rho;
    let gamma = sin_cos_inside(polar.gamma.0);
    let x = rho * gamma.cos;
    let y = rho * gamma.sin;
    Face(Vec2 { x, y })
}

// A face point by its weights at the triangle's corners.
pub fn face_to_barycentric(p: Face, triangle: FaceTriangle) -> Barycentric
    ensures { result ≡ face_to_barycentric ieee p triangle }
{
    let p1 = triangle.a;
    let p2 = triangle.b;
    let p3 = triangle.c;

    let d31x = p1.0.x - p3.0.x;
    let d31y = p1.0.y - p3.0.y;
    let d23x = p3.0.x - p2.0.x;
    let d23y = p3.0.y - p2.0.y;
    let d3px = p.0.x - p3.0.x;
    let d3py = p.0.y - p3.0.y;

    let det = d23x * d31y - d23y * d31x;
    let b0 = (d23x * d3py - d23y * d3px) / det;
    let b1 = (d31x * d3py - d31y * d3px) / det;
    let b2 = 1.0 - (b0 + b1);

    Barycentric {
        u: b0,
        v: b1,
        w: b2,
    }
}

// The face point of three weights at the triangle's corners.
#[tactic(auto, unfolding(coordinates::specs::CoordinateTransforms::barycentric_to_face))]
pub fn barycentric_to_face(bary: Barycentric, triangle: FaceTriangle) -> Face
    ensures { result ≡ barycentric_to_face ieee bary triangle }
{
    let p1 = triangle.a;
    let p2 = triangle.b;
    let p3 = triangle.c;

    let x = bary.u * p1.0.x + bary.v * p2.0.x + bary.w * p3.0.x;
    let y = bary.u * p1.0.y + bary.v * p2.0.y + bary.w * p3.0.y;

    Face(Vec2 { x, y })
}
