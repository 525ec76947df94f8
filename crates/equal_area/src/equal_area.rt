// Equal-area projection of Snyder, with closed-form equations: a point of a spherical triangle ABC
// goes to the face triangle by way of P, where the great circles through A and the point, and through
// B and C, meet. Here are its types, and the way from the face to the sphere; the other way is
// `forward`.
ghost use Rattle.std.specs.Prelude.{◌≡◌};
ghost use Rattle.answer.specs.Answer.{given};
ghost use Rattle.arithmetic.specs.Arith.{ieee};
ghost use Rattle.equal_area.specs.EqualArea.{is_odd, point_p, between, at_angle, inside, from_barycentric, inverse};

use answer::Refusal;
use coordinates::coords::{Barycentric, Cartesian, Face, FaceTriangle, SphericalTriangle};
use elementary::signs::abs;
use elementary::sine::SinCos;
use sine::sin_cos;
use square_root::root::sqrt;
use transforms::plane::face_to_barycentric;
use transforms::vector::{dot, normalize, scale, scale_and_add};

// What the maps take from the one canonical triangle: all face triangles are congruent. The functions that take it are no methods of it:
// both ways are called alike, by their module.
#[derive(Clone, Copy)]
pub struct TriangleConstants {
    pub a_dot_b: f64,
    pub a_dot_c: f64,
    // takes [cos alpha, sin alpha] to the weights of B and C, as [c1c, c2c, c1s, c2s, c1o, c2o]
    pub alpha_transform: AlphaTransform,
    pub area_abc: f64,
    // A · (B × C), with its sign
    pub volume_abc: f64,
}

// Six numbers of the triangle, by their names in the Rust.
#[derive(Clone, Copy)]
pub struct AlphaTransform {
    pub c1c: f64,
    pub c2c: f64,
    pub c1s: f64,
    pub c2s: f64,
    pub c1o: f64,
    pub c2o: f64,
}

// Whether B and C stand in the mirror image of the canonical triangle's order.
fn is_odd(constants: TriangleConstants, triangle: SphericalTriangle) -> bool
    ensures { result ≡ is_odd ieee constants triangle }
{
    let a = triangle.a;
    let b = triangle.b;
    let face_a_dot_b = dot(a, b);
    abs(face_a_dot_b - constants.a_dot_b) > abs(face_a_dot_b - constants.a_dot_c)
}

// P between B and C, in the even orientation, at the angle alpha.
fn point_p(constants: TriangleConstants, b: Cartesian, c: Cartesian, s: SinCos) -> Cartesian
    ensures { result ≡ point_p ieee constants b c s }
{
    let m = constants.alpha_transform;
    let weight_b = m.c1c * s.cos + m.c1s * s.sin + m.c1o;
    let weight_c = m.c2c * s.cos + m.c2s * s.sin + m.c2o;
    normalize(scale_and_add(scale(b, weight_b), c, weight_c))
}

// The point between A and P.
fn between(a: Cartesian, p: Cartesian, rho: f64) -> Cartesian
    ensures { result ≡ between ieee a p rho }
{
    let s = dot(a, p);
    let t = 1.0 + rho * rho * (s - 1.0);
    let weight_p = rho * sqrt((1.0 + t) / (1.0 + s));
    let weight_a = t - s * weight_p;
    scale_and_add(scale(a, weight_a), p, weight_p)
}

// The point at the angle alpha, rho from A. The angle can be anything, so sine may answer "outside". Three corners, and no triangle: of an odd
// one B and C come exchanged.
fn at_angle(
    constants: TriangleConstants,
    a: Cartesian,
    b: Cartesian,
    c: Cartesian,
    alpha: f64,
    rho: f64,
) -> Result<Cartesian, Refusal>
    ensures { given result ≡ at_angle ieee constants a b c alpha rho }
{
    let s = sin_cos(alpha)?;
    Ok(between(a, point_p(constants, b, c, s), rho))
}

// The point of the sphere where no corner is returned. An odd triangle is normalised by exchanging B
// and C and the matching weight.
fn inside(
    constants: TriangleConstants,
    bary: Barycentric,
    triangle: SphericalTriangle,
) -> Result<Cartesian, Refusal>
    ensures { given result ≡ inside ieee constants bary triangle }
{
    let a = triangle.a;
    let b = triangle.b;
    let c = triangle.c;
    let rho = 1.0 - bary.u;
    if is_odd(constants, triangle) {
        let alpha = (bary.v / rho) * constants.area_abc;
        at_angle(constants, a, c, b, alpha, rho)
    } else {
        let alpha = (bary.w / rho) * constants.area_abc;
        at_angle(constants, a, b, c, alpha, rho)
    }
}

// A corner where its coordinate is nearly 1, tried in the order a, b, c.
fn from_barycentric(
    constants: TriangleConstants,
    bary: Barycentric,
    triangle: SphericalTriangle,
) -> Result<Cartesian, Refusal>
    ensures { given result ≡ from_barycentric ieee constants bary triangle }
{
    let threshold = 1.0 - 1e-14;
    if bary.u > threshold {
        return Ok(triangle.a);
    }
    if bary.v > threshold {
        return Ok(triangle.b);
    }
    if bary.w > threshold {
        return Ok(triangle.c);
    }
    inside(constants, bary, triangle)
}

// From the face to the sphere.
pub fn inverse(
    constants: TriangleConstants,
    face_point: Face,
    face_triangle: FaceTriangle,
    spherical_triangle: SphericalTriangle,
) -> Result<Cartesian, Refusal>
    ensures { given result ≡ inverse ieee constants face_point face_triangle spherical_triangle }
{
    let bary = face_to_barycentric(face_point, face_triangle);
    from_barycentric(constants, bary, spherical_triangle)
}
