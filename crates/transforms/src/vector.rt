// Vectors in space.
ghost use Rattle.std.specs.Prelude.{◌≡◌};
ghost use Rattle.arithmetic.specs.Arith.{ieee};
ghost use Rattle.coordinates.specs.Vector.{triple_product, length, subtract, vec3_distance, dot, cross, normalize, scale, scale_and_add};

use coordinates::coords::Cartesian;
use coordinates::vec3::Vec3;

// a · (b × c)
#[tactic(auto, unfolding(coordinates::specs::Vector::triple_product))]
pub fn triple_product(a: Cartesian, b: Cartesian, c: Cartesian) -> f64
    ensures { result ≡ triple_product ieee a b c }
{
    a.0.x * (b.0.y * c.0.z - b.0.z * c.0.y)
        + a.0.y * (b.0.z * c.0.x - b.0.x * c.0.z)
        + a.0.z * (b.0.x * c.0.y - b.0.y * c.0.x)
}

// The vector's length.
#[tactic(auto, unfolding(coordinates::specs::Vector::length, coordinates::specs::Vector::dot))]
pub fn length(v: Cartesian) -> f64
    ensures { result ≡ length ieee v }
{
    square_root::root::sqrt(dot(v, v))
}

// a - b
#[tactic(auto, unfolding(coordinates::specs::Vector::subtract))]
pub fn subtract(a: Cartesian, b: Cartesian) -> Cartesian
    ensures { result ≡ subtract ieee a b }
{
    Cartesian(Vec3 {
        x: a.0.x - b.0.x,
        y: a.0.y - b.0.y,
        z: a.0.z - b.0.z,
    })
}

// The distance of two points.
pub fn vec3_distance(a: Cartesian, b: Cartesian) -> f64
    ensures { result ≡ vec3_distance ieee a b }
{
    length(subtract(a, b))
}

// a · b
#[tactic(auto, unfolding(coordinates::specs::Vector::dot))]
pub fn dot(a: Cartesian, b: Cartesian) -> f64
    ensures { result ≡ dot ieee a b }
{
    a.0.x * b.0.x + a.0.y * b.0.y + a.0.z * b.0.z
}

// a × b
#[tactic(auto, unfolding(coordinates::specs::Vector::cross))]
pub fn cross(a: Cartesian, b: Cartesian) -> Cartesian
    ensures { result ≡ cross ieee a b }
{
    Cartesian(Vec3 {
        x: a.0.y * b.0.z - a.0.z * b.0.y,
        y: a.0.z * b.0.x - a.0.x * b.0.z,
        z: a.0.x * b.0.y - a.0.y * b.0.x,
    })
}

// The vector of length 1 in the same direction; a zero vector stays.
#[tactic(auto, unfolding(coordinates::specs::Vector::normalize))]
pub fn normalize(v: Cartesian) -> Cartesian
    ensures { result ≡ normalize ieee v }
{
    let len = length(v);
    if len == 0.0 {
        return v;
    }
    Cartesian(Vec3 {
        x: v.0.x / len,
        y: v.0.y / len,
        z: v.0.z / len,
    })
}

// v * s
#[tactic(auto, unfolding(coordinates::specs::Vector::scale))]
pub fn scale(v: Cartesian, s: f64) -> Cartesian
    ensures { result ≡ scale ieee v s }
{
    Cartesian(Vec3 {
        x: v.0.x * s,
        y: v.0.y * s,
        z: v.0.z * s,
    })
}

// a + b * s
#[tactic(auto, unfolding(coordinates::specs::Vector::scale_and_add))]
pub fn scale_and_add(a: Cartesian, b: Cartesian, s: f64) -> Cartesian
    ensures { result ≡ scale_and_add ieee a b s }
{
    Cartesian(Vec3 {
        x: a.0.x + b.0.x * s,
        y: a.0.y + b.0.y * s,
        z: a.0.z + b.0.z * s,
    })
}
