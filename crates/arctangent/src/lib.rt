// Atan and atan2, and core, of which they are made (document 01, "Elementary steps").
#![tactic(auto)]

pub mod core_step;

ghost use Rattle.std.specs.Prelude.{◌≡◌};
ghost use Rattle.arithmetic.specs.Arith.{ieee};
ghost use Rattle.arithmetic.specs.Sqrt.{sqrt};
ghost use Rattle.elementary.specs.Signs.{abs, with_sign};
ghost use Rattle.elementary.specs.Arctangent.{core, atan_size, atan, tangent, atan2_base, atan2};

use crate::core_step::{AngleAndRoot, core, core_and_sqrt, core_both};
use elementary::signs::{abs, negative};
use std::f64::consts::{FRAC_PI_2, PI};

// The angle of a tangent that is not negative.
#[tactic(auto, unfolding(elementary::specs::Arctangent::atan_size))]
fn atan_size(a: f64) -> f64
    ensures { result ≡ atan_size ieee a }
{
    if a <= 1.0 {
        core(a)
    } else {
        FRAC_PI_2 - core(1.0 / a)
    }
}

// x with the sign that a set or clear sign bit stands for. Std's copysign takes no NaN for the sign, and compares x with 0 first.
#[tactic(auto, unfolding(elementary::specs::Signs::with_sign))]
fn with_sign(negative: bool, x: f64) -> f64
    ensures { result ≡ with_sign negative x }
{
    if negative { -x } else { x }
}

// The angle whose tangent is x, from -π/2 to π/2.
#[tactic(auto, using(elementary::proofs::Angles::atan_is))]
pub fn atan(x: f64) -> f64
    ensures { result ≡ atan ieee x }
{
    with_sign(negative(x), atan_size(abs(x)))
}

// The tangent whose angle atan2 takes from core: the smaller size by the larger.
#[tactic(auto, using(elementary::proofs::Angles::tangent_low, elementary::proofs::Angles::tangent_high))]
fn tangent(y: f64, x: f64) -> f64
    ensures { result ≡ tangent ieee (abs y) (abs x) }
{
    let a = abs(y);
    let b = abs(x);
    if a <= b { a / b } else { b / a }
}

// The angle of the point (b, a), neither negative, from that of its tangent.
#[tactic(auto, using(elementary::proofs::Angles::bases), unfolding(elementary::specs::Constants::FRAC_PI_2))]
fn atan2_base(a: f64, b: f64, angle: f64) -> f64
    requires { angle ≡ core ieee (tangent ieee a b) }
    ensures { result ≡ atan2_base ieee a b }
{
    if a == 0.0 && b == 0.0 {
        return 0.0;
    }
    if a <= b { angle } else { FRAC_PI_2 - angle }
}

// The angle of the point (x, y), from that of its sizes' tangent.
#[tactic(auto, using(elementary::proofs::Angles::atan2s), unfolding(elementary::specs::Constants::PI))]
fn atan2_from(y: f64, x: f64, angle: f64) -> f64
    requires { angle ≡ core ieee (tangent ieee (abs y) (abs x)) }
    ensures { result ≡ atan2 ieee y x }
{
    if !answer::is_finite(y) {
        return f64::NAN;
    }
    if !answer::is_finite(x) {
        return f64::NAN;
    }
    let base = atan2_base(abs(y), abs(x), angle);
    if negative(x) {
        with_sign(negative(y), PI - base)
    } else {
        with_sign(negative(y), base)
    }
}

// The angle of the point (x, y), from -π to π.
pub fn atan2(y: f64, x: f64) -> f64
    ensures { result ≡ atan2 ieee y x }
{
    atan2_from(y, x, core(tangent(y, x)))
}

// The angles of the points (x, y) and (u, v), in about the time of one.
pub fn atan2_both(y: f64, x: f64, v: f64, u: f64) -> (f64, f64)
    ensures { (result.0 ≡ atan2 ieee y x) × (result.1 ≡ atan2 ieee v u) }
{
    let angles = core_both(tangent(y, x), tangent(v, u));
    (atan2_from(y, x, angles.0), atan2_from(v, u, angles.1))
}

// The angle of the point (x, y), and beside its first root that of z: two roots at once take about the time of one.
pub fn atan2_and_sqrt(y: f64, x: f64, z: f64) -> AngleAndRoot
    ensures { (result.angle ≡ atan2 ieee y x) × (result.root ≡ sqrt z) }
{
    let found = core_and_sqrt(tangent(y, x), z);
    AngleAndRoot {
        angle: atan2_from(y, x, found.angle),
        root: found.root,
    }
}
