// The triangle that a point belongs to, and whether it lies beyond the face's edge.
ghost use Rattle.std.specs.Prelude.{◌≡◌, ◌<◌};
ghost use Rattle.arithmetic.specs.Arith.{ieee};
ghost use Rattle.elementary.specs.Whole.{signed};
ghost use Rattle.tiling.specs.Cut.{as_whole};
ghost use Rattle.tiling.specs.Index.{modulo10, triangle_index, normalize_gamma, should_reflect};

use coordinates::base::Radians;
use coordinates::polar::Polar;
use elementary::remainder::remainder;
use elementary::signs::{abs, negative};
use elementary::whole::{floor, round};
use sine::inside::cos_inside;
use std::f64::consts::{PI, TAU};

const PI_OVER_5: f64 = PI / 5.0;

const TWO_PI_OVER_5: f64 = TAU / 5.0;

const DISTANCE_TO_EDGE: f64 = 0.6180339887498949;

// 2^52, far above every quotient that a call has. `elementary::whole` has this number for a reason of its own: from there on a value is whole.
const LARGE: f64 = 4503599627370496.0;

// The whole number k or -k, mod 10 and never negative. The same mod 4 stands in `sine::inside`, two lines as here: one function of both would
// take the modulus as a const beside the sign and k, and its proof would be of any modulus.
fn modulo(below: bool, k: u64) -> u8
    ensures { result ≡ modulo10 (signed below k) }
{
    if below {
        ((10 - k % 10) % 10) as u8
    } else {
        (k % 10) as u8
    }
}

// The whole number x, mod 10 and never negative; 0 for a NaN and an infinity.
fn whole_modulo(x: f64) -> u8
    ensures { result ≡ modulo10 (as_whole x) }
{
    let a = abs(x);
    if a < LARGE {
        return modulo(negative(x), std::num::truncating_f64_to_u64(a));
    }
    if !answer::is_finite(x) {
        return 0;
    }
    let left = remainder(a, 10.0);
    modulo(negative(x), std::num::truncating_f64_to_u64(left))
}

// The index of the triangle, 0 to 9.
pub fn get_face_triangle_index(polar: Polar) -> u8
    ensures index { result ≡ triangle_index ieee polar.gamma }
    ensures below { result < 10 }
{
    let quotient = polar.gamma.0 / PI_OVER_5;
    let whole = floor(quotient);
    whole_modulo(whole)
}

// The angle from the bisector of the triangle's quintant.
pub fn normalize_gamma(gamma: Radians) -> Radians
    ensures { result ≡ normalize_gamma ieee gamma }
{
    let segment = gamma.0 / TWO_PI_OVER_5;
    let center = round(segment);
    Radians((segment - center) * TWO_PI_OVER_5)
}

// Whether the point lies beyond the edge of the face. Of to_face only x is needed.
pub fn should_reflect(polar: Polar) -> bool
    ensures { result ≡ should_reflect ieee polar }
{
    let gamma = polar.gamma;
    let beta = normalize_gamma(gamma);
    let x = polar.rho * cos_inside(beta.0);
    x > DISTANCE_TO_EDGE
}
