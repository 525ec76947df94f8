// Sine, cosine and tangent of an argument that is proved not to be outside: finite numbers beyond ±64
// are (Paper 7). An angle is reduced to what is left of it after quarter turns. That x is not outside is asked of each call and is
// no type's: nearly every argument is a sum or a quotient made for the call, which would have to build that type and owe the same proof.
ghost use Rattle.std.specs.Prelude.{◌≡◌, true, false, IfNone, IfSome};
ghost use Rattle.std.specs.Float.{binary64};
ghost use Rattle.std.specs.Float.Ieee.{mul, rem, lt};
ghost use Rattle.answer.specs.Number.{is_finite};
ghost use Rattle.arithmetic.specs.Arith.{ieee};
ghost use Rattle.elementary.specs.Signs.{abs};
ghost use Rattle.elementary.specs.Constants.{TAU as the_tau, FRAC_2_PI as the_frac_2_pi};
ghost use Rattle.elementary.specs.Whole.{roundℤ};
ghost use Rattle.elementary.specs.Sine.{outside, modulo4, whole_float, sin_cos_reduced, sin_cos, sin, cos, tan};

use crate::series::{cos_at, sin_at, sin_cos_at};
use elementary::sine::SinCos;
use std::f64::consts::{FRAC_2_PI, FRAC_PI_2, TAU};

// Nearly what FRAC_PI_2 leaves out of π / 2.
const PI_2_REST: f64 = 6.123233995736766e-17;

// x mod one turn. A value within a turn is its own, which spares the call.
#[tactic(auto, using(elementary::proofs::Turn::left_within, elementary::proofs::Turn::within_own), unfolding(elementary::specs::Constants::TAU))]
fn within_turn(x: f64) -> f64
    requires { is_finite x ≡ true }
    ensures left { result ≡ rem binary64 x the_tau }
    ensures within { lt (abs result) the_tau ≡ true }
{
    if elementary::signs::abs(x) < TAU {
        x
    } else {
        elementary::remainder::remainder(x, TAU)
    }
}

// The size of a finite number: abs without its test for a NaN, which the processor would wait for.
fn size(q: f64) -> f64
    requires { is_finite q ≡ true }
    ensures { result ≡ abs q }
{
    f64::from_bits(f64::to_bits(q) % 0x8000_0000_0000_0000)
}

// The whole number of quarter turns nearest to an angle within a turn, and that number mod 4. Its sign comes by 0.0 - w, not -w: a
// whole number has no -0.
fn quarters(y: f64) -> (f64, u64)
    requires { lt (abs y) the_tau ≡ true }
    ensures n_is { result.0 ≡ whole_float ieee (roundℤ (mul binary64 y the_frac_2_pi)) }
    ensures quarter_is { result.1 ≡ modulo4 (roundℤ (mul binary64 y the_frac_2_pi)) }
{
    let q = y * FRAC_2_PI;
    let k = elementary::whole::nearest_size(size(q));
    let w = k as f64;
    if q < 0.0 {
        (0.0 - w, (4 - k % 4) % 4)
    } else {
        (w, k % 4)
    }
}

// What is left of an angle after n quarter turns.
#[derive(Clone, Copy)]
struct Angle {
    r: f64,
    quarter: u64,
}

// Of an angle within a turn.
#[tactic(auto, using(elementary::proofs::Quarters::reduced_pair), unfolding(elementary::specs::Sine::reduced))]
fn to_quarter(y: f64) -> Angle
    requires { lt (abs y) the_tau ≡ true }
    ensures { sin_cos_reduced ieee result.quarter result.r ≡ sin_cos ieee y }
{
    let (n, quarter) = quarters(y);
    let r = (y - n * FRAC_PI_2) - n * PI_2_REST;
    Angle { r, quarter }
}

// What is left of x after quarter turns, where x is finite. Put into its callers, since a call costs 2 ns.
#[inline(always)]
#[tactic(auto, using(elementary::proofs::Quarters::by_turns))]
fn reduced(x: f64) -> Option<Angle>
    ensures none { IfNone result (is_finite x ≡ false) }
    ensures some { IfSome result (λ a. sin_cos_reduced ieee a.quarter a.r ≡ sin_cos ieee x) }
{
    if !answer::is_finite(x) {
        return None;
    }
    Some(to_quarter(within_turn(x)))
}

// The sine. A match on the same reduction in each of the three, which one function would take a closure and its clause for.
pub fn sin_inside(x: f64) -> f64
    requires { outside x ≡ false }
    ensures { result ≡ sin ieee x }
{
    match reduced(x) {
        Some(t) => sin_at(t.quarter, t.r),
        None => f64::NAN,
    }
}

// The cosine.
pub fn cos_inside(x: f64) -> f64
    requires { outside x ≡ false }
    ensures { result ≡ cos ieee x }
{
    match reduced(x) {
        Some(t) => cos_at(t.quarter, t.r),
        None => f64::NAN,
    }
}

// Sine and cosine from one reduction.
pub fn sin_cos_inside(x: f64) -> SinCos
    requires { outside x ≡ false }
    ensures { result ≡ sin_cos ieee x }
{
    match reduced(x) {
        Some(t) => sin_cos_at(t.quarter, t.r),
        None => SinCos {
            sin: f64::NAN,
            cos: f64::NAN,
        },
    }
}

// Sine / cosine.
pub fn tan_inside(x: f64) -> f64
    requires { outside x ≡ false }
    ensures { result ≡ tan ieee x }
{
    let p = sin_cos_inside(x);
    p.sin / p.cos
}
