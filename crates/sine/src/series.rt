// The sine and cosine series, and the pair after so many quarter turns and what is left of an angle
// (document 01, "Elementary steps").
ghost use Rattle.std.specs.Prelude.{◌≡◌};
ghost use Rattle.std.specs.Float.{binary64};
ghost use Rattle.std.specs.Float.Ieee.{mul};
ghost use Rattle.arithmetic.specs.Arith.{ieee};
ghost use Rattle.elementary.specs.Constants.{sine_first, sine_rest, cosine_first, cosine_rest};
ghost use Rattle.elementary.specs.Sine.{series, sin_cos_reduced};

use elementary::alternating::series;
use elementary::sine::SinCos;

// c(k) = 1/k!, each in one division: c(17), and then the others, down to c(1).
const SINE_FIRST: f64 = 1.0 / 355687428096000.0;

const SINE_REST: [f64; 8] = [
    1.0 / 1307674368000.0,
    1.0 / 6227020800.0,
    1.0 / 39916800.0,
    1.0 / 362880.0,
    1.0 / 5040.0,
    1.0 / 120.0,
    1.0 / 6.0,
    1.0 / 1.0,
];

// c(16), and then the others, down to c(0).
const COSINE_FIRST: f64 = 1.0 / 20922789888000.0;

const COSINE_REST: [f64; 8] = [
    1.0 / 87178291200.0,
    1.0 / 479001600.0,
    1.0 / 3628800.0,
    1.0 / 40320.0,
    1.0 / 720.0,
    1.0 / 24.0,
    1.0 / 2.0,
    1.0 / 1.0,
];

// S = r·p, where z is r·r.
fn sine_series(r: f64, z: f64) -> f64
    ensures { result ≡ mul binary64 r (series ieee z sine_first sine_rest) }
{
    r * series(z, SINE_FIRST, &SINE_REST)
}

// C = p, where z is r·r.
fn cosine_series(z: f64) -> f64
    ensures { result ≡ series ieee z cosine_first cosine_rest }
{
    series(z, COSINE_FIRST, &COSINE_REST)
}

// The sine after k quarter turns and r: only the series that it needs.
#[tactic(auto, using(elementary::proofs::Quarters::turned))]
pub fn sin_at(k: u64, r: f64) -> f64
    ensures { result ≡ (sin_cos_reduced ieee k r).sin }
{
    let z = r * r;
    match k {
        0 => sine_series(r, z),
        1 => cosine_series(z),
        2 => -sine_series(r, z),
        _ => -cosine_series(z),
    }
}

// The cosine after k quarter turns and r. A match of its own: sin_at(k + 1, r) is the same only for k below 3, and
// sin_at((k + 1) % 4, r) is not for 4, 5, 6 and others, which nothing rules out.
#[tactic(auto, using(elementary::proofs::Quarters::turned))]
pub fn cos_at(k: u64, r: f64) -> f64
    ensures { result ≡ (sin_cos_reduced ieee k r).cos }
{
    let z = r * r;
    match k {
        0 => cosine_series(z),
        1 => -sine_series(r, z),
        2 => -cosine_series(z),
        _ => sine_series(r, z),
    }
}

// The pair after k quarter turns and r.
#[tactic(auto, using(elementary::proofs::Quarters::turned))]
pub fn sin_cos_at(k: u64, r: f64) -> SinCos
    ensures { result ≡ sin_cos_reduced ieee k r }
{
    let z = r * r;
    let s = sine_series(r, z);
    let c = cosine_series(z);
    let (sin, cos) = match k {
        0 => (s, c),
        1 => (c, -s),
        2 => (-s, -c),
        _ => (-c, s),
    };
    SinCos { sin, cos }
}
