// Core (document 01, "Elementary steps"): the angle of a tangent in 0..1, alone, of two tangents at
// once, and beside a square root.
ghost use Rattle.std.specs.Prelude.{◌≡◌};
ghost use Rattle.std.specs.Float.{binary64};
ghost use Rattle.std.specs.Float.Ieee.{mul};
ghost use Rattle.arithmetic.specs.Arith.{ieee};
ghost use Rattle.arithmetic.specs.Numbers.{4·0};
ghost use Rattle.arithmetic.specs.Sqrt.{sqrt};
ghost use Rattle.elementary.specs.Sine.{series};
ghost use Rattle.elementary.specs.Constants.{core_first, core_rest};
ghost use Rattle.elementary.specs.Arctangent.{halved, core};

use elementary::alternating::series;
use square_root::root::{sqrt, sqrt_both};

// 1/k, each in one division: of 25, and then of the others, down to 1.
const CORE_FIRST: f64 = 1.0 / 25.0;

const CORE_REST: [f64; 12] = [
    1.0 / 23.0,
    1.0 / 21.0,
    1.0 / 19.0,
    1.0 / 17.0,
    1.0 / 15.0,
    1.0 / 13.0,
    1.0 / 11.0,
    1.0 / 9.0,
    1.0 / 7.0,
    1.0 / 5.0,
    1.0 / 3.0,
    1.0 / 1.0,
];

// The tangent of half the angle whose tangent is t.
#[tactic(auto, unfolding(elementary::specs::Arctangent::halved))]
fn halved(t: f64) -> f64
    ensures { result ≡ halved ieee t }
{
    t / (1.0 + sqrt(1.0 + t * t))
}

// Both halved, their roots found together.
#[tactic(auto, unfolding(elementary::specs::Arctangent::halved))]
fn halved_both(t: f64, u: f64) -> (f64, f64)
    ensures { (result.0 ≡ halved ieee t) × (result.1 ≡ halved ieee u) }
{
    let roots = sqrt_both(1.0 + t * t, 1.0 + u * u);
    (t / (1.0 + roots.0), u / (1.0 + roots.1))
}

// The angle of which t is the tangent of a quarter: by the series.
fn from_quarter(t: f64) -> f64
    ensures { result ≡ mul binary64 4·0 (mul binary64 t (series ieee (mul binary64 t t) core_first core_rest)) }
{
    4.0 * (t * series(t * t, CORE_FIRST, &CORE_REST))
}

// The angle in 0..π/4 whose tangent is t, in 0..1; by the same steps for every other t.
#[tactic(auto, unfolding(elementary::specs::Arctangent::core))]
pub fn core(t: f64) -> f64
    ensures { result ≡ core ieee t }
{
    from_quarter(halved(halved(t)))
}

// Both angles, in about the time of one.
pub fn core_both(t: f64, u: f64) -> (f64, f64)
    ensures { (result.0 ≡ core ieee t) × (result.1 ≡ core ieee u) }
{
    let half = halved_both(t, u);
    let quarter = halved_both(half.0, half.1);
    (from_quarter(quarter.0), from_quarter(quarter.1))
}

// An angle, and the square root that is found beside it, by name: both are plain numbers.
#[derive(Clone, Copy)]
pub struct AngleAndRoot {
    pub angle: f64,
    pub root: f64,
}

// The angle, and beside its first root that of x: two roots at once take about the time of one.
pub fn core_and_sqrt(t: f64, x: f64) -> AngleAndRoot
    ensures { (result.angle ≡ core ieee t) × (result.root ≡ sqrt x) }
{
    let roots = sqrt_both(1.0 + t * t, x);
    AngleAndRoot {
        angle: from_quarter(halved(t / (1.0 + roots.0))),
        root: roots.1,
    }
}
