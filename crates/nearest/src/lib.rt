// The origin nearest to a point: of the built-in table, or of another. The call, with its checks,
// is `call::nearest`. That a point's angles are not outside is asked by each function and is no type's: a type of such points
// would be built and taken apart beside `Spherical`, in each caller, by the proof that the clause asks.
#![tactic(auto)]

ghost use Rattle.std.specs.Prelude.{◌≡◌, false};
ghost use Rattle.std.specs.Float.{binary64};
ghost use Rattle.std.specs.Float.Ieee.{mul, div};
ghost use Rattle.arithmetic.specs.Arith.{ieee};
ghost use Rattle.elementary.specs.Sine.{outside, sin};
ghost use Rattle.coordinates.specs.Constants.{2·0};
ghost use Rattle.origin.specs.Origins.{ORIGINS};
ghost use Rattle.nearest.specs.Nearest.{least, haversine, haversines, nearest_origin};

pub mod call;
pub mod origins;

use crate::origins::{BuiltIn, Origins};
use coordinates::spherical::Spherical;
use origin::table::{SoundTable, origin_in};
use sine::inside::sin_inside;

// Modified haversine formula of the Rust: it grows with the angle between the two. The sine of the
// point's phi is handed over, since several axes share it.
fn haversine_by(point: Spherical, sine: f64, axis: Spherical) -> f64
    requires point { (outside point.theta.0 ≡ false) × (outside point.phi.0 ≡ false) }
    requires axis { (outside axis.theta.0 ≡ false) × (outside axis.phi.0 ≡ false) }
    requires sine_value { sine ≡ sin ieee point.phi.0 }
    ensures { result ≡ haversine ieee point axis }
{
    let theta = point.theta.0;
    let phi = point.phi.0;
    let theta2 = axis.theta.0;
    let phi2 = axis.phi.0;
    let dtheta = theta2 - theta;
    let dphi = phi2 - phi;
    let a1 = sin_inside(dphi / 2.0);
    let a2 = sin_inside(dtheta / 2.0);
    a1 * a1 + a2 * a2 * sine * sin_inside(phi2)
}

// The haversine of a point and an axis.
pub fn haversine(point: Spherical, axis: Spherical) -> f64
    requires point { (outside point.theta.0 ≡ false) × (outside point.phi.0 ≡ false) }
    requires axis { (outside axis.theta.0 ≡ false) × (outside axis.phi.0 ≡ false) }
    ensures { result ≡ haversine ieee point axis }
{
    haversine_by(point, sin_inside(point.phi.0), axis)
}

// The square of the sine of half an angle.
fn half_sine_squared(d: f64) -> f64
    requires { outside (div binary64 d 2·0) ≡ false }
    ensures { result ≡ mul binary64 (sin ieee (div binary64 d 2·0)) (sin ieee (div binary64 d 2·0)) }
{
    let a = sin_inside(d / 2.0);
    a * a
}

// The sine of the axis's phi in both rings, and at the south pole; at the north pole it is 0.
const RING_SINE: f64 = 0.8944271909999159;

const SOUTH_SINE: f64 = 1.2246467991473532e-16;

// From the point to each of the twelve axes. They share four values of phi and ten of theta, these each a number of tenths of a turn,
// so that 15 sines do for 48. The angles are written as the table has them, π among them.
pub(crate) fn haversines(point: Spherical) -> [f64; 12]
    requires { (outside point.theta.0 ≡ false) × (outside point.phi.0 ≡ false) }
    ensures { result ≡ haversines ieee ORIGINS point }
{
    let theta = point.theta.0;
    let phi = point.phi.0;
    let s = sin_inside(phi);
    let north = half_sine_squared(0.0 - phi);
    let upper = half_sine_squared(1.1071487177940904 - phi);
    let lower = half_sine_squared(2.0344439357957027 - phi);
    let south = half_sine_squared(3.141592653589793 - phi);
    let t0 = half_sine_squared(0.0 - theta);
    let t1 = half_sine_squared(0.6283185307179586 - theta);
    let t2 = half_sine_squared(1.2566370614359172 - theta);
    let t3 = half_sine_squared(1.8849555921538759 - theta);
    let t4 = half_sine_squared(2.5132741228718345 - theta);
    let t5 = half_sine_squared(3.141592653589793 - theta);
    let t6 = half_sine_squared(3.7699111843077517 - theta);
    let t7 = half_sine_squared(4.39822971502571 - theta);
    let t8 = half_sine_squared(5.026548245743669 - theta);
    let t9 = half_sine_squared(5.654866776461628 - theta);
    [
        north + t0 * s * 0.0,
        upper + t0 * s * RING_SINE,
        lower + t1 * s * RING_SINE,
        lower + t3 * s * RING_SINE,
        upper + t2 * s * RING_SINE,
        upper + t4 * s * RING_SINE,
        upper + t6 * s * RING_SINE,
        lower + t7 * s * RING_SINE,
        lower + t5 * s * RING_SINE,
        south + t0 * s * SOUTH_SINE,
        lower + t9 * s * RING_SINE,
        upper + t8 * s * RING_SINE,
    ]
}

// The place of the least, the first where several are equal. Not std's `min_by`: `total_cmp` tells -0 from +0 and ranks a NaN; here the
// two are equal, and a NaN is never less.
pub(crate) fn least(distances: &[f64; 12]) -> u8
    ensures { result ≡ least distances.now }
{
    let mut min_distance = f64::INFINITY;
    let mut nearest = 0;
    for (i, &distance) in distances.iter().enumerate() {
        if distance < min_distance {
            min_distance = distance;
            nearest = i as u8;
        }
    }
    nearest
}

// From the point to each of a table's twelve axes. Each is written at its index: by `from_fn` the closure wants both clauses of the loop's
// body beside it and a cast of the index, and what a zip with `iter_mut` has written, no proof knows.
pub(crate) fn haversines_in(table: SoundTable<'_>, point: Spherical) -> [f64; 12]
    requires { (outside point.theta.0 ≡ false) × (outside point.phi.0 ≡ false) }
    ensures { result ≡ haversines ieee table.entry.rows.now point }
{
    let sine = sin_inside(point.phi.0);
    let mut distances = [0.0; 12];
    for k in 0..12 {
        distances[usize::from(k)] = haversine_by(point, sine, origin_in(table.rows, k).axis);
    }
    distances
}

// The lowest-numbered origin of the built-in table with the least haversine, without the checks of the call. That the table is sound,
// which the method asks of any, is known of it.
#[tactic(auto, using(origin::proofs::Sizes::origins_sound))]
pub fn find_nearest_origin(point: Spherical) -> u8
    requires { (outside point.theta.0 ≡ false) × (outside point.phi.0 ≡ false) }
    ensures { result ≡ nearest_origin ieee ORIGINS point }
{
    BuiltIn.find_nearest_origin(point)
}
