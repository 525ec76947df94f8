// Sine and remainder as C functions, for the benchmark alone: bindings/library has the crates of the library's own calls.
#![tactic(auto)]

ghost use Rattle.std.specs.Prelude.{◌≡◌};
ghost use Rattle.std.specs.Float.{binary64};
ghost use Rattle.std.specs.Float.Ieee.{rem};
ghost use Rattle.arithmetic.specs.Arith.{ieee};
ghost use Rattle.elementary.specs.Sine.{sin_given};
ghost use Rattle.exports_elementary.specs.Value.{value_or_nan};

use elementary::remainder::remainder;
use sine::sin;

// The sine, and a NaN where the angle is outside.
#[unsafe(no_mangle)]
pub extern "C" fn a5_sin(x: f64) -> f64
    ensures { result ≡ value_or_nan (sin_given ieee x) }
{
    sin(x).unwrap_or(f64::NAN)
}

// What x / y leaves.
#[unsafe(no_mangle)]
pub extern "C" fn a5_remainder(x: f64, y: f64) -> f64
    ensures { result ≡ rem binary64 x y }
{
    remainder(x, y)
}
