// Document 01's floor and round. Std's methods of these names clear and set the sign by comparisons and choices: measured slower.
ghost use Rattle.std.specs.Prelude.{◌≡◌, ◌^◌, ◌≤◌, true, false, pos};
ghost use Rattle.std.specs.Float.{fin};
ghost use Rattle.std.specs.Float.Ieee.{lt};
ghost use Rattle.std.specs.Float.Ieee.Positive.{num, den};
ghost use Rattle.arithmetic.specs.Arith.{ieee};
ghost use Rattle.elementary.specs.Signs.{negative};
ghost use Rattle.elementary.specs.Whole.{round_size, floor, round};

// 2^52: no value from here on has a fraction.
const LARGE: f64 = 4503599627370496.0;

// Downward.
pub fn floor(x: f64) -> f64
    ensures { result ≡ floor ieee x }
{
    let a = crate::signs::abs(x);
    if !(a < LARGE) {
        return x;
    }
    let k = std::num::truncating_f64_to_u64(a);
    let y = k as f64;
    if y == a {
        return x;
    }
    if x < 0.0 { -((k + 1) as f64) } else { y }
}

// The size of the whole number nearest to a, halves away from zero. a + a is exact, and counts the
// halves.
pub fn nearest_size(a: f64) -> u64
    requires { (negative a ≡ false) × (lt a (fin false 1 (pos 52)) ≡ true) }
    ensures { (result ≡ round_size (num a) (den a)) × (result ≤ 2 ^ 52) }
{
    (std::num::truncating_f64_to_u64(a + a) + 1) / 2
}

// To the nearest, halves away from zero.
pub fn round(x: f64) -> f64
    ensures { result ≡ round ieee x }
{
    let a = crate::signs::abs(x);
    if !(a < LARGE) {
        return x;
    }
    let y = nearest_size(a) as f64;
    if y == a {
        return x;
    }
    if x < 0.0 { -y } else { y }
}
