// IEEE 754's square root, in 64-bit words: its binary digits, one a round (`root_digits`), and half the exponent. The rounds run
// are a call of their own.
ghost use Rattle.std.specs.Prelude.{◌≡◌, false, ◌*◌, ◌^◌, ◌≤◌, ◌<◌};
ghost use Rattle.std.specs.Float.{binary64};
ghost use Rattle.std.specs.Float.Ieee.{of_bits};
ghost use Rattle.std.specs.Float.Ieee.Positive.{positive};
ghost use Rattle.arithmetic.specs.Rounds.{sqrt_rounds};
ghost use Rattle.arithmetic.specs.Sqrt.{sqrt};
ghost use Rattle.square_root.specs.Digits.{Ended};
ghost use Rattle.square_root.specs.Root.{Pattern, Radicand};

use crate::root_digits::{Digits, digits_from, digits_of_both, no_digits, rounded};

// x's pattern where x is finite and above zero.
fn pattern(x: f64) -> Option<u64>
    ensures { Pattern x result }
{
    if x.is_nan() {
        return None;
    }
    let b = f64::to_bits(x);
    // +0's; infinity's, or with the sign bit
    if b == 0 || b >= 0x7ff0_0000_0000_0000 {
        return None;
    }
    Some(b)
}

// The value m * 2^h of the smallest ones, 2^-1074, as a * 2^g in units of 2^-1126, where a has the full width of 53 digits. A type
// of its own, as Number is: each counts in other units.
#[derive(Clone, Copy)]
struct Wide {
    a: u64,
    g: u64,
}

// No method of std brings a number to full width and says by how much.
fn widened(m: u64, h: u64) -> Wide
    requires { (0 < m) × (m < 2 ^ 53) × (h ≤ 2045) }
    ensures { (2 ^ 52 ≤ result.a) × (result.a < 2 ^ 53) × (result.g ≤ 2097) × (result.a * 2 ^ result.g ≡ m * 2 ^ h * 2 ^ 52) }
{
    // all but the subnormals have it
    if m >= 0x10_0000_0000_0000 {
        return Wide { a: m, g: h + 52 };
    }
    let z = u64::from(m.leading_zeros()) - 11;
    let a = m << z;
    let g = h + 52 - z;
    Wide { a, g }
}

// The value m * 4^e in units of 2^-1126, where m has 53 or 54 digits: an odd exponent gives the number one digit more.
#[derive(Clone, Copy)]
struct Number {
    m: u64,
    e: u64,
}

fn full_width(b: u64) -> Number
    requires { (0 < b) × (b < 2047 * 2 ^ 52) }
    ensures is { Radicand (of_bits binary64 b) result.m result.e }
    ensures width { (2 ^ 52 ≤ result.m) × (result.m < 2 ^ 54) }
{
    let p = elementary::parts::split(b);
    let n = widened(p.m, p.h);
    Number {
        m: n.a << (n.g % 2),
        e: n.g / 2,
    }
}

// The root of the value with pattern b: q * 2^e * 2^-589. q's leading digit adds 1 to the exponent's field.
fn root_value(b: u64, n: Number, d: Digits) -> f64
    requires { Radicand (of_bits binary64 b) n.m n.e × Ended (n.m * 2 ^ 52) d.t d.y d.r d.rounds }
    ensures { result ≡ sqrt (of_bits binary64 b) }
{
    f64::from_bits(((n.e + 485) << 52) + rounded(n.m, d))
}

// Of a zero or +infinity x itself, and NaN of anything else.
fn root_elsewhere(x: f64) -> f64
    requires { positive x ≡ false }
    ensures { result ≡ sqrt x }
{
    if x < 0.0 { f64::NAN } else { x }
}

// The root of a value, and the rounds that its digits took.
#[derive(Clone, Copy)]
struct RootAndRounds {
    root: f64,
    rounds: u32,
}

// Both from one loop: the count is that of the rounds by which the root was found.
fn counted(x: f64) -> RootAndRounds
    ensures { (result.root ≡ sqrt x) × (result.rounds ≡ sqrt_rounds x) }
{
    let Some(b) = pattern(x) else {
        let root = root_elsewhere(x);
        return RootAndRounds { root, rounds: 0 };
    };
    let n = full_width(b);
    let d = digits_from(n.m, no_digits(n.m));
    RootAndRounds {
        root: root_value(b, n, d),
        rounds: d.rounds,
    }
}

// The square root: of a finite x above zero the value nearest to its root, of a zero or +infinity x
// itself, and NaN of anything else.
pub fn sqrt(x: f64) -> f64
    ensures { result ≡ sqrt x }
{
    let r = counted(x);
    r.root
}

// The rounds that the root's digits take: of a finite x above zero the least count of digits that are the exact root, or 53
// where there is none; 0 of anything else. A call of its own beside sqrt: a caller wants one number of the two.
pub fn sqrt_rounds(x: f64) -> u32
    ensures { result ≡ sqrt_rounds x }
{
    let r = counted(x);
    r.rounds
}

// Both square roots, in about the time of one: the digits are found together until those of one are exact, and then the other's
// from where they stand.
pub fn sqrt_both(x: f64, y: f64) -> (f64, f64)
    ensures { (result.0 ≡ sqrt x) × (result.1 ≡ sqrt y) }
{
    if let Some(b) = pattern(x)
        && let Some(c) = pattern(y)
    {
        let n = full_width(b);
        let k = full_width(c);
        let (first, second) = digits_of_both(n.m, k.m);
        let d = digits_from(n.m, first);
        let first = root_value(b, n, d);
        let e = digits_from(k.m, second);
        let second = root_value(c, k, e);
        return (first, second);
    }
    (sqrt(x), sqrt(y))
}
