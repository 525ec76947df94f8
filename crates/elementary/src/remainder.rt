// What a division cut to a whole number leaves, of any two f64: Rust's % and C's fmod, in words of 64 bits.
ghost use Rattle.std.specs.Prelude.{◌≡◌, false, ◌*◌, ◌%◌, ◌^◌, ◌≤◌, ◌<◌, pos};
ghost use Rattle.std.specs.Float.{fin, binary64};
ghost use Rattle.std.specs.Float.Ieee.{lt, rem, of_bits};
ghost use Rattle.std.specs.Float.Ieee.Exact.{HasValue};
ghost use Rattle.elementary.specs.Signs.{negative};

// m * 2^k mod n. What is left stays below 2^53, so a word holds it with eleven places more: one division for each eleven. No index is
// counted: the places that are left end the loop.
fn shifted(m: u64, n: u64, k: u64) -> u64
    requires { (m < 2 ^ 53) × (0 < n) × (n < 2 ^ 53) }
    ensures { result ≡ m * 2 ^ k % n }
{
    let mut r = m;
    let mut j = k;
    while j > 11 {
        r = (r << 11) % n;
        j -= 11;
    }
    (r << j) % n
}

// The pattern of r * 2^g of the smallest values, 2^-1074.
fn joined(r: u64, g: u64) -> u64
    requires { (r < 2 ^ 53) × (g ≤ 2045) }
    ensures { (result < 2047 * 2 ^ 52) × HasValue (of_bits binary64 result) false (r * 2 ^ g) (2 ^ 1074) }
{
    if r == 0 {
        return 0;
    }
    let z = u64::from(r.leading_zeros()) - 11;
    // a subnormal has the exponent of the smallest normal ones
    if g < z {
        return r << g;
    }
    // the leading digit adds 1 to the exponent's field
    ((g - z) << 52) + (r << z)
}

// On the patterns of two values above zero, the first no smaller.
fn of_patterns(p: u64, q: u64) -> u64
    requires { (0 < p) × (p < 2047 * 2 ^ 52) × (0 < q) × (q < 2047 * 2 ^ 52) × (lt (of_bits binary64 p) (of_bits binary64 q) ≡ false) }
    ensures { (result < 2047 * 2 ^ 52) × (of_bits binary64 result ≡ rem binary64 (of_bits binary64 p) (of_bits binary64 q)) }
{
    let s = crate::parts::split(p);
    let t = crate::parts::split(q);
    let r = shifted(s.m, t.m, s.h - t.h);
    joined(r, t.h)
}

// Of two values with no sign, the first no smaller, or a NaN.
fn of_sizes(a: f64, b: f64) -> f64
    requires { (negative a ≡ false) × (negative b ≡ false) × (lt a b ≡ false) }
    ensures { result ≡ rem binary64 a b }
{
    // below 2 * b one subtraction is enough, and it is exact
    let d = a - b;
    if d < b {
        return d;
    }
    if !answer::is_finite(a) {
        return f64::NAN;
    }
    if 0.0 < b {
        f64::from_bits(of_patterns(f64::to_bits(a), f64::to_bits(b)))
    } else {
        f64::NAN
    }
}

// 1 with the sign of x. By bits and not by a branch, since signs come in no order. Std's copysign takes no NaN for the sign, and
// branches on the sign.
fn unit(x: f64) -> f64
    ensures { result ≡ fin (negative x) 1 (pos 0) }
{
    f64::from_bits(0x3ff0_0000_0000_0000 + ((answer::bits(x) >> 63) << 63))
}

// x - n * y, where n is x / y cut to a whole number: exact, with the sign of x. NaN where x is infinite or y is 0.
pub fn remainder(x: f64, y: f64) -> f64
    ensures { result ≡ rem binary64 x y }
{
    let a = crate::signs::abs(x);
    let b = crate::signs::abs(y);
    if a < b {
        return x;
    }
    of_sizes(a, b) * unit(x)
}
