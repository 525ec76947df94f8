// The binary digits of a square root, one a round from its first 1 on, until none is left or those found are the exact root (Paper 2), and
// the whole number nearest to it.
ghost use Rattle.std.specs.Prelude.{◌≡◌, ◌+◌, ◌-◌, ◌*◌, ◌^◌, ◌<◌, ◌≤◌, if◌then◌else◌, nat_le};
ghost use Rattle.arithmetic.specs.Sqrt.{nearest_root};
ghost use Rattle.square_root.specs.Digits.{Marked, Found, Ended, FoundBoth};

// y for the next digit: twice y - t, or twice y where t is above it. The sign bit of the difference makes a mask: no branch. The
// doubling is a sum that could wrap for all that the compiler knows, so that the loop's test of y is made by the sum itself.
fn rest(y: u64, t: u64) -> u64
    requires { (y < 2 ^ 63) × (t < 2 ^ 63) }
    ensures { result ≡ 2 * (if nat_le t y then y - t else y) }
{
    let d = std::num::wrapping_sub_u64(y, t);
    let left = std::num::wrapping_add_u64(d, t & std::num::wrapping_sub_u64(0, d >> 63));
    std::num::wrapping_add_u64(left, left)
}

// t for the next digit, whose weight is r / 2: t + 3 * r where the digit of weight r is 1, else t - r. The latter is t with the
// digits of 2 * r and r changed, and written so: as a difference the two would be made one sum of t and a chosen number, which
// waits for the choice. Here both are ready before it.
fn following(y: u64, t: u64, r: u64) -> u64
    requires { (t < 2 ^ 62) × Marked t r }
    ensures { result ≡ (if nat_le t y then t + 3 * r else t - r) }
{
    let c = 3 * r;
    if y < t { t ^ c } else { t + c }
}

// The digits of the root of m * 2^52 so far. With q for the digits found, zeros after them, and w for the weight of the last,
// t is 4 * q + w, y is four times what q's square leaves of m * 2^52, in units of w, so that it stays below 2^57 and one word
// is enough, and r is w / 2, the weight of the next digit. That digit is 1 where y is at least t. What they say of m is asked by
// clauses, Found, and Ended once no digit is left. A ghost field would carry m along, for each function to compare with its own, and a
// second type for digits that have ended would hold the same four words.
#[derive(Clone, Copy)]
pub struct Digits {
    pub t: u64,
    pub y: u64,
    pub r: u64,
    pub rounds: u32,
}

// Before the first round.
pub fn no_digits(m: u64) -> Digits
    requires { (2 ^ 52 ≤ m) × (m < 2 ^ 54) }
    ensures { Found (m * 2 ^ 52) result.t result.y result.r result.rounds × (result.rounds ≡ 0) }
{
    Digits {
        t: 0x20_0000_0000_0000,
        y: 2 * m,
        r: 0x10_0000_0000_0000,
        rounds: 0,
    }
}

// The digits from those that are found, one a round, until none is left or those found are the exact root. t itself is
// carried, so that a round waits for a subtraction, a choice and a doubling, and nothing waits for the loop's tests. The rounds are an
// answer, and what is left ends the loop: no index is counted.
pub fn digits_from(m: u64, found: Digits) -> Digits
    requires { (m < 2 ^ 54) × Found (m * 2 ^ 52) found.t found.y found.r found.rounds }
    ensures { Ended (m * 2 ^ 52) result.t result.y result.r result.rounds }
{
    let mut t = found.t;
    let mut y = found.y;
    let mut r = found.r;
    let mut rounds = found.rounds;
    while y > 0 && r > 0 {
        let left = rest(y, t);
        t = following(y, t, r);
        y = left;
        r /= 2;
        rounds += 1;
    }
    Digits { t, y, r, rounds }
}

// The digits of two roots, as far as they are found together: one of each a round, until none is left or those found of one are the
// exact root. The two wait for each other's words nowhere, so that the processor works on both at once. The words are t and y for the
// first, u and z for the second. One test sees whether nothing is left of either; it leaves the loop too where y and z are above 0 and
// have no digit in common. The rounds are an answer, and what is left ends the loop: no index is counted.
pub fn digits_of_both(m: u64, n: u64) -> (Digits, Digits)
    requires { (2 ^ 52 ≤ m) × (m < 2 ^ 54) × (2 ^ 52 ≤ n) × (n < 2 ^ 54) }
    ensures { FoundBoth (m * 2 ^ 52) (n * 2 ^ 52) result }
{
    let mut t: u64 = 0x20_0000_0000_0000;
    let mut y = 2 * m;
    let mut u: u64 = 0x20_0000_0000_0000;
    let mut z = 2 * n;
    let mut r: u64 = 0x10_0000_0000_0000;
    let mut rounds: u32 = 0;
    while r > 0 && y & z > 0 {
        let left = rest(y, t);
        t = following(y, t, r);
        y = left;
        let left = rest(z, u);
        u = following(z, u, r);
        z = left;
        r /= 2;
        rounds += 1;
    }
    let first = Digits { t, y, r, rounds };
    let second = Digits {
        t: u,
        y: z,
        r,
        rounds,
    };
    (first, second)
}

// The whole number nearest to the root: the digits, or 1 more where the root lies beyond them by more than 1/2. It never lies
// at 1/2, since t is odd then.
pub fn rounded(m: u64, d: Digits) -> u64
    requires { (m < 2 ^ 54) × Ended (m * 2 ^ 52) d.t d.y d.r d.rounds }
    ensures { result ≡ nearest_root 53 (m * 2 ^ 52) }
{
    let q = (d.t - 2 * d.r) / 4;
    if d.t < d.y { q + 1 } else { q }
}
