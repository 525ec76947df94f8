// The series of the sine, the cosine and Core: alternating, and worked from the last coefficient to the first.
ghost use Rattle.std.specs.Prelude.{◌≡◌};
ghost use Rattle.arithmetic.specs.Arith.{ieee};
ghost use Rattle.elementary.specs.Sine.{series};

// p, "then p = c - z·p" for each coefficient in turn. Each caller's coefficients are constants, so that the loop is straight code there.
#[inline(always)]
pub fn series(z: f64, first: f64, rest: &[f64]) -> f64
    ensures { result ≡ series ieee z first rest.now }
{
    let mut p = first;
    for c in rest {
        p = *c - z * p;
    }
    p
}
