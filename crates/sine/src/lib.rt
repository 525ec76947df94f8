// Sine, cosine and tangent (document 01, "Elementary steps"). They answer "outside" for finite
// arguments beyond ±64 (Paper 7); where an argument is proved not to be outside, those of `inside`
// give the value alone.
#![tactic(auto)]

pub mod inside;
mod series;

ghost use Rattle.std.specs.Prelude.{◌≡◌, true, false, OnOk, IfErr};
ghost use Rattle.answer.specs.Answer.{number_of, given};
ghost use Rattle.arithmetic.specs.Arith.{ieee};
ghost use Rattle.elementary.specs.Sine.{outside, sin_given, cos_given, sin_cos_given, tan_given};

use crate::inside::{cos_inside, sin_cos_inside, sin_inside, tan_inside};
use answer::Refusal;
use elementary::sine::SinCos;

// Whether x is finite and beyond ±64: 64 itself is not.
pub fn is_outside(x: f64) -> bool
    ensures { result ≡ outside x }
{
    answer::is_finite(x) && 64.0 < elementary::signs::abs(x)
}

// 19, where x is outside.
fn check_inside(x: f64) -> Result<(), Refusal>
    ensures inside { OnOk result (outside x ≡ false) }
    ensures refused { IfErr result (λ refusal. (number_of refusal ≡ 19) × (outside x ≡ true)) }
{
    if is_outside(x) {
        return Err(Refusal::AngleOutside);
    }
    Ok(())
}

// The sine, or "outside". Four functions, as document 01 has them, of two lines each: one would take a closure and its clause.
#[tactic(auto, unfolding(elementary::specs::Sine::sin_given, elementary::specs::Sine::unless_outside))]
pub fn sin(x: f64) -> Result<f64, Refusal>
    ensures { given result ≡ sin_given ieee x }
{
    check_inside(x)?;
    Ok(sin_inside(x))
}

// The cosine, or "outside".
#[tactic(auto, unfolding(elementary::specs::Sine::cos_given, elementary::specs::Sine::unless_outside))]
pub fn cos(x: f64) -> Result<f64, Refusal>
    ensures { given result ≡ cos_given ieee x }
{
    check_inside(x)?;
    Ok(cos_inside(x))
}

// Sine and cosine, or "outside".
#[tactic(auto, unfolding(elementary::specs::Sine::sin_cos_given, elementary::specs::Sine::unless_outside))]
pub fn sin_cos(x: f64) -> Result<SinCos, Refusal>
    ensures { given result ≡ sin_cos_given ieee x }
{
    check_inside(x)?;
    Ok(sin_cos_inside(x))
}

// The tangent, or "outside".
#[tactic(auto, unfolding(elementary::specs::Sine::tan_given, elementary::specs::Sine::unless_outside))]
pub fn tan(x: f64) -> Result<f64, Refusal>
    ensures { given result ≡ tan_given ieee x }
{
    check_inside(x)?;
    Ok(tan_inside(x))
}
