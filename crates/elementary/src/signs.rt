// Document 01's abs and max(0.0), and the sign bit.
ghost use Rattle.std.specs.Prelude.{◌≡◌};
ghost use Rattle.elementary.specs.Signs.{abs, max_zero, negative};

// Clears the sign bit. A NaN has no bits to speak of, and stays. Std's abs compares twice and chooses: measured slower.
pub fn abs(x: f64) -> f64
    ensures { result ≡ abs x }
{
    if x.is_nan() {
        return x;
    }
    f64::from_bits(f64::to_bits(x) % 0x8000_0000_0000_0000)
}

// x where it is above 0, else +0, also for a NaN. Std's max may answer either zero where x is -0.
#[tactic(auto, unfolding(crate::specs::Signs::max_zero))]
pub fn max_zero(x: f64) -> f64
    ensures { result ≡ max_zero x }
{
    if 0.0 < x { x } else { 0.0 }
}

// Whether the sign bit is set, also that of -0. A NaN has none.
#[tactic(auto, using(crate::proofs::SignBit::negative_nan))]
pub fn negative(x: f64) -> bool
    ensures { result ≡ negative x }
{
    !x.is_nan() && x.is_sign_negative()
}
