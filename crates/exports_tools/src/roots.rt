// The square root and Paper 2's companion as C functions. Each takes any number and refuses none.
ghost use Rattle.std.specs.Prelude.{◌≡◌};
ghost use Rattle.arithmetic.specs.Sqrt.{sqrt};
ghost use Rattle.arithmetic.specs.Rounds.{sqrt_rounds};

use square_root::root;

// The square root, rounded to the nearest double.
#[unsafe(no_mangle)]
pub extern "C" fn a5_sqrt(x: f64) -> f64
    ensures { result ≡ sqrt x }
{
    root::sqrt(x)
}

// How many binary digits the exact root has; 53 where there is none, and 0 unless the number is finite and above 0.
#[unsafe(no_mangle)]
pub extern "C" fn a5_sqrt_rounds(x: f64) -> u32
    ensures { result ≡ sqrt_rounds x }
{
    root::sqrt_rounds(x)
}
