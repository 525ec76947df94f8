// Geodetic latitude to authalic, on the sphere of equal area, and back.
ghost use Rattle.std.specs.Prelude.{◌≡◌, false};
ghost use Rattle.arithmetic.specs.Arith.{ieee};
ghost use Rattle.elementary.specs.Sine.{outside};
ghost use Rattle.coordinates.specs.Authalic.{apply_coefficients, authalic_forward, authalic_inverse};

use coordinates::base::Radians;

const GEODETIC_TO_AUTHALIC: [f64; 6] = [
    -2.2392098386786394e-03,
    2.1308606513250217e-06,
    -2.5592576864212742e-09,
    3.3701965267802837e-12,
    -4.6675453126112487e-15,
    6.6749287038481596e-18,
];

const AUTHALIC_TO_GEODETIC: [f64; 6] = [
    2.2392089963541657e-03,
    2.8831978048607556e-06,
    5.0862207399726603e-09,
    1.0201812377816100e-11,
    2.1912872306767718e-14,
    4.9284235482523806e-17,
];

// The five steps of the Rust, the second with the "- c[5]" that it lacks there. No loop: it would carry the last two values from step
// to step, of which the first step has but one, and be no shorter.
#[tactic(auto, unfolding(coordinates::specs::Authalic::apply_coefficients))]
fn apply_coefficients(phi: Radians, c: [f64; 6]) -> Radians
    requires { outside phi.0 ≡ false }
    ensures { result ≡ apply_coefficients ieee phi c }
{
    let p = sine::inside::sin_cos_inside(phi.0);
    let sin_phi = p.sin;
    let cos_phi = p.cos;
    let x = 2.0 * (cos_phi - sin_phi) * (cos_phi + sin_phi);

    let u0 = x * c[5] + c[4];
    let u1 = x * u0 - c[5] + c[3];
    let u0 = x * u1 - u0 + c[2];
    let u1 = x * u0 - u1 + c[1];
    let u0 = x * u1 - u0 + c[0];

    Radians(phi.0 + 2.0 * sin_phi * cos_phi * u0)
}

// Geodetic to authalic.
pub fn forward(phi: Radians) -> Radians
    requires { outside phi.0 ≡ false }
    ensures { result ≡ authalic_forward ieee phi }
{
    apply_coefficients(phi, GEODETIC_TO_AUTHALIC)
}

// Authalic to geodetic.
#[tactic(auto, unfolding(coordinates::specs::Authalic::authalic_inverse))]
pub fn inverse(phi: Radians) -> Radians
    requires { outside phi.0 ≡ false }
    ensures { result ≡ authalic_inverse ieee phi }
{
    apply_coefficients(phi, AUTHALIC_TO_GEODETIC)
}
